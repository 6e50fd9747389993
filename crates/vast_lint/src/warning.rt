//! What is told.

ghost use Rattle.std.specs.Prelude.{◌≡◌, All, IfOk};

use crate::rule::Rule;
use std::alloc::{AllocError, Global};

/// A form that an answer's step prints.
#[derive(Clone, Copy, Debug, PartialEq, Eq)]
pub struct Warning {
    pub rule: Rule,
    /// The answer's number, from 0.
    pub number: usize,
    /// The number of the expression whose text shows it, where there is one.
    pub shown: Option<usize>,
}

/// A form that a step prints, and the number of the expression that shows it.
#[derive(Clone, Copy)]
struct Finding {
    rule: Rule,
    shown: Option<usize>,
}

/// What is told of one step.
#[derive(Drop)]
pub(crate) struct StepFindings {
    /// The number of the step's answer.
    number: usize,
    findings: Vec<Finding>,
}

impl StepFindings {
    pub(crate) fn new(alloc: Global, number: usize) -> StepFindings {
        StepFindings {
            number,
            findings: Vec::new(alloc),
        }
    }

    fn push(&mut self, rule: Rule, shown: Option<usize>) -> Result<(), AllocError> {
        self.findings.push(Finding { rule, shown })?;
        Ok(())
    }

    /// Where `is_so`, the step prints such a form.
    pub(crate) fn tell_if(&mut self, is_so: bool, rule: Rule) -> Result<(), AllocError> {
        if is_so {
            self.push(rule, None)?;
        }
        Ok(())
    }

    /// The step prints such a form, if there is a rule.
    pub(crate) fn tell_any(&mut self, rule: Option<Rule>) -> Result<(), AllocError> {
        match rule {
            Some(rule) => self.push(rule, None),
            None => Ok(()),
        }
    }

    /// Where `is_so`, the step's expression is such a form.
    pub(crate) fn show_if(&mut self, is_so: bool, rule: Rule) -> Result<(), AllocError> {
        if is_so {
            self.push(rule, Some(self.number))?;
        }
        Ok(())
    }

    /// The step's expression is such a form, if there is a rule.
    pub(crate) fn show_any(&mut self, rule: Option<Rule>) -> Result<(), AllocError> {
        self.show_other(rule, self.number)
    }

    /// The expression of this number is such a form, if there is a rule.
    pub(crate) fn show_other(
        &mut self,
        rule: Option<Rule>,
        shown: usize,
    ) -> Result<(), AllocError> {
        match rule {
            Some(rule) => self.push(rule, Some(shown)),
            None => Ok(()),
        }
    }

    /// The warnings of the answer of this number.
    pub(crate) fn warnings(&self, alloc: Global, number: usize) -> Result<Vec<Warning>, AllocError>
        ensures { IfOk result (λ made. All (λ w. w.number ≡ number) made.items) }
    {
        let mut made = Vec::new(alloc);
        for finding in &self.findings {
            made.push(Warning {
                rule: finding.rule,
                number,
                shown: finding.shown,
            })?;
        }
        Ok(made)
    }
}
