//! The lint of a list.

ghost use Rattle.std.specs.Prelude.{◌≡◌, ◌+◌, ◌++◌, [], None, Some, All, IfOk, OnErr, OnOk};
ghost use Rattle.vast_lint.specs.Lint.{NotesAnswer, counted, told_of};
ghost use Rattle.vast_lint.specs.Notes.{end_rule, shown_at, told_by};

use crate::artifacts::artifact;
use crate::declared::Declared;
use crate::expressions::{expression, operator};
use crate::facts::{Fact, Kept, Known};
use crate::loops::generate;
use crate::modules::module;
use crate::notes::{Note, mend, mends, opened};
use crate::statements::statement;
use crate::types::data_type;
use crate::warning::{StepFindings, Warning};
use std::alloc::{AllocError, Global};
use vast_script::Step;
use xlsynth_vast::VastFileType;

/// What the lint keeps of the answers so far.
#[derive(Drop)]
pub struct Lint {
    alloc: Global,
    dialect: VastFileType,
    answers: Vec<Kept>,
    declared: Declared,
}

impl Lint {
    /// Before the first step of a list of the dialect. It takes no memory.
    pub fn new(alloc: Global, dialect: VastFileType) -> Lint
        ensures dialect { result.dialect ≡ dialect }
        ensures answers { result.answers.items ≡ [] }
    {
        Lint {
            alloc,
            dialect,
            answers: Vec::new(alloc),
            declared: Declared::new(alloc),
        }
    }

    /// How many answers there are so far.
    pub fn counted(&self) -> usize
        ensures { result ≡ counted self.now }
    {
        self.answers.len()
    }

    /// The step was made: its answer is the next. What is told of it, in order.
    ///
    /// # Errors
    /// `AllocError` where memory was refused; the answer is then not counted, but its names may be.
    pub fn step(&mut self, step: &Step) -> Result<Vec<Warning>, AllocError>
        ensures counted { OnOk result (counted self.new ≡ counted self.old + 1) }
        ensures noted { OnOk result (NotesAnswer self.old self.new (Some step.now)) }
        ensures numbers { IfOk result (λ told. All (λ w. w.number ≡ counted self.old) told.items) }
        ensures unchanged { OnErr result (self.new.answers.items ≡ self.old.answers.items) }
    {
        let number = self.answers.len();
        let mut told = StepFindings::new(self.alloc, number);
        let known = Known {
            alloc: self.alloc,
            dialect: self.dialect,
            answers: &self.answers,
        };
        let fact = fact_of(known, &mut self.declared, step, &mut told)?;
        let warnings = told.warnings(self.alloc, number)?;
        let note = opened(&self.answers, step);
        self.answers.push(Kept { fact, note })?;
        mend(&mut self.answers, mends(step));
        Ok(warnings)
    }

    /// Something that is no step gave the next answer, which is not looked at.
    ///
    /// # Errors
    /// `AllocError` where memory was refused; nothing is then counted.
    pub fn pass(&mut self) -> Result<(), AllocError>
        ensures counted { OnOk result (counted self.new ≡ counted self.old + 1) }
        ensures noted { OnOk result (NotesAnswer self.old self.new None) }
        ensures unchanged { OnErr result (self.new.answers.items ≡ self.old.answers.items) }
    {
        self.answers.push(Kept {
            fact: Fact::Other,
            note: Note::Nothing,
        })?;
        Ok(())
    }

    /// What is told of the list that ends here, in the order of the answers: what no later step has mended.
    ///
    /// # Errors
    /// `AllocError` where memory was refused.
    pub fn end(&self) -> Result<Vec<Warning>, AllocError>
        ensures { IfOk result (λ told. told.items ≡ told_of self.now) }
    {
        let mut warnings = Vec::new(self.alloc);
        for (number, answer) in self.answers.iter().enumerate() {
            tell_left(self.dialect, number, answer.note, &mut warnings)?;
        }
        Ok(warnings)
    }
}

/// What the step returns, as far as a rule asks.
fn fact_of(
    known: Known<'_>,
    declared: &mut Declared,
    step: &Step,
    told: &mut StepFindings,
) -> Result<Fact, AllocError> {
    match step {
        Step::Operators(step) => operator(known, step, told),
        Step::Expressions(step) => expression(known, step, told),
        Step::Types(step) => data_type(known, step, told),
        Step::Modules(step) => module(known, declared, step, told),
        Step::Loops(step) => generate(known, declared, step, told),
        Step::Statements(step) => statement(known, declared, step, told),
        Step::Artifacts(step) => artifact(known, declared, step, told),
    }
}

/// Tells the answer of this number, if no later step has mended it.
fn tell_left(
    dialect: VastFileType,
    number: usize,
    note: Note,
    warnings: &mut Vec<Warning>,
) -> Result<(), AllocError>
    ensures { OnOk result (warnings.new.items
        ≡ warnings.old.items ++ told_by (end_rule dialect note) number (shown_at note number)) }
{
    if let Some(rule) = note.rule(dialect) {
        warnings.push(Warning {
            rule,
            number,
            shown: note.shown_at(number),
        })?;
    }
    Ok(())
}
