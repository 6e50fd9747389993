//! Calls of parts that are made beforehand, and that add them to modules.

use crate::declared::{Declared, declare_instance};
use crate::expressions::operand;
use crate::facts::{Fact, Known};
use crate::rule::Rule;
use crate::sides::assignment;
use crate::warning::StepFindings;
use crate::words::{comment_rule, name_rule};
use std::alloc::{AllocError, Global};
use std::collections::BTreeSet;
use vast_script::ArtifactStep;

/// What the call makes.
pub(crate) fn artifact(
    known: Known<'_>,
    declared: &mut Declared,
    step: &ArtifactStep,
    told: &mut StepFindings,
) -> Result<Fact, AllocError> {
    match step {
        ArtifactStep::MakeDef(name, kind, data_type) => match known.type_form(*data_type) {
            Some(form) => {
                let name = String::from_str(known.alloc, name)?;
                Ok(Fact::Definition(*kind, form, name))
            }
            None => Ok(Fact::Other),
        },
        ArtifactStep::MakeComment(text) => {
            told.tell_any(comment_rule(text))?;
            Ok(Fact::Other)
        }
        ArtifactStep::MakeContinuousAssignment(left, right)
        | ArtifactStep::MakeNonblockingAssignment(left, right)
        | ArtifactStep::MakeBlockingAssignment(left, right) => {
            assignment(known, *left, *right, told)?;
            Ok(Fact::Other)
        }
        ArtifactStep::MakeInstantiation(_, name, parameters, values, ports, signals) => {
            told.tell_any(name_rule(known.dialect, name))?;
            let is_twice = is_any_twice(known.alloc, parameters)?
                || is_any_twice(known.alloc, ports)?;
            told.tell_if(is_twice, Rule::ConnectedTwice)?;
            for value in values {
                operand(known, *value, told)?;
            }
            for signal in signals {
                if let Some(signal) = signal {
                    operand(known, *signal, told)?;
                }
            }
            Ok(Fact::Instance(String::from_str(known.alloc, name)?))
        }
        ArtifactStep::AddMemberInstantiation(owner, instance) => {
            add_instance(known, declared, *owner, *instance, told)?;
            Ok(Fact::Other)
        }
        _ => Ok(Fact::Other),
    }
}

/// Whether two of the names are the same.
pub(crate) fn is_any_twice(alloc: Global, names: &[String]) -> Result<bool, AllocError> {
    let mut known = BTreeSet::new(alloc);
    for name in names {
        let name = String::from_str(alloc, name)?;
        if !known.insert(name)? {
            return Ok(true);
        }
    }
    Ok(false)
}

/// The instance of this number stands in the module or the loop of this number.
pub(crate) fn add_instance(
    known: Known<'_>,
    declared: &mut Declared,
    owner: usize,
    instance: usize,
    told: &mut StepFindings,
) -> Result<(), AllocError> {
    match known.fact(instance) {
        Some(Fact::Instance(name)) => declare_instance(declared, owner, name, told),
        _ => Ok(()),
    }
}
