//! Functions and what they declare.

use crate::declared::{Declared, declare};
use crate::facts::{Fact, Known};
use crate::forms::{Base, TypeForm};
use crate::modules::{Word, variable_rule};
use crate::rule::Rule;
use crate::warning::StepFindings;
use crate::words::name_rule;
use std::alloc::AllocError;

/// A function of the name with a result of the type of this number.
pub(crate) fn function(
    known: Known<'_>,
    declared: &mut Declared,
    owner: usize,
    name: &str,
    result_type: usize,
    told: &mut StepFindings,
) -> Result<Fact, AllocError> {
    declare(known, declared, owner, name, told)?;
    if let Some(form) = known.type_form(result_type) {
        told.tell_any(result_rule(known, form))?;
    }
    Ok(Fact::Other)
}

/// The rule that tells a result of this type.
fn result_rule(known: Known<'_>, form: TypeForm) -> Option<Rule> {
    match form.base {
        Base::Package => Some(Rule::PackageResult),
        Base::Int if known.is_verilog() => Some(Rule::VerilogInt),
        _ => variable_rule(known, Word::Wire, form),
    }
}

/// An input of a function.
pub(crate) fn input(
    known: Known<'_>,
    word: Word,
    name: &str,
    data_type: usize,
    told: &mut StepFindings,
) -> Result<Fact, AllocError> {
    told.tell_any(name_rule(known.dialect, name))?;
    if let Some(form) = known.type_form(data_type) {
        told.tell_any(input_rule(known, word, form))?;
    }
    Ok(known.signal(data_type))
}

/// The rule that tells an input of this type. Before a type's name the word is left out.
fn input_rule(known: Known<'_>, word: Word, form: TypeForm) -> Option<Rule> {
    if form.unpacked > 0 {
        Some(Rule::UnpackedInput)
    } else if form.is_named() {
        variable_rule(known, Word::Wire, form)
    } else {
        variable_rule(known, word, form)
    }
}
