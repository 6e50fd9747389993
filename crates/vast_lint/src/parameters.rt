//! Parameters.

use crate::declared::{Declared, declare};
use crate::facts::{Fact, Known};
use crate::forms::{Base, Form, TypeForm};
use crate::rule::Rule;
use crate::warning::StepFindings;
use std::alloc::AllocError;
use xlsynth_vast::DataKind;

/// A parameter of the name, in the module or the loop of this number, without a type.
pub(crate) fn parameter(
    known: Known<'_>,
    declared: &mut Declared,
    owner: usize,
    name: &str,
    told: &mut StepFindings,
) -> Result<Fact, AllocError> {
    declare(known, declared, owner, name, told)?;
    Ok(Fact::Expression(Form::Constant))
}

/// A parameter of the definition of this number, in the module or the loop of this number.
pub(crate) fn defined_parameter(
    known: Known<'_>,
    declared: &mut Declared,
    owner: usize,
    definition: usize,
    told: &mut StepFindings,
) -> Result<Fact, AllocError> {
    if let Some(Fact::Definition(kind, form, name)) = known.fact(definition) {
        declare(known, declared, owner, name, told)?;
        told.tell_any(definition_rule(known, *kind, *form))?;
    }
    Ok(Fact::Expression(Form::Constant))
}

/// The rule that tells a parameter that is declared by this kind and type.
fn definition_rule(known: Known<'_>, kind: DataKind, form: TypeForm) -> Option<Rule> {
    match kind {
        DataKind::Wire | DataKind::Genvar => Some(Rule::WireParameter),
        DataKind::Reg | DataKind::Logic | DataKind::Integer | DataKind::Int if form.is_named() => {
            Some(Rule::KindBeforeType)
        }
        DataKind::Reg => Some(Rule::RegParameter),
        DataKind::Logic if known.is_verilog() => Some(Rule::VerilogLogic),
        DataKind::Int if known.is_verilog() => Some(Rule::VerilogInt),
        DataKind::Integer | DataKind::Int if form.base == Base::Vector || form.packed > 0 => {
            Some(Rule::IntegerRange)
        }
        DataKind::Integer | DataKind::Int if form.is_unsigned => {
            Some(Rule::UnsignedIntegerParameter)
        }
        _ => array_rule(form),
    }
}

/// The rule that tells a parameter of this type in a module's header.
pub(crate) fn typed_rule(known: Known<'_>, form: TypeForm) -> Option<Rule> {
    match form.base {
        Base::Int if known.is_verilog() => Some(Rule::VerilogInt),
        Base::Scalar | Base::Vector if known.is_verilog() => Some(Rule::VerilogLogic),
        Base::Integer | Base::Int if form.is_unsigned => Some(Rule::UnsignedIntegerParameter),
        _ => array_rule(form),
    }
}

/// The rule that tells a parameter of this type, whatever its kind.
fn array_rule(form: TypeForm) -> Option<Rule> {
    if form.unpacked > 0 {
        Some(Rule::UnpackedParameter)
    } else if form.is_packed_array() || form.is_named() && form.packed > 0 {
        Some(Rule::PackedParameter)
    } else if form.base == Base::Package {
        Some(Rule::PackageParameter)
    } else {
        None
    }
}
