//! Types that are declared by name.

use crate::artifacts::is_any_twice;
use crate::declared::{Declared, FILE, declare};
use crate::expressions::operand;
use crate::facts::{Fact, Known};
use crate::forms::{Base, Form, TypeForm};
use crate::rule::Rule;
use crate::warning::StepFindings;
use std::alloc::AllocError;
use vast_script::ModuleStep;
use xlsynth_vast::DataKind;

/// What the call makes, if it declares a type.
pub(crate) fn typedef(
    known: Known<'_>,
    declared: &mut Declared,
    step: &ModuleStep,
    told: &mut StepFindings,
) -> Result<Fact, AllocError> {
    match step {
        ModuleStep::AddEnumTypedef(owner, name, base, names, values) => {
            declare_all(known, declared, *owner, name, names, told)?;
            enumeration(known, *base, values, told)
        }
        ModuleStep::AddFileEnumTypedef(name, base, names, values) => {
            declare_all(known, declared, FILE, name, names, told)?;
            enumeration(known, *base, values, told)
        }
        ModuleStep::AddStructTypedef(owner, name, fields) => {
            declare(known, declared, *owner, name, told)?;
            structure(known, fields, told)
        }
        ModuleStep::AddFileStructTypedef(name, fields) => {
            declare(known, declared, FILE, name, told)?;
            structure(known, fields, told)
        }
        _ => Ok(Fact::Other),
    }
}

/// The type's name and its entries' stand in the module of this number, or in the file.
fn declare_all(
    known: Known<'_>,
    declared: &mut Declared,
    owner: usize,
    name: &str,
    names: &[String],
    told: &mut StepFindings,
) -> Result<(), AllocError> {
    declare(known, declared, owner, name, told)?;
    for entry in names {
        declare(known, declared, owner, entry, told)?;
    }
    Ok(())
}

/// The type of the name, of which there are this many entries or fields.
fn named(known: Known<'_>, parts: usize, told: &mut StepFindings) -> Result<Fact, AllocError> {
    told.tell_if(parts == 0, Rule::EmptyTypedef)?;
    told.tell_if(known.is_verilog(), Rule::VerilogTypedef)?;
    Ok(Fact::Type(TypeForm::of(Base::External)))
}

/// An enumeration over the type of this number, with these values.
fn enumeration(
    known: Known<'_>,
    base: usize,
    values: &[Option<usize>],
    told: &mut StepFindings,
) -> Result<Fact, AllocError> {
    if let Some(form) = known.type_form(base) {
        told.tell_any(base_rule(form))?;
    }
    for value in values {
        if let Some(value) = value {
            operand(known, *value, told)?;
            told.tell_if(is_signal(known.form(*value)), Rule::SignalEntry)?;
        }
    }
    named(known, values.len(), told)
}

/// Whether such is a net, a variable or a part of one.
fn is_signal(form: Form) -> bool {
    match form {
        Form::Signal(_) | Form::Bit | Form::Part => true,
        _ => false,
    }
}

/// The rule that tells an enumeration over this type.
fn base_rule(form: TypeForm) -> Option<Rule> {
    if form.unpacked > 0 {
        Some(Rule::EnumArray)
    } else if form.is_named() || form.packed > 0 {
        Some(Rule::EnumBase)
    } else {
        None
    }
}

/// A structure of the definitions of these numbers.
fn structure(
    known: Known<'_>,
    fields: &[usize],
    told: &mut StepFindings,
) -> Result<Fact, AllocError> {
    let mut names = Vec::new(known.alloc);
    for field in fields {
        if let Some(Fact::Definition(kind, form, name)) = known.fact(*field) {
            told.tell_any(field_rule(*kind, *form))?;
            names.push(String::from_str(known.alloc, name)?)?;
        }
    }
    told.tell_if(is_any_twice(known.alloc, &names)?, Rule::FieldTwice)?;
    named(known, fields.len(), told)
}

/// The rule that tells a field of this kind and type.
fn field_rule(kind: DataKind, form: TypeForm) -> Option<Rule> {
    match kind {
        DataKind::Wire | DataKind::Genvar => Some(Rule::FieldKind),
        DataKind::User | DataKind::UntypedEnum if form.is_named() => named_field_rule(form),
        DataKind::User | DataKind::UntypedEnum => Some(Rule::FieldKind),
        _ if form.is_named() => Some(Rule::KindBeforeType),
        DataKind::Integer | DataKind::Int if form.base == Base::Vector || form.packed > 0 => {
            Some(Rule::FieldKind)
        }
        _ => None,
    }
}

/// The rule that tells a field of a type's name.
fn named_field_rule(form: TypeForm) -> Option<Rule> {
    if form.base == Base::Package || form.packed > 0 {
        Some(Rule::NamedField)
    } else {
        None
    }
}
