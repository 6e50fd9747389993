//! Calls of the file's items, and of modules with their ports, declarations and parameters.

use crate::declared::{Declared, declare, declare_module};
use crate::expressions::operand;
use crate::facts::{Fact, Known};
use crate::forms::TypeForm;
use crate::parameters::{defined_parameter, parameter, typed_rule};
use crate::rule::Rule;
use crate::typedefs::typedef;
use crate::warning::StepFindings;
use crate::words::{comment_rule, name_rule};
use std::alloc::AllocError;
use vast_script::ModuleStep;

/// The word before a declaration's type.
#[derive(Clone, Copy)]
pub(crate) enum Word {
    Wire,
    Reg,
    Logic,
    Nothing,
}

/// What the call makes.
pub(crate) fn module(
    known: Known<'_>,
    declared: &mut Declared,
    step: &ModuleStep,
    told: &mut StepFindings,
) -> Result<Fact, AllocError> {
    match step {
        ModuleStep::AddCommentText(text) => {
            told.tell_any(comment_rule(text))?;
            Ok(Fact::Other)
        }
        ModuleStep::AddImport(_, package) | ModuleStep::AddFileImport(package) => {
            imported(known, package, told)
        }
        ModuleStep::AddEnumTypedef(_, _, _, _, _)
        | ModuleStep::AddStructTypedef(_, _, _)
        | ModuleStep::AddFileEnumTypedef(_, _, _, _)
        | ModuleStep::AddFileStructTypedef(_, _) => typedef(known, declared, step, told),
        ModuleStep::AddModule(name) => {
            declare_module(known, declared, name, told)?;
            Ok(Fact::Other)
        }
        ModuleStep::AddInput(owner, name, data_type)
        | ModuleStep::AddOutput(owner, name, data_type)
        | ModuleStep::AddInout(owner, name, data_type) => {
            declare(known, declared, *owner, name, told)?;
            port(known, Word::Wire, *data_type, told)
        }
        ModuleStep::AddLogicInput(owner, name, data_type)
        | ModuleStep::AddLogicOutput(owner, name, data_type) => {
            declare(known, declared, *owner, name, told)?;
            port(known, Word::Logic, *data_type, told)
        }
        ModuleStep::AddWire(owner, name, data_type) => {
            declare(known, declared, *owner, name, told)?;
            variable(known, Word::Wire, *data_type, told)
        }
        ModuleStep::AddReg(owner, name, data_type) => {
            declare(known, declared, *owner, name, told)?;
            variable(known, Word::Reg, *data_type, told)
        }
        ModuleStep::AddLogic(owner, name, data_type) => {
            declare(known, declared, *owner, name, told)?;
            variable(known, Word::Logic, *data_type, told)
        }
        ModuleStep::AddVariable(owner, name, data_type) => {
            declare(known, declared, *owner, name, told)?;
            variable(known, Word::Nothing, *data_type, told)
        }
        _ => parameters(known, declared, step, told),
    }
}

/// The import of the package.
fn imported(known: Known<'_>, package: &str, told: &mut StepFindings) -> Result<Fact, AllocError> {
    told.tell_any(name_rule(known.dialect, package))?;
    told.tell_any(Some(if known.is_verilog() {
        Rule::VerilogImport
    } else {
        Rule::PackageImport
    }))?;
    Ok(Fact::Other)
}

/// What the call makes, if it is of a parameter.
fn parameters(
    known: Known<'_>,
    declared: &mut Declared,
    step: &ModuleStep,
    told: &mut StepFindings,
) -> Result<Fact, AllocError> {
    match step {
        ModuleStep::AddParameterPort(owner, name, value)
        | ModuleStep::AddParameter(owner, name, value)
        | ModuleStep::AddLocalparam(owner, name, value) => {
            operand(known, *value, told)?;
            parameter(known, declared, *owner, name, told)
        }
        ModuleStep::AddIntLocalparam(owner, name, value) => {
            operand(known, *value, told)?;
            told.tell_if(known.is_verilog(), Rule::VerilogInt)?;
            parameter(known, declared, *owner, name, told)
        }
        ModuleStep::AddTypedParameterPort(owner, name, data_type, value) => {
            operand(known, *value, told)?;
            if let Some(form) = known.type_form(*data_type) {
                told.tell_any(typed_rule(known, form))?;
            }
            parameter(known, declared, *owner, name, told)
        }
        ModuleStep::AddParameterWithDef(owner, definition, value)
        | ModuleStep::AddTypedLocalparam(owner, definition, value) => {
            operand(known, *value, told)?;
            defined_parameter(known, declared, *owner, *definition, told)
        }
        _ => Ok(Fact::Other),
    }
}

/// A port of the type of this number.
fn port(
    known: Known<'_>,
    word: Word,
    data_type: usize,
    told: &mut StepFindings,
) -> Result<Fact, AllocError> {
    if let Some(form) = known.type_form(data_type) {
        told.tell_any(port_rule(known, word, form))?;
    }
    Ok(known.signal(data_type))
}

/// A net or a variable of the type of this number.
pub(crate) fn variable(
    known: Known<'_>,
    word: Word,
    data_type: usize,
    told: &mut StepFindings,
) -> Result<Fact, AllocError> {
    if let Some(form) = known.type_form(data_type) {
        told.tell_any(variable_rule(known, word, form))?;
    }
    Ok(known.signal(data_type))
}

/// The rule that tells a port of this type. Before a type's name the word is left out.
fn port_rule(known: Known<'_>, word: Word, form: TypeForm) -> Option<Rule> {
    if form.unpacked > 0 {
        Some(if known.is_verilog() {
            Rule::VerilogUnpackedPort
        } else {
            Rule::UnpackedPort
        })
    } else if form.is_named() {
        variable_rule(known, Word::Wire, form)
    } else {
        variable_rule(known, word, form)
    }
}

/// The rule that tells a net or a variable of this type after the word.
pub(crate) fn variable_rule(known: Known<'_>, word: Word, form: TypeForm) -> Option<Rule> {
    match word {
        Word::Nothing if !form.is_named() => Some(Rule::VariableWithoutType),
        Word::Logic if known.is_verilog() => Some(Rule::VerilogLogic),
        Word::Logic if form.is_named() => Some(Rule::KindBeforeType),
        Word::Reg if form.is_named() && form.packed > 0 => Some(Rule::KindBeforeType),
        Word::Reg if form.is_named() => Some(Rule::RegBeforeType),
        _ if form.is_packed_array() => Some(Rule::PackedArray),
        _ if form.is_named() && form.packed > 0 => Some(Rule::PackedType),
        _ if known.is_verilog() && form.is_unsigned => Some(Rule::VerilogUnsigned),
        _ => None,
    }
}
