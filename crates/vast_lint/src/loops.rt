//! Calls of generate loops and their members.

use crate::artifacts::add_instance;
use crate::declared::{Declared, declare};
use crate::expressions::operand;
use crate::facts::{Fact, Known};
use crate::forms::Form;
use crate::parameters::{defined_parameter, parameter};
use crate::rule::Rule;
use crate::sides::assignment;
use crate::statements::{always_at, always_comb, always_ff, generate_conditional};
use crate::warning::StepFindings;
use crate::words::name_rule;
use std::alloc::AllocError;
use vast_script::LoopStep;

/// What the call makes.
pub(crate) fn generate(
    known: Known<'_>,
    declared: &mut Declared,
    step: &LoopStep,
    told: &mut StepFindings,
) -> Result<Fact, AllocError> {
    match step {
        LoopStep::AddGenerateLoop(owner, variable, start, limit, label)
        | LoopStep::GenerateAddGenerateLoop(owner, variable, start, limit, label) => {
            operand(known, *start, told)?;
            operand(known, *limit, told)?;
            told.tell_if(known.is_verilog(), Rule::VerilogGenvar)?;
            told.tell_any(name_rule(known.dialect, variable))?;
            if let Some(label) = label {
                declare(known, declared, *owner, label, told)?;
            }
            Ok(Fact::Other)
        }
        LoopStep::GenerateGenvar(_) => Ok(Fact::Expression(Form::Constant)),
        LoopStep::GenerateAddAlwaysComb(_) | LoopStep::GenerateAddAlwaysLatch(_) => {
            always_comb(known, told)
        }
        LoopStep::GenerateAddAlwaysStar(_) | LoopStep::GenerateAddInitial(_) => {
            Ok(Fact::Statements(false))
        }
        LoopStep::GenerateAddAlwaysFf(_, events) => always_ff(known, events, told),
        LoopStep::GenerateAddAlwaysAt(_, events) => always_at(known, events, told),
        LoopStep::GenerateAddLocalparam(owner, name, value) => {
            operand(known, *value, told)?;
            parameter(known, declared, *owner, name, told)
        }
        LoopStep::GenerateAddTypedLocalparam(owner, definition, value) => {
            operand(known, *value, told)?;
            defined_parameter(known, declared, *owner, *definition, told)
        }
        LoopStep::GenerateAddContinuousAssignment(_, left, right) => {
            assignment(known, *left, *right, told)?;
            Ok(Fact::Other)
        }
        LoopStep::GenerateAddConditional(_, condition) => {
            generate_conditional(known, *condition, told)
        }
        LoopStep::GenerateAddInstantiation(owner, instance) => {
            add_instance(known, declared, *owner, *instance, told)?;
            Ok(Fact::Other)
        }
        LoopStep::GenerateAddBlankLine(_)
        | LoopStep::GenerateAddComment(_, _)
        | LoopStep::GenerateAddInlineStatement(_, _)
        | LoopStep::GenerateAddMacroStatement(_, _) => Ok(Fact::Other),
    }
}
