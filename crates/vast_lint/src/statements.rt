//! Calls of functions, always blocks, conditionals and statements.

use crate::declared::{Declared, declare_default};
use crate::expressions::operand;
use crate::facts::{Fact, Known};
use crate::forms::Form;
use crate::functions::{function, input};
use crate::modules::{Word, variable};
use crate::rule::Rule;
use crate::sides::assignment;
use crate::warning::StepFindings;
use crate::words::{comment_rule, name_rule};
use std::alloc::AllocError;
use vast_script::StatementStep;

/// What the call makes.
pub(crate) fn statement(
    known: Known<'_>,
    declared: &mut Declared,
    step: &StatementStep,
    told: &mut StepFindings,
) -> Result<Fact, AllocError> {
    match step {
        StatementStep::AddFunction(owner, name, result_type) => {
            function(known, declared, *owner, name, *result_type, told)
        }
        StatementStep::FunctionAddInput(_, name, data_type) => {
            input(known, Word::Reg, name, *data_type, told)
        }
        StatementStep::FunctionAddLogicInput(_, name, data_type) => {
            input(known, Word::Logic, name, *data_type, told)
        }
        StatementStep::FunctionAddReg(_, name, data_type) => {
            told.tell_any(name_rule(known.dialect, name))?;
            variable(known, Word::Reg, *data_type, told)
        }
        StatementStep::FunctionAddLogic(_, name, data_type) => {
            told.tell_any(name_rule(known.dialect, name))?;
            variable(known, Word::Logic, *data_type, told)
        }
        StatementStep::FunctionResult(_) => Ok(Fact::Expression(Form::Signal(None))),
        StatementStep::AddAlwaysFf(_, events) => always_ff(known, events, told),
        StatementStep::AddAlwaysAt(_, events) => always_at(known, events, told),
        StatementStep::AddAlwaysComb(_) | StatementStep::AddAlwaysLatch(_) => {
            always_comb(known, told)
        }
        StatementStep::AddAlwaysStar(_) | StatementStep::AddInitial(_) => {
            Ok(Fact::Statements(false))
        }
        StatementStep::CaseAddDefault(owner) => {
            declare_default(declared, *owner, told)?;
            Ok(Fact::Statements(known.is_generate(*owner)))
        }
        _ => in_block(known, step, told),
    }
}

/// An `always_ff` at the events.
pub(crate) fn always_ff(
    known: Known<'_>,
    events: &[usize],
    told: &mut StepFindings,
) -> Result<Fact, AllocError> {
    told.tell_if(known.is_verilog(), Rule::VerilogAlways)?;
    always_at(known, events, told)
}

/// An `always @` at the events.
pub(crate) fn always_at(
    known: Known<'_>,
    events: &[usize],
    told: &mut StepFindings,
) -> Result<Fact, AllocError> {
    told.tell_if(events.is_empty(), Rule::NoEvents)?;
    let edges = events
        .iter()
        .filter(|event| known.form(**event) == Form::Edge)
        .count();
    told.tell_if(edges > 0 && edges < events.len(), Rule::EdgeWithName)?;
    Ok(Fact::Statements(false))
}

/// An `always_comb` or `always_latch`.
pub(crate) fn always_comb(known: Known<'_>, told: &mut StepFindings) -> Result<Fact, AllocError> {
    told.tell_if(known.is_verilog(), Rule::VerilogAlways)?;
    Ok(Fact::Statements(false))
}

/// A conditional of a module or a loop.
pub(crate) fn generate_conditional(
    known: Known<'_>,
    condition: usize,
    told: &mut StepFindings,
) -> Result<Fact, AllocError> {
    operand(known, condition, told)?;
    Ok(Fact::Statements(true))
}

/// What the call makes in a block, or of a block.
fn in_block(
    known: Known<'_>,
    step: &StatementStep,
    told: &mut StepFindings,
) -> Result<Fact, AllocError> {
    match step {
        StatementStep::BlockAddBlockingAssignment(owner, left, right)
        | StatementStep::BlockAddNonblockingAssignment(owner, left, right) => {
            assignment(known, *left, *right, told)?;
            told.tell_if(known.is_generate(*owner), Rule::AssignmentInGenerate)?;
            Ok(Fact::Other)
        }
        StatementStep::BlockAddContinuousAssignment(owner, left, right) => {
            assignment(known, *left, *right, told)?;
            told.tell_if(!known.is_generate(*owner), Rule::AssignInProcedure)?;
            Ok(Fact::Other)
        }
        StatementStep::BlockAddTaskCall(owner, call) => {
            told.show_other(known.form(*call).task_rule(), *call)?;
            told.tell_if(known.form(*call).is_simulated(), Rule::SimulatedTask)?;
            told.tell_if(known.is_generate(*owner), Rule::TaskInGenerate)?;
            Ok(Fact::Other)
        }
        StatementStep::BlockAddFor(owner, name, start, end) => {
            told.tell_any(name_rule(known.dialect, name))?;
            looped(known, *owner, *start, *end, told)
        }
        StatementStep::BlockAddCommentText(_, text) => {
            told.tell_any(comment_rule(text))?;
            Ok(Fact::Other)
        }
        StatementStep::AddConditional(_, condition) => generate_conditional(
            known, *condition, told,
        ),
        StatementStep::BlockAddCond(owner, condition)
        | StatementStep::ConditionalAddElseIf(owner, condition) => {
            operand(known, *condition, told)?;
            Ok(Fact::Statements(known.is_generate(*owner)))
        }
        StatementStep::ConditionalThenBlock(owner) | StatementStep::ConditionalAddElse(owner) => {
            Ok(Fact::Statements(known.is_generate(*owner)))
        }
        StatementStep::FunctionBody(_) | StatementStep::StatementBlock(_) => {
            Ok(Fact::Statements(false))
        }
        _ => of_case(known, step, told),
    }
}

/// What the call makes of a case.
fn of_case(
    known: Known<'_>,
    step: &StatementStep,
    told: &mut StepFindings,
) -> Result<Fact, AllocError> {
    match step {
        StatementStep::BlockAddCase(owner, selector) => case(known, *owner, *selector, told),
        StatementStep::BlockAddCasez(owner, selector)
        | StatementStep::BlockAddCasex(owner, selector) => {
            told.tell_if(known.is_generate(*owner), Rule::CasezInGenerate)?;
            case(known, *owner, *selector, told)
        }
        StatementStep::CaseAddItem(owner, pattern) => {
            operand(known, *pattern, told)?;
            if known.form(*pattern) == Form::Pattern {
                told.show_other(Some(Rule::PatternLabel), *pattern)?;
            }
            Ok(Fact::Statements(known.is_generate(*owner)))
        }
        StatementStep::CaseSetUnique(owner, is_unique) => {
            let is_generate = known.is_generate(*owner);
            told.tell_if(*is_unique && is_generate, Rule::UniqueInGenerate)?;
            Ok(Fact::Other)
        }
        _ => Ok(Fact::Other),
    }
}

/// A case in the block of this number.
fn case(
    known: Known<'_>,
    owner: usize,
    selector: usize,
    told: &mut StepFindings,
) -> Result<Fact, AllocError> {
    operand(known, selector, told)?;
    Ok(Fact::Statements(known.is_generate(owner)))
}

/// A loop in the block of this number.
fn looped(
    known: Known<'_>,
    owner: usize,
    start: usize,
    end: usize,
    told: &mut StepFindings,
) -> Result<Fact, AllocError> {
    operand(known, start, told)?;
    operand(known, end, told)?;
    let varies = known.form(start).is_declared() || known.form(end).is_declared();
    told.tell_if(varies, Rule::LoopBySignal)?;
    told.tell_if(known.is_generate(owner), Rule::LoopInGenerate)?;
    told.tell_if(known.is_verilog(), Rule::VerilogInt)?;
    Ok(Fact::Statements(known.is_generate(owner)))
}
