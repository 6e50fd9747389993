//! Calls of functions, always blocks, conditionals and statements.

ghost use Rattle.vast_script.specs.Kinds.{a_module};
ghost use Rattle.vast_core.specs.declared.ast.scope.Scope.TheVariants.{Module as ScopeModule};
ghost use Rattle.std.specs.Prelude.{codes, cond};
ghost use Rattle.vast_literal.specs.declared.kind.AlwaysKind.TheVariants.{AlwaysFF, AlwaysAt};
ghost use Rattle.vast_script.specs.Outcome.{Replays};
ghost use Rattle.vast_steps.specs.declared.step.StatementStep.TheVariants.{ConditionalAddElseIf, ConditionalAddElse};
ghost use Rattle.vast_script.specs.Statements.{add_always, statement_call};

use crate::answer::Answer;
use crate::answers::{
    block, case, conditional, nothing, refusable_always, refusable_function, refusable_logic_ref,
    refusable_nothing, statement,
};
use crate::arguments::{one, three, two};
use crate::fault::StepFault;
use crate::lists::{one_and_many, references};
use vast_steps::StatementStep;
use xlsynth_vast::{
    CaseStatement, Conditional, Expr, VastAlwaysBase, VastDataType, VastFile, VastFunction,
    VastModule, VastStatementBlock,
};

/// An `always_ff` of these events, or an `always @`.
fn add_always(
    file: &mut VastFile,
    answers: &[Answer],
    is_ff: bool,
    owner: usize,
    events: &[usize],
) -> Result<Answer, StepFault>
    ensures { Replays file.old file.new answers.now result
        (add_always a_module ScopeModule (cond is_ff AlwaysFF AlwaysAt)
        (cond is_ff (codes "always_ff") (codes "always @")) owner events.now) }
{
    let (owner, events): (VastModule, Vec<Expr>) = one_and_many(file, answers, owner, events)?;
    let events = references(file, &events)?;
    if is_ff {
        refusable_always(file.add_always_ff(owner, &events))
    } else {
        refusable_always(file.add_always_at(owner, &events))
    }
}

fn add_else_if(
    file: &mut VastFile,
    answers: &[Answer],
    conditional: usize,
    condition: usize,
) -> Result<Answer, StepFault>
    ensures { Replays file.old file.new answers.now result
        (statement_call (ConditionalAddElseIf conditional condition)) }
{
    let (conditional, condition): (Conditional, Expr) = two(file, answers, conditional, condition)?;
    if file.conditional_has_else(conditional) {
        return Err(StepFault::Condition);
    }
    block(file.conditional_add_else_if(conditional, &condition))
}

fn add_else(
    file: &mut VastFile,
    answers: &[Answer],
    conditional: usize,
) -> Result<Answer, StepFault>
    ensures { Replays file.old file.new answers.now result
        (statement_call (ConditionalAddElse conditional)) }
{
    let conditional: Conditional = one(file, answers, conditional)?;
    if file.conditional_has_else(conditional) {
        return Err(StepFault::Condition);
    }
    block(file.conditional_add_else(conditional))
}

/// Makes the call, over the answers so far.
pub(crate) fn replay_statement(
    file: &mut VastFile,
    answers: &[Answer],
    step: &StatementStep,
) -> Result<Answer, StepFault>
    ensures { Replays file.old file.new answers.now result (statement_call step.now) }
{
    match step {
        StatementStep::AddFunction(owner, name, data_type) => {
            let (owner, data_type): (VastModule, VastDataType) = two(
                file, answers, *owner, *data_type,
            )?;
            refusable_function(file.add_function(owner, name, &data_type))
        }
        StatementStep::FunctionAddInput(function, name, data_type) => {
            let (function, data_type): (VastFunction, VastDataType) = two(
                file, answers, *function, *data_type,
            )?;
            refusable_logic_ref(file.function_add_input(function, name, &data_type))
        }
        StatementStep::FunctionAddLogicInput(function, name, data_type) => {
            let (function, data_type): (VastFunction, VastDataType) = two(
                file, answers, *function, *data_type,
            )?;
            refusable_logic_ref(file.function_add_logic_input(function, name, &data_type))
        }
        StatementStep::FunctionAddReg(function, name, data_type) => {
            let (function, data_type): (VastFunction, VastDataType) = two(
                file, answers, *function, *data_type,
            )?;
            refusable_logic_ref(file.function_add_reg(function, name, &data_type))
        }
        StatementStep::FunctionAddLogic(function, name, data_type) => {
            let (function, data_type): (VastFunction, VastDataType) = two(
                file, answers, *function, *data_type,
            )?;
            refusable_logic_ref(file.function_add_logic(function, name, &data_type))
        }
        StatementStep::FunctionBody(function) => {
            let function: VastFunction = one(file, answers, *function)?;
            Ok(Answer::VastStatementBlock(file.function_body(function)))
        }
        StatementStep::FunctionResult(function) => {
            let function: VastFunction = one(file, answers, *function)?;
            Ok(Answer::LogicRef(file.function_result(function)))
        }
        StatementStep::AddAlwaysFf(owner, events) => {
            add_always(file, answers, true, *owner, events)
        }
        StatementStep::AddAlwaysAt(owner, events) => {
            add_always(file, answers, false, *owner, events)
        }
        StatementStep::AddAlwaysComb(owner) => {
            let owner: VastModule = one(file, answers, *owner)?;
            refusable_always(file.add_always_comb(owner))
        }
        StatementStep::AddAlwaysStar(owner) => {
            let owner: VastModule = one(file, answers, *owner)?;
            refusable_always(file.add_always_star(owner))
        }
        StatementStep::AddAlwaysLatch(owner) => {
            let owner: VastModule = one(file, answers, *owner)?;
            refusable_always(file.add_always_latch(owner))
        }
        StatementStep::AddInitial(owner) => {
            let owner: VastModule = one(file, answers, *owner)?;
            refusable_always(file.add_initial(owner))
        }
        StatementStep::StatementBlock(always) => {
            let always: VastAlwaysBase = one(file, answers, *always)?;
            Ok(Answer::VastStatementBlock(file.statement_block(always)))
        }
        StatementStep::BlockAddBlockingAssignment(owner, left, right) => {
            let (owner, left, right): (VastStatementBlock, Expr, Expr) = three(
                file, answers, *owner, *left, *right,
            )?;
            statement(file.block_add_blocking_assignment(owner, &left, &right))
        }
        StatementStep::BlockAddNonblockingAssignment(owner, left, right) => {
            let (owner, left, right): (VastStatementBlock, Expr, Expr) = three(
                file, answers, *owner, *left, *right,
            )?;
            statement(file.block_add_nonblocking_assignment(owner, &left, &right))
        }
        StatementStep::BlockAddContinuousAssignment(owner, left, right) => {
            let (owner, left, right): (VastStatementBlock, Expr, Expr) = three(
                file, answers, *owner, *left, *right,
            )?;
            statement(file.block_add_continuous_assignment(owner, &left, &right))
        }
        StatementStep::BlockAddTaskCall(owner, call) => {
            let (owner, call): (VastStatementBlock, Expr) = two(file, answers, *owner, *call)?;
            nothing(file.block_add_task_call(owner, &call))
        }
        StatementStep::BlockAddFor(owner, name, start, end) => {
            let (owner, start, end): (VastStatementBlock, Expr, Expr) = three(
                file, answers, *owner, *start, *end,
            )?;
            block(file.block_add_for(owner, name, &start, &end))
        }
        StatementStep::BlockAddCommentText(owner, text) => {
            let owner: VastStatementBlock = one(file, answers, *owner)?;
            nothing(file.block_add_comment_text(owner, text))
        }
        StatementStep::BlockAddInlineText(owner, text) => {
            let owner: VastStatementBlock = one(file, answers, *owner)?;
            nothing(file.block_add_inline_text(owner, text))
        }
        StatementStep::BlockAddBlankLine(owner) => {
            let owner: VastStatementBlock = one(file, answers, *owner)?;
            nothing(file.block_add_blank_line(owner))
        }
        StatementStep::AddConditional(owner, condition) => {
            let (owner, condition): (VastModule, Expr) = two(file, answers, *owner, *condition)?;
            conditional(file.add_conditional(owner, &condition))
        }
        StatementStep::BlockAddCond(owner, condition) => {
            let (owner, condition): (VastStatementBlock, Expr) = two(
                file, answers, *owner, *condition,
            )?;
            conditional(file.block_add_cond(owner, &condition))
        }
        StatementStep::ConditionalThenBlock(owner) => {
            let owner: Conditional = one(file, answers, *owner)?;
            Ok(Answer::VastStatementBlock(file.conditional_then_block(owner)))
        }
        StatementStep::ConditionalAddElseIf(owner, condition) => {
            add_else_if(file, answers, *owner, *condition)
        }
        StatementStep::ConditionalAddElse(owner) => add_else(file, answers, *owner),
        StatementStep::BlockAddCase(owner, selector) => {
            let (owner, selector): (VastStatementBlock, Expr) = two(
                file, answers, *owner, *selector,
            )?;
            case(file.block_add_case(owner, &selector))
        }
        StatementStep::BlockAddCasez(owner, selector) => {
            let (owner, selector): (VastStatementBlock, Expr) = two(
                file, answers, *owner, *selector,
            )?;
            case(file.block_add_casez(owner, &selector))
        }
        StatementStep::BlockAddCasex(owner, selector) => {
            let (owner, selector): (VastStatementBlock, Expr) = two(
                file, answers, *owner, *selector,
            )?;
            case(file.block_add_casex(owner, &selector))
        }
        StatementStep::CaseAddItem(owner, pattern) => {
            let (owner, pattern): (CaseStatement, Expr) = two(file, answers, *owner, *pattern)?;
            block(file.case_add_item(owner, &pattern))
        }
        StatementStep::CaseAddDefault(owner) => {
            let owner: CaseStatement = one(file, answers, *owner)?;
            block(file.case_add_default(owner))
        }
        StatementStep::CaseSetUnique(owner, unique) => {
            let owner: CaseStatement = one(file, answers, *owner)?;
            refusable_nothing(file.case_set_unique(owner, *unique))
        }
    }
}
