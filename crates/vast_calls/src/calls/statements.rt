//! Calls of functions, always blocks, conditionals and statements, by their places in the table.

ghost use Rattle.std.specs.Prelude.{IfOk};
ghost use Rattle.vast_calls.specs.CallArguments.{statement_pieces};
ghost use Rattle.vast_calls.specs.CallNames.{statement_name};
ghost use Rattle.vast_calls.specs.CallNumbers.{statement_names};
ghost use Rattle.vast_calls.specs.Internal.CallRows.{StandsAt};
ghost use Rattle.vast_calls.specs.Internal.Written.{AreLeft};

use crate::arguments::Arguments;
use crate::problem::{Misfit, Problem};
use vast_steps::StatementStep;

/// The call of this place in its group, over the arguments.
///
/// # Errors
/// Where no call has the place or the arguments are not those of the call, and out of memory.
pub(super) fn statement_step(
    place: usize,
    arguments: &mut Arguments<'_>,
) -> Result<StatementStep, Misfit>
    ensures named { IfOk result (λ step. StandsAt statement_names place (statement_name step)) }
    ensures written { IfOk result (λ step. AreLeft arguments.old (statement_pieces step)) }
{
    match place {
        0 => arguments.three(StatementStep::AddFunction),
        1 => arguments.three(StatementStep::FunctionAddInput),
        2 => arguments.three(StatementStep::FunctionAddLogicInput),
        3 => arguments.three(StatementStep::FunctionAddReg),
        4 => arguments.three(StatementStep::FunctionAddLogic),
        5 => arguments.one(StatementStep::FunctionBody),
        6 => arguments.one(StatementStep::FunctionResult),
        7 => arguments.two(StatementStep::AddAlwaysFf),
        8 => arguments.two(StatementStep::AddAlwaysAt),
        9 => arguments.one(StatementStep::AddAlwaysComb),
        10 => arguments.one(StatementStep::StatementBlock),
        11 => arguments.three(StatementStep::BlockAddBlockingAssignment),
        12 => arguments.three(StatementStep::BlockAddNonblockingAssignment),
        13 => arguments.three(StatementStep::BlockAddContinuousAssignment),
        14 => arguments.two(StatementStep::BlockAddCommentText),
        15 => arguments.two(StatementStep::BlockAddInlineText),
        16 => arguments.one(StatementStep::BlockAddBlankLine),
        17 => arguments.two(StatementStep::AddConditional),
        18 => arguments.two(StatementStep::BlockAddCond),
        19 => arguments.one(StatementStep::ConditionalThenBlock),
        20 => arguments.two(StatementStep::ConditionalAddElseIf),
        21 => arguments.one(StatementStep::ConditionalAddElse),
        22 => arguments.two(StatementStep::BlockAddCase),
        23 => arguments.two(StatementStep::BlockAddCasez),
        24 => arguments.two(StatementStep::BlockAddCasex),
        25 => arguments.two(StatementStep::CaseAddItem),
        26 => arguments.one(StatementStep::CaseAddDefault),
        27 => arguments.two(StatementStep::CaseSetUnique),
        28 => arguments.one(StatementStep::AddAlwaysStar),
        29 => arguments.one(StatementStep::AddAlwaysLatch),
        30 => arguments.one(StatementStep::AddInitial),
        31 => arguments.two(StatementStep::BlockAddTaskCall),
        32 => arguments.four(StatementStep::BlockAddFor),
        _ => Err(arguments.misfit(Problem::UnknownCall)),
    }
}
