//! Calls of generate loops and their members, by their places in the table.

ghost use Rattle.std.specs.Prelude.{IfOk};
ghost use Rattle.vast_calls.specs.CallArguments.{loop_pieces};
ghost use Rattle.vast_calls.specs.CallNames.{loop_name};
ghost use Rattle.vast_calls.specs.CallNumbers.{loop_names};
ghost use Rattle.vast_calls.specs.Internal.CallRows.{StandsAt};
ghost use Rattle.vast_calls.specs.Internal.Written.{AreLeft};

use crate::arguments::Arguments;
use crate::problem::{Misfit, Problem};
use vast_steps::LoopStep;

/// The call of this place in its group, over the arguments.
///
/// # Errors
/// Where no call has the place or the arguments are not those of the call, and out of memory.
pub(super) fn generate_loop_step(
    place: usize,
    arguments: &mut Arguments<'_>,
) -> Result<LoopStep, Misfit>
    ensures named { IfOk result (λ step. StandsAt loop_names place (loop_name step)) }
    ensures written { IfOk result (λ step. AreLeft arguments.old (loop_pieces step)) }
{
    match place {
        0 => arguments.five(LoopStep::AddGenerateLoop),
        1 => arguments.five(LoopStep::GenerateAddGenerateLoop),
        2 => arguments.one(LoopStep::GenerateGenvar),
        3 => arguments.one(LoopStep::GenerateAddAlwaysComb),
        4 => arguments.two(LoopStep::GenerateAddAlwaysFf),
        5 => arguments.two(LoopStep::GenerateAddAlwaysAt),
        6 => arguments.three(LoopStep::GenerateAddLocalparam),
        7 => arguments.three(LoopStep::GenerateAddTypedLocalparam),
        8 => arguments.three(LoopStep::GenerateAddContinuousAssignment),
        9 => arguments.two(LoopStep::GenerateAddConditional),
        10 => arguments.one(LoopStep::GenerateAddBlankLine),
        11 => arguments.two(LoopStep::GenerateAddComment),
        12 => arguments.two(LoopStep::GenerateAddInstantiation),
        13 => arguments.two(LoopStep::GenerateAddInlineStatement),
        14 => arguments.two(LoopStep::GenerateAddMacroStatement),
        15 => arguments.one(LoopStep::GenerateAddAlwaysStar),
        16 => arguments.one(LoopStep::GenerateAddAlwaysLatch),
        17 => arguments.one(LoopStep::GenerateAddInitial),
        _ => Err(arguments.misfit(Problem::UnknownCall)),
    }
}
