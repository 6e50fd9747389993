//! Calls of parts that are made beforehand, and that add them to modules, by their places in the table.

ghost use Rattle.std.specs.Prelude.{IfOk};
ghost use Rattle.vast_calls.specs.CallArguments.{artifact_pieces};
ghost use Rattle.vast_calls.specs.CallNames.{artifact_name};
ghost use Rattle.vast_calls.specs.CallNumbers.{artifact_names};
ghost use Rattle.vast_calls.specs.Internal.CallRows.{StandsAt};
ghost use Rattle.vast_calls.specs.Internal.Written.{AreLeft};

use crate::arguments::Arguments;
use crate::problem::{Misfit, Problem};
use vast_steps::ArtifactStep;

/// The call of this place in its group, over the arguments.
///
/// # Errors
/// Where no call has the place or the arguments are not those of the call, and out of memory.
pub(super) fn artifact_step(
    place: usize,
    arguments: &mut Arguments<'_>,
) -> Result<ArtifactStep, Misfit>
    ensures named { IfOk result (λ step. StandsAt artifact_names place (artifact_name step)) }
    ensures written { IfOk result (λ step. AreLeft arguments.old (artifact_pieces step)) }
{
    match place {
        0 => arguments.three(ArtifactStep::MakeDef),
        1 => arguments.none(ArtifactStep::MakeBlankLine),
        2 => arguments.one(ArtifactStep::MakeComment),
        3 => arguments.one(ArtifactStep::MakeInlineVerilogStatement),
        4 => arguments.two(ArtifactStep::MakeMacroStatement),
        5 => arguments.two(ArtifactStep::MakeContinuousAssignment),
        6 => arguments.two(ArtifactStep::MakeNonblockingAssignment),
        7 => arguments.two(ArtifactStep::MakeBlockingAssignment),
        8 => arguments.six(ArtifactStep::MakeInstantiation),
        9 => arguments.two(ArtifactStep::AddMemberInstantiation),
        10 => arguments.two(ArtifactStep::AddMemberContinuousAssignment),
        11 => arguments.two(ArtifactStep::AddMemberBlankLine),
        12 => arguments.two(ArtifactStep::AddMemberComment),
        13 => arguments.two(ArtifactStep::AddMemberInlineStatement),
        14 => arguments.two(ArtifactStep::AddMemberMacroStatement),
        _ => Err(arguments.misfit(Problem::UnknownCall)),
    }
}
