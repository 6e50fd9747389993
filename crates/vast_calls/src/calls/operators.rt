//! Calls that make an expression of one or two operands, by their places in the table.

ghost use Rattle.std.specs.Prelude.{IfOk};
ghost use Rattle.vast_calls.specs.CallArguments.{operator_pieces};
ghost use Rattle.vast_calls.specs.CallNames.{operator_name};
ghost use Rattle.vast_calls.specs.CallNumbers.{operator_names};
ghost use Rattle.vast_calls.specs.Internal.CallRows.{StandsAt};
ghost use Rattle.vast_calls.specs.Internal.Written.{AreLeft};

use crate::arguments::Arguments;
use crate::problem::{Misfit, Problem};
use vast_steps::OperatorStep;

/// The call of this place in its group, over the arguments.
///
/// # Errors
/// Where no call has the place or the arguments are not those of the call, and out of memory.
pub(super) fn operator_step(
    place: usize,
    arguments: &mut Arguments<'_>,
) -> Result<OperatorStep, Misfit>
    ensures named { IfOk result (λ step. StandsAt operator_names place (operator_name step)) }
    ensures written { IfOk result (λ step. AreLeft arguments.old (operator_pieces step)) }
{
    match place {
        0 => arguments.one(OperatorStep::MakeNot),
        1 => arguments.one(OperatorStep::MakeBitwiseNot),
        2 => arguments.one(OperatorStep::MakeNegate),
        3 => arguments.one(OperatorStep::MakeLogicalNot),
        4 => arguments.one(OperatorStep::MakeAndReduce),
        5 => arguments.one(OperatorStep::MakeOrReduce),
        6 => arguments.one(OperatorStep::MakeXorReduce),
        7 => arguments.two(OperatorStep::MakeAdd),
        8 => arguments.two(OperatorStep::MakeSub),
        9 => arguments.two(OperatorStep::MakeMul),
        10 => arguments.two(OperatorStep::MakeDiv),
        11 => arguments.two(OperatorStep::MakeMod),
        12 => arguments.two(OperatorStep::MakePower),
        13 => arguments.two(OperatorStep::MakeBitwiseAnd),
        14 => arguments.two(OperatorStep::MakeBitwiseOr),
        15 => arguments.two(OperatorStep::MakeBitwiseXor),
        16 => arguments.two(OperatorStep::MakeShll),
        17 => arguments.two(OperatorStep::MakeShra),
        18 => arguments.two(OperatorStep::MakeShrl),
        19 => arguments.two(OperatorStep::MakeNe),
        20 => arguments.two(OperatorStep::MakeCaseNe),
        21 => arguments.two(OperatorStep::MakeEq),
        22 => arguments.two(OperatorStep::MakeCaseEq),
        23 => arguments.two(OperatorStep::MakeGe),
        24 => arguments.two(OperatorStep::MakeGt),
        25 => arguments.two(OperatorStep::MakeLe),
        26 => arguments.two(OperatorStep::MakeLt),
        27 => arguments.two(OperatorStep::MakeLogicalAnd),
        28 => arguments.two(OperatorStep::MakeLogicalOr),
        29 => arguments.two(OperatorStep::MakeNeX),
        30 => arguments.two(OperatorStep::MakeEqX),
        _ => Err(arguments.misfit(Problem::UnknownCall)),
    }
}
