//! Calls that make any other expression, by their places in the table.

ghost use Rattle.std.specs.Prelude.{IfOk};
ghost use Rattle.vast_calls.specs.CallArguments.{expression_pieces};
ghost use Rattle.vast_calls.specs.CallNames.{expression_name};
ghost use Rattle.vast_calls.specs.CallNumbers.{expression_names};
ghost use Rattle.vast_calls.specs.Internal.CallRows.{StandsAt};
ghost use Rattle.vast_calls.specs.Internal.Written.{AreLeft};

use crate::arguments::Arguments;
use crate::problem::{Misfit, Problem};
use vast_steps::ExpressionStep;

/// The call of this place in its group, over the arguments.
///
/// # Errors
/// Where no call has the place or the arguments are not those of the call, and out of memory.
pub(super) fn expression_step(
    place: usize,
    arguments: &mut Arguments<'_>,
) -> Result<ExpressionStep, Misfit>
    ensures named { IfOk result (λ step. StandsAt expression_names place (expression_name step)) }
    ensures written { IfOk result (λ step. AreLeft arguments.old (expression_pieces step)) }
{
    match place {
        0 => arguments.two(ExpressionStep::MakeLiteral),
        1 => arguments.one(ExpressionStep::MakeBinaryPattern),
        2 => arguments.one(ExpressionStep::MakeUnsizedDecimalLiteral),
        3 => arguments.one(ExpressionStep::MakeStringLiteral),
        4 => arguments.none(ExpressionStep::MakeUnsizedOneLiteral),
        5 => arguments.none(ExpressionStep::MakeUnsizedZeroLiteral),
        6 => arguments.none(ExpressionStep::MakeUnsizedXLiteral),
        7 => arguments.one(ExpressionStep::MakeName),
        8 => arguments.one(ExpressionStep::MakeIndexableExpression),
        9 => arguments.three(ExpressionStep::MakeSlice),
        10 => arguments.two(ExpressionStep::MakeIndex),
        11 => arguments.three(ExpressionStep::MakeSliceExpr),
        12 => arguments.two(ExpressionStep::MakeIndexExpr),
        13 => arguments.three(ExpressionStep::MakeIndexedPartSelect),
        14 => arguments.two(ExpressionStep::MakeFunctionCall),
        15 => arguments.one(ExpressionStep::MakeConcat),
        16 => arguments.two(ExpressionStep::MakeReplicatedConcat),
        17 => arguments.two(ExpressionStep::MakeReplicatedConcatI64),
        18 => arguments.one(ExpressionStep::MakeArrayAssignmentPattern),
        19 => arguments.three(ExpressionStep::MakeTernary),
        20 => arguments.two(ExpressionStep::MakeWidthCast),
        21 => arguments.two(ExpressionStep::MakeTypeCast),
        22 => arguments.one(ExpressionStep::MakePosEdge),
        23 => arguments.one(ExpressionStep::MakeNegEdge),
        24 => arguments.one(ExpressionStep::MakeMacroRef),
        25 => arguments.two(ExpressionStep::MakeMacroRefWithArgs),
        26 => arguments.two(ExpressionStep::MakeMember),
        _ => Err(arguments.misfit(Problem::UnknownCall)),
    }
}
