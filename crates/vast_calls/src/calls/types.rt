//! Calls that make a type, by their places in the table.

ghost use Rattle.std.specs.Prelude.{IfOk};
ghost use Rattle.vast_calls.specs.CallArguments.{type_pieces};
ghost use Rattle.vast_calls.specs.CallNames.{type_name};
ghost use Rattle.vast_calls.specs.CallNumbers.{type_names};
ghost use Rattle.vast_calls.specs.Internal.CallRows.{StandsAt};
ghost use Rattle.vast_calls.specs.Internal.Written.{AreLeft};

use crate::arguments::Arguments;
use crate::problem::{Misfit, Problem};
use vast_steps::TypeStep;

/// The call of this place in its group, over the arguments.
///
/// # Errors
/// Where no call has the place or the arguments are not those of the call, and out of memory.
pub(super) fn data_type_step(
    place: usize,
    arguments: &mut Arguments<'_>,
) -> Result<TypeStep, Misfit>
    ensures named { IfOk result (λ step. StandsAt type_names place (type_name step)) }
    ensures written { IfOk result (λ step. AreLeft arguments.old (type_pieces step)) }
{
    match place {
        0 => arguments.none(TypeStep::MakeScalarType),
        1 => arguments.one(TypeStep::MakeIntegerType),
        2 => arguments.one(TypeStep::MakeIntType),
        3 => arguments.one(TypeStep::MakeExternType),
        4 => arguments.two(TypeStep::MakeExternPackageType),
        5 => arguments.two(TypeStep::MakeBitVectorType),
        6 => arguments.two(TypeStep::MakeBitVectorTypeExpr),
        7 => arguments.two(TypeStep::MakePackedArrayType),
        8 => arguments.two(TypeStep::MakeUnpackedArrayType),
        9 => arguments.two(TypeStep::MakePackedArrayTypeExpr),
        10 => arguments.two(TypeStep::MakeUnpackedArrayTypeExpr),
        _ => Err(arguments.misfit(Problem::UnknownCall)),
    }
}
