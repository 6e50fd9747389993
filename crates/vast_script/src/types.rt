//! Calls that make a type.

ghost use Rattle.vast_script.specs.Outcome.{Replays};
ghost use Rattle.vast_steps.specs.declared.step.TypeStep.TheVariants.{MakeBitVectorTypeExpr};
ghost use Rattle.vast_script.specs.Types.{make_packed_array_type, make_unpacked_array_type, make_packed_array_type_expr, make_unpacked_array_type_expr, type_call};

use crate::answer::Answer;
use crate::answers::data_type;
use crate::arguments::one;
use crate::conditions::are_dimensions;
use crate::fault::StepFault;
use crate::lists::{one_and_many, references};
use vast_steps::TypeStep;
use xlsynth_vast::{Expr, VastDataType, VastFile};

fn vector_of(
    file: &mut VastFile,
    answers: &[Answer],
    width: usize,
    signed: bool,
) -> Result<Answer, StepFault>
    ensures { Replays file.old file.new answers.now result
        (type_call (MakeBitVectorTypeExpr width signed)) }
{
    let width: Expr = one(file, answers, width)?;
    if !file.width_is_usable(&width) {
        return Err(StepFault::Condition);
    }
    data_type(file.make_bit_vector_type_expr(&width, signed))
}

fn packed_array(
    file: &mut VastFile,
    answers: &[Answer],
    element: usize,
    dimensions: &[i64],
) -> Result<Answer, StepFault>
    ensures { Replays file.old file.new answers.now result
        (make_packed_array_type element dimensions.now) }
{
    let element: VastDataType = one(file, answers, element)?;
    if !(file.type_can_be_packed(element) && are_dimensions(dimensions)) {
        return Err(StepFault::Condition);
    }
    data_type(file.make_packed_array_type(element, dimensions))
}

fn unpacked_array(
    file: &mut VastFile,
    answers: &[Answer],
    element: usize,
    dimensions: &[i64],
) -> Result<Answer, StepFault>
    ensures { Replays file.old file.new answers.now result
        (make_unpacked_array_type element dimensions.now) }
{
    let element: VastDataType = one(file, answers, element)?;
    if !are_dimensions(dimensions) {
        return Err(StepFault::Condition);
    }
    data_type(file.make_unpacked_array_type(element, dimensions))
}

fn packed_array_expr(
    file: &mut VastFile,
    answers: &[Answer],
    element: usize,
    dimensions: &[usize],
) -> Result<Answer, StepFault>
    ensures { Replays file.old file.new answers.now result
        (make_packed_array_type_expr element dimensions.now) }
{
    let (element, dimensions): (VastDataType, Vec<Expr>) = one_and_many(
        file, answers, element, dimensions,
    )?;
    let dimensions = references(file, &dimensions)?;
    if !(file.type_can_be_packed(element) && file.dimensions_are_usable(&dimensions)) {
        return Err(StepFault::Condition);
    }
    data_type(file.make_packed_array_type_expr(element, &dimensions))
}

fn unpacked_array_expr(
    file: &mut VastFile,
    answers: &[Answer],
    element: usize,
    dimensions: &[usize],
) -> Result<Answer, StepFault>
    ensures { Replays file.old file.new answers.now result
        (make_unpacked_array_type_expr element dimensions.now) }
{
    let (element, dimensions): (VastDataType, Vec<Expr>) = one_and_many(
        file, answers, element, dimensions,
    )?;
    let dimensions = references(file, &dimensions)?;
    if !file.dimensions_are_usable(&dimensions) {
        return Err(StepFault::Condition);
    }
    data_type(file.make_unpacked_array_type_expr(element, &dimensions))
}

/// Makes the call, over the answers so far.
pub(crate) fn replay_type(
    file: &mut VastFile,
    answers: &[Answer],
    step: &TypeStep,
) -> Result<Answer, StepFault>
    ensures { Replays file.old file.new answers.now result (type_call step.now) }
{
    match step {
        TypeStep::MakeScalarType => data_type(file.make_scalar_type()),
        TypeStep::MakeIntegerType(signed) => data_type(file.make_integer_type(*signed)),
        TypeStep::MakeIntType(signed) => data_type(file.make_int_type(*signed)),
        TypeStep::MakeExternType(name) => data_type(file.make_extern_type(name)),
        TypeStep::MakeExternPackageType(package_name, name) => {
            data_type(file.make_extern_package_type(package_name, name))
        }
        TypeStep::MakeBitVectorType(bit_count, signed) => {
            if *bit_count < 1 {
                return Err(StepFault::Condition);
            }
            data_type(file.make_bit_vector_type(*bit_count, *signed))
        }
        TypeStep::MakeBitVectorTypeExpr(width, signed) => {
            vector_of(file, answers, *width, *signed)
        }
        TypeStep::MakePackedArrayType(element, dimensions) => {
            packed_array(file, answers, *element, dimensions)
        }
        TypeStep::MakeUnpackedArrayType(element, dimensions) => {
            unpacked_array(file, answers, *element, dimensions)
        }
        TypeStep::MakePackedArrayTypeExpr(element, dimensions) => {
            packed_array_expr(file, answers, *element, dimensions)
        }
        TypeStep::MakeUnpackedArrayTypeExpr(element, dimensions) => {
            unpacked_array_expr(file, answers, *element, dimensions)
        }
    }
}
