//! Calls that make a type.

use crate::expressions::{MOST_BITS, operand, operands};
use crate::facts::{Fact, Known};
use crate::forms::{Base, TypeForm};
use crate::rule::Rule;
use crate::warning::StepFindings;
use std::alloc::AllocError;
use vast_script::TypeStep;

/// What the call makes.
pub(crate) fn data_type(
    known: Known<'_>,
    step: &TypeStep,
    told: &mut StepFindings,
) -> Result<Fact, AllocError> {
    match step {
        TypeStep::MakeScalarType => Ok(Fact::Type(TypeForm::of(Base::Scalar))),
        TypeStep::MakeIntegerType(is_signed) => Ok(integer(Base::Integer, *is_signed)),
        TypeStep::MakeIntType(is_signed) => Ok(integer(Base::Int, *is_signed)),
        TypeStep::MakeExternType(_) => {
            told.tell_if(known.is_verilog(), Rule::VerilogType)?;
            Ok(Fact::Type(TypeForm::of(Base::External)))
        }
        TypeStep::MakeExternPackageType(_, _) => {
            told.tell_if(known.is_verilog(), Rule::VerilogType)?;
            Ok(Fact::Type(TypeForm::of(Base::Package)))
        }
        TypeStep::MakeBitVectorType(bits, _) => {
            told.tell_if(*bits > MOST_BITS, Rule::WideVector)?;
            Ok(Fact::Type(TypeForm::of(Base::Vector)))
        }
        TypeStep::MakeBitVectorTypeExpr(width, _) => {
            operand(known, *width, told)?;
            Ok(Fact::Type(TypeForm::of(Base::Vector)))
        }
        TypeStep::MakePackedArrayType(element, dimensions) => {
            Ok(array(known, *element, dimensions.len(), 0))
        }
        TypeStep::MakeUnpackedArrayType(element, dimensions) => {
            Ok(array(known, *element, 0, dimensions.len()))
        }
        TypeStep::MakePackedArrayTypeExpr(element, dimensions) => {
            operands(known, dimensions, told)?;
            Ok(array(known, *element, dimensions.len(), 0))
        }
        TypeStep::MakeUnpackedArrayTypeExpr(element, dimensions) => {
            operands(known, dimensions, told)?;
            Ok(array(known, *element, 0, dimensions.len()))
        }
    }
}

fn integer(base: Base, is_signed: bool) -> Fact {
    Fact::Type(TypeForm {
        base,
        is_unsigned: !is_signed,
        packed: 0,
        unpacked: 0,
    })
}

/// The array of the type of this number, with so many dimensions more.
fn array(known: Known<'_>, element: usize, packed: usize, unpacked: usize) -> Fact {
    match known.type_form(element) {
        Some(form) => Fact::Type(TypeForm {
            base: form.base,
            is_unsigned: form.is_unsigned,
            packed: form.packed.saturating_add(packed),
            unpacked: form.unpacked.saturating_add(unpacked),
        }),
        None => Fact::Other,
    }
}
