//! Calls that make a type.

use super::by_name::{BIT_COUNT, DIMENSIONS, ELEMENT, NAME, PACKAGE_NAME, SIGNED, SIZES, WIDTH};
use super::{CallRow, kinds};

/// Calls that make a type.
pub(crate) static CALLS: [CallRow; 11] = [
    CallRow("MakeScalarType", &[], kinds::TYPE),
    CallRow("MakeIntegerType", &[SIGNED], kinds::TYPE),
    CallRow("MakeIntType", &[SIGNED], kinds::TYPE),
    CallRow("MakeExternType", &[NAME], kinds::TYPE),
    CallRow("MakeExternPackageType", &[PACKAGE_NAME, NAME], kinds::TYPE),
    CallRow("MakeBitVectorType", &[BIT_COUNT, SIGNED], kinds::TYPE),
    CallRow("MakeBitVectorTypeExpr", &[WIDTH, SIGNED], kinds::TYPE),
    CallRow("MakePackedArrayType", &[ELEMENT, DIMENSIONS], kinds::TYPE),
    CallRow("MakeUnpackedArrayType", &[ELEMENT, DIMENSIONS], kinds::TYPE),
    CallRow("MakePackedArrayTypeExpr", &[ELEMENT, SIZES], kinds::TYPE),
    CallRow("MakeUnpackedArrayTypeExpr", &[ELEMENT, SIZES], kinds::TYPE),
];
