//! Calls that make an expression of one or two operands.

use super::by_name::{EXPRESSION, LHS, RHS};
use super::{CallRow, kinds};

/// Calls that make an expression of one or two operands.
pub(crate) static CALLS: [CallRow; 31] = [
    CallRow("MakeNot", &[EXPRESSION], kinds::EXPRESSION),
    CallRow("MakeBitwiseNot", &[EXPRESSION], kinds::EXPRESSION),
    CallRow("MakeNegate", &[EXPRESSION], kinds::EXPRESSION),
    CallRow("MakeLogicalNot", &[EXPRESSION], kinds::EXPRESSION),
    CallRow("MakeAndReduce", &[EXPRESSION], kinds::EXPRESSION),
    CallRow("MakeOrReduce", &[EXPRESSION], kinds::EXPRESSION),
    CallRow("MakeXorReduce", &[EXPRESSION], kinds::EXPRESSION),
    CallRow("MakeAdd", &[LHS, RHS], kinds::EXPRESSION),
    CallRow("MakeSub", &[LHS, RHS], kinds::EXPRESSION),
    CallRow("MakeMul", &[LHS, RHS], kinds::EXPRESSION),
    CallRow("MakeDiv", &[LHS, RHS], kinds::EXPRESSION),
    CallRow("MakeMod", &[LHS, RHS], kinds::EXPRESSION),
    CallRow("MakePower", &[LHS, RHS], kinds::EXPRESSION),
    CallRow("MakeBitwiseAnd", &[LHS, RHS], kinds::EXPRESSION),
    CallRow("MakeBitwiseOr", &[LHS, RHS], kinds::EXPRESSION),
    CallRow("MakeBitwiseXor", &[LHS, RHS], kinds::EXPRESSION),
    CallRow("MakeShll", &[LHS, RHS], kinds::EXPRESSION),
    CallRow("MakeShra", &[LHS, RHS], kinds::EXPRESSION),
    CallRow("MakeShrl", &[LHS, RHS], kinds::EXPRESSION),
    CallRow("MakeNe", &[LHS, RHS], kinds::EXPRESSION),
    CallRow("MakeCaseNe", &[LHS, RHS], kinds::EXPRESSION),
    CallRow("MakeEq", &[LHS, RHS], kinds::EXPRESSION),
    CallRow("MakeCaseEq", &[LHS, RHS], kinds::EXPRESSION),
    CallRow("MakeGe", &[LHS, RHS], kinds::EXPRESSION),
    CallRow("MakeGt", &[LHS, RHS], kinds::EXPRESSION),
    CallRow("MakeLe", &[LHS, RHS], kinds::EXPRESSION),
    CallRow("MakeLt", &[LHS, RHS], kinds::EXPRESSION),
    CallRow("MakeLogicalAnd", &[LHS, RHS], kinds::EXPRESSION),
    CallRow("MakeLogicalOr", &[LHS, RHS], kinds::EXPRESSION),
    CallRow("MakeNeX", &[LHS, RHS], kinds::EXPRESSION),
    CallRow("MakeEqX", &[LHS, RHS], kinds::EXPRESSION),
];
