//! Calls that make any other expression.

use super::by_name::{
    ALTERNATE, ARGUMENTS, BITS_MSB, CONDITION, CONSEQUENT, DATA_TYPE, ELEMENTS, EXPRESSION,
    EXPRESSIONS, FIELD, FORMAT, HI, HI_NUMBER, INDEX, INDEX_NUMBER, LO, LO_NUMBER, NAME,
    REPLICATION, REPLICATION_NUMBER, START, SUBJECT, TEXT, VALUE, VALUE_NUMBER, VALUE_TEXT, WIDTH,
    WIDTH_NUMBER,
};
use super::{CallRow, kinds};

/// Calls that make any other expression.
pub(crate) static CALLS: [CallRow; 27] = [
    CallRow("MakeLiteral", &[TEXT, FORMAT], kinds::EXPRESSION),
    CallRow("MakeBinaryPattern", &[BITS_MSB], kinds::EXPRESSION),
    CallRow(
        "MakeUnsizedDecimalLiteral",
        &[VALUE_NUMBER],
        kinds::EXPRESSION,
    ),
    CallRow("MakeStringLiteral", &[VALUE_TEXT], kinds::EXPRESSION),
    CallRow("MakeUnsizedOneLiteral", &[], kinds::EXPRESSION),
    CallRow("MakeUnsizedZeroLiteral", &[], kinds::EXPRESSION),
    CallRow("MakeUnsizedXLiteral", &[], kinds::EXPRESSION),
    CallRow("MakeName", &[NAME], kinds::EXPRESSION),
    CallRow("MakeIndexableExpression", &[EXPRESSION], kinds::INDEXABLE),
    CallRow("MakeSlice", &[SUBJECT, HI_NUMBER, LO_NUMBER], kinds::SLICE),
    CallRow("MakeIndex", &[SUBJECT, INDEX_NUMBER], kinds::INDEX),
    CallRow("MakeSliceExpr", &[SUBJECT, HI, LO], kinds::SLICE),
    CallRow("MakeIndexExpr", &[SUBJECT, INDEX], kinds::INDEX),
    CallRow(
        "MakeIndexedPartSelect",
        &[SUBJECT, START, WIDTH_NUMBER],
        kinds::EXPRESSION,
    ),
    CallRow("MakeFunctionCall", &[NAME, ARGUMENTS], kinds::EXPRESSION),
    CallRow("MakeConcat", &[EXPRESSIONS], kinds::EXPRESSION),
    CallRow(
        "MakeReplicatedConcat",
        &[REPLICATION, ELEMENTS],
        kinds::EXPRESSION,
    ),
    CallRow(
        "MakeReplicatedConcatI64",
        &[REPLICATION_NUMBER, ELEMENTS],
        kinds::EXPRESSION,
    ),
    CallRow("MakeArrayAssignmentPattern", &[ELEMENTS], kinds::EXPRESSION),
    CallRow(
        "MakeTernary",
        &[CONDITION, CONSEQUENT, ALTERNATE],
        kinds::EXPRESSION,
    ),
    CallRow("MakeWidthCast", &[WIDTH, VALUE], kinds::EXPRESSION),
    CallRow("MakeTypeCast", &[DATA_TYPE, VALUE], kinds::EXPRESSION),
    CallRow("MakePosEdge", &[EXPRESSION], kinds::EXPRESSION),
    CallRow("MakeNegEdge", &[EXPRESSION], kinds::EXPRESSION),
    CallRow("MakeMacroRef", &[NAME], kinds::MACRO),
    CallRow("MakeMacroRefWithArgs", &[NAME, ARGUMENTS], kinds::MACRO),
    CallRow("MakeMember", &[VALUE, FIELD], kinds::EXPRESSION),
];
