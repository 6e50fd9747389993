//! Helpers.

use super::by_name::{CLK, DIMENSIONS, INVERT, REGISTERS, RESET, SCOPE, VALUE_INDEXABLE, VALUES};
use super::{CallRow, kinds};

/// Helpers.
pub(crate) static CALLS: [CallRow; 5] = [
    CallRow(
        "!AddRegisters",
        &[CLK, RESET, REGISTERS, SCOPE],
        kinds::NOTHING,
    ),
    CallRow("!BitwiseOrReduce", &[VALUES], kinds::EXPRESSION),
    CallRow(
        "!BitwiseOrReduceArrayElements",
        &[VALUE_INDEXABLE, DIMENSIONS],
        kinds::EXPRESSION,
    ),
    CallRow("!LogicalAndReduce", &[VALUES, INVERT], kinds::EXPRESSION),
    CallRow("!LogicalOrReduce", &[VALUES, INVERT], kinds::EXPRESSION),
];
