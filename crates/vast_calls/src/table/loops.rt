//! Calls of generate loops and their members.

use super::by_name::{
    COMMENT, CONDITION, DEFINITION, END, GENERATE, INLINE_STATEMENT, INSTANTIATION, LABEL, LHS,
    MACRO_STATEMENT, NAME, OWNER, PARENT, RHS, SENSITIVITY_LIST, START,
};
use super::{CallRow, kinds};

/// Calls of generate loops and their members.
pub(crate) static CALLS: [CallRow; 18] = [
    CallRow(
        "AddGenerateLoop",
        &[OWNER, NAME, START, END, LABEL],
        kinds::LOOP,
    ),
    CallRow(
        "GenerateAddGenerateLoop",
        &[PARENT, NAME, START, END, LABEL],
        kinds::LOOP,
    ),
    CallRow("GenerateGenvar", &[GENERATE], kinds::SIGNAL),
    CallRow("GenerateAddAlwaysComb", &[GENERATE], kinds::ALWAYS),
    CallRow(
        "GenerateAddAlwaysFf",
        &[GENERATE, SENSITIVITY_LIST],
        kinds::ALWAYS,
    ),
    CallRow(
        "GenerateAddAlwaysAt",
        &[GENERATE, SENSITIVITY_LIST],
        kinds::ALWAYS,
    ),
    CallRow(
        "GenerateAddLocalparam",
        &[GENERATE, NAME, RHS],
        kinds::LOCALPARAM,
    ),
    CallRow(
        "GenerateAddTypedLocalparam",
        &[GENERATE, DEFINITION, RHS],
        kinds::LOCALPARAM,
    ),
    CallRow(
        "GenerateAddContinuousAssignment",
        &[GENERATE, LHS, RHS],
        kinds::STATEMENT,
    ),
    CallRow(
        "GenerateAddConditional",
        &[GENERATE, CONDITION],
        kinds::CONDITIONAL,
    ),
    CallRow("GenerateAddBlankLine", &[GENERATE], kinds::NOTHING),
    CallRow("GenerateAddComment", &[GENERATE, COMMENT], kinds::NOTHING),
    CallRow(
        "GenerateAddInstantiation",
        &[GENERATE, INSTANTIATION],
        kinds::NOTHING,
    ),
    CallRow(
        "GenerateAddInlineStatement",
        &[GENERATE, INLINE_STATEMENT],
        kinds::NOTHING,
    ),
    CallRow(
        "GenerateAddMacroStatement",
        &[GENERATE, MACRO_STATEMENT],
        kinds::NOTHING,
    ),
    CallRow("GenerateAddAlwaysStar", &[GENERATE], kinds::ALWAYS),
    CallRow("GenerateAddAlwaysLatch", &[GENERATE], kinds::ALWAYS),
    CallRow("GenerateAddInitial", &[GENERATE], kinds::ALWAYS),
];
