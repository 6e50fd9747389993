//! Calls of parts that are made beforehand, and that add them to modules.

use super::by_name::{
    ASSIGNMENT, BLANK, COMMENT, CONNECTION_EXPRESSIONS, CONNECTION_NAMES, DATA_TYPE,
    INLINE_STATEMENT, INSTANCE_NAME, INSTANTIATION, KIND, LHS, MACRO_REF, MACRO_STATEMENT,
    MODULE_NAME, NAME, OWNER, PARAMETER_EXPRESSIONS, PARAMETER_NAMES, RHS, SEMICOLON, TEXT,
};
use super::{CallRow, kinds};

/// Calls of parts that are made beforehand, and that add them to modules.
pub(crate) static CALLS: [CallRow; 15] = [
    CallRow("MakeDef", &[NAME, KIND, DATA_TYPE], kinds::DEFINITION),
    CallRow("MakeBlankLine", &[], kinds::BLANK_LINE),
    CallRow("MakeComment", &[TEXT], kinds::COMMENT),
    CallRow(
        "MakeInlineVerilogStatement",
        &[TEXT],
        kinds::INLINE_STATEMENT,
    ),
    CallRow(
        "MakeMacroStatement",
        &[MACRO_REF, SEMICOLON],
        kinds::MACRO_STATEMENT,
    ),
    CallRow("MakeContinuousAssignment", &[LHS, RHS], kinds::ASSIGNMENT),
    CallRow("MakeNonblockingAssignment", &[LHS, RHS], kinds::STATEMENT),
    CallRow("MakeBlockingAssignment", &[LHS, RHS], kinds::STATEMENT),
    CallRow(
        "MakeInstantiation",
        &[
            MODULE_NAME,
            INSTANCE_NAME,
            PARAMETER_NAMES,
            PARAMETER_EXPRESSIONS,
            CONNECTION_NAMES,
            CONNECTION_EXPRESSIONS,
        ],
        kinds::INSTANTIATION,
    ),
    CallRow(
        "AddMemberInstantiation",
        &[OWNER, INSTANTIATION],
        kinds::NOTHING,
    ),
    CallRow(
        "AddMemberContinuousAssignment",
        &[OWNER, ASSIGNMENT],
        kinds::NOTHING,
    ),
    CallRow("AddMemberBlankLine", &[OWNER, BLANK], kinds::NOTHING),
    CallRow("AddMemberComment", &[OWNER, COMMENT], kinds::NOTHING),
    CallRow(
        "AddMemberInlineStatement",
        &[OWNER, INLINE_STATEMENT],
        kinds::NOTHING,
    ),
    CallRow(
        "AddMemberMacroStatement",
        &[OWNER, MACRO_STATEMENT],
        kinds::NOTHING,
    ),
];
