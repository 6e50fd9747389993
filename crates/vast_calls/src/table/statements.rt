//! Calls of functions, always blocks, conditionals and statements.

use super::by_name::{
    ALWAYS, BLOCK, CALL, CASE, CONDITION, CONDITIONAL, DATA_TYPE, END, FUNCTION, LHS, NAME, OWNER,
    PATTERN, RESULT_TYPE, RHS, SELECTOR, SENSITIVITY_LIST, START, TEXT, UNIQUE,
};
use super::{CallRow, kinds};

/// Calls of functions, always blocks, conditionals and statements.
pub(crate) static CALLS: [CallRow; 33] = [
    CallRow("AddFunction", &[OWNER, NAME, RESULT_TYPE], kinds::FUNCTION),
    CallRow(
        "FunctionAddInput",
        &[FUNCTION, NAME, DATA_TYPE],
        kinds::SIGNAL,
    ),
    CallRow(
        "FunctionAddLogicInput",
        &[FUNCTION, NAME, DATA_TYPE],
        kinds::SIGNAL,
    ),
    CallRow(
        "FunctionAddReg",
        &[FUNCTION, NAME, DATA_TYPE],
        kinds::SIGNAL,
    ),
    CallRow(
        "FunctionAddLogic",
        &[FUNCTION, NAME, DATA_TYPE],
        kinds::SIGNAL,
    ),
    CallRow("FunctionBody", &[FUNCTION], kinds::BLOCK),
    CallRow("FunctionResult", &[FUNCTION], kinds::SIGNAL),
    CallRow("AddAlwaysFf", &[OWNER, SENSITIVITY_LIST], kinds::ALWAYS),
    CallRow("AddAlwaysAt", &[OWNER, SENSITIVITY_LIST], kinds::ALWAYS),
    CallRow("AddAlwaysComb", &[OWNER], kinds::ALWAYS),
    CallRow("StatementBlock", &[ALWAYS], kinds::BLOCK),
    CallRow(
        "BlockAddBlockingAssignment",
        &[BLOCK, LHS, RHS],
        kinds::STATEMENT,
    ),
    CallRow(
        "BlockAddNonblockingAssignment",
        &[BLOCK, LHS, RHS],
        kinds::STATEMENT,
    ),
    CallRow(
        "BlockAddContinuousAssignment",
        &[BLOCK, LHS, RHS],
        kinds::STATEMENT,
    ),
    CallRow("BlockAddCommentText", &[BLOCK, TEXT], kinds::NOTHING),
    CallRow("BlockAddInlineText", &[BLOCK, TEXT], kinds::NOTHING),
    CallRow("BlockAddBlankLine", &[BLOCK], kinds::NOTHING),
    CallRow("AddConditional", &[OWNER, CONDITION], kinds::CONDITIONAL),
    CallRow("BlockAddCond", &[BLOCK, CONDITION], kinds::CONDITIONAL),
    CallRow("ConditionalThenBlock", &[CONDITIONAL], kinds::BLOCK),
    CallRow(
        "ConditionalAddElseIf",
        &[CONDITIONAL, CONDITION],
        kinds::BLOCK,
    ),
    CallRow("ConditionalAddElse", &[CONDITIONAL], kinds::BLOCK),
    CallRow("BlockAddCase", &[BLOCK, SELECTOR], kinds::CASE),
    CallRow("BlockAddCasez", &[BLOCK, SELECTOR], kinds::CASE),
    CallRow("BlockAddCasex", &[BLOCK, SELECTOR], kinds::CASE),
    CallRow("CaseAddItem", &[CASE, PATTERN], kinds::BLOCK),
    CallRow("CaseAddDefault", &[CASE], kinds::BLOCK),
    CallRow("CaseSetUnique", &[CASE, UNIQUE], kinds::NOTHING),
    CallRow("AddAlwaysStar", &[OWNER], kinds::ALWAYS),
    CallRow("AddAlwaysLatch", &[OWNER], kinds::ALWAYS),
    CallRow("AddInitial", &[OWNER], kinds::ALWAYS),
    CallRow("BlockAddTaskCall", &[BLOCK, CALL], kinds::NOTHING),
    CallRow("BlockAddFor", &[BLOCK, NAME, START, END], kinds::BLOCK),
];
