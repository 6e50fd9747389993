//! Calls of the file's items, and of modules with their ports, declarations and parameters.

use super::by_name::{
    BLANK_LINE, DATA_TYPE, DEFINITION, ENTRY_NAMES, ENTRY_VALUES, FIELDS, INCLUDE, NAME, OWNER,
    PACKAGE, RHS, START_NUMBER, TEXT, VALUE,
};
use super::{CallRow, kinds};

/// Calls of the file's items, and of modules with their ports, declarations and parameters.
pub(crate) static CALLS: [CallRow; 27] = [
    CallRow("AddInclude", &[INCLUDE], kinds::NOTHING),
    CallRow("AddBlankLine", &[BLANK_LINE], kinds::NOTHING),
    CallRow("AddCommentText", &[TEXT], kinds::NOTHING),
    CallRow("AddModule", &[NAME], kinds::MODULE),
    CallRow("AddInput", &[OWNER, NAME, DATA_TYPE], kinds::SIGNAL),
    CallRow("AddOutput", &[OWNER, NAME, DATA_TYPE], kinds::SIGNAL),
    CallRow("AddInout", &[OWNER, NAME, DATA_TYPE], kinds::SIGNAL),
    CallRow("AddLogicInput", &[OWNER, NAME, DATA_TYPE], kinds::SIGNAL),
    CallRow("AddLogicOutput", &[OWNER, NAME, DATA_TYPE], kinds::SIGNAL),
    CallRow("AddWire", &[OWNER, NAME, DATA_TYPE], kinds::SIGNAL),
    CallRow("AddReg", &[OWNER, NAME, DATA_TYPE], kinds::SIGNAL),
    CallRow("AddLogic", &[OWNER, NAME, DATA_TYPE], kinds::SIGNAL),
    CallRow("AddParameterPort", &[OWNER, NAME, VALUE], kinds::SIGNAL),
    CallRow(
        "AddTypedParameterPort",
        &[OWNER, NAME, DATA_TYPE, VALUE],
        kinds::SIGNAL,
    ),
    CallRow("AddParameter", &[OWNER, NAME, RHS], kinds::PARAMETER),
    CallRow(
        "AddParameterWithDef",
        &[OWNER, DEFINITION, RHS],
        kinds::PARAMETER,
    ),
    CallRow("AddLocalparam", &[OWNER, NAME, RHS], kinds::LOCALPARAM),
    CallRow("AddIntLocalparam", &[OWNER, NAME, RHS], kinds::LOCALPARAM),
    CallRow(
        "AddTypedLocalparam",
        &[OWNER, DEFINITION, RHS],
        kinds::LOCALPARAM,
    ),
    CallRow(
        "HoistModuleDeclarations",
        &[OWNER, START_NUMBER],
        kinds::NOTHING,
    ),
    CallRow("AddImport", &[OWNER, PACKAGE], kinds::NOTHING),
    CallRow("AddFileImport", &[PACKAGE], kinds::NOTHING),
    CallRow(
        "AddEnumTypedef",
        &[OWNER, NAME, DATA_TYPE, ENTRY_NAMES, ENTRY_VALUES],
        kinds::TYPE,
    ),
    CallRow("AddStructTypedef", &[OWNER, NAME, FIELDS], kinds::TYPE),
    CallRow(
        "AddFileEnumTypedef",
        &[NAME, DATA_TYPE, ENTRY_NAMES, ENTRY_VALUES],
        kinds::TYPE,
    ),
    CallRow("AddFileStructTypedef", &[NAME, FIELDS], kinds::TYPE),
    CallRow("AddVariable", &[OWNER, NAME, DATA_TYPE], kinds::SIGNAL),
];
