//! Questions, which change nothing.

use super::by_name::{CONDITIONAL, DATA_TYPE, E, IDENTIFIER, LOGIC_REF, NAME, OWNER, WIDTH};
use super::{CallRow, kinds};

/// Questions, which change nothing.
pub(crate) static CALLS: [CallRow; 19] = [
    CallRow("?ConditionalHasElse", &[CONDITIONAL], kinds::TRUTH),
    CallRow("?Emit", &[], kinds::TEXT),
    CallRow("?EmitExpression", &[E], kinds::TEXT),
    CallRow("?FileIsPlain", &[], kinds::TRUTH),
    CallRow("?IsSystemVerilogKeyword", &[IDENTIFIER], kinds::TRUTH),
    CallRow("?LogicRefName", &[LOGIC_REF], kinds::TEXT),
    CallRow("?ModuleInputPorts", &[OWNER], kinds::PORTS),
    CallRow("?ModuleMemberCount", &[OWNER], kinds::COUNT),
    CallRow("?ModuleName", &[OWNER], kinds::TEXT),
    CallRow("?ModuleOutputPorts", &[OWNER], kinds::PORTS),
    CallRow("?ModulePorts", &[OWNER], kinds::PORTS),
    CallRow("?NameIsFree", &[OWNER, NAME], kinds::TRUTH),
    CallRow("?TypeCanBeCast", &[DATA_TYPE], kinds::TRUTH),
    CallRow("?TypeCanBePacked", &[DATA_TYPE], kinds::TRUTH),
    CallRow("?TypeFlatBitCountAsInt64", &[DATA_TYPE], kinds::INTEGER),
    CallRow("?TypeIsSigned", &[DATA_TYPE], kinds::TRUTH),
    CallRow("?TypeWidthAsInt64", &[DATA_TYPE], kinds::INTEGER),
    CallRow("?TypeWidthExpr", &[DATA_TYPE], kinds::OPTIONAL_TEXT),
    CallRow("?WidthIsUsable", &[WIDTH], kinds::TRUTH),
];
