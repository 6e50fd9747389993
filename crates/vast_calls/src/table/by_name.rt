//! The parameters of the calls, each by its name and what stands for it.

use super::{Parameter, kinds};

pub(super) const ALTERNATE: Parameter = Parameter("alternate", kinds::EXPRESSION);

pub(super) const ALWAYS: Parameter = Parameter("always", kinds::ALWAYS);

pub(super) const ARGUMENTS: Parameter = Parameter("arguments", kinds::EXPRESSIONS);

pub(super) const ASSIGNMENT: Parameter = Parameter("assignment", kinds::ASSIGNMENT);

pub(super) const BITS_MSB: Parameter = Parameter("bits_msb", kinds::TEXT);

pub(super) const BIT_COUNT: Parameter = Parameter("bit_count", kinds::INTEGER);

pub(super) const BLANK: Parameter = Parameter("blank", kinds::BLANK_LINE);

pub(super) const BLANK_LINE: Parameter = Parameter("blank_line", kinds::BLANK_LINE);

pub(super) const BLOCK: Parameter = Parameter("block", kinds::BLOCK);

pub(super) const CALL: Parameter = Parameter("call", kinds::EXPRESSION);

pub(super) const CASE: Parameter = Parameter("case", kinds::CASE);

pub(super) const CLK: Parameter = Parameter("clk", kinds::EXPRESSION);

pub(super) const COMMENT: Parameter = Parameter("comment", kinds::COMMENT);

pub(super) const CONDITION: Parameter = Parameter("condition", kinds::EXPRESSION);

pub(super) const CONDITIONAL: Parameter = Parameter("conditional", kinds::CONDITIONAL);

pub(super) const CONNECTION_EXPRESSIONS: Parameter = Parameter(
    "connection_expressions",
    kinds::OPTIONAL_EXPRESSIONS,
);

pub(super) const CONNECTION_NAMES: Parameter = Parameter("connection_names", kinds::TEXTS);

pub(super) const CONSEQUENT: Parameter = Parameter("consequent", kinds::EXPRESSION);

pub(super) const DATA_TYPE: Parameter = Parameter("data_type", kinds::TYPE);

pub(super) const DEFINITION: Parameter = Parameter("definition", kinds::DEFINITION);

pub(super) const DIMENSIONS: Parameter = Parameter("dimensions", kinds::INTEGERS);

pub(super) const E: Parameter = Parameter("e", kinds::EXPRESSION);

pub(super) const ELEMENT: Parameter = Parameter("element", kinds::TYPE);

pub(super) const ELEMENTS: Parameter = Parameter("elements", kinds::EXPRESSIONS);

pub(super) const END: Parameter = Parameter("end", kinds::EXPRESSION);

pub(super) const ENTRY_NAMES: Parameter = Parameter("names", kinds::TEXTS);

pub(super) const ENTRY_VALUES: Parameter = Parameter("values", kinds::OPTIONAL_EXPRESSIONS);

pub(super) const EXPRESSION: Parameter = Parameter("expression", kinds::EXPRESSION);

pub(super) const EXPRESSIONS: Parameter = Parameter("expressions", kinds::EXPRESSIONS);

pub(super) const FIELD: Parameter = Parameter("field", kinds::TEXT);

pub(super) const FIELDS: Parameter = Parameter("fields", kinds::DEFINITIONS);

pub(super) const FORMAT: Parameter = Parameter("format", kinds::FORMAT);

pub(super) const FUNCTION: Parameter = Parameter("function", kinds::FUNCTION);

pub(super) const GENERATE: Parameter = Parameter("generate", kinds::LOOP);

pub(super) const HI: Parameter = Parameter("hi", kinds::EXPRESSION);

pub(super) const HI_NUMBER: Parameter = Parameter("hi", kinds::INTEGER);

pub(super) const IDENTIFIER: Parameter = Parameter("identifier", kinds::TEXT);

pub(super) const INCLUDE: Parameter = Parameter("include", kinds::TEXT);

pub(super) const INDEX: Parameter = Parameter("index", kinds::EXPRESSION);

pub(super) const INDEX_NUMBER: Parameter = Parameter("index", kinds::INTEGER);

pub(super) const INLINE_STATEMENT: Parameter = Parameter("statement", kinds::INLINE_STATEMENT);

pub(super) const INSTANCE_NAME: Parameter = Parameter("instance_name", kinds::TEXT);

pub(super) const INSTANTIATION: Parameter = Parameter("instantiation", kinds::INSTANTIATION);

pub(super) const INVERT: Parameter = Parameter("invert", kinds::TRUTH);

pub(super) const KIND: Parameter = Parameter("kind", kinds::DATA_KIND);

pub(super) const LABEL: Parameter = Parameter("label", kinds::OPTIONAL_TEXT);

pub(super) const LHS: Parameter = Parameter("lhs", kinds::EXPRESSION);

pub(super) const LO: Parameter = Parameter("lo", kinds::EXPRESSION);

pub(super) const LOGIC_REF: Parameter = Parameter("logic_ref", kinds::SIGNAL);

pub(super) const LO_NUMBER: Parameter = Parameter("lo", kinds::INTEGER);

pub(super) const MACRO_REF: Parameter = Parameter("macro_ref", kinds::MACRO);

pub(super) const MACRO_STATEMENT: Parameter = Parameter("statement", kinds::MACRO_STATEMENT);

pub(super) const MODULE_NAME: Parameter = Parameter("module_name", kinds::TEXT);

pub(super) const NAME: Parameter = Parameter("name", kinds::TEXT);

pub(super) const OWNER: Parameter = Parameter("owner", kinds::MODULE);

pub(super) const PACKAGE: Parameter = Parameter("package", kinds::TEXT);

pub(super) const PACKAGE_NAME: Parameter = Parameter("package_name", kinds::TEXT);

pub(super) const PARAMETER_EXPRESSIONS: Parameter = Parameter(
    "parameter_expressions",
    kinds::EXPRESSIONS,
);

pub(super) const PARAMETER_NAMES: Parameter = Parameter("parameter_names", kinds::TEXTS);

pub(super) const PARENT: Parameter = Parameter("parent", kinds::LOOP);

pub(super) const PATTERN: Parameter = Parameter("pattern", kinds::EXPRESSION);

pub(super) const REGISTERS: Parameter = Parameter("registers", kinds::REGISTERS);

pub(super) const REPLICATION: Parameter = Parameter("replication", kinds::EXPRESSION);

pub(super) const REPLICATION_NUMBER: Parameter = Parameter("replication", kinds::INTEGER);

pub(super) const RESET: Parameter = Parameter("reset", kinds::OPTIONAL_RESET);

pub(super) const RESULT_TYPE: Parameter = Parameter("result_type", kinds::TYPE);

pub(super) const RHS: Parameter = Parameter("rhs", kinds::EXPRESSION);

pub(super) const SCOPE: Parameter = Parameter("scope", kinds::SCOPE);

pub(super) const SELECTOR: Parameter = Parameter("selector", kinds::EXPRESSION);

pub(super) const SEMICOLON: Parameter = Parameter("semicolon", kinds::TRUTH);

pub(super) const SENSITIVITY_LIST: Parameter = Parameter("sensitivity_list", kinds::EXPRESSIONS);

pub(super) const SIGNED: Parameter = Parameter("signed", kinds::TRUTH);

pub(super) const SIZES: Parameter = Parameter("dimensions", kinds::EXPRESSIONS);

pub(super) const START: Parameter = Parameter("start", kinds::EXPRESSION);

pub(super) const START_NUMBER: Parameter = Parameter("start", kinds::COUNT);

pub(super) const SUBJECT: Parameter = Parameter("subject", kinds::INDEXABLE);

pub(super) const TEXT: Parameter = Parameter("text", kinds::TEXT);

pub(super) const UNIQUE: Parameter = Parameter("unique", kinds::TRUTH);

pub(super) const VALUE: Parameter = Parameter("value", kinds::EXPRESSION);

pub(super) const VALUES: Parameter = Parameter("values", kinds::EXPRESSIONS);

pub(super) const VALUE_INDEXABLE: Parameter = Parameter("value", kinds::INDEXABLE);

pub(super) const VALUE_NUMBER: Parameter = Parameter("value", kinds::SMALL_INTEGER);

pub(super) const VALUE_TEXT: Parameter = Parameter("value", kinds::TEXT);

pub(super) const WIDTH: Parameter = Parameter("width", kinds::EXPRESSION);

pub(super) const WIDTH_NUMBER: Parameter = Parameter("width", kinds::INTEGER);
