//! The table of the rules: what each says, and which tools refuse what it tells.
//!
//! The tools were tried on small modules, Icarus Verilog 11.0 with `-g2012`, Verilator 5.006 with `--lint-only` and Yosys
//! 0.23 with `read_verilog -sv`; in the dialect Verilog as `docs/use/TOOLS.md` says. What IEEE 1800-2017 and 1364-2005 say is a
//! reading of them without guarantee.

use crate::rule::Rule;
use crate::tools::Tools;

/// What a rule says.
#[derive(Clone, Copy)]
pub(crate) struct Row {
    pub(crate) why: &'static str,
    pub(crate) tools: Tools,
}

/// The rule's row.
#[rattlefmt::skip]
pub(crate) fn row_of(rule: Rule) -> Row {
    let (why, tools) = match rule {
        Rule::SelectOfValue => ("a select of a computed value is no SystemVerilog", Tools::All),
        Rule::SelectOfConcat => ("a select of a concatenation", Tools::IcarusAndYosys),
        Rule::SelectOfPart => ("a select of a part select is no SystemVerilog", Tools::IcarusAndYosys),
        Rule::SelectOfBit => ("a select of a single bit is no SystemVerilog", Tools::All),
        Rule::PartOfScalar => ("a part select of a scalar is no SystemVerilog", Tools::IcarusAndVerilator),
        Rule::WidePart => ("a part select of more than 2147483647 bits is no SystemVerilog", Tools::All),
        Rule::EmptyConcat => ("an empty concatenation is no SystemVerilog but for queues", Tools::All),
        Rule::EmptyReplication => ("a replication of nothing is no SystemVerilog", Tools::All),
        Rule::NegativeReplication => {
            ("a negative number of times is no SystemVerilog", Tools::IcarusAndVerilator)
        }
        Rule::ZeroReplication => {
            ("no times is no SystemVerilog outside of a concatenation", Tools::IcarusAndVerilator)
        }
        Rule::ReplicationBySignal => {
            ("a number of times that is not constant is no SystemVerilog", Tools::All)
        }
        Rule::UnsizedInConcat => {
            ("a number without a width in a concatenation is no SystemVerilog", Tools::Icarus)
        }
        Rule::Pattern => ("an assignment pattern", Tools::IcarusAndYosys),
        Rule::EmptyPattern => ("an empty assignment pattern is no SystemVerilog", Tools::All),
        Rule::PatternLabel => ("an assignment pattern as an arm's label is no SystemVerilog", Tools::All),
        Rule::SystemCallWithoutArguments => ("empty parentheses behind a system function", Tools::Yosys),
        Rule::WideLiteral => ("a literal of more than 65536 bits", Tools::Verilator),
        Rule::WideVector => ("a vector of more than 2147483647 bits", Tools::Yosys),
        Rule::NotAscii => ("a string that is not ASCII is no SystemVerilog", Tools::Nobody),
        Rule::SignCast => ("a cast to `signed` or `unsigned`", Tools::Icarus),
        Rule::ScalarCast => ("a cast to `logic`", Tools::Yosys),
        Rule::IntegerCast => ("a cast to `integer` or `int`", Tools::Yosys),
        Rule::UnsignedIntegerCast => ("a cast to an unsigned `integer` or `int`", Tools::IcarusAndYosys),
        Rule::ExternalCast => ("a cast to a type's name", Tools::Yosys),
        Rule::PackageCast => ("a cast to a package's type", Tools::IcarusAndYosys),
        Rule::LeftSide => ("an assignment to what is no variable or net is no SystemVerilog", Tools::All),
        Rule::LeftPart => {
            ("a concatenation on the left of other than variables and nets is no SystemVerilog",
            Tools::IcarusAndVerilator)
        }
        Rule::LeftParameter => ("an assignment to a parameter is no SystemVerilog", Tools::Icarus),
        Rule::RegBeforeType => ("`reg` before a type's name is no SystemVerilog", Tools::VerilatorAndYosys),
        Rule::KindBeforeType => ("a kind's word before a type's name is no SystemVerilog", Tools::All),
        Rule::PackedArray => ("an array of several packed dimensions", Tools::Yosys),
        Rule::PackedType => ("a packed array of a type's name", Tools::Icarus),
        Rule::UnpackedPort => ("a port that is an unpacked array", Tools::Yosys),
        Rule::UnpackedInput => ("a function's input that is an unpacked array", Tools::IcarusAndYosys),
        Rule::PackageResult => ("a function with a package's type as its result", Tools::Icarus),
        Rule::EmptyTypedef => {
            ("an enumeration without entries and a structure without fields are no SystemVerilog", Tools::All)
        }
        Rule::EnumBase => ("an enumeration over a type's name or a packed array", Tools::IcarusAndYosys),
        Rule::EnumArray => ("an unpacked array that declares its enumeration", Tools::Yosys),
        Rule::SignalEntry => {
            ("a value of an enumeration that is not constant is no SystemVerilog", Tools::IcarusAndVerilator)
        }
        Rule::FieldKind => ("a field of such a kind is no SystemVerilog", Tools::All),
        Rule::FieldTwice => ("a second field of the name is no SystemVerilog", Tools::Verilator),
        Rule::NamedField => ("a field of a package's type, or of a packed array of a type's name", Tools::Yosys),
        Rule::VariableWithoutType => {
            ("a variable with neither a kind's word nor a type's name is no SystemVerilog", Tools::All)
        }
        Rule::WireParameter => ("a parameter of the kind `wire` or `genvar` is no SystemVerilog", Tools::All),
        Rule::RegParameter => ("a parameter of the kind `reg`", Tools::Icarus),
        Rule::IntegerRange => {
            ("a parameter of the kind `integer` or `int` with a range is no SystemVerilog", Tools::All)
        }
        Rule::UnsignedIntegerParameter => {
            ("a parameter of an unsigned `integer` or `int`", Tools::Icarus)
        }
        Rule::PackageParameter => ("a parameter of a package's type", Tools::Icarus),
        Rule::PackedParameter => ("a parameter that is a packed array", Tools::IcarusAndYosys),
        Rule::UnpackedParameter => ("a parameter that is an unpacked array", Tools::IcarusAndYosys),
        Rule::NoEvents => ("an always block that waits for nothing, `@ ()`, is no SystemVerilog", Tools::All),
        Rule::EdgeOfValue => ("an edge of other than a bit's name", Tools::Yosys),
        Rule::EdgeWithName => ("an edge beside an event without one", Tools::Yosys),
        Rule::EdgeInExpression => ("an edge inside of an expression is no SystemVerilog", Tools::All),
        Rule::CaseWithoutArms => ("a case without arms is no SystemVerilog", Tools::Icarus),
        Rule::TwoDefaults => ("a second `default` is no SystemVerilog", Tools::Verilator),
        Rule::AssignInProcedure => ("`assign` in a procedure", Tools::Yosys),
        Rule::AssignmentInGenerate => {
            ("a procedure's assignment in a conditional of a module is no SystemVerilog", Tools::All)
        }
        Rule::TaskOfValue => ("a statement of what is no call is no SystemVerilog", Tools::All),
        Rule::SimulatedTask => ("a system task that only a simulation runs", Tools::Yosys),
        Rule::TaskInGenerate => {
            ("a procedure's call in a conditional of a module is no SystemVerilog", Tools::All)
        }
        Rule::LoopBySignal => ("a procedure's loop from a signal or up to one", Tools::Yosys),
        Rule::LoopInGenerate => {
            ("a procedure's loop in a conditional of a module is no SystemVerilog", Tools::All)
        }
        Rule::CasezInGenerate => {
            ("`casez` or `casex` in a conditional of a module is no SystemVerilog", Tools::IcarusAndVerilator)
        }
        Rule::UniqueInGenerate => {
            ("`unique` in a conditional of a module is no SystemVerilog", Tools::All)
        }
        Rule::Keyword => ("a name that is a keyword is no SystemVerilog", Tools::IcarusAndVerilator),
        Rule::NotAName => ("a name that is no identifier is no SystemVerilog", Tools::All),
        Rule::SystemName => {
            ("a declared name that begins with `$` is no SystemVerilog", Tools::IcarusAndVerilator)
        }
        Rule::IcarusWord => ("a name that Icarus has for a keyword", Tools::Icarus),
        Rule::VerilatorWord => ("a name that Verilator has for a keyword", Tools::Verilator),
        Rule::DeclaredTwice => ("a name that is declared twice is no SystemVerilog", Tools::IcarusAndVerilator),
        Rule::InstanceTwice => ("an instance with a name that is taken is no SystemVerilog", Tools::All),
        Rule::ModuleTwice => ("a second module of the name is no SystemVerilog", Tools::Icarus),
        Rule::ConnectedTwice => {
            ("a port that is connected twice is no SystemVerilog", Tools::IcarusAndVerilator)
        }
        Rule::Directive => ("a macro with a directive's name is that directive", Tools::Each),
        Rule::QuoteInMacro => ("a quote inside of a string in a macro's argument", Tools::Icarus),
        Rule::VerilatorComment => ("a comment that begins with `verilator` is an order to it", Tools::Verilator),
        Rule::SynthesisComment => {
            ("a comment that begins with `synopsys` or `synthesis` may be an order to a tool", Tools::Yosys)
        }
        Rule::PackageImport => ("an import of a package", Tools::Yosys),
        Rule::VerilogGenvar => ("a `genvar` in a `for` is no Verilog", Tools::Yosys),
        Rule::VerilogNoInputs => ("a function without inputs is no Verilog", Tools::Icarus),
        Rule::VerilogUnsigned => ("`unsigned` in a declaration is no Verilog", Tools::Yosys),
        Rule::VerilogUnpackedPort => {
            ("a port that is an unpacked array is no Verilog", Tools::IcarusAndYosys)
        }
        Rule::VerilogInt => ("`int` is no Verilog", Tools::All),
        Rule::VerilogFill => ("an unsized literal of one digit, as `'0`, is no Verilog", Tools::Nobody),
        Rule::VerilogCast => ("a cast is no Verilog", Tools::All),
        Rule::VerilogAlways => ("`always_comb`, `always_latch` and `always_ff` are no Verilog", Tools::All),
        Rule::VerilogLogic => ("`logic` is no Verilog", Tools::VerilatorAndYosys),
        Rule::VerilogPattern => ("an assignment pattern is no Verilog", Tools::All),
        Rule::VerilogType => ("a type's name in a declaration is no Verilog", Tools::All),
        Rule::VerilogImport => ("an import of a package is no Verilog", Tools::All),
        Rule::VerilogTypedef => ("a type that is declared by name is no Verilog", Tools::All),
    };
    Row { why, tools }
}
