//! The rules of the lint.

use crate::rows::row_of;
use crate::tools::Tools;

/// A form that is no SystemVerilog, no Verilog in that dialect, or that a tool refuses. [`Rule::why`] has its words and
/// [`Rule::tools`] the tools.
#[derive(Clone, Copy, Debug, PartialEq, Eq)]
pub enum Rule {
    // Selects
    SelectOfValue,
    SelectOfConcat,
    SelectOfPart,
    SelectOfBit,
    PartOfScalar,
    WidePart,
    // Lists
    EmptyConcat,
    EmptyReplication,
    NegativeReplication,
    ZeroReplication,
    ReplicationBySignal,
    UnsizedInConcat,
    Pattern,
    EmptyPattern,
    PatternLabel,
    SystemCallWithoutArguments,
    // Literals and vectors
    WideLiteral,
    WideVector,
    NotAscii,
    // Casts
    SignCast,
    ScalarCast,
    IntegerCast,
    UnsignedIntegerCast,
    ExternalCast,
    PackageCast,
    // Left sides
    LeftSide,
    LeftPart,
    LeftParameter,
    // Declarations
    RegBeforeType,
    KindBeforeType,
    PackedArray,
    PackedType,
    UnpackedPort,
    UnpackedInput,
    PackageResult,
    // Types that are declared by name
    EmptyTypedef,
    EnumBase,
    EnumArray,
    SignalEntry,
    FieldKind,
    FieldTwice,
    NamedField,
    VariableWithoutType,
    // Parameters
    WireParameter,
    RegParameter,
    IntegerRange,
    UnsignedIntegerParameter,
    PackageParameter,
    PackedParameter,
    UnpackedParameter,
    // Statements
    NoEvents,
    EdgeOfValue,
    EdgeWithName,
    EdgeInExpression,
    CaseWithoutArms,
    TwoDefaults,
    AssignInProcedure,
    AssignmentInGenerate,
    TaskOfValue,
    SimulatedTask,
    TaskInGenerate,
    LoopBySignal,
    LoopInGenerate,
    CasezInGenerate,
    UniqueInGenerate,
    // Names, macros and comments
    Keyword,
    NotAName,
    SystemName,
    IcarusWord,
    VerilatorWord,
    DeclaredTwice,
    InstanceTwice,
    ModuleTwice,
    ConnectedTwice,
    Directive,
    QuoteInMacro,
    VerilatorComment,
    SynthesisComment,
    PackageImport,
    // The dialect Verilog
    VerilogGenvar,
    VerilogNoInputs,
    VerilogUnsigned,
    VerilogUnpackedPort,
    VerilogInt,
    VerilogFill,
    VerilogCast,
    VerilogAlways,
    VerilogLogic,
    VerilogPattern,
    VerilogType,
    VerilogImport,
    VerilogTypedef,
}

impl Rule {
    /// What is printed, and what the standards say of it.
    pub fn why(self) -> &'static str {
        row_of(self).why
    }

    /// Which tools refuse it.
    pub fn tools(self) -> Tools {
        row_of(self).tools
    }
}
