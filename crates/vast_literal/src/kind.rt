//! The words of declarations, blocks and files, by the names of the crate xlsynth-vast; trees speak of the same enums.

ghost use Rattle.std.specs.Prelude.{◌≡◌};
ghost use Rattle.vast_literal.specs.Shape.{has_events};

/// The dialect in which a file is written.
#[derive(Clone, Copy, Debug, PartialEq, Eq, Hash)]
pub enum VastFileType {
    Verilog,
    SystemVerilog,
}

/// The direction of a module's port.
#[derive(Clone, Copy, Debug, PartialEq, Eq, Hash)]
pub enum ModulePortDirection {
    Input,
    Output,
    InOut,
}

/// The kind word of a declaration; `User` and `UntypedEnum` are written without one.
#[derive(Clone, Copy, Debug, PartialEq, Eq, Hash)]
pub enum DataKind {
    Reg,
    Wire,
    Logic,
    Integer,
    Int,
    User,
    UntypedEnum,
    Genvar,
}

/// The forms of an always block. The crate xlsynth-vast has the first three.
#[derive(Clone, Copy, Debug, PartialEq, Eq, Hash)]
pub enum AlwaysKind {
    AlwaysFF,
    AlwaysAt,
    AlwaysComb,
    /// `always @*`, which waits for all that it reads.
    AlwaysStar,
    AlwaysLatch,
    /// `initial`, which runs once.
    Initial,
}

impl AlwaysKind {
    /// Whether a list of what it waits for stands behind its words.
    pub fn has_events(self) -> bool
        ensures { result ≡ has_events self }
    {
        matches!(self, AlwaysKind::AlwaysFF | AlwaysKind::AlwaysAt)
    }
}

/// The words that begin a case statement.
#[derive(Clone, Copy, Debug, PartialEq, Eq, Hash)]
pub enum CaseKind {
    Case,
    CaseZ,
    CaseX,
}

/// How an assignment is written.
#[derive(Clone, Copy, Debug, PartialEq, Eq, Hash)]
pub enum AssignmentForm {
    /// `lhs = rhs;`
    Blocking,
    /// `lhs <= rhs;`
    Nonblocking,
    /// `assign lhs = rhs;`
    Continuous,
}
