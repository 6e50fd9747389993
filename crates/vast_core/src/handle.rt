//! Handles: small copyable numbers of a file's nodes.
//!
//! Handles are equal exactly where their kind, their file's id and their index are, and equal ones hash equally.

ghost use Rattle.std.specs.Prelude.{◌≡◌};

/// The file that a node belongs to, and the node's place in its arena.
#[derive(Clone, Copy, Debug, PartialEq, Eq, Hash)]
pub(crate) struct Id {
    pub(crate) file_id: u64,
    pub(crate) index: usize,
}

/// A handle of a module.
#[derive(Clone, Copy, Debug, PartialEq, Eq, Hash)]
pub struct VastModule {
    pub(crate) id: Id,
}

/// A handle of a function.
#[derive(Clone, Copy, Debug, PartialEq, Eq, Hash)]
pub struct VastFunction {
    pub(crate) id: Id,
}

/// A handle of a module's port.
#[derive(Clone, Copy, Debug, PartialEq, Eq, Hash)]
pub struct ModulePort {
    pub(crate) id: Id,
}

/// A handle of a data type.
#[derive(Clone, Copy, Debug, PartialEq, Eq, Hash)]
pub struct VastDataType {
    pub(crate) id: Id,
}

/// A handle of a named expression: a port, a wire, a variable or a function's result.
#[derive(Clone, Copy, Debug, PartialEq, Eq, Hash)]
pub struct LogicRef {
    pub(crate) id: Id,
}

/// A handle of an expression.
#[derive(Clone, Copy, Debug, PartialEq, Eq, Hash)]
pub struct Expr {
    pub(crate) id: Id,
}

/// A handle of an expression that may be selected from.
#[derive(Clone, Copy, Debug, PartialEq, Eq, Hash)]
pub struct IndexableExpr {
    pub(crate) id: Id,
}

/// A handle of a part select `s[h:l]`.
#[derive(Clone, Copy, Debug, PartialEq, Eq, Hash)]
pub struct Slice {
    pub(crate) id: Id,
}

/// A handle of a bit select `s[i]`.
#[derive(Clone, Copy, Debug, PartialEq, Eq, Hash)]
pub struct Index {
    pub(crate) id: Id,
}

/// A handle of an instantiation of a module.
#[derive(Clone, Copy, Debug, PartialEq, Eq, Hash)]
pub struct Instantiation {
    pub(crate) id: Id,
}

/// A handle of a blank line.
#[derive(Clone, Copy, Debug, PartialEq, Eq, Hash)]
pub struct BlankLine {
    pub(crate) id: Id,
}

/// A handle of a text of Verilog that is written as it is.
#[derive(Clone, Copy, Debug, PartialEq, Eq, Hash)]
pub struct InlineVerilogStatement {
    pub(crate) id: Id,
}

/// A handle of a comment.
#[derive(Clone, Copy, Debug, PartialEq, Eq, Hash)]
pub struct Comment {
    pub(crate) id: Id,
}

/// A handle of the use of a macro as an expression.
#[derive(Clone, Copy, Debug, PartialEq, Eq, Hash)]
pub struct MacroRef {
    pub(crate) id: Id,
}

/// A handle of the use of a macro as a member.
#[derive(Clone, Copy, Debug, PartialEq, Eq, Hash)]
pub struct MacroStatement {
    pub(crate) id: Id,
}

/// A handle of an assignment `assign l = r`.
#[derive(Clone, Copy, Debug, PartialEq, Eq, Hash)]
pub struct ContinuousAssignment {
    pub(crate) id: Id,
}

/// A handle of an always block.
#[derive(Clone, Copy, Debug, PartialEq, Eq, Hash)]
pub struct VastAlwaysBase {
    pub(crate) id: Id,
}

/// A handle of a list of procedural statements.
#[derive(Clone, Copy, Debug, PartialEq, Eq, Hash)]
pub struct VastStatementBlock {
    pub(crate) id: Id,
}

/// A handle of an assignment of a procedural block.
#[derive(Clone, Copy, Debug, PartialEq, Eq, Hash)]
pub struct VastStatement {
    pub(crate) id: Id,
}

/// A handle of a statement `if`.
#[derive(Clone, Copy, Debug, PartialEq, Eq, Hash)]
pub struct Conditional {
    pub(crate) id: Id,
}

/// A handle of a case statement.
#[derive(Clone, Copy, Debug, PartialEq, Eq, Hash)]
pub struct CaseStatement {
    pub(crate) id: Id,
}

/// A handle of a generate loop.
#[derive(Clone, Copy, Debug, PartialEq, Eq, Hash)]
pub struct GenerateLoop {
    pub(crate) id: Id,
}

/// A handle of the name of a parameter.
#[derive(Clone, Copy, Debug, PartialEq, Eq, Hash)]
pub struct ParameterRef {
    pub(crate) id: Id,
}

/// A handle of the name of a local parameter.
#[derive(Clone, Copy, Debug, PartialEq, Eq, Hash)]
pub struct LocalparamRef {
    pub(crate) id: Id,
}

/// A handle of a definition: a name with its kind and type.
#[derive(Clone, Copy, Debug, PartialEq, Eq, Hash)]
pub struct Def {
    pub(crate) id: Id,
}

impl LogicRef {
    /// The same node as an expression.
    pub fn to_expr(&self) -> Expr
        ensures { result ≡ record { id = self.now.id } }
    {
        let LogicRef { id } = *self;
        Expr { id }
    }

    /// The same node as an expression that may be selected from.
    pub fn to_indexable_expr(&self) -> IndexableExpr
        ensures { result ≡ record { id = self.now.id } }
    {
        let LogicRef { id } = self;
        IndexableExpr { id: *id }
    }
}

impl IndexableExpr {
    /// The same node as an expression.
    pub fn to_expr(&self) -> Expr
        ensures { result ≡ record { id = self.now.id } }
    {
        let IndexableExpr { id } = *self;
        Expr { id }
    }
}

impl Slice {
    /// The same node as an expression.
    pub fn to_expr(&self) -> Expr
        ensures { result ≡ record { id = self.now.id } }
    {
        let Slice { id } = *self;
        Expr { id }
    }
}

impl Index {
    /// The same node as an expression.
    pub fn to_expr(&self) -> Expr
        ensures { result ≡ record { id = self.now.id } }
    {
        let Index { id } = *self;
        Expr { id }
    }

    /// The same node as an expression that may be selected from.
    pub fn to_indexable_expr(&self) -> IndexableExpr
        ensures { result ≡ record { id = self.now.id } }
    {
        let Index { id } = self;
        IndexableExpr { id: *id }
    }
}

impl ParameterRef {
    /// The same node as an expression.
    pub fn to_expr(&self) -> Expr
        ensures { result ≡ record { id = self.now.id } }
    {
        let ParameterRef { id } = *self;
        Expr { id }
    }

    /// The same node as an expression that may be selected from.
    pub fn to_indexable_expr(&self) -> IndexableExpr
        ensures { result ≡ record { id = self.now.id } }
    {
        let ParameterRef { id } = self;
        IndexableExpr { id: *id }
    }
}

impl LocalparamRef {
    /// The same node as an expression.
    pub fn to_expr(&self) -> Expr
        ensures { result ≡ record { id = self.now.id } }
    {
        let LocalparamRef { id } = *self;
        Expr { id }
    }
}

impl MacroRef {
    /// The same node as an expression.
    pub fn to_expr(&self) -> Expr
        ensures { result ≡ record { id = self.now.id } }
    {
        let MacroRef { id } = *self;
        Expr { id }
    }
}
