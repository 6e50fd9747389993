//! Nodes: what the arenas of a file hold, with handles in the place of children. What there are many of are words, of
//! which most take no memory of their own: names of signals, and literals.

ghost use Rattle.std.specs.Prelude.{◌≡◌, IfOk};

use crate::handle::{
    CaseStatement, Comment, Conditional, ContinuousAssignment, Def, Expr, GenerateLoop,
    InlineVerilogStatement, Instantiation, LogicRef, MacroRef, MacroStatement, ModulePort,
    VastAlwaysBase, VastDataType, VastFunction, VastModule, VastStatement, VastStatementBlock,
};
use crate::typedef::Typedef;
use std::alloc::{AllocError, Global};
use std::marker::Model;
use vast_literal::{
    AlwaysKind, BinaryOperator, CaseKind, DataKind, ModulePortDirection, UnaryOperator,
};
use vast_names::{NameTable, Text, Word};

/// A node of the arena that expressions and types share: an expression, or a data type. Types hold widths and names hold
/// types, so that "children are older" is one order. It is one flat enum, and the names of a package's type are boxed,
/// since each enum has a tag of its own in memory and each node takes as much as the largest.
#[derive(Drop)]
pub enum ExprNode {
    /// A name, with the type that it was declared with, if any.
    Name(Word, Option<VastDataType>),
    /// A literal's text, and its value where that is known.
    Literal(Word, Option<i64>),
    /// A string's text, with its quotes.
    StringText(String),
    Unary(UnaryOperator, Expr),
    Binary(BinaryOperator, Expr, Expr),
    /// The condition, the consequent and the alternate of `c ? a : b`.
    Ternary(Expr, Expr, Expr),
    /// The subject and the index of `s[i]`.
    Index(Expr, Expr),
    /// The subject and the bounds of `s[h:l]`.
    Slice(Expr, Expr, Expr),
    /// The subject, the start and the width in bits of `s[start +: width]`.
    PartSelect(Expr, Expr, i64),
    /// The subject and the name of `s.m`, a member of a value of a named type.
    MemberOf(Expr, Word),
    /// A concatenation `{a, b}`, or with a count its replication `{n{a, b}}`.
    Concat(Option<Expr>, Vec<Expr>),
    /// An array pattern `'{a, b}`.
    Pattern(Vec<Expr>),
    /// The width and the operand of `w'(v)`.
    WidthCast(Expr, Expr),
    /// The type and the operand of a cast to a type.
    TypeCast(VastDataType, Expr),
    PosEdge(Expr),
    NegEdge(Expr),
    /// The use of a macro without a list of arguments.
    Macro(String),
    /// The use of a macro with a list of arguments.
    MacroCall(String, Vec<Expr>),
    /// The call of a function.
    Call(String, Vec<Expr>),
    /// A data type, which is no expression: [`crate::Ast::expr`] never returns it.
    DataType(TypeNode),
}

/// A data type.
#[derive(Drop)]
pub enum TypeNode {
    /// One bit, signed or not.
    Scalar(bool),
    /// A vector: its width, the width's value where that is known, and whether it is signed.
    Vector(Expr, Option<i64>, bool),
    /// Verilog's `integer`, signed or not.
    Integer(bool),
    /// SystemVerilog's `int`, signed or not.
    Int(bool),
    /// A type of this name, declared elsewhere.
    External(String),
    /// A type that is declared in a package.
    Package(Box<PackageName>),
    /// A packed array: its elements' type, and its dimensions from the outermost.
    Packed(VastDataType, Vec<Dimension>),
    /// An unpacked array: its elements' type, and its dimensions from the outermost.
    Unpacked(VastDataType, Vec<Dimension>),
}

/// A dimension of an array.
#[derive(Clone, Copy)]
pub enum Dimension {
    /// This many elements.
    Count(i64),
    /// As many elements as the expression says.
    Size(Expr),
}

/// A package, and the name of a type of it.
#[derive(Drop)]
pub struct PackageName {
    pub package_name: String,
    pub name: String,
}

/// A port of a module.
#[derive(Drop)]
pub struct Port {
    pub direction: ModulePortDirection,
    pub kind: DataKind,
    pub name: Word,
    pub data_type: VastDataType,
    /// The port's name as an expression.
    pub logic_ref: LogicRef,
}

/// An assignment, `l <= r` where it is nonblocking.
#[derive(Clone, Copy, Debug, PartialEq, Eq)]
pub struct Assignment {
    pub lhs: Expr,
    pub rhs: Expr,
    pub nonblocking: bool,
}

/// What a parameter declares.
#[derive(Drop)]
pub enum ParameterForm {
    /// A name alone.
    Plain(Word),
    /// A name of type `int`.
    Int(Word),
    /// The kind, the type and the name of a definition.
    Defined(Def),
}

/// A member of a module or of a generate loop.
#[derive(Drop)]
pub enum Member {
    /// The kind, the name and the type of a wire, reg or logic.
    Declaration(DataKind, Word, VastDataType),
    ContinuousAssignment(ContinuousAssignment),
    /// Whether the parameter is local, what it declares, and its value.
    Parameter(bool, ParameterForm, Expr),
    BlankLine,
    Comment(Comment),
    /// The package whose declarations are imported.
    Import(Text),
    Typedef(Typedef),
    Inline(InlineVerilogStatement),
    Macro(MacroStatement),
    Instantiation(Instantiation),
    Function(VastFunction),
    Always(VastAlwaysBase),
    Conditional(Conditional),
    Loop(GenerateLoop),
}

/// A parameter of a module's header.
#[derive(Drop)]
pub struct ParameterPort {
    pub name: Text,
    pub data_type: Option<VastDataType>,
    pub value: Expr,
}

/// A module: its lists in the order of the calls, and the names that its ports and variables have taken.
#[derive(Drop)]
pub struct Module {
    pub name: String,
    pub parameters: Vec<ParameterPort>,
    pub ports: Vec<ModulePort>,
    pub members: Vec<Member>,
    pub names: NameTable,
}

/// An item of a file.
#[derive(Drop)]
pub enum FileItem {
    Module(VastModule),
    /// The path of an included file.
    Include(Text),
    /// The package whose declarations are imported.
    Import(Text),
    Typedef(Typedef),
    Comment(Text),
    BlankLine,
}

/// A name that a function declares, as an input or a local.
#[derive(Drop)]
pub struct FunctionVariable {
    pub kind: DataKind,
    pub name: Word,
    pub data_type: VastDataType,
}

/// A function, with the names that its result, inputs and locals have taken.
#[derive(Drop)]
pub struct Function {
    pub name: String,
    pub result_type: VastDataType,
    pub result: LogicRef,
    pub inputs: Vec<FunctionVariable>,
    pub locals: Vec<FunctionVariable>,
    pub body: VastStatementBlock,
    pub names: NameTable,
}

/// A definition, from which parameters take kind, type and name.
#[derive(Drop)]
pub struct Definition {
    pub name: Text,
    pub kind: DataKind,
    pub data_type: VastDataType,
}

/// What stands between members for the reader, or for a preprocessor.
#[derive(Drop)]
pub enum Artifact {
    BlankLine,
    Comment(Text),
    Inline(Text),
    /// The use of a macro, with a semicolon or without.
    MacroStatement(MacroRef, bool),
}

/// What an instantiation gives to a parameter or to a port of this name; an open port has no expression. An entry of an
/// enumeration with its value.
#[derive(Drop)]
pub struct Connection {
    pub name: Text,
    pub value: Option<Expr>,
}

/// An instantiation of a module.
#[derive(Drop)]
pub struct Instance {
    pub module_name: String,
    pub instance_name: String,
    pub parameters: Vec<Connection>,
    pub connections: Vec<Connection>,
}

/// An always block, with its events.
#[derive(Drop)]
pub struct AlwaysBlock {
    pub kind: AlwaysKind,
    pub events: Vec<Expr>,
    pub block: VastStatementBlock,
}

/// A procedural statement.
#[derive(Drop)]
pub enum Statement {
    /// `l = r`, or `l <= r` where the assignment is nonblocking.
    Assignment(VastStatement),
    /// `assign l = r`.
    Continuous(VastStatement),
    /// A call.
    Task(Expr),
    Conditional(Conditional),
    Case(CaseStatement),
    For(ForLoop),
    BlankLine,
    Comment(Text),
    Inline(Text),
}

/// A loop of a block: its index runs from `start` on while it is below `end`.
#[derive(Drop)]
pub struct ForParts {
    /// The index's name.
    pub index: Word,
    pub start: Expr,
    pub end: Expr,
    pub block: VastStatementBlock,
}

/// A loop of a block, on the heap: loops are few, and each statement would else take as much memory as one.
#[derive(Drop)]
pub struct ForLoop {
    parts: Box<ForParts>,
}

impl Model for ForLoop {
    ghost use Rattle.vast_core.specs.declared.node.ForParts.{ForParts};

    ghost Value = { ForParts };

    ghost view = { λ l. l.parts.value };
}

impl ForLoop {
    /// The loop of these parts.
    ///
    /// # Errors
    /// `AllocError` where a growth was refused.
    pub fn new(alloc: Global, parts: ForParts) -> Result<ForLoop, AllocError>
        ensures { IfOk result (λ l. l ≡ parts) }
    {
        Ok(ForLoop {
            parts: Box::new(alloc, parts)?,
        })
    }

    /// The loop's parts.
    pub fn parts(&self) -> &ForParts
        ensures { result.now ≡ self.now }
    {
        &self.parts
    }
}

/// An arm `else if` of a conditional.
#[derive(Clone, Copy, Debug, PartialEq, Eq)]
pub struct ElseIf {
    pub condition: Expr,
    pub block: VastStatementBlock,
}

/// An arm of a case statement; a default has no label.
#[derive(Clone, Copy, Debug, PartialEq, Eq)]
pub struct CaseArm {
    pub label: Option<Expr>,
    pub block: VastStatementBlock,
}

/// A conditional: its first arm, its arms `else if`, and its `else` where it has one.
#[derive(Drop)]
pub struct ConditionalNode {
    pub condition: Expr,
    pub consequent: VastStatementBlock,
    pub else_ifs: Vec<ElseIf>,
    pub otherwise: Option<VastStatementBlock>,
}

/// A case statement, `unique` or not.
#[derive(Drop)]
pub struct CaseNode {
    pub kind: CaseKind,
    pub unique: bool,
    pub selector: Expr,
    pub arms: Vec<CaseArm>,
}

/// A generate loop: its variable runs from `start` on while it is below `end`.
#[derive(Drop)]
pub struct LoopNode {
    /// The variable as an expression.
    pub genvar: LogicRef,
    pub name: String,
    pub start: Expr,
    pub end: Expr,
    pub label: Option<String>,
    pub members: Vec<Member>,
}

/// The containers that nest in one another, in one arena: what a container holds is newer than it. A loop is boxed,
/// since loops are few and each block would else take as much memory as a loop.
#[derive(Drop)]
pub(crate) enum Nest {
    Block(Vec<Statement>),
    Conditional(ConditionalNode),
    Case(CaseNode),
    Loop(Box<LoopNode>),
}
