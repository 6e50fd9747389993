//! Parts that were made.

use crate::children::Children;
use crate::tree::{
    Arm, CaseArm, Connection, Event, Group, NormalDeclaration, NormalExpr, NormalItem,
    NormalMember, NormalStatement, Parameter, Port,
};
use vast_rows::Stack;

/// A path, which is no name.
#[derive(Clone, Copy)]
pub(crate) struct Path<'t> {
    pub(crate) text: &'t str,
}

/// The variable of a loop, its start, and the end that it stays below.
#[derive(Drop)]
pub(crate) struct Range<'t> {
    pub(crate) variable: &'t str,
    pub(crate) start: Box<NormalExpr>,
    pub(crate) end: Box<NormalExpr>,
}

/// The arms of a conditional, without those that stand before them.
#[derive(Drop)]
pub(crate) struct Alternatives {
    /// The arm that stands last.
    pub(crate) innermost: Arm,
    /// Those before it, the last of them first.
    pub(crate) before: Children<Arm>,
    /// The block of the last `else`.
    pub(crate) last: Option<Children<NormalStatement>>,
}

/// A part of a file. Lists have their last part first, since they are made from the right.
#[derive(Drop)]
pub(crate) enum Value<'t> {
    /// A part that is left out.
    Nothing,
    Answer(bool),
    Name(&'t str),
    Path(Path<'t>),
    Expression(Box<NormalExpr>),
    Loop(Range<'t>),
    Expressions(Children<NormalExpr>),
    Group(Group),
    Groups(Children<Group>),
    Declaration(NormalDeclaration),
    Declarations(Children<NormalDeclaration>),
    Connection(Connection),
    Connections(Children<Connection>),
    Event(Event),
    Events(Children<Event>),
    Statement(NormalStatement),
    Statements(Children<NormalStatement>),
    Arms(Alternatives),
    Labels(Children<CaseArm>),
    Member(NormalMember),
    Members(Children<NormalMember>),
    Parameter(Parameter),
    Parameters(Children<Parameter>),
    Port(Port),
    Ports(Children<Port>),
    Item(NormalItem),
    Items(Children<NormalItem>),
}

/// The parts that were made, the first on top.
pub(crate) type Values<'t> = Stack<Value<'t>>;
