//! What lies in the boxes of members.

use crate::children::Children;
use crate::tree::declaration::NormalDeclaration;
use crate::tree::expression::NormalExpr;
use crate::tree::member::{Connection, Event};
use crate::tree::statement::NormalStatement;
use vast_literal::AlwaysKind;
use vast_names::Word;

/// The use of a macro as a member.
#[derive(PartialEq, Drop)]
pub struct MacroUse {
    /// The name of the macro, without its backtick.
    pub name: Word,
    /// The arguments, where it has parentheses.
    pub arguments: Option<Children<NormalExpr>>,
    /// Whether a semicolon ends it.
    pub has_semicolon: bool,
}

/// A declaration of an enumeration.
#[derive(PartialEq, Drop)]
pub struct EnumType {
    /// What it is made of, and its name.
    pub declaration: Box<NormalDeclaration>,
    /// Its entries; one that has no value counts on.
    pub entries: Children<Connection>,
}

/// A declaration of a packed structure.
#[derive(PartialEq, Drop)]
pub struct StructType {
    /// Its name.
    pub name: Word,
    /// Its fields.
    pub fields: Children<NormalDeclaration>,
}

/// An instantiation.
#[derive(PartialEq, Drop)]
pub struct Instance {
    /// The module.
    pub definition: Word,
    /// What its parameters are given.
    pub parameters: Children<Connection>,
    /// The name of the instance.
    pub name: Word,
    /// What its ports are given.
    pub connections: Children<Connection>,
}

/// An always block.
#[derive(PartialEq, Drop)]
pub struct Always {
    /// Its form.
    pub kind: AlwaysKind,
    /// What it waits for, where that is listed.
    pub events: Children<Event>,
    /// Its block.
    pub body: Children<NormalStatement>,
}

/// A function.
#[derive(PartialEq, Drop)]
pub struct Function {
    /// What it returns, and its name.
    pub output: Box<NormalDeclaration>,
    /// Its inputs.
    pub inputs: Children<NormalDeclaration>,
    /// Its locals.
    pub locals: Children<NormalDeclaration>,
    /// Its block.
    pub body: Children<NormalStatement>,
}

/// What stands before the members of a loop generate construct.
#[derive(PartialEq, Drop)]
pub struct LoopRange {
    /// Its variable.
    pub variable: Word,
    /// The start.
    pub start: Box<NormalExpr>,
    /// The end that it stays below.
    pub end: Box<NormalExpr>,
    /// The label.
    pub label: Option<Word>,
}
