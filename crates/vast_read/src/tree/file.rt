//! Modules and files.

use crate::children::Children;
use crate::tree::declaration::NormalDeclaration;
use crate::tree::expression::NormalExpr;
use crate::tree::member::NormalMember;
use vast_names::Word;

/// A parameter of a module's header.
#[derive(PartialEq, Drop)]
pub struct Parameter {
    /// What is declared, without the word `parameter`.
    pub declaration: Box<NormalDeclaration>,
    /// What it stands for unless an instance gives another value.
    pub value: Box<NormalExpr>,
}

/// A port of a module's header.
#[derive(PartialEq, Drop)]
pub struct Port {
    /// `input`, `output` or `inout`.
    pub direction: Word,
    /// What is declared, without that word.
    pub declaration: Box<NormalDeclaration>,
}

/// A module (IEEE Std 1800-2017, clause 23).
#[derive(PartialEq, Drop)]
pub struct NormalModule {
    /// Its name.
    pub name: Word,
    /// The parameters of its header, first to last.
    pub parameters: Children<Parameter>,
    /// Its ports, first to last.
    pub ports: Children<Port>,
    /// Its members, first to last.
    pub members: Children<NormalMember>,
}

/// An item of a file.
#[derive(PartialEq, Drop)]
pub enum NormalItem {
    /// The path of an include, without its quotes.
    Include(Word),
    /// The package of an import (IEEE Std 1800-2017, clause 26.3).
    Import(Word),
    /// A member that stands in no module: the declaration of a type.
    Member(NormalMember),
    /// A module.
    Module(NormalModule),
}

/// A file: its items, in their order.
#[derive(PartialEq, Drop)]
pub struct NormalFile {
    /// Its includes, imports, declarations of types and modules.
    pub items: Children<NormalItem>,
}
