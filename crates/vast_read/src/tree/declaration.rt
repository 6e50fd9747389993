//! Declarations.

ghost use Rattle.std.specs.Prelude.{◌≡◌, IfOk};
ghost use Rattle.vast_read.specs.DeclarationView.{groups_view, declaration_view};
ghost use Rattle.vast_rows.specs.Built.{declared};

use crate::children::Children;
use crate::tree::expression::NormalExpr;
use std::alloc::{AllocError, Global};
use vast_names::Word;

/// What stands between brackets in a declaration: an expression, or a range from one to another.
#[derive(PartialEq, Drop)]
pub struct Group {
    /// The expression, or the high end.
    pub first: Box<NormalExpr>,
    /// The low end, where it is a range.
    pub second: Option<Box<NormalExpr>>,
}

/// The type of a declaration and its sign, of which one at least is written.
#[derive(PartialEq, Drop)]
pub struct DeclaredType {
    /// The package of the type, written before `::`.
    pub package: Option<Word>,
    /// The name of a type that is declared elsewhere.
    pub type_name: Option<Word>,
    /// `signed` or `unsigned`.
    pub sign: Option<Word>,
}

/// A declaration: its written parts, in their order.
#[derive(PartialEq, Drop)]
pub struct NormalDeclaration {
    /// `wire`, `reg`, `logic`, `integer`, `int` or `genvar`.
    pub kind: Option<Word>,
    /// Its type and its sign, where it has either: most have none, and take no room for them.
    pub typed: Option<Box<DeclaredType>>,
    /// The packed dimensions, before the name.
    pub groups: Children<Group>,
    /// What is declared.
    pub name: Word,
    /// The unpacked dimensions, after the name.
    pub after: Children<Group>,
}

impl NormalDeclaration {
    /// A declaration without a kind, a type and a sign.
    pub(crate) fn plain(
        alloc: Global,
        groups: Children<Group>,
        name: &str,
        after: Children<Group>,
    ) -> Result<NormalDeclaration, AllocError>
        ensures { IfOk result (λ d. declaration_view d
            ≡ declared (groups_view groups) name.now (groups_view after)) }
    {
        let name = Word::new(alloc, name)?;
        Ok(NormalDeclaration {
            kind: None,
            typed: None,
            groups,
            name,
            after,
        })
    }
}
