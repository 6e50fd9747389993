//! Expressions in pieces: the first words of an expression are written, and what is left of it is put on a list, from
//! which the last piece is taken next. So nothing recurs, however deep an expression nests.

ghost use Rattle.std.specs.Prelude.{◌≡◌, ◌+◌, OnOk, All, codes};
ghost use Rattle.std.specs.Fmt.{signed_decimal};
ghost use Rattle.vast_literal.specs.Shape.{select_wraps};
ghost use Rattle.vast_core.specs.Bench.{OwnsExpr, tree_of, trees_of};
ghost use Rattle.vast_core.specs.View.{bench};
ghost use Rattle.vast_print.specs.Internal.Pieces.{expr_weight, exprs_weight, pieces_text, pieces_weight, PiecesOwned};
ghost use Rattle.vast_print.specs.Printed.{plain_text, ◌⊕◌, wrapped};
ghost use Rattle.vast_print.specs.Text.{expr_text, list_text};

use crate::levels::select_wraps;
use crate::words::comma_before;
use std::alloc::AllocError;
use vast_core::{Ast, Expr};

/// What is still to write.
#[derive(Clone, Copy, Drop)]
pub(crate) enum Piece<'a> {
    /// A text as it stands.
    Plain(&'a str),
    /// A number in decimal.
    Number(i64),
    /// An expression, in parentheses where it needs them.
    Part(Expr, bool),
}

#[tactic(auto, using(crate::proofs::PieceLaws::pushes))]
pub(crate) fn push_plain<'a>(
    ast: &Ast,
    text: &'a str,
    work: &mut Vec<Piece<'a>>,
) -> Result<(), AllocError>
    requires { PiecesOwned (bench ast.now) work.old.items }
    ensures text { OnOk result
        (pieces_text (bench ast.now) work.new.items
        ≡ plain_text text.now ⊕ pieces_text (bench ast.now) work.old.items) }
    ensures weight { OnOk result
        (pieces_weight (bench ast.now) work.new.items
        ≡ pieces_weight (bench ast.now) work.old.items + 1) }
    ensures owned { OnOk result (PiecesOwned (bench ast.now) work.new.items) }
{
    work.push(Piece::Plain(text))?;
    Ok(())
}

#[tactic(auto, using(crate::proofs::PieceLaws::pushes))]
pub(crate) fn push_number(
    ast: &Ast,
    number: i64,
    work: &mut Vec<Piece<'_>>,
) -> Result<(), AllocError>
    requires { PiecesOwned (bench ast.now) work.old.items }
    ensures text { OnOk result
        (pieces_text (bench ast.now) work.new.items
        ≡ plain_text (signed_decimal number) ⊕ pieces_text (bench ast.now) work.old.items) }
    ensures weight { OnOk result
        (pieces_weight (bench ast.now) work.new.items
        ≡ pieces_weight (bench ast.now) work.old.items + 1) }
    ensures owned { OnOk result (PiecesOwned (bench ast.now) work.new.items) }
{
    work.push(Piece::Number(number))?;
    Ok(())
}

#[tactic(auto, using(crate::proofs::PieceLaws::pushes))]
pub(crate) fn push_part(
    ast: &Ast,
    e: Expr,
    wraps: bool,
    work: &mut Vec<Piece<'_>>,
) -> Result<(), AllocError>
    requires part { OwnsExpr (bench ast.now) e }
    requires owned { PiecesOwned (bench ast.now) work.old.items }
    ensures text { OnOk result
        (pieces_text (bench ast.now) work.new.items
        ≡ wrapped wraps (expr_text (tree_of (bench ast.now) e)) ⊕ pieces_text (bench ast.now)
        work.old.items) }
    ensures weight { OnOk result
        (pieces_weight (bench ast.now) work.new.items
        ≡ pieces_weight (bench ast.now) work.old.items + expr_weight (tree_of (bench ast.now) e)
        + 1) }
    ensures owned { OnOk result (PiecesOwned (bench ast.now) work.new.items) }
{
    work.push(Piece::Part(e, wraps))?;
    Ok(())
}

/// Puts the subject of a select and the bracket after it on the list of work.
#[tactic(auto, using(crate::proofs::PieceLaws::pushes))]
pub(crate) fn push_subject(
    ast: &Ast,
    subject: Expr,
    work: &mut Vec<Piece<'_>>,
) -> Result<(), AllocError>
    requires part { OwnsExpr (bench ast.now) subject }
    requires owned { PiecesOwned (bench ast.now) work.old.items }
    ensures text { OnOk result
        (pieces_text (bench ast.now) work.new.items
        ≡ wrapped (select_wraps (tree_of (bench ast.now) subject))
        (expr_text (tree_of (bench ast.now) subject)) ⊕
        (plain_text (codes "[") ⊕ pieces_text (bench ast.now) work.old.items)) }
    ensures weight { OnOk result
        (pieces_weight (bench ast.now) work.new.items
        ≡ pieces_weight (bench ast.now) work.old.items
        + expr_weight (tree_of (bench ast.now) subject) + 2) }
    ensures owned { OnOk result (PiecesOwned (bench ast.now) work.new.items) }
{
    push_plain(ast, "[", work)?;
    push_part(ast, subject, select_wraps(ast, subject), work)
}

/// Puts the expressions of a list, with commas between, on the list of work.
#[tactic(auto, using(crate::proofs::PieceLaws::list_parts))]
pub(crate) fn push_list(
    ast: &Ast,
    parts: &[Expr],
    work: &mut Vec<Piece<'_>>,
) -> Result<(), AllocError>
    requires parts { All (OwnsExpr (bench ast.now)) parts.now }
    requires owned { PiecesOwned (bench ast.now) work.old.items }
    ensures text { OnOk result
        (pieces_text (bench ast.now) work.new.items
        ≡ list_text (trees_of (bench ast.now) parts.now) ⊕ pieces_text (bench ast.now)
        work.old.items) }
    ensures weight { OnOk result
        (pieces_weight (bench ast.now) work.new.items
        ≡ pieces_weight (bench ast.now) work.old.items
        + exprs_weight (trees_of (bench ast.now) parts.now)) }
    ensures owned { OnOk result (PiecesOwned (bench ast.now) work.new.items) }
{
    let mut i = parts.len();
    while i > 0 {
        i -= 1;
        push_part(ast, parts[i], false, work)?;
        push_plain(ast, comma_before(i), work)?;
    }
    Ok(())
}
