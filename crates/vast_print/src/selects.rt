//! Selects: of bits, and of members.

ghost use Rattle.vast_literal.specs.Tree.{IndexTree, SliceTree, PartSelectTree, MemberOfTree};
ghost use Rattle.vast_core.specs.Bench.{OwnsExpr, tree_of};
ghost use Rattle.vast_core.specs.View.{bench};
ghost use Rattle.vast_print.specs.Internal.Pieces.{PiecesOwned, BeginsExpr};

use crate::levels::{is_scalar_name, is_zero, select_wraps};
use crate::pieces::{Piece, push_number, push_part, push_plain, push_subject};
use crate::refusal::{PrintFault, Refusal};
use crate::writer::Writer;
use vast_core::{Ast, Expr};

/// A select of a named scalar by a literal of value zero is the name alone.
#[tactic(auto, using(crate::proofs::PieceLaws::indexes), unfolding(crate::specs::Text::expr_text, crate::specs::Text::elided))]
pub(crate) fn begin_index(
    ast: &Ast,
    subject: Expr,
    index: Expr,
    out: &mut Writer,
    work: &mut Vec<Piece<'_>>,
) -> Result<(), PrintFault>
    requires subject { OwnsExpr (bench ast.now) subject }
    requires index { OwnsExpr (bench ast.now) index }
    requires owned { PiecesOwned (bench ast.now) work.old.items }
    ensures { BeginsExpr (bench ast.now) out.old out.new work.old.items work.new.items result
        (IndexTree (tree_of (bench ast.now) subject) (tree_of (bench ast.now) index)) }
{
    if is_scalar_name(ast, subject) {
        if !is_zero(ast, index) {
            return Err(PrintFault::Refused(Refusal::ScalarIndex));
        }
        push_part(ast, subject, false, work)?;
        return Ok(());
    }
    push_plain(ast, "]", work)?;
    push_part(ast, index, false, work)?;
    push_subject(ast, subject, work)?;
    Ok(())
}

/// A slice of a named scalar at `[0:0]` is the name alone.
#[tactic(auto, using(crate::proofs::PieceLaws::slices))]
pub(crate) fn begin_slice(
    ast: &Ast,
    subject: Expr,
    high: Expr,
    low: Expr,
    out: &mut Writer,
    work: &mut Vec<Piece<'_>>,
) -> Result<(), PrintFault>
    requires subject { OwnsExpr (bench ast.now) subject }
    requires high { OwnsExpr (bench ast.now) high }
    requires low { OwnsExpr (bench ast.now) low }
    requires owned { PiecesOwned (bench ast.now) work.old.items }
    ensures { BeginsExpr (bench ast.now) out.old out.new work.old.items work.new.items result
        (SliceTree (tree_of (bench ast.now) subject) (tree_of (bench ast.now) high)
        (tree_of (bench ast.now) low)) }
{
    if is_scalar_name(ast, subject) {
        if !(is_zero(ast, high) && is_zero(ast, low)) {
            return Err(PrintFault::Refused(Refusal::ScalarSlice));
        }
        push_part(ast, subject, false, work)?;
        return Ok(());
    }
    push_plain(ast, "]", work)?;
    push_part(ast, low, false, work)?;
    push_plain(ast, ":", work)?;
    push_part(ast, high, false, work)?;
    push_subject(ast, subject, work)?;
    Ok(())
}

#[tactic(auto, using(crate::proofs::PieceLaws::part_selects))]
pub(crate) fn begin_part_select(
    ast: &Ast,
    subject: Expr,
    start: Expr,
    width: i64,
    out: &mut Writer,
    work: &mut Vec<Piece<'_>>,
) -> Result<(), PrintFault>
    requires subject { OwnsExpr (bench ast.now) subject }
    requires start { OwnsExpr (bench ast.now) start }
    requires owned { PiecesOwned (bench ast.now) work.old.items }
    ensures { BeginsExpr (bench ast.now) out.old out.new work.old.items work.new.items result
        (PartSelectTree (tree_of (bench ast.now) subject) (tree_of (bench ast.now) start) width) }
{
    push_plain(ast, "]", work)?;
    push_number(ast, width, work)?;
    push_plain(ast, " +: ", work)?;
    push_part(ast, start, false, work)?;
    push_subject(ast, subject, work)?;
    Ok(())
}

#[tactic(auto, using(crate::proofs::PieceLaws::member_selects))]
pub(crate) fn begin_member<'a>(
    ast: &Ast,
    subject: Expr,
    name: &'a str,
    out: &mut Writer,
    work: &mut Vec<Piece<'a>>,
) -> Result<(), PrintFault>
    requires subject { OwnsExpr (bench ast.now) subject }
    requires owned { PiecesOwned (bench ast.now) work.old.items }
    ensures { BeginsExpr (bench ast.now) out.old out.new work.old.items work.new.items result
        (MemberOfTree (tree_of (bench ast.now) subject) name.now) }
{
    push_plain(ast, name, work)?;
    push_plain(ast, ".", work)?;
    push_part(ast, subject, select_wraps(ast, subject), work)?;
    Ok(())
}
