//! Operators and their operands, and edges.

ghost use Rattle.vast_literal.specs.Tree.{UnaryTree, BinaryTree, TernaryTree, PosEdgeTree, NegEdgeTree};
ghost use Rattle.vast_core.specs.Bench.{OwnsExpr, tree_of};
ghost use Rattle.vast_core.specs.View.{bench};
ghost use Rattle.vast_print.specs.Internal.Pieces.{PiecesOwned, BeginsExpr};

use crate::levels::{
    binary_operator_text, left_wraps, right_wraps, ternary_wraps, unary_operator_text, unary_wraps,
};
use crate::pieces::{Piece, push_part, push_plain};
use crate::refusal::PrintFault;
use crate::writer::Writer;
use vast_core::{Ast, BinaryOperator, Expr, UnaryOperator};

#[tactic(auto, using(crate::proofs::PieceLaws::begins), unfolding(crate::specs::Text::expr_text))]
pub(crate) fn begin_unary(
    ast: &Ast,
    operator: UnaryOperator,
    operand: Expr,
    out: &mut Writer,
    work: &mut Vec<Piece<'_>>,
) -> Result<(), PrintFault>
    requires operand { OwnsExpr (bench ast.now) operand }
    requires owned { PiecesOwned (bench ast.now) work.old.items }
    ensures { BeginsExpr (bench ast.now) out.old out.new work.old.items work.new.items result
        (UnaryTree operator (tree_of (bench ast.now) operand)) }
{
    let wraps = unary_wraps(ast, operand);
    out.word(unary_operator_text(operator))?;
    push_part(ast, operand, wraps, work)?;
    Ok(())
}

#[tactic(auto, using(crate::proofs::PieceLaws::begins), unfolding(crate::specs::Text::expr_text))]
pub(crate) fn begin_binary(
    ast: &Ast,
    operator: BinaryOperator,
    left: Expr,
    right: Expr,
    out: &mut Writer,
    work: &mut Vec<Piece<'_>>,
) -> Result<(), PrintFault>
    requires left { OwnsExpr (bench ast.now) left }
    requires right { OwnsExpr (bench ast.now) right }
    requires owned { PiecesOwned (bench ast.now) work.old.items }
    ensures { BeginsExpr (bench ast.now) out.old out.new work.old.items work.new.items result
        (BinaryTree operator (tree_of (bench ast.now) left) (tree_of (bench ast.now) right)) }
{
    push_part(ast, right, right_wraps(ast, operator, right), work)?;
    push_plain(ast, binary_operator_text(operator), work)?;
    push_part(ast, left, left_wraps(ast, operator, left), work)?;
    Ok(())
}

#[tactic(auto, using(crate::proofs::PieceLaws::begins), unfolding(crate::specs::Text::expr_text))]
pub(crate) fn begin_ternary(
    ast: &Ast,
    condition: Expr,
    consequent: Expr,
    alternate: Expr,
    out: &mut Writer,
    work: &mut Vec<Piece<'_>>,
) -> Result<(), PrintFault>
    requires condition { OwnsExpr (bench ast.now) condition }
    requires consequent { OwnsExpr (bench ast.now) consequent }
    requires alternate { OwnsExpr (bench ast.now) alternate }
    requires owned { PiecesOwned (bench ast.now) work.old.items }
    ensures { BeginsExpr (bench ast.now) out.old out.new work.old.items work.new.items result
        (TernaryTree (tree_of (bench ast.now) condition) (tree_of (bench ast.now) consequent)
        (tree_of (bench ast.now) alternate)) }
{
    push_part(ast, alternate, ternary_wraps(ast, alternate), work)?;
    push_plain(ast, " : ", work)?;
    push_part(ast, consequent, ternary_wraps(ast, consequent), work)?;
    push_plain(ast, " ? ", work)?;
    push_part(ast, condition, ternary_wraps(ast, condition), work)?;
    Ok(())
}

#[tactic(auto, using(crate::proofs::PieceLaws::begins), unfolding(crate::specs::Text::expr_text))]
pub(crate) fn begin_posedge(
    ast: &Ast,
    operand: Expr,
    out: &mut Writer,
    work: &mut Vec<Piece<'_>>,
) -> Result<(), PrintFault>
    requires operand { OwnsExpr (bench ast.now) operand }
    requires owned { PiecesOwned (bench ast.now) work.old.items }
    ensures { BeginsExpr (bench ast.now) out.old out.new work.old.items work.new.items result
        (PosEdgeTree (tree_of (bench ast.now) operand)) }
{
    out.word("posedge ")?;
    push_part(ast, operand, false, work)?;
    Ok(())
}

#[tactic(auto, using(crate::proofs::PieceLaws::begins), unfolding(crate::specs::Text::expr_text))]
pub(crate) fn begin_negedge(
    ast: &Ast,
    operand: Expr,
    out: &mut Writer,
    work: &mut Vec<Piece<'_>>,
) -> Result<(), PrintFault>
    requires operand { OwnsExpr (bench ast.now) operand }
    requires owned { PiecesOwned (bench ast.now) work.old.items }
    ensures { BeginsExpr (bench ast.now) out.old out.new work.old.items work.new.items result
        (NegEdgeTree (tree_of (bench ast.now) operand)) }
{
    out.word("negedge ")?;
    push_part(ast, operand, false, work)?;
    Ok(())
}
