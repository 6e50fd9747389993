//! Expressions, by a list of the pieces that are still to write.

ghost use Rattle.std.specs.Prelude.{◌+◌};
ghost use Rattle.vast_core.specs.Bench.{OwnsExpr, tree_of};
ghost use Rattle.vast_core.specs.View.{bench};
ghost use Rattle.vast_print.specs.Internal.Output.{WritesText};
ghost use Rattle.vast_print.specs.Printed.{wrapped};
ghost use Rattle.vast_print.specs.Text.{expr_text};
ghost use Rattle.vast_print.specs.Internal.Pieces.{expr_weight, piece_weight, piece_text, PieceOwned, PiecesOwned, Begins, BeginsExpr};

use crate::casts::{begin_type_cast, begin_width_cast};
use crate::lists::{begin_call, begin_concat, begin_macro_call, begin_pattern, print_macro};
use crate::operators::{begin_binary, begin_negedge, begin_posedge, begin_ternary, begin_unary};
use crate::pieces::{Piece, push_plain};
use crate::refusal::PrintFault;
use crate::selects::{begin_index, begin_member, begin_part_select, begin_slice};
use crate::writer::Writer;
use vast_core::{Ast, Expr, ExprNode};

/// Writes an expression after the last line; what stands after a line break goes on at the margin.
#[tactic(auto, using(crate::proofs::PieceLaws::wholes))]
pub(crate) fn print_expression(ast: &Ast, e: Expr, out: &mut Writer) -> Result<(), PrintFault>
    requires { OwnsExpr (bench ast.now) e }
    ensures { WritesText out.old out.new result (expr_text (tree_of (bench ast.now) e)) }
{
    match ast.expr(e) {
        // Most operands are names, and a name needs no list of pieces.
        ExprNode::Name(text, _) => {
            out.written(text.as_str())?;
            Ok(())
        }
        _ => print_wrapped(ast, e, false, out),
    }
}

/// Writes an expression, in parentheses where it needs them.
#[tactic(auto, using(crate::proofs::PieceLaws::works))]
pub(crate) fn print_wrapped(
    ast: &Ast,
    e: Expr,
    wraps: bool,
    out: &mut Writer,
) -> Result<(), PrintFault>
    requires { OwnsExpr (bench ast.now) e }
    ensures { WritesText out.old out.new result
        (wrapped wraps (expr_text (tree_of (bench ast.now) e))) }
{
    let mut work = Vec::new(ast.allocator());
    // A name or a literal leaves nothing to be listed, so it takes no memory.
    begin_part(ast, e, wraps, out, &mut work)?;
    while let Some(piece) = work.pop() {
        print_piece(ast, piece, out, &mut work)?;
    }
    Ok(())
}

/// Writes a piece, or begins it.
#[tactic(auto, using(crate::proofs::PieceLaws::pieces))]
fn print_piece<'a>(
    ast: &'a Ast,
    piece: Piece<'a>,
    out: &mut Writer,
    work: &mut Vec<Piece<'a>>,
) -> Result<(), PrintFault>
    requires piece { PieceOwned (bench ast.now) piece }
    requires owned { PiecesOwned (bench ast.now) work.old.items }
    ensures { Begins (bench ast.now) out.old out.new work.old.items work.new.items result
        (piece_text (bench ast.now) piece.entry) (piece_weight (bench ast.now) piece.entry) }
{
    match piece {
        Piece::Plain(text) => {
            out.written(text)?;
            Ok(())
        }
        Piece::Number(number) => {
            out.number(number)?;
            Ok(())
        }
        Piece::Part(e, wraps) => begin_part(ast, e, wraps, out, work),
    }
}

/// Begins an expression, in parentheses where it needs them.
#[inline(always)]
#[tactic(auto, using(crate::proofs::PieceLaws::parts))]
fn begin_part<'a>(
    ast: &'a Ast,
    e: Expr,
    wraps: bool,
    out: &mut Writer,
    work: &mut Vec<Piece<'a>>,
) -> Result<(), PrintFault>
    requires part { OwnsExpr (bench ast.now) e }
    requires owned { PiecesOwned (bench ast.now) work.old.items }
    ensures { Begins (bench ast.now) out.old out.new work.old.items work.new.items result
        (wrapped wraps (expr_text (tree_of (bench ast.now) e)))
        (expr_weight (tree_of (bench ast.now) e) + 1) }
{
    if wraps {
        out.word("(")?;
        push_plain(ast, ")", work)?;
        begin(ast, e, out, work)
    } else {
        begin(ast, e, out, work)
    }
}

/// Writes the first words of an expression, and puts what is left of it on the list.
#[tactic(auto, unfolding(crate::specs::Text::expr_text))]
fn begin<'a>(
    ast: &'a Ast,
    e: Expr,
    out: &mut Writer,
    work: &mut Vec<Piece<'a>>,
) -> Result<(), PrintFault>
    requires part { OwnsExpr (bench ast.now) e }
    requires owned { PiecesOwned (bench ast.now) work.old.items }
    ensures { BeginsExpr (bench ast.now) out.old out.new work.old.items work.new.items result
        (tree_of (bench ast.now) e) }
{
    match ast.expr(e) {
        ExprNode::Name(text, _) => Ok(out.written(text.as_str())?),
        ExprNode::Literal(text, _) => Ok(out.written(text.as_str())?),
        ExprNode::StringText(text) => Ok(out.written(text)?),
        ExprNode::Unary(operator, operand) => begin_unary(ast, *operator, *operand, out, work),
        ExprNode::Binary(operator, left, right) => begin_binary(
            ast, *operator, *left, *right, out, work,
        ),
        ExprNode::Ternary(condition, consequent, alternate) => {
            begin_ternary(ast, *condition, *consequent, *alternate, out, work)
        }
        ExprNode::Index(subject, index) => begin_index(ast, *subject, *index, out, work),
        ExprNode::Slice(subject, high, low) => begin_slice(ast, *subject, *high, *low, out, work),
        ExprNode::PartSelect(subject, start, width) => {
            begin_part_select(ast, *subject, *start, *width, out, work)
        }
        ExprNode::MemberOf(subject, name) => begin_member(ast, *subject, name.as_str(), out, work),
        ExprNode::Concat(count, parts) => begin_concat(ast, *count, parts, out, work),
        ExprNode::Pattern(parts) => begin_pattern(ast, parts, out, work),
        ExprNode::WidthCast(width, operand) => begin_width_cast(ast, *width, *operand, out, work),
        ExprNode::TypeCast(data_type, operand) => begin_type_cast(
            ast, *data_type, *operand, out, work,
        ),
        ExprNode::PosEdge(operand) => begin_posedge(ast, *operand, out, work),
        ExprNode::NegEdge(operand) => begin_negedge(ast, *operand, out, work),
        ExprNode::Macro(name) => print_macro(name, out),
        ExprNode::MacroCall(name, arguments) => begin_macro_call(ast, name, arguments, out, work),
        ExprNode::Call(name, arguments) => begin_call(ast, name, arguments, out, work),
        ExprNode::DataType(_) => unreachable!(),
    }
}
