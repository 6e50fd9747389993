//! Casts.

ghost use Rattle.std.specs.Prelude.{false, ◌≡◌, ◌+◌, OnOk};
ghost use Rattle.vast_literal.specs.Tree.{WidthCastTree, TypeCastTree, ExternalTree, PackageTree};
ghost use Rattle.vast_core.specs.Bench.{OwnsExpr, OwnsType, tree_of, type_of};
ghost use Rattle.vast_core.specs.View.{bench};
ghost use Rattle.vast_print.specs.Internal.Pieces.{expr_weight, pieces_text, pieces_weight, PiecesOwned, BeginsExpr};
ghost use Rattle.vast_print.specs.Printed.{plain_text, ◌⊕◌, wrapped};
ghost use Rattle.vast_print.specs.Text.{expr_text};

use crate::levels::is_bare_expr;
use crate::pieces::{Piece, push_part, push_plain};
use crate::refusal::PrintFault;
use crate::words::{
    int_cast, integer_cast, number_cast_end, scalar_cast, scalar_cast_end, vector_cast,
};
use crate::writer::Writer;
use std::alloc::AllocError;
use vast_core::{Ast, Expr, TypeNode, VastDataType};

/// Puts what is cast, and what stands after it, on the list of work.
#[tactic(auto, using(crate::proofs::PieceLaws::pushes))]
fn push_operand<'a>(
    ast: &Ast,
    operand: Expr,
    closing: &'a str,
    work: &mut Vec<Piece<'a>>,
) -> Result<(), AllocError>
    requires part { OwnsExpr (bench ast.now) operand }
    requires owned { PiecesOwned (bench ast.now) work.old.items }
    ensures text { OnOk result
        (pieces_text (bench ast.now) work.new.items
        ≡ wrapped false (expr_text (tree_of (bench ast.now) operand)) ⊕
        (plain_text closing.now ⊕ pieces_text (bench ast.now) work.old.items)) }
    ensures weight { OnOk result
        (pieces_weight (bench ast.now) work.new.items
        ≡ pieces_weight (bench ast.now) work.old.items
        + expr_weight (tree_of (bench ast.now) operand) + 2) }
    ensures owned { OnOk result (PiecesOwned (bench ast.now) work.new.items) }
{
    push_plain(ast, closing, work)?;
    push_part(ast, operand, false, work)
}

#[tactic(auto, using(crate::proofs::PieceLaws::cast_parts))]
pub(crate) fn begin_width_cast(
    ast: &Ast,
    width: Expr,
    operand: Expr,
    out: &mut Writer,
    work: &mut Vec<Piece<'_>>,
) -> Result<(), PrintFault>
    requires width { OwnsExpr (bench ast.now) width }
    requires operand { OwnsExpr (bench ast.now) operand }
    requires owned { PiecesOwned (bench ast.now) work.old.items }
    ensures { BeginsExpr (bench ast.now) out.old out.new work.old.items work.new.items result
        (WidthCastTree (tree_of (bench ast.now) width) (tree_of (bench ast.now) operand)) }
{
    push_operand(ast, operand, ")", work)?;
    push_plain(ast, "'(", work)?;
    push_part(ast, width, !is_bare_expr(ast, width), work)?;
    Ok(())
}

#[tactic(auto, using(crate::proofs::PieceLaws::cast_parts))]
fn begin_external_cast(
    ast: &Ast,
    name: &str,
    operand: Expr,
    out: &mut Writer,
    work: &mut Vec<Piece<'_>>,
) -> Result<(), PrintFault>
    requires operand { OwnsExpr (bench ast.now) operand }
    requires owned { PiecesOwned (bench ast.now) work.old.items }
    ensures { BeginsExpr (bench ast.now) out.old out.new work.old.items work.new.items result
        (TypeCastTree (ExternalTree name.now) (tree_of (bench ast.now) operand)) }
{
    out.written(name)?;
    out.word("'(")?;
    push_operand(ast, operand, ")", work)?;
    Ok(())
}

#[tactic(auto, using(crate::proofs::PieceLaws::cast_parts))]
fn begin_package_cast(
    ast: &Ast,
    package_name: &str,
    name: &str,
    operand: Expr,
    out: &mut Writer,
    work: &mut Vec<Piece<'_>>,
) -> Result<(), PrintFault>
    requires operand { OwnsExpr (bench ast.now) operand }
    requires owned { PiecesOwned (bench ast.now) work.old.items }
    ensures { BeginsExpr (bench ast.now) out.old out.new work.old.items work.new.items result
        (TypeCastTree (PackageTree package_name.now name.now) (tree_of (bench ast.now) operand)) }
{
    out.written(package_name)?;
    out.word("::")?;
    out.written(name)?;
    out.word("'(")?;
    push_operand(ast, operand, ")", work)?;
    Ok(())
}

/// A cast to an array is never made: it would have no head.
#[tactic(auto, using(crate::proofs::PieceLaws::begun_casts))]
pub(crate) fn begin_type_cast(
    ast: &Ast,
    data_type: VastDataType,
    operand: Expr,
    out: &mut Writer,
    work: &mut Vec<Piece<'_>>,
) -> Result<(), PrintFault>
    requires data_type { OwnsType (bench ast.now) data_type }
    requires operand { OwnsExpr (bench ast.now) operand }
    requires owned { PiecesOwned (bench ast.now) work.old.items }
    ensures { BeginsExpr (bench ast.now) out.old out.new work.old.items work.new.items result
        (TypeCastTree (type_of (bench ast.now) data_type) (tree_of (bench ast.now) operand)) }
{
    match ast.data_type(data_type) {
        TypeNode::Scalar(signed) => {
            out.word(scalar_cast(*signed))?;
            push_operand(ast, operand, scalar_cast_end(*signed), work)?;
            Ok(())
        }
        TypeNode::Vector(width, _, signed) => {
            out.word(vector_cast(*signed))?;
            push_operand(ast, operand, "))", work)?;
            push_plain(ast, "'(", work)?;
            push_part(ast, *width, !is_bare_expr(ast, *width), work)?;
            Ok(())
        }
        TypeNode::Integer(signed) => {
            out.word(integer_cast(*signed))?;
            push_operand(ast, operand, number_cast_end(*signed), work)?;
            Ok(())
        }
        TypeNode::Int(signed) => {
            out.word(int_cast(*signed))?;
            push_operand(ast, operand, number_cast_end(*signed), work)?;
            Ok(())
        }
        TypeNode::External(name) => begin_external_cast(ast, name, operand, out, work),
        TypeNode::Package(package) => begin_package_cast(
            ast,
            &package.package_name,
            &package.name,
            operand,
            out,
            work,
        ),
        TypeNode::Packed(_, _) | TypeNode::Unpacked(_, _) => {
            begin_external_cast(ast, "", operand, out, work)
        }
    }
}
