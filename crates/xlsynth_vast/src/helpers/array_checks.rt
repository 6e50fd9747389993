//! The checks of an array that is to be reduced.

ghost use Rattle.std.specs.Prelude.{◌≡◌, ◌^◌, ◌≤ℤ◌, ◌++◌, pos, All, OnOk, IfOk, IfNone, IfSome, IsTrue, None, string_bytes, drop, option_map};
ghost use Rattle.std.specs.List.{list_all};
ghost use Rattle.std.specs.Int.{is_positive};
ghost use Rattle.vast_core.specs.BitCount.{product, size_values};
ghost use Rattle.vast_core.specs.Bench.{OwnsExpr, OwnsType, OwnsDimension, tree_of, type_of};
ghost use Rattle.vast_core.specs.Internal.BitCount.{sizes_of};
ghost use Rattle.vast_core.specs.View.{bench};
ghost use Rattle.xlsynth_vast.specs.Internal.Reductions.{ChecksBy};
ghost use Rattle.xlsynth_vast.specs.ArrayReduction.{packed_dimensions, type_dimensions, known_dimensions, mismatch, any_dimension, each_positive, as_known, countable, reducible};

use crate::refusals::refusal;
use std::alloc::{AllocError, Global};
use vast_core::{Ast, Dimension, Expr, ExprNode, TypeNode, VastDataType};
use vast_literal::VastFault;

fn check_any(alloc: Global, dimensions: &[i64]) -> Result<(), VastFault>
    ensures { ChecksBy (any_dimension dimensions.now) result }
{
    if dimensions.is_empty() {
        let words = "packed-array reduction requires at least one dimension";
        return Err(refusal(String::from_str(alloc, words)));
    }
    Ok(())
}

fn are_positive(dimensions: &[i64]) -> bool
    ensures { result ≡ list_all is_positive dimensions.now }
{
    dimensions.iter().all(|dimension| *dimension > 0)
}

fn check_positive(alloc: Global, dimensions: &[i64]) -> Result<(), VastFault>
    ensures { ChecksBy (each_positive dimensions.now) result }
{
    if !are_positive(dimensions) {
        let words = "packed-array dimensions must be greater than zero";
        return Err(refusal(String::from_str(alloc, words)));
    }
    Ok(())
}

/// The dimensions of a type's packed arrays, from the outermost; one that has no value counts as 1.
fn packed_dimensions(ast: &Ast, data_type: VastDataType) -> Result<Vec<i64>, AllocError>
    requires { OwnsType (bench ast.now) data_type }
    ensures { IfOk result
        (λ made. made.items ≡ packed_dimensions (type_of (bench ast.now) data_type)) }
{
    let mut made = Vec::new(ast.allocator());
    let mut array = data_type;
    loop {
        match ast.data_type(array) {
            TypeNode::Packed(element, dimensions) => {
                push_values(ast, dimensions, &mut made)?;
                array = *element;
            }
            _ => return Ok(made),
        }
    }
}

/// The dimensions after those that were made, one that has no value as 1.
fn push_values(ast: &Ast, dimensions: &[Dimension], made: &mut Vec<i64>) -> Result<(), AllocError>
    requires { All (OwnsDimension (bench ast.now)) dimensions.now }
    ensures { OnOk result (made.new.items
        ≡ made.old.items ++ size_values (sizes_of (bench ast.now) dimensions.now)) }
{
    for dimension in dimensions {
        made.push(ast.value_or_one(*dimension))?;
    }
    Ok(())
}

/// The type of the name or the cast under all indexes of an expression, with the number of the indexes; `None` where
/// the dimensions aren't known.
fn known_type(ast: &Ast, e: Expr) -> Option<(VastDataType, usize)>
    requires { OwnsExpr (bench ast.now) e }
    ensures owned { IfSome result (λ known. OwnsType (bench ast.now) known.0) }
    ensures known { IfSome result (λ known. known_dimensions (tree_of (bench ast.now) e)
        ≡ option_map (drop known.1) (type_dimensions (type_of (bench ast.now) known.0))) }
    ensures unknown { IfNone result (known_dimensions (tree_of (bench ast.now) e) ≡ None) }
{
    let mut named = e;
    let mut indexes = 0;
    loop {
        match ast.expr(named) {
            ExprNode::Index(subject, _) => {
                named = *subject;
                indexes += 1;
            }
            ExprNode::Name(_, Some(data_type)) => return Some((*data_type, indexes)),
            ExprNode::TypeCast(data_type, _) => return Some((*data_type, indexes)),
            ExprNode::Name(_, None) => return None,
            ExprNode::Literal(_, _) => return None,
            ExprNode::StringText(_) => return None,
            ExprNode::Unary(_, _) => return None,
            ExprNode::Binary(_, _, _) => return None,
            ExprNode::Ternary(_, _, _) => return None,
            ExprNode::Slice(_, _, _) => return None,
            ExprNode::PartSelect(_, _, _) => return None,
            ExprNode::MemberOf(_, _) => return None,
            ExprNode::Concat(_, _) => return None,
            ExprNode::Pattern(_) => return None,
            ExprNode::WidthCast(_, _) => return None,
            ExprNode::PosEdge(_) => return None,
            ExprNode::NegEdge(_) => return None,
            ExprNode::Macro(_) => return None,
            ExprNode::MacroCall(_, _) => return None,
            ExprNode::Call(_, _) => return None,
            ExprNode::DataType(_) => return None,
        }
    }
}

fn mismatch(alloc: Global, known: &[i64], given: &[i64]) -> Result<String, AllocError>
    ensures { IfOk result (λ text. string_bytes text ≡ mismatch known.now given.now) }
{
    format!(in alloc;
        "packed-array dimensions do not match expression type: expected {known:?}, got {given:?}"
    )
}

fn check_known(ast: &Ast, array: Expr, dimensions: &[i64]) -> Result<(), VastFault>
    requires { OwnsExpr (bench ast.now) array }
    ensures { ChecksBy (as_known (known_dimensions (tree_of (bench ast.now) array)) dimensions.now)
        result }
{
    let Some((data_type, indexes)) = known_type(ast, array) else {
        return Ok(());
    };
    if let Some(_) = ast.unknown_dimension(data_type) {
        return Ok(());
    }
    let declared = packed_dimensions(ast, data_type)?;
    let known = &declared[indexes.min(declared.len())..];
    if known != dimensions {
        return Err(refusal(mismatch(ast.allocator(), known, dimensions)));
    }
    Ok(())
}

/// The product of the dimensions, where a `usize` can be it.
fn product(dimensions: &[i64]) -> Option<usize>
    requires { IsTrue (list_all is_positive dimensions.now) }
    ensures some { IfSome result (λ n. product dimensions.now ≡ pos n) }
    ensures none { IfNone result (pos (2 ^ 64) ≤ℤ product dimensions.now) }
{
    let mut total: usize = 1;
    for dimension in dimensions {
        total = total.checked_mul(*dimension as usize)?;
    }
    Some(total)
}

fn element_count(alloc: Global, dimensions: &[i64]) -> Result<usize, VastFault>
    requires { IsTrue (list_all is_positive dimensions.now) }
    ensures rule { ChecksBy (countable dimensions.now) result }
    ensures count { IfOk result (λ n. product dimensions.now ≡ pos n) }
{
    match product(dimensions) {
        Some(count) => Ok(count),
        None => {
            let words = "packed-array element count exceeds usize";
            Err(refusal(String::from_str(alloc, words)))
        }
    }
}

/// The number of an array's elements.
///
/// # Errors
/// The refusal of the first check that fails: there is a dimension, each is above 0, they are those that the array is
/// known to have, and their product is below 2^64. `Memory` where a growth was refused.
#[tactic(auto, using(crate::proofs::ArrayReduced::checks), unfolding(crate::specs::ArrayReduction::reducible))]
pub(super) fn checked_count(ast: &Ast, array: Expr, dimensions: &[i64]) -> Result<usize, VastFault>
    requires { OwnsExpr (bench ast.now) array }
    ensures rule { ChecksBy (reducible (tree_of (bench ast.now) array) dimensions.now) result }
    ensures count { IfOk result (λ n. product dimensions.now ≡ pos n) }
{
    let alloc = ast.allocator();
    check_any(alloc, dimensions)?;
    check_positive(alloc, dimensions)?;
    check_known(ast, array, dimensions)?;
    element_count(alloc, dimensions)
}
