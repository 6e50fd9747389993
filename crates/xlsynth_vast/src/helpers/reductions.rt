//! Many expressions joined by one operator.

ghost use Rattle.std.specs.Prelude.{◌≡◌, All, Ok, map, false, true};
ghost use Rattle.vast_literal.specs.declared.operator.BinaryOperator.{BinaryOperator as BinaryOp};
ghost use Rattle.vast_literal.specs.declared.operator.BinaryOperator.TheVariants.{LogicalAnd as LogicalAndOp, LogicalOr as LogicalOrOp};
ghost use Rattle.vast_core.specs.Bench.{OwnsExpr, tree_of};
ghost use Rattle.vast_core.specs.FileTree.{tree};
ghost use Rattle.vast_core.specs.Growth.{Builds, next_expr, with_expr};
ghost use Rattle.xlsynth_vast.specs.Keeps.{Keeps};
ghost use Rattle.xlsynth_vast.specs.Expressions.{with_binary};
ghost use Rattle.xlsynth_vast.specs.Reductions.{MakesTree, bit_literal, logical_reduction, bitwise_reduction};
ghost use Rattle.xlsynth_vast.specs.Internal.Reductions.{MakesChain};

use crate::file::VastFile;
use crate::helpers::records_are_sound;
use std::alloc::AllocError;
use vast_core::{Expr, ExprNode};
use vast_literal::VastFault;
use vast_names::Word;

/// The values joined from the left by a call that makes an expression of two; `None` where there are no values.
fn join_all<F>(
    values: &[Expr],
    mut join: F,
    file: &mut VastFile,
) -> Result<Option<Expr>, AllocError>
where
    F: FnMut(&mut VastFile, &Expr, &Expr) -> Result<Expr, AllocError>,
    ghost operator: { BinaryOp }
    requires callable { (state : F) (f : _) (a : _) (b : _) → OwnsExpr f.now a.now
        → OwnsExpr f.now b.now → F.pre state f a b }
    requires joins { (state : F) (f : _) (a : _) (b : _) (r : _) (g : _) (next : F)
        → F.step state f a b r g next
        → Builds f.now g.now r next_expr (with_binary operator a.now b.now) }
    requires owned { All (OwnsExpr file.old) values.now }
    ensures { MakesChain file.old file.new result operator
        (map (tree_of file.old) values.now) }
{
    let Some((first, rest)) = values.split_first() else {
        return Ok(None);
    };
    let mut whole = *first;
    for value in rest {
        whole = join(file, &whole, value)?;
    }
    Ok(Some(whole))
}

/// The literal of one bit.
fn make_bit(set: bool, file: &mut VastFile) -> Result<Expr, AllocError>
    ensures { Builds file.old file.new result next_expr (with_expr (bit_literal set)) }
{
    if set {
        let text = Word::new(file.ast.allocator(), "1'h1")?;
        file.ast.push_expr(ExprNode::Literal(text, Some(1)))
    } else {
        let text = Word::new(file.ast.allocator(), "1'h0")?;
        file.ast.push_expr(ExprNode::Literal(text, Some(0)))
    }
}

/// The values joined by this call, inverted where that is asked; the bit that stands for none where there are none.
#[tactic(auto, using(crate::proofs::Reduced::reductions))]
fn logical_reduced<F>(
    values: &[Expr],
    join: F,
    of_none: bool,
    invert: bool,
    file: &mut VastFile,
) -> Result<Expr, VastFault>
where
    F: FnMut(&mut VastFile, &Expr, &Expr) -> Result<Expr, AllocError>,
    ghost operator: { BinaryOp }
    requires callable { (state : F) (f : _) (a : _) (b : _) → OwnsExpr f.now a.now
        → OwnsExpr f.now b.now → F.pre state f a b }
    requires joins { (state : F) (f : _) (a : _) (b : _) (r : _) (g : _) (next : F)
        → F.step state f a b r g next
        → Builds f.now g.now r next_expr (with_binary operator a.now b.now) }
    requires owned { All (OwnsExpr file.old) values.now }
    ensures { MakesTree file.old file.new result
        (Ok (logical_reduction operator of_none invert
        (map (tree_of file.old) values.now))) }
{
    match join_all(values, join, file)? {
        Some(whole) if invert => Ok(file.make_logical_not(&whole)?),
        Some(whole) => Ok(whole),
        None => Ok(make_bit(of_none != invert, file)?),
    }
}

/// The values joined by `|`, and a zero where there are none.
#[tactic(auto, using(crate::proofs::Reduced::reductions))]
pub(crate) fn bitwise_reduced(values: &[Expr], file: &mut VastFile) -> Result<Expr, VastFault>
    requires { All (OwnsExpr file.old) values.now }
    ensures { MakesTree file.old file.new result
        (Ok (bitwise_reduction (map (tree_of file.old) values.now))) }
{
    match join_all(values, VastFile::make_bitwise_or, file)? {
        Some(whole) => Ok(whole),
        None => Ok(file.make_unsized_zero_literal()?),
    }
}

/// The values joined by `||`, as `a || b || c`, and `1'h0` where there are none. To invert is one `!` over the whole,
/// and of no values `1'h1`. The file's tree is as it was.
///
/// # Errors
/// `Memory` where a growth was refused. The file then may have expressions more that nothing uses; all else of it is
/// as it was.
#[tactic(auto, using(crate::proofs::UnseenNodes::unseen, crate::proofs::KeptLists::kept))]
pub fn logical_or_reduce(
    values: &[Expr],
    invert: bool,
    file: &mut VastFile,
) -> Result<Expr, VastFault>
    requires { All (OwnsExpr file.old) values.now }
    ensures made { MakesTree file.old file.new result
        (Ok (logical_reduction LogicalOrOp false invert
        (map (tree_of file.old) values.now))) }
    ensures kept { Keeps file.old file.new }
    ensures unseen { tree file.new ≡ tree file.old }
{
    records_are_sound(file);
    logical_reduced(values, VastFile::make_logical_or, false, invert, file)
}

/// The values joined by `&&`, as `a && b && c`, and `1'h1` where there are none. To invert is one `!` over the whole,
/// and of no values `1'h0`. The file's tree is as it was.
///
/// # Errors
/// As [`logical_or_reduce`].
#[tactic(auto, using(crate::proofs::UnseenNodes::unseen, crate::proofs::KeptLists::kept))]
pub fn logical_and_reduce(
    values: &[Expr],
    invert: bool,
    file: &mut VastFile,
) -> Result<Expr, VastFault>
    requires { All (OwnsExpr file.old) values.now }
    ensures made { MakesTree file.old file.new result
        (Ok (logical_reduction LogicalAndOp true invert
        (map (tree_of file.old) values.now))) }
    ensures kept { Keeps file.old file.new }
    ensures unseen { tree file.new ≡ tree file.old }
{
    records_are_sound(file);
    logical_reduced(values, VastFile::make_logical_and, true, invert, file)
}

/// The values joined by `|`, as `a | b | c`, and `'0` where there are none. The file's tree is as it was.
///
/// # Errors
/// As [`logical_or_reduce`].
#[tactic(auto, using(crate::proofs::UnseenNodes::unseen, crate::proofs::KeptLists::kept))]
pub fn bitwise_or_reduce(values: &[Expr], file: &mut VastFile) -> Result<Expr, VastFault>
    requires { All (OwnsExpr file.old) values.now }
    ensures made { MakesTree file.old file.new result
        (Ok (bitwise_reduction (map (tree_of file.old) values.now))) }
    ensures kept { Keeps file.old file.new }
    ensures unseen { tree file.new ≡ tree file.old }
{
    records_are_sound(file);
    bitwise_reduced(values, file)
}
