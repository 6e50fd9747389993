//! All elements of an array joined by `|`.

ghost use Rattle.std.specs.Prelude.{◌≡◌, All, map};
ghost use Rattle.std.specs.List.{flat_map};
ghost use Rattle.vast_core.specs.Bench.{OwnsExpr, OwnsIndexable, tree_of};
ghost use Rattle.vast_core.specs.FileTree.{tree};
ghost use Rattle.xlsynth_vast.specs.Keeps.{Keeps};
ghost use Rattle.xlsynth_vast.specs.Expressions.{subject_of};
ghost use Rattle.xlsynth_vast.specs.Reductions.{MakesTree};
ghost use Rattle.xlsynth_vast.specs.Internal.Reductions.{MakesTrees, AddsTrees};
ghost use Rattle.xlsynth_vast.specs.ArrayReduction.{slots, elements, array_reduction};

use crate::file::VastFile;
use crate::helpers::array_checks::checked_count;
use crate::helpers::records_are_sound;
use crate::helpers::reductions::bitwise_reduced;
use std::alloc::AllocError;
use vast_core::{Expr, IndexableExpr};
use vast_literal::VastFault;

/// Adds to a list what an array of this dimension holds, in order.
fn push_slots(
    array: Expr,
    dimension: i64,
    made: &mut Vec<Expr>,
    file: &mut VastFile,
) -> Result<(), AllocError>
    requires array { OwnsExpr file.old array }
    requires made { All (OwnsExpr file.old) made.old.items }
    ensures { AddsTrees file.old file.new result made.old.items made.new.items
        (slots dimension (tree_of file.old array)) }
{
    let array = file.make_indexable_expression(&array);
    for index in 0..dimension {
        let slot = file.make_index(&array, index)?;
        made.push(slot.to_expr())?;
    }
    Ok(())
}

/// Adds to a list what arrays of this dimension hold, in order.
#[tactic(auto, using(crate::proofs::Reduced::growing))]
fn push_all_slots(
    arrays: &[Expr],
    dimension: i64,
    made: &mut Vec<Expr>,
    file: &mut VastFile,
) -> Result<(), AllocError>
    requires arrays { All (OwnsExpr file.old) arrays.now }
    requires made { All (OwnsExpr file.old) made.old.items }
    ensures { AddsTrees file.old file.new result made.old.items made.new.items
        (flat_map (slots dimension) (map (tree_of file.old) arrays.now)) }
{
    for array in arrays {
        push_slots(*array, dimension, made, file)?;
    }
    Ok(())
}

/// All elements of an array of these dimensions.
#[tactic(auto, using(crate::proofs::Reduced::growing))]
fn elements_within(
    array: Expr,
    dimensions: &[i64],
    file: &mut VastFile,
) -> Result<Vec<Expr>, AllocError>
    requires { OwnsExpr file.old array }
    ensures { MakesTrees file.old file.new result
        (elements dimensions.now (tree_of file.old array)) }
{
    let alloc = file.allocator();
    let mut arrays = Vec::new(alloc);
    arrays.push(array)?;
    for dimension in dimensions {
        let mut made = Vec::new(alloc);
        push_all_slots(&arrays, *dimension, &mut made, file)?;
        arrays = made;
    }
    Ok(arrays)
}

/// The same, where they are known to be `count`: the memory of their list is asked for before any is made.
#[tactic(auto, using(crate::proofs::Reduced::growing))]
fn counted_elements(
    array: Expr,
    dimensions: &[i64],
    count: usize,
    file: &mut VastFile,
) -> Result<Vec<Expr>, AllocError>
    requires { OwnsExpr file.old array }
    ensures { MakesTrees file.old file.new result
        (elements dimensions.now (tree_of file.old array)) }
{
    let mut made = Vec::with_capacity(file.allocator(), count)?;
    let Some((last, outer)) = dimensions.split_last() else {
        made.push(array)?;
        return Ok(made);
    };
    let arrays = elements_within(array, outer, file)?;
    push_all_slots(&arrays, *last, &mut made, file)?;
    Ok(made)
}

/// The joined elements, where the dimensions pass their checks.
fn array_reduced(
    value: &IndexableExpr,
    dimensions: &[i64],
    file: &mut VastFile,
) -> Result<Expr, VastFault>
    requires { OwnsIndexable file.old value.now }
    ensures { MakesTree file.old file.new result
        (array_reduction dimensions.now (subject_of file.old value.now)) }
{
    let array = value.to_expr();
    let count = checked_count(&file.ast, array, dimensions)?;
    let elements = counted_elements(array, dimensions, count, file)?;
    bitwise_reduced(&elements, file)
}

/// All elements of a packed array of these dimensions joined by `|`, those of its first slot first, as
/// `a[0][0] | a[0][1] | a[1][0] | a[1][1]`. The file's tree is as it was.
///
/// # Errors
/// `Refused`, and then the file is unchanged, by the first of these: `packed-array reduction requires at least one
/// dimension`; `packed-array dimensions must be greater than zero`; `packed-array dimensions do not match expression
/// type: expected [2, 3], got [2, 4]`, where the array is a name or a cast with its type, or an element of one;
/// `packed-array element count exceeds usize`, for a product of 2^64 or more. `Memory` as
/// [`logical_or_reduce`](crate::helpers::logical_or_reduce).
#[tactic(auto, using(crate::proofs::UnseenNodes::unseen, crate::proofs::KeptLists::kept))]
pub fn bitwise_or_reduce_array_elements(
    value: &IndexableExpr,
    dimensions: &[i64],
    file: &mut VastFile,
) -> Result<Expr, VastFault>
    requires { OwnsIndexable file.old value.now }
    ensures made { MakesTree file.old file.new result
        (array_reduction dimensions.now (subject_of file.old value.now)) }
    ensures kept { Keeps file.old file.new }
    ensures unseen { tree file.new ≡ tree file.old }
{
    records_are_sound(file);
    array_reduced(value, dimensions, file)
}
