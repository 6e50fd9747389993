//! Types and declarations. Arrays of arrays are walked to what they are made of.

ghost use Rattle.std.specs.Prelude.{◌≡◌, ◌+◌, ◌≤◌, ◌&&◌, ◌||◌, All, OnOk};
ghost use Rattle.vast_literal.specs.Plain.{are_plain, is_plain, is_plain_type};
ghost use Rattle.vast_literal.specs.PlainFile.{is_plain_declaration, is_plain_variable, is_worded};
ghost use Rattle.vast_literal.specs.Shape.{base_of, is_external};
ghost use Rattle.vast_core.specs.Bench.{OwnsExpr, OwnsType, OwnsDimension, trees_of, type_of, size_of};
ghost use Rattle.vast_core.specs.Internal.BitCount.{sizes_of};
ghost use Rattle.vast_core.specs.FileTree.{declared};
ghost use Rattle.vast_core.specs.View.{bench};
ghost use Rattle.vast_plain.specs.Internal.Values.{Answers, Begins, expr_weight, exprs_weight, type_weight};

use crate::expression::{are_plain_values, wait};
use crate::names::is_plain_name;
use std::alloc::AllocError;
use vast_core::{Ast, DataKind, Dimension, Expr, TypeNode, VastDataType};

/// Lets a dimension wait. A number is always plain.
#[tactic(auto, using(crate::proofs::Values::heads))]
fn wait_dimension(
    ast: &Ast,
    dimension: Dimension,
    waiting: &mut Vec<Expr>,
) -> Result<(), AllocError>
    requires dimension { OwnsDimension (bench ast.now) dimension }
    requires owned { All (OwnsExpr (bench ast.now)) waiting.old.items }
    ensures plain { OnOk result
        (are_plain (trees_of (bench ast.now) waiting.new.items)
        ≡ (is_plain (size_of (bench ast.now) dimension)
        && are_plain (trees_of (bench ast.now) waiting.old.items))) }
    ensures weight { OnOk result
        (exprs_weight (trees_of (bench ast.now) waiting.new.items)
        ≤ exprs_weight (trees_of (bench ast.now) waiting.old.items)
        + expr_weight (size_of (bench ast.now) dimension)) }
    ensures owned { OnOk result (All (OwnsExpr (bench ast.now)) waiting.new.items) }
{
    match dimension {
        Dimension::Count(_) => Ok(()),
        Dimension::Size(size) => {
            waiting.push(size)?;
            Ok(())
        }
    }
}

/// Lets dimensions wait.
#[tactic(auto, using(crate::proofs::Values::dimensions))]
fn wait_dimensions(
    ast: &Ast,
    dimensions: &[Dimension],
    waiting: &mut Vec<Expr>,
) -> Result<(), AllocError>
    requires dimensions { All (OwnsDimension (bench ast.now)) dimensions.now }
    requires owned { All (OwnsExpr (bench ast.now)) waiting.old.items }
    ensures plain { OnOk result
        (are_plain (trees_of (bench ast.now) waiting.new.items)
        ≡ (are_plain (sizes_of (bench ast.now) dimensions.now)
        && are_plain (trees_of (bench ast.now) waiting.old.items))) }
    ensures weight { OnOk result
        (exprs_weight (trees_of (bench ast.now) waiting.new.items)
        ≤ exprs_weight (trees_of (bench ast.now) waiting.old.items)
        + exprs_weight (sizes_of (bench ast.now) dimensions.now)) }
    ensures owned { OnOk result (All (OwnsExpr (bench ast.now)) waiting.new.items) }
{
    for dimension in dimensions {
        wait_dimension(ast, *dimension, waiting)?;
    }
    Ok(())
}

/// Looks at what a type is made of, and lets its width and dimensions wait; `false` where a name of it isn't plain.
#[tactic(auto, using(crate::proofs::Values::heads))]
pub(crate) fn begin_type(
    ast: &Ast,
    t: VastDataType,
    waiting: &mut Vec<Expr>,
) -> Result<bool, AllocError>
    requires data_type { OwnsType (bench ast.now) t }
    requires owned { All (OwnsExpr (bench ast.now)) waiting.old.items }
    ensures { Begins (bench ast.now) waiting.old.items waiting.new.items
        (is_plain_type (type_of (bench ast.now) t))
        (type_weight (type_of (bench ast.now) t) + 1) result }
{
    let mut inner = t;
    loop {
        match ast.data_type(inner) {
            TypeNode::Packed(element, dimensions) => {
                wait_dimensions(ast, dimensions, waiting)?;
                inner = *element;
            }
            TypeNode::Unpacked(element, dimensions) => {
                wait_dimensions(ast, dimensions, waiting)?;
                inner = *element;
            }
            TypeNode::Vector(width, _, _) => return wait(ast, &[*width], waiting),
            TypeNode::External(name) => return Ok(is_plain_name(name)),
            TypeNode::Package(package) => {
                return Ok(is_plain_name(&package.package_name) && is_plain_name(&package.name));
            }
            _ => return Ok(true),
        }
    }
}

/// Whether each name that the type prints is plain, and no edge stands in its width and dimensions.
#[tactic(auto, using(crate::proofs::Values::wholes))]
fn is_plain_type(ast: &Ast, t: VastDataType) -> Result<bool, AllocError>
    requires { OwnsType (bench ast.now) t }
    ensures { Answers (is_plain_type (type_of (bench ast.now) t)) result }
{
    let mut waiting = Vec::new(ast.allocator());
    Ok(begin_type(ast, t, &mut waiting)? && are_plain_values(ast, waiting)?)
}

/// Whether a declaration's name and type are plain.
pub(crate) fn is_plain_declaration(
    ast: &Ast,
    t: VastDataType,
    name: &str,
) -> Result<bool, AllocError>
    requires { OwnsType (bench ast.now) t }
    ensures { Answers (is_plain_declaration (type_of (bench ast.now) t) name.now) result }
{
    Ok(is_plain_name(name) && is_plain_type(ast, t)?)
}

/// Whether the kind is written as a word.
fn is_worded(kind: DataKind) -> bool
    ensures { result ≡ is_worded kind }
{
    match kind {
        DataKind::Reg => true,
        DataKind::Wire => true,
        DataKind::Logic => true,
        DataKind::Integer => true,
        DataKind::Int => true,
        DataKind::User => false,
        DataKind::UntypedEnum => false,
        DataKind::Genvar => true,
    }
}

/// Whether a word stands before what is declared, that of a kind or the name of a type.
fn has_first_word(ast: &Ast, kind: DataKind, t: VastDataType) -> bool
    requires { OwnsType (bench ast.now) t }
    ensures { result ≡ (is_worded kind || is_external (base_of (type_of (bench ast.now) t))) }
{
    is_worded(kind) || ast.is_external(t)
}

/// Whether a word stands before what a module declares, and its name and type are plain.
pub(crate) fn is_plain_variable(
    ast: &Ast,
    kind: DataKind,
    t: VastDataType,
    name: &str,
) -> Result<bool, AllocError>
    requires { OwnsType (bench ast.now) t }
    ensures { Answers (is_plain_variable (declared (bench ast.now) kind name.now t)) result }
{
    Ok(has_first_word(ast, kind, t) && is_plain_declaration(ast, t, name)?)
}
