//! Types, as they stand before and after a declared name. Arrays of arrays are walked to what they are made of.

ghost use Rattle.std.specs.Prelude.{◌≡◌, ◌-ℤ◌, pos, All};
ghost use Rattle.std.specs.Fmt.{signed_decimal};
ghost use Rattle.vast_literal.specs.Shape.{literal_value, packed_dimensions, unpacked_dimensions};
ghost use Rattle.vast_core.specs.Bench.{OwnsExpr, OwnsType, OwnsDimension, tree_of, type_of, size_of};
ghost use Rattle.vast_core.specs.Internal.BitCount.{sizes_of};
ghost use Rattle.vast_core.specs.View.{bench};
ghost use Rattle.vast_print.specs.Output.{Unstopped, word};
ghost use Rattle.vast_print.specs.Internal.Output.{Writes, WritesText};
ghost use Rattle.vast_print.specs.Printed.{plain_text, spaced};
ghost use Rattle.vast_print.specs.Declaration.{packed_text, unpacked_range, unpacked_text, type_text, highest_index_text};
ghost use Rattle.vast_print.specs.Internal.Words.{has_dimension};
ghost use Rattle.vast_print.specs.Text.{expr_text};

use crate::expression::{print_expression, print_wrapped};
use crate::levels::highest_index_wraps;
use crate::refusal::PrintFault;
use crate::words;
use crate::writer::Writer;
use vast_core::{Ast, Dimension, Expr, TypeNode, VastDataType, VastFileType};

/// The highest index of a number of elements or bits: the number minus one.
pub(crate) fn print_highest_index(value: i64, out: &mut Writer) -> Result<(), PrintFault>
    ensures { Writes out.old out.new result
        (word (Unstopped out.old.draft) (signed_decimal (value -ℤ pos 1))) }
{
    if value == i64::MIN {
        out.word("-9223372036854775809")?;
    } else {
        out.number(value - 1)?;
    }
    Ok(())
}

#[tactic(auto, using(crate::proofs::PrintLaws::ranges))]
fn print_packed_ranges(
    ast: &Ast,
    dimensions: &[Dimension],
    out: &mut Writer,
) -> Result<(), PrintFault>
    requires { All (OwnsDimension (bench ast.now)) dimensions.now }
    ensures { WritesText out.old out.new result
        (packed_text (sizes_of (bench ast.now) dimensions.now)) }
{
    for dimension in dimensions.iter() {
        out.word("[")?;
        print_last_index(ast, *dimension, out)?;
        out.word(":0]")?;
    }
    Ok(())
}

/// Whether a type has packed dimensions.
#[tactic(auto, using(crate::proofs::PrintLaws::packed))]
fn has_packed(ast: &Ast, t: VastDataType) -> bool
    requires { OwnsType (bench ast.now) t }
    ensures { result ≡ has_dimension (packed_dimensions (type_of (bench ast.now) t)) }
{
    let mut inner = t;
    loop {
        match ast.data_type(inner) {
            TypeNode::Packed(element, dimensions) => {
                if !dimensions.is_empty() {
                    return true;
                }
                inner = *element;
            }
            TypeNode::Unpacked(element, _) => inner = *element,
            _ => return false,
        }
    }
}

/// Writes all packed dimensions of a type, the outermost array's first.
#[tactic(auto, using(crate::proofs::PrintLaws::packed))]
fn print_packed(ast: &Ast, t: VastDataType, out: &mut Writer) -> Result<(), PrintFault>
    requires { OwnsType (bench ast.now) t }
    ensures { WritesText out.old out.new result
        (packed_text (packed_dimensions (type_of (bench ast.now) t))) }
{
    let mut inner = t;
    loop {
        match ast.data_type(inner) {
            TypeNode::Packed(element, dimensions) => {
                print_packed_ranges(ast, dimensions, out)?;
                inner = *element;
            }
            TypeNode::Unpacked(element, _) => inner = *element,
            _ => return Ok(()),
        }
    }
}

/// Writes all packed dimensions of a type and the space after them, where there are any.
#[tactic(auto, using(crate::proofs::PrintLaws::spaces))]
fn print_spaced_packed(ast: &Ast, t: VastDataType, out: &mut Writer) -> Result<(), PrintFault>
    requires { OwnsType (bench ast.now) t }
    ensures { WritesText out.old out.new result
        (spaced (packed_text (packed_dimensions (type_of (bench ast.now) t)))) }
{
    if has_packed(ast, t) {
        print_packed(ast, t, out)?;
        out.word(" ")?;
    }
    Ok(())
}

/// Writes a name and the space after it, where it isn't empty.
#[tactic(auto, using(crate::proofs::PrintLaws::spaces))]
fn print_spaced_name(name: &str, out: &mut Writer) -> Result<(), PrintFault>
    ensures { WritesText out.old out.new result (spaced (plain_text name.now)) }
{
    if !name.is_empty() {
        out.written(name)?;
        out.word(" ")?;
    }
    Ok(())
}

/// Writes a vector's highest index: computed where the width has a value, else the width less one.
#[tactic(auto, using(crate::proofs::PrintLaws::highest_indices))]
fn print_highest_bit(
    ast: &Ast,
    width: Expr,
    value: Option<i64>,
    out: &mut Writer,
) -> Result<(), PrintFault>
    requires { OwnsExpr (bench ast.now) width }
    ensures { WritesText out.old out.new result
        (highest_index_text (tree_of (bench ast.now) width) value) }
{
    match value {
        Some(value) => print_highest_index(value, out),
        None => {
            print_wrapped(ast, width, highest_index_wraps(ast, width), out)?;
            out.word(" - 1")?;
            Ok(())
        }
    }
}

/// Writes the highest index of a dimension, as of a vector.
#[tactic(auto, using(crate::proofs::PrintLaws::highest_indices))]
fn print_last_index(ast: &Ast, dimension: Dimension, out: &mut Writer) -> Result<(), PrintFault>
    requires { OwnsDimension (bench ast.now) dimension }
    ensures { WritesText out.old out.new result
        (highest_index_text (size_of (bench ast.now) dimension)
        (literal_value (size_of (bench ast.now) dimension))) }
{
    match dimension {
        Dimension::Count(count) => print_highest_index(count, out),
        Dimension::Size(size) => print_highest_bit(ast, size, ast.expr(size).literal_value(), out),
    }
}

/// Writes how many elements a dimension has.
#[tactic(auto, using(crate::proofs::PrintLaws::sizes))]
fn print_size(ast: &Ast, dimension: Dimension, out: &mut Writer) -> Result<(), PrintFault>
    requires { OwnsDimension (bench ast.now) dimension }
    ensures { WritesText out.old out.new result (expr_text (size_of (bench ast.now) dimension)) }
{
    match dimension {
        Dimension::Count(count) => {
            out.number(count)?;
            Ok(())
        }
        Dimension::Size(size) => print_expression(ast, size, out),
    }
}

/// Writes a type, and the space after it where it isn't empty.
#[tactic(auto, using(crate::proofs::PrintLaws::types))]
pub(crate) fn print_type(ast: &Ast, t: VastDataType, out: &mut Writer) -> Result<(), PrintFault>
    requires { OwnsType (bench ast.now) t }
    ensures { WritesText out.old out.new result (spaced (type_text (type_of (bench ast.now) t))) }
{
    match ast.data_type(ast.base_type(t)) {
        TypeNode::Scalar(signed) => {
            out.word(words::signed(*signed))?;
            print_spaced_packed(ast, t, out)
        }
        TypeNode::Vector(width, value, signed) => {
            out.word(words::signed(*signed))?;
            print_packed(ast, t, out)?;
            out.word("[")?;
            print_highest_bit(ast, *width, *value, out)?;
            out.word(":0] ")?;
            Ok(())
        }
        TypeNode::Integer(signed) => {
            out.word(words::unsigned(*signed))?;
            print_spaced_packed(ast, t, out)
        }
        TypeNode::Int(signed) => {
            out.word(words::unsigned(*signed))?;
            print_spaced_packed(ast, t, out)
        }
        TypeNode::External(name) => {
            print_spaced_name(name, out)?;
            print_spaced_packed(ast, t, out)
        }
        TypeNode::Package(package) => {
            out.written(&package.package_name)?;
            out.word("::")?;
            out.written(&package.name)?;
            out.word(" ")?;
            print_spaced_packed(ast, t, out)
        }
        TypeNode::Packed(_, _) => print_spaced_packed(ast, t, out),
        TypeNode::Unpacked(_, _) => print_spaced_packed(ast, t, out),
    }
}

/// Writes a dimension after a name: a range in Verilog, its number of elements in SystemVerilog.
#[tactic(auto, using(crate::proofs::PrintLaws::range_parts))]
fn print_unpacked_range(
    ast: &Ast,
    file_type: VastFileType,
    dimension: Dimension,
    out: &mut Writer,
) -> Result<(), PrintFault>
    requires { OwnsDimension (bench ast.now) dimension }
    ensures { WritesText out.old out.new result
        (unpacked_range file_type (size_of (bench ast.now) dimension)) }
{
    match file_type {
        VastFileType::Verilog => {
            out.word("[0:")?;
            print_last_index(ast, dimension, out)?;
        }
        VastFileType::SystemVerilog => {
            out.word("[")?;
            print_size(ast, dimension, out)?;
        }
    }
    out.word("]")?;
    Ok(())
}

#[tactic(auto, using(crate::proofs::PrintLaws::ranges))]
fn print_unpacked_ranges(
    ast: &Ast,
    file_type: VastFileType,
    dimensions: &[Dimension],
    out: &mut Writer,
) -> Result<(), PrintFault>
    requires { All (OwnsDimension (bench ast.now)) dimensions.now }
    ensures { WritesText out.old out.new result
        (unpacked_text file_type (sizes_of (bench ast.now) dimensions.now)) }
{
    for dimension in dimensions.iter() {
        print_unpacked_range(ast, file_type, *dimension, out)?;
    }
    Ok(())
}

/// Writes the unpacked dimensions of a type, which stand after the name.
#[tactic(auto, using(crate::proofs::PrintLaws::unpacked))]
pub(crate) fn print_dimensions(
    ast: &Ast,
    t: VastDataType,
    out: &mut Writer,
) -> Result<(), PrintFault>
    requires { OwnsType (bench ast.now) t }
    ensures { WritesText out.old out.new result
        (unpacked_text (bench ast.now).file_type
        (unpacked_dimensions (type_of (bench ast.now) t))) }
{
    let file_type = ast.file_type();
    let mut inner = t;
    loop {
        match ast.data_type(inner) {
            TypeNode::Unpacked(element, dimensions) => {
                print_unpacked_ranges(ast, file_type, dimensions, out)?;
                inner = *element;
            }
            TypeNode::Packed(element, _) => inner = *element,
            _ => return Ok(()),
        }
    }
}
