//! Declarations: kind word, type, name.

ghost use Rattle.std.specs.Prelude.{◌≡◌};
ghost use Rattle.vast_literal.specs.Shape.{port_kind};
ghost use Rattle.vast_core.specs.Bench.{OwnsType, type_of};
ghost use Rattle.vast_core.specs.FileTree.{declared_port};
ghost use Rattle.vast_core.specs.View.{bench};
ghost use Rattle.vast_print.specs.Internal.Words.{kind_opening};
ghost use Rattle.vast_print.specs.Internal.Output.{WritesText};
ghost use Rattle.vast_print.specs.Declaration.{declaration_text};
ghost use Rattle.vast_print.specs.Layout.{port_text, direction_word};

use crate::refusal::PrintFault;
use crate::types::{print_dimensions, print_type};
use crate::writer::Writer;
use vast_core::{Ast, DataKind, ModulePortDirection, Port, VastDataType};

/// A kind's word and the space after it, where it has one.
pub(crate) fn kind_opening(kind: DataKind) -> &'static str
    ensures { result.now ≡ kind_opening kind }
{
    match kind {
        DataKind::Reg => "reg ",
        DataKind::Wire => "wire ",
        DataKind::Logic => "logic ",
        DataKind::Integer => "integer ",
        DataKind::Int => "int ",
        DataKind::User => "",
        DataKind::UntypedEnum => "",
        DataKind::Genvar => "genvar ",
    }
}

fn direction_word(direction: ModulePortDirection) -> &'static str
    ensures { result.now ≡ direction_word direction }
{
    match direction {
        ModulePortDirection::Input => "input ",
        ModulePortDirection::Output => "output ",
        ModulePortDirection::InOut => "inout ",
    }
}

/// Writes a declaration after the last line.
#[tactic(auto, using(crate::proofs::ArenaLaws::declarations))]
pub(crate) fn print_declaration(
    ast: &Ast,
    kind: DataKind,
    data_type: VastDataType,
    name: &str,
    out: &mut Writer,
) -> Result<(), PrintFault>
    requires { OwnsType (bench ast.now) data_type }
    ensures { WritesText out.old out.new result
        (declaration_text (bench ast.now).file_type kind (type_of (bench ast.now) data_type)
        name.now) }
{
    out.word(kind_opening(kind))?;
    print_type(ast, data_type, out)?;
    out.written(name)?;
    print_dimensions(ast, data_type, out)
}

/// The kind with which a port is written, and a function's input: none before an external type.
pub(crate) fn port_kind(ast: &Ast, kind: DataKind, t: VastDataType) -> DataKind
    requires { OwnsType (bench ast.now) t }
    ensures { result ≡ port_kind kind (type_of (bench ast.now) t) }
{
    if ast.is_external(t) {
        DataKind::User
    } else {
        kind
    }
}

/// Writes a port with its direction after the last line.
#[tactic(auto, using(crate::proofs::ArenaLaws::declarations))]
pub(crate) fn print_port(ast: &Ast, port: &Port, out: &mut Writer) -> Result<(), PrintFault>
    requires { OwnsType (bench ast.now) port.now.data_type }
    ensures { WritesText out.old out.new result
        (port_text (bench ast.now).file_type (declared_port (bench ast.now) port.now)) }
{
    let kind = port_kind(ast, port.kind, port.data_type);
    out.word(direction_word(port.direction))?;
    print_declaration(ast, kind, port.data_type, port.name.as_str(), out)
}
