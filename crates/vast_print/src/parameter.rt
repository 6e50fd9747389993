//! Parameters, in headers and among members.

ghost use Rattle.std.specs.Prelude.{◌≡◌, All, map};
ghost use Rattle.vast_literal.specs.Tree.{ParameterMember};
ghost use Rattle.vast_literal.specs.Shape.{base_kind, base_of};
ghost use Rattle.vast_core.specs.Bench.{OwnsExpr, OwnsType, tree_of, type_of};
ghost use Rattle.vast_core.specs.Sound.{FormSound, ParameterPortSound};
ghost use Rattle.vast_core.specs.FileTree.{form_tree, parameter_port_tree};
ghost use Rattle.vast_core.specs.View.{bench};
ghost use Rattle.vast_print.specs.Internal.Output.{WritesLines, WritesText};
ghost use Rattle.vast_print.specs.Layout.{parameter_port_text, parameter_ports_page};
ghost use Rattle.vast_print.specs.Members.{parameter_text, member_page};

use crate::declaration::print_declaration;
use crate::expression::print_expression;
use crate::refusal::PrintFault;
use crate::words;
use crate::writer::Writer;
use vast_core::{Ast, DataKind, Expr, ParameterForm, ParameterPort, TypeNode, VastDataType};

/// The kind that its type brings to a parameter of a header and to an enumeration, through arrays.
pub(crate) fn base_kind(ast: &Ast, t: VastDataType) -> DataKind
    requires { OwnsType (bench ast.now) t }
    ensures { result ≡ base_kind (base_of (type_of (bench ast.now) t)) }
{
    match ast.data_type(ast.base_type(t)) {
        TypeNode::Scalar(_) => DataKind::Logic,
        TypeNode::Vector(_, _, _) => DataKind::Logic,
        TypeNode::Integer(_) => DataKind::Integer,
        TypeNode::Int(_) => DataKind::Int,
        _ => DataKind::User,
    }
}

/// Writes a parameter of a header after the last line: a declaration where it has a type, else its name.
#[tactic(auto, using(crate::proofs::ArenaLaws::declarations))]
fn print_parameter_port(
    ast: &Ast,
    parameter: &ParameterPort,
    out: &mut Writer,
) -> Result<(), PrintFault>
    requires { ParameterPortSound (bench ast.now) parameter.now }
    ensures { WritesText out.old out.new result
        (parameter_port_text (bench ast.now).file_type
        (parameter_port_tree (bench ast.now) parameter.now)) }
{
    let name = parameter.name.as_str();
    out.word("parameter ")?;
    match parameter.data_type {
        Some(t) => print_declaration(ast, base_kind(ast, t), t, name, out)?,
        None => out.written(name)?,
    }
    out.word(" = ")?;
    print_expression(ast, parameter.value, out)
}

/// Writes the parameters of a header, each on a line one deeper.
#[tactic(auto, using(crate::proofs::ArenaLaws::entries))]
pub(crate) fn print_parameter_ports(
    ast: &Ast,
    parameters: &[ParameterPort],
    out: &mut Writer,
) -> Result<(), PrintFault>
    requires owned { All (ParameterPortSound (bench ast.now))
        parameters.now }
    ensures { WritesLines out.old out.new result
        (parameter_ports_page (bench ast.now).file_type
        (map (parameter_port_tree (bench ast.now)) parameters.now)) }
{
    for (i, parameter) in parameters.iter().enumerate() {
        out.next_inner()?;
        print_parameter_port(ast, parameter, out)?;
        out.word(words::comma_word(i + 1 < parameters.len()))?;
    }
    Ok(())
}

/// Writes what a parameter declares after the last line.
#[tactic(auto, using(crate::proofs::ArenaLaws::parameters))]
fn print_form(ast: &Ast, form: &ParameterForm, out: &mut Writer) -> Result<(), PrintFault>
    requires { FormSound (bench ast.now) form.now }
    ensures { WritesText out.old out.new result
        (parameter_text (bench ast.now).file_type (form_tree (bench ast.now) form.now)) }
{
    match form {
        ParameterForm::Plain(name) => out.written(name.as_str())?,
        ParameterForm::Int(name) => {
            out.word("int ")?;
            out.written(name.as_str())?;
        }
        ParameterForm::Defined(definition) => {
            let definition = ast.definition(*definition);
            let name = definition.name.as_str();
            print_declaration(ast, definition.kind, definition.data_type, name, out)?;
        }
    }
    Ok(())
}

/// Writes a parameter among members on a line of its own.
#[tactic(auto, using(crate::proofs::ArenaLaws::parameters))]
pub(crate) fn print_parameter(
    ast: &Ast,
    local: bool,
    form: &ParameterForm,
    value: Expr,
    out: &mut Writer,
) -> Result<(), PrintFault>
    requires form { FormSound (bench ast.now) form.now }
    requires value { OwnsExpr (bench ast.now) value }
    ensures { WritesLines out.old out.new result
        (member_page (bench ast.now).file_type
        (ParameterMember local (form_tree (bench ast.now) form.now)
        (tree_of (bench ast.now) value))) }
{
    out.next()?;
    out.word(words::parameter(local))?;
    print_form(ast, form, out)?;
    out.word(" = ")?;
    print_expression(ast, value, out)?;
    out.word(";")?;
    Ok(())
}
