//! Functions.

ghost use Rattle.std.specs.Prelude.{◌≡◌, All, map, slice_get};
ghost use Rattle.vast_literal.specs.Shape.{dialect_kind, result_kind};
ghost use Rattle.vast_core.specs.Bench.{OwnsType, OwnsBlock, OwnsFunction, type_of};
ghost use Rattle.vast_core.specs.Sound.{VariableSound};
ghost use Rattle.vast_core.specs.FileTree.{families, variable_tree, function_in, block_tree};
ghost use Rattle.vast_core.specs.View.{bench};
ghost use Rattle.vast_print.specs.Internal.Output.{WritesLines, WritesText};
ghost use Rattle.vast_print.specs.Members.{result_text, input_text, inputs_text, local_page, locals_page, function_body_page, member_page};
ghost use Rattle.vast_literal.specs.Shape.{is_one_casez};

use crate::declaration::{port_kind, print_declaration};
use crate::refusal::PrintFault;
use crate::statement::{print_block, print_statements};
use crate::words;
use crate::writer::Writer;
use vast_core::{
    Ast, CaseKind, DataKind, FunctionVariable, Statement, TypeNode, VastDataType, VastFileType,
    VastFunction, VastStatementBlock,
};

fn dialect_kind(ast: &Ast) -> DataKind
    ensures { result ≡ dialect_kind (bench ast.now).file_type }
{
    match ast.file_type() {
        VastFileType::Verilog => DataKind::User,
        VastFileType::SystemVerilog => DataKind::Logic,
    }
}

/// The kind with which a function's result is written.
fn result_kind(ast: &Ast, t: VastDataType) -> DataKind
    requires { OwnsType (bench ast.now) t }
    ensures { result ≡ result_kind (bench ast.now).file_type (type_of (bench ast.now) t) }
{
    match ast.data_type(t) {
        TypeNode::Integer(_) => DataKind::Integer,
        TypeNode::Int(_) => DataKind::Int,
        _ => port_kind(ast, dialect_kind(ast), t),
    }
}

/// Writes an input after the last line.
#[tactic(auto, using(crate::proofs::ContainerLaws::functions))]
fn print_input(ast: &Ast, input: &FunctionVariable, out: &mut Writer) -> Result<(), PrintFault>
    requires { VariableSound (bench ast.now) input.now }
    ensures { WritesText out.old out.new result
        (input_text (bench ast.now).file_type (variable_tree (bench ast.now) input.now)) }
{
    let kind = port_kind(ast, input.kind, input.data_type);
    out.word("input ")?;
    print_declaration(ast, kind, input.data_type, input.name.as_str(), out)
}

/// Writes the inputs of a function after the last line.
#[tactic(auto, using(crate::proofs::ContainerLaws::separated))]
fn print_inputs(ast: &Ast, inputs: &[FunctionVariable], out: &mut Writer) -> Result<(), PrintFault>
    requires { All (VariableSound (bench ast.now)) inputs.now }
    ensures { WritesText out.old out.new result
        (inputs_text (bench ast.now).file_type (map (variable_tree (bench ast.now)) inputs.now)) }
{
    for (i, input) in inputs.iter().enumerate() {
        out.word(words::comma_before(i))?;
        print_input(ast, input, out)?;
    }
    Ok(())
}

/// Writes a local on a line of its own.
#[tactic(auto, using(crate::proofs::ContainerLaws::functions))]
fn print_local(ast: &Ast, local: &FunctionVariable, out: &mut Writer) -> Result<(), PrintFault>
    requires { VariableSound (bench ast.now) local.now }
    ensures { WritesLines out.old out.new result
        (local_page (bench ast.now).file_type (variable_tree (bench ast.now) local.now)) }
{
    out.next()?;
    print_declaration(ast, local.kind, local.data_type, local.name.as_str(), out)?;
    out.word(";")?;
    Ok(())
}

/// Writes the locals of a function below each other.
#[tactic(auto, using(crate::proofs::ContainerLaws::locals))]
fn print_locals(ast: &Ast, locals: &[FunctionVariable], out: &mut Writer) -> Result<(), PrintFault>
    requires { All (VariableSound (bench ast.now)) locals.now }
    ensures { WritesLines out.old out.new result
        (locals_page (bench ast.now).file_type (map (variable_tree (bench ast.now)) locals.now)) }
{
    for local in locals {
        print_local(ast, local, out)?;
    }
    Ok(())
}

/// Whether the block is exactly one casez.
fn is_one_casez(ast: &Ast, b: VastStatementBlock) -> bool
    requires { OwnsBlock (bench ast.now) b }
    ensures { result ≡ is_one_casez (block_tree (bench ast.now) b) }
{
    let statements = ast.block(b);
    if statements.len() != 1 {
        return false;
    }
    match &statements[0] {
        Statement::Case(c) => match ast.case(*c).kind {
            CaseKind::CaseZ => true,
            CaseKind::Case | CaseKind::CaseX => false,
        },
        _ => false,
    }
}

/// Writes the body of a function on lines of its own; one casez stands without begin and end.
#[tactic(auto, using(crate::proofs::ContainerLaws::functions))]
fn print_body(ast: &Ast, b: VastStatementBlock, out: &mut Writer) -> Result<(), PrintFault>
    requires owned { OwnsBlock (bench ast.now) b }
    ensures { WritesLines out.old out.new result
        (function_body_page (block_tree (bench ast.now) b)) }
{
    if is_one_casez(ast, b) {
        print_statements(ast, b, out)
    } else {
        out.next()?;
        print_block(ast, b, out)
    }
}

/// Writes the result and the name of a function after the last line.
fn print_result(ast: &Ast, t: VastDataType, name: &str, out: &mut Writer) -> Result<(), PrintFault>
    requires { OwnsType (bench ast.now) t }
    ensures { WritesText out.old out.new result
        (result_text (bench ast.now).file_type (type_of (bench ast.now) t) name.now) }
{
    print_declaration(ast, result_kind(ast, t), t, name, out)
}

/// Writes a function on lines of its own.
#[tactic(auto, using(crate::proofs::ContainerLaws::functions, crate::proofs::Variables::variables))]
pub(crate) fn print_function(ast: &Ast, f: VastFunction, out: &mut Writer) -> Result<(), PrintFault>
    requires owned { OwnsFunction (bench ast.now) f }
    ensures { WritesLines out.old out.new result
        (member_page (bench ast.now).file_type
        (function_in (bench ast.now) (families (bench ast.now))
        (slice_get (bench ast.now).functions f.id.index))) }
{
    let function = ast.function(f);
    out.next()?;
    out.word(words::function())?;
    print_result(ast, function.result_type, &function.name, out)?;
    out.word(" (")?;
    print_inputs(ast, &function.inputs, out)?;
    out.word(");")?;
    out.deeper()?;
    print_locals(ast, &function.locals, out)?;
    print_body(ast, function.body, out)?;
    out.shallower();
    out.next()?;
    out.word(words::endfunction())?;
    Ok(())
}
