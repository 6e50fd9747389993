//! Parameters, instantiations, always blocks and functions.

ghost use Rattle.std.specs.Prelude.{◌&&◌, All, map, slice_get};
ghost use Rattle.vast_literal.specs.Plain.{is_plain_name, is_plain};
ghost use Rattle.vast_literal.specs.PlainFile.{is_plain_maybe, are_plain_connections, is_plain_declared, are_plain_events, are_plain_awaited, is_plain_parameter_name, is_plain_member};
ghost use Rattle.vast_core.specs.Bench.{OwnsExpr, OwnsInstantiation, OwnsAlways, OwnsFunction, tree_of, trees_of, maybe_tree_of};
ghost use Rattle.vast_core.specs.declared.node.Member.TheVariants.{Instantiation as InstanceEntry};
ghost use Rattle.vast_core.specs.Sound.{FormSound, ConnectionSound, VariableSound, EventSound};
ghost use Rattle.vast_core.specs.FileTree.{families, form_tree, connection_tree, variable_tree, always_in, function_in, member_tree};
ghost use Rattle.vast_core.specs.View.{bench};
ghost use Rattle.vast_plain.specs.Internal.Values.{Answers};
ghost use Rattle.vast_literal.specs.LiteralToken.{every};

use crate::expression::{is_plain_event, is_plain_maybe, is_plain_value};
use crate::names::is_plain_name;
use crate::statement::is_plain_block;
use crate::types::is_plain_declaration;
use std::alloc::AllocError;
use vast_core::{
    AlwaysKind, Ast, Connection, Expr, FunctionVariable, Instantiation, ParameterForm,
    VastAlwaysBase, VastFunction,
};

/// Whether what a parameter declares is plain.
fn is_plain_form(ast: &Ast, form: &ParameterForm) -> Result<bool, AllocError>
    requires { FormSound (bench ast.now) form.now }
    ensures { Answers
        (is_plain_parameter_name (form_tree (bench ast.now) form.now)) result }
{
    match form {
        ParameterForm::Plain(name) => Ok(is_plain_name(name.as_str())),
        ParameterForm::Int(name) => Ok(is_plain_name(name.as_str())),
        ParameterForm::Defined(definition) => {
            let definition = ast.definition(*definition);
            is_plain_declaration(ast, definition.data_type, definition.name.as_str())
        }
    }
}

/// Whether what a parameter declares and its value are plain.
pub(crate) fn is_plain_parameter(
    ast: &Ast,
    form: &ParameterForm,
    value: Expr,
) -> Result<bool, AllocError>
    requires form { FormSound (bench ast.now) form.now }
    requires value { OwnsExpr (bench ast.now) value }
    ensures { Answers
        (is_plain_parameter_name (form_tree (bench ast.now) form.now)
        && is_plain (tree_of (bench ast.now) value)) result }
{
    Ok(is_plain_form(ast, form)? && is_plain_value(ast, value)?)
}

/// Whether a connection's name and value are plain.
fn is_plain_connection(ast: &Ast, connection: &Connection) -> Result<bool, AllocError>
    requires { ConnectionSound (bench ast.now) connection.now }
    ensures { Answers
        (is_plain_name connection.now.name
        && is_plain_maybe (maybe_tree_of (bench ast.now) connection.now.value)) result }
{
    Ok(is_plain_name(connection.name.as_str()) && is_plain_maybe(ast, connection.value)?)
}

/// Whether each connection's name and value are plain.
pub(crate) fn are_plain_connections(
    ast: &Ast,
    connections: &[Connection],
) -> Result<bool, AllocError>
    requires { All (ConnectionSound (bench ast.now)) connections.now }
    ensures { Answers
        (are_plain_connections
        (map (connection_tree (bench ast.now)) connections.now))
        result }
{
    for connection in connections {
        if !is_plain_connection(ast, connection)? {
            return Ok(false);
        }
    }
    Ok(true)
}

/// Whether the names of an instantiation and what it gives are plain.
pub(crate) fn is_plain_instance(ast: &Ast, i: Instantiation) -> Result<bool, AllocError>
    requires { OwnsInstantiation (bench ast.now) i }
    ensures { Answers (is_plain_member (member_tree (bench ast.now) (InstanceEntry i))) result }
{
    let instance = ast.instance(i);
    Ok(
        is_plain_name(&instance.module_name)
            && is_plain_name(&instance.instance_name)
            && are_plain_connections(ast, &instance.parameters)?
            && are_plain_connections(ast, &instance.connections)?,
    )
}

/// Whether each event is plain, where edges may stand at their heads.
fn are_plain_events(ast: &Ast, events: &[Expr]) -> Result<bool, AllocError>
    requires { All (EventSound (bench ast.now)) events.now }
    ensures { Answers (are_plain_events (trees_of (bench ast.now) events.now)) result }
{
    for event in events {
        if !is_plain_event(ast, *event)? {
            return Ok(false);
        }
    }
    Ok(true)
}

/// Whether the events that are printed are plain.
fn are_plain_awaited(ast: &Ast, kind: AlwaysKind, events: &[Expr]) -> Result<bool, AllocError>
    requires { All (EventSound (bench ast.now)) events.now }
    ensures { Answers (are_plain_awaited kind (trees_of (bench ast.now) events.now)) result }
{
    if kind.has_events() {
        are_plain_events(ast, events)
    } else {
        Ok(true)
    }
}

/// Whether the events and the statements of an always block are plain.
pub(crate) fn is_plain_always(ast: &Ast, a: VastAlwaysBase) -> Result<bool, AllocError>
    requires { OwnsAlways (bench ast.now) a }
    ensures { Answers
        (is_plain_member
        (always_in (bench ast.now) (families (bench ast.now))
        (slice_get (bench ast.now).always_blocks a.id.index))) result }
{
    let node = ast.always_block(a);
    Ok(are_plain_awaited(ast, node.kind, &node.events)? && is_plain_block(ast, node.block)?)
}

/// Whether the name and the type of a function's input or local are plain.
fn is_plain_variable(ast: &Ast, variable: &FunctionVariable) -> Result<bool, AllocError>
    requires { VariableSound (bench ast.now) variable.now }
    ensures { Answers
        (is_plain_declared (variable_tree (bench ast.now) variable.now))
        result }
{
    is_plain_declaration(ast, variable.data_type, variable.name.as_str())
}

/// Whether the declarations of a function's inputs or locals are plain.
fn are_plain_variables(ast: &Ast, variables: &[FunctionVariable]) -> Result<bool, AllocError>
    requires { All (VariableSound (bench ast.now)) variables.now }
    ensures { Answers
        (every is_plain_declared
        (map (variable_tree (bench ast.now)) variables.now)) result }
{
    for variable in variables {
        if !is_plain_variable(ast, variable)? {
            return Ok(false);
        }
    }
    Ok(true)
}

/// Whether all that a function declares, and its statements, are plain.
pub(crate) fn is_plain_function(ast: &Ast, f: VastFunction) -> Result<bool, AllocError>
    requires { OwnsFunction (bench ast.now) f }
    ensures { Answers
        (is_plain_member
        (function_in (bench ast.now) (families (bench ast.now))
        (slice_get (bench ast.now).functions f.id.index))) result }
{
    let function = ast.function(f);
    Ok(
        is_plain_declaration(ast, function.result_type, &function.name)?
            && are_plain_variables(ast, &function.inputs)?
            && are_plain_variables(ast, &function.locals)?
            && is_plain_block(ast, function.body)?,
    )
}
