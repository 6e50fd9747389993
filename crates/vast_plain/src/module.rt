//! Modules: headers and members.

ghost use Rattle.std.specs.Prelude.{◌&&◌, All, map};
ghost use Rattle.vast_literal.specs.PlainFile.{is_plain_typed, is_plain_declared, are_plain_parameters, are_plain_ports, is_plain_module};
ghost use Rattle.vast_core.specs.Bench.{OwnsPort, tree_of};
ghost use Rattle.vast_core.specs.Nodes.{maybe_type_in};
ghost use Rattle.vast_core.specs.Records.{module_record};
ghost use Rattle.vast_core.specs.Sound.{MemberSound, ParameterPortSound};
ghost use Rattle.vast_core.specs.FileTree.{parameter_port_tree, port_tree, module_tree};
ghost use Rattle.vast_core.specs.View.{bench};
ghost use Rattle.vast_plain.specs.Internal.Values.{Answers};
ghost use Rattle.vast_literal.specs.Plain.{is_plain};

use crate::expression::is_plain_value;
use crate::member::are_plain_members;
use crate::names::is_plain_name;
use crate::types::is_plain_declaration;
use std::alloc::AllocError;
use vast_core::{Ast, Module, ModulePort, ParameterPort};

/// Whether the name, the type and the value of a parameter of a header are plain.
fn is_plain_parameter_port(ast: &Ast, parameter: &ParameterPort) -> Result<bool, AllocError>
    requires { ParameterPortSound (bench ast.now) parameter.now }
    ensures { Answers
        (is_plain_typed (maybe_type_in (bench ast.now).nodes parameter.now.data_type)
        parameter.now.name
        && is_plain (tree_of (bench ast.now) parameter.now.value)) result }
{
    let is_plain = match parameter.data_type {
        Some(t) => is_plain_declaration(ast, t, parameter.name.as_str())?,
        None => is_plain_name(parameter.name.as_str()),
    };
    Ok(is_plain && is_plain_value(ast, parameter.value)?)
}

/// Whether the parameters of a header are plain.
fn are_plain_parameters(ast: &Ast, parameters: &[ParameterPort]) -> Result<bool, AllocError>
    requires { All (ParameterPortSound (bench ast.now))
        parameters.now }
    ensures { Answers
        (are_plain_parameters
        (map (parameter_port_tree (bench ast.now)) parameters.now))
        result }
{
    for parameter in parameters {
        if !is_plain_parameter_port(ast, parameter)? {
            return Ok(false);
        }
    }
    Ok(true)
}

/// Whether the name and the type of a port are plain.
fn is_plain_port(ast: &Ast, p: ModulePort) -> Result<bool, AllocError>
    requires { OwnsPort (bench ast.now) p }
    ensures { Answers (is_plain_declared (port_tree (bench ast.now) p).declaration) result }
{
    let port = ast.port(p);
    is_plain_declaration(ast, port.data_type, port.name.as_str())
}

/// Whether the ports of a header are plain.
fn are_plain_ports(ast: &Ast, ports: &[ModulePort]) -> Result<bool, AllocError>
    requires { All (OwnsPort (bench ast.now)) ports.now }
    ensures { Answers (are_plain_ports (map (port_tree (bench ast.now)) ports.now)) result }
{
    for port in ports {
        if !is_plain_port(ast, *port)? {
            return Ok(false);
        }
    }
    Ok(true)
}

/// Whether the name, the header and the members of a module are plain.
pub(crate) fn is_plain_module(ast: &Ast, node: &Module) -> Result<bool, AllocError>
    requires parameters { All (ParameterPortSound (bench ast.now))
        node.now.parameters.items }
    requires ports { All (OwnsPort (bench ast.now)) node.now.ports.items }
    requires members { All (MemberSound (bench ast.now))
        node.now.members.items }
    ensures { Answers (is_plain_module (module_tree (bench ast.now) (module_record node.now)))
        result }
{
    Ok(
        is_plain_name(&node.name)
            && are_plain_parameters(ast, &node.parameters)?
            && are_plain_ports(ast, &node.ports)?
            && are_plain_members(ast, &node.members)?,
    )
}
