//! Instantiations of modules.

ghost use Rattle.std.specs.Prelude.{All, map};
ghost use Rattle.vast_core.specs.Records.{instance_record};
ghost use Rattle.vast_core.specs.Bench.{OwnsInstantiation};
ghost use Rattle.vast_core.specs.Sound.{ConnectionSound};
ghost use Rattle.vast_core.specs.declared.node.Member.TheVariants.{Instantiation as InstanceEntry};
ghost use Rattle.vast_core.specs.FileTree.{connection_tree, member_tree};
ghost use Rattle.vast_core.specs.View.{bench};
ghost use Rattle.vast_print.specs.Internal.Output.{WritesLines, WritesText};
ghost use Rattle.vast_print.specs.Members.{entries_page, connection_text, connections_page, instance_head_page, member_page};

use crate::expression::print_expression;
use crate::refusal::PrintFault;
use crate::words;
use crate::writer::Writer;
use vast_core::{Ast, Connection, Instance, Instantiation};

/// Writes `.name(value)` after the last line; an open port has nothing between its parentheses.
#[tactic(auto, using(crate::proofs::ArenaLaws::instances))]
fn print_connection(ast: &Ast, connection: &Connection, out: &mut Writer) -> Result<(), PrintFault>
    requires { ConnectionSound (bench ast.now) connection.now }
    ensures { WritesText out.old out.new result
        (connection_text (connection_tree (bench ast.now) connection.now)) }
{
    out.word(".")?;
    out.written(connection.name.as_str())?;
    match connection.value {
        Some(value) => {
            out.word("(")?;
            print_expression(ast, value, out)?;
            out.word(")")?;
        }
        None => out.word("()")?,
    }
    Ok(())
}

/// Writes connections, each on a line one deeper.
#[tactic(auto, using(crate::proofs::ArenaLaws::entries))]
fn print_entries(ast: &Ast, connections: &[Connection], out: &mut Writer) -> Result<(), PrintFault>
    requires owned { All (ConnectionSound (bench ast.now))
        connections.now }
    ensures { WritesLines out.old out.new result
        (entries_page (map connection_text
        (map (connection_tree (bench ast.now)) connections.now))) }
{
    for (i, connection) in connections.iter().enumerate() {
        out.next_inner()?;
        print_connection(ast, connection, out)?;
        out.word(words::comma_word(i + 1 < connections.len()))?;
    }
    Ok(())
}

/// Writes an instantiation up to the list of its connections.
#[tactic(auto, using(crate::proofs::ArenaLaws::instances))]
fn print_head(ast: &Ast, instance: &Instance, out: &mut Writer) -> Result<(), PrintFault>
    requires owned { All (ConnectionSound (bench ast.now))
        instance.now.parameters.items }
    ensures { WritesLines out.old out.new result
        (instance_head_page (instance_record instance.now).module_name
        (map (connection_tree (bench ast.now))
        instance.now.parameters.items)
        (instance_record instance.now).instance_name) }
{
    out.next()?;
    out.written(&instance.module_name)?;
    if instance.parameters.is_empty() {
        out.word(" ")?;
    } else {
        out.word(" #(")?;
        print_entries(ast, &instance.parameters, out)?;
        out.next()?;
        out.word(") ")?;
    }
    out.written(&instance.instance_name)?;
    out.word(" (")?;
    Ok(())
}

/// Writes the connections to ports; one empty line stands where there are none.
#[tactic(auto, using(crate::proofs::ArenaLaws::instances))]
fn print_connections(
    ast: &Ast,
    connections: &[Connection],
    out: &mut Writer,
) -> Result<(), PrintFault>
    requires owned { All (ConnectionSound (bench ast.now))
        connections.now }
    ensures { WritesLines out.old out.new result
        (connections_page
        (map (connection_tree (bench ast.now)) connections.now)) }
{
    if connections.is_empty() {
        out.next()?;
        Ok(())
    } else {
        print_entries(ast, connections, out)
    }
}

/// Writes an instantiation on lines of its own.
#[tactic(auto, using(crate::proofs::ArenaLaws::instances))]
pub(crate) fn print_instance(
    ast: &Ast,
    i: Instantiation,
    out: &mut Writer,
) -> Result<(), PrintFault>
    requires owned { OwnsInstantiation (bench ast.now) i }
    ensures { WritesLines out.old out.new result
        (member_page (bench ast.now).file_type (member_tree (bench ast.now) (InstanceEntry i))) }
{
    let instance = ast.instance(i);
    print_head(ast, instance, out)?;
    print_connections(ast, &instance.connections, out)?;
    out.next()?;
    out.word(");")?;
    Ok(())
}
