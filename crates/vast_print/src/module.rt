//! Modules: headers and members.

ghost use Rattle.std.specs.Prelude.{All, map, codes};
ghost use Rattle.vast_core.specs.Bench.{OwnsModule, OwnsPort};
ghost use Rattle.vast_core.specs.Records.{module_record};
ghost use Rattle.vast_core.specs.declared.node.FileItem.TheVariants.{Module as ModuleEntry};
ghost use Rattle.vast_core.specs.Sound.{MemberSound, ParameterPortSound};
ghost use Rattle.vast_core.specs.FileTree.{parameter_port_tree, port_tree, members_tree, module_tree, item_tree};
ghost use Rattle.vast_core.specs.View.{bench};
ghost use Rattle.vast_print.specs.Output.{Unstopped, word, next, inline};
ghost use Rattle.vast_print.specs.Internal.Output.{Writes, WritesLines, WritesText};
ghost use Rattle.vast_print.specs.Printed.{plain_text};
ghost use Rattle.vast_print.specs.Layout.{port_text, ports_page, header_page, body_page, module_page, item_page};
ghost use Rattle.vast_print.specs.Page.{written};

use crate::declaration::print_port;
use crate::member::print_members;
use crate::parameter::print_parameter_ports;
use crate::refusal::PrintFault;
use crate::words;
use crate::writer::Writer;
use vast_core::{Ast, Member, Module, ModulePort, VastModule};

/// Writes a port of a header.
fn print_listed_port(ast: &Ast, p: ModulePort, out: &mut Writer) -> Result<(), PrintFault>
    requires { OwnsPort (bench ast.now) p }
    ensures { WritesText out.old out.new result
        (port_text (bench ast.now).file_type (port_tree (bench ast.now) p)) }
{
    let port = ast.port(p);
    print_port(ast, port, out)
}

/// Writes the ports of a header, each on a line one deeper.
#[tactic(auto, using(crate::proofs::ArenaLaws::entries))]
fn print_ports(ast: &Ast, ports: &[ModulePort], out: &mut Writer) -> Result<(), PrintFault>
    requires owned { All (OwnsPort (bench ast.now)) ports.now }
    ensures { WritesLines out.old out.new result
        (ports_page (bench ast.now).file_type (map (port_tree (bench ast.now)) ports.now)) }
{
    for (i, port) in ports.iter().enumerate() {
        out.next_inner()?;
        print_listed_port(ast, *port, out)?;
        out.word(words::comma_word(i + 1 < ports.len()))?;
    }
    Ok(())
}

/// Writes the words before a header's first list, or before the end of a header without lists.
fn print_opening(name: &str, end: &str, out: &mut Writer) -> Result<(), PrintFault>
    ensures { Writes out.old out.new result
        (word (inline out.old.margin
        (word (next out.old.margin (Unstopped out.old.draft)) (codes "module "))
        (written (plain_text name.now))) end.now) }
{
    out.next()?;
    out.word("module ")?;
    out.written(name)?;
    out.word(end)?;
    Ok(())
}

/// Writes a module's header; a list that is empty isn't written.
#[tactic(auto, using(crate::proofs::ArenaLaws::modules))]
fn print_header(ast: &Ast, node: &Module, out: &mut Writer) -> Result<(), PrintFault>
    requires parameters { All (ParameterPortSound (bench ast.now))
        node.now.parameters.items }
    requires ports { All (OwnsPort (bench ast.now)) node.now.ports.items }
    ensures { WritesLines out.old out.new result
        (header_page (bench ast.now).file_type (module_record node.now).name
        (map (parameter_port_tree (bench ast.now))
        node.now.parameters.items)
        (map (port_tree (bench ast.now)) node.now.ports.items)) }
{
    if !node.parameters.is_empty() {
        print_opening(&node.name, " #(", out)?;
        print_parameter_ports(ast, &node.parameters, out)?;
        out.next()?;
        if !node.ports.is_empty() {
            out.word(") (")?;
            print_ports(ast, &node.ports, out)?;
            out.next()?;
        }
        out.word(");")?;
    } else if !node.ports.is_empty() {
        print_opening(&node.name, "(", out)?;
        print_ports(ast, &node.ports, out)?;
        out.next()?;
        out.word(");")?;
    } else {
        print_opening(&node.name, ";", out)?;
    }
    Ok(())
}

/// Writes the members one deeper, or one empty line where there are none.
#[tactic(auto, using(crate::proofs::ArenaLaws::modules))]
fn print_body(ast: &Ast, members: &[Member], out: &mut Writer) -> Result<(), PrintFault>
    requires { All (MemberSound (bench ast.now)) members.now }
    ensures { WritesLines out.old out.new result
        (body_page (bench ast.now).file_type (members_tree (bench ast.now) members.now)) }
{
    if members.is_empty() {
        out.next()?;
        Ok(())
    } else {
        out.deeper()?;
        print_members(ast, members, out)?;
        out.shallower();
        Ok(())
    }
}

/// Writes a module: its header, its members and its end.
#[tactic(auto, using(crate::proofs::ArenaLaws::modules))]
fn print_parts(ast: &Ast, node: &Module, out: &mut Writer) -> Result<(), PrintFault>
    requires parameters { All (ParameterPortSound (bench ast.now))
        node.now.parameters.items }
    requires ports { All (OwnsPort (bench ast.now)) node.now.ports.items }
    requires members { All (MemberSound (bench ast.now))
        node.now.members.items }
    ensures { WritesLines out.old out.new result
        (module_page (bench ast.now).file_type
        (module_tree (bench ast.now) (module_record node.now))) }
{
    print_header(ast, node, out)?;
    print_body(ast, &node.members, out)?;
    out.next()?;
    out.word("endmodule")?;
    Ok(())
}

/// Writes a module of the file.
pub(crate) fn print_module(ast: &Ast, m: VastModule, out: &mut Writer) -> Result<(), PrintFault>
    requires { OwnsModule (bench ast.now) m }
    ensures { WritesLines out.old out.new result
        (item_page (bench ast.now).file_type (item_tree (bench ast.now) (ModuleEntry m))) }
{
    let module = ast.module(m);
    print_parts(ast, module, out)
}
