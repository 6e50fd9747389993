//! Generate loops.

ghost use Rattle.std.specs.Prelude.{string_bytes};
ghost use Rattle.vast_core.specs.Bench.{OwnsExpr, OwnsLoop, tree_of};
ghost use Rattle.vast_core.specs.Nests.{label_bytes};
ghost use Rattle.vast_core.specs.FileTree.{families, loop_member};
ghost use Rattle.vast_core.specs.View.{bench};
ghost use Rattle.vast_print.specs.Internal.Output.{WritesLines, WritesText};
ghost use Rattle.vast_print.specs.Members.{loop_label_text, loop_text, member_page};

use crate::counting::print_counting;
use crate::member::print_member;
use crate::refusal::PrintFault;
use crate::words;
use crate::writer::Writer;
use vast_core::{Ast, GenerateLoop, LoopNode};

/// Writes a generate loop on lines of its own.
#[cycle(members)]
#[tactic(auto, using(crate::proofs::ContainerLaws::loops))]
pub(crate) fn print_loop(ast: &Ast, l: GenerateLoop, out: &mut Writer) -> Result<(), PrintFault>
    requires owned { OwnsLoop (bench ast.now) l }
    ensures { WritesLines out.old out.new result
        (member_page (bench ast.now).file_type
        (loop_member (families (bench ast.now) l.id.index))) }
{
    let node = ast.generate_loop(l);
    out.next()?;
    print_header(ast, node, out)?;
    out.deeper()?;
    for member in &node.members {
        print_member(ast, member, out)?;
    }
    out.shallower();
    out.next()?;
    out.word("end")?;
    Ok(())
}

/// Writes the words before a loop's members after the last line.
#[tactic(auto, using(crate::proofs::ContainerLaws::headers))]
fn print_header(ast: &Ast, node: &LoopNode, out: &mut Writer) -> Result<(), PrintFault>
    requires start { OwnsExpr (bench ast.now) node.now.start }
    requires end { OwnsExpr (bench ast.now) node.now.end }
    ensures { WritesText out.old out.new result
        (loop_text (string_bytes node.now.name) (tree_of (bench ast.now) node.now.start)
        (tree_of (bench ast.now) node.now.end) (label_bytes node.now.label)) }
{
    out.word(words::for_genvar())?;
    print_counting(ast, &node.name, node.start, node.end, out)?;
    out.word("begin")?;
    print_label(&node.label, out)
}

/// Writes a loop's label after the last line.
#[tactic(auto, using(crate::proofs::ContainerLaws::headers))]
fn print_label(label: &Option<String>, out: &mut Writer) -> Result<(), PrintFault>
    ensures { WritesText out.old out.new result (loop_label_text (label_bytes label.now)) }
{
    match label {
        Some(label) => {
            out.word(" : ")?;
            out.written(label)?;
            Ok(())
        }
        None => Ok(()),
    }
}
