//! Always blocks.

ghost use Rattle.std.specs.Prelude.{All, slice_get};
ghost use Rattle.vast_core.specs.Bench.{OwnsAlways, trees_of};
ghost use Rattle.vast_core.specs.Sound.{EventSound};
ghost use Rattle.vast_core.specs.FileTree.{families, always_in};
ghost use Rattle.vast_core.specs.View.{bench};
ghost use Rattle.vast_print.specs.Internal.Output.{WritesLines, WritesText};
ghost use Rattle.vast_print.specs.Members.{events_text, always_text, member_page};

use crate::expression::print_expression;
use crate::refusal::PrintFault;
use crate::statement::print_block;
use crate::words;
use crate::writer::Writer;
use vast_core::{AlwaysBlock, Ast, Expr, VastAlwaysBase};

/// Writes events after the last line.
#[tactic(auto, using(crate::proofs::ContainerLaws::separated))]
fn print_events(ast: &Ast, events: &[Expr], out: &mut Writer) -> Result<(), PrintFault>
    requires { All (EventSound (bench ast.now)) events.now }
    ensures { WritesText out.old out.new result
        (events_text (trees_of (bench ast.now) events.now)) }
{
    for (i, event) in events.iter().enumerate() {
        out.word(words::or_before(i))?;
        print_expression(ast, *event, out)?;
    }
    Ok(())
}

/// Writes the words before an always block's block after the last line.
#[tactic(auto, using(crate::proofs::ContainerLaws::always))]
fn print_opening(ast: &Ast, node: &AlwaysBlock, out: &mut Writer) -> Result<(), PrintFault>
    requires { All (EventSound (bench ast.now)) node.now.events.items }
    ensures { WritesText out.old out.new result
        (always_text node.now.kind (trees_of (bench ast.now) node.now.events.items)) }
{
    out.word(words::always(node.kind))?;
    if node.kind.has_events() {
        print_events(ast, &node.events, out)?;
        out.word(") ")?;
    }
    Ok(())
}

/// Writes an always block on lines of its own.
#[tactic(auto, using(crate::proofs::ContainerLaws::always))]
pub(crate) fn print_always(ast: &Ast, a: VastAlwaysBase, out: &mut Writer) -> Result<(), PrintFault>
    requires owned { OwnsAlways (bench ast.now) a }
    ensures { WritesLines out.old out.new result
        (member_page (bench ast.now).file_type
        (always_in (bench ast.now) (families (bench ast.now))
        (slice_get (bench ast.now).always_blocks a.id.index))) }
{
    let node = ast.always_block(a);
    out.next()?;
    print_opening(ast, node, out)?;
    print_block(ast, node.block, out)
}
