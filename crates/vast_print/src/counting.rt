//! Loops of blocks, and what the heads of all loops have in common.

ghost use Rattle.vast_core.specs.Bench.{OwnsBlock, OwnsExpr, tree_of};
ghost use Rattle.vast_core.specs.FileTree.{block_tree};
ghost use Rattle.vast_core.specs.View.{bench};
ghost use Rattle.vast_literal.specs.Tree.{ForTree};
ghost use Rattle.vast_print.specs.Internal.Output.{WritesLines, WritesText};
ghost use Rattle.vast_print.specs.Statements.{counting_text, statement_page};

use crate::expression::{print_expression, print_wrapped};
use crate::levels::right_wraps;
use crate::refusal::PrintFault;
use crate::statement::print_block;
use crate::words;
use crate::writer::Writer;
use vast_core::{Ast, BinaryOperator, Expr, ForParts};

/// Writes a loop of a block on lines of its own.
#[cycle(print)]
#[tactic(auto, using(crate::proofs::ContainerLaws::counted))]
pub(crate) fn print_for(ast: &Ast, parts: &ForParts, out: &mut Writer) -> Result<(), PrintFault>
    requires start { OwnsExpr (bench ast.now) parts.now.start }
    requires end { OwnsExpr (bench ast.now) parts.now.end }
    requires block { OwnsBlock (bench ast.now) parts.now.block }
    ensures { WritesLines out.old out.new result
        (statement_page (ForTree parts.now.index (tree_of (bench ast.now) parts.now.start)
        (tree_of (bench ast.now) parts.now.end) (block_tree (bench ast.now) parts.now.block))) }
{
    out.next()?;
    out.word(words::for_int())?;
    print_counting(ast, parts.index.as_str(), parts.start, parts.end, out)?;
    print_block(ast, parts.block, out)
}

/// Writes what a loop's variable starts from and how far it runs, after the last line. The end stands as the right
/// child of the comparison.
#[tactic(auto, using(crate::proofs::ContainerLaws::headers))]
pub(crate) fn print_counting(
    ast: &Ast,
    name: &str,
    start: Expr,
    end: Expr,
    out: &mut Writer,
) -> Result<(), PrintFault>
    requires start { OwnsExpr (bench ast.now) start }
    requires end { OwnsExpr (bench ast.now) end }
    ensures { WritesText out.old out.new result
        (counting_text name.now (tree_of (bench ast.now) start) (tree_of (bench ast.now) end)) }
{
    let wraps = right_wraps(ast, BinaryOperator::Lt, end);
    out.written(name)?;
    out.word(" = ")?;
    print_expression(ast, start, out)?;
    out.word("; ")?;
    out.written(name)?;
    out.word(" < ")?;
    print_wrapped(ast, end, wraps, out)?;
    out.word("; ")?;
    out.written(name)?;
    out.word(" = ")?;
    out.written(name)?;
    out.word(words::step())?;
    Ok(())
}
