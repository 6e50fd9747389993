//! Conditionals.

ghost use Rattle.std.specs.Prelude.{codes};
ghost use Rattle.vast_core.specs.Bench.{OwnsExpr, OwnsConditional, tree_of};
ghost use Rattle.vast_core.specs.FileTree.{families, conditional_statement};
ghost use Rattle.vast_core.specs.View.{bench};
ghost use Rattle.vast_print.specs.Output.{Unstopped, word, inline};
ghost use Rattle.vast_print.specs.Internal.Output.{Writes, WritesLines};
ghost use Rattle.vast_print.specs.Page.{written};
ghost use Rattle.vast_print.specs.Text.{expr_text};
ghost use Rattle.vast_print.specs.Statements.{statement_page};

use crate::expression::print_expression;
use crate::refusal::PrintFault;
use crate::statement::print_block;
use crate::writer::Writer;
use vast_core::{Ast, Conditional, Expr};

/// Writes a conditional on lines of its own; each arm goes on after the end of the one before.
#[cycle(print)]
#[tactic(auto, using(crate::proofs::ContainerLaws::conditionals))]
pub(crate) fn print_conditional(
    ast: &Ast,
    c: Conditional,
    out: &mut Writer,
) -> Result<(), PrintFault>
    requires owned { OwnsConditional (bench ast.now) c }
    ensures { WritesLines out.old out.new result
        (statement_page (conditional_statement (families (bench ast.now) c.id.index))) }
{
    let node = ast.conditional(c);
    out.next()?;
    print_condition(ast, "if (", node.condition, out)?;
    print_block(ast, node.consequent, out)?;
    for arm in &node.else_ifs {
        print_condition(ast, " else if (", arm.condition, out)?;
        print_block(ast, arm.block, out)?;
    }
    match node.otherwise {
        Some(b) => {
            out.word(" else ")?;
            print_block(ast, b, out)
        }
        None => Ok(()),
    }
}

/// Writes the condition of an arm after the last line and these words.
#[tactic(auto, using(crate::proofs::ArenaLaws::stops))]
fn print_condition(
    ast: &Ast,
    opening: &str,
    condition: Expr,
    out: &mut Writer,
) -> Result<(), PrintFault>
    requires { OwnsExpr (bench ast.now) condition }
    ensures { Writes out.old out.new result
        (word (inline out.old.margin (word (Unstopped out.old.draft) opening.now)
        (written (expr_text (tree_of (bench ast.now) condition)))) (codes ") ")) }
{
    out.word(opening)?;
    print_expression(ast, condition, out)?;
    out.word(") ")?;
    Ok(())
}
