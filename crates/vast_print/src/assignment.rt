//! Assignments.

ghost use Rattle.std.specs.Prelude.{codes, slice_get};
ghost use Rattle.vast_literal.specs.Tree.{AssignTree};
ghost use Rattle.vast_literal.specs.declared.kind.AssignmentForm.TheVariants.{Continuous};
ghost use Rattle.vast_core.specs.Bench.{OwnsExpr, OwnsStatement, tree_of};
ghost use Rattle.vast_core.specs.FileTree.{assigned_tree};
ghost use Rattle.vast_core.specs.View.{bench};
ghost use Rattle.vast_print.specs.Output.{Unstopped, word, inline};
ghost use Rattle.vast_print.specs.Internal.Output.{Writes, WritesLines, WritesBehind};
ghost use Rattle.vast_print.specs.Page.{written};
ghost use Rattle.vast_print.specs.Text.{expr_text};
ghost use Rattle.vast_print.specs.Statements.{statement_page};

use crate::expression::print_expression;
use crate::refusal::PrintFault;
use crate::words;
use crate::writer::Writer;
use vast_core::{Assignment, Ast, VastStatement};

/// Writes both sides of an assignment after the last line, with this operator between them.
#[tactic(auto, using(crate::proofs::ArenaLaws::stops))]
fn print_sides(
    ast: &Ast,
    assignment: &Assignment,
    sign: &str,
    out: &mut Writer,
) -> Result<(), PrintFault>
    requires lhs { OwnsExpr (bench ast.now) assignment.now.lhs }
    requires rhs { OwnsExpr (bench ast.now) assignment.now.rhs }
    ensures { Writes out.old out.new result
        (word (inline out.old.margin (word (inline out.old.margin (Unstopped out.old.draft)
        (written (expr_text (tree_of (bench ast.now) assignment.now.lhs)))) sign.now)
        (written (expr_text (tree_of (bench ast.now) assignment.now.rhs)))) (codes ";")) }
{
    print_expression(ast, assignment.lhs, out)?;
    out.word(sign)?;
    print_expression(ast, assignment.rhs, out)?;
    out.word(";")?;
    Ok(())
}

/// Writes `assign lhs = rhs;` on a line of its own.
#[tactic(auto, using(crate::proofs::ContainerLaws::assignments))]
pub(crate) fn print_continuous(
    ast: &Ast,
    assignment: &Assignment,
    out: &mut Writer,
) -> Result<(), PrintFault>
    requires lhs { OwnsExpr (bench ast.now) assignment.now.lhs }
    requires rhs { OwnsExpr (bench ast.now) assignment.now.rhs }
    ensures { WritesLines out.old out.new result
        (statement_page (AssignTree Continuous (tree_of (bench ast.now) assignment.now.lhs)
        (tree_of (bench ast.now) assignment.now.rhs))) }
{
    out.next()?;
    out.word("assign ")?;
    print_sides(ast, assignment, " = ", out)
}

/// Writes an assignment of a block after the last line.
#[tactic(auto, using(crate::proofs::ContainerLaws::assignments))]
pub(crate) fn print_assigned(
    ast: &Ast,
    s: VastStatement,
    out: &mut Writer,
) -> Result<(), PrintFault>
    requires { OwnsStatement (bench ast.now) s }
    ensures { WritesBehind out.old out.new result
        (statement_page
        (assigned_tree (bench ast.now) (slice_get (bench ast.now).assignments s.id.index))) }
{
    let assignment = ast.assignment(s);
    print_sides(
        ast,
        assignment,
        words::assignment_operator(assignment.nonblocking),
        out,
    )
}
