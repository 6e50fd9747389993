//! Blocks and statements.

ghost use Rattle.std.specs.Prelude.{◌≡◌, Some, None, MatchOption};
ghost use Rattle.vast_literal.specs.Shape.{name_alone};
ghost use Rattle.vast_literal.specs.Tree.{TaskTree};
ghost use Rattle.vast_core.specs.Bench.{OwnsBlock, OwnsExpr, tree_of};
ghost use Rattle.vast_core.specs.Internal.Entries.{OwnsEntry};
ghost use Rattle.vast_core.specs.FileTree.{families, statement_in, block_tree};
ghost use Rattle.vast_core.specs.View.{bench};
ghost use Rattle.vast_print.specs.Output.{Unstopped, next, inline};
ghost use Rattle.vast_print.specs.Internal.Output.{Writes, WritesLines, WritesBehind, WritesText};
ghost use Rattle.vast_print.specs.Printed.{plain_text};
ghost use Rattle.vast_print.specs.Page.{written};
ghost use Rattle.vast_print.specs.Statements.{called_text, statement_page, statements_page, block_page};

use crate::assignment::{print_assigned, print_continuous};
use crate::case::print_case;
use crate::conditional::print_conditional;
use crate::counting::print_for;
use crate::expression::print_expression;
use crate::refusal::PrintFault;
use crate::writer::Writer;
use vast_core::{Ast, Expr, ExprNode, Statement, VastStatementBlock};

/// Writes a block after the last line.
#[cycle(print)]
#[tactic(auto, using(crate::proofs::ContainerLaws::blocks))]
pub(crate) fn print_block(
    ast: &Ast,
    b: VastStatementBlock,
    out: &mut Writer,
) -> Result<(), PrintFault>
    requires owned { OwnsBlock (bench ast.now) b }
    ensures { WritesBehind out.old out.new result (block_page (block_tree (bench ast.now) b)) }
{
    if ast.block(b).is_empty() {
        out.word("begin end")?;
    } else {
        out.word("begin")?;
        out.deeper()?;
        print_statements(ast, b, out)?;
        out.shallower();
        out.next()?;
        out.word("end")?;
    }
    Ok(())
}

/// Writes the statements of a block below each other.
#[cycle(print)]
#[tactic(auto, using(crate::proofs::ContainerLaws::below))]
pub(crate) fn print_statements(
    ast: &Ast,
    b: VastStatementBlock,
    out: &mut Writer,
) -> Result<(), PrintFault>
    requires owned { OwnsBlock (bench ast.now) b }
    ensures { WritesLines out.old out.new result (statements_page (block_tree (bench ast.now) b)) }
{
    for statement in ast.block(b) {
        print_statement(ast, statement, out)?;
    }
    Ok(())
}

/// Writes a statement on lines of its own.
#[cycle(print)]
#[tactic(auto, using(crate::proofs::ContainerLaws::statements))]
fn print_statement(ast: &Ast, statement: &Statement, out: &mut Writer) -> Result<(), PrintFault>
    requires { OwnsEntry (bench ast.now) statement.now }
    ensures { WritesLines out.old out.new result
        (statement_page
        (statement_in (bench ast.now) (families (bench ast.now)) statement.now)) }
{
    match statement {
        Statement::Assignment(s) => {
            out.next()?;
            print_assigned(ast, *s, out)
        }
        Statement::Continuous(s) => print_continuous(ast, ast.assignment(*s), out),
        Statement::Task(call) => print_task(ast, *call, out),
        Statement::Conditional(c) => print_conditional(ast, *c, out),
        Statement::Case(c) => print_case(ast, *c, out),
        Statement::For(l) => print_for(ast, l.parts(), out),
        Statement::BlankLine => Ok(out.next()?),
        Statement::Comment(text) => Ok(out.comment(text.as_str())?),
        Statement::Inline(text) => print_inline(text.as_str(), out),
    }
}

/// Writes a call as a statement, on a line of its own.
#[tactic(auto, using(crate::proofs::ContainerLaws::tasks))]
fn print_task(ast: &Ast, call: Expr, out: &mut Writer) -> Result<(), PrintFault>
    requires { OwnsExpr (bench ast.now) call }
    ensures { WritesLines out.old out.new result
        (statement_page (TaskTree (tree_of (bench ast.now) call))) }
{
    out.next()?;
    print_call(ast, call, out)?;
    out.word(";")?;
    Ok(())
}

/// Writes a call after the last line; one without arguments has no parentheses.
#[tactic(auto, using(crate::proofs::ContainerLaws::alone))]
fn print_call(ast: &Ast, call: Expr, out: &mut Writer) -> Result<(), PrintFault>
    requires { OwnsExpr (bench ast.now) call }
    ensures { WritesText out.old out.new result
        (called_text (name_alone (tree_of (bench ast.now) call)) (tree_of (bench ast.now) call)) }
{
    match name_alone(ast, call) {
        Some(name) => {
            out.written(name)?;
            Ok(())
        }
        None => print_expression(ast, call, out),
    }
}

/// The name of a call without arguments, as it stands where it is a statement.
#[tactic(auto, using(crate::proofs::ContainerLaws::alone))]
fn name_alone<'a>(ast: &'a Ast, call: Expr) -> Option<&'a str>
    requires { OwnsExpr (bench ast.now) call }
    ensures { MatchOption result (name_alone (tree_of (bench ast.now) call) ≡ None)
        (λ name. name_alone (tree_of (bench ast.now) call) ≡ Some name.now) }
{
    match ast.expr(call) {
        ExprNode::Call(name, arguments) => {
            if arguments.is_empty() {
                Some(name.as_str())
            } else {
                None
            }
        }
        _ => None,
    }
}

/// Writes a text as it is, from a line of its own on.
pub(crate) fn print_inline(text: &str, out: &mut Writer) -> Result<(), PrintFault>
    ensures { Writes out.old out.new result
        (inline out.old.margin (next out.old.margin (Unstopped out.old.draft))
        (written (plain_text text.now))) }
{
    out.next()?;
    out.written(text)?;
    Ok(())
}
