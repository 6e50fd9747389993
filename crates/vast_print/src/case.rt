//! Case statements.

ghost use Rattle.std.specs.Prelude.{◌≡◌, codes, IfSome};
ghost use Rattle.vast_core.specs.Bench.{OwnsExpr, OwnsBlock, OwnsCase, tree_of, maybe_tree_of};
ghost use Rattle.vast_core.specs.FileTree.{families, case_statement, block_tree};
ghost use Rattle.vast_core.specs.View.{bench};
ghost use Rattle.vast_print.specs.Internal.Bodies.{assignment_of, bare_assignment};
ghost use Rattle.vast_print.specs.Output.{Unstopped, word, next, inline};
ghost use Rattle.vast_print.specs.Internal.Output.{Writes, WritesLines};
ghost use Rattle.vast_print.specs.Printed.{plain_text, ◌⊕◌};
ghost use Rattle.vast_print.specs.Page.{written};
ghost use Rattle.vast_print.specs.Text.{expr_text};
ghost use Rattle.vast_print.specs.Statements.{unique_word, case_word, label_text, statement_page};
ghost use Rattle.vast_print.specs.Internal.Statements.{arm_page};

use crate::assignment::print_assigned;
use crate::expression::print_expression;
use crate::refusal::PrintFault;
use crate::statement::print_block;
use crate::words;
use crate::writer::Writer;
use vast_core::{Ast, CaseArm, CaseKind, CaseNode, CaseStatement, Expr, Statement, VastStatement};

/// Writes a case statement on lines of its own.
#[cycle(print)]
#[tactic(auto, using(crate::proofs::ContainerLaws::cases))]
pub(crate) fn print_case(ast: &Ast, c: CaseStatement, out: &mut Writer) -> Result<(), PrintFault>
    requires owned { OwnsCase (bench ast.now) c }
    ensures { WritesLines out.old out.new result
        (statement_page (case_statement (families (bench ast.now) c.id.index))) }
{
    let node = ast.case(c);
    print_selector(ast, node, out)?;
    out.deeper()?;
    for arm in &node.arms {
        print_arm(ast, node.kind, *arm, out)?;
    }
    out.shallower();
    out.next()?;
    out.word("endcase")?;
    Ok(())
}

/// Writes an arm of a case on lines of its own; in a casez, a single assignment stands without begin and end.
#[cycle(print)]
#[tactic(auto, using(crate::proofs::ContainerLaws::cases))]
fn print_arm(ast: &Ast, kind: CaseKind, arm: CaseArm, out: &mut Writer) -> Result<(), PrintFault>
    requires label { IfSome arm.label (OwnsExpr (bench ast.now)) }
    requires block { OwnsBlock (bench ast.now) arm.block }
    ensures { WritesLines out.old out.new result
        (arm_page kind (maybe_tree_of (bench ast.now) arm.label)
        (block_tree (bench ast.now) arm.block)) }
{
    print_label(ast, arm.label, out)?;
    match bare_assignment(kind, ast.block(arm.block)) {
        Some(s) => print_assigned(ast, s, out),
        None => print_block(ast, arm.block, out),
    }
}

/// Writes the words before a case's arms on a line of their own.
#[tactic(auto, using(crate::proofs::ArenaLaws::stops))]
fn print_selector(ast: &Ast, node: &CaseNode, out: &mut Writer) -> Result<(), PrintFault>
    requires { OwnsExpr (bench ast.now) node.now.selector }
    ensures { Writes out.old out.new result
        (word (inline out.old.margin (word
        (word (next out.old.margin (Unstopped out.old.draft)) (unique_word node.now.unique))
        (case_word node.now.kind))
        (written (expr_text (tree_of (bench ast.now) node.now.selector)))) (codes ")")) }
{
    out.next()?;
    out.word(words::unique(node.unique))?;
    out.word(words::case(node.kind))?;
    print_expression(ast, node.selector, out)?;
    out.word(")")?;
    Ok(())
}

/// Writes the label of an arm on a line of its own.
#[tactic(auto, using(crate::proofs::ContainerLaws::labels))]
fn print_label(ast: &Ast, label: Option<Expr>, out: &mut Writer) -> Result<(), PrintFault>
    requires { IfSome label (OwnsExpr (bench ast.now)) }
    ensures { Writes out.old out.new result
        (inline out.old.margin (next out.old.margin (Unstopped out.old.draft))
        (written (label_text (maybe_tree_of (bench ast.now) label) ⊕ plain_text (codes ": ")))) }
{
    out.next()?;
    match label {
        Some(e) => {
            print_expression(ast, e, out)?;
            out.word(": ")?;
        }
        None => out.word("default: ")?,
    }
    Ok(())
}

/// The assignment that stands without begin and end in an arm that holds these statements.
fn bare_assignment(kind: CaseKind, statements: &[Statement]) -> Option<VastStatement>
    ensures { result ≡ bare_assignment kind statements.now }
{
    if statements.len() != 1 {
        return None;
    }
    match kind {
        CaseKind::CaseZ => assignment_of(&statements[0]),
        CaseKind::Case | CaseKind::CaseX => None,
    }
}

fn assignment_of(statement: &Statement) -> Option<VastStatement>
    ensures { result ≡ assignment_of statement.now }
{
    match statement {
        Statement::Assignment(s) => Some(*s),
        _ => None,
    }
}
