//! Blocks and statements.

ghost use Rattle.std.specs.Prelude.{◌&&◌, IfSome};
ghost use Rattle.vast_literal.specs.Tree.{ForTree};
ghost use Rattle.vast_literal.specs.PlainFile.{is_call, is_plain_maybe, is_plain_assignment, is_plain_statement, are_plain_statements};
ghost use Rattle.vast_core.specs.Bench.{OwnsBlock, OwnsCase, OwnsConditional, OwnsExpr, tree_of, maybe_tree_of};
ghost use Rattle.vast_core.specs.Internal.Entries.{OwnsEntry};
ghost use Rattle.vast_core.specs.FileTree.{families, statement_in, conditional_statement, case_statement, block_tree};
ghost use Rattle.vast_core.specs.View.{bench};
ghost use Rattle.vast_plain.specs.Internal.Values.{Answers};
ghost use Rattle.vast_literal.specs.Plain.{is_plain};

use crate::expression::{is_call, is_left_side, is_plain_maybe, is_plain_value};
use crate::names::is_plain_name;
use std::alloc::AllocError;
use vast_core::{
    Assignment, Ast, CaseArm, CaseStatement, Conditional, Expr, ForParts, Statement,
    VastStatementBlock,
};

/// Whether the left side is one of those that the grammar has, and both sides are plain.
pub(crate) fn is_plain_assignment(ast: &Ast, assignment: &Assignment) -> Result<bool, AllocError>
    requires lhs { OwnsExpr (bench ast.now) assignment.now.lhs }
    requires rhs { OwnsExpr (bench ast.now) assignment.now.rhs }
    ensures { Answers
        (is_plain_assignment (tree_of (bench ast.now) assignment.now.lhs)
        (tree_of (bench ast.now) assignment.now.rhs)) result }
{
    Ok(
        is_left_side(ast, assignment.lhs)
            && is_plain_value(ast, assignment.lhs)?
            && is_plain_value(ast, assignment.rhs)?,
    )
}

/// Whether the expression is a call, and plain.
fn is_plain_task(ast: &Ast, call: Expr) -> Result<bool, AllocError>
    requires { OwnsExpr (bench ast.now) call }
    ensures { Answers (is_call (tree_of (bench ast.now) call)
        && is_plain (tree_of (bench ast.now) call)) result }
{
    Ok(is_call(ast, call) && is_plain_value(ast, call)?)
}

/// Whether each statement of the block is plain.
#[cycle(statements)]
pub(crate) fn is_plain_block(ast: &Ast, b: VastStatementBlock) -> Result<bool, AllocError>
    requires { OwnsBlock (bench ast.now) b }
    ensures { Answers (are_plain_statements (block_tree (bench ast.now) b)) result }
{
    for statement in ast.block(b) {
        if !is_plain_statement(ast, statement)? {
            return Ok(false);
        }
    }
    Ok(true)
}

/// Whether the statement is no inline text, and all that it holds is plain.
#[cycle(statements)]
fn is_plain_statement(ast: &Ast, statement: &Statement) -> Result<bool, AllocError>
    requires { OwnsEntry (bench ast.now) statement.now }
    ensures { Answers
        (is_plain_statement
        (statement_in (bench ast.now) (families (bench ast.now))
        statement.now)) result }
{
    match statement {
        Statement::Assignment(s) => is_plain_assignment(ast, ast.assignment(*s)),
        Statement::Continuous(s) => is_plain_assignment(ast, ast.assignment(*s)),
        Statement::Task(call) => is_plain_task(ast, *call),
        Statement::Conditional(c) => is_plain_conditional(ast, *c),
        Statement::Case(c) => is_plain_case(ast, *c),
        Statement::For(l) => is_plain_for(ast, l.parts()),
        Statement::BlankLine => Ok(true),
        Statement::Comment(_) => Ok(true),
        Statement::Inline(_) => Ok(false),
    }
}

/// Whether all arms of the conditional are plain.
#[cycle(statements)]
#[tactic(auto, using(std::proofs::lemmas::List::drop_more))]
pub(crate) fn is_plain_conditional(ast: &Ast, c: Conditional) -> Result<bool, AllocError>
    requires { OwnsConditional (bench ast.now) c }
    ensures { Answers
        (is_plain_statement
        (conditional_statement (families (bench ast.now) c.id.index))) result }
{
    let node = ast.conditional(c);
    if !is_plain_arm(ast, node.condition, node.consequent)? {
        return Ok(false);
    }
    for arm in &node.else_ifs {
        if !is_plain_arm(ast, arm.condition, arm.block)? {
            return Ok(false);
        }
    }
    match node.otherwise {
        Some(b) => is_plain_block(ast, b),
        None => Ok(true),
    }
}

/// Whether the condition and the block of an arm are plain.
#[cycle(statements)]
fn is_plain_arm(ast: &Ast, condition: Expr, b: VastStatementBlock) -> Result<bool, AllocError>
    requires condition { OwnsExpr (bench ast.now) condition }
    requires block { OwnsBlock (bench ast.now) b }
    ensures { Answers
        (is_plain (tree_of (bench ast.now) condition)
        && are_plain_statements (block_tree (bench ast.now) b)) result }
{
    Ok(is_plain_value(ast, condition)? && is_plain_block(ast, b)?)
}

/// Whether the selector and all arms of the case statement are plain.
#[cycle(statements)]
#[tactic(auto, using(std::proofs::lemmas::List::drop_more))]
fn is_plain_case(ast: &Ast, c: CaseStatement) -> Result<bool, AllocError>
    requires { OwnsCase (bench ast.now) c }
    ensures { Answers
        (is_plain_statement (case_statement (families (bench ast.now) c.id.index))) result }
{
    let node = ast.case(c);
    if !is_plain_value(ast, node.selector)? {
        return Ok(false);
    }
    for arm in &node.arms {
        if !is_plain_case_arm(ast, *arm)? {
            return Ok(false);
        }
    }
    Ok(true)
}

/// Whether the index, the bounds and the block of a loop are plain.
#[cycle(statements)]
fn is_plain_for(ast: &Ast, parts: &ForParts) -> Result<bool, AllocError>
    requires start { OwnsExpr (bench ast.now) parts.now.start }
    requires end { OwnsExpr (bench ast.now) parts.now.end }
    requires block { OwnsBlock (bench ast.now) parts.now.block }
    ensures { Answers
        (is_plain_statement (ForTree parts.now.index (tree_of (bench ast.now) parts.now.start)
        (tree_of (bench ast.now) parts.now.end) (block_tree (bench ast.now) parts.now.block)))
        result }
{
    Ok(
        is_plain_name(parts.index.as_str())
            && is_plain_value(ast, parts.start)?
            && is_plain_value(ast, parts.end)?
            && is_plain_block(ast, parts.block)?,
    )
}

/// Whether the label and the block of an arm are plain.
#[cycle(statements)]
fn is_plain_case_arm(ast: &Ast, arm: CaseArm) -> Result<bool, AllocError>
    requires label { IfSome arm.label (OwnsExpr (bench ast.now)) }
    requires block { OwnsBlock (bench ast.now) arm.block }
    ensures { Answers
        (is_plain_maybe (maybe_tree_of (bench ast.now) arm.label)
        && are_plain_statements (block_tree (bench ast.now) arm.block)) result }
{
    Ok(is_plain_maybe(ast, arm.label)? && is_plain_block(ast, arm.block)?)
}
