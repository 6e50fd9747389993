//! Expressions, by a list of those that wait to be looked at. So nothing recurs, however deep an expression nests.

ghost use Rattle.std.specs.Prelude.{◌≡◌, ◌+◌, ◌&&◌, All, IfSome};
ghost use Rattle.vast_literal.specs.Tree.{ConcatTree, TypeCastTree};
ghost use Rattle.vast_literal.specs.Plain.{are_plain, is_plain};
ghost use Rattle.vast_literal.specs.PlainFile.{is_call, is_left_side, is_plain_maybe, is_plain_event};
ghost use Rattle.vast_core.specs.Bench.{OwnsExpr, OwnsType, tree_of, trees_of, maybe_tree_of, type_of};
ghost use Rattle.vast_core.specs.View.{bench};
ghost use Rattle.vast_plain.specs.Internal.Values.{Answers, Begins, BeginsExpr, exprs_weight};

use crate::names::{is_called_name, is_plain_name};
use crate::types::begin_type;
use std::alloc::AllocError;
use vast_core::{Ast, Expr, ExprNode, VastDataType};

/// Whether each name that the expression prints is plain, and it has no edge.
///
/// # Errors
/// `AllocError` where memory was refused.
#[tactic(auto, using(crate::proofs::Values::wholes))]
pub(crate) fn is_plain_value(ast: &Ast, e: Expr) -> Result<bool, AllocError>
    requires { OwnsExpr (bench ast.now) e }
    ensures { Answers (is_plain (tree_of (bench ast.now) e)) result }
{
    let mut waiting = Vec::new(ast.allocator());
    // A name or a literal lets nothing wait, so it takes no memory.
    Ok(begin(ast, e, &mut waiting)? && are_plain_values(ast, waiting)?)
}

/// Whether all that wait are plain and have no edge.
#[tactic(auto, using(crate::proofs::Values::heads))]
pub(crate) fn are_plain_values(ast: &Ast, mut waiting: Vec<Expr>) -> Result<bool, AllocError>
    requires { All (OwnsExpr (bench ast.now)) waiting.items }
    ensures { Answers (are_plain (trees_of (bench ast.now) waiting.items)) result }
{
    while let Some(e) = waiting.pop() {
        if !begin(ast, e, &mut waiting)? {
            return Ok(false);
        }
    }
    Ok(true)
}

/// Lets parts of an expression wait. Nothing is known against them so far.
#[tactic(auto, using(crate::proofs::Values::waits))]
pub(crate) fn wait(ast: &Ast, parts: &[Expr], waiting: &mut Vec<Expr>) -> Result<bool, AllocError>
    requires parts { All (OwnsExpr (bench ast.now)) parts.now }
    requires owned { All (OwnsExpr (bench ast.now)) waiting.old.items }
    ensures { Begins (bench ast.now) waiting.old.items waiting.new.items
        (are_plain (trees_of (bench ast.now) parts.now))
        (exprs_weight (trees_of (bench ast.now) parts.now) + 1) result }
{
    waiting.extend_from_slice(parts)?;
    Ok(true)
}

/// Looks at the head of an expression, and lets its parts wait; `false` where its head isn't plain.
#[tactic(auto, using(crate::proofs::Values::heads))]
fn begin(ast: &Ast, e: Expr, waiting: &mut Vec<Expr>) -> Result<bool, AllocError>
    requires part { OwnsExpr (bench ast.now) e }
    requires owned { All (OwnsExpr (bench ast.now)) waiting.old.items }
    ensures { BeginsExpr (bench ast.now) waiting.old.items waiting.new.items
        (tree_of (bench ast.now) e) result }
{
    match ast.expr(e) {
        ExprNode::Name(name, _) => Ok(is_plain_name(name.as_str())),
        ExprNode::Literal(_, _) => Ok(true),
        ExprNode::StringText(_) => Ok(true),
        ExprNode::Unary(_, operand) => wait(ast, &[*operand], waiting),
        ExprNode::Binary(_, left, right) => wait(ast, &[*left, *right], waiting),
        ExprNode::Ternary(condition, consequent, alternate) => {
            wait(ast, &[*condition, *consequent, *alternate], waiting)
        }
        ExprNode::Index(subject, index) => wait(ast, &[*subject, *index], waiting),
        ExprNode::Slice(subject, high, low) => wait(ast, &[*subject, *high, *low], waiting),
        ExprNode::PartSelect(subject, start, _) => wait(ast, &[*subject, *start], waiting),
        ExprNode::MemberOf(subject, name) => {
            begin_named(ast, is_plain_name(name.as_str()), &[*subject], waiting)
        }
        ExprNode::Concat(count, parts) => begin_concat(ast, *count, parts, waiting),
        ExprNode::Pattern(parts) => wait(ast, parts, waiting),
        ExprNode::WidthCast(width, operand) => wait(ast, &[*width, *operand], waiting),
        ExprNode::TypeCast(data_type, operand) => begin_cast(ast, *data_type, *operand, waiting),
        ExprNode::PosEdge(_) => Ok(false),
        ExprNode::NegEdge(_) => Ok(false),
        ExprNode::Macro(name) => Ok(is_plain_name(name.as_str())),
        ExprNode::MacroCall(name, arguments) => {
            begin_named(ast, is_plain_name(name), arguments, waiting)
        }
        ExprNode::Call(name, arguments) => {
            begin_named(ast, is_called_name(name), arguments, waiting)
        }
        ExprNode::DataType(_) => unreachable!(),
    }
}

/// The same of a concatenation.
#[tactic(auto, using(crate::proofs::Values::heads))]
fn begin_concat(
    ast: &Ast,
    count: Option<Expr>,
    parts: &[Expr],
    waiting: &mut Vec<Expr>,
) -> Result<bool, AllocError>
    requires count { IfSome count (OwnsExpr (bench ast.now)) }
    requires parts { All (OwnsExpr (bench ast.now)) parts.now }
    requires owned { All (OwnsExpr (bench ast.now)) waiting.old.items }
    ensures { BeginsExpr (bench ast.now) waiting.old.items waiting.new.items
        (ConcatTree (maybe_tree_of (bench ast.now) count) (trees_of (bench ast.now) parts.now))
        result }
{
    waiting.extend_from_slice(parts)?;
    match count {
        Some(count) => wait(ast, &[count], waiting),
        None => Ok(true),
    }
}

/// The same of a cast to a type.
#[tactic(auto, using(crate::proofs::Values::heads))]
fn begin_cast(
    ast: &Ast,
    data_type: VastDataType,
    operand: Expr,
    waiting: &mut Vec<Expr>,
) -> Result<bool, AllocError>
    requires data_type { OwnsType (bench ast.now) data_type }
    requires operand { OwnsExpr (bench ast.now) operand }
    requires owned { All (OwnsExpr (bench ast.now)) waiting.old.items }
    ensures { BeginsExpr (bench ast.now) waiting.old.items waiting.new.items
        (TypeCastTree (type_of (bench ast.now) data_type) (tree_of (bench ast.now) operand))
        result }
{
    waiting.push(operand)?;
    begin_type(ast, data_type, waiting)
}

/// The same of a call or a member, by whether its name is plain.
#[tactic(auto, using(crate::proofs::Values::heads))]
fn begin_named(
    ast: &Ast,
    has_plain_name: bool,
    parts: &[Expr],
    waiting: &mut Vec<Expr>,
) -> Result<bool, AllocError>
    requires parts { All (OwnsExpr (bench ast.now)) parts.now }
    requires owned { All (OwnsExpr (bench ast.now)) waiting.old.items }
    ensures { Begins (bench ast.now) waiting.old.items waiting.new.items
        (has_plain_name && are_plain (trees_of (bench ast.now) parts.now))
        (exprs_weight (trees_of (bench ast.now) parts.now) + 1) result }
{
    if !has_plain_name {
        return Ok(false);
    }
    wait(ast, parts, waiting)
}

/// Whether there is no expression, or it is plain and has no edge.
pub(crate) fn is_plain_maybe(ast: &Ast, e: Option<Expr>) -> Result<bool, AllocError>
    requires { IfSome e (OwnsExpr (bench ast.now)) }
    ensures { Answers (is_plain_maybe (maybe_tree_of (bench ast.now) e)) result }
{
    match e {
        Some(e) => is_plain_value(ast, e),
        None => Ok(true),
    }
}

/// Whether the expression is a name, a select, a member or a concatenation.
pub(crate) fn is_left_side(ast: &Ast, e: Expr) -> bool
    requires { OwnsExpr (bench ast.now) e }
    ensures { result ≡ is_left_side (tree_of (bench ast.now) e) }
{
    match ast.expr(e) {
        ExprNode::Name(_, _) => true,
        ExprNode::Index(_, _) => true,
        ExprNode::Slice(_, _, _) => true,
        ExprNode::PartSelect(_, _, _) => true,
        ExprNode::MemberOf(_, _) => true,
        ExprNode::Concat(_, _) => true,
        _ => false,
    }
}

/// Whether the expression is a call of a function or a task, or the use of a macro.
pub(crate) fn is_call(ast: &Ast, e: Expr) -> bool
    requires { OwnsExpr (bench ast.now) e }
    ensures { result ≡ is_call (tree_of (bench ast.now) e) }
{
    match ast.expr(e) {
        ExprNode::Call(_, _) => true,
        ExprNode::Macro(_) => true,
        ExprNode::MacroCall(_, _) => true,
        _ => false,
    }
}

/// Whether an event is plain, where an edge may stand at its head.
pub(crate) fn is_plain_event(ast: &Ast, e: Expr) -> Result<bool, AllocError>
    requires { OwnsExpr (bench ast.now) e }
    ensures { Answers (is_plain_event (tree_of (bench ast.now) e)) result }
{
    match ast.expr(e) {
        ExprNode::PosEdge(operand) => is_plain_value(ast, *operand),
        ExprNode::NegEdge(operand) => is_plain_value(ast, *operand),
        _ => is_plain_value(ast, e),
    }
}
