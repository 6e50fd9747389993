//! Parts of expressions that were made.

ghost use Rattle.std.specs.Prelude.{◌≡◌, MatchOption, Some, None};
ghost use Rattle.vast_expressions.specs.Internal.Values.{take_bytes, take_tree, take_trees};
ghost use Rattle.vast_read.specs.Internal.Values.{denoted};
ghost use Rattle.vast_read.specs.View.{listed, view};

use crate::children::Children;
use crate::tree::NormalExpr;
use vast_rows::Stack;

/// A part of an expression.
#[derive(Drop)]
pub(crate) enum Value<'t> {
    /// A tree.
    Tree(Box<NormalExpr>),
    /// A list of trees.
    Trees(Children<NormalExpr>),
    /// A name that waits.
    Bytes(&'t str),
}

/// The parts that were made, the last on top.
pub(crate) type Values<'t> = Stack<Value<'t>>;

/// The last part, if it is a tree.
pub(crate) fn pop_tree(values: &mut Values<'_>) -> Option<Box<NormalExpr>>
    ensures { MatchOption result
        (take_tree (denoted values.old) ≡ None)
        (λ x. take_tree (denoted values.old) ≡ Some (view x.value, denoted values.new)) }
{
    match values.pop() {
        Some(Value::Tree(tree)) => Some(tree),
        _ => None,
    }
}

/// The last part, if it is a list of trees.
pub(crate) fn pop_trees(values: &mut Values<'_>) -> Option<Children<NormalExpr>>
    ensures { MatchOption result
        (take_trees (denoted values.old) ≡ None)
        (λ xs. take_trees (denoted values.old) ≡ Some (listed xs, denoted values.new)) }
{
    match values.pop() {
        Some(Value::Trees(trees)) => Some(trees),
        _ => None,
    }
}

/// The last part, if it is a name that waits.
pub(crate) fn pop_bytes<'t>(values: &mut Values<'t>) -> Option<&'t str>
    ensures { MatchOption result
        (take_bytes (denoted values.old) ≡ None)
        (λ w. take_bytes (denoted values.old) ≡ Some (w.now, denoted values.new)) }
{
    match values.pop() {
        Some(Value::Bytes(bytes)) => Some(bytes),
        _ => None,
    }
}
