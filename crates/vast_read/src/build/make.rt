//! What each event makes.
#![tactic(auto, unfolding(vast_expressions::specs::Internal::Values::grown_first, vast_expressions::specs::Internal::Values::grown_list, vast_expressions::specs::Internal::Values::grown_named, vast_expressions::specs::Internal::Values::grown_one, vast_expressions::specs::Internal::Values::grown_package, vast_expressions::specs::Internal::Values::grown_part, vast_expressions::specs::Internal::Values::grown_replicated, vast_expressions::specs::Internal::Values::grown_three, vast_expressions::specs::Internal::Values::grown_two))]

ghost use Rattle.std.specs.Prelude.{◌≡◌, ◌∷◌, IfOk};
ghost use Rattle.vast_expressions.specs.Internal.Values.{Grown, Tree, grown, grown_first, grown_list, grown_made, grown_named, grown_one, grown_package, grown_part, grown_push, grown_replicated, grown_three, grown_two};
ghost use Rattle.vast_expressions.specs.Internal.Views.{event_view};
ghost use Rattle.vast_literal.specs.NormalExpr.{Binary, Call, Cast, Concat, Index, MacroCall, MemberOf, Pattern, Slice, Ternary, Unary, WordCast};
ghost use Rattle.vast_read.specs.Internal.Values.{denoted};
ghost use Rattle.vast_read.specs.View.{view};

use crate::build::value::{Value, Values, pop_bytes, pop_tree, pop_trees};
use crate::children::Children;
use crate::macros::wanted;
use crate::tree::NormalExpr;
use crate::tree::words::{key_word, sign_word};
use std::alloc::{AllocError, Global};
use vast_expressions::{Event, Told};
use vast_literal::{Key, Sign};
use vast_names::Word;

/// One more tree on top.
#[tactic(auto)]
fn put_tree(alloc: Global, tree: NormalExpr, values: &mut Values<'_>) -> Result<(), AllocError>
    ensures { IfOk result (λ _. denoted values.new ≡ (Tree (view tree) ∷ denoted values.old)) }
{
    let tree = Box::new(alloc, tree)?;
    values.push(Value::Tree(tree))
}

/// A sign before a tree.
fn make_unary(alloc: Global, sign: Sign, values: &mut Values<'_>) -> Result<(), AllocError>
    ensures { IfOk result (λ _. Grown (grown_one (Unary sign) (denoted values.old))
        (denoted values.new)) }
{
    let operand = wanted!(pop_tree(values));
    let made = NormalExpr::Unary(sign_word(alloc, sign)?, operand);
    put_tree(alloc, made, values)
}

/// A cast by a keyword.
fn make_word_cast(alloc: Global, key: Key, values: &mut Values<'_>) -> Result<(), AllocError>
    ensures { IfOk result (λ _. Grown (grown_one (WordCast key) (denoted values.old))
        (denoted values.new)) }
{
    let operand = wanted!(pop_tree(values));
    let made = NormalExpr::WordCast(key_word(alloc, key)?, operand);
    put_tree(alloc, made, values)
}

/// A sign between two trees.
fn make_binary(alloc: Global, sign: Sign, values: &mut Values<'_>) -> Result<(), AllocError>
    ensures { IfOk result (λ _. Grown (grown_two (Binary sign) (denoted values.old))
        (denoted values.new)) }
{
    let right = wanted!(pop_tree(values));
    let left = wanted!(pop_tree(values));
    let made = NormalExpr::Binary(sign_word(alloc, sign)?, left, right);
    put_tree(alloc, made, values)
}

/// An index.
fn make_index(alloc: Global, values: &mut Values<'_>) -> Result<(), AllocError>
    ensures { IfOk result (λ _. Grown (grown_two Index (denoted values.old)) (denoted values.new)) }
{
    let index = wanted!(pop_tree(values));
    let subject = wanted!(pop_tree(values));
    put_tree(alloc, NormalExpr::Index(subject, index), values)
}

/// A cast by a tree.
fn make_cast(alloc: Global, values: &mut Values<'_>) -> Result<(), AllocError>
    ensures { IfOk result (λ _. Grown (grown_two Cast (denoted values.old)) (denoted values.new)) }
{
    let operand = wanted!(pop_tree(values));
    let head = wanted!(pop_tree(values));
    put_tree(alloc, NormalExpr::Cast(head, operand), values)
}

/// A part select of this width.
fn make_part_select(alloc: Global, width: &str, values: &mut Values<'_>) -> Result<(), AllocError>
    ensures { IfOk result (λ _. Grown (grown_part width.now (denoted values.old))
        (denoted values.new)) }
{
    let start = wanted!(pop_tree(values));
    let subject = wanted!(pop_tree(values));
    let made = NormalExpr::PartSelect(subject, start, Word::new(alloc, width)?);
    put_tree(alloc, made, values)
}

/// The member of this name.
fn make_member(alloc: Global, name: &str, values: &mut Values<'_>) -> Result<(), AllocError>
    ensures { IfOk result (λ _. Grown (grown_one (λ s. MemberOf s name.now) (denoted values.old))
        (denoted values.new)) }
{
    let subject = wanted!(pop_tree(values));
    let made = NormalExpr::MemberOf(subject, Word::new(alloc, name)?);
    put_tree(alloc, made, values)
}

/// A choice.
fn make_ternary(alloc: Global, values: &mut Values<'_>) -> Result<(), AllocError>
    ensures { IfOk result (λ _. Grown (grown_three Ternary (denoted values.old))
        (denoted values.new)) }
{
    let second = wanted!(pop_tree(values));
    let first = wanted!(pop_tree(values));
    let condition = wanted!(pop_tree(values));
    put_tree(alloc, NormalExpr::Ternary(condition, first, second), values)
}

/// A slice.
fn make_slice(alloc: Global, values: &mut Values<'_>) -> Result<(), AllocError>
    ensures { IfOk result (λ _. Grown (grown_three Slice (denoted values.old))
        (denoted values.new)) }
{
    let low = wanted!(pop_tree(values));
    let high = wanted!(pop_tree(values));
    let subject = wanted!(pop_tree(values));
    put_tree(alloc, NormalExpr::Slice(subject, high, low), values)
}

/// A concatenation.
fn make_concat(alloc: Global, values: &mut Values<'_>) -> Result<(), AllocError>
    ensures { IfOk result (λ _. Grown (grown_list Concat (denoted values.old))
        (denoted values.new)) }
{
    let xs = wanted!(pop_trees(values));
    put_tree(alloc, NormalExpr::Concat(xs), values)
}

/// An array pattern.
fn make_pattern(alloc: Global, values: &mut Values<'_>) -> Result<(), AllocError>
    ensures { IfOk result (λ _. Grown (grown_list Pattern (denoted values.old))
        (denoted values.new)) }
{
    let xs = wanted!(pop_trees(values));
    put_tree(alloc, NormalExpr::Pattern(xs), values)
}

/// A replication.
fn make_replicated(alloc: Global, values: &mut Values<'_>) -> Result<(), AllocError>
    ensures { IfOk result (λ _. Grown (grown_replicated (denoted values.old))
        (denoted values.new)) }
{
    let xs = wanted!(pop_trees(values));
    let count = wanted!(pop_tree(values));
    put_tree(alloc, NormalExpr::Replicated(count, xs), values)
}

/// A call.
fn make_call(alloc: Global, values: &mut Values<'_>) -> Result<(), AllocError>
    ensures { IfOk result (λ _. Grown (grown_named Call (denoted values.old))
        (denoted values.new)) }
{
    let xs = wanted!(pop_trees(values));
    let name = wanted!(pop_bytes(values));
    let name = Box::new(alloc, Word::new(alloc, name)?)?;
    put_tree(alloc, NormalExpr::Call(name, xs), values)
}

/// The use of a macro with arguments.
fn make_macro_call(alloc: Global, values: &mut Values<'_>) -> Result<(), AllocError>
    ensures { IfOk result (λ _. Grown (grown_named MacroCall (denoted values.old))
        (denoted values.new)) }
{
    let xs = wanted!(pop_trees(values));
    let name = wanted!(pop_bytes(values));
    let name = Box::new(alloc, Word::new(alloc, name)?)?;
    put_tree(alloc, NormalExpr::MacroCall(name, xs), values)
}

/// A cast by a package's type.
fn make_package_cast(alloc: Global, values: &mut Values<'_>) -> Result<(), AllocError>
    ensures { IfOk result (λ _. Grown (grown_package (denoted values.old)) (denoted values.new)) }
{
    let operand = wanted!(pop_tree(values));
    let name = wanted!(pop_bytes(values));
    let scope = wanted!(pop_bytes(values));
    let scope = Box::new(alloc, Word::new(alloc, scope)?)?;
    let made = NormalExpr::PackageCast(scope, Word::new(alloc, name)?, operand);
    put_tree(alloc, made, values)
}

/// A list of one tree.
fn make_first(alloc: Global, values: &mut Values<'_>) -> Result<(), AllocError>
    ensures { IfOk result (λ _. Grown (grown_first (denoted values.old)) (denoted values.new)) }
{
    let x = wanted!(pop_tree(values));
    let mut trees = Children::new(alloc);
    trees.push(Box::into_inner(x))?;
    values.push(Value::Trees(trees))
}

/// One more tree at the end of a list.
#[tactic(auto, using(crate::proofs::Trees::listed_more), unfolding(vast_expressions::specs::Internal::Values::grown_push))]
fn make_push(values: &mut Values<'_>) -> Result<(), AllocError>
    ensures { IfOk result (λ _. Grown (grown_push (denoted values.old)) (denoted values.new)) }
{
    let x = wanted!(pop_tree(values));
    let mut trees = wanted!(pop_trees(values));
    trees.push(Box::into_inner(x))?;
    values.push(Value::Trees(trees))
}

/// What is made of what was made before.
#[tactic(auto)]
fn make(alloc: Global, told: Told, values: &mut Values<'_>) -> Result<(), AllocError>
    ensures { IfOk result (λ _. Grown (grown_made told (denoted values.old)) (denoted values.new)) }
{
    match told {
        Told::Unary(sign) => make_unary(alloc, sign, values),
        Told::Binary(sign) => make_binary(alloc, sign, values),
        Told::Ternary => make_ternary(alloc, values),
        Told::Index => make_index(alloc, values),
        Told::Slice => make_slice(alloc, values),
        Told::NoneYet => values.push(Value::Trees(Children::new(alloc))),
        Told::One => make_first(alloc, values),
        Told::Push => make_push(values),
        Told::Concat => make_concat(alloc, values),
        Told::Pattern => make_pattern(alloc, values),
        Told::Replicated => make_replicated(alloc, values),
        Told::Call => make_call(alloc, values),
        Told::MacroCall => make_macro_call(alloc, values),
        Told::Cast => make_cast(alloc, values),
        Told::PackageCast => make_package_cast(alloc, values),
        Told::WordCast(key) => make_word_cast(alloc, key, values),
    }
}

/// What an event makes.
#[tactic(auto)]
pub(crate) fn hear<'t>(
    alloc: Global,
    event: Event<'t>,
    values: &mut Values<'t>,
) -> Result<(), AllocError>
    ensures { IfOk result (λ _. Grown (grown (event_view event.entry) (denoted values.old))
        (denoted values.new)) }
{
    match event {
        Event::Name(text) => put_tree(alloc, NormalExpr::Name(Word::new(alloc, text)?), values),
        Event::Literal(text) => {
            put_tree(alloc, NormalExpr::Literal(Word::new(alloc, text)?), values)
        }
        Event::Text(text) => put_tree(alloc, NormalExpr::Text(Word::new(alloc, text)?), values),
        Event::MacroAlone(text) => {
            put_tree(
                alloc,
                NormalExpr::MacroAlone(Word::new(alloc, text)?),
                values,
            )
        }
        Event::Word(text) => values.push(Value::Bytes(text)),
        Event::PartSelect(width) => make_part_select(alloc, width, values),
        Event::MemberOf(name) => make_member(alloc, name, values),
        Event::Made(told) => make(alloc, told, values),
    }
}
