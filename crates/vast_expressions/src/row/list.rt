//! Lists of expressions.

ghost use Rattle.std.specs.Prelude.{◌≡◌, IfOk};
ghost use Rattle.vast_expressions.specs.Internal.Items.{item_view};
ghost use Rattle.vast_expressions.specs.Internal.Fused.{arguments_front, more_front, braces_front, brace_next_front};
ghost use Rattle.vast_expressions.specs.Rows.{More};
ghost use Rattle.vast_expressions.specs.Internal.Steps.{DoesAll};

use crate::event::{Event, Told};
use crate::item::Item;
use crate::row::mark::mark_code;
use crate::row::operator::expression;
use crate::sink::Sink;
use crate::source::Source;
use crate::stack::Stack;
use crate::token::Token;
use std::alloc::AllocError;
use vast_literal::Mark;

/// Expressions, perhaps none, and this mark.
#[tactic(auto, unfolding(crate::specs::Internal::Fused::arguments_front))]
pub(crate) fn arguments<'t, R: Source<'t>, S: Sink<'t>>(
    close: Mark,
    more: Item,
    source: &mut R,
    stack: &mut Stack<Item>,
    sink: &mut S,
) -> Result<bool, AllocError>
    requires { item_view more ≡ More close }
    ensures { IfOk result (λ b. DoesAll S.hears (arguments_front close) b (R.left source.old)
        stack.old stack.new (R.left source.new) sink.old sink.new) }
{
    if let Some(Token::Mark(found)) = source.peek() {
        if mark_code(found) == mark_code(close) {
            source.skip();
            sink.tell(Event::Made(Told::NoneYet))?;
            return Ok(true);
        }
    }
    stack.push_all(&[more, Item::MakeOne])?;
    expression(source, stack, sink)
}

/// Further expressions, and this mark.
#[tactic(auto, unfolding(crate::specs::Internal::Fused::more_front))]
pub(crate) fn more<'t, R: Source<'t>, S: Sink<'t>>(
    close: Mark,
    item: Item,
    source: &mut R,
    stack: &mut Stack<Item>,
    sink: &mut S,
) -> Result<bool, AllocError>
    requires { item_view item ≡ More close }
    ensures { IfOk result (λ b. DoesAll S.hears (more_front close) b (R.left source.old)
        stack.old stack.new (R.left source.new) sink.old sink.new) }
{
    match source.peek() {
        Some(Token::Mark(Mark::Comma)) => {
            source.skip();
            stack.push_all(&[item, Item::MakePush])?;
            expression(source, stack, sink)
        }
        Some(Token::Mark(found)) => {
            if mark_code(found) == mark_code(close) {
                source.skip();
                Ok(true)
            } else {
                Ok(false)
            }
        }
        _ => Ok(false),
    }
}

/// What follows an open brace.
#[tactic(auto, unfolding(crate::specs::Internal::Fused::braces_front))]
pub(crate) fn braces<'t, R: Source<'t>, S: Sink<'t>>(
    source: &mut R,
    stack: &mut Stack<Item>,
    sink: &mut S,
) -> Result<bool, AllocError>
    ensures { IfOk result (λ b. DoesAll S.hears braces_front b (R.left source.old)
        stack.old stack.new (R.left source.new) sink.old sink.new) }
{
    match source.peek() {
        Some(Token::Mark(Mark::CloseBrace)) => {
            source.skip();
            stack.push(Item::MakeConcat)?;
            sink.tell(Event::Made(Told::NoneYet))?;
            Ok(true)
        }
        _ => {
            stack.push(Item::BraceNext)?;
            expression(source, stack, sink)
        }
    }
}

/// What follows an open brace and an expression.
#[tactic(auto, unfolding(crate::specs::Internal::Fused::brace_next_front, crate::specs::Rows::brace_next_row))]
pub(crate) fn brace_next<'t, R: Source<'t>, S: Sink<'t>>(
    source: &mut R,
    stack: &mut Stack<Item>,
    sink: &mut S,
) -> Result<bool, AllocError>
    ensures { IfOk result (λ b. DoesAll S.hears brace_next_front b (R.left source.old)
        stack.old stack.new (R.left source.new) sink.old sink.new) }
{
    match source.peek() {
        Some(Token::Mark(Mark::OpenBrace)) => {
            source.skip();
            stack.push_all(&[
                Item::MakeReplicated,
                Item::TakeCloseBrace,
                Item::ArgumentsBrace,
            ])?;
            Ok(true)
        }
        _ => {
            stack.push_all(&[Item::MakeConcat, Item::MoreBrace])?;
            sink.tell(Event::Made(Told::One))?;
            Ok(true)
        }
    }
}
