//! Selects and casts after what was read.

ghost use Rattle.std.specs.Prelude.{IfOk};
ghost use Rattle.vast_expressions.specs.Internal.Fused.{cast_front, member_name_front, selects_front, select_end_front};
ghost use Rattle.vast_expressions.specs.Rows.{Goes, Tells};
ghost use Rattle.vast_expressions.specs.Internal.Steps.{DoesAll};
ghost use Rattle.vast_expressions.specs.Internal.Views.{event_view};

use crate::event::{Event, Told};
use crate::item::Item;
use crate::row::operator::expression;
use crate::sink::Sink;
use crate::source::Source;
use crate::stack::Stack;
use crate::token::Token;
use std::alloc::AllocError;
use vast_literal::Mark;

/// Tells this, and begins the selects after it.
#[tactic(auto, unfolding(crate::specs::Internal::Fused::selects_front))]
pub(crate) fn selects_after<'t, R: Source<'t>, S: Sink<'t>>(
    event: Event<'t>,
    source: &mut R,
    stack: &mut Stack<Item>,
    sink: &mut S,
) -> Result<bool, AllocError>
    ensures { IfOk result (λ b. DoesAll S.hears (selects_front (Tells (event_view event.entry))) b (R.left source.old)
        stack.old stack.new (R.left source.new) sink.old sink.new) }
{
    match source.peek() {
        Some(Token::Mark(Mark::OpenBracket)) => {
            source.skip();
            stack.push_all(&[Item::SelectEnd, Item::Expression])?;
        }
        Some(Token::Mark(Mark::Dot)) => {
            source.skip();
            stack.push(Item::MemberName)?;
        }
        _ => {}
    }
    sink.tell(event)?;
    Ok(true)
}

/// Tells this, and begins a cast by it, or the selects after it.
#[tactic(auto, unfolding(crate::specs::Internal::Fused::cast_front))]
pub(crate) fn cast_after<'t, R: Source<'t>, S: Sink<'t>>(
    event: Event<'t>,
    source: &mut R,
    stack: &mut Stack<Item>,
    sink: &mut S,
) -> Result<bool, AllocError>
    ensures { IfOk result (λ b. DoesAll S.hears (cast_front (Tells (event_view event.entry))) b (R.left source.old)
        stack.old stack.new (R.left source.new) sink.old sink.new) }
{
    match source.peek() {
        Some(Token::Mark(Mark::Apostrophe)) => {
            source.skip();
            stack.push_all(&[
                Item::Selects,
                Item::MakeCast,
                Item::TakeCloseParen,
                Item::Expression,
                Item::TakeOpenParen,
            ])?;
        }
        Some(Token::Mark(Mark::OpenBracket)) => {
            source.skip();
            stack.push_all(&[Item::SelectEnd, Item::Expression])?;
        }
        Some(Token::Mark(Mark::Dot)) => {
            source.skip();
            stack.push(Item::MemberName)?;
        }
        _ => {}
    }
    sink.tell(event)?;
    Ok(true)
}

/// Selects after what was told.
#[tactic(auto, unfolding(crate::specs::Internal::Fused::selects_front))]
pub(crate) fn selects<'t, R: Source<'t>, S: Sink<'t>>(
    source: &mut R,
    stack: &mut Stack<Item>,
    sink: &mut S,
) -> Result<bool, AllocError>
    ensures { IfOk result (λ b. DoesAll S.hears (selects_front Goes) b (R.left source.old)
        stack.old stack.new (R.left source.new) sink.old sink.new) }
{
    match source.peek() {
        Some(Token::Mark(Mark::OpenBracket)) => {
            source.skip();
            stack.push_all(&[Item::SelectEnd, Item::Expression])?;
        }
        Some(Token::Mark(Mark::Dot)) => {
            source.skip();
            stack.push(Item::MemberName)?;
        }
        _ => {}
    }
    Ok(true)
}

/// What follows the first bound of a select.
#[tactic(auto, unfolding(crate::specs::Internal::Fused::select_end_front, crate::specs::Rows::select_end_row, crate::specs::Internal::Fused::selects_front))]
pub(crate) fn select_end<'t, R: Source<'t>, S: Sink<'t>>(
    source: &mut R,
    stack: &mut Stack<Item>,
    sink: &mut S,
) -> Result<bool, AllocError>
    ensures { IfOk result (λ b. DoesAll S.hears select_end_front b (R.left source.old)
        stack.old stack.new (R.left source.new) sink.old sink.new) }
{
    match source.peek() {
        Some(Token::Mark(Mark::CloseBracket)) => {
            source.skip();
            selects_after(Event::Made(Told::Index), source, stack, sink)
        }
        Some(Token::Mark(Mark::Colon)) => {
            source.skip();
            stack.push_all(&[Item::Selects, Item::MakeSlice, Item::TakeCloseBracket])?;
            expression(source, stack, sink)
        }
        Some(Token::Mark(Mark::PlusColon)) => {
            source.skip();
            match source.peek() {
                Some(Token::Number(word)) => {
                    source.skip();
                    stack.push_all(&[Item::Selects, Item::TakeCloseBracket])?;
                    sink.tell(Event::PartSelect(word))?;
                    Ok(true)
                }
                _ => Ok(false),
            }
        }
        _ => Ok(false),
    }
}

/// The name of a member, and the selects after it.
#[tactic(auto, unfolding(crate::specs::Internal::Fused::member_name_front, crate::specs::Internal::Fused::selects_front))]
pub(crate) fn member_name<'t, R: Source<'t>, S: Sink<'t>>(
    source: &mut R,
    stack: &mut Stack<Item>,
    sink: &mut S,
) -> Result<bool, AllocError>
    ensures { IfOk result (λ b. DoesAll S.hears member_name_front b (R.left source.old)
        stack.old stack.new (R.left source.new) sink.old sink.new) }
{
    match source.peek() {
        Some(Token::Word(name)) => {
            source.skip();
            selects_after(Event::MemberOf(name), source, stack, sink)
        }
        _ => Ok(false),
    }
}
