//! Expressions, operands and operators.

ghost use Rattle.std.specs.Prelude.{◌≡◌, true, IfOk};
ghost use Rattle.vast_expressions.specs.Internal.Fused.{ends, expression_front, operand_front, rest_front, right_front};
ghost use Rattle.vast_expressions.specs.Internal.Items.{item_view};
ghost use Rattle.vast_expressions.specs.Rows.{Right};
ghost use Rattle.vast_expressions.specs.Internal.Steps.{DoesAll};
ghost use Rattle.vast_expressions.specs.Internal.Views.{event_view};

use crate::event::{Event, Told};
use crate::item::Item;
use crate::row::primary::{name, target};
use crate::row::select::{cast_after, selects_after};
use crate::sink::Sink;
use crate::source::Source;
use crate::stack::Stack;
use crate::token::Token;
use std::alloc::AllocError;
use vast_literal::{Mark, Sign};

/// Whether what stands next goes on with no expression.
#[tactic(auto, unfolding(crate::specs::Internal::Fused::ends))]
pub(crate) fn is_end<'t, R: Source<'t>>(source: &R) -> bool
    ensures { result ≡ ends (R.left source.now) }
{
    match source.peek() {
        Some(Token::Operator(_)) => false,
        Some(Token::Mark(mark)) => {
            match mark {
                Mark::OpenParen
                | Mark::OpenBracket
                | Mark::Dot
                | Mark::Question
                | Mark::DoubleColon
                | Mark::Apostrophe => false,
                _ => true,
            }
        }
        _ => true,
    }
}

/// An expression that is this alone.
fn alone<'t, S: Sink<'t>>(event: Event<'t>, sink: &mut S) -> Result<bool, AllocError>
    ensures { IfOk result (λ b. (b ≡ true) × S.hears sink.old (event_view event.entry) sink.new) }
{
    sink.tell(event)?;
    Ok(true)
}

/// An expression.
#[tactic(auto, unfolding(crate::specs::Internal::Fused::expression_front, crate::specs::Internal::Fused::cast_front, crate::specs::Internal::Fused::selects_front))]
pub(crate) fn expression<'t, R: Source<'t>, S: Sink<'t>>(
    source: &mut R,
    stack: &mut Stack<Item>,
    sink: &mut S,
) -> Result<bool, AllocError>
    ensures { IfOk result (λ b. DoesAll S.hears expression_front b (R.left source.old)
        stack.old stack.new (R.left source.new) sink.old sink.new) }
{
    match source.peek() {
        Some(Token::Word(word)) => {
            source.skip();
            if is_end(source) {
                return alone(Event::Name(word), sink);
            }
            stack.push(Item::Rest)?;
            name(word, source, stack, sink)
        }
        Some(Token::Number(text)) => {
            source.skip();
            if is_end(source) {
                return alone(Event::Literal(text), sink);
            }
            stack.push(Item::Rest)?;
            cast_after(Event::Literal(text), source, stack, sink)
        }
        Some(Token::Based(text)) => {
            source.skip();
            if is_end(source) {
                return alone(Event::Literal(text), sink);
            }
            stack.push(Item::Rest)?;
            selects_after(Event::Literal(text), source, stack, sink)
        }
        _ => {
            stack.push(Item::Rest)?;
            operand(source, stack, sink)
        }
    }
}

/// An operand.
#[tactic(auto, unfolding(crate::specs::Internal::Fused::operand_front, crate::specs::Rows::operand_row))]
pub(crate) fn operand<'t, R: Source<'t>, S: Sink<'t>>(
    source: &mut R,
    stack: &mut Stack<Item>,
    sink: &mut S,
) -> Result<bool, AllocError>
    ensures { IfOk result (λ b. DoesAll S.hears operand_front b (R.left source.old)
        stack.old stack.new (R.left source.new) sink.old sink.new) }
{
    match source.peek() {
        Some(Token::Operator(sign)) => {
            match Item::unary(sign) {
                None => Ok(false),
                Some(told) => {
                    source.skip();
                    stack.push_all(&[told, Item::Operand])?;
                    Ok(true)
                }
            }
        }
        _ => target(source, stack, sink),
    }
}

/// The rest of an expression.
#[tactic(auto, unfolding(crate::specs::Internal::Fused::rest_front))]
pub(crate) fn rest<'t, R: Source<'t>, S: Sink<'t>>(
    source: &mut R,
    stack: &mut Stack<Item>,
    sink: &mut S,
) -> Result<bool, AllocError>
    ensures { IfOk result (λ b. DoesAll S.hears rest_front b (R.left source.old)
        stack.old stack.new (R.left source.new) sink.old sink.new) }
{
    match source.peek() {
        Some(Token::Operator(sign)) => {
            match Item::right(sign) {
                None => Ok(true),
                Some(right) => {
                    source.skip();
                    stack.push_all(&[Item::Rest, right])?;
                    operand(source, stack, sink)
                }
            }
        }
        Some(Token::Mark(Mark::Question)) => {
            source.skip();
            stack.push_all(&[Item::MakeTernary, Item::Expression, Item::TakeColon])?;
            expression(source, stack, sink)
        }
        _ => Ok(true),
    }
}

/// What binds more tightly than an operator, which is then told.
#[tactic(auto, unfolding(crate::specs::Internal::Fused::right_front))]
pub(crate) fn right<'t, R: Source<'t>, S: Sink<'t>>(
    binds: Sign,
    item: Item,
    source: &mut R,
    stack: &mut Stack<Item>,
    sink: &mut S,
) -> Result<bool, AllocError>
    requires { item_view item ≡ Right binds }
    ensures { IfOk result (λ b. DoesAll S.hears (right_front binds) b (R.left source.old)
        stack.old stack.new (R.left source.new) sink.old sink.new) }
{
    if let Some(Token::Operator(sign)) = source.peek() {
        if binds.level() < sign.level() {
            if let Some(right) = Item::right(sign) {
                source.skip();
                stack.push_all(&[item, right])?;
                return operand(source, stack, sink);
            }
        }
    }
    sink.tell(Event::Made(Told::Binary(binds)))?;
    Ok(true)
}
