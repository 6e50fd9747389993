//! Marks.

ghost use Rattle.std.specs.Prelude.{◌≡◌, IfOk};
ghost use Rattle.vast_expressions.specs.Rows.{code, take_row};
ghost use Rattle.vast_expressions.specs.Internal.Steps.{Does};

use crate::event::{Event, Told};
use crate::item::Item;
use crate::sink::Sink;
use crate::source::Source;
use crate::stack::Stack;
use crate::token::Token;
use std::alloc::AllocError;
use vast_literal::Mark;

/// A number that tells the marks apart.
#[tactic(auto, unfolding(crate::specs::Rows::code))]
pub(crate) fn mark_code(mark: Mark) -> u8
    ensures { result ≡ code mark }
{
    match mark {
        Mark::OpenParen => 0,
        Mark::CloseParen => 1,
        Mark::OpenBracket => 2,
        Mark::CloseBracket => 3,
        Mark::OpenBrace => 4,
        Mark::CloseBrace => 5,
        Mark::Comma => 6,
        Mark::Colon => 7,
        Mark::Semicolon => 8,
        Mark::Dot => 9,
        Mark::Hash => 10,
        Mark::At => 11,
        Mark::Question => 12,
        Mark::DoubleColon => 13,
        Mark::PlusColon => 14,
        Mark::Assign => 15,
        Mark::Apostrophe => 16,
    }
}

/// This mark.
#[tactic(auto, unfolding(crate::specs::Rows::take_row))]
pub(crate) fn take<'t, R: Source<'t>, S: Sink<'t>>(
    mark: Mark,
    source: &mut R,
    stack: &mut Stack<Item>,
    sink: &mut S,
) -> Result<bool, AllocError>
    ensures { IfOk result (λ b. Does S.hears (take_row mark (R.left source.old)) b
        stack.old stack.new (R.left source.new) sink.old sink.new) }
{
    match source.peek() {
        Some(Token::Mark(found)) => {
            if mark_code(found) == mark_code(mark) {
                source.skip();
                Ok(true)
            } else {
                Ok(false)
            }
        }
        _ => Ok(false),
    }
}
