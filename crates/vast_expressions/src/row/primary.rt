//! Primary expressions, with their selects.

ghost use Rattle.std.specs.Prelude.{IfOk, ◌∷◌};
ghost use Rattle.vast_expressions.specs.Internal.Fused.{name_front, macro_front, target_front};
ghost use Rattle.vast_expressions.specs.Rows.{maybe_cast_row, type_name_row};
ghost use Rattle.vast_expressions.specs.Internal.Steps.{Does, DoesAll};
ghost use Rattle.vast_expressions.specs.Internal.Views.{tail};
ghost use Rattle.vast_literal.specs.Tokens.{SystemWord, Reserved, Mark as MarkToken};

use crate::event::Event;
use crate::item::Item;
use crate::row::select::{cast_after, selects_after};
use crate::sink::Sink;
use crate::source::Source;
use crate::stack::Stack;
use crate::token::Token;
use std::alloc::AllocError;
use vast_literal::{Key, Mark};

/// What a name begins.
#[tactic(auto, unfolding(crate::specs::Internal::Fused::name_front, crate::specs::Internal::Fused::cast_front, crate::specs::Rows::word_row))]
pub(crate) fn name<'t, R: Source<'t>, S: Sink<'t>>(
    word: &'t str,
    source: &mut R,
    stack: &mut Stack<Item>,
    sink: &mut S,
) -> Result<bool, AllocError>
    ensures { IfOk result (λ b. DoesAll S.hears (name_front word.now) b (R.left source.old)
        stack.old stack.new (R.left source.new) sink.old sink.new) }
{
    match source.peek() {
        Some(Token::Mark(Mark::OpenParen)) => {
            source.skip();
            stack.push_all(&[Item::Selects, Item::MakeCall, Item::ArgumentsParen])?;
            sink.tell(Event::Word(word))?;
            Ok(true)
        }
        Some(Token::Mark(Mark::DoubleColon)) => {
            source.skip();
            stack.push_all(&[
                Item::Selects,
                Item::MakePackageCast,
                Item::TakeCloseParen,
                Item::Expression,
                Item::TakeOpenParen,
                Item::TakeApostrophe,
                Item::TypeName,
            ])?;
            sink.tell(Event::Word(word))?;
            Ok(true)
        }
        _ => cast_after(Event::Name(word), source, stack, sink),
    }
}

/// What a macro's name begins.
#[tactic(auto, unfolding(crate::specs::Internal::Fused::macro_front, crate::specs::Internal::Fused::selects_front, crate::specs::Rows::macro_row))]
pub(crate) fn macro_word<'t, R: Source<'t>, S: Sink<'t>>(
    word: &'t str,
    source: &mut R,
    stack: &mut Stack<Item>,
    sink: &mut S,
) -> Result<bool, AllocError>
    ensures { IfOk result (λ b. DoesAll S.hears (macro_front word.now) b (R.left source.old)
        stack.old stack.new (R.left source.new) sink.old sink.new) }
{
    match source.peek() {
        Some(Token::Mark(Mark::OpenParen)) => {
            source.skip();
            stack.push_all(&[Item::Selects, Item::MakeMacroCall, Item::ArgumentsParen])?;
            sink.tell(Event::Word(word))?;
            Ok(true)
        }
        _ => selects_after(Event::MacroAlone(word), source, stack, sink),
    }
}

/// What a system word heads: a call, or the word alone.
#[tactic(auto, unfolding(crate::specs::Internal::Fused::target_front, crate::specs::Rows::primary_row, crate::specs::Rows::system_row))]
pub(crate) fn system_word<'t, R: Source<'t>, S: Sink<'t>>(
    word: &'t str,
    source: &mut R,
    stack: &mut Stack<Item>,
    sink: &mut S,
) -> Result<bool, AllocError>
    ensures { IfOk result (λ b. DoesAll S.hears target_front b (SystemWord word.now ∷ R.left source.old)
        stack.old stack.new (R.left source.new) sink.old sink.new) }
{
    match source.peek() {
        Some(Token::Mark(Mark::OpenParen)) => {
            source.skip();
            stack.push_all(&[Item::Selects, Item::MakeCall, Item::ArgumentsParen])?;
            sink.tell(Event::Word(word))?;
            Ok(true)
        }
        _ => {
            stack.push_all(&[Item::Selects, Item::MakeCall, Item::MakeNone])?;
            sink.tell(Event::Word(word))?;
            Ok(true)
        }
    }
}

/// What the keyword that stands next heads; one that heads nothing stays.
#[tactic(auto, unfolding(crate::specs::Internal::Fused::target_front, crate::specs::Rows::primary_row))]
pub(crate) fn word_cast<'t, R: Source<'t>, S: Sink<'t>>(
    key: Key,
    source: &mut R,
    stack: &mut Stack<Item>,
    sink: &mut S,
) -> Result<bool, AllocError>
    ensures { IfOk result (λ b. DoesAll S.hears target_front b (Reserved key ∷ tail (R.left source.old))
        stack.old stack.new (R.left source.new) sink.old sink.new) }
{
    match Item::cast(key) {
        None => Ok(false),
        Some(told) => {
            source.skip();
            stack.push_all(&[
                Item::Selects,
                told,
                Item::TakeCloseParen,
                Item::Expression,
                Item::TakeOpenParen,
                Item::TakeApostrophe,
            ])?;
            Ok(true)
        }
    }
}

/// What the mark that stands next begins; one that begins nothing stays.
#[tactic(auto, unfolding(crate::specs::Internal::Fused::target_front, crate::specs::Rows::primary_row))]
pub(crate) fn bracketed<'t, R: Source<'t>, S: Sink<'t>>(
    mark: Mark,
    source: &mut R,
    stack: &mut Stack<Item>,
    sink: &mut S,
) -> Result<bool, AllocError>
    ensures { IfOk result (λ b. DoesAll S.hears target_front b (MarkToken mark ∷ tail (R.left source.old))
        stack.old stack.new (R.left source.new) sink.old sink.new) }
{
    match mark {
        Mark::OpenParen => {
            source.skip();
            stack.push_all(&[
                Item::Selects,
                Item::MaybeCast,
                Item::TakeCloseParen,
                Item::Expression,
            ])?;
            Ok(true)
        }
        Mark::Apostrophe => {
            source.skip();
            stack.push_all(&[
                Item::Selects,
                Item::MakePattern,
                Item::ArgumentsBrace,
                Item::TakeOpenBrace,
            ])?;
            Ok(true)
        }
        Mark::OpenBrace => {
            source.skip();
            stack.push_all(&[Item::Selects, Item::Braces])?;
            Ok(true)
        }
        _ => Ok(false),
    }
}

/// A primary expression with its selects.
#[tactic(auto, unfolding(crate::specs::Internal::Fused::target_front, crate::specs::Internal::Fused::cast_front, crate::specs::Internal::Fused::selects_front, crate::specs::Rows::primary_row))]
pub(crate) fn target<'t, R: Source<'t>, S: Sink<'t>>(
    source: &mut R,
    stack: &mut Stack<Item>,
    sink: &mut S,
) -> Result<bool, AllocError>
    ensures { IfOk result (λ b. DoesAll S.hears target_front b (R.left source.old)
        stack.old stack.new (R.left source.new) sink.old sink.new) }
{
    match source.peek() {
        Some(Token::Word(word)) => {
            source.skip();
            name(word, source, stack, sink)
        }
        Some(Token::MacroWord(word)) => {
            source.skip();
            macro_word(word, source, stack, sink)
        }
        Some(Token::SystemWord(word)) => {
            source.skip();
            system_word(word, source, stack, sink)
        }
        Some(Token::Number(text)) => {
            source.skip();
            cast_after(Event::Literal(text), source, stack, sink)
        }
        Some(Token::Based(text)) => {
            source.skip();
            selects_after(Event::Literal(text), source, stack, sink)
        }
        Some(Token::Quoted(text)) => {
            source.skip();
            selects_after(Event::Text(text), source, stack, sink)
        }
        Some(Token::Reserved(key)) => word_cast(key, source, stack, sink),
        Some(Token::Mark(mark)) => bracketed(mark, source, stack, sink),
        Some(Token::Keyword(_)) | Some(Token::Operator(_)) | None => Ok(false),
    }
}

/// Perhaps what makes a cast of what stands before.
#[tactic(auto, unfolding(crate::specs::Rows::maybe_cast_row))]
pub(crate) fn maybe_cast<'t, R: Source<'t>, S: Sink<'t>>(
    source: &mut R,
    stack: &mut Stack<Item>,
    sink: &mut S,
) -> Result<bool, AllocError>
    ensures { IfOk result (λ b. Does S.hears (maybe_cast_row (R.left source.old)) b
        stack.old stack.new (R.left source.new) sink.old sink.new) }
{
    match source.peek() {
        Some(Token::Mark(Mark::Apostrophe)) => {
            source.skip();
            stack.push_all(&[
                Item::MakeCast,
                Item::TakeCloseParen,
                Item::Expression,
                Item::TakeOpenParen,
            ])?;
            Ok(true)
        }
        _ => Ok(true),
    }
}

/// The name of a package's type.
#[tactic(auto, unfolding(crate::specs::Rows::type_name_row))]
pub(crate) fn type_name<'t, R: Source<'t>, S: Sink<'t>>(
    source: &mut R,
    stack: &mut Stack<Item>,
    sink: &mut S,
) -> Result<bool, AllocError>
    ensures { IfOk result (λ b. Does S.hears (type_name_row (R.left source.old)) b
        stack.old stack.new (R.left source.new) sink.old sink.new) }
{
    match source.peek() {
        Some(Token::Word(name)) => {
            source.skip();
            sink.tell(Event::Word(name))?;
            Ok(true)
        }
        _ => Ok(false),
    }
}
