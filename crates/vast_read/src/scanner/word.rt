//! Words: names, keywords, system words and macro words.

ghost use Rattle.std.specs.Prelude.{◌≡◌, true};
ghost use Rattle.vast_literal.specs.Scan.{is_letter};
ghost use Rattle.vast_read.specs.Internal.Scanner.{byte_at, Fronts};

use crate::scanner::class::{Class, is_letter};
use crate::scanner::front::Front;
use crate::scanner::keyword::word_token;
use crate::scanner::run::{byte_at, run_end};
use vast_expressions::Token;

/// A word, at a letter.
pub(crate) fn word<'t>(text: &'t str) -> Front<'t>
    requires { is_letter (byte_at text.now 0) ≡ true }
    ensures { Fronts result text.now }
{
    let end = run_end(text, 1, Class::Word);
    let (word, rest) = text.split_at(end);
    Front::Token(word_token(word), rest)
}

/// A system word, at its `$`.
pub(crate) fn system_word<'t>(text: &'t str) -> Front<'t>
    requires { byte_at text.now 0 ≡ 36 }
    ensures { Fronts result text.now }
{
    if !is_letter(byte_at(text, 1)) {
        return Front::Unspelled;
    }
    let (word, rest) = text.split_at(run_end(text, 2, Class::Word));
    Front::Token(Token::SystemWord(word), rest)
}

/// A macro word, at its backtick.
pub(crate) fn macro_word<'t>(text: &'t str) -> Front<'t>
    requires { byte_at text.now 0 ≡ 96 }
    ensures { Fronts result text.now }
{
    if !is_letter(byte_at(text, 1)) {
        return Front::Unspelled;
    }
    let end = run_end(text, 2, Class::Word);
    Front::Token(Token::MacroWord(&text[1..end]), &text[end..])
}
