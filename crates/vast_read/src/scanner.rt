//! The scan of a text, token by token.

ghost use Rattle.std.specs.Prelude.{◌≡◌, ◌<◌, length, true};
ghost use Rattle.vast_literal.specs.Scan.{Gap, is_space};
ghost use Rattle.vast_read.specs.Behind.{Behind};
ghost use Rattle.vast_read.specs.Internal.Position.{IsBehind, position_view};
ghost use Rattle.vast_read.specs.Internal.Scanner.{byte_at, Fronts, IsGap};
ghost use Rattle.vast_read.specs.Lexed.{lex};
ghost use Rattle.vast_read.specs.Places.{BeginsWithoutGap};

use crate::scanner::class::{Class, is_digit, is_letter, is_space};
use crate::scanner::front::Front;
use crate::scanner::literal::{apostrophe, number, quoted};
use crate::scanner::run::{byte_at, run_end};
use crate::scanner::sign::sign;
use crate::scanner::word::{macro_word, system_word, word};

mod class;
mod front;
mod keyword;
mod literal;
mod run;
mod sign;
mod word;

pub(crate) use front::Position;

/// The text from its first token on, and what stands there. It takes no memory.
pub(crate) fn first_of<'t>(text: &'t str) -> (&'t str, Position<'t>)
    ensures next { position_view result.1 ≡ lex Gap text.now }
    ensures behind { IsBehind text.now result.1 }
    ensures tokens { lex Gap result.0.now ≡ lex Gap text.now }
    ensures from { Behind text.now result.0.now }
    ensures front { BeginsWithoutGap result.0.now }
{
    let mut rest = text;
    while !rest.is_empty() {
        match front_of(rest) {
            Front::Gap(behind) => rest = behind,
            Front::Token(token, behind) => return (rest, Position::Token(token, behind)),
            Front::Unspelled => return (rest, Position::Unspelled),
        }
    }
    (rest, Position::End)
}

/// What stands at the front of a text.
fn front_of<'t>(text: &'t str) -> Front<'t>
    requires { 0 < length text.now }
    ensures front { Fronts result text.now }
    ensures space { is_space (byte_at text.now 0) ≡ true → IsGap result }
    ensures comment { byte_at text.now 0 ≡ 47 → byte_at text.now 1 ≡ 47 → IsGap result }
{
    let first = byte_at(text, 0);
    if is_space(first) {
        let (_, rest) = text.split_at(run_end(text, 1, Class::Space));
        Front::Gap(rest)
    } else if is_letter(first) {
        word(text)
    } else if is_digit(first) {
        number(text)
    } else if first == b'$' {
        system_word(text)
    } else if first == b'`' {
        macro_word(text)
    } else if first == b'"' {
        quoted(text)
    } else if first == b'\'' {
        apostrophe(text)
    } else {
        sign(text)
    }
}
