//! Literals: numbers, based literals and strings.

ghost use Rattle.std.specs.Prelude.{◌≡◌, ◌+◌, ◌<◌, ◌≤◌, ◌^◌, [], ◌∷◌, true, length, MatchOption};
ghost use Rattle.vast_literal.specs.Scan.{is_digit, Gap};
ghost use Rattle.vast_read.specs.Lexed.{lex, unspelled};
ghost use Rattle.vast_read.specs.Internal.Scanner.{byte_at, Fronts, opens_based, is_based_tick, radix_place, IsTick, EndsString, string_part};

use crate::scanner::class::{Class, is_based_digit, is_filler, is_radix, opens_mark};
use crate::scanner::front::Front;
use crate::scanner::run::{byte_at, run_end};
use vast_expressions::Token;
use vast_literal::Mark;

/// Whether a based literal goes on at a place: an apostrophe, and after it a radix or a sign.
fn opens_based(text: &str, tick: usize) -> bool
    requires { tick ≤ length text.now }
    ensures { result ≡ is_based_tick text.now tick }
{
    let next = byte_at(text, tick + 1);
    byte_at(text, tick) == b'\'' && (is_radix(next) || next == b's')
}

/// The place of a literal's radix, after its apostrophe and the sign, where it has one.
fn radix_place(next: u8, tick: usize) -> usize
    requires { tick < 2 ^ 63 }
    ensures { result ≡ radix_place next tick }
{
    if next == b's' { tick + 2 } else { tick + 1 }
}

/// A based literal, whose digits before the apostrophe, where it has some, end at `tick`.
fn based<'t>(text: &'t str, tick: usize) -> Front<'t>
    requires tick { IsTick text.now tick }
    requires open { opens_based (byte_at text.now (tick + 1)) ≡ true }
    ensures { Fronts result text.now }
{
    let radix = radix_place(byte_at(text, tick + 1), tick);
    if !is_radix(byte_at(text, radix)) {
        return Front::Unspelled;
    }
    if !is_based_digit(byte_at(text, radix + 1)) {
        return Front::Unspelled;
    }
    let (literal, rest) = text.split_at(run_end(text, radix + 2, Class::BasedDigit));
    Front::Token(Token::Based(literal), rest)
}

/// A number, or a based literal with its width, at a digit.
pub(crate) fn number<'t>(text: &'t str) -> Front<'t>
    requires { is_digit (byte_at text.now 0) ≡ true }
    ensures { Fronts result text.now }
{
    let end = run_end(text, 1, Class::Digit);
    if opens_based(text, end) {
        return based(text, end);
    }
    let (number, rest) = text.split_at(end);
    Front::Token(Token::Number(number), rest)
}

/// What an apostrophe begins: a based literal, a filler, or the mark of a cast or a pattern.
pub(crate) fn apostrophe<'t>(text: &'t str) -> Front<'t>
    requires { byte_at text.now 0 ≡ 39 }
    ensures { Fronts result text.now }
{
    let next = byte_at(text, 1);
    if opens_based(text, 0) {
        based(text, 0)
    } else if is_filler(next) {
        let (literal, rest) = text.split_at(2);
        Front::Token(Token::Based(literal), rest)
    } else if opens_mark(next) {
        let (_, rest) = text.split_at(1);
        Front::Token(Token::Mark(Mark::Apostrophe), rest)
    } else {
        Front::Unspelled
    }
}

/// How many bytes go into a string at a byte that is no quote, by it and the byte after it: two at
/// a backslash, none where the line ends.
fn string_part(byte: u8, next: u8) -> usize
    ensures { result ≡ string_part byte next }
{
    if byte == b'\n' {
        0
    } else if byte == b'\\' {
        if next == b'\n' { 0 } else { 2 }
    } else {
        1
    }
}

/// The place after the closing quote of a string, where it has one.
fn string_end(text: &str) -> Option<usize>
    requires { byte_at text.now 0 ≡ 34 }
    ensures { MatchOption result (lex Gap text.now ≡ (unspelled ∷ [])) (EndsString text.now) }
{
    let mut place = 1;
    while place < text.len() {
        let byte = byte_at(text, place);
        if byte == b'"' {
            return Some(place + 1);
        }
        let part = string_part(byte, byte_at(text, place + 1));
        if part == 0 {
            return None;
        }
        place += part;
    }
    None
}

/// A string, at its quote.
pub(crate) fn quoted<'t>(text: &'t str) -> Front<'t>
    requires { byte_at text.now 0 ≡ 34 }
    ensures { Fronts result text.now }
{
    match string_end(text) {
        Some(end) => {
            let (string, rest) = text.split_at(end);
            Front::Token(Token::Quoted(string), rest)
        }
        None => Front::Unspelled,
    }
}
