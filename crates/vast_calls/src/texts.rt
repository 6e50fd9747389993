//! Texts between quotes.

ghost use Rattle.std.specs.Prelude.{◌≡◌, ◌≢◌, ◌∷◌, ◌++◌, IfOk, IfSome, encode_utf8, string_bytes};
ghost use Rattle.vast_calls.specs.Written.{IsHigh, IsLow, paired as pair_code};
ghost use Rattle.vast_calls.specs.Internal.Written.{IsCodeFront, IsContentFront, IsMeaning, IsPartFront, IsTextFront};

use crate::problem::{Misfit, Problem};
use std::alloc::Global;

/// A text up to its closing quote, and what stands after that. `quoted` stands after the opening quote.
///
/// # Errors
/// Where the text isn't in the form, and out of memory.
#[tactic(auto, using(crate::proofs::Quoted::texts))]
pub(crate) fn unquoted<'a>(alloc: Global, quoted: &'a str) -> Result<(String, &'a str), Misfit>
    ensures { IfOk result (λ read. IsTextFront quoted.now (string_bytes read.0) read.1.now) }
{
    match quoted.split_once('"') {
        Some((plain, behind)) if !plain.contains('\\') => {
            Ok((String::from_str(alloc, plain)?, behind))
        }
        _ => escaped(alloc, quoted),
    }
}

/// The same of a text that may have escapes.
#[tactic(auto, using(crate::proofs::Quoted::texts))]
fn escaped<'a>(alloc: Global, quoted: &'a str) -> Result<(String, &'a str), Misfit>
    ensures { IfOk result (λ read. IsTextFront quoted.now (string_bytes read.0) read.1.now) }
{
    let mut text = String::new(alloc);
    let mut rest = quoted;
    for _ in 0..quoted.len() {
        match first_char(rest) {
            None => break,
            Some(('"', behind)) => return Ok((text, behind)),
            Some((c, behind)) => {
                let (c, behind) = meant(rest, c, behind)?;
                text.push(c)?;
                rest = behind;
            }
        }
    }
    Err(misfit(quoted, Problem::OpenText))
}

/// The first character, and what stands after it.
fn first_char(text: &str) -> Option<(char, &str)>
    ensures { IfSome result (λ read. text.now ≡ encode_utf8 read.0 ++ read.1.now) }
{
    let mut chars = text.chars();
    let c = chars.next()?;
    Some((c, chars.as_str()))
}

/// What the character at the front means, and what stands after that. `at` begins with it, `rest` stands after it.
#[tactic(auto, using(crate::proofs::Quoted::fronts))]
fn meant<'a>(at: &str, c: char, rest: &'a str) -> Result<(char, &'a str), Misfit>
    ensures { IfOk result
        (λ read. c ≢ 34 → IsContentFront (encode_utf8 c ++ rest.now) read.0 read.1.now) }
{
    if c == '\\' {
        return unescaped(at, rest);
    }
    Ok((c, rest))
}

fn misfit(rest: &str, problem: Problem) -> Misfit {
    let left = rest.len();
    Misfit { left, problem }
}

/// What an escape stands for, and what stands after it. `at` begins with its backslash, `rest` stands after that.
#[tactic(auto, using(crate::proofs::Quoted::parts))]
fn unescaped<'a>(at: &str, rest: &'a str) -> Result<(char, &'a str), Misfit>
    ensures { IfOk result (λ read. IsPartFront (92 ∷ rest.now) read.0 read.1.now) }
{
    let Some((letter, behind)) = first_char(rest) else {
        return Err(misfit(at, Problem::OpenText));
    };
    if letter == 'u' {
        return code(at, behind);
    }
    match meaning(letter) {
        Some(c) => Ok((c, behind)),
        None => Err(misfit(at, Problem::UnknownEscape)),
    }
}

/// What the letter means after a backslash.
fn meaning(letter: char) -> Option<char>
    ensures { IfSome result (λ c. IsMeaning letter c) }
{
    match letter {
        '"' => Some('"'),
        '\\' => Some('\\'),
        '/' => Some('/'),
        'n' => Some('\n'),
        't' => Some('\t'),
        'r' => Some('\r'),
        'b' => Some('\u{8}'),
        'f' => Some('\u{c}'),
        _ => None,
    }
}

/// The character of `\uXXXX`, or of two such that are a surrogate pair.
#[tactic(auto, using(crate::proofs::Quoted::codes))]
fn code<'a>(at: &str, rest: &'a str) -> Result<(char, &'a str), Misfit>
    ensures { IfOk result (λ read. IsPartFront (92 ∷ 117 ∷ rest.now) read.0 read.1.now) }
{
    let (first, rest) = hex(at, rest)?;
    if let Some(c) = char::from_u32(first) {
        return Ok((c, rest));
    }
    let lone = misfit(at, Problem::LoneSurrogate);
    let (second, rest) = match rest.strip_prefix("\\u") {
        Some(behind) => hex(at, behind)?,
        None => return Err(lone),
    };
    match paired(first, second) {
        Some(c) => Ok((c, rest)),
        None => Err(lone),
    }
}

/// The character of a surrogate pair.
fn paired(high: u32, low: u32) -> Option<char>
    ensures { IfSome result (λ c. IsHigh high × IsLow low × (c ≡ pair_code high low)) }
{
    if (0xD800..0xDC00).contains(&high) && (0xDC00..0xE000).contains(&low) {
        char::from_u32(0x10000 + (high - 0xD800) * 0x400 + (low - 0xDC00))
    } else {
        None
    }
}

/// The number of four hexadecimal digits, and what stands after them.
#[tactic(auto, using(crate::proofs::Quoted::hexes))]
fn hex<'a>(at: &str, rest: &'a str) -> Result<(u32, &'a str), Misfit>
    ensures { IfOk result (λ read. IsCodeFront rest.now read.0 read.1.now) }
{
    match rest.split_at_checked(4) {
        Some((digits, rest)) if digits.bytes().all(|byte| byte.is_ascii_hexdigit()) => {
            match u32::from_str_radix(digits, 16) {
                Ok(number) => Ok((number, rest)),
                Err(_) => Err(misfit(at, Problem::UnknownEscape)),
            }
        }
        _ => Err(misfit(at, Problem::UnknownEscape)),
    }
}
