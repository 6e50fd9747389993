//! The text of a string literal: its content between quotes, with escapes (as the crate xlsynth-vast writes them).

ghost use Rattle.std.specs.Prelude.{◌≡◌, ◌+◌, ◌<◌, ◌++◌, IsTrue, IfOk, OnOk, string_bytes, encode_utf8};
ghost use Rattle.std.specs.List.{flat_map};
ghost use Rattle.vast_literal.specs.LiteralToken.{is_string_text};
ghost use Rattle.vast_literal.specs.Quoted.{escaped, octal_escape, quoted, content_of};

use std::alloc::{AllocError, Global};

/// A digit in base eight.
fn octal_digit(value: u8) -> char
    requires { value < 8 }
    ensures { result ≡ 48 + value }
{
    (b'0' + value) as char
}

/// Appends a control character as a backslash and three digits in base eight.
fn push_octal(text: &mut String, code: u8) -> Result<(), AllocError>
    ensures { OnOk result (string_bytes text.new ≡ string_bytes text.old ++ octal_escape code) }
{
    text.push('\\')?;
    text.push(octal_digit(code / 64))?;
    text.push(octal_digit(code / 8 % 8))?;
    text.push(octal_digit(code % 8))
}

/// Appends a character as a string literal holds it.
#[tactic(auto, using(crate::proofs::EscapeLaws::escaping))]
fn push_escaped(text: &mut String, character: char) -> Result<(), AllocError>
    ensures { OnOk result
        (string_bytes text.new
        ≡ string_bytes text.old ++ flat_map escaped (encode_utf8 character)) }
{
    match character {
        '"' => text.push_str("\\\""),
        '\\' => text.push_str("\\\\"),
        '\n' => text.push_str("\\n"),
        '\r' => text.push_str("\\r"),
        '\t' => text.push_str("\\t"),
        _ if character.is_ascii_control() => push_octal(text, character as u8),
        _ => text.push(character),
    }
}

/// The text of a string literal of this content.
///
/// # Errors
/// `AllocError` where memory was refused.
pub fn quoted_text(alloc: Global, value: &str) -> Result<String, AllocError>
    ensures text { IfOk result (λ text. string_bytes text ≡ quoted value.now) }
    // It is one string token, which gives the content back.
    ensures token { IfOk result (λ text. IsTrue (is_string_text (string_bytes text))) }
    ensures undone { IfOk result (λ text. content_of (string_bytes text) ≡ value.now) }
{
    let mut text = String::from_str(alloc, "\"")?;
    for character in value.chars() {
        push_escaped(&mut text, character)?;
    }
    text.push('"')?;
    Ok(text)
}
