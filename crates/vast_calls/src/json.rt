//! Texts of JSON (RFC 8259, 7).

ghost use Rattle.std.specs.Prelude.{◌≡◌, ◌<◌, ◌++◌, OnOk, string_bytes, encode_utf8};
ghost use Rattle.std.specs.List.{flat_map};
ghost use Rattle.vast_calls.specs.Json.{hex_digit, code_escape, escaped, AddsJsonText};

use std::alloc::AllocError;

/// A digit in base sixteen.
fn digit(value: u8) -> char
    requires { value < 16 }
    ensures { result ≡ hex_digit value }
{
    if value < 10 {
        (b'0' + value) as char
    } else {
        (b'a' + (value - 10)) as char
    }
}

/// Appends a control character as `\u` and four digits in base sixteen.
fn push_code(text: &mut String, code: u8) -> Result<(), AllocError>
    requires { code < 128 }
    ensures { OnOk result (string_bytes text.new ≡ string_bytes text.old ++ code_escape code) }
{
    text.push_str("\\u00")?;
    text.push(digit(code / 16))?;
    text.push(digit(code % 16))
}

/// Appends a character as a text of JSON holds it.
#[tactic(auto, using(vast_literal::proofs::EscapeLaws::escaping))]
fn push_escaped(text: &mut String, character: char) -> Result<(), AllocError>
    ensures { OnOk result
        (string_bytes text.new
        ≡ string_bytes text.old ++ flat_map escaped (encode_utf8 character)) }
{
    match character {
        '"' => text.push_str("\\\""),
        '\\' => text.push_str("\\\\"),
        '\n' => text.push_str("\\n"),
        '\r' => text.push_str("\\r"),
        '\t' => text.push_str("\\t"),
        _ if character.is_ascii_control() => push_code(text, character as u8),
        _ => text.push(character),
    }
}

/// Appends the text of JSON of this content: between quotes, with escapes for quotes, backslashes and control characters.
pub fn push_json_text(text: &mut String, content: &str) -> Result<(), AllocError>
    ensures { OnOk result (AddsJsonText (string_bytes text.old) (string_bytes text.new) content.now) }
{
    text.push('"')?;
    for character in content.chars() {
        push_escaped(text, character)?;
    }
    text.push('"')?;
    Ok(())
}
