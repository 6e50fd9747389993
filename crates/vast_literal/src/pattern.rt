//! The text of a binary pattern, whose digits may be unknown.

ghost use Rattle.std.specs.Prelude.{◌≡◌, IsTrue, Ok, MatchResult, IfOk, string_bytes};
ghost use Rattle.std.specs.List.{list_all};
ghost use Rattle.vast_literal.specs.Fault.{HasText, RefusedBy};
ghost use Rattle.vast_literal.specs.LiteralToken.{is_literal_text};
ghost use Rattle.vast_literal.specs.Pattern.{is_pattern_digit, is_pattern, pattern_refusal, pattern};

use crate::VastFault;
use crate::refusal::refusal;
use std::alloc::Global;

/// The most digits of a pattern, and the most bits of a literal.
pub const MOST_BITS: usize = 1_048_576;

/// Whether a byte is a digit of a pattern: 0, 1, or `?` for either.
fn is_pattern_digit(byte: u8) -> bool
    ensures { result ≡ is_pattern_digit byte }
{
    byte == b'0' || byte == b'1' || byte == b'?'
}

/// Whether each byte is a digit of a pattern.
fn has_pattern_digits(bits: &[u8]) -> bool
    ensures { result ≡ list_all is_pattern_digit bits.now }
{
    bits.iter().all(|&byte| is_pattern_digit(byte))
}

/// Whether a text is a pattern: 1 to [`MOST_BITS`] digits.
#[tactic(auto, unfolding(crate::specs::Pattern::is_pattern))]
fn is_pattern(bits: &str) -> bool
    ensures { result ≡ is_pattern bits.now }
{
    !bits.is_empty() && bits.len() <= MOST_BITS && has_pattern_digits(bits.as_bytes())
}

/// The refusal of a text that is no pattern.
#[tactic(auto, unfolding(crate::specs::Pattern::pattern_refusal))]
fn refuse_pattern(alloc: Global) -> VastFault
    ensures { HasText result pattern_refusal }
{
    refusal(String::from_str(
        alloc,
        "binary patterns require 1 to 1048576 MSB-first 0, 1, or ? digits",
    ))
}

/// The text of a binary pattern, as `3'b1?0`, from its digits with the most significant first.
///
/// # Errors
/// `Refused` where there are no digits, more than 1,048,576, or others than `0`, `1` and `?`.
#[tactic(auto, unfolding(crate::specs::Pattern::pattern))]
pub fn pattern_text(alloc: Global, bits_msb: &str) -> Result<String, VastFault>
    ensures answer { MatchResult result (λ text. pattern bits_msb.now ≡ Ok (string_bytes text))
        (λ fault. RefusedBy (pattern bits_msb.now) fault) }
    // It is one literal token.
    ensures token { IfOk result (λ text. IsTrue (is_literal_text (string_bytes text))) }
{
    if !is_pattern(bits_msb) {
        return Err(refuse_pattern(alloc));
    }
    let length = bits_msb.len();
    Ok(format!(in alloc; "{length}'b{bits_msb}")?)
}
