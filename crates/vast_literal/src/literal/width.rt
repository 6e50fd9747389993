//! The width of a literal.

ghost use Rattle.std.specs.Prelude.{◌≡◌, ◌<◌, ◌≤◌, ◌^◌, Ok, IfOk, MatchResult, SomeIff, IsTrue};
ghost use Rattle.std.specs.List.{list_all};
ghost use Rattle.std.specs.Char.{is_ascii_digit};
ghost use Rattle.vast_literal.specs.Fault.{HasText, OnlyRefusedBy};
ghost use Rattle.vast_literal.specs.Digits.{weighted};
ghost use Rattle.vast_literal.specs.Literal.{is_decimal, bad_width_text, long_width_text, zero_width_text, wide_text, width_of};

use crate::VastFault;
use crate::pattern::MOST_BITS;
use crate::refusal::refusal;
use std::alloc::Global;

/// Whether each byte is an ASCII digit.
fn are_ascii_digits(text: &[u8]) -> bool
    ensures { result ≡ list_all is_ascii_digit text.now }
{
    text.iter().all(|byte| byte.is_ascii_digit())
}

/// Whether a text is one ASCII digit or more.
#[tactic(auto, unfolding(crate::specs::Literal::is_decimal))]
fn is_decimal(text: &[u8]) -> bool
    ensures { result ≡ is_decimal text.now }
{
    are_ascii_digits(text) && !text.is_empty()
}

/// The number that a text of ASCII digits writes, where it is below 2^64.
#[tactic(auto, using(crate::proofs::ParsedWidths::read_width))]
fn read_number(text: &str) -> Option<u64>
    requires { IsTrue (is_decimal text.now) }
    ensures { SomeIff result (weighted 10 text.now < 2 ^ 64) (weighted 10 text.now) }
{
    text.parse::<u64>().ok()
}

/// The refusal of a width with wrong digits.
#[tactic(auto, unfolding(crate::specs::Literal::bad_width_text))]
fn refuse_digits(alloc: Global, text: &str) -> VastFault
    ensures { HasText result (bad_width_text text.now) }
{
    refusal(format!(in alloc; "invalid bit width in literal `{text}`"))
}

/// The refusal of a width of 2^64 or more.
#[tactic(auto, unfolding(crate::specs::Literal::long_width_text))]
fn refuse_number(alloc: Global, width_text: &str) -> VastFault
    ensures { HasText result (long_width_text width_text.now) }
{
    refusal(format!(in alloc;
        "invalid bit width `{width_text}`: number too large to fit in target type"
    ))
}

/// The refusal of no bits.
#[tactic(auto, unfolding(crate::specs::Literal::zero_width_text))]
fn refuse_zero(alloc: Global) -> VastFault
    ensures { HasText result zero_width_text }
{
    refusal(String::from_str(alloc, "literal bit width must be greater than zero"))
}

/// The refusal of too many bits.
#[tactic(auto, unfolding(crate::specs::Literal::wide_text))]
fn refuse_wide(alloc: Global, width: u64) -> VastFault
    ensures { HasText result (wide_text width) }
{
    refusal(format!(in alloc; "literal bit width {width} exceeds maximum supported width 1048576"))
}

/// The width of a literal, 1 to [`MOST_BITS`].
#[tactic(auto, unfolding(crate::specs::Literal::width_of))]
pub fn read_width(alloc: Global, text: &str, width_text: &str) -> Result<usize, VastFault>
    ensures width { MatchResult result (λ width. width_of text.now width_text.now ≡ Ok width)
        (OnlyRefusedBy (width_of text.now width_text.now)) }
    ensures positive { IfOk result (λ width. 1 ≤ width) }
    ensures narrow { IfOk result (λ width. width ≤ 1048576) }
{
    if !is_decimal(width_text.as_bytes()) {
        return Err(refuse_digits(alloc, text));
    }
    let Some(width) = read_number(width_text) else {
        return Err(refuse_number(alloc, width_text));
    };
    if width == 0 {
        return Err(refuse_zero(alloc));
    }
    if width > MOST_BITS as u64 {
        return Err(refuse_wide(alloc, width));
    }
    Ok(width as usize)
}
