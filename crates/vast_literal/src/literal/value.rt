//! The value of a literal.

ghost use Rattle.std.specs.Prelude.{◌≡◌, ◌-◌, ◌^◌, ◌<◌, ◌≤◌, Ok, MatchResult, IfOk, SomeIff, true};
ghost use Rattle.vast_literal.specs.Fault.{HasText, OnlyRefusedBy};
ghost use Rattle.vast_literal.specs.Literal.{bad_digits_text, large_magnitude_text, no_fit_text, large_value_text, fits_in, modulo_width, magnitude_of, fitted, value_of};

use crate::VastFault;
use crate::literal::digits::{is_numeral, magnitude};
use crate::literal::parts::{split_radix, split_sign};
use crate::refusal::refusal;
use std::alloc::Global;

/// 2 to the power of a width, where it is below 2^128.
pub fn power_of_two(width: usize) -> Option<u128>
    ensures { SomeIff result (width < 128) (2 ^ width) }
{
    if width < 128 { Some(1 << width) } else { None }
}

/// Whether a number fits in a width; a negative one may be as low as minus 2 to the power of the width.
#[tactic(auto, using(crate::proofs::Widths::fitting), unfolding(crate::specs::Literal::fits_in))]
fn fits(width: usize, negative: bool, magnitude: u128) -> bool
    ensures { result ≡ fits_in width negative magnitude }
{
    match power_of_two(width) {
        Some(power) => magnitude < power || (negative && magnitude == power),
        None => true,
    }
}

/// 2 to the power of a width, minus a number.
pub fn complement(width: usize, magnitude: u128) -> u128
    requires narrow { width ≤ 128 }
    requires positive { 0 < magnitude }
    requires fits { magnitude ≤ 2 ^ width }
    ensures { result ≡ 2 ^ width - magnitude }
{
    match power_of_two(width) {
        Some(power) => power - magnitude,
        None => u128::MAX - magnitude + 1,
    }
}

/// Minus a number modulo 2 to the power of a width, where that is below 2^128.
#[tactic(auto, using(crate::proofs::Widths::negating))]
fn negated(width: usize, magnitude: u128) -> Option<u128>
    requires { magnitude ≤ 2 ^ width }
    ensures { SomeIff result (modulo_width width true magnitude < 2 ^ 128)
        (modulo_width width true magnitude) }
{
    if magnitude == 0 {
        return Some(0);
    }
    if width <= 128 {
        Some(complement(width, magnitude))
    } else {
        None
    }
}

/// The refusal of a value with wrong digits.
#[tactic(auto, unfolding(crate::specs::Literal::bad_digits_text))]
fn refuse_digits(alloc: Global, text: &str) -> VastFault
    ensures { HasText result (bad_digits_text text.now) }
{
    refusal(format!(in alloc; "invalid digits in literal `{text}`"))
}

/// The refusal of a value whose digits write 2^128 or more.
#[tactic(auto, unfolding(crate::specs::Literal::large_magnitude_text))]
fn refuse_magnitude(alloc: Global, text: &str) -> VastFault
    ensures { HasText result (large_magnitude_text text.now) }
{
    refusal(format!(in alloc; "literal `{text}` has a magnitude of 2^128 or more"))
}

/// The refusal of a value that needs more bits.
#[tactic(auto, unfolding(crate::specs::Literal::no_fit_text))]
fn refuse_fit(alloc: Global, text: &str, width: usize) -> VastFault
    ensures { HasText result (no_fit_text text.now width) }
{
    refusal(format!(in alloc; "literal `{text}` does not fit in {width} bits"))
}

/// The refusal of a value of 2^128 or more.
#[tactic(auto, unfolding(crate::specs::Literal::large_value_text))]
fn refuse_value(alloc: Global, text: &str) -> VastFault
    ensures { HasText result (large_value_text text.now) }
{
    refusal(format!(in alloc; "literal `{text}` has a value of 2^128 or more"))
}

/// The number that a text without a sign writes, below 2^128.
#[tactic(auto, unfolding(crate::specs::Literal::magnitude_of))]
fn read_magnitude(alloc: Global, text: &str, number: &[u8]) -> Result<u128, VastFault>
    ensures { MatchResult result (λ m. magnitude_of text.now number.now ≡ Ok m)
        (OnlyRefusedBy (magnitude_of text.now number.now)) }
{
    let (radix, digits) = split_radix(number);
    if !is_numeral(digits, radix) {
        return Err(refuse_digits(alloc, text));
    }
    match magnitude(digits, radix) {
        Some(magnitude) => Ok(magnitude),
        None => Err(refuse_magnitude(alloc, text)),
    }
}

/// The value of a number in a width, below 2^128 and below 2 to the power of the width.
#[tactic(auto, unfolding(crate::specs::Literal::fitted))]
fn fit(
    alloc: Global,
    text: &str,
    width: usize,
    negative: bool,
    magnitude: u128,
) -> Result<u128, VastFault>
    ensures value { MatchResult result
        (λ value. fitted text.now width negative magnitude ≡ Ok value)
        (OnlyRefusedBy (fitted text.now width negative magnitude)) }
    ensures fits { IfOk result (λ value. value < 2 ^ width) }
{
    if !fits(width, negative, magnitude) {
        return Err(refuse_fit(alloc, text, width));
    }
    if !negative {
        return Ok(magnitude);
    }
    match negated(width, magnitude) {
        Some(value) => Ok(value),
        None => Err(refuse_value(alloc, text)),
    }
}

/// The value of a literal of this width, below 2^128 and below 2 to the power of the width.
#[tactic(auto, unfolding(crate::specs::Literal::value_of))]
pub fn read_value(
    alloc: Global,
    text: &str,
    value_text: &str,
    width: usize,
) -> Result<u128, VastFault>
    ensures value { MatchResult result (λ value. value_of text.now value_text.now width ≡ Ok value)
        (OnlyRefusedBy (value_of text.now value_text.now width)) }
    ensures fits { IfOk result (λ value. value < 2 ^ width) }
{
    let (negative, number) = split_sign(value_text.as_bytes());
    let magnitude = read_magnitude(alloc, text, number)?;
    fit(alloc, text, width, negative, magnitude)
}
