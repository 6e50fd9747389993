//! The text of a literal.

ghost use Rattle.std.specs.Prelude.{◌≡◌, ◌^◌, ◌<◌, ◌≤◌, ◌++◌, codes, IfOk, string_bytes};
ghost use Rattle.std.specs.Fmt.{decimal};
ghost use Rattle.vast_literal.specs.LiteralText.{padded_count, is_below_half, sized, signed_text, format_text};
ghost use Rattle.vast_literal.specs.Digits.{characters, grouped, lowest_digits, digit_count};

use crate::LiteralFormat;
use crate::literal::digits::{digit_count, push_digits, push_grouped};
use crate::literal::value::{complement, power_of_two};
use std::alloc::{AllocError, Global};

/// The widest literal whose zero is written in full.
const MOST_ZEROS: usize = 1024;

/// How many digits of this many bits a number of a width is written with.
fn padded_count(width: usize, value: u128, digit_bits: usize) -> usize
    requires narrow { width ≤ 1048576 }
    requires wide_digits { 1 ≤ digit_bits }
    requires few_bits { digit_bits ≤ 4 }
    ensures count { result ≡ padded_count digit_bits width value }
    ensures few { result ≤ 1048576 }
{
    if value == 0 && width > MOST_ZEROS {
        1
    } else {
        width.div_ceil(digit_bits)
    }
}

/// The text in the unsigned decimal format.
fn unsigned_text(alloc: Global, width: usize, value: u128) -> Result<String, AllocError>
    ensures { IfOk result (λ text. string_bytes text ≡ sized width (codes "'d") (decimal value)) }
{
    Ok(format!(in alloc; "{width}'d{value}")?)
}

/// Whether the highest bit of a number of a width is unset.
#[tactic(auto, using(crate::proofs::Widths::below_wide_half), unfolding(crate::specs::LiteralText::is_below_half))]
fn is_below_half(width: usize, value: u128) -> bool
    requires { 1 ≤ width }
    ensures { result ≡ is_below_half width value }
{
    match power_of_two(width - 1) {
        Some(power) => value < power,
        None => true,
    }
}

/// The text in two's complement.
#[tactic(auto, using(crate::proofs::Widths::narrow_from_high, crate::proofs::Widths::positive_from_high), unfolding(crate::specs::LiteralText::signed_text))]
fn signed_text(alloc: Global, width: usize, value: u128) -> Result<String, AllocError>
    requires positive { 1 ≤ width }
    requires fits { value < 2 ^ width }
    ensures { IfOk result (λ text. string_bytes text ≡ signed_text width value) }
{
    if is_below_half(width, value) {
        return Ok(format!(in alloc; "{width}'sd{value}")?);
    }
    let magnitude = complement(width, value);
    Ok(format!(in alloc; "-{width}'sd{magnitude}")?)
}

/// The text of a number of a width in a sized format of this many bits a digit.
fn padded_text(
    alloc: Global,
    base: &str,
    digit_bits: usize,
    width: usize,
    value: u128,
) -> Result<String, AllocError>
    requires narrow { width ≤ 1048576 }
    requires wide_digits { 1 ≤ digit_bits }
    requires few_bits { digit_bits ≤ 4 }
    ensures { IfOk result
        (λ text. string_bytes text
        ≡ sized width base.now
        (grouped (lowest_digits (2 ^ digit_bits) (padded_count digit_bits width value)
        value))) }
{
    let mut text = format!(in alloc; "{width}{base}")?;
    push_grouped(
        &mut text,
        value,
        digit_bits,
        padded_count(width, value, digit_bits),
    )?;
    Ok(text)
}

/// The text in the unsized binary format.
fn unsized_binary(alloc: Global, value: u128) -> Result<String, AllocError>
    ensures { IfOk result
        (λ text. string_bytes text
        ≡ codes "'b" ++ characters (lowest_digits 2 (digit_count 2 value) value)) }
{
    let mut text = String::from_str(alloc, "'b")?;
    push_digits(&mut text, value, 1, digit_count(value, 2))?;
    Ok(text)
}

/// The text in the unsized hexadecimal format.
fn unsized_hex(alloc: Global, value: u128) -> Result<String, AllocError>
    ensures { IfOk result
        (λ text. string_bytes text
        ≡ codes "'h" ++ grouped (lowest_digits 16 (digit_count 16 value) value)) }
{
    let mut text = String::from_str(alloc, "'h")?;
    push_grouped(&mut text, value, 4, digit_count(value, 16))?;
    Ok(text)
}

/// The text of a number of a width in a format.
#[tactic(auto, unfolding(crate::specs::LiteralText::format_text))]
pub fn literal_text(
    alloc: Global,
    format: LiteralFormat,
    width: usize,
    value: u128,
) -> Result<String, AllocError>
    requires positive { 1 ≤ width }
    requires narrow { width ≤ 1048576 }
    requires fits { value < 2 ^ width }
    ensures { IfOk result (λ text. string_bytes text ≡ format_text format width value) }
{
    match format {
        LiteralFormat::Binary => padded_text(alloc, "'b", 1, width, value),
        LiteralFormat::Hex => padded_text(alloc, "'h", 4, width, value),
        LiteralFormat::SignedDecimal => signed_text(alloc, width, value),
        LiteralFormat::UnsignedDecimal => unsigned_text(alloc, width, value),
        LiteralFormat::UnsizedBinary => unsized_binary(alloc, value),
        LiteralFormat::UnsizedDecimal => format!(in alloc; "{value}"),
        LiteralFormat::UnsizedHex => unsized_hex(alloc, value),
    }
}
