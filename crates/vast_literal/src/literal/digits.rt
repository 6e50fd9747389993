//! Digits: those that a literal is read from, and those that it is written with.

ghost use Rattle.std.specs.Prelude.{◌≡◌, ◌+◌, ◌*◌, ◌/◌, ◌%◌, ◌^◌, ◌<◌, ◌≤◌, ◌++◌, ◌∷◌, IsTrue, SomeIff, OnOk, not, string_bytes};
ghost use Rattle.std.specs.List.{list_all, list_any};
ghost use Rattle.std.specs.Char.{digit_char};
ghost use Rattle.vast_literal.specs.Digits.{is_gap, is_digit_or_gap, is_numeral, number_in, lowest_digits, digit_count, characters, separator, grouped};

use std::alloc::AllocError;

/// Whether a byte may stand among digits of a radix: a digit in either case or an underscore.
fn is_digit_or_gap(byte: u8, radix: u32) -> bool
    requires low { 2 ≤ radix }
    requires high { radix ≤ 36 }
    ensures { result ≡ is_digit_or_gap radix byte }
{
    byte == b'_' || (byte as char).is_digit(radix)
}

/// Whether each byte is a digit of a radix or an underscore.
fn are_digits_or_gaps(digits: &[u8], radix: u32) -> bool
    requires low { 2 ≤ radix }
    requires high { radix ≤ 36 }
    ensures { result ≡ list_all (is_digit_or_gap radix) digits.now }
{
    digits.iter().all(|&byte| is_digit_or_gap(byte, radix))
}

/// Whether some byte is no underscore.
fn has_more_than_gaps(digits: &[u8]) -> bool
    ensures { result ≡ list_any (λ c. not (is_gap c)) digits.now }
{
    digits.iter().any(|&byte| byte != b'_')
}

/// Whether a text is digits of a radix and underscores, with one digit at least.
#[tactic(auto, unfolding(crate::specs::Digits::is_numeral))]
pub fn is_numeral(digits: &[u8], radix: u32) -> bool
    requires low { 2 ≤ radix }
    requires high { radix ≤ 36 }
    ensures { result ≡ is_numeral radix digits.now }
{
    are_digits_or_gaps(digits, radix) && has_more_than_gaps(digits)
}

/// A number with one digit more, where it is below 2^128.
fn with_digit(number: u128, radix: u32, digit: u32) -> Option<u128>
    ensures { SomeIff result (number * radix + digit < 2 ^ 128) (number * radix + digit) }
{
    number
        .checked_mul(u128::from(radix))?
        .checked_add(u128::from(digit))
}

/// The number that digits of a radix write, where it is below 2^128.
pub fn magnitude(digits: &[u8], radix: u32) -> Option<u128>
    requires low { 2 ≤ radix }
    requires high { radix ≤ 36 }
    requires numeral { IsTrue (is_numeral radix digits.now) }
    ensures { SomeIff result (number_in radix digits.now < 2 ^ 128) (number_in radix digits.now) }
{
    let mut total: u128 = 0;
    for &byte in digits {
        if let Some(digit) = (byte as char).to_digit(radix) {
            let Some(more) = with_digit(total, radix, digit) else {
                return None
            };
            total = more;
        }
    }
    Some(total)
}

/// How many digits of a radix a number has, at least one.
pub fn digit_count(value: u128, radix: u128) -> usize
    requires { 2 ≤ radix }
    ensures count { result ≡ digit_count radix value }
    ensures few { result ≤ 128 }
{
    let mut count = 0;
    let mut rest = value;
    while rest > 0 {
        rest /= radix;
        count += 1;
    }
    if count == 0 { 1 } else { count }
}

/// The digit of a number at a place, counted from the lowest, in a radix of this many bits.
#[tactic(auto, using(crate::proofs::Numbers::digit_by_shift, crate::proofs::Numbers::digit_below, crate::proofs::Numbers::no_digit))]
fn digit_at(value: u128, digit_bits: usize, place: usize) -> u8
    requires bits { digit_bits ≤ 4 }
    requires place { place < 2 ^ 32 }
    ensures digit { result ≡ value / (2 ^ digit_bits) ^ place % 2 ^ digit_bits }
    ensures below { result < 16 }
{
    let shift = digit_bits * place;
    if shift < 128 {
        ((value >> shift) % (1 << digit_bits)) as u8
    } else {
        0
    }
}

/// The character of a digit: `0` to `9`, then `a` to `z`.
fn digit_character(digit: u8) -> char
    requires { digit < 36 }
    ensures value { result ≡ digit_char digit }
    ensures ascii { result < 128 }
{
    if digit < 10 {
        (b'0' + digit) as char
    } else {
        (b'a' + (digit - 10)) as char
    }
}

/// Appends the lowest digits of a number, the highest of them first, in a radix of this many bits.
pub fn push_digits(
    text: &mut String,
    value: u128,
    digit_bits: usize,
    count: usize,
) -> Result<(), AllocError>
    requires bits { digit_bits ≤ 4 }
    requires count { count < 2 ^ 32 }
    ensures { OnOk result
        (string_bytes text.new
        ≡ string_bytes text.old ++ characters (lowest_digits (2 ^ digit_bits) count value)) }
{
    for place in (0..count).rev() {
        text.push(digit_character(digit_at(value, digit_bits, place)))?;
    }
    Ok(())
}

/// Appends a digit that has so many after it, and an underscore where a group of four follows.
#[tactic(auto, unfolding(crate::specs::Digits::separator))]
fn push_separated(text: &mut String, digit: u8, behind: usize) -> Result<(), AllocError>
    requires { digit < 36 }
    ensures { OnOk result
        (string_bytes text.new ≡ string_bytes text.old ++ digit_char digit ∷ separator behind) }
{
    text.push(digit_character(digit))?;
    if behind > 0 && behind % 4 == 0 {
        text.push('_')
    } else {
        Ok(())
    }
}

/// Appends the lowest digits with an underscore between groups of four digits from the right.
pub fn push_grouped(
    text: &mut String,
    value: u128,
    digit_bits: usize,
    count: usize,
) -> Result<(), AllocError>
    requires bits { digit_bits ≤ 4 }
    requires count { count < 2 ^ 32 }
    ensures { OnOk result
        (string_bytes text.new
        ≡ string_bytes text.old ++ grouped (lowest_digits (2 ^ digit_bits) count value)) }
{
    for place in (0..count).rev() {
        push_separated(text, digit_at(value, digit_bits, place), place)?;
    }
    Ok(())
}
