//! Numbers, texts and words of packed calls.

ghost use Rattle.std.specs.Prelude.{◌≡◌, ◌<◌, IfSome, OnOk, map};
ghost use Rattle.vast_calls.specs.Packed.{EndsWithNumber, IsFolded, choice_words, IsNumberFront};

use crate::problem::Problem;
use std::alloc::AllocError;

/// The most digits of a number.
const MOST_DIGITS: usize = 10;

/// Which words may stand.
#[derive(Clone, Copy)]
pub(crate) enum Choice {
    /// `false` or `true`.
    Truth,
    /// `-` for none, `+` before a value.
    Sign,
    /// Of a literal.
    Format,
    /// Of a definition.
    Kind,
}

static TRUTHS: [&str; 2] = ["false", "true"];

static SIGNS: [&str; 2] = ["-", "+"];

static FORMATS: [&str; 7] = [
    "Binary",
    "Hex",
    "SignedDecimal",
    "UnsignedDecimal",
    "UnsizedBinary",
    "UnsizedDecimal",
    "UnsizedHex",
];

static KINDS: [&str; 8] = [
    "Reg",
    "Wire",
    "Logic",
    "Integer",
    "Int",
    "User",
    "UntypedEnum",
    "Genvar",
];

impl Choice {
    /// The words, in order.
    pub(crate) fn words(self) -> &'static [&'static str]
        ensures { map (λ word. word.now) result.now ≡ choice_words self }
    {
        match self {
            Choice::Truth => &TRUTHS,
            Choice::Sign => &SIGNS,
            Choice::Format => &FORMATS,
            Choice::Kind => &KINDS,
        }
    }

    /// Why something else is none of them.
    pub(crate) fn problem(self) -> Problem {
        match self {
            Choice::Truth => Problem::NoTruth,
            Choice::Sign => Problem::NoOption,
            Choice::Format => Problem::NoFormat,
            Choice::Kind => Problem::NoKind,
        }
    }
}

/// The number at the front, of 64 bits at most, and what stands after it. Most have three digits at most.
#[inline(always)]
#[tactic(auto, using(crate::proofs::PackedWords::digits))]
pub(crate) fn number_front(bytes: &[u8]) -> Option<(usize, &[u8])>
    ensures { IfSome result (λ read. IsNumberFront bytes.now read.0 read.1.now) }
{
    let Some((first, behind)) = bytes.split_first() else {
        return None;
    };
    let digit = *first as usize;
    if digit < 128 {
        return Some((digit, behind));
    }
    match short_front(behind) {
        Some((more, behind)) => Some((more * 128 + (digit - 128), behind)),
        None => digits_front(bytes, MOST_DIGITS - 1),
    }
}

/// The same of a number of one digit or two.
#[inline(always)]
#[tactic(auto, using(crate::proofs::PackedWords::digits))]
fn short_front(bytes: &[u8]) -> Option<(usize, &[u8])>
    ensures front { IfSome result (λ read. IsNumberFront bytes.now read.0 read.1.now) }
    ensures short { IfSome result (λ read. read.0 < 16384) }
{
    let Some((first, behind)) = bytes.split_first() else {
        return None;
    };
    let digit = *first as usize;
    if digit < 128 {
        return Some((digit, behind));
    }
    match behind.split_first() {
        Some((last, behind)) if *last < 128 => {
            Some((*last as usize * 128 + (digit - 128), behind))
        }
        _ => None,
    }
}

/// The same of as many digits at most after the first.
#[inline(never)]
#[tactic(auto, using(crate::proofs::PackedWords::digits))]
fn digits_front(bytes: &[u8], most: usize) -> Option<(usize, &[u8])>
    ensures { IfSome result (λ read. IsNumberFront bytes.now read.0 read.1.now) }
{
    let (first, behind) = bytes.split_first()?;
    let digit = *first as usize;
    if digit < 128 {
        return Some((digit, behind));
    }
    if most == 0 {
        return None;
    }
    let (more, behind) = digits_front(behind, most - 1)?;
    let high = more.checked_mul(128)?;
    Some((high.checked_add(digit - 128)?, behind))
}

/// The number with a sign that this one stands for.
pub(crate) fn unfolded(number: usize) -> i64
    ensures { IsFolded result number }
{
    let half = (number / 2) as i64;
    if number % 2 == 0 { half } else { -1 - half }
}

/// What the number with a sign is as one without.
pub(crate) fn folded(number: i64) -> usize
    ensures { IsFolded number result }
{
    if number < 0 {
        (number.unsigned_abs() - 1) as usize * 2 + 1
    } else {
        number as usize * 2
    }
}

/// Appends the number, in as few digits as it has.
pub fn push_number(bytes: &mut Vec<u8>, number: usize) -> Result<(), AllocError>
    ensures { OnOk result (EndsWithNumber bytes.old.items bytes.new.items number) }
{
    let mut left = number;
    while left >= 128 {
        bytes.push((left % 128) as u8 + 128)?;
        left /= 128;
    }
    bytes.push(left as u8)?;
    Ok(())
}
