//! Literals of up to 1,048,576 bits, read from `bits[N]:value` and written as Verilog does.

ghost use Rattle.std.specs.Prelude.{◌≡◌, ◌^◌, ◌<◌, ◌≤◌, Ok, MatchResult, IfOk, string_bytes, List, ℕ, IsTrue};
ghost use Rattle.vast_literal.specs.Fault.{HasText, OnlyRefusedBy};
ghost use Rattle.vast_literal.specs.Literal.{Bits, untyped_text, literal_of};
ghost use Rattle.vast_literal.specs.Internal.Literal.{IsLiteral};
ghost use Rattle.vast_literal.specs.Denotes.{Denotes};
ghost use Rattle.vast_literal.specs.LiteralText.{format_takes, format_text};
ghost use Rattle.vast_literal.specs.LiteralToken.{is_literal_text};
ghost use Rattle.vast_literal.specs.Spells.{Spells};

mod digits;
mod limits;
mod parts;
mod spelling;
mod value;
mod width;

use crate::VastFault;
use crate::refusal::refusal;
use std::alloc::{AllocError, Global};
use std::marker::Model;

/// How a literal is written (the crate's `LiteralFormat`).
#[derive(Clone, Copy, Debug, PartialEq, Eq, Hash)]
pub enum LiteralFormat {
    /// The width, `'b` and a digit for each bit.
    Binary,
    /// The width, `'h` and a digit for each four bits.
    Hex,
    /// The width, `'sd` and the number in two's complement.
    SignedDecimal,
    /// The width, `'d` and the number.
    UnsignedDecimal,
    /// `'b` and as few digits as do.
    UnsizedBinary,
    /// The number alone.
    UnsizedDecimal,
    /// `'h` and as few digits as do.
    UnsizedHex,
}

/// A number of a width in bits: 1 to 1,048,576 bits, below 2^128.
#[derive(Clone, Copy, Debug, PartialEq, Eq, Hash)]
pub struct Literal {
    width: usize,
    value: u128,
}

impl Model for Literal {
    ghost Value = { Bits };

    ghost view = { λ l. record { width = l.width; value = l.value } };

    ghost invariant = { λ l. IsLiteral (record { width = l.width; value = l.value }) };

    ghost inverse = { λ b. record { width = b.width; value = b.value } };
}

impl Literal {
    /// Its width in bits.
    pub fn width(&self) -> usize
        ensures width { result ≡ self.now.width }
        ensures positive { 1 ≤ result }
        ensures narrow { result ≤ 1048576 }
    {
        self.width
    }

    /// Its number, modulo 2 to the power of the width.
    pub fn value(&self) -> u128
        ensures value { result ≡ self.now.value }
        ensures fits { result < 2 ^ self.now.width }
    {
        self.value
    }

    /// Reads `bits[N]:value`: a width in decimal, then an optional sign, an optional radix mark (`0x`, `0b`, `0o` in
    /// either case) and digits, between which underscores may stand.
    ///
    /// # Errors
    /// `Refused` with the text of the first check that fails.
    pub fn parse(alloc: Global, text: &str) -> Result<Literal, VastFault>
        // The literal, or the text of the first check that fails; memory is taken for that text alone.
        ensures answer { MatchResult result (λ literal. literal_of text.now ≡ Ok literal)
            (OnlyRefusedBy (literal_of text.now)) }

        // It is what the text denotes, and a text that denotes a literal is accepted.
        ensures denoted { IfOk result (Denotes text.now) }
        ensures accepted { (bits : Bits) → Denotes text.now bits → result ≡ Ok bits }
    {
        read_literal(alloc, text)
    }

    /// Whether a format takes the number; the unsized formats have a limit.
    ///
    /// # Errors
    /// `Refused` above the format's limit.
    pub fn validate_format(&self, alloc: Global, format: LiteralFormat) -> Result<(), VastFault>
        ensures { MatchResult result (λ _. format_takes format self.now.value ≡ Ok tt)
            (OnlyRefusedBy (format_takes format self.now.value)) }
    {
        limits::validate(alloc, format, self.value)
    }

    /// Its text in a format.
    ///
    /// # Errors
    /// `AllocError` where memory was refused.
    pub fn format(&self, alloc: Global, format: LiteralFormat) -> Result<String, AllocError>
        ensures exact { IfOk result
            (λ text. string_bytes text ≡ format_text format self.now.width self.now.value) }

        // The digits write the number modulo 2 to the power of the width, or with a minus its opposite.
        ensures spells { IfOk result
            (λ text. Spells format self.now.width self.now.value (string_bytes text)) }

        // It is an optional minus and one literal token.
        ensures token { IfOk result (λ text. IsTrue (is_literal_text (string_bytes text))) }

        // No other text spells the number.
        ensures only { IfOk result
            (λ text. (other : List ℕ) → Spells format self.now.width self.now.value other
            → other ≡ string_bytes text) }
    {
        spelling::literal_text(alloc, format, self.width, self.value)
    }
}

/// The refusal of a text that is no `bits[N]:value`.
#[tactic(auto, unfolding(crate::specs::Literal::untyped_text))]
fn refuse_untyped(alloc: Global, text: &str) -> VastFault
    ensures { HasText result (untyped_text text.now) }
{
    refusal(format!(in alloc; "expected a typed bits literal, got `{text}`"))
}

/// The literal of a text, by the checks in their order.
#[tactic(auto, unfolding(crate::specs::Literal::literal_of))]
fn read_literal(alloc: Global, text: &str) -> Result<Literal, VastFault>
    ensures { MatchResult result (λ literal. literal_of text.now ≡ Ok literal)
        (OnlyRefusedBy (literal_of text.now)) }
{
    let Some((width_text, value_text)) = parts::split_typed(text) else {
        return Err(refuse_untyped(alloc, text));
    };
    let width = width::read_width(alloc, text, width_text)?;
    let value = value::read_value(alloc, text, value_text, width)?;
    Ok(Literal { width, value })
}
