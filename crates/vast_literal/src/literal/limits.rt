//! The numbers that the unsized formats take.

ghost use Rattle.std.specs.Prelude.{◌≡◌, Ok, MatchResult};
ghost use Rattle.vast_literal.specs.Fault.{HasText, OnlyRefusedBy};
ghost use Rattle.vast_literal.specs.LiteralText.{above_limit_text, within_limit, format_takes};

use crate::refusal::refusal;
use crate::{LiteralFormat, VastFault};
use std::alloc::Global;

/// The greatest number in the unsized decimal format, 2^31 - 1.
const MOST_DECIMAL: u128 = 2_147_483_647;

/// The greatest number in the unsized binary and hexadecimal formats, 2^32 - 1.
const MOST_BASED: u128 = 4_294_967_295;

/// The refusal of a number above a limit.
#[tactic(auto, unfolding(crate::specs::LiteralText::above_limit_text))]
fn refuse_number(alloc: Global, kind: &str, most: u128, value: u128) -> VastFault
    ensures { HasText result (above_limit_text kind.now most value) }
{
    refusal(format!(in alloc; "unsized {kind} literal magnitude {value} exceeds maximum {most}"))
}

/// Refuses a number above a limit.
#[tactic(auto, unfolding(crate::specs::LiteralText::within_limit))]
fn within_limit(alloc: Global, kind: &str, most: u128, value: u128) -> Result<(), VastFault>
    ensures { MatchResult result (λ _. within_limit kind.now most value ≡ Ok tt)
        (OnlyRefusedBy (within_limit kind.now most value)) }
{
    if value <= most {
        return Ok(());
    }
    Err(refuse_number(alloc, kind, most, value))
}

/// Refuses a number above the limit of a format.
pub fn validate(alloc: Global, format: LiteralFormat, value: u128) -> Result<(), VastFault>
    ensures { MatchResult result (λ _. format_takes format value ≡ Ok tt)
        (OnlyRefusedBy (format_takes format value)) }
{
    match format {
        LiteralFormat::UnsizedBinary => within_limit(alloc, "binary", MOST_BASED, value),
        LiteralFormat::UnsizedDecimal => within_limit(alloc, "decimal", MOST_DECIMAL, value),
        LiteralFormat::UnsizedHex => within_limit(alloc, "hexadecimal", MOST_BASED, value),
        LiteralFormat::Binary
        | LiteralFormat::Hex
        | LiteralFormat::SignedDecimal
        | LiteralFormat::UnsignedDecimal => Ok(()),
    }
}
