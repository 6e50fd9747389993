//! A refusal from its text.

ghost use Rattle.std.specs.Prelude.{◌≡◌, MatchResult, string_bytes};
ghost use Rattle.vast_literal.specs.Fault.{HasText};

use crate::{VastError, VastFault};
use std::alloc::AllocError;

/// The refusal of this text, or out of memory where the text could not be made.
pub fn refusal(text: Result<String, AllocError>) -> VastFault
    ensures { MatchResult text (λ t. HasText result (string_bytes t))
        (λ error. result ≡ VastFault.Memory error) }
{
    match text {
        Ok(text) => VastFault::Refused(VastError(text)),
        Err(error) => VastFault::Memory(error),
    }
}
