//! What is found of the bytes of a file.

ghost use Rattle.std.specs.Prelude.{IfOk};
ghost use Rattle.vast_check.specs.Internal.Check.{Answers};

use crate::expected::{Expected, expected_of};
use crate::place::{Place, place_of};
use std::alloc::{AllocError, Global};
use std::str;
use vast_read::{first_token, is_derived, longest_front};

/// What is found.
#[derive(Drop)]
pub(crate) enum Answer<'t> {
    /// The grammar derives a file from them.
    Derived,
    /// They are no UTF-8: the place of the first byte that is part of no character.
    NoText(Place),
    /// They are a text, and no rule goes on at this token.
    Underived {
        place: Place,
        /// The text from the token on, up to its end.
        token: &'t str,
        expected: Expected,
    },
}

/// What is found of these bytes.
pub(crate) fn answer_of(alloc: Global, bytes: &[u8]) -> Result<Answer<'_>, AllocError>
    ensures { IfOk result (Answers bytes.now) }
{
    match str::from_utf8(bytes) {
        Ok(text) => answer_text(alloc, text),
        Err(error) => Ok(Answer::NoText(place_of(bytes, error.valid_up_to()))),
    }
}

fn answer_text(alloc: Global, text: &str) -> Result<Answer<'_>, AllocError>
    ensures { IfOk result (Answers text.now) }
{
    if is_derived(alloc, text)? {
        return Ok(Answer::Derived);
    }
    let front = longest_front(alloc, text)?;
    let (_, rest) = text.split_at(front.place);
    Ok(Answer::Underived {
        place: place_of(text.as_bytes(), front.place),
        token: first_token(rest),
        expected: expected_of(alloc, front.next)?,
    })
}
