//! Numbers as words.

ghost use Rattle.std.specs.Prelude.{◌≡◌, IfOk};
ghost use Rattle.std.specs.Fmt.{signed_decimal};

use std::alloc::{AllocError, Global};
use vast_names::Word;

/// The number in decimal.
#[tactic(auto, using(vast_literal::proofs::NumberLaws::signed_text))]
pub(crate) fn decimal_word(alloc: Global, number: i64) -> Result<Word, AllocError>
    ensures { IfOk result (λ word. word ≡ signed_decimal number) }
{
    let text = format!(in alloc; "{number}")?;
    Word::from_string(alloc, text)
}
