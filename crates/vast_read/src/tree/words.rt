//! Words of signs and keywords.

ghost use Rattle.std.specs.Prelude.{◌≡◌, IfOk};
ghost use Rattle.vast_read.specs.Texts.{infix_of, key_of, prefix_of};

use std::alloc::{AllocError, Global};
use vast_literal::{Key, Sign};
use vast_names::Word;

/// A sign as it is written.
#[tactic(auto, using(crate::proofs::WordLaws::again))]
pub(crate) fn sign_word(alloc: Global, sign: Sign) -> Result<Word, AllocError>
    ensures prefix { IfOk result (λ w. prefix_of w ≡ sign) }
    ensures infix { IfOk result (λ w. infix_of w ≡ sign) }
{
    Word::new(alloc, sign.as_str())
}

/// A keyword as it is written.
#[tactic(auto, using(crate::proofs::WordLaws::again))]
pub(crate) fn key_word(alloc: Global, key: Key) -> Result<Word, AllocError>
    ensures { IfOk result (λ w. key_of w ≡ key) }
{
    Word::new(alloc, key.as_str())
}
