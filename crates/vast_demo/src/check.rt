//! Whether the grammar derives what is read.

ghost use Rattle.std.specs.Prelude.{◌↔◌, IsTrue, IfOk, OnErr};
ghost use Rattle.vast_shell.specs.Input.{GivesSome};
ghost use Rattle.vast_demo.specs.Check.{IsAnswer, IsDerived, IsDerivedText};

mod read_back;
#[cfg(test)]
mod tests;

use std::alloc::{AllocError, Global};
use std::io::Read;
use std::str;
use vast_shell::{InputFault, read_input};

/// Whether all that the reader gives is the UTF-8 of a text that the grammar derives.
///
/// # Errors
/// Those of [`read_input`].
pub(crate) fn check<R: Read>(alloc: Global, input: &mut R) -> Result<bool, InputFault>
    ensures answer { IfOk result (λ answer.
        IsAnswer (R.remaining input.old) (R.remaining input.new) answer) }
    ensures some { OnErr result (GivesSome (R.remaining input.old) (R.remaining input.new)) }
{
    let bytes = read_input(alloc, input)?;
    Ok(is_derived_utf8(alloc, &bytes)?)
}

fn is_derived_utf8(alloc: Global, bytes: &[u8]) -> Result<bool, AllocError>
    ensures { IfOk result (λ answer. IsTrue answer ↔ IsDerived bytes.now) }
{
    match str::from_utf8(bytes) {
        Ok(text) => is_derived(alloc, text),
        Err(_) => Ok(false),
    }
}

fn is_derived(alloc: Global, text: &str) -> Result<bool, AllocError>
    ensures { IfOk result (λ answer. IsTrue answer ↔ IsDerivedText text.now) }
{
    vast_read::is_derived(alloc, text)
}
