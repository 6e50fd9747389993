//! Reading a whole input, of no more bytes than a checked text may have.

ghost use Rattle.std.specs.Prelude.{◌≡◌, IfOk, IsErrOf, OnErr};
ghost use Rattle.vast_shell.specs.Input.{GivesAll, GivesSome, GivesTooMany};
ghost use Rattle.vast_shell.specs.declared.input.InputFault.TheVariants.{Memory};

use std::alloc::{AllocError, Global};
use std::io::{ErrorKind, Read};

const MOST_BYTES: usize = 1 << 24;

/// Enough for one byte a read, and one byte too many.
const MOST_READS: usize = MOST_BYTES + 1;

const BUFFER_BYTES: usize = 1 << 16;

/// Why an input was not read whole.
#[derive(Drop)]
pub enum InputFault {
    /// A read failed with this kind of error.
    Read(ErrorKind),
    /// There are more than 16,777,216 bytes.
    Length,
    /// 16,777,217 reads, some of them interrupted, came to no end.
    Reads,
    /// Memory was refused.
    Memory,
}

impl From<AllocError> for InputFault {
    ghost from_gives = { λ _ fault. fault ≡ Memory };

    fn from(_: AllocError) -> InputFault {
        InputFault::Memory
    }
}

/// All that the reader gives to its end, in no more than 16,777,217 reads. An interrupted read is tried again, and
/// counts as one.
///
/// # Errors
/// A failed read, more than 16,777,216 bytes, no end after the last read, out of memory. No more than 16,777,217 bytes
/// are read then.
pub fn read_input<R: Read>(alloc: Global, input: &mut R) -> Result<Vec<u8>, InputFault>
    ensures all { IfOk result (λ bytes.
        GivesAll (R.remaining input.old) (R.remaining input.new) bytes.items) }
    ensures some { OnErr result (GivesSome (R.remaining input.old) (R.remaining input.new)) }
    ensures long { IsErrOf result InputFault.Length →
        GivesTooMany (R.remaining input.old) (R.remaining input.new) }
    ensures retried { IsErrOf result (InputFault.Read ErrorKind.Interrupted) → ⊥ }
{
    let mut bytes = Vec::new(alloc);
    let mut buffer = [0; BUFFER_BYTES];
    for _ in 0..MOST_READS {
        // One byte too many is seen.
        let room = (MOST_BYTES + 1 - bytes.len()).min(BUFFER_BYTES);
        match input.read(&mut buffer[..room]) {
            Ok(0) => return Ok(bytes),
            Ok(count) => bytes.extend_from_slice(&buffer[..count])?,
            Err(error) => {
                if error.kind() != ErrorKind::Interrupted {
                    return Err(InputFault::Read(error.kind()));
                }
            }
        }
        if bytes.len() > MOST_BYTES {
            return Err(InputFault::Length);
        }
    }
    Err(InputFault::Reads)
}
