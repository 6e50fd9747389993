//! Why a call returns no result: it was refused by name, or memory was.

ghost use Rattle.std.specs.Prelude.{◌≡◌, IfOk, string_bytes, alloc_error};
ghost use Rattle.vast_literal.specs.declared.error.VastFault.TheVariants.{Memory};

use std::alloc::{AllocError, AllocFailed, Global};
use thiserror::Error;

/// A refusal, with its text. Equal exactly where the texts are (the crate's `VastError`).
#[derive(Debug, Drop, PartialEq, Eq, Error)]
#[error("{0}")]
pub struct VastError(pub String);

impl VastError {
    /// A copy of the refusal. In Rust this is `Clone`, which can't say that memory was refused.
    ///
    /// # Errors
    /// `AllocError` where the text's memory was refused.
    pub fn clone(&self, alloc: Global) -> Result<VastError, AllocError>
        ensures { IfOk result (λ copy. string_bytes copy.0 ≡ string_bytes self.now.0) }
    {
        Ok(VastError(String::from_str(alloc, &self.0)?))
    }
}

/// What a call returns that both may be refused by name and takes memory.
#[derive(Debug, Drop, Error)]
pub enum VastFault {
    /// The call was refused; the text says why.
    #[error("{0}")]
    Refused(VastError),
    /// A growth was refused. The file is as it was before the call; after a helper, which makes several calls, it may
    /// hold nodes that nothing uses, and its text is the same.
    #[error("out of memory")]
    Memory(AllocError),
}

impl From<AllocError> for VastFault {
    ghost from_gives = { λ _ fault. fault ≡ Memory alloc_error };

    fn from(error: AllocError) -> VastFault {
        VastFault::Memory(error)
    }
}

impl<T: Drop> From<AllocFailed<T>> for VastFault {
    ghost from_gives = { λ _ fault. fault ≡ Memory alloc_error };

    fn from(_failed: AllocFailed<T>) -> VastFault {
        VastFault::Memory(AllocError)
    }
}
