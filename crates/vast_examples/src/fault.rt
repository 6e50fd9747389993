//! Why an example has no text.

use std::alloc::AllocError;
use thiserror::Error;
use xlsynth_vast::VastFault;

/// Why an example has no text.
#[derive(Debug, Drop, Error)]
pub enum ExampleFault {
    /// No example has the name.
    #[error("unknown example")]
    Unknown,
    /// A handle that was passed in is another file's.
    #[error("a handle of another file")]
    Foreign,
    /// A name that was passed in is taken.
    #[error("a name that is taken")]
    Taken,
    /// A width that was passed in is below 1.
    #[error("a width below 1")]
    Width,
    /// A depth that was passed in is no power of two above 1.
    #[error("a depth that is no power of two above 1")]
    Depth,
    /// A bit has no clock.
    #[error("a number of clocks below 1")]
    Clocks,
    /// A call was refused, or memory was.
    #[error(transparent)]
    Refused(#[from] VastFault),
    /// Memory was refused.
    #[error("out of memory")]
    Memory(#[from(alloc)] AllocError),
}
