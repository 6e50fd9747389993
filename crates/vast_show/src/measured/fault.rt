//! Why a design isn't measured.

use std::alloc::AllocError;
use thiserror::Error;
use vast_shell::WriteFault;
use xlsynth_vast::VastFault;

/// Why a design isn't measured.
#[derive(Debug, Drop, Error)]
pub(crate) enum MeasureFault {
    /// No design has the name.
    #[error("unknown design")]
    Unknown,
    /// A size or a number of times isn't a number.
    #[error("no number")]
    Number,
    /// The words aren't three for each design.
    #[error("usage: vast_show measure DESIGN SIZE TIMES ..")]
    Words,
    /// A handle that was passed in is another file's.
    #[error("a handle of another file")]
    Foreign,
    /// A name that was passed in is taken.
    #[error("a name that is taken")]
    Taken,
    /// A write to standard output failed.
    #[error("write fault")]
    Write(#[from] WriteFault),
    /// A call was refused, or memory was.
    #[error(transparent)]
    Refused(#[from] VastFault),
    /// Memory was refused.
    #[error("out of memory")]
    Memory(#[from(alloc)] AllocError),
}

impl MeasureFault {
    /// The status that the program ends with: 2 where its words are at fault.
    pub(crate) fn status(&self) -> u8 {
        match self {
            MeasureFault::Unknown | MeasureFault::Number | MeasureFault::Words => 2,
            _ => 1,
        }
    }
}
