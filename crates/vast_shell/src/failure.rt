//! What ends a run.

ghost use Rattle.std.specs.Prelude.{◌≡◌, MatchResult};
ghost use Rattle.std.specs.IoError.{error_kind};
ghost use Rattle.vast_shell.specs.Failures.{failure_line, read_failure};
ghost use Rattle.vast_shell.specs.Output.{AppendsFront};
ghost use Rattle.vast_shell.specs.declared.failure.Failure.TheVariants.{Memory, Write};

use crate::output::{WriteFault, tell};
use std::alloc::AllocError;
use std::io;
use std::io::ErrorKind;

/// What ends a run.
#[derive(Clone, Copy)]
pub enum Failure {
    /// Memory was refused.
    Memory,
    /// A read failed.
    Read,
    /// A write failed.
    Write,
    /// There are more lines than can be counted.
    Lines,
}

impl Failure {
    /// The line that tells it.
    pub fn line(self) -> &'static str
        ensures { result.now ≡ failure_line self }
    {
        match self {
            Failure::Memory => "out of memory\n",
            Failure::Read => "read fault\n",
            Failure::Write => "write fault\n",
            Failure::Lines => "too many lines\n",
        }
    }

    /// What a read failed by.
    pub fn of_read(error: io::Error) -> Failure
        ensures { result ≡ read_failure (error_kind error) }
    {
        match error.kind() {
            ErrorKind::OutOfMemory => Failure::Memory,
            _ => Failure::Read,
        }
    }
}

impl From<AllocError> for Failure {
    ghost from_gives = { λ _ failure. failure ≡ Memory };

    fn from(_: AllocError) -> Failure {
        Failure::Memory
    }
}

impl From<WriteFault> for Failure {
    ghost from_gives = { λ _ failure. failure ≡ Write };

    fn from(_: WriteFault) -> Failure {
        Failure::Write
    }
}

/// What became of a run. What ended it is told, in one line.
pub fn ended<O: Drop, E: io::Write>(ran: Result<O, Failure>, failed: O, err: &mut E) -> O
    ensures outcome { MatchResult ran (λ outcome. result ≡ outcome) (λ _. result ≡ failed) }
    ensures told { MatchResult ran (λ _. E.contents err.new ≡ E.contents err.old)
        (λ failure. AppendsFront (E.contents err.old) (E.contents err.new) (failure_line failure)) }
{
    match ran {
        Ok(outcome) => outcome,
        Err(failure) => tell(failure.line(), failed, err),
    }
}
