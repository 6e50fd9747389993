//! How a run ends.

ghost use Rattle.std.specs.Prelude.{◌≡◌};
ghost use Rattle.vast_check.specs.Ends.{badness, status_of};
ghost use Rattle.vast_shell.specs.Outcomes.{worse};

/// What became of files.
#[derive(Clone, Copy, Debug, PartialEq, Eq, PartialOrd, Ord)]
pub enum Outcome {
    /// What was asked is so: each file is derived, or two are the same.
    Yes,
    /// It isn't so.
    No,
    /// Some file was not read; where each is answered by itself, the files after it are.
    Unread,
    /// A stream failed or memory was refused, which ends the run.
    Failed,
}

impl Outcome {
    /// What became of these files and of the next: the worse of the two.
    pub fn and(self, next: Outcome) -> Outcome
        ensures { result ≡ worse badness self next }
    {
        self.max(next)
    }

    /// The program's status.
    pub fn status(self) -> u8
        ensures { result ≡ status_of self }
    {
        match self {
            Outcome::Yes => 0,
            Outcome::No => 1,
            Outcome::Unread | Outcome::Failed => 2,
        }
    }
}
