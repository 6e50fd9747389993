//! How a run ends.

ghost use Rattle.std.specs.Prelude.{◌≡◌};
ghost use Rattle.vast_replay.specs.Ends.{badness, status_of};
ghost use Rattle.vast_shell.specs.Outcomes.{worse};

/// What became of lists.
#[derive(Clone, Copy, PartialEq, Eq, PartialOrd, Ord)]
pub enum Outcome {
    /// All of them were made.
    Made,
    /// All of them were made, and forms were told that are no SystemVerilog or that a tool refuses.
    Warned,
    /// A list was refused, and its output says so.
    Told,
    /// A list was refused, and nothing is printed of it.
    Refused,
    /// A line is not in the form, or a file can't be read.
    NotInForm,
    /// A stream failed or memory was refused, which ends the run.
    Failed,
}

impl Outcome {
    /// What became of these lists and of the next: the worse of the two.
    pub fn and(self, next: Outcome) -> Outcome
        ensures worst { result ≡ worse badness self next }
        ensures made { result ≡ Outcome.Made → next ≡ Outcome.Made }
        ensures both { result ≡ Outcome.Made → self ≡ Outcome.Made }
    {
        self.max(next)
    }

    /// The program's status.
    pub fn status(self) -> u8
        ensures { result ≡ status_of self }
    {
        match self {
            Outcome::Made | Outcome::Warned => 0,
            Outcome::Refused | Outcome::Failed => 1,
            Outcome::NotInForm => 2,
            Outcome::Told => 3,
        }
    }
}
