//! Why a tree can't be printed.

ghost use Rattle.std.specs.Prelude.{◌≡◌};
ghost use Rattle.vast_print.specs.Printed.{refusal_text};
ghost use Rattle.vast_print.specs.declared.refusal.PrintFault.TheVariants.{Memory};

use std::alloc::AllocError;

/// A select of a named scalar whose bounds are not zero (the crate xlsynth-vast panics here).
#[derive(Clone, Copy, Debug, PartialEq, Eq)]
pub enum Refusal {
    /// An index of a named scalar by something else than a literal of value zero.
    ScalarIndex,
    /// A slice of a named scalar with a bound that is no literal of value zero.
    ScalarSlice,
}

impl Refusal {
    /// The words of the refusal.
    #[tactic(auto, unfolding(crate::specs::Printed::refusal_text))]
    pub fn text(&self) -> &'static str
        ensures { result.now ≡ refusal_text self.now }
    {
        match self {
            Refusal::ScalarIndex => "a scalar signal can only be indexed with zero",
            Refusal::ScalarSlice => "a scalar signal can only be sliced at [0:0]",
        }
    }
}

/// Why printing stopped.
#[derive(Debug, Drop)]
pub enum PrintFault {
    /// The tree has no text: the first refusal in the order of the text.
    Refused(Refusal),
    /// A growth of the text was refused: the allocator's error.
    Memory(AllocError),
}

impl From<AllocError> for PrintFault {
    ghost from_gives = { λ error fault. fault ≡ Memory error };

    fn from(error: AllocError) -> PrintFault {
        PrintFault::Memory(error)
    }
}
