//! To whom the machine tells what it reads.

ghost use Rattle.std.specs.Prelude.{List, [], ◌∷◌, ◌++◌, IfOk, ⊤};
ghost use Rattle.vast_rows.specs.Events.{Event, Makes, Reads, Names};

use crate::action::Action;
use crate::source::Source;
use std::alloc::AllocError;

/// Hears the events of a reading, in the order of the text.
///
/// `after` says what was heard between two states.
pub trait Sink<S: Source> {
    ghost after: { Self → List Event → Self → Type 0 };

    /// A row was chosen that makes something of what its items make, which is told after it.
    fn makes(&mut self, action: Action) -> Result<(), AllocError>
        ensures { IfOk result (λ _. after self.old (Makes action ∷ []) self.new) };

    /// A phrase was read.
    fn reads(&mut self, made: S::Made) -> Result<(), AllocError>
        ensures { IfOk result (λ _. after self.old (Reads (S.denotes made) ∷ []) self.new) };

    /// A name was taken.
    fn names(&mut self, name: S::Name) -> Result<(), AllocError>
        ensures { IfOk result (λ _. after self.old (Names (S.text name) ∷ []) self.new) };

    ghost nothing: { (s : Self) → after s [] s };

    ghost joined: { (s t u : Self) (first second : List Event) →
        after s first t → after t second u → after s (first ++ second) u };
}

/// Nobody.
#[derive(Clone, Copy)]
pub struct Nothing;

impl<S: Source> Sink<S> for Nothing {
    ghost after = { λ s events t. ⊤ };

    ghost nothing = { λ s. tt };

    ghost joined = { λ s t u first second a b. tt };

    fn makes(&mut self, _action: Action) -> Result<(), AllocError> {
        Ok(())
    }

    fn reads(&mut self, _made: S::Made) -> Result<(), AllocError> {
        Ok(())
    }

    fn names(&mut self, _name: S::Name) -> Result<(), AllocError> {
        Ok(())
    }
}
