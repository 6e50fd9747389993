//! Who hears what is read.

ghost use Rattle.std.specs.Prelude.{IfOk, ⊤};
ghost use Rattle.vast_expressions.specs.Events.{Event as SpecEvent};
ghost use Rattle.vast_expressions.specs.Internal.Views.{event_view};

use crate::event::Event;
use std::alloc::AllocError;

/// Who hears what is read. `hears a e b` says that `a` became `b` by hearing this event.
pub trait Sink<'t> {
    ghost hears: { Self → SpecEvent → Self → Type 0 };

    /// Hears this.
    fn tell(&mut self, event: Event<'t>) -> Result<(), AllocError>
        ensures { IfOk result (λ _. hears self.old (event_view event.entry) self.new) };
}

/// Nobody.
#[derive(Clone, Copy)]
pub struct Nothing;

impl<'t> Sink<'t> for Nothing {
    ghost hears = { λ a e b. ⊤ };

    fn tell(&mut self, _event: Event<'t>) -> Result<(), AllocError> {
        Ok(())
    }
}
