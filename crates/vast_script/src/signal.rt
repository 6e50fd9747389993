//! What six calls of a module declare, each in its own way.

/// What a module declares under a name that has to be free in it.
#[derive(Clone, Copy)]
pub(crate) enum Signal {
    Input,
    Output,
    InOut,
    LogicInput,
    LogicOutput,
    Wire,
}
