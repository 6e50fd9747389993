//! The loop that follows rows. It neither recurs nor makes a tree.

ghost use Rattle.std.specs.Prelude.{[], ◌∷◌, IfOk};
ghost use Rattle.vast_expressions.specs.Internal.Items.{item_view};
ghost use Rattle.vast_expressions.specs.Internal.Ran.{Ran};

use crate::item::Item;
use crate::row::row;
use crate::sink::Sink;
use crate::source::Source;
use crate::stack::Stack;
use std::alloc::{AllocError, Global};

/// Runs an item, and tells what it reads; whether it ran to its end.
pub(crate) fn run<'t, R: Source<'t>, S: Sink<'t>>(
    alloc: Global,
    start: Item,
    source: &mut R,
    sink: &mut S,
) -> Result<bool, AllocError>
    ensures { IfOk result (λ b. Ran S.hears (item_view start ∷ []) (R.left source.old) sink.old b
        (R.left source.new) sink.new) }
{
    let mut stack = Stack::new(alloc);
    let mut item = start;
    'turns: loop {
        if !row(item, source, &mut stack, sink)? {
            return Ok(false);
        }
        match stack.pop() {
            None => return Ok(true),
            Some(next) => item = next,
        }
    }
}
