//! Reading by rows.

ghost use Rattle.std.specs.Prelude.{IfOk};
ghost use Rattle.vast_expressions.specs.Reading.{Reads};

use crate::item::Item;
use crate::machine::run;
use crate::sink::Sink;
use crate::source::Source;
use std::alloc::{AllocError, Global};

/// Reads an expression, and tells it; `false` where none stands before tokens that go on with none.
pub fn read_expression<'t, R: Source<'t>, S: Sink<'t>>(
    alloc: Global,
    source: &mut R,
    sink: &mut S,
) -> Result<bool, AllocError>
    ensures { IfOk result (λ b. Reads S.hears 0 (R.left source.old) sink.old b
        (R.left source.new) sink.new) }
{
    run(alloc, Item::Expression, source, sink)
}

/// The same of what is assigned to: a primary expression with its selects.
pub fn read_target<'t, R: Source<'t>, S: Sink<'t>>(
    alloc: Global,
    source: &mut R,
    sink: &mut S,
) -> Result<bool, AllocError>
    ensures { IfOk result (λ b. Reads S.hears 13 (R.left source.old) sink.old b
        (R.left source.new) sink.new) }
{
    run(alloc, Item::Target, source, sink)
}
