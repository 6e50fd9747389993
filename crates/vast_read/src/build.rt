//! What is made of an expression: its tree, its transcript, or nothing.

ghost use Rattle.std.specs.Prelude.{IfOk};
ghost use Rattle.vast_expressions.specs.Reading.{Reads};
ghost use Rattle.vast_literal.specs.NormalExpr.{NormalExpr};
ghost use Rattle.vast_read.specs.Internal.Readings.{ReadsBound, ReadsTree, level_of};

mod events;
mod make;
mod trees;
mod unbuilt;
mod value;

use crate::reader::Reader;
pub(crate) use events::{Events, Spoken};
use std::alloc::AllocError;
pub(crate) use trees::Trees;
pub(crate) use unbuilt::Unbuilt;
use vast_expressions::{Sink, read_expression, read_target};

/// What a reader of expressions makes of what it reads, from texts that live for `'t`.
///
/// `denotes` is the tree that what was made stands for.
pub(crate) trait Build<'t> {
    /// What is made of an expression.
    type Expr: Drop;

    ghost denotes: { Self.Expr → NormalExpr };

    /// Reads an expression, or what is assigned to.
    fn read(reader: &mut Reader<'t>, is_target: bool) -> Result<Option<Self::Expr>, AllocError>
        ensures { IfOk result (λ o. ReadsTree denotes (level_of is_target) o
            reader.old reader.new) };

    /// Reads an expression that says of this name that it is less than another expression, of which
    /// alone something is made.
    fn bound(reader: &mut Reader<'t>, name: &str) -> Result<Option<Self::Expr>, AllocError>
        ensures { IfOk result (λ o. ReadsBound denotes name.now o reader.old reader.new) };
}

/// Reads an expression, or what is assigned to, and tells it; `false` where none stands there.
fn read_told<'t, S: Sink<'t>>(
    reader: &mut Reader<'t>,
    is_target: bool,
    sink: &mut S,
) -> Result<bool, AllocError>
    ensures { IfOk result (λ b. Reads S.hears (level_of is_target) reader.old sink.old b
        reader.new sink.new) }
{
    let alloc = reader.alloc;
    if is_target {
        read_target(alloc, reader, sink)
    } else {
        read_expression(alloc, reader, sink)
    }
}
