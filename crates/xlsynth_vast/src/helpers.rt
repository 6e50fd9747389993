//! Expressions built of many others, over the calls of [`crate::VastFile`].
//!
//! A helper that is refused for memory may leave expressions and blocks that nothing uses; all else of the file is as
//! it was.

ghost use Rattle.vast_core.specs.Sound.{RecordsSound};

use crate::file::VastFile;

mod array_checks;
mod array_reduction;
mod reductions;
mod registers;

pub use array_reduction::bitwise_or_reduce_array_elements;
pub use reductions::{bitwise_or_reduce, logical_and_reduce, logical_or_reduce};
pub use registers::{RegisterDefinition, RegisterScope, Reset, add_registers};

/// What the file's lists name is its own: a law, by which what no list names is not in the file's tree.
fn records_are_sound(file: &VastFile)
    ensures { RecordsSound file.now }
{
    file.ast.file_is_sound();
}
