//! What is made of the parts of a file, from the right.

mod declarations;
pub(crate) mod heard;
mod lists;
mod make;
mod members;
mod part;
mod part_list;
mod statements;
pub(crate) mod value;

pub(crate) use heard::Heard;
