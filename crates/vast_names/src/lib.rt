//! Words, of which the short ones take no memory, texts, and a table of names in one buffer.
//!
//! Whoever chooses the names can't make it slow: a chain of names in one slot has a bound, after which names lie in a
//! tree.
#![tactic(auto)]

mod hash;
mod index;
mod map;
mod table;
mod text;
mod texts;
mod word;

pub use map::NameMap;
pub use table::NameTable;
pub use text::Text;
pub use word::Word;
