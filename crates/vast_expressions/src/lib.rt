//! The grammar of expressions as rows, and one loop that reads by them what the grammar derives.
#![tactic(auto)]

mod event;
mod item;
pub mod laws;
mod machine;
mod read;
mod row;
mod sink;
mod source;
mod stack;
mod token;

pub use event::{Event, Told};
pub use read::{read_expression, read_target};
pub use sink::{Nothing, Sink};
pub use source::Source;
pub use token::Token;
