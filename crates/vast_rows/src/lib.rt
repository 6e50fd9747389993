//! The grammar of files above expressions as rows of a table, and one machine that reads what
//! such a table spells.
//!
//! The rows stand on a page (`specs/Page.antt`), and [`files`] has them as the machine wants them.
//! That the page spells exactly what the grammar of `vast_literal` does is a law ([`laws`]), and what
//! is told of a file is its trace (`specs/Trace.antt`), which builds it again (`specs/Built.antt`).
#![tactic(auto)]

mod action;
mod expression_table;
mod front;
mod grammar;
mod header;
mod kind;
pub mod laws;
mod machine;
mod reach;
mod rule;
mod sink;
mod source;
mod stack;
mod table;

pub use action::{Action, Listed};
pub use front::{Next, file_front};
pub use grammar::{Phrase, Table};
pub use kind::Kind;
pub use machine::{is_file, read, read_file};
pub use rule::Rule;
pub use sink::{Nothing, Sink};
pub use source::{Fronts, Source};
pub use stack::Stack;
pub use table::files;
