//! Sessions: a file with the answers so far, whose calls are lines of a list or packed calls.
//!
//! `docs/use/LISTS.md` has the form. A [`Session`] takes lines and packed calls one by one; after a fault it is as it was.
#![tactic(auto)]

mod explain;
mod fault;
mod helpers;
mod line;
mod lines;
mod questions;
mod reply;
mod selects;
mod session;

pub use fault::{Fault, LineFault, problem_fault, write_on_a_line};
pub use line::{dialect_line, dialect_of};
pub use lines::{HEADER, ListLines, ended_line};
pub use questions::answered::{PortValue, Value};
pub use reply::{push_fault, push_given};
pub use session::{LineResult, Session};
