//! Lists of builder calls in exchange with a program: what their calls print that is no SystemVerilog or Verilog, and sessions
//! whose lines are answered one by one, by JSON.
//!
//! A [`Repl`] takes the lines of a session; [`list_warnings`] lints a whole list. `docs/use/LISTS.md` has the form of lists
//! and of the replies.
#![tactic(auto)]

mod linted;
mod repl;
mod warnings;

pub use repl::Repl;
pub use warnings::{LineWarning, json_with_warnings, list_warnings};
