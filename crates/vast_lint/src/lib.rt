//! A lint over lists of builder calls: which of the forms that calls print are no SystemVerilog or Verilog, or are
//! refused by a tool.
//!
//! A [`Lint`] takes the steps of a list one by one and tells a [`Warning`] for each form of the table in [`Rule`]. It
//! keeps few words of each answer and changes nothing: what is told is printed all the same.
#![tactic(auto)]

mod artifacts;
mod declared;
mod expressions;
mod facts;
mod forms;
mod functions;
pub mod laws;
mod lint;
mod loops;
mod modules;
mod notes;
mod parameters;
mod rows;
mod rule;
mod sides;
mod statements;
mod tools;
mod typedefs;
mod types;
mod warning;
mod words;

pub use lint::Lint;
pub use rule::Rule;
pub use tools::Tools;
pub use warning::Warning;
