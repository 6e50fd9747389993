//! Prints Verilog syntax trees: a file, or one expression, as one growing text.
#![tactic(auto)]

mod always;
mod assignment;
mod bare;
mod case;
mod casts;
mod conditional;
mod counting;
mod declaration;
mod expression;
mod file;
mod function;
mod generate_loop;
mod imports;
mod instance;
pub mod laws;
mod levels;
mod lists;
mod member;
mod module;
mod operators;
mod parameter;
mod pieces;
mod refusal;
mod selects;
mod statement;
mod typedefs;
mod types;
mod words;
mod writer;

pub use file::{print_expr, print_file};
