//! What the programs share: the words that they are called with, inputs that are read whole, and what they write and tell.
#![tactic(auto)]

mod failure;
mod input;
mod output;
mod words;

pub use failure::{Failure, ended};
pub use input::{InputFault, read_input};
pub use output::{WriteFault, fail, print, tell, write_whole};
pub use words::{WordFault, with_words};
