//! Calls in lists: a line of a list, or a packed call, is read as a call, and one table says how each call is written.
//!
//! `docs/use/LISTS.md` has the form. [`read_line`] and [`unpacked`] read a call over the names and answers so far, which
//! are [`Known`]; `vast_session` makes it.
#![tactic(auto)]

mod arguments;
mod calls;
mod from_arguments;
mod handles;
mod helpers;
mod json;
mod line;
mod names;
mod nearest;
mod packed;
mod packed_call;
mod packing;
mod problem;
mod questions;
mod table;
mod texts;

pub use arguments::{Known, SKIPPED, place_of};
pub use handles::{HandleWord, handle_words};
pub use helpers::{Helper, RegisterNumbers, ResetNumbers};
pub use json::push_json_text;
pub use line::{
    Action, Call, Line, Misread, is_empty, is_empty_line, is_step, name_of_call, read_line,
    split_line, text_of,
};
pub use names::{Named, Names, is_name};
pub use nearest::nearest_call;
pub use packed::push_number;
pub use packed_call::{PackedCall, place_front, split_call, step_at, unpacked};
pub use packing::pack_line;
pub use problem::{Misfit, Problem};
pub use questions::{ModuleQuestion, Question, ValueQuestion};
pub use table::Handle;
pub use table::json::calls_json;
pub use table::numbered::Place;
pub use table::text::calls_text;
pub use table::usage::usage;
