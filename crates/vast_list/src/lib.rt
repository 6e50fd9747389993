//! Lists of builder calls, whole: a list is read, its calls are made, its questions are answered, its file is printed.
//!
//! `docs/use/LISTS.md` has the form. [`list_output`] takes a list's lines through a [`vast_session::Session`].
#![tactic(auto)]

mod again;
mod answering;
mod json_line;
mod laws;
mod map;
mod origins;
mod output;
mod pack;
mod packed_list;
mod plainness;
mod tries;
mod untitled;

pub use json_line::list_json;
pub use laws::{calls_are_named, steps_build_as_replayed};
pub use map::{json_with_map, list_origins};
pub use origins::Origins;
pub use output::{ListOutput, MOST_FAULTS, Verdict, list_output};
pub use pack::pack_list;
pub use packed_list::{is_packed_list, packed_output};
pub use plainness::{Plainness, list_plainness};
pub use tries::Tries;
pub use untitled::UntitledList;
