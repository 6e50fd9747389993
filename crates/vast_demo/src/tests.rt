//! What no list of calls as text can show: names, handles of other files, ids, words of errors, deep nests, replays' answers.

mod arena;
mod errors;
mod first_program;
mod handles;
mod ids;
mod literals;
mod names;
mod plain;
mod replay;
