//! Whether a file is plain: the condition under which the grammar derives the normal form of its tree from its text.
#![tactic(auto)]

mod expression;
mod file;
mod member;
mod module;
mod names;
mod parts;
mod statement;
mod typedefs;
mod types;

pub use file::is_plain_file;
