//! The tokens of a text.

use vast_literal::{Key, Mark, Sign};

/// A token; the texts are pieces of what is read.
#[derive(Clone, Copy)]
pub enum Token<'t> {
    /// A keyword that the grammar uses.
    Reserved(Key),
    /// A name.
    Word(&'t str),
    /// Another keyword.
    Keyword(&'t str),
    /// A system word, with its `$`.
    SystemWord(&'t str),
    /// A macro's name, without its backtick.
    MacroWord(&'t str),
    /// A number.
    Number(&'t str),
    /// A literal with a base.
    Based(&'t str),
    /// A string, with its quotes.
    Quoted(&'t str),
    /// The sign of an operator.
    Operator(Sign),
    /// A mark.
    Mark(Mark),
}
