//! What stands at the front of a text.

use vast_expressions::Token;

/// What stands at the front of a text, and what follows it.
#[derive(Clone, Copy)]
pub(crate) enum Front<'t> {
    /// A token, and the text after it.
    Token(Token<'t>, &'t str),
    /// White space or a comment, and the text after it.
    Gap(&'t str),
    /// What is no token.
    Unspelled,
}

/// What stands next in a text after white space and comments.
#[derive(Clone, Copy)]
pub(crate) enum Position<'t> {
    /// A token, and the text after it.
    Token(Token<'t>, &'t str),
    /// What is no token.
    Unspelled,
    /// Nothing.
    End,
}
