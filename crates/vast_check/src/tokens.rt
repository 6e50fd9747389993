//! The tokens of texts, from the left.

use vast_read::{behind_first_token, from_first_token};

/// The first token of a text that begins with one; nothing of an empty text.
pub(crate) fn token_of(text: &str) -> &str {
    let length = text.len().saturating_sub(behind_first_token(text).len());
    text.get(..length).unwrap_or(text)
}

/// The text from its second token on.
pub(crate) fn behind_token(text: &str) -> &str {
    from_first_token(behind_first_token(text))
}

/// The text from the first of its tokens on that never is redundant.
pub(crate) fn ungrouped(text: &str) -> &str {
    let mut rest = from_first_token(text);
    for _ in 0..text.len() {
        if !is_grouping(token_of(rest)) {
            break;
        }
        rest = behind_token(rest);
    }
    rest
}

/// Whether the token may be redundant: a parenthesis, and `begin` and `end` around the one assignment of an arm.
fn is_grouping(token: &str) -> bool {
    matches!(token, "(" | ")" | "begin" | "end")
}
