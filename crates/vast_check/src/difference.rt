//! Where two files that are not the same begin to differ.

use crate::place::place_of;
use crate::tokens::{behind_token, token_of, ungrouped};
use std::alloc::{AllocError, Global};
use std::fmt::Write;
use vast_read::Difference;

/// So many characters of a line are told.
const MOST_SHOWN: usize = 80;

/// Two texts, or what is left of them from a token of each on.
#[derive(Clone, Copy)]
pub(crate) struct Pair<'t> {
    pub(crate) old: &'t str,
    pub(crate) new: &'t str,
}

/// The tokens that are held against each other.
#[derive(Clone, Copy)]
enum Compared {
    All,
    /// Those that never are redundant.
    Ungrouped,
}

impl<'t> Pair<'t> {
    /// What is left from these places on.
    fn from_places(self, old: usize, new: usize) -> Pair<'t> {
        Pair {
            old: self.old.get(old..).unwrap_or(""),
            new: self.new.get(new..).unwrap_or(""),
        }
    }

    /// What is left from the first of these tokens on.
    fn from_first(self, tokens: Compared) -> Pair<'t> {
        match tokens {
            Compared::All => self,
            Compared::Ungrouped => Pair {
                old: ungrouped(self.old),
                new: ungrouped(self.new),
            },
        }
    }

    /// What is left from the first of these tokens on that are not the same.
    fn from_first_other(self, tokens: Compared) -> Pair<'t> {
        let mut rest = self.from_first(tokens);
        for _ in 0..self.old.len() {
            if rest.old.is_empty() || token_of(rest.old) != token_of(rest.new) {
                break;
            }
            let behind = Pair {
                old: behind_token(rest.old),
                new: behind_token(rest.new),
            };
            rest = behind.from_first(tokens);
        }
        rest
    }
}

/// What is left of two texts from where their files begin to differ: in the first pieces that do, the first tokens that
/// are not the same, or where all are and only the grouping is another, the first parentheses.
pub(crate) fn from_difference<'t>(texts: Pair<'t>, found: Difference) -> Pair<'t> {
    let start = texts.from_places(found.old.start, found.new.start);
    let end = texts.from_places(found.old.end, found.new.end);
    let other = start.from_first_other(Compared::Ungrouped);
    if other.old.len() < end.old.len() || other.new.len() < end.new.len() {
        start.from_first_other(Compared::All)
    } else {
        other
    }
}

/// Appends the line of the text in which this rest of it begins, without the spaces around it, as far as it fits.
pub(crate) fn push_line_at(
    alloc: Global,
    line: &mut String,
    text: &str,
    rest: &str,
) -> Result<(), AllocError> {
    let length = text.len().saturating_sub(rest.len());
    let before = text.get(..length).unwrap_or("");
    let begun = before.rsplit_once('\n').map_or(before, |(_, begun)| begun);
    let ended = rest.split_once('\n').map_or(rest, |(ended, _)| ended);
    let mut shown = String::from_str(alloc, begun.trim_start())?;
    shown.push_str(ended)?;
    for (count, character) in shown.trim_end().chars().enumerate() {
        if count == MOST_SHOWN {
            return line.push_str("..");
        }
        line.push(if character.is_control() {
            ' '
        } else {
            character
        })?;
    }
    Ok(())
}

/// Appends the number of the line of the text in which this rest of it begins.
pub(crate) fn push_number(line: &mut String, text: &str, rest: &str) -> Result<(), AllocError> {
    let at = text.len().saturating_sub(rest.len());
    write!(line, "{}", place_of(text.as_bytes(), at).line)
}
