//! The words of a line that stand for handles.

use crate::arguments::{Arguments, Known, Rest};
use crate::from_arguments::handle;
use crate::line::split_line;
use crate::table::numbered::row_of;
use crate::table::{Handle, Parameter};
use std::alloc::AllocError;

/// A word of a line that stands for a handle.
#[derive(Clone, Copy)]
pub struct HandleWord<'a> {
    /// The name of its parameter.
    pub parameter: &'static str,
    /// What is to stand there.
    pub wanted: Handle,
    /// The word as it stands in the line.
    pub word: &'a str,
    /// Its place among the answers.
    pub place: usize,
}

/// The handles of the line, in its order, up to where it is not in the form.
///
/// # Errors
/// Out of memory.
pub fn handle_words<'a>(
    known: Known<'a>,
    text: &'a str,
) -> Result<Vec<HandleWord<'a>>, AllocError> {
    let mut words = Vec::new(known.alloc);
    let (_, call, rest) = split_line(text);
    let Some(row) = row_of(call) else {
        return Ok(words);
    };
    let mut arguments = Arguments::new(known, Rest::Words(rest));
    for parameter in row.parameters() {
        take_argument(&mut arguments, parameter, &mut words)?;
    }
    Ok(words)
}

/// Takes the words of one argument, which goes to the end of its list.
fn take_argument<'a>(
    arguments: &mut Arguments<'a>,
    parameter: &Parameter,
    words: &mut Vec<HandleWord<'a>>,
) -> Result<(), AllocError> {
    let mut depth: usize = 0;
    for _ in 0..arguments.bytes_left() {
        let Some(word) = arguments.word_or_text() else {
            return Ok(());
        };
        match word {
            "[" => depth = depth.saturating_add(1),
            "]" => depth = depth.saturating_sub(1),
            "+" => continue,
            _ => add_word(arguments, parameter, word, words)?,
        }
        if depth == 0 {
            return Ok(());
        }
    }
    Ok(())
}

/// Adds the word, if it stands for a handle.
fn add_word<'a>(
    arguments: &Arguments<'a>,
    parameter: &Parameter,
    word: &'a str,
    words: &mut Vec<HandleWord<'a>>,
) -> Result<(), AllocError> {
    let Some(wanted) = parameter.kind().handle() else {
        return Ok(());
    };
    if let Ok(place) = handle(arguments, word) {
        words.push(HandleWord {
            parameter: parameter.name(),
            wanted,
            word,
            place,
        })?;
    }
    Ok(())
}
