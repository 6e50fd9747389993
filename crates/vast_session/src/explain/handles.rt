//! Arguments that are no answers, or answers of another kind.

use crate::explain::kinds::{is_of, kind_of};
use std::alloc::AllocError;
use vast_calls::{HandleWord, Known, SKIPPED, handle_words};
use vast_script::Answer;

/// Whether a handle of the line stands for the answer of a line that was passed over.
pub(crate) fn uses_skipped(known: Known<'_>, text: &str) -> Result<bool, AllocError> {
    for found in &handle_words(known, text)? {
        if found.place == SKIPPED {
            return Ok(true);
        }
    }
    Ok(false)
}

/// Which argument is no earlier answer.
pub(crate) fn missing_handle(
    known: Known<'_>,
    answers: &[Answer],
    text: &str,
) -> Result<String, AllocError> {
    for found in &handle_words(known, text)? {
        if found.place >= answers.len() {
            let HandleWord {
                parameter,
                word,
                ..
            } = *found;
            return format!(in known.alloc;
                "no such answer: {parameter} is `{word}`, and no step or helper before this line has that number"
            );
        }
    }
    String::from_str(known.alloc, "no such answer")
}

/// Which argument is an answer of another kind.
pub(crate) fn faulty_handle(
    known: Known<'_>,
    answers: &[Answer],
    text: &str,
) -> Result<String, AllocError> {
    for found in &handle_words(known, text)? {
        let HandleWord {
            parameter,
            wanted,
            word,
            place,
        } = *found;
        if let Some(answer) = answers.get(place) {
            if !is_of(*answer, wanted) {
                let wanted = wanted.words();
                let given = kind_of(*answer);
                return format!(in known.alloc;
                    "{parameter} is to be {wanted}, and `{word}` is {given}"
                );
            }
        }
    }
    String::from_str(known.alloc, "answer of another kind")
}
