//! Faults of calls in words.

mod conditions;
mod handles;
mod kinds;

use conditions::condition;
pub(crate) use handles::uses_skipped;
use handles::{faulty_handle, missing_handle};
use std::alloc::AllocError;
use vast_calls::{Call, Known};
use vast_script::{Answer, StepFault};
use xlsynth_vast::VastFile;

/// What is wrong with a call, in words: for arguments which it is and what was wanted, for a condition which it is.
pub(crate) fn explained(
    known: Known<'_>,
    file: &VastFile,
    answers: &[Answer],
    text: &str,
    made: Option<&Call>,
    cause: &StepFault,
) -> Result<String, AllocError> {
    let alloc = known.alloc;
    match cause {
        StepFault::NoAnswer => missing_handle(known, answers, text),
        StepFault::WrongKind => faulty_handle(known, answers, text),
        StepFault::Condition => match made {
            Some(Call::Step(step)) => condition(file, answers, step),
            _ => String::from_str(alloc, "condition not met"),
        },
        StepFault::Refused(error) => format!(in alloc; "{error}"),
        StepFault::Memory => Err(AllocError),
    }
}
