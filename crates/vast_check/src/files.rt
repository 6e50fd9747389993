//! The files that the program is given.

use crate::outcome::Outcome;
use crate::program::{Trouble, answer_input, read_whole, tell};
use crate::same::{Source, compare};
use std::fs::File;
use std::io::{Error, ErrorKind, IsTerminal, Write};

/// How standard input is told.
const STDIN: &str = "<stdin>";

/// Answers the files in order, or standard input where there are none.
///
/// A file that can't be read is told, and the files after it are answered.
pub(crate) fn answer_files(rt: &HostRuntime, files: &[&str]) -> Outcome {
    if files.is_empty() {
        return answer_stdin(rt);
    }
    let mut outcome = Outcome::Yes;
    for file in files {
        outcome = outcome.and(answer_file(rt, file));
        if outcome == Outcome::Failed {
            break;
        }
    }
    outcome
}

/// Tells whether two files are the same; one that can't be read is told.
pub(crate) fn compare_files(rt: &HostRuntime, old: &str, new: &str) -> Outcome {
    let old_bytes = match read_file(rt, old) {
        Ok(bytes) => bytes,
        Err(outcome) => return outcome,
    };
    let new_bytes = match read_file(rt, new) {
        Ok(bytes) => bytes,
        Err(outcome) => return outcome,
    };
    compare(
        rt.alloc(),
        Source {
            name: shown_name(old),
            bytes: &old_bytes,
        },
        Source {
            name: shown_name(new),
            bytes: &new_bytes,
        },
        &mut rt.stdout(),
        &mut rt.stderr(),
    )
}

/// All that the file gives; standard input, where its name is `-`.
fn read_file(rt: &HostRuntime, file: &str) -> Result<Vec<u8>, Outcome> {
    let mut err = rt.stderr();
    let name = shown_name(file);
    if file == "-" {
        tell_terminal(rt);
        return read_whole(rt.alloc(), name, &mut rt.stdin(), &mut err);
    }
    match File::open(rt, file) {
        Ok(mut input) => read_whole(rt.alloc(), name, &mut input, &mut err),
        Err(error) => Err(tell_unopened(file, error, &mut err)),
    }
}

/// The name by which a file is told.
fn shown_name(file: &str) -> &str {
    if file == "-" { STDIN } else { file }
}

/// Why the file can't be opened.
fn tell_unopened<E: Write>(file: &str, error: Error, err: &mut E) -> Outcome {
    if error.kind() == ErrorKind::OutOfMemory {
        tell(Trouble::Memory, err)
    } else {
        tell(Trouble::Unopened(file, error), err)
    }
}

/// Who sits at a terminal is told that the program waits for him.
fn tell_terminal(rt: &HostRuntime) {
    if rt.stdin().is_terminal() {
        let _ = rt.stderr().write_all(
            b"vast_check: reads a file from the terminal, to its end; --help tells more\n",
        );
    }
}

fn answer_stdin(rt: &HostRuntime) -> Outcome {
    tell_terminal(rt);
    answer_input(
        rt.alloc(),
        STDIN,
        &mut rt.stdin(),
        &mut rt.stdout(),
        &mut rt.stderr(),
    )
}

fn answer_file(rt: &HostRuntime, file: &str) -> Outcome {
    if file == "-" {
        return answer_stdin(rt);
    }
    let mut err = rt.stderr();
    match File::open(rt, file) {
        Ok(mut input) => answer_input(rt.alloc(), file, &mut input, &mut rt.stdout(), &mut err),
        Err(error) => tell_unopened(file, error, &mut err),
    }
}
