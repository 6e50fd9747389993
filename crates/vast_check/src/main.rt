//! Tells of files whether the grammar derives them, and where it doesn't: `vast_check fifo.sv`; and of two whether they are
//! the same: `vast_check --same old.sv new.sv`. `--help` tells the rest.
#![tactic(auto)]

mod answer;
mod difference;
mod expected;
mod files;
mod help;
mod outcome;
mod place;
mod program;
mod same;
mod tokens;
mod words;

use files::{answer_files, compare_files};
use help::{HELP, VERSION};
use outcome::Outcome;
use program::{Trouble, tell};
use std::io::ErrorKind;
use std::process::ExitCode;
use vast_shell::{with_words, write_whole};
use words::{Request, requested};

fn main(rt: HostRuntime) -> ExitCode {
    let outcome = match with_words(&rt, |words| answer_words(&rt, words)) {
        Ok(outcome) => outcome,
        Err(error) if error.kind() == ErrorKind::OutOfMemory => {
            tell(Trouble::Memory, &mut rt.stderr())
        }
        Err(_) => tell(Trouble::Words, &mut rt.stderr()),
    };
    ExitCode::from(outcome.status())
}

fn answer_words(rt: &HostRuntime, words: &[&str]) -> Outcome {
    match requested(rt.alloc(), words) {
        Ok(Request::Help) => print(rt, HELP),
        Ok(Request::Version) => print(rt, VERSION),
        Ok(Request::Files(files)) => answer_files(rt, &files),
        Ok(Request::Same { old, new }) => compare_files(rt, old, new),
        Err(fault) => tell(Trouble::Word(fault), &mut rt.stderr()),
    }
}

fn print(rt: &HostRuntime, text: &str) -> Outcome {
    match write_whole(text.as_bytes(), &mut rt.stdout()) {
        Ok(()) => Outcome::Yes,
        Err(_) => tell(Trouble::Write, &mut rt.stderr()),
    }
}
