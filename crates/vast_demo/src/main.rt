//! Prints designs, `vast_demo passthrough`, `cases` or `registers`, and checks texts, `vast_demo check`.
#![tactic(auto)]

mod check;
mod program;
#[cfg(test)]
mod tests;

use program::run;
use std::io::ErrorKind;
use std::process::ExitCode;
use vast_shell::{Failure, tell, with_words};

fn main(rt: HostRuntime) -> ExitCode {
    let status = match with_words(&rt, |words| answer(&rt, words)) {
        Ok(status) => status,
        Err(error) if error.kind() == ErrorKind::OutOfMemory => {
            tell(Failure::Memory.line(), 1, &mut rt.stderr())
        }
        // A word that isn't UTF-8 names no design.
        Err(_) => answer(&rt, &[]),
    };
    ExitCode::from(status)
}

fn answer(rt: &HostRuntime, words: &[&str]) -> u8 {
    run(
        rt.alloc(),
        words,
        &mut rt.stdin(),
        &mut rt.stdout(),
        &mut rt.stderr(),
    )
}
