//! Prints the examples that its words name, `vast_show counter states pipeline registers hierarchy fifo uart`, and measures
//! designs of any size, which the words after `measure` name: `vast_show measure flat 10000 5`.
#![tactic(auto, using(xlsynth_vast::proofs::Callers::callers))]

mod measured;
mod program;

use measured::measure_all;
use program::run;
use std::io::ErrorKind;
use std::process::ExitCode;
use vast_examples::ExampleFault;
use vast_shell::{fail, with_words};

fn main(rt: HostRuntime) -> ExitCode {
    let mut err = rt.stderr();
    let status = match with_words(&rt, |words| answer(&rt, words)) {
        Ok(status) => status,
        Err(error) if error.kind() == ErrorKind::OutOfMemory => fail(error, 1, &mut err),
        // A word that isn't UTF-8 names no example.
        Err(_) => fail(ExampleFault::Unknown, 1, &mut err),
    };
    ExitCode::from(status)
}

/// The words up to `measure` are examples, and those after it are measured where these are all printed.
fn answer(rt: &HostRuntime, words: &[&str]) -> u8 {
    let (examples, designs) = split(words);
    let status = run(rt.alloc(), examples, &mut rt.stdout(), &mut rt.stderr());
    match designs {
        Some(designs) if status == 0 => measure(rt, designs),
        _ => status,
    }
}

fn measure(rt: &HostRuntime, words: &[&str]) -> u8 {
    match measure_all(rt.alloc(), words, &mut rt.stdout()) {
        Ok(()) => 0,
        Err(fault) => {
            let status = fault.status();
            fail(fault, status, &mut rt.stderr())
        }
    }
}

/// The words before `measure`, and those after it.
fn split<'a>(words: &'a [&'a str]) -> (&'a [&'a str], Option<&'a [&'a str]>) {
    let at = words.iter().position(|word| *word == "measure");
    let Some((examples, rest)) = words.split_at_checked(at.unwrap_or(words.len())) else {
        return (words, None);
    };
    match rest.split_first() {
        Some((_, designs)) => (examples, Some(designs)),
        None => (examples, None),
    }
}
