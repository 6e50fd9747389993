//! Makes files of lists of calls, and prints them: `vast_replay counter.list > counter.sv`; `--help` tells the rest.
#![tactic(auto)]

mod files;
mod help;
mod input;
mod outcome;
mod program;
mod session;
mod words;

use files::answer_files;
use help::{HELP, VERSION};
use outcome::Outcome;
use session::answer_lines;
use std::io::{BufReader, ErrorKind};
use std::process::ExitCode;
use vast_calls::{calls_json, calls_text};
use vast_list::{Tries, tried};
use vast_shell::{Failure, WordFault, ended, tell, with_words, write_whole};
use words::{Request, requested};

fn main(rt: HostRuntime) -> ExitCode {
    let mut err = rt.stderr();
    let answered = tried!(
        Tries::Again,
        with_words(&rt, |words| answer_words(&rt, words))
    );
    let outcome = match answered {
        Ok(answered) => ended(answered, Outcome::Failed, &mut err),
        Err(error) if error.kind() == ErrorKind::OutOfMemory => {
            tell(Failure::Memory.line(), Outcome::Failed, &mut err)
        }
        Err(_) => tell(
            "vast_replay: a word is not UTF-8\n",
            Outcome::NotInForm,
            &mut err,
        ),
    };
    ExitCode::from(outcome.status())
}

fn answer_words(rt: &HostRuntime, words: &[&str]) -> Result<Outcome, Failure> {
    let alloc = rt.alloc();
    match tried!(Tries::Again, requested(alloc, words), WordFault::Memory) {
        Ok(Request::Help) => print(rt, HELP),
        Ok(Request::Version) => print(rt, VERSION),
        Ok(Request::Calls) => print(rt, &calls_text(alloc)?),
        Ok(Request::CallsJson) => print(rt, &calls_json(alloc)?),
        Ok(Request::Session { lint }) => hold_session(rt, lint),
        Ok(Request::Lists { manner, files }) => Ok(answer_files(rt, manner, &files)),
        Err(WordFault::Memory) => Err(Failure::Memory),
        Err(fault) => {
            let told = format!(in alloc; "vast_replay: {fault}; --help tells the words\n")?;
            Ok(tell(&told, Outcome::NotInForm, &mut rt.stderr()))
        }
    }
}

fn print(rt: &HostRuntime, text: &str) -> Result<Outcome, Failure> {
    write_whole(text.as_bytes(), &mut rt.stdout())?;
    Ok(Outcome::Made)
}

fn hold_session(rt: &HostRuntime, lint: bool) -> Result<Outcome, Failure> {
    let mut input = BufReader::new(rt.alloc(), rt.stdin()).map_err(|_| Failure::Memory)?;
    Ok(answer_lines(
        rt.alloc(),
        lint,
        &mut input,
        &mut rt.stdout(),
        &mut rt.stderr(),
    ))
}
