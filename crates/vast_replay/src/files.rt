//! The files that the program is given.

use crate::input::{ReadInput, take_input};
use crate::outcome::Outcome;
use crate::program::{Manner, answer_taken, run};
use std::io::{ErrorKind, IsTerminal};
use std::{fs, io};
use vast_list::tried;
use vast_shell::{Failure, ended, tell};

/// Answers the lists of the files in order, or of standard input where there are none.
///
/// A file that can't be read is told, and the files after it are answered.
pub(crate) fn answer_files(rt: &HostRuntime, manner: Manner<'_>, files: &[&str]) -> Outcome {
    if files.is_empty() {
        if rt.stdin().is_terminal() {
            let line =
                "vast_replay: reads a list from the terminal, to its end; --help tells more\n";
            tell(line, (), &mut rt.stderr());
        }
        return answer_stdin(rt, manner);
    }
    let mut outcome = Outcome::Made;
    for file in files {
        outcome = outcome.and(answer_file(rt, manner, file));
        if outcome == Outcome::Failed {
            break;
        }
    }
    outcome
}

fn answer_stdin(rt: &HostRuntime, manner: Manner<'_>) -> Outcome {
    run(manner, &mut rt.stdin(), &mut rt.stdout(), &mut rt.stderr())
}

fn answer_file(rt: &HostRuntime, manner: Manner<'_>, file: &str) -> Outcome {
    if file == "-" {
        return answer_stdin(rt, manner);
    }
    let mut err = rt.stderr();
    match read_file(rt, manner, file) {
        Ok(taken) => {
            let manner = Manner {
                source: file,
                ..manner
            };
            answer_taken(manner, taken, &mut rt.stdout(), &mut err)
        }
        Err(error) => {
            let told = tell_unread(rt, manner, file, error);
            ended(told, Outcome::Failed, &mut err)
        }
    }
}

/// Tells why a file can't be read.
fn tell_unread(
    rt: &HostRuntime,
    manner: Manner<'_>,
    file: &str,
    error: io::Error,
) -> Result<Outcome, Failure> {
    if error.kind() == ErrorKind::OutOfMemory {
        return Err(Failure::Memory);
    }
    let told = tried!(
        manner.tries,
        format!(in rt.alloc(); "vast_replay: {file}: {error}\n")
    )?;
    Ok(tell(&told, Outcome::NotInForm, &mut rt.stderr()))
}

fn read_file(rt: &HostRuntime, manner: Manner<'_>, file: &str) -> io::Result<ReadInput> {
    if manner.takes_lines_once() {
        let mut input = fs::File::open(rt, file)?;
        return take_input(rt.alloc(), &mut input);
    }
    Ok(ReadInput::Bytes(tried!(manner.tries, fs::read(rt, file))?))
}
