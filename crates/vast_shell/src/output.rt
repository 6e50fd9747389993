//! What is written, and what is told beside it.

ghost use Rattle.std.specs.Prelude.{◌≡◌, ◌≤◌, MatchResult, OnErr, OnOk, string_bytes};
ghost use Rattle.std.specs.Io.KnownBytes.{Appends};
ghost use Rattle.vast_shell.specs.Output.{AppendsFront, AppendsPart};

use crate::Failure;
use std::fmt::Display;
use std::io::{ErrorKind, Write};

/// A write failed.
#[derive(Debug, Drop)]
pub struct WriteFault;

/// Writes all of the bytes, and tries an interrupted write again, as `write_all` does.
///
/// # Errors
/// A failed write, which leaves a front of them.
pub fn write_whole<W: Write>(bytes: &[u8], out: &mut W) -> Result<(), WriteFault>
    ensures whole { OnOk result (Appends (W.contents out.old) (W.contents out.new) bytes.now) }
    ensures part { OnErr result (AppendsPart (W.contents out.old) (W.contents out.new) bytes.now) }
{
    let mut rest = bytes;
    for _ in 0..u64::MAX {
        if rest.is_empty() {
            break;
        }
        match out.write(rest) {
            Ok(0) => return Err(WriteFault),
            Ok(count) => rest = &rest[count..],
            Err(e) => {
                if e.kind() != ErrorKind::Interrupted {
                    return Err(WriteFault);
                }
            }
        }
    }
    if rest.is_empty() {
        Ok(())
    } else {
        Err(WriteFault)
    }
}

/// Tells the line, or a front of it where a write fails, and returns what becomes of the run.
pub fn tell<O, E: Write>(line: &str, outcome: O, err: &mut E) -> O
    ensures outcome { result ≡ outcome }
    ensures told { AppendsFront (E.contents err.old) (E.contents err.new) line.now }
{
    let _ = write_whole(line.as_bytes(), err);
    outcome
}

/// Tells the fault in a line, and returns what becomes of the run.
pub fn fail<F: Display + Drop, O, E: Write>(fault: F, outcome: O, err: &mut E) -> O
    ensures { result ≡ outcome }
{
    let _ = writeln!(err, "{fault}");
    outcome
}

/// Prints the text, or says why there is none, and returns the status: 0, or 1 where there is none or a write failed.
pub fn print<F: Display + Drop, W: Write, E: Write>(
    text: Result<String, F>,
    out: &mut W,
    err: &mut E,
) -> u8
    ensures status { result ≤ 1 }
    ensures written { result ≡ 0 → MatchResult text
        (λ t. Appends (W.contents out.old) (W.contents out.new) (string_bytes t)) (λ _. ⊥) }
    ensures silent { result ≡ 0 → E.contents err.new ≡ E.contents err.old }
{
    match text {
        Ok(text) => match write_whole(text.as_bytes(), out) {
            Ok(()) => 0,
            Err(WriteFault) => tell(Failure::Write.line(), 1, err),
        },
        Err(fault) => fail(fault, 1, err),
    }
}
