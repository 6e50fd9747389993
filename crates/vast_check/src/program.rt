//! What the program tells of files.

ghost use Rattle.std.specs.Prelude.{◌≡◌, ◌≢◌, ◌⊎◌, IfErr, IfOk, MatchResult, OnErr, OnOk, string_bytes};
ghost use Rattle.std.specs.Io.KnownBytes.{Appends};
ghost use Rattle.vast_shell.specs.Input.{GivesAll, GivesSome};
ghost use Rattle.vast_check.specs.Check.{IsDerived, derived_line, TellsDerived, TellsUnderived};
ghost use Rattle.vast_check.specs.Ends.{outcome_of};

use crate::answer::{Answer, answer_of};
use crate::expected::Expected;
use crate::outcome::Outcome;
use std::alloc::{AllocError, Global};
use std::fmt::Write as _;
use std::io::{Error, ErrorKind, Read, Write};
use vast_shell::{InputFault, WordFault, read_input, write_whole};

/// So many characters of a token are told.
const MOST_SHOWN: usize = 24;

/// Why a file was not answered.
#[derive(Debug, Drop, thiserror::Error)]
pub(crate) enum Trouble<'a> {
    #[error("a word is not UTF-8")]
    Words,
    #[error("{0}; --help tells the words")]
    Word(WordFault<'a>),
    #[error("{0}: {1}")]
    Unopened(&'a str, Error),
    #[error("{0}: {1}")]
    Unread(&'a str, ErrorKind),
    #[error("{0}: no end")]
    Endless(&'a str),
    #[error("{0}: more than 16777216 bytes")]
    TooLong(&'a str),
    #[error("write fault")]
    Write,
    #[error("out of memory")]
    Memory,
}

/// Reads `input` to its end, and tells on `out` whether the grammar derives a file from it, or where it doesn't.
///
/// The line begins with the name of the input. A failed read, more than 16,777,216 bytes, a failed write and want of
/// memory are told on `err`; nothing is told on `out` then, but for a write that fails.
pub(crate) fn answer_input<R: Read, W: Write, E: Write>(
    alloc: Global,
    name: &str,
    input: &mut R,
    out: &mut W,
    err: &mut E,
) -> Outcome
    ensures derived { result ≡ Outcome.Yes →
        TellsDerived name.now (R.remaining input.old) (R.remaining input.new)
        (W.contents out.old) (W.contents out.new) }
    ensures underived { result ≡ Outcome.No →
        TellsUnderived (R.remaining input.old) (R.remaining input.new) }
    ensures unread { result ≡ Outcome.Unread → W.contents out.new ≡ W.contents out.old }
    ensures some { GivesSome (R.remaining input.old) (R.remaining input.new) }
    ensures silent { (result ≡ Outcome.Yes) ⊎ (result ≡ Outcome.No)
        → E.contents err.new ≡ E.contents err.old }
{
    match read_whole(alloc, name, input, err) {
        Ok(bytes) => answer_bytes(alloc, name, &bytes, out, err),
        Err(outcome) => outcome,
    }
}

/// All that `input` gives to its end, no more than 16,777,216 bytes; why not is told on `err`.
pub(crate) fn read_whole<R: Read, E: Write>(
    alloc: Global,
    name: &str,
    input: &mut R,
    err: &mut E,
) -> Result<Vec<u8>, Outcome>
    ensures all { IfOk result (λ bytes.
        GivesAll (R.remaining input.old) (R.remaining input.new) bytes.items) }
    ensures untold { IfErr result (λ outcome.
        (outcome ≡ Outcome.Unread) ⊎ (outcome ≡ Outcome.Failed)) }
    ensures some { OnErr result (GivesSome (R.remaining input.old) (R.remaining input.new)) }
    ensures silent { OnOk result (E.contents err.new ≡ E.contents err.old) }
{
    let trouble = match read_input(alloc, input) {
        Ok(bytes) => return Ok(bytes),
        Err(InputFault::Memory) => Trouble::Memory,
        Err(InputFault::Length) => Trouble::TooLong(name),
        Err(InputFault::Read(kind)) => Trouble::Unread(name, kind),
        Err(InputFault::Reads) => Trouble::Endless(name),
    };
    Err(tell(trouble, err))
}

/// Tells on `out` whether the grammar derives a file from these bytes, or where it doesn't.
fn answer_bytes<W: Write, E: Write>(
    alloc: Global,
    name: &str,
    bytes: &[u8],
    out: &mut W,
    err: &mut E,
) -> Outcome
    ensures derived { result ≡ Outcome.Yes → IsDerived bytes.now ×
        Appends (W.contents out.old) (W.contents out.new) (derived_line name.now) }
    ensures underived { result ≡ Outcome.No → IsDerived bytes.now → ⊥ }
    ensures told { result ≢ Outcome.Unread }
    ensures silent { result ≢ Outcome.Failed → E.contents err.new ≡ E.contents err.old }
{
    match answer_of(alloc, bytes) {
        Ok(Answer::Derived) => write_made(derived_line(alloc, name), Outcome::Yes, out, err),
        Ok(found) => write_made(underived_line(alloc, name, &found), Outcome::No, out, err),
        Err(_) => tell(Trouble::Memory, err),
    }
}

/// Writes the line, where it was made. Else the run has failed.
pub(crate) fn write_made<W: Write, E: Write>(
    line: Result<String, AllocError>,
    outcome: Outcome,
    out: &mut W,
    err: &mut E,
) -> Outcome
    ensures told { (result ≡ outcome) ⊎ (result ≡ Outcome.Failed) }
    ensures written { result ≢ Outcome.Failed → MatchResult line
        (λ t. Appends (W.contents out.old) (W.contents out.new) (string_bytes t)) (λ _. ⊥) }
    ensures silent { result ≢ Outcome.Failed → E.contents err.new ≡ E.contents err.old }
{
    match line {
        Ok(line) => match write_whole(line.as_bytes(), out) {
            Ok(()) => outcome,
            Err(_) => tell(Trouble::Write, err),
        },
        Err(_) => tell(Trouble::Memory, err),
    }
}

fn derived_line(alloc: Global, name: &str) -> Result<String, AllocError>
    ensures { IfOk result (λ line. string_bytes line ≡ derived_line name.now) }
{
    let mut line = String::from_str(alloc, name)?;
    line.push_str(": derived\n")?;
    Ok(line)
}

/// The line that tells where the file is no longer one of the grammar.
pub(crate) fn underived_line(
    alloc: Global,
    name: &str,
    found: &Answer<'_>,
) -> Result<String, AllocError> {
    let mut line = String::from_str(alloc, name)?;
    match found {
        Answer::Derived => line.push_str(": derived")?,
        Answer::NoText(place) => { write!(line, ":{}:{}: not UTF-8", place.line, place.column)? }
        Answer::Underived {
            place,
            token,
            expected,
        } => {
            write!(line, ":{}:{}: ", place.line, place.column)?;
            push_token(&mut line, token)?;
            push_expected(&mut line, expected)?;
        }
    }
    line.push('\n')?;
    Ok(line)
}

/// Tells a token, or its beginning: a string up to the end of its line, another token up to white space.
fn push_token(line: &mut String, token: &str) -> Result<(), AllocError> {
    if token.is_empty() {
        return line.push_str("end of file");
    }
    let is_string = token.starts_with('"');
    for (index, shown) in token.chars().enumerate() {
        if index == MOST_SHOWN {
            return line.push_str("..");
        }
        if shown.is_control() || (shown == ' ' && !is_string) {
            return line.push_str(if index == 0 { "control character" } else { "" });
        }
        line.push(shown)?;
    }
    Ok(())
}

/// Tells what could stand in its place.
fn push_expected(line: &mut String, expected: &Expected) -> Result<(), AllocError> {
    let count = expected.words.len();
    if count == 0 {
        return line.push_str(": unexpected");
    }
    for (index, word) in expected.words.iter().enumerate() {
        line.push_str(if index == 0 {
            ": expected "
        } else if index + 1 == count && expected.is_all {
            " or "
        } else {
            ", "
        })?;
        line.push_str(word)?;
    }
    if expected.is_all {
        Ok(())
    } else {
        line.push_str(", ..")
    }
}

/// Tells in a line why a file was not answered.
pub(crate) fn tell<E: Write>(trouble: Trouble<'_>, err: &mut E) -> Outcome
    ensures { result ≡ outcome_of trouble.entry }
{
    let _ = writeln!(err, "vast_check: {trouble}");
    match trouble {
        Trouble::Write | Trouble::Memory => Outcome::Failed,
        _ => Outcome::Unread,
    }
}
