//! Whether a list's file is plain, and which call makes it so that it isn't.

ghost use Rattle.std.specs.Prelude.{◌≡◌, ◌++◌, ℕ, List, IfOk, IfSome, false, true};
ghost use Rattle.vast_core.specs.FileTree.{tree};
ghost use Rattle.vast_literal.specs.PlainFile.{is_plain_file};
ghost use Rattle.vast_calls.specs.Lines.{BeginsWithDialect, line_texts};
ghost use Rattle.vast_list.specs.PlainLists.{PlainnessOf};
ghost use Rattle.vast_list.specs.Untitled.{HasAnswered};
ghost use Rattle.vast_list.specs.Internal.PlainLists.{IsToldNotPlain, IsToldPlain};

use crate::answering::{ListReport, ListRun};
use crate::map::may_write;
use crate::output::Verdict;
use std::alloc::{AllocError, Global};
use std::fmt;
use std::fmt::Write;
use vast_calls::{split_line, text_of};
use vast_session::{Fault, ListLines, Session, dialect_line, write_on_a_line};
use xlsynth_vast::VastFileType;

/// Whether a list's file is plain (`VastFile::is_plain`).
#[derive(Drop)]
pub enum Plainness {
    Plain,
    /// It is not, from the call in the line of this number on.
    NotPlain { line: usize, call: String },
}

impl fmt::Display for Plainness {
    fn fmt<W: fmt::Write>(&self, f: &mut fmt::Formatter<W>) -> fmt::Result {
        match self {
            Plainness::Plain => f.write_str(" plain"),
            Plainness::NotPlain { line, call } => {
                write!(f, "{line}: ")?;
                write_on_a_line(call, f)?;
                f.write_str(": not plain")
            }
        }
    }
}

/// Whether the list's file is plain; else the first call after which it is not. `None` where the list has no dialect, or
/// something of it is at fault.
///
/// The file is looked at after each call that may write, and at the end.
pub fn list_plainness(alloc: Global, list: &ListLines<'_>) -> Result<Option<Plainness>, AllocError>
    ensures { IfOk result (λ found. IfSome found
        (λ plainness. PlainnessOf plainness (line_texts list.now.lines.items))) }
{
    match dialect_line(alloc, list) {
        Ok((dialect, lines)) => plainness_of(alloc, list.title, dialect, lines),
        Err(Fault::Memory) => Err(AllocError),
        Err(Fault::Line(_)) => Ok(None),
    }
}

/// What is told of a list of the dialect, after whose line these stand.
fn plainness_of(
    alloc: Global,
    title: Option<&[u8]>,
    dialect: VastFileType,
    lines: &[(usize, &[u8])],
) -> Result<Option<Plainness>, AllocError>
    ensures { (list : List (List ℕ)) → BeginsWithDialect list dialect (line_texts lines.now) →
        IfOk result (λ found. IfSome found (λ plainness. PlainnessOf plainness list)) }
{
    let mut answering = ListRun {
        session: Session::new(alloc, dialect),
        trial: None,
        report: title.map(|_| Vec::new(alloc)),
        is_stopped: false,
        told: ListReport::new(alloc),
    };
    let found = plainness_behind(alloc, &mut answering, lines);
    drop(answering);
    found
}

/// What is told once all of these lines are taken.
fn plainness_behind(
    alloc: Global,
    answering: &mut ListRun<'_>,
    lines: &[(usize, &[u8])],
) -> Result<Option<Plainness>, AllocError>
    ensures { (before : List (List ℕ)) → HasAnswered before answering.old →
        IfOk result (λ found. IfSome found
        (λ plainness. PlainnessOf plainness (before ++ line_texts lines.now))) }
{
    for (number, line) in lines {
        answering.take(*number, line)?;
        let is_spoiled = is_spoiled(answering, line)?;
        if is_spoiled {
            return not_plain(alloc, answering, *number, line);
        }
    }
    plain(answering)
}

/// Whether the line's call may write, and the file is not plain after it.
fn is_spoiled(answering: &ListRun<'_>, line: &[u8]) -> Result<bool, AllocError>
    ensures { IfOk result (λ is_spoiled. is_spoiled ≡ true →
        is_plain_file (tree answering.now.session.file) ≡ false) }
{
    if !may_write(line) {
        return Ok(false);
    }
    Ok(!answering.session.file().is_plain()?)
}

/// The file is plain, where nothing is at fault.
fn plain(answering: &ListRun<'_>) -> Result<Option<Plainness>, AllocError>
    ensures { IfOk result (λ found. IfSome found (IsToldPlain answering.now)) }
{
    if !matches!(answering.told.verdict, Verdict::Made) || !answering.session.file().is_plain()? {
        return Ok(None);
    }
    Ok(Some(Plainness::Plain))
}

/// The file is not plain after the line of this number, where nothing is at fault.
fn not_plain(
    alloc: Global,
    answering: &ListRun<'_>,
    number: usize,
    line: &[u8],
) -> Result<Option<Plainness>, AllocError>
    requires { is_plain_file (tree answering.now.session.file) ≡ false }
    ensures { IfOk result (λ found. IfSome found (IsToldNotPlain answering.now line.now)) }
{
    match (answering.told.verdict, text_of(line)) {
        (Verdict::Made, Ok(text)) => {
            let call = String::from_str(alloc, split_line(text).1)?;
            let line = number;
            Ok(Some(Plainness::NotPlain { line, call }))
        }
        _ => Ok(None),
    }
}
