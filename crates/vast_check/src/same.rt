//! Whether two files are the same.

ghost use Rattle.std.specs.Prelude.{◌≡◌, ◌≢◌, ◌⊎◌, IfOk, codes, string_bytes};
ghost use Rattle.std.specs.Io.KnownBytes.{Appends};
ghost use Rattle.vast_check.specs.Check.{AreSame};
ghost use Rattle.vast_check.specs.Internal.Check.{Compares};

use crate::answer::{Answer, answer_of};
use crate::difference::{Pair, from_difference, push_line_at, push_number};
use crate::outcome::Outcome;
use crate::program::{Trouble, tell, underived_line, write_made};
use std::alloc::{AllocError, Global};
use std::io::Write;
use std::str;
use vast_read::{Comparison, are_same, first_difference};

/// A file that was read.
#[derive(Clone, Copy)]
pub(crate) struct Source<'t> {
    pub(crate) name: &'t str,
    pub(crate) bytes: &'t [u8],
}

/// What is found of two files.
#[derive(Clone, Copy)]
pub(crate) enum PairResult<'t> {
    /// The grammar derives one file from both.
    Same,
    /// It derives two: their texts.
    Different(Pair<'t>),
    /// From one of them it derives none.
    Underived,
}

/// Tells on `out` whether the grammar derives one file from both, or where the two begin to differ, or which of them is
/// not derived, and where.
pub(crate) fn compare<W: Write, E: Write>(
    alloc: Global,
    old: Source<'_>,
    new: Source<'_>,
    out: &mut W,
    err: &mut E,
) -> Outcome
    ensures same { result ≡ Outcome.Yes → AreSame old.entry.bytes.now new.entry.bytes.now ×
        Appends (W.contents out.old) (W.contents out.new) (codes "same\n") }
    ensures other { result ≡ Outcome.No → AreSame old.entry.bytes.now new.entry.bytes.now → ⊥ }
    ensures told { result ≢ Outcome.Unread }
    ensures silent { result ≢ Outcome.Failed → E.contents err.new ≡ E.contents err.old }
{
    match found_of(alloc, old.bytes, new.bytes) {
        Ok(PairResult::Same) => write_made(same_line(alloc), Outcome::Yes, out, err),
        Ok(PairResult::Different(texts)) => write_made(
            difference_line(alloc, old.name, new.name, texts),
            Outcome::No,
            out,
            err,
        ),
        Ok(PairResult::Underived) => {
            let told = tell_underived(alloc, old, out, err);
            told.and(tell_underived(alloc, new, out, err))
        }
        Err(_) => tell(Trouble::Memory, err),
    }
}

/// What is found of two files.
fn found_of<'t>(alloc: Global, old: &'t [u8], new: &'t [u8]) -> Result<PairResult<'t>, AllocError>
    ensures { IfOk result (Compares old.now new.now) }
{
    match (str::from_utf8(old), str::from_utf8(new)) {
        (Ok(old), Ok(new)) => found_texts(alloc, Pair { old, new }),
        _ => Ok(PairResult::Underived),
    }
}

fn found_texts(alloc: Global, texts: Pair<'_>) -> Result<PairResult<'_>, AllocError>
    ensures { IfOk result (Compares texts.entry.old.now texts.entry.new.now) }
{
    match are_same(alloc, texts.old, texts.new)? {
        Comparison::Same => Ok(PairResult::Same),
        Comparison::Different => Ok(PairResult::Different(texts)),
        Comparison::OldUnderived | Comparison::NewUnderived => Ok(PairResult::Underived),
    }
}

fn same_line(alloc: Global) -> Result<String, AllocError>
    ensures { IfOk result (λ line. string_bytes line ≡ codes "same\n") }
{
    String::from_str(alloc, "same\n")
}

/// The line that tells where the two begin to differ: `OLD:14: NEW:17: `, and the line of each there.
fn difference_line(
    alloc: Global,
    old_name: &str,
    new_name: &str,
    texts: Pair<'_>,
) -> Result<String, AllocError> {
    let rest = match first_difference(alloc, texts.old, texts.new)? {
        Some(found) => from_difference(texts, found),
        None => texts,
    };
    let mut line = String::from_str(alloc, old_name)?;
    line.push(':')?;
    push_number(&mut line, texts.old, rest.old)?;
    line.push_str(": ")?;
    line.push_str(new_name)?;
    line.push(':')?;
    push_number(&mut line, texts.new, rest.new)?;
    line.push_str(": ")?;
    push_line_at(alloc, &mut line, texts.old, rest.old)?;
    line.push_str(" -> ")?;
    push_line_at(alloc, &mut line, texts.new, rest.new)?;
    line.push('\n')?;
    Ok(line)
}

/// Tells where a file is not derived, if it isn't.
fn tell_underived<W: Write, E: Write>(
    alloc: Global,
    source: Source<'_>,
    out: &mut W,
    err: &mut E,
) -> Outcome
    ensures told { (result ≡ Outcome.No) ⊎ (result ≡ Outcome.Failed) }
    ensures silent { result ≢ Outcome.Failed → E.contents err.new ≡ E.contents err.old }
{
    match answer_of(alloc, source.bytes) {
        Ok(Answer::Derived) => Outcome::No,
        Ok(answer) => write_made(
            underived_line(alloc, source.name, &answer),
            Outcome::No,
            out,
            err,
        ),
        Err(_) => tell(Trouble::Memory, err),
    }
}
