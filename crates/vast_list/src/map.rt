//! Which line of a list each line of its file's text comes from.

ghost use Rattle.std.specs.Prelude.{◌≡◌, IfOk, IsTrue, None, Some, false};
ghost use Rattle.vast_calls.specs.Lines.{line_texts};
ghost use Rattle.vast_list.specs.Origins.{IsMapped};
ghost use Rattle.vast_list.specs.Internal.Output.{IsAnswered};
ghost use Rattle.vast_list.specs.Internal.Origins.{IsMapOfFile};

use crate::answering::ListRun;
use crate::origins::Origins;
use crate::output::Verdict;
use crate::tries::Tries;
use std::alloc::{AllocError, Global};
use vast_calls::{split_line, text_of};
use vast_literal::VastFault;
use vast_session::{Fault, ListLines, Session, dialect_line};
use xlsynth_vast::VastFileType;

/// The lines of the file's text, each with the number of the line of the list whose call wrote it, and how the list was
/// taken; `None` where the list has no text.
///
/// After each call the file is printed, and the text is compared with the one before, line by line: what both begin and
/// end with keeps its numbers, and what is between has the call's. A line that the call only changes keeps its number, as
/// `if (a) begin end` that becomes `if (a) begin`; and so do lines that are moved.
#[tactic(auto, using(crate::proofs::Mapped::maps))]
pub fn list_origins(
    alloc: Global,
    list: &ListLines<'_>,
) -> Result<(Option<Origins>, Verdict), AllocError>
    ensures { IfOk result (λ made. IsMapped (line_texts list.now.lines.items) made.0 made.1) }
{
    match dialect_line(alloc, list) {
        Ok((dialect, lines)) => {
            let mut origins = Origins::new(alloc);
            let report = list.title.map(|_| Vec::new(alloc));
            let answering = followed(alloc, &mut origins, report, dialect, lines)?;
            finished(origins, answering)
        }
        Err(Fault::Memory) => Err(AllocError),
        Err(Fault::Line(_)) => Ok((None, Verdict::NotInForm)),
    }
}

/// Makes the calls of the lines, and numbers the text after each.
fn followed(
    alloc: Global,
    origins: &mut Origins,
    report: Option<Vec<u8>>,
    dialect: VastFileType,
    lines: &[(usize, &[u8])],
) -> Result<ListRun<'static>, AllocError>
    ensures { IfOk result (λ answering.
        IsAnswered Tries.Once dialect (line_texts lines.now) answering) }
{
    let mut answering = ListRun::new(alloc, dialect, None, report);
    for (number, line) in lines {
        let before = answering.session.answers().len();
        answering.take(*number, line)?;
        if answering.session.answers().len() > before && may_write(line) {
            follow(origins, &answering.session, *number)?;
        }
    }
    Ok(answering)
}

/// Whether the line's call can change the file's text: what a `Make` call answers stands nowhere yet.
pub(crate) fn may_write(line: &[u8]) -> bool {
    match text_of(line) {
        Ok(text) => !split_line(text).1.starts_with("Make"),
        Err(_) => false,
    }
}

/// The call of this line was made. A text that is refused stays so.
fn follow(origins: &mut Origins, session: &Session, number: usize) -> Result<(), AllocError> {
    match session.file().emit() {
        Ok(text) => origins.follow(number, text.as_bytes()),
        Err(VastFault::Refused(_)) => Ok(()),
        Err(VastFault::Memory(error)) => Err(error),
    }
}

/// All calls were made. The run is let go by a call: where it went out of scope at an early return, the check would
/// write how each of its fields is let go once more for each of them.
fn finished(
    mut origins: Origins,
    mut answering: ListRun<'_>,
) -> Result<(Option<Origins>, Verdict), AllocError>
    ensures { IfOk result (λ made. IsMapOfFile answering.entry made.0 made.1) }
{
    let ended = end(&mut origins, &mut answering);
    let verdict = answering.told.verdict;
    drop(answering);
    if ended? {
        Ok((Some(origins), verdict))
    } else {
        Ok((None, verdict))
    }
}

/// Numbers the lines of the file's text; `false` where it has none.
#[tactic(auto, using(crate::proofs::Mapped::maps))]
fn end(origins: &mut Origins, answering: &mut ListRun<'_>) -> Result<bool, AllocError>
    ensures text { IfOk result (λ is_written. IsTrue is_written →
        IsMapOfFile answering.old (Some origins.new) answering.new.told.verdict) }
    ensures none { IfOk result (λ is_written. is_written ≡ false →
        IsMapOfFile answering.old None answering.new.told.verdict) }
{
    match answering.session.text() {
        Ok(text) => {
            origins.follow(0, text.as_bytes())?;
            Ok(true)
        }
        Err(Fault::Memory) => Err(AllocError),
        Err(Fault::Line(fault)) => {
            answering.told.keep(Tries::Once, fault)?;
            Ok(false)
        }
    }
}

/// The list's line of JSON with the map as its last member: `"map":[..]`, for each line of the text the number of the line
/// of the list; `null` where the text is.
pub fn json_with_map(
    alloc: Global,
    list: &ListLines<'_>,
    line: &str,
    verdict: Verdict,
) -> Result<String, AllocError> {
    let mut text = String::from_str(alloc, line.strip_suffix("}\n").unwrap_or(line))?;
    text.push_str(",\"map\":")?;
    let origins = match verdict {
        Verdict::Made => list_origins(alloc, list)?.0,
        Verdict::Refused | Verdict::NotInForm => None,
    };
    match origins {
        Some(origins) => origins.push_json(&mut text)?,
        None => text.push_str("null")?,
    }
    text.push_str("}\n")?;
    Ok(text)
}
