//! What is printed of a list.

ghost use Rattle.std.specs.Prelude.{◌≡◌, ◌++◌, IfOk, IfSome, IsTrue, None, OnOk, Some, false, is_some, string_bytes};
ghost use Rattle.vast_core.specs.FileTree.{tree};
ghost use Rattle.vast_calls.specs.Lines.{BeginsWithDialect, line_texts};
ghost use Rattle.vast_list.specs.Output.{header_line, is_again, is_made, IsOutput, IsPrinted};
ghost use Rattle.vast_list.specs.Internal.Output.{EndsWithFile, IsAnswered, IsDesign, IsFinished, IsReport};
ghost use Rattle.vast_session.specs.Session.{IsTextOf};

use crate::again::Rerun;
use crate::answering::{ListReport, ListRun, append};
use crate::tried;
use crate::tries::Tries;
use std::alloc::{AllocError, Global};
use std::mem::replace;
use vast_session::{Fault, HEADER, LineFault, ListLines, Session, dialect_line};
use xlsynth_vast::VastFileType;

/// How a list was taken.
#[derive(Clone, Copy, Debug, PartialEq, Eq)]
pub enum Verdict {
    /// All of it was made, answered and printed.
    Made,
    /// A step, a helper, a question or the file's text was refused.
    Refused,
    /// A line is not in the form.
    NotInForm,
}

/// What becomes of a list.
#[derive(Drop)]
pub struct ListOutput {
    /// What is printed of it.
    pub output: Option<Vec<u8>>,
    pub verdict: Verdict,
    /// Its faults in the order of the lines, [`MOST_FAULTS`] at most.
    pub faults: Vec<LineFault>,
    /// How many faults there are beside those.
    pub more: usize,
}

/// How many faults of a list are told.
pub const MOST_FAULTS: usize = 20;

/// What is printed of the list: after a header the header and all that the list gives, else the file's text alone; and
/// what is told of its faults.
///
/// Where a line is not in the form, nothing is printed; without a header also where something is refused. After a header
/// steps after the first that is refused are not made, and questions and helpers are answered all the same.
///
/// With `Tries::Again` what was refused memory is made once more, and a refused call must have left the file as it was:
/// where one request is refused, the output is that of a run without.
pub fn list_output(
    alloc: Global,
    tries: Tries,
    list: &ListLines<'_>,
) -> Result<ListOutput, AllocError>
    ensures text { IfOk result (λ made. IfSome made.output
        (λ output. IsOutput tries list.now.title (line_texts list.now.lines.items)
        made.verdict output.items)) }
    ensures printed { IfOk result IsPrinted }
{
    titled_output(alloc, tries, list.title, list)
}

/// The same under this title in place of the list's own, or under none.
#[tactic(auto, using(crate::proofs::Outputs::outputs))]
pub(crate) fn titled_output(
    alloc: Global,
    tries: Tries,
    title: Option<&[u8]>,
    list: &ListLines<'_>,
) -> Result<ListOutput, AllocError>
    ensures text { IfOk result (λ made. IfSome made.output
        (λ output. IsOutput tries title.entry (line_texts list.now.lines.items)
        made.verdict output.items)) }
    ensures printed { IfOk result IsPrinted }
{
    match dialect_again(alloc, tries, list) {
        Ok((dialect, lines)) => {
            let answering = answered(alloc, tries, title, dialect, lines)?;
            finished(alloc, tries, title, answering)
        }
        Err(Fault::Memory) => Err(AllocError),
        Err(Fault::Line(fault)) => at_fault(alloc, tries, fault),
    }
}

/// What [`dialect_line`] finds, once more where memory was refused and the tries allow it.
fn dialect_again<'l, 'a>(
    alloc: Global,
    tries: Tries,
    list: &'l ListLines<'a>,
) -> Result<(VastFileType, &'l [(usize, &'a [u8])]), Fault>
    ensures { IfOk result (λ found.
        BeginsWithDialect (line_texts list.now.lines.items) found.0 (line_texts found.1.now)) }
{
    tried!(tries, dialect_line(alloc, list), Fault::Memory)
}

/// What the list's file is held against, where the tries want it.
fn trial_of<'a>(
    alloc: Global,
    tries: Tries,
    dialect: VastFileType,
    lines: &[(usize, &'a [u8])],
) -> Result<Option<Rerun<'a>>, AllocError>
    ensures { IfOk result (λ trial. is_some trial ≡ is_again tries) }
{
    match tries {
        Tries::Once => Ok(None),
        Tries::Again => Ok(Some(Rerun::new(alloc, dialect, lines)?)),
    }
}

/// Takes all lines.
fn answered<'a>(
    alloc: Global,
    tries: Tries,
    title: Option<&[u8]>,
    dialect: VastFileType,
    lines: &[(usize, &'a [u8])],
) -> Result<ListRun<'a>, AllocError>
    ensures { IfOk result (λ answering.
        IsAnswered tries dialect (line_texts lines.now) answering) }
{
    let trial = trial_of(alloc, tries, dialect, lines)?;
    let report = title.map(|_| Vec::new(alloc));
    let mut answering = ListRun::new(alloc, dialect, trial, report);
    for (number, line) in lines {
        answering.take(*number, line)?;
    }
    Ok(answering)
}

/// A list of which this fault alone is told.
pub(crate) fn at_fault(
    alloc: Global,
    tries: Tries,
    fault: LineFault,
) -> Result<ListOutput, AllocError>
    ensures none { IfOk result (λ made. made.output ≡ None) }
    ensures fault { IfOk result (λ made. is_made made.verdict ≡ false) }
{
    let mut told = ListReport::new(alloc);
    told.keep(tries, fault)?;
    Ok(output_of(None, told))
}

/// A list in packed form.
pub(crate) fn packed_bytes(alloc: Global, bytes: Vec<u8>) -> ListOutput
    ensures { result.output ≡ Some bytes }
{
    output_of(Some(bytes), ListReport::new(alloc))
}

fn output_of(output: Option<Vec<u8>>, told: ListReport) -> ListOutput
    ensures output { result.output ≡ output }
    ensures verdict { result.verdict ≡ told.verdict }
{
    let ListReport {
        verdict,
        faults,
        more,
    } = told;
    ListOutput {
        output,
        verdict,
        faults,
        more,
    }
}

/// What the list gives, all of whose lines were taken.
#[tactic(auto, using(crate::proofs::Outputs::titles))]
pub(crate) fn finished(
    alloc: Global,
    tries: Tries,
    title: Option<&[u8]>,
    answering: ListRun<'_>,
) -> Result<ListOutput, AllocError>
    ensures text { IfOk result (λ made. IfSome made.output
        (λ output. IsFinished title.entry answering.entry made.verdict output.items)) }
    ensures printed { IfOk result IsPrinted }
{
    if let Verdict::NotInForm = answering.told.verdict {
        return Ok(output_of(None, answering.told));
    }
    match title {
        None => design(tries, answering),
        Some(title) => report(alloc, tries, title, answering),
    }
}

/// The file's text, where nothing was refused.
fn design(tries: Tries, answering: ListRun<'_>) -> Result<ListOutput, AllocError>
    ensures text { IfOk result (λ made. IfSome made.output
        (λ output. IsDesign answering.entry output.items)) }
    ensures printed { IfOk result IsPrinted }
{
    let ListRun {
        mut session,
        told,
        ..
    } = answering;
    session.forget_answers();
    match told.verdict {
        Verdict::Made => printed(tries, &session, told),
        Verdict::Refused | Verdict::NotInForm => Ok(output_of(None, told)),
    }
}

/// The file's text, or its refusal.
pub(crate) fn printed(
    tries: Tries,
    session: &Session,
    mut told: ListReport,
) -> Result<ListOutput, AllocError>
    ensures text { IfOk result (λ made. IfSome made.output
        (λ output. IsTextOf (tree session.now.file) output.items)) }
    ensures printed { IfOk result IsPrinted }
{
    match text_again(tries, session) {
        Ok(text) => Ok(output_of(Some(text.into_bytes()), told)),
        Err(Fault::Memory) => Err(AllocError),
        Err(Fault::Line(fault)) => {
            told.keep(tries, fault)?;
            Ok(output_of(None, told))
        }
    }
}

/// The file's text, asked for once more where memory was refused.
fn text_again(tries: Tries, session: &Session) -> Result<String, Fault>
    ensures { IfOk result (λ text. IsTextOf (tree session.now.file) (string_bytes text)) }
{
    match session.text() {
        Err(Fault::Memory) if matches!(tries, Tries::Again) => session.text(),
        made => made,
    }
}

/// The header, and after it what the lines give and the file's text. The run is let go by a call.
fn report(
    alloc: Global,
    tries: Tries,
    title: &[u8],
    mut answering: ListRun<'_>,
) -> Result<ListOutput, AllocError>
    ensures text { IfOk result (λ made. IfSome made.output
        (λ output. IsReport title.now answering.entry made.verdict output.items)) }
    ensures printed { IfOk result IsPrinted }
{
    let output = report_text(alloc, tries, title, &mut answering);
    let told = replace(&mut answering.told, ListReport::new(alloc));
    drop(answering);
    Ok(output_of(Some(output?), told))
}

/// What is printed of a list with a header.
fn report_text(
    alloc: Global,
    tries: Tries,
    title: &[u8],
    answering: &mut ListRun<'_>,
) -> Result<Vec<u8>, AllocError>
    ensures { IfOk result (λ output.
        IsReport title.now answering.old answering.new.told.verdict output.items) }
{
    answering.print_left()?;
    let mut body = answering.report.take().unwrap_or(Vec::new(alloc));
    append_file(tries, &answering.session, &mut body, &mut answering.told)?;
    tried!(tries, titled(alloc, title, &body))
}

/// Appends the file's text, or its refusal, which is then told.
fn append_file(
    tries: Tries,
    session: &Session,
    body: &mut Vec<u8>,
    told: &mut ListReport,
) -> Result<(), AllocError>
    ensures { OnOk result (IsTrue (is_made told.new.verdict) →
        IsTrue (is_made told.old.verdict) × EndsWithFile session.now body.new.items) }
{
    match text_again(tries, session) {
        Ok(text) => append(tries, body, &text),
        Err(Fault::Memory) => Err(AllocError),
        Err(Fault::Line(fault)) => {
            append(tries, body, "refused: ")?;
            append(tries, body, &fault.words)?;
            append(tries, body, "\n")?;
            told.keep(tries, fault)
        }
    }
}

/// The header and what stands after it.
fn titled(alloc: Global, title: &[u8], body: &[u8]) -> Result<Vec<u8>, AllocError>
    ensures { IfOk result (λ output. output.items ≡ header_line title.now ++ body.now) }
{
    let mut output = header(alloc, title)?;
    output.extend_from_slice(body)?;
    Ok(output)
}

/// The line before a list.
fn header(alloc: Global, title: &[u8]) -> Result<Vec<u8>, AllocError>
    ensures { IfOk result (λ line. line.items ≡ header_line title.now) }
{
    let mut line = Vec::new(alloc);
    line.extend_from_slice(HEADER)?;
    line.extend_from_slice(title)?;
    line.push(b'\n')?;
    Ok(line)
}
