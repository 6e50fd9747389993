//! What a list gives, as one line of JSON.

ghost use Rattle.std.specs.Prelude.{◌≡◌, IfOk, IsTrue, MatchOption, OnOk, codes, false, true, string_bytes};
ghost use Rattle.vast_core.specs.FileTree.{tree};
ghost use Rattle.vast_list.specs.JsonLine.{EndsWithText, IsListJson};
ghost use Rattle.vast_list.specs.Internal.JsonLine.{AnswersOn, AreAnswers, EndsWithSession, maybe_json};
ghost use Rattle.vast_calls.specs.Lines.{line_texts};
ghost use Rattle.vast_list.specs.Output.{is_made};
ghost use Rattle.vast_session.specs.Session.{IsTextOf};

use crate::answering::ListReport;
use crate::output::Verdict;
use crate::tries::Tries;
use std::alloc::{AllocError, Global};
use std::fmt::Write;
use vast_calls::push_json_text;
use vast_session::{
    Fault, LineFault, LineResult, ListLines, Session, dialect_line, push_fault, push_given,
};
use xlsynth_vast::VastFileType;

/// A list in the answering.
#[derive(Drop)]
struct Answers {
    session: Session,
    /// What helpers and questions gave, with commas between.
    given: String,
    told: ListReport,
}

/// The list as one line of JSON, and how it was taken:
/// `{"source":..,"title":..,"line":..,"verdict":..,"answers":[..],"faults":[..],"more":..,"text":..}`.
///
/// `source` is where the list stands. The title is `null` where the list has none; what of it isn't UTF-8 is replaced.
/// The answers are those of helpers and questions, in the order of their lines. The text is `null` where anything is
/// refused or not in the form. After a fault the list is gone on with, so that all its faults are told.
#[tactic(auto, using(crate::proofs::JsonLines::endings))]
pub fn list_json(
    alloc: Global,
    source: &str,
    list: &ListLines<'_>,
) -> Result<(String, Verdict), AllocError>
    ensures { IfOk result (λ made.
        IsListJson made.1 (line_texts list.now.lines.items) (string_bytes made.0)) }
{
    let mut text = String::from_str(alloc, "{\"source\":")?;
    push_json_text(&mut text, source)?;
    text.push_str(",\"title\":")?;
    match list.title {
        None => text.push_str("null")?,
        Some(title) => push_json_text(&mut text, &String::from_utf8_lossy(alloc, title)?)?,
    }
    write!(text, ",\"line\":{}", list.number)?;
    match dialect_line(alloc, list) {
        Ok((dialect, lines)) => {
            let mut answers = answered(alloc, dialect, lines)?;
            let verdict = push_answers(&mut text, &mut answers)?;
            Ok((text, verdict))
        }
        Err(Fault::Memory) => Err(AllocError),
        Err(Fault::Line(fault)) => {
            push_bad_dialect(alloc, &mut text, fault)?;
            Ok((text, Verdict::NotInForm))
        }
    }
}

/// The end of a list without a dialect.
#[tactic(auto, using(crate::proofs::JsonLines::endings))]
fn push_bad_dialect(alloc: Global, text: &mut String, fault: LineFault) -> Result<(), AllocError>
    ensures { OnOk result (EndsWithText (codes "null") (string_bytes text.new)) }
{
    let mut told = ListReport::new(alloc);
    told.keep(Tries::Once, fault)?;
    text.push_str(",\"verdict\":\"not in form\",\"answers\":[]")?;
    push_told(text, &told)?;
    push_printed(text, None)
}

/// The list's answers, all of whose lines are taken.
fn answered(
    alloc: Global,
    dialect: VastFileType,
    lines: &[(usize, &[u8])],
) -> Result<Answers, AllocError>
    ensures { IfOk result (AreAnswers dialect (line_texts lines.now)) }
{
    let mut answers = Answers {
        session: Session::new(alloc, dialect),
        given: String::new(alloc),
        told: ListReport::new(alloc),
    };
    for (number, line) in lines {
        answers.take(*number, line)?;
    }
    Ok(answers)
}

impl Answers {
    #[tactic(auto, using(crate::proofs::Built::taking))]
    fn take(&mut self, number: usize, line: &[u8]) -> Result<(), AllocError>
        ensures { OnOk result (AnswersOn self.old self.new line.now) }
    {
        match self.session.line(number, line) {
            Ok(given) => self.keep(number, &given),
            Err(Fault::Memory) => Err(AllocError),
            Err(Fault::Line(fault)) => {
                self.session.skip(line)?;
                self.told.keep(Tries::Once, fault)
            }
        }
    }

    fn keep(&mut self, number: usize, given: &LineResult<'_>) -> Result<(), AllocError>
        ensures session { self.new.session ≡ self.old.session }
        ensures told { self.new.told ≡ self.old.told }
    {
        if let LineResult::Nothing | LineResult::Step { number: _, call: _ } = given {
            return Ok(());
        }
        if !self.given.is_empty() {
            self.given.push(',')?;
        }
        push_given(&mut self.given, &self.session, number, given)
    }
}

/// Appends the end of the line, from the verdict on.
#[tactic(auto, using(crate::proofs::JsonLines::endings))]
fn push_answers(text: &mut String, answers: &mut Answers) -> Result<Verdict, AllocError>
    ensures { IfOk result (λ verdict.
        EndsWithSession verdict answers.old.session (string_bytes text.new)
        × (IsTrue (is_made verdict) → IsTrue (is_made answers.old.told.verdict))) }
{
    let printed = printed(&answers.session, &mut answers.told)?;
    push_taken(text, answers)?;
    push_printed(text, printed)?;
    Ok(answers.told.verdict)
}

/// Appends the verdict, what helpers and questions gave, and the faults.
fn push_taken(text: &mut String, answers: &Answers) -> Result<(), AllocError> {
    text.push_str(",\"verdict\":")?;
    push_json_text(text, verdict_word(answers.told.verdict))?;
    text.push_str(",\"answers\":[")?;
    text.push_str(&answers.given)?;
    text.push(']')?;
    push_told(text, &answers.told)
}

/// The file's text; `None` where anything was at fault, as the text may be itself.
#[tactic(auto, using(vast_session::proofs::Sessions::emitted))]
fn printed(session: &Session, told: &mut ListReport) -> Result<Option<String>, AllocError>
    ensures made { IfOk result (λ printed. IsTrue (is_made told.new.verdict) →
        IsTrue (is_made told.old.verdict)) }
    ensures text { IfOk result (λ printed. MatchOption printed (is_made told.new.verdict ≡ false)
        (λ text. (is_made told.new.verdict ≡ true)
        × IsTextOf (tree session.now.file) (string_bytes text))) }
{
    match told.verdict {
        Verdict::Refused | Verdict::NotInForm => Ok(None),
        Verdict::Made => match session.text() {
            Ok(text) => Ok(Some(text)),
            Err(Fault::Memory) => Err(AllocError),
            Err(Fault::Line(fault)) => {
                told.keep(Tries::Once, fault)?;
                Ok(None)
            }
        },
    }
}

/// Appends the text of the file, and the line's end.
#[tactic(auto, using(crate::proofs::JsonLines::endings))]
fn push_printed(text: &mut String, printed: Option<String>) -> Result<(), AllocError>
    ensures { OnOk result
        (EndsWithText (maybe_json printed) (string_bytes text.new)) }
{
    text.push_str(",\"text\":")?;
    match &printed {
        None => text.push_str("null")?,
        Some(printed) => push_json_text(text, printed)?,
    }
    text.push_str("}\n")
}

fn push_told(text: &mut String, told: &ListReport) -> Result<(), AllocError> {
    text.push_str(",\"faults\":[")?;
    let mut is_first = true;
    for fault in &told.faults {
        if !is_first {
            text.push(',')?;
        }
        is_first = false;
        push_fault(text, fault)?;
    }
    write!(text, "],\"more\":{}", told.more)?;
    Ok(())
}

fn verdict_word(verdict: Verdict) -> &'static str {
    match verdict {
        Verdict::Made => "made",
        Verdict::Refused => "refused",
        Verdict::NotInForm => "not in form",
    }
}
