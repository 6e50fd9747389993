//! Faults of lines.

ghost use Rattle.std.specs.Prelude.{◌≡◌, IfOk, None, Some, string_bytes};
ghost use Rattle.vast_session.specs.Session.{IsOfLine};
ghost use Rattle.vast_session.specs.Internal.Session.{IsToldOf};
ghost use Rattle.vast_session.specs.declared.fault.Fault.TheVariants.{Memory};
ghost use Rattle.vast_script.specs.declared.fault.StepFault.TheVariants.{Refused};

use crate::session::Session;
use std::alloc::{AllocError, AllocFailed, Global};
use std::fmt;
use vast_calls::{Misfit, Problem, nearest_call, usage};
use vast_literal::{VastError, VastFault};
use vast_script::StepFault;
use xlsynth_vast::{Expr, VastFile};

/// Why a line gave nothing.
#[derive(Drop)]
pub enum Fault {
    /// The line is at fault.
    Line(LineFault),
    /// Memory was refused.
    Memory,
}

/// What is wrong with a line.
#[derive(Drop)]
pub struct LineFault {
    /// The line's number in the input, from 1; 0 where no line is known.
    pub line: usize,
    /// The character where the line stops being in the form, from 1; `None` where the line is in the form.
    pub column: Option<usize>,
    /// The call's name as it stands in the line, its sign included; empty where what stands before it is not in the form.
    pub call: String,
    /// The number that the step or the helper would have had.
    pub step: Option<usize>,
    /// Why the call is not made; `None` where the line is not in the form.
    pub cause: Option<StepFault>,
    /// What is wrong, in words, without the line and the call.
    pub words: String,
    /// Whether the line only uses the answer of one that was passed over.
    pub follows: bool,
}

impl From<AllocError> for Fault {
    ghost from_gives = { λ _ fault. fault ≡ Memory };

    fn from(_error: AllocError) -> Fault {
        Fault::Memory
    }
}

impl<T: Drop> From<AllocFailed<T>> for Fault {
    ghost from_gives = { λ _ fault. fault ≡ Memory };

    fn from(_failed: AllocFailed<T>) -> Fault {
        Fault::Memory
    }
}

/// `12: AddInput: the name "clk" is taken`, and `12:9: ..` with a column.
impl fmt::Display for LineFault {
    fn fmt<W: fmt::Write>(&self, f: &mut fmt::Formatter<W>) -> fmt::Result {
        let line = self.line;
        write!(f, "{line}")?;
        if let Some(column) = self.column {
            write!(f, ":{column}")?;
        }
        f.write_str(": ")?;
        if !self.call.is_empty() {
            write_on_a_line(&self.call, f)?;
            f.write_str(": ")?;
        }
        write_on_a_line(&self.words, f)
    }
}

/// Writes the text with an escape for each of its control characters, so that it stands on one line.
pub fn write_on_a_line<W: fmt::Write>(text: &str, f: &mut fmt::Formatter<W>) -> fmt::Result {
    for c in text.chars() {
        if c.is_control() {
            let code = u32::from(c);
            write!(f, "\\u{code:04x}")?;
        } else {
            f.write_char(c)?;
        }
    }
    Ok(())
}

/// The fault of a line that is not in the form.
pub(crate) fn misread(alloc: Global, line: usize, text: &str, call: &str, misfit: Misfit) -> Fault
    ensures { IsToldOf line call.now None None result }
{
    if let Problem::Memory = misfit.problem {
        return Fault::Memory;
    }
    let column = column(text, text.len().saturating_sub(misfit.left));
    match told(alloc, line, column, text, call, misfit) {
        Ok(fault) => Fault::Line(fault),
        Err(_) => Fault::Memory,
    }
}

/// The fault of a line, or of a list that begins there, of which no more is told than the problem.
#[tactic(auto, using(crate::proofs::Sessions::dialects))]
pub fn problem_fault(alloc: Global, line: usize, problem: Problem) -> Fault
    ensures { IsOfLine line result }
{
    misread(alloc, line, "", "", Misfit { left: 0, problem })
}

/// The fault of a packed call of so many bytes that is not in the form.
pub(crate) fn mispacked(
    alloc: Global,
    number: usize,
    bytes: usize,
    call: &str,
    misfit: Misfit,
) -> Fault
    ensures { IsToldOf number call.now None None result }
{
    if let Problem::Memory = misfit.problem {
        return Fault::Memory;
    }
    let column = bytes.saturating_sub(misfit.left).saturating_add(1);
    match told(alloc, number, column, "", call, misfit) {
        Ok(fault) => Fault::Line(fault),
        Err(_) => Fault::Memory,
    }
}

fn told(
    alloc: Global,
    line: usize,
    column: usize,
    text: &str,
    call: &str,
    misfit: Misfit,
) -> Result<LineFault, AllocError>
    ensures line { IfOk result (λ fault. fault.line ≡ line) }
    ensures call { IfOk result (λ fault. string_bytes fault.call ≡ call.now) }
    ensures step { IfOk result (λ fault. fault.step ≡ None) }
    ensures cause { IfOk result (λ fault. fault.cause ≡ None) }
{
    Ok(LineFault {
        line,
        column: Some(column),
        call: String::from_str(alloc, call)?,
        step: None,
        cause: None,
        words: words(alloc, text, call, misfit)?,
        follows: matches!(misfit.problem, Problem::Skipped),
    })
}

/// The number of the character that begins at this byte, from 1.
fn column(text: &str, at: usize) -> usize {
    let mut column: usize = 1;
    let mut bytes: usize = 0;
    for c in text.chars() {
        bytes = bytes.saturating_add(c.len_utf8());
        if bytes > at {
            break;
        }
        column = column.saturating_add(1);
    }
    column
}

/// What is wrong with a line that is not in the form.
fn words(alloc: Global, text: &str, call: &str, misfit: Misfit) -> Result<String, AllocError> {
    let problem = misfit.problem;
    let word = word_at(text, text.len().saturating_sub(misfit.left));
    match problem {
        Problem::UnknownCall => unknown_call(alloc, call),
        Problem::Missing => {
            let usage = usage(alloc, call)?;
            format!(in alloc; "an argument is missing: {usage}")
        }
        Problem::TooMany if word.is_empty() => {
            let usage = usage(alloc, call)?;
            format!(in alloc; "an argument too many: {usage}")
        }
        Problem::TooMany => {
            let usage = usage(alloc, call)?;
            format!(in alloc; "an argument too many, `{word}`: {usage}")
        }
        Problem::NameUnknown | Problem::NameTaken => format!(in alloc; "{problem} `{word}`"),
        _ if names_itself(problem) || word.is_empty() => format!(in alloc; "{problem}"),
        _ => format!(in alloc; "{problem}, not `{word}`"),
    }
}

/// Whether the problem's words say what stands there.
fn names_itself(problem: Problem) -> bool {
    match problem {
        Problem::OpenText | Problem::NotUtf8 | Problem::OpenList | Problem::Indented => true,
        Problem::Space | Problem::UnknownEscape | Problem::LoneSurrogate => true,
        _ => false,
    }
}

/// The word that begins at this byte.
fn word_at(text: &str, at: usize) -> &str {
    let rest = text.get(at..).unwrap_or("");
    match rest.split_once(' ') {
        Some((word, _)) => word,
        None => rest,
    }
}

fn unknown_call(alloc: Global, call: &str) -> Result<String, AllocError> {
    if call == "?Warnings" {
        return String::from_str(
            alloc,
            "answered in a session with --lint alone, without a name or an argument",
        );
    }
    match nearest_call(alloc, call)? {
        Some(nearest) => format!(in alloc; "unknown call; `{nearest}` is the nearest"),
        None => String::from_str(alloc, "unknown call"),
    }
}

/// The fault of a text that is refused; its line is that of the first bit select or part select that is refused in the
/// same words.
pub(crate) fn refused_text(session: &Session, error: VastError) -> Result<LineFault, AllocError>
    ensures cause { IfOk result (λ fault. fault.cause ≡ Some (Refused error)) }
    ensures words { IfOk result (λ fault. string_bytes fault.words ≡ string_bytes error.0) }
{
    let alloc = session.file().allocator();
    let words = String::from_str(alloc, &error.0)?;
    let mut line = 0;
    for select in session.selects() {
        if is_refused(session.file(), select.expression, &words)? {
            line = select.line;
            break;
        }
    }
    Ok(LineFault {
        line,
        column: None,
        call: String::new(alloc),
        step: None,
        cause: Some(StepFault::Refused(error)),
        words,
        follows: false,
    })
}

/// Whether the text of the select is refused in these words.
fn is_refused(file: &VastFile, select: Expr, words: &str) -> Result<bool, AllocError> {
    if !file.owns(&select) {
        return Ok(false);
    }
    match file.emit_expression(&select) {
        Ok(_) => Ok(false),
        Err(VastFault::Refused(error)) => {
            let text = format!(in file.allocator(); "{error}")?;
            Ok(text.as_str() == words)
        }
        Err(VastFault::Memory(error)) => Err(error),
    }
}
