//! What the calls of a list print that is no SystemVerilog or Verilog, or that a tool refuses.

ghost use Rattle.std.specs.Prelude.{◌≡◌, ◌++◌, IfOk, OnOk, string_bytes};
ghost use Rattle.vast_talk.specs.Linted.{IsLevel};
ghost use Rattle.vast_talk.specs.Warnings.{HasWarnings, IsWithoutEnd, rule_members, warning_front};
ghost use Rattle.vast_talk.specs.Internal.Warnings.{AddsLastMember, AddsMoreWarnings, AddsWarning, AddsWarningList};

use crate::linted::{SessionLint, take_linted};
use std::alloc::{AllocError, Global};
use std::fmt;
use std::fmt::Write;
use vast_calls::{is_step, push_json_text};
use vast_lint::Rule;
use vast_session::{Fault, ListLines, Session, dialect_line, write_on_a_line};

/// A form that a line's call prints, which is no SystemVerilog or Verilog, or which a tool refuses.
#[derive(Drop)]
pub struct LineWarning {
    /// The line's number in the input.
    pub line: usize,
    /// The call's name.
    pub call: String,
    /// The text of the expression that shows it, where there is one.
    pub text: Option<String>,
    pub rule: Rule,
}

impl fmt::Display for LineWarning {
    fn fmt<W: fmt::Write>(&self, f: &mut fmt::Formatter<W>) -> fmt::Result {
        write!(f, "{}: ", self.line)?;
        write_on_a_line(&self.call, f)?;
        if let Some(text) = &self.text {
            f.write_str(": prints \"")?;
            write_on_a_line(text, f)?;
            f.write_str("\"")?;
        }
        write!(f, ": {} ({})", self.rule.why(), self.rule.tools())
    }
}

/// The warnings of a list, those of its lines in order, and after them those that only its end tells. Lines that are
/// refused, and those that use them, are passed over, as where the list is answered.
pub fn list_warnings(alloc: Global, list: &ListLines<'_>) -> Result<Vec<LineWarning>, AllocError> {
    let mut warnings = Vec::new(alloc);
    let (dialect, lines) = match dialect_line(alloc, list) {
        Ok(found) => found,
        Err(Fault::Memory) => return Err(AllocError),
        Err(Fault::Line(_)) => return Ok(warnings),
    };
    let mut taking = Taking {
        session: Session::new(alloc, dialect),
        lint: SessionLint::new(alloc, dialect),
        has_title: list.title.is_some(),
        is_stopped: false,
    };
    for (number, line) in lines {
        taking.take(*number, line, &mut warnings)?;
    }
    taking.lint.end(&taking.session, &mut warnings)?;
    Ok(warnings)
}

/// A list whose lines are taken one by one, with a lint beside it.
#[derive(Drop)]
struct Taking {
    session: Session,
    lint: SessionLint,
    has_title: bool,
    /// Whether a step or a helper was refused.
    is_stopped: bool,
}

impl Taking {
    /// Takes the line, and appends what its call prints, if it is one that was made. After a header steps after the
    /// first that is refused are not made.
    fn take(
        &mut self,
        number: usize,
        line: &[u8],
        warnings: &mut Vec<LineWarning>,
    ) -> Result<(), AllocError>
        ensures { IsLevel self.old.lint self.old.session → OnOk result
            (IsLevel self.new.lint self.new.session) }
    {
        if self.is_stopped && self.has_title && is_step(line) {
            return self.session.skip(line);
        }
        match take_linted(&mut self.session, &mut self.lint, number, line, warnings) {
            Ok(_) => Ok(()),
            Err(Fault::Memory) => Err(AllocError),
            Err(Fault::Line(fault)) => {
                self.is_stopped = self.is_stopped || fault.step.is_some();
                self.session.skip(line)
            }
        }
    }
}

/// The list's line of JSON with the warnings as its last member: `"warnings":[{"line":12,"call":"MakeIndex",
/// "text":"(a + b)[1]","why":"a select of ..","tools":".."}]`, `"text"` where an expression shows it.
pub fn json_with_warnings(
    alloc: Global,
    line: &str,
    warnings: &[LineWarning],
) -> Result<String, AllocError>
    ensures { IfOk result (λ text. HasWarnings line.now warnings.now (string_bytes text)) }
{
    let mut text = String::from_str(alloc, without_end(line))?;
    push_last(&mut text, warnings)?;
    text.push_str("}\n")?;
    Ok(text)
}

/// The line without the end of its object.
fn without_end(line: &str) -> &str
    ensures { IsWithoutEnd line.now result.now }
{
    match line.strip_suffix("}\n") {
        Some(front) => front,
        None => line,
    }
}

/// Appends the warnings as an object's last member.
pub(crate) fn push_last(text: &mut String, warnings: &[LineWarning]) -> Result<(), AllocError>
    ensures { OnOk result
        (AddsLastMember (string_bytes text.old) (string_bytes text.new) warnings.now) }
{
    text.push_str(",\"warnings\":")?;
    push_warnings(text, warnings)
}

/// Appends the warnings as a list of JSON.
pub(crate) fn push_warnings(text: &mut String, warnings: &[LineWarning]) -> Result<(), AllocError>
    ensures { OnOk result
        (AddsWarningList (string_bytes text.old) (string_bytes text.new) warnings.now) }
{
    text.push('[')?;
    if let Some((first, more)) = warnings.split_first() {
        push_warning(text, first)?;
        push_more(text, more)?;
    }
    text.push(']')
}

/// Appends warnings after the first.
#[tactic(auto, using(crate::proofs::Warned::warned))]
fn push_more(text: &mut String, warnings: &[LineWarning]) -> Result<(), AllocError>
    ensures { OnOk result
        (AddsMoreWarnings (string_bytes text.old) (string_bytes text.new) warnings.now) }
{
    for warning in warnings {
        text.push(',')?;
        push_warning(text, warning)?;
    }
    Ok(())
}

/// Appends a warning.
#[tactic(auto, using(crate::proofs::Warned::warned))]
fn push_warning(text: &mut String, warning: &LineWarning) -> Result<(), AllocError>
    ensures { OnOk result
        (AddsWarning (string_bytes text.old) (string_bytes text.new) warning.now) }
{
    push_front(text, warning)?;
    push_rule(text, warning.rule.why(), warning.rule.tools().words())
}

/// Appends where a warning is shown.
fn push_front(text: &mut String, warning: &LineWarning) -> Result<(), AllocError>
    ensures { OnOk result
        (string_bytes text.new ≡ string_bytes text.old ++ warning_front warning.now) }
{
    write!(text, "{{\"line\":{},\"call\":", warning.line)?;
    push_json_text(text, &warning.call)?;
    if let Some(shown) = &warning.text {
        text.push_str(",\"text\":")?;
        push_json_text(text, shown)?;
    }
    Ok(())
}

/// Appends a rule in words.
fn push_rule(text: &mut String, why: &str, tools: &str) -> Result<(), AllocError>
    ensures { OnOk result
        (string_bytes text.new ≡ string_bytes text.old ++ rule_members why.now tools.now) }
{
    text.push_str(",\"why\":")?;
    push_json_text(text, why)?;
    text.push_str(",\"tools\":")?;
    push_json_text(text, tools)?;
    text.push('}')
}
