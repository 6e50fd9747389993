//! The lint beside a session.

ghost use Rattle.std.specs.Prelude.{◌≡◌, ◌+◌, IfErr, OnOk, false, length};
ghost use Rattle.vast_lint.specs.Lint.{counted};
ghost use Rattle.vast_session.specs.Session.{IsOfLine};
ghost use Rattle.vast_talk.specs.Linted.{HasCounted, IsLevel};
ghost use Rattle.vast_talk.specs.Replies.{IsTaken};
ghost use Rattle.vast_talk.specs.Internal.Linted.{is_memory};

use crate::LineWarning;
use std::alloc::{AllocError, Global};
use vast_calls::name_of_call;
use vast_lint::{Lint, Warning};
use vast_literal::VastFault;
use vast_script::{Step, one};
use vast_session::{Fault, LineResult, Session};
use xlsynth_vast::{Expr, VastFileType};

/// What is kept of the calls of a session, to tell what they print that is no SystemVerilog or Verilog, or that a tool
/// refuses.
#[derive(Drop)]
pub(crate) struct SessionLint {
    lint: Lint,
    /// The call of each answer.
    calls: Vec<LintedCall>,
}

/// What is told of a call beside what it prints.
#[derive(Clone, Copy)]
struct LintedCall {
    line: usize,
    name: &'static str,
}

impl SessionLint {
    /// Beside a new session of the dialect. It takes no memory.
    pub(crate) fn new(alloc: Global, dialect: VastFileType) -> SessionLint
        ensures { HasCounted result 0 }
    {
        SessionLint {
            lint: Lint::new(alloc, dialect),
            calls: Vec::new(alloc),
        }
    }

    /// The session's last answer is that of the call of this line, whose number in the input is `number`. Appends what the
    /// call prints.
    ///
    /// # Errors
    /// Out of memory; the lint is then behind the session.
    pub(crate) fn answered(
        &mut self,
        session: &Session,
        number: usize,
        line: &[u8],
        step: Option<&Step>,
        warnings: &mut Vec<LineWarning>,
    ) -> Result<(), AllocError>
        ensures lint { OnOk result (counted self.new.lint ≡ counted self.old.lint + 1) }
        ensures calls { OnOk result
            (length self.new.calls.items ≡ length self.old.calls.items + 1) }
    {
        self.calls.push(call_in(number, line))?;
        match step {
            Some(step) => {
                let told = self.lint.step(step)?;
                self.tell(session, &told, warnings)
            }
            None => self.lint.pass(),
        }
    }

    /// Appends what would be told of the list at its end, if it ended here: what no later call has mended.
    pub(crate) fn end(
        &self,
        session: &Session,
        warnings: &mut Vec<LineWarning>,
    ) -> Result<(), AllocError> {
        self.tell(session, &self.lint.end()?, warnings)
    }

    /// Appends the warnings, with their lines and calls and the texts that show them.
    fn tell(
        &self,
        session: &Session,
        told: &[Warning],
        warnings: &mut Vec<LineWarning>,
    ) -> Result<(), AllocError> {
        let alloc = session.file().allocator();
        for warning in told {
            let (line, name) = match self.calls.get(warning.number) {
                Some(call) => (call.line, call.name),
                None => (0, ""),
            };
            warnings.push(LineWarning {
                line,
                call: String::from_str(alloc, name)?,
                text: shown_text(session, warning.shown)?,
                rule: warning.rule,
            })?;
        }
        Ok(())
    }
}

/// Takes the line, and appends to the warnings what its call prints.
pub(crate) fn take_linted<'l>(
    session: &mut Session,
    lint: &mut SessionLint,
    number: usize,
    line: &'l [u8],
    warnings: &mut Vec<LineWarning>,
) -> Result<LineResult<'l>, Fault>
    ensures level { IsLevel lint.old session.old → is_memory result ≡ false
        → IsLevel lint.new session.new }
    ensures taken { is_memory result ≡ false → IsTaken session.old session.new line.now result }
    ensures number { IfErr result (IsOfLine number) }
{
    let step = session.step_of(line)?;
    let given = take_step(session, lint, number, line, step.as_ref(), warnings);
    drop(step);
    given
}

/// The same, of a line that is this step, if it is one.
#[tactic(auto, using(crate::proofs::Replied::taken_line))]
fn take_step<'l>(
    session: &mut Session,
    lint: &mut SessionLint,
    number: usize,
    line: &'l [u8],
    step: Option<&Step>,
    warnings: &mut Vec<LineWarning>,
) -> Result<LineResult<'l>, Fault>
    ensures level { IsLevel lint.old session.old → is_memory result ≡ false
        → IsLevel lint.new session.new }
    ensures taken { is_memory result ≡ false → IsTaken session.old session.new line.now result }
    ensures number { IfErr result (IsOfLine number) }
{
    let given = session.line(number, line)?;
    match &given {
        LineResult::Nothing | LineResult::Answer { call: _, value: _ } => Ok(given),
        LineResult::Step { number: _, call: _ } | LineResult::Helper { number: _, call: _ } => {
            match lint.answered(session, number, line, step, warnings) {
                Ok(()) => Ok(given),
                Err(_) => Err(Fault::Memory),
            }
        }
    }
}

/// The line's call.
fn call_in(number: usize, line: &[u8]) -> LintedCall {
    LintedCall {
        line: number,
        name: name_of_call(line),
    }
}

/// The text of the expression of this number; `None` where its text is refused.
fn shown_text(session: &Session, shown: Option<usize>) -> Result<Option<String>, AllocError> {
    let Some(place) = shown else {
        return Ok(None);
    };
    let file = session.file();
    let Ok(made) = one(file, session.answers(), place) else {
        return Ok(None);
    };
    let made: Expr = made;
    if !file.owns(&made) {
        return Ok(None);
    }
    match file.emit_expression(&made) {
        Ok(text) => Ok(Some(text)),
        Err(VastFault::Refused(_)) => Ok(None),
        Err(VastFault::Memory(error)) => Err(error),
    }
}
