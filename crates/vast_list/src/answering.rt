//! A list in the answering.

ghost use Rattle.std.specs.Prelude.{◌≡◌, ◌++◌, [], Bool, IsTrue, OnOk, is_some, false};
ghost use Rattle.vast_list.specs.Built.{HasBuilt};
ghost use Rattle.vast_list.specs.Internal.Built.{TakesLine};
ghost use Rattle.vast_list.specs.Output.{is_again, is_made};
ghost use Rattle.vast_list.specs.Internal.Output.{Prints, TakesOn};

use crate::again::Rerun;
use crate::output::{ListOutput, MOST_FAULTS, Verdict};
use crate::tried;
use crate::tries::Tries;
use std::alloc::{AllocError, Global};
use vast_calls::is_step;
use vast_script::StepFault;
use vast_session::{Fault, LineFault, LineResult, Session, Value};
use xlsynth_vast::VastFileType;

/// A list whose lines are taken one by one.
#[derive(Drop)]
pub(crate) struct ListRun<'a> {
    pub(crate) session: Session,
    /// Of lines that are taken once more.
    pub(crate) trial: Option<Rerun<'a>>,
    /// What is printed after a header so far.
    pub(crate) report: Option<Vec<u8>>,
    /// Whether a step or a helper was refused.
    pub(crate) is_stopped: bool,
    pub(crate) told: ListReport,
}

/// What is told of a list.
#[derive(Drop)]
pub(crate) struct ListReport {
    pub(crate) verdict: Verdict,
    pub(crate) faults: Vec<LineFault>,
    /// How many faults there are beside those.
    pub(crate) more: usize,
}

impl ListReport {
    pub(crate) fn new(alloc: Global) -> ListReport
        ensures { result.verdict ≡ Verdict.Made }
    {
        ListReport {
            verdict: Verdict::Made,
            faults: Vec::new(alloc),
            more: 0,
        }
    }

    /// Keeps the fault, unless it follows from an earlier one.
    pub(crate) fn keep(&mut self, tries: Tries, fault: LineFault) -> Result<(), AllocError>
        ensures { is_made self.new.verdict ≡ false }
    {
        self.verdict = match (self.verdict, &fault.cause) {
            (Verdict::NotInForm, _) | (_, None) => Verdict::NotInForm,
            _ => Verdict::Refused,
        };
        if fault.follows {
            return Ok(());
        }
        if self.faults.len() >= MOST_FAULTS {
            self.more = self.more.saturating_add(1);
            return Ok(());
        }
        tried!(tries, self.faults.reserve(1))?;
        self.faults.push(fault)?;
        Ok(())
    }
}

impl<'a> ListRun<'a> {
    /// None of the lines after the dialect's is taken yet. It takes no memory.
    pub(crate) fn new(
        alloc: Global,
        dialect: VastFileType,
        trial: Option<Rerun<'a>>,
        report: Option<Vec<u8>>,
    ) -> ListRun<'a>
        ensures trial { is_some result.trial ≡ is_some trial.entry }
        ensures going { result.is_stopped ≡ false }
        ensures built { (again : Bool) → HasBuilt again dialect [] result.session }
    {
        ListRun {
            session: Session::new(alloc, dialect),
            trial,
            report,
            is_stopped: false,
            told: ListReport::new(alloc),
        }
    }
}

impl ListRun<'_> {
    fn tries(&self) -> Tries
        ensures { is_again result ≡ is_some self.now.trial }
    {
        match self.trial {
            None => Tries::Once,
            Some(_) => Tries::Again,
        }
    }

    /// Takes a line.
    pub(crate) fn take(&mut self, number: usize, line: &[u8]) -> Result<(), AllocError>
        ensures { OnOk result (TakesOn self.old self.new line.now) }
    {
        if self.is_stopped && self.report.is_some() && is_step(line) {
            return self.pass_over(number, line);
        }
        let taken = self.taken(number, line);
        self.print_change()?;
        match taken {
            Ok(given) => self.print(&given),
            Err(Fault::Memory) => Err(AllocError),
            Err(Fault::Line(fault)) => {
                self.is_stopped = self.is_stopped || fault.step.is_some();
                self.print_fault(&fault)?;
                let tries = self.tries();
                tried!(tries, self.session.skip(line))?;
                self.told.keep(tries, fault)
            }
        }
    }

    /// Takes a line, and prints nothing.
    #[tactic(auto, using(crate::proofs::Built::taking))]
    fn taken<'l>(&mut self, number: usize, line: &'l [u8]) -> Result<LineResult<'l>, Fault>
        ensures line { OnOk result
            (TakesLine (is_some self.old.trial) self.old.session self.new.session line.now) }
        ensures trial { is_some self.new.trial ≡ is_some self.old.trial }
        ensures report { self.new.report ≡ self.old.report }
        ensures stopped { self.new.is_stopped ≡ self.old.is_stopped }
        ensures told { self.new.told ≡ self.old.told }
    {
        match &mut self.trial {
            None => self.session.line(number, line),
            Some(trial) => trial.take(&mut self.session, number, line),
        }
    }

    /// Only reads a step after one that was refused.
    fn pass_over(&mut self, number: usize, line: &[u8]) -> Result<(), AllocError>
        ensures trial { OnOk result (is_some self.new.trial ≡ is_some self.old.trial) }
        ensures stopped { self.new.is_stopped ≡ self.old.is_stopped }
        ensures verdict { OnOk result
            (IsTrue (is_made self.new.told.verdict) → IsTrue (is_made self.old.told.verdict)) }
    {
        let tries = self.tries();
        let checked = match self.session.check(number, line) {
            Err(Fault::Memory) if matches!(tries, Tries::Again) => self.session.check(number, line),
            checked => checked,
        };
        tried!(tries, self.session.skip(line))?;
        match checked {
            Ok(()) => Ok(()),
            Err(Fault::Memory) => Err(AllocError),
            Err(Fault::Line(fault)) => self.told.keep(tries, fault),
        }
    }

    fn print(&mut self, given: &LineResult<'_>) -> Result<(), AllocError>
        ensures { OnOk result (Prints self.old self.new) }
    {
        match given {
            LineResult::Nothing | LineResult::Step { number: _, call: _ } => Ok(()),
            LineResult::Answer { call, value } => self.print_answer(call, value),
            LineResult::Helper { number, call } => self.print_helper(*number, call),
        }
    }

    fn print_answer(&mut self, call: &str, value: &Value) -> Result<(), AllocError>
        ensures { OnOk result (Prints self.old self.new) }
    {
        if self.report.is_none() {
            return Ok(());
        }
        let alloc = self.session.file().allocator();
        let text = tried!(self.tries(), format!(in alloc; "{value}"))?;
        self.print_words(call, ": ", &text)
    }

    /// After a header the text of a helper's expression is printed.
    #[tactic(auto, using(crate::proofs::Outputs::printing))]
    fn print_helper(&mut self, number: usize, call: &str) -> Result<(), AllocError>
        ensures { OnOk result (Prints self.old self.new) }
    {
        if self.report.is_none() {
            return Ok(());
        }
        match tried!(
            self.tries(),
            self.session.helper_text(number),
            StepFault::Memory
        ) {
            Ok(text) => self.print_words(call, ": ", &text),
            Err(StepFault::Memory) => Err(AllocError),
            Err(fault) => {
                let alloc = self.session.file().allocator();
                let text = tried!(self.tries(), format!(in alloc; "{fault}"))?;
                self.told.verdict = match self.told.verdict {
                    Verdict::NotInForm => Verdict::NotInForm,
                    _ => Verdict::Refused,
                };
                self.print_words(call, ": refused: ", &text)
            }
        }
    }

    #[tactic(auto, using(crate::proofs::Outputs::printing))]
    fn print_fault(&mut self, fault: &LineFault) -> Result<(), AllocError>
        ensures { OnOk result (Prints self.old self.new) }
    {
        let Some(cause) = &fault.cause else {
            return Ok(());
        };
        let alloc = self.session.file().allocator();
        let tries = self.tries();
        match fault.step {
            Some(step) if !fault.call.starts_with('!') => {
                let text = tried!(tries, format!(in alloc; "step {step}: {cause}"))?;
                self.print_words("refused", ": ", &text)
            }
            _ => {
                let text = tried!(tries, format!(in alloc; "{cause}"))?;
                self.print_words(&fault.call, ": refused: ", &text)
            }
        }
    }

    #[tactic(auto, using(crate::proofs::Outputs::printing))]
    fn print_change(&mut self) -> Result<(), AllocError>
        ensures { OnOk result (Prints self.old self.new) }
    {
        let is_changed = match &mut self.trial {
            None => false,
            Some(trial) => trial.take_change(),
        };
        if is_changed {
            self.print_words("changed by a call that was refused memory", "", "")?;
        }
        Ok(())
    }

    /// Prints a line after the header.
    #[tactic(auto, using(crate::proofs::Outputs::printing))]
    fn print_words(&mut self, first: &str, sign: &str, text: &str) -> Result<(), AllocError>
        ensures { OnOk result (Prints self.old self.new) }
    {
        for words in [first, sign, text, "\n"] {
            self.print_text(words)?;
        }
        Ok(())
    }

    /// Prints a text after the header.
    pub(crate) fn print_text(&mut self, text: &str) -> Result<(), AllocError>
        ensures { OnOk result (Prints self.old self.new) }
    {
        let tries = self.tries();
        if let Some(report) = &mut self.report {
            append(tries, report, text)?;
        }
        Ok(())
    }

    /// Prints that what is left is no file of the list's first steps, where it is none.
    #[tactic(auto, using(crate::proofs::Outputs::printing))]
    pub(crate) fn print_left(&mut self) -> Result<(), AllocError>
        ensures { OnOk result (Prints self.old self.new) }
    {
        let is_prefix = match &self.trial {
            None => true,
            Some(trial) => trial.is_prefix(&self.session)?,
        };
        if !is_prefix {
            let words = "left by a replay that was refused memory, and not by its first steps";
            self.print_words(words, "", "")?;
        }
        Ok(())
    }
}

/// Appends the text, once more where memory was refused and the tries allow it.
pub(crate) fn append(tries: Tries, bytes: &mut Vec<u8>, text: &str) -> Result<(), AllocError>
    ensures { OnOk result (bytes.new.items ≡ bytes.old.items ++ text.now) }
{
    tried!(tries, bytes.reserve(text.len()))?;
    bytes.extend_from_slice(text.as_bytes())
}
