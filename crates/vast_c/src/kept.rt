//! What C keeps by its pointer: a session, and what was told of it last.

ghost use Rattle.std.specs.Prelude.{◌≡◌, ◌∷◌, ◌<◌, [], IfErr, IfOk, IfSome, IsSome, MatchResult, None, OnErr, OnOk, Some};
ghost use Rattle.std.specs.Prelude.{length};
ghost use Rattle.vast_session.specs.Session.{IsLeft};
ghost use Rattle.vast_session.specs.declared.fault.Fault.TheVariants.{Line};
ghost use Rattle.vast_session.specs.declared.session.Session.{Session as AnySession};
ghost use Rattle.vast_calls.specs.Lines.{lines_of};
ghost use Rattle.vast_c.specs.Seen.{GaveLine, IsFresh, IsPrinted, Run, TellsFault, cause_of, more_lines};
ghost use Rattle.vast_session.specs.PackedFronts.{GaveFront, RunsPacked};
ghost use Rattle.vast_c.specs.SeenPacked.{RunPacked, TellsPacked};
ghost use Rattle.vast_c.specs.Internal.Seen.{IsToldOf, LeftBy, LeftIfAny};

use crate::lines::first_line;
use std::alloc::Global;
use vast_script::StepFault;
use vast_session::{Fault, LineFault, LineResult, Session};
use xlsynth_vast::VastFileType;

/// Why a line was not made, or a text not printed.
#[derive(Drop, Clone, Copy)]
pub(crate) enum Cause {
    /// The library refuses what the call asks.
    Refused,
    /// A condition of the call is not met.
    Condition,
    /// The line is not in the form.
    Form,
    /// Memory was refused.
    Memory,
}

/// A fault, and its message.
#[derive(Drop)]
pub(crate) struct ToldFault {
    pub(crate) message: String,
    pub(crate) fault: LineFault,
}

/// A session, and what was told of it last.
#[derive(Drop)]
pub(crate) struct Kept {
    pub(crate) session: Session,
    /// The lines so far.
    pub(crate) lines: usize,
    /// What the last line answered.
    pub(crate) answer: String,
    /// The last fault, where the last call had one.
    pub(crate) told: Option<ToldFault>,
    /// The file as it was printed last.
    pub(crate) file: String,
}

/// What was made of some lines.
#[derive(Drop)]
pub(crate) struct MadeLines {
    /// How many were made.
    pub(crate) taken: usize,
    /// Why the next one was not, if there is one.
    pub(crate) cause: Option<Cause>,
}

impl Kept {
    /// A session with no line.
    pub(crate) fn new(alloc: Global, dialect: VastFileType) -> Kept
        ensures { IsFresh dialect (Some result) }
    {
        Kept {
            session: Session::new(alloc, dialect),
            lines: 0,
            answer: String::new(alloc),
            told: None,
            file: String::new(alloc),
        }
    }

    /// Makes the calls of the lines, up to the first at fault.
    pub(crate) fn make_lines(&mut self, lines: &[u8]) -> MadeLines
        ensures made { Run self.old (lines_of lines.now) result.taken
            (LeftIfAny result.cause) self.new }
        ensures all { result.cause ≡ None → result.taken ≡ length (lines_of lines.now) }
        ensures none { result.cause ≡ None → self.new.told ≡ None }
        ensures fault { IsSome result.cause → result.taken < length (lines_of lines.now) }
        ensures told { IfSome result.cause (λ cause. IsToldOf cause self.new.told) }
        ensures file { self.new.file ≡ self.old.file }
    {
        self.answer.clear();
        self.told = None;
        let mut rest = lines;
        let mut taken = 0;
        while !rest.is_empty() {
            let (line, behind) = first_line(rest);
            if let Err(cause) = self.make_line(line) {
                return MadeLines {
                    taken,
                    cause: Some(cause),
                };
            }
            taken += 1;
            rest = behind;
        }
        MadeLines { taken, cause: None }
    }

    /// Makes the packed calls, up to the first at fault.
    pub(crate) fn make_packed(&mut self, calls: &[u8]) -> MadeLines
        ensures made { RunPacked self.old calls.now result.taken
            (LeftIfAny result.cause) self.new }
        ensures all { result.cause ≡ None →
            RunsPacked result.taken self.old.session self.new.session calls.now [] }
        ensures none { result.cause ≡ None → self.new.told ≡ None }
        ensures told { IfSome result.cause (λ cause. IsToldOf cause self.new.told) }
        ensures file { self.new.file ≡ self.old.file }
    {
        self.answer.clear();
        self.told = None;
        let mut rest = calls;
        let mut taken = 0;
        while !rest.is_empty() {
            match self.make_front(rest) {
                Ok(behind) => rest = behind,
                Err(cause) => {
                    return MadeLines {
                        taken,
                        cause: Some(cause),
                    };
                }
            }
            taken += 1;
        }
        MadeLines { taken, cause: None }
    }

    /// Prints the file.
    ///
    /// # Errors
    /// A refusal of the text, and out of memory; the text of before stays.
    pub(crate) fn print(&mut self) -> Result<(), Cause>
        ensures printed { IfOk result (λ _. IsPrinted self.old.session self.new.file) }
        ensures session { self.new.session ≡ self.old.session }
        ensures lines { self.new.lines ≡ self.old.lines }
        ensures unchanged { OnErr result (self.new.file ≡ self.old.file) }
        ensures none { OnOk result (self.new.told ≡ None) }
        ensures told { IfErr result (λ cause. IsToldOf cause self.new.told) }
    {
        self.told = None;
        match self.session.text() {
            Ok(text) => {
                self.file = text;
                Ok(())
            }
            Err(fault) => Err(self.tell(fault)),
        }
    }

    /// Makes the call of one line.
    fn make_line(&mut self, line: &[u8]) -> Result<(), Cause>
        ensures given { OnOk result (GaveLine self.old.session line.now self.new.session) }
        ensures left { IfErr result (λ cause. LeftBy self.old.session self.new.session cause) }
        ensures lines { MatchResult result
            (λ _. self.new.lines ≡ more_lines self.old.lines 1)
            (λ _. self.new.lines ≡ self.old.lines) }
        ensures none { OnOk result (self.new.told ≡ self.old.told) }
        ensures told { IfErr result (λ cause. IsToldOf cause self.new.told) }
        ensures fault { OnErr result (TellsFault self.old.session self.new.session
            (more_lines self.old.lines 1) (line.now ∷ []) self.new.told) }
        ensures file { self.new.file ≡ self.old.file }
    {
        let number = self.lines.saturating_add(1);
        match self.session.line(number, line) {
            Ok(LineResult::Answer { value, .. }) => {
                let Ok(answer) = format!(in *self.answer.allocator(); "{value}") else {
                    self.told = None;
                    return Err(Cause::Memory);
                };
                self.answer = answer;
                self.lines = number;
                Ok(())
            }
            Ok(_) => {
                self.answer.clear();
                self.lines = number;
                Ok(())
            }
            Err(fault) => Err(self.tell(fault)),
        }
    }

    /// Makes the packed call at the front, and returns what stands after it. Most are steps, which are made in less time.
    #[tactic(auto, using(crate::proofs::PackedSteps::fronts))]
    fn make_front<'b>(&mut self, bytes: &'b [u8]) -> Result<&'b [u8], Cause>
        ensures given { IfOk result (λ behind. GaveFront self.old.session self.new.session
            bytes.now behind.now) }
        ensures shorter { IfOk result (λ behind. length behind.now < length bytes.now) }
        ensures left { IfErr result (λ cause. LeftBy self.old.session self.new.session cause) }
        ensures lines { MatchResult result
            (λ _. self.new.lines ≡ more_lines self.old.lines 1)
            (λ _. self.new.lines ≡ self.old.lines) }
        ensures none { OnOk result (self.new.told ≡ self.old.told) }
        ensures told { IfErr result (λ cause. IsToldOf cause self.new.told) }
        ensures fault { OnErr result (TellsPacked self.old.session self.new.session
            (more_lines self.old.lines 1) bytes.now self.new.told) }
        ensures file { self.new.file ≡ self.old.file }
    {
        let place = self.lines.saturating_add(1);
        match self.session.made_step(place, bytes) {
            Ok(Some(behind)) => {
                self.answer.clear();
                self.lines = place;
                Ok(behind)
            }
            Ok(None) => self.make_call(bytes),
            Err(_) => {
                self.told = None;
                Err(Cause::Memory)
            }
        }
    }

    /// The same of any call, with what it answers or why it is not made.
    #[inline(never)]
    #[tactic(auto, using(crate::proofs::PackedSteps::calls))]
    fn make_call<'b>(&mut self, bytes: &'b [u8]) -> Result<&'b [u8], Cause>
        ensures given { IfOk result (λ behind. GaveFront self.old.session self.new.session
            bytes.now behind.now) }
        ensures shorter { IfOk result (λ behind. length behind.now < length bytes.now) }
        ensures left { IfErr result (λ cause. LeftBy self.old.session self.new.session cause) }
        ensures lines { MatchResult result
            (λ _. self.new.lines ≡ more_lines self.old.lines 1)
            (λ _. self.new.lines ≡ self.old.lines) }
        ensures none { OnOk result (self.new.told ≡ self.old.told) }
        ensures told { IfErr result (λ cause. IsToldOf cause self.new.told) }
        ensures fault { OnErr result (TellsPacked self.old.session self.new.session
            (more_lines self.old.lines 1) bytes.now self.new.told) }
        ensures file { self.new.file ≡ self.old.file }
    {
        let place = self.lines.saturating_add(1);
        match self.session.packed(place, bytes) {
            Ok((given, behind)) => match given {
                LineResult::Answer { value, .. } => {
                    let Ok(answer) = format!(in *self.answer.allocator(); "{value}") else {
                        self.told = None;
                        return Err(Cause::Memory);
                    };
                    self.answer = answer;
                    self.lines = place;
                    Ok(behind)
                }
                _ => {
                    self.answer.clear();
                    self.lines = place;
                    Ok(behind)
                }
            },
            Err(fault) => Err(self.tell(fault)),
        }
    }

    /// Keeps the fault, and returns its cause.
    fn tell(&mut self, fault: Fault) -> Cause
        ensures left { (a b : AnySession) → IsLeft a b fault → LeftBy a b result }
        ensures session { self.new.session ≡ self.old.session }
        ensures lines { self.new.lines ≡ self.old.lines }
        ensures file { self.new.file ≡ self.old.file }
        ensures told { IsToldOf result self.new.told }
        ensures fault { IfSome self.new.told (λ told. fault ≡ Line told.fault) }
    {
        self.told = None;
        let Fault::Line(fault) = fault else {
            return Cause::Memory;
        };
        let Ok(message) = format!(in *self.answer.allocator(); "{fault}") else {
            return Cause::Memory;
        };
        let cause = cause_of(&fault);
        self.told = Some(ToldFault { message, fault });
        cause
    }
}

fn cause_of(fault: &LineFault) -> Cause
    ensures { result ≡ cause_of fault.now.cause }
{
    match &fault.cause {
        None => Cause::Form,
        Some(StepFault::Refused(_)) => Cause::Refused,
        Some(StepFault::Memory) => Cause::Memory,
        Some(_) => Cause::Condition,
    }
}
