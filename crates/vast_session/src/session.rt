//! A file with the answers so far, whose calls are lines.

ghost use Rattle.std.specs.Prelude.{◌≡◌, ℕ, List, [], IfErr, IfOk, IfSome, MatchResult, None, Ok, OnErr, OnOk, option_copied, string_bytes};
ghost use Rattle.vast_core.specs.Bench.{start};
ghost use Rattle.vast_core.specs.FileTree.{tree};
ghost use Rattle.xlsynth_vast.specs.Registers.{HasUnused};
ghost use Rattle.std.specs.Str.{IsUtf8};
ghost use Rattle.vast_calls.specs.Lines.{HasKind, Passed, without_return};
ghost use Rattle.vast_calls.specs.Names.{IsFree, entered};
ghost use Rattle.vast_session.specs.Names.{value_named};
ghost use Rattle.vast_session.specs.Replies.{IsAnswerText};
ghost use Rattle.vast_session.specs.Session.{Calls, IsCausedBy, IsGivenBy, IsInForm, IsNumbered, IsOfLine, IsRefusedText, IsSame, IsStepIn, IsTextOf, NamesCall, Skips, Takes, next_number};
ghost use Rattle.vast_session.specs.Questions.{Asks};
ghost use Rattle.vast_session.specs.Internal.Session.{IsAskFault, IsCallFault, IsMisread, IsQuestionFault, IsToldOf, Makes, MakesName};
ghost use Rattle.vast_calls.specs.Actions.{IsRead};
ghost use Rattle.vast_calls.specs.Written.{meaning};

use crate::fault::{Fault, misread, refused_text};
use crate::helpers::call_helper;
use crate::questions::answer;
use crate::questions::answered::Value;
use crate::selects::{Select, keep_select};
use std::alloc::{AllocError, Global};
use vast_calls::{
    Action, Call, Known, Line, Named, Names, Question, is_empty, is_name, place_of, read_line,
    split_line, text_of,
};
use vast_literal::VastFault;
use vast_script::{Answer, StepFault, one, replay_step};
use vast_steps::Step;
use xlsynth_vast::{Expr, FileIds, VastFile, VastFileType};

mod packed;
mod told;

/// A file with the answers so far: the lines of a list are its calls. It keeps no lines.
#[derive(Drop)]
pub struct Session {
    file: VastFile,
    answers: Vec<Answer>,
    /// The selects among the answers, in order.
    selects: Vec<Select>,
    names: Names,
    /// The numbers of steps and helpers that were passed over, from the least to the greatest.
    skipped: Vec<usize>,
}

/// What a line gave. `call` is the call's name as it stands in the line, its sign included.
#[derive(Drop)]
pub enum LineResult<'a> {
    /// The line is blank or a comment.
    Nothing,
    /// A step of this number.
    Step { number: usize, call: &'a str },
    /// A helper of this number; steps and helpers are counted together, from 0.
    Helper { number: usize, call: &'a str },
    /// A question's answer.
    Answer { call: &'a str, value: Value },
}

/// Makes the call, over the answers so far.
fn make_call(file: &mut VastFile, answers: &[Answer], call: &Call) -> Result<Answer, StepFault>
    ensures { Calls file.old file.new answers.now result call.now }
{
    match call {
        Call::Step(step) => replay_step(file, answers, step),
        Call::Helper(helper) => call_helper(file, answers, helper),
    }
}

/// What the name of a question's answer stands for.
fn named(value: &Value) -> Named
    ensures { result ≡ value_named value.now }
{
    match value {
        Value::Number(number) => Named::Number(*number),
        Value::Count(count) => i64::try_from(*count).map_or(Named::Other, Named::Number),
        _ => Named::Other,
    }
}

impl Session {
    /// An empty file of the dialect. It takes no memory.
    pub fn new(alloc: Global, dialect: VastFileType) -> Session
        ensures file { result.file ≡ start dialect 1 }
        ensures answers { result.answers.items ≡ [] }
        ensures names { meaning result.names ≡ (λ (name : List ℕ). None) }
        ensures skipped { result.skipped.items ≡ [] }
    {
        let mut ids = FileIds::new();
        Session {
            file: VastFile::new(alloc, dialect, &mut ids).unwrap(),
            answers: Vec::new(alloc),
            selects: Vec::new(alloc),
            names: Names::new(alloc),
            skipped: Vec::new(alloc),
        }
    }

    /// Takes a line of a list, after the dialect's, without its line feed; its number in the input is `number`.
    ///
    /// # Errors
    /// The line's fault. The file, the answers and the names are then as before, and the line is not counted.
    #[tactic(auto, using(crate::proofs::Sessions::lines))]
    pub fn line<'a>(&mut self, number: usize, line: &'a [u8]) -> Result<LineResult<'a>, Fault>
        ensures takes { Takes self.old self.new line.now result }
        ensures given { IfOk result (IsGivenBy line.now) }
        ensures unseen { IfErr result (λ fault. HasUnused self.old.file self.new.file) }
        ensures cause { IfErr result (IsCausedBy self.old self.new line.now) }
        ensures call { IfErr result (NamesCall self.old line.now) }
        ensures numbered { IsNumbered self.old line.now result }
        ensures number { IfErr result (IsOfLine number) }
        ensures passed { IfErr result (λ fault. HasKind line.now Passed → ⊥) }
    {
        let text = self.text_of(number, line)?;
        if is_empty(text) {
            return Ok(LineResult::Nothing);
        }
        let Line { name, call, action } = self.read(number, text)?;
        match &action {
            Action::Ask(question) => {
                let value = self.ask(number, text, call, question)?;
                self.names.enter(name, named(&value))?;
                Ok(LineResult::Answer { call, value })
            }
            Action::Call(made) => {
                let step = self.counted();
                self.make(number, text, name, call, made)?;
                match made {
                    Call::Step(_) => Ok(LineResult::Step { number: step, call }),
                    Call::Helper(_) => Ok(LineResult::Helper { number: step, call }),
                }
            }
        }
    }

    /// Whether the line is in the form; nothing is made of it.
    ///
    /// # Errors
    /// Where it is not in the form, and out of memory.
    #[tactic(auto, using(crate::proofs::Sessions::reading))]
    pub fn check(&self, number: usize, line: &[u8]) -> Result<(), Fault>
        ensures form { OnOk result (IsInForm self.now line.now) }
        ensures passed { IfErr result (λ fault. HasKind line.now Passed → ⊥) }
    {
        let text = self.text_of(number, line)?;
        if is_empty(text) {
            return Ok(());
        }
        drop(self.read(number, text)?);
        Ok(())
    }

    /// Passes the line over, be it in the form or not: a step or a helper is counted, so that later numbers stand for what
    /// they would after it, and its name is taken. Who uses its answer is told `no such answer`.
    ///
    /// # Errors
    /// Out of memory; nothing is then passed over.
    #[tactic(auto, using(crate::proofs::Skipped::skips))]
    pub fn skip(&mut self, line: &[u8]) -> Result<(), AllocError>
        ensures skipped { OnOk result (Skips self.old self.new line.now) }
        ensures left { OnErr result (IsSame self.old self.new) }
    {
        let Ok(text) = text_of(line) else {
            return Ok(());
        };
        if is_empty(text) {
            return Ok(());
        }
        let (name, call, _) = split_line(text);
        self.skipped.reserve(1)?;
        self.skip_name(name)?;
        if !call.starts_with('?') {
            let number = self.counted();
            self.skipped.push(number)?;
        }
        Ok(())
    }

    /// The name, if it is free, stands for what was passed over from now on.
    fn skip_name(&mut self, name: Option<&str>) -> Result<(), AllocError>
        ensures free { OnOk result (IsFree (meaning self.old.names) (option_copied name.entry)
            → meaning self.new.names
            ≡ entered (meaning self.old.names) (option_copied name.entry) Named.Skipped) }
        ensures taken { OnOk result ((IsFree (meaning self.old.names) (option_copied name.entry)
            → ⊥) → meaning self.new.names ≡ meaning self.old.names) }
        ensures left { OnErr result (meaning self.new.names ≡ meaning self.old.names) }
        ensures file { self.new.file ≡ self.old.file }
        ensures answers { self.new.answers ≡ self.old.answers }
        ensures skipped { self.new.skipped ≡ self.old.skipped }
    {
        match name {
            Some(word) if is_name(word) && self.names.get(word).is_none() => {
                self.names.enter(name, Named::Skipped)?;
                Ok(())
            }
            _ => Ok(()),
        }
    }

    /// The text of the expression that the helper of this number answered, or `ok` where it returns nothing.
    ///
    /// # Errors
    /// A refusal of the text, and out of memory. `no such answer` where no step or helper has the number.
    pub fn helper_text(&self, number: usize) -> Result<String, StepFault>
        ensures { IfOk result (IsAnswerText self.now number) }
    {
        let place = place_of(&self.skipped, number);
        match self.answers.get(place) {
            Some(Answer::Nothing) => Ok(String::from_str(self.file.allocator(), "ok")?),
            _ => {
                let made: Expr = one(&self.file, &self.answers, place)?;
                Ok(self.file.emit_expression(&made)?)
            }
        }
    }

    /// The file's text.
    ///
    /// # Errors
    /// A refusal names the line whose call made what is refused. Out of memory.
    #[tactic(auto, using(crate::proofs::Sessions::emitted))]
    pub fn text(&self) -> Result<String, Fault>
        ensures text { IfOk result (λ text. IsTextOf (tree self.now.file) (string_bytes text)) }
        ensures refused { IfErr result (IsRefusedText (tree self.now.file)) }
    {
        match self.file.emit() {
            Ok(text) => Ok(text),
            Err(VastFault::Memory(_)) => Err(Fault::Memory),
            Err(VastFault::Refused(error)) => Err(Fault::Line(refused_text(self, error)?)),
        }
    }

    /// How many steps and helpers there are so far, those that were passed over included.
    pub fn counted(&self) -> usize
        ensures { result ≡ next_number self.now }
    {
        self.answers.len().saturating_add(self.skipped.len())
    }

    /// The file.
    pub fn file(&self) -> &VastFile
        ensures { result.now ≡ self.now.file }
    {
        &self.file
    }

    /// What steps and helpers answered, in order, without those that were passed over.
    pub fn answers(&self) -> &[Answer]
        ensures { result.now ≡ self.now.answers.items }
    {
        &self.answers
    }

    /// Lets go what lines look up, which printing has no need of.
    pub fn forget_answers(&mut self)
        ensures file { self.new.file ≡ self.old.file }
        ensures answers { self.new.answers.items ≡ [] }
        ensures names { meaning self.new.names ≡ (λ (name : List ℕ). None) }
        ensures skipped { self.new.skipped ≡ self.old.skipped }
    {
        let alloc = self.file.allocator();
        self.answers = Vec::new(alloc);
        self.names = Names::new(alloc);
    }

    /// The bit selects and part selects among the answers, in order.
    pub(crate) fn selects(&self) -> &[Select] {
        &self.selects
    }

    /// The step that the line makes; `None` where it makes none, or is not in the form.
    #[tactic(auto, using(crate::proofs::Sessions::reading))]
    pub fn step_of(&self, line: &[u8]) -> Result<Option<Step>, AllocError>
        ensures { IfOk result (λ made. IfSome made (λ step. IsStepIn self.now step line.now)) }
    {
        let Ok(text) = text_of(line) else {
            return Ok(None);
        };
        if is_empty(text) {
            return Ok(None);
        }
        match self.read(0, text) {
            Ok(line) => match line.action {
                Action::Call(Call::Step(step)) => Ok(Some(step)),
                Action::Call(Call::Helper(_)) | Action::Ask(_) => Ok(None),
            },
            Err(Fault::Memory) => Err(AllocError),
            Err(Fault::Line(_)) => Ok(None),
        }
    }

    /// What its lines name, and what was passed over.
    pub fn known(&self) -> Known<'_>
        ensures names { result.names.now ≡ self.now.names }
        ensures skipped { result.skipped.now ≡ self.now.skipped.items }
    {
        Known {
            alloc: self.file.allocator(),
            names: &self.names,
            skipped: &self.skipped,
        }
    }

    fn text_of<'a>(&self, number: usize, line: &'a [u8]) -> Result<&'a str, Fault>
        ensures text { MatchResult result
            (λ text. text.now ≡ without_return line.now) (IsToldOf number [] None None) }
        ensures utf8 { MatchResult result
            (λ _. IsUtf8 (without_return line.now)) (λ _. IsUtf8 (without_return line.now) → ⊥) }
    {
        match text_of(line) {
            Ok(text) => Ok(text),
            Err(misfit) => Err(misread(self.file.allocator(), number, "", "", misfit)),
        }
    }

    #[tactic(auto, using(crate::proofs::Sessions::read_known))]
    fn read<'a>(&self, number: usize, text: &'a str) -> Result<Line<'a>, Fault>
        ensures { MatchResult result
            (λ line. IsRead (meaning self.now.names) self.now.skipped.items text.now line)
            (IsMisread (meaning self.now.names) number text.now) }
    {
        match read_line(self.known(), text) {
            Ok(line) => Ok(line),
            Err(read) => Err(misread(self.file.allocator(), number, text, read.call, read.misfit)),
        }
    }

    /// Makes the call and keeps its answer, under the name.
    #[tactic(auto, using(crate::proofs::Sessions::faults))]
    fn make(
        &mut self,
        number: usize,
        text: &str,
        name: Option<&str>,
        call: &str,
        made: &Call,
    ) -> Result<(), Fault>
        ensures made { Makes self.old self.new made.now result }
        ensures name { IsFree (meaning self.old.names) (option_copied name.entry) →
            MakesName self.old self.new (option_copied name.entry) result }
        ensures unseen { IfErr result (λ fault. HasUnused self.old.file self.new.file) }
        ensures cause { IfErr result (IsCallFault self.old self.new call.now made.now) }
        ensures number { IfErr result (IsOfLine number) }
    {
        self.answers.reserve(1)?;
        self.selects.reserve(1)?;
        let place = self.answers.len();
        self.names.enter(name, Named::Handle(place))?;
        match make_call(&mut self.file, &self.answers, made) {
            Ok(answer) => {
                keep_select(&mut self.selects, answer, number);
                self.answers.push(answer)?;
                Ok(())
            }
            Err(fault) => {
                self.names.forget(name);
                Err(self.told(number, text, call, Some(made), fault))
            }
        }
    }

    #[tactic(auto, using(crate::proofs::Sessions::asking))]
    fn ask(
        &self,
        number: usize,
        text: &str,
        call: &str,
        question: &Question,
    ) -> Result<Value, Fault>
        ensures asked { IfOk result (λ value.
            Asks self.now.file self.now.answers.items (Ok value) question.now) }
        ensures cause { IfErr result (IsQuestionFault self.now question.now) }
        ensures told { IfErr result (IsAskFault number call.now) }
    {
        match answer(&self.file, &self.answers, question) {
            Ok(value) => Ok(value),
            Err(fault) => Err(self.told(number, text, call, None, fault)),
        }
    }
}
