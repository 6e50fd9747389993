//! The lines of a list, each as a call.

ghost use Rattle.std.specs.Prelude.{◌≡◌, ◌⊎◌, ◌↔◌, [], IfOk, IsTrue, MatchOption, MatchResult, drop, false, option_copied, true};
ghost use Rattle.std.specs.Str.{IsUtf8};
ghost use Rattle.vast_calls.specs.Lines.{HasKind, Passed, Stepped, begins_blank, behind_call, behind_first, behind_word, call_word, first_word, is_equals_front, is_passed, line_word, text_name, without_return, left};
ghost use Rattle.vast_calls.specs.Internal.Lines.{rest_text};
ghost use Rattle.vast_calls.specs.Names.{IsFree};
ghost use Rattle.vast_calls.specs.Internal.Actions.{ActsAt};
ghost use Rattle.vast_calls.specs.Actions.{IsActionOf, IsRead, NamesWord};
ghost use Rattle.vast_calls.specs.Written.{meaning};
ghost use Rattle.vast_calls.specs.Internal.Written.{AreLeft};

use crate::arguments::{Arguments, Known, Rest};
use crate::calls::make_step;
use crate::helpers::{Helper, make_helper};
use crate::names::is_name;
use crate::problem::{Misfit, Problem};
use crate::questions::{Question, make_question};
use crate::table::numbered::{Place, row_of};
use std::str;
use vast_steps::Step;

/// A call that is counted.
#[derive(Drop)]
pub enum Call {
    /// A builder call.
    Step(Step),
    /// A call of a helper.
    Helper(Helper),
}

/// What a line does.
#[derive(Drop)]
pub enum Action {
    /// It makes something.
    Call(Call),
    /// It asks.
    Ask(Question),
}

/// A line that is neither blank nor a comment.
#[derive(Drop)]
pub struct Line<'a> {
    /// The name of its answer.
    pub name: Option<&'a str>,
    /// The call's name, its sign included.
    pub call: &'a str,
    /// What it does.
    pub action: Action,
}

/// Why a line is not in the form, and the call's name where it has one.
#[derive(Clone, Copy)]
pub struct Misread<'a> {
    /// The call's name; empty where what stands before it is not in the form.
    pub call: &'a str,
    /// Why, and where.
    pub misfit: Misfit,
}

/// The line's text, without the `CR` of its end.
pub fn text_of(line: &[u8]) -> Result<&str, Misfit>
    ensures text { IfOk result (λ text. text.now ≡ without_return line.now) }
    ensures utf8 { MatchResult result
        (λ _. IsUtf8 (without_return line.now)) (λ _. IsUtf8 (without_return line.now) → ⊥) }
{
    let line = line.strip_suffix(b"\r").unwrap_or(line);
    match str::from_utf8(line) {
        Ok(text) => Ok(text),
        Err(_) => Err(Misfit {
            left: line.len(),
            problem: Problem::NotUtf8,
        }),
    }
}

/// Whether the line is blank or a comment.
pub fn is_empty(text: &str) -> bool
    ensures { result ≡ is_passed text.now }
{
    for byte in text.as_bytes() {
        if *byte != b' ' && *byte != b'\t' {
            return *byte == b'#';
        }
    }
    true
}

/// The name of a line's answer, its call and what stands after that.
pub fn split_line(text: &str) -> (Option<&str>, &str, Option<&str>)
    ensures name { option_copied result.0 ≡ text_name text.now }
    ensures call { result.1.now ≡ call_word text.now }
    ensures behind { left result.2 ≡ behind_call text.now }
{
    let (word, rest) = split_word(text);
    match named_call(rest) {
        None => (None, word, rest),
        Some(call) => {
            let (call, rest) = split_word(call);
            (Some(word), call, rest)
        }
    }
}

/// Reads a line that is neither blank nor a comment.
///
/// # Errors
/// Where the line is not in the form, and out of memory.
pub fn read_line<'a>(known: Known<'_>, text: &'a str) -> Result<Line<'a>, Misread<'a>>
    ensures { MatchResult result
        (λ line. IsRead (meaning known.entry.names.now) known.entry.skipped.now text.now line)
        (λ read. NamesWord (meaning known.entry.names.now) text.now read.call.now) }
{
    let (name, call, rest) = split_line(text);
    if let Err(misfit) = check_front(known, text, name) {
        return Err(Misread { call: "", misfit });
    }
    match read_action(known, call, rest) {
        Ok(action) => Ok(Line { name, call, action }),
        Err(misfit) => {
            let misfit = at_call(call, rest, misfit);
            Err(Misread { call, misfit })
        }
    }
}

/// An unknown call is wrong from its first character on.
fn at_call(call: &str, rest: Option<&str>, misfit: Misfit) -> Misfit {
    if !matches!(misfit.problem, Problem::UnknownCall) {
        return misfit;
    }
    let behind = rest.map_or(0, |rest| rest.len().saturating_add(1));
    Misfit {
        left: call.len().saturating_add(behind),
        problem: misfit.problem,
    }
}

/// The line does not begin with a blank, and the word, if there is one, may be the name of its answer.
fn check_front(known: Known<'_>, text: &str, name: Option<&str>) -> Result<(), Misfit>
    ensures { MatchResult result
        (λ _. (begins_blank text.now ≡ false)
        × IsFree (meaning known.entry.names.now) (option_copied name.entry))
        (λ _. (begins_blank text.now ≡ false)
        × IsFree (meaning known.entry.names.now) (option_copied name.entry) → ⊥) }
{
    check_begin(text)?;
    check_name(known, text, name)
}

/// The line does not begin with a space or a tab.
fn check_begin(text: &str) -> Result<(), Misfit>
    ensures { MatchResult result
        (λ _. begins_blank text.now ≡ false) (λ _. begins_blank text.now ≡ true) }
{
    let bytes = text.as_bytes();
    match bytes.first() {
        Some(b' ' | b'\t') => Err(Misfit {
            left: text.len(),
            problem: Problem::Indented,
        }),
        _ => Ok(()),
    }
}

/// The first word, and what stands after the space after it.
#[tactic(auto, using(crate::proofs::LineParts::firsts))]
fn split_word(text: &str) -> (&str, Option<&str>)
    ensures word { result.0.now ≡ first_word text.now }
    ensures behind { rest_text result.1 ≡ behind_word text.now }
    ensures left { left result.1 ≡ behind_first text.now }
{
    match text.split_once(' ') {
        Some((word, rest)) => (word, Some(rest)),
        None => (text, None),
    }
}

/// The call after a name, where the name's `=` stands before it.
fn named_call<'a>(rest: Option<&'a str>) -> Option<&'a str>
    ensures { MatchOption result (is_equals_front (rest_text rest.entry) ≡ false)
        (λ call. (is_equals_front (rest_text rest.entry) ≡ true)
        × (call.now ≡ drop 2 (rest_text rest.entry))) }
{
    rest?.strip_prefix("= ")
}

/// The word, if there is one, may be the name of this line's answer.
fn check_name(known: Known<'_>, text: &str, name: Option<&str>) -> Result<(), Misfit>
    ensures { MatchResult result
        (λ _. IsFree (meaning known.entry.names.now) (option_copied name.entry))
        (λ _. IsFree (meaning known.entry.names.now) (option_copied name.entry) → ⊥) }
{
    let Some(name) = name else {
        return Ok(());
    };
    let left = text.len();
    if !is_name(name) {
        let problem = Problem::NotAName;
        return Err(Misfit { left, problem });
    }
    if known.names.get(name).is_some() {
        let problem = Problem::NameTaken;
        return Err(Misfit { left, problem });
    }
    Ok(())
}

#[tactic(auto, using(crate::proofs::Acted::in_a_line))]
fn read_action(known: Known<'_>, call: &str, rest: Option<&str>) -> Result<Action, Misfit>
    ensures { IfOk result
        (IsActionOf (meaning known.entry.names.now) known.entry.skipped.now call.now
        (left rest.entry)) }
{
    let mut arguments = Arguments::new(known, Rest::Words(rest));
    let Some(place) = Place::find(call) else {
        return Err(arguments.misfit(Problem::UnknownCall));
    };
    let action = action_of(place, &mut arguments)?;
    Ok(action)
}

/// What the call of this place over the arguments does.
///
/// # Errors
/// Where no call has the place or the arguments are not those of the call, and out of memory.
#[tactic(auto, using(crate::proofs::Acted::at_places))]
pub(crate) fn action_of(place: Place, arguments: &mut Arguments<'_>) -> Result<Action, Misfit>
    ensures { IfOk result (ActsAt (AreLeft arguments.old) place) }
{
    match place {
        Place::Question(question) => Ok(Action::Ask(make_question(question, arguments)?)),
        Place::Helper(helper) => Ok(Action::Call(Call::Helper(make_helper(helper, arguments)?))),
        _ => Ok(Action::Call(Call::Step(make_step(place, arguments)?))),
    }
}

/// Whether the line is blank or a comment. One that is not UTF-8 is neither.
pub fn is_empty_line(line: &[u8]) -> bool
    ensures { IsTrue result ↔ HasKind line.now Passed }
{
    match text_of(line) {
        Ok(text) => is_empty(text),
        Err(_) => false,
    }
}

/// Whether the line's call is a step, and no helper and no question. One that is not UTF-8 has no call.
pub fn is_step(line: &[u8]) -> bool
    ensures { IsTrue result ↔ HasKind line.now Stepped }
{
    let Ok(text) = text_of(line) else {
        return false;
    };
    let (_, call, _) = split_line(text);
    !is_empty(text) && !call.starts_with('?') && !call.starts_with('!')
}

/// The name of the line's call, its sign included; an empty one where no call has the name.
pub fn name_of_call(line: &[u8]) -> &'static str
    ensures { (result.now ≡ line_word line.now) ⊎ (result.now ≡ []) }
{
    let Ok(text) = text_of(line) else {
        return "";
    };
    row_of(split_line(text).1).map_or("", |row| row.name())
}
