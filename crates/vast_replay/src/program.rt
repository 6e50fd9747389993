//! What the program does with lists.

ghost use Rattle.std.specs.Prelude.{◌≡◌, IfOk, IsTrue, OnOk};
ghost use Rattle.std.specs.Io.KnownBytes.{IsAtEnd};
ghost use Rattle.vast_list.specs.Output.{is_made};
ghost use Rattle.vast_replay.specs.Input.{GivesTaken, PrintsInput, PrintsTexts, WritesMade, WritesTaken};

use crate::input::{ReadInput, split_lists, take_input};
use crate::outcome::Outcome;
use crate::words::{Form, Linting};
use std::alloc::{AllocError, Global};
use std::fmt::Write as _;
use std::io;
use std::io::{Read, Write};
use vast_list::{
    ListOutput, Plainness, Tries, Verdict, is_packed_list, json_with_map, list_json, list_origins,
    list_output, list_plainness, pack_list, tried,
};
use vast_session::ListLines;
use vast_shell::{Failure, ended, tell, write_whole};
use vast_talk::{LineWarning, json_with_warnings, list_warnings};

/// What is told of a packed list that is asked for more.
const PACKED_ALONE: &str =
    "a packed list is answered alone, or with --check, and without other words";

/// How lists are answered.
#[derive(Clone, Copy)]
pub struct Manner<'a> {
    /// Where memory is asked for.
    pub alloc: Global,
    /// What is printed of each.
    pub form: Form,
    /// Whether each line of a text is printed after the line of the list that it comes from.
    pub map: bool,
    /// Whether forms that are no SystemVerilog, or that a tool refuses, are told.
    pub lint: Linting,
    /// How often what was refused memory is tried.
    pub tries: Tries,
    /// What stands before each fault: where the lists are from.
    pub source: &'a str,
}

impl Manner<'_> {
    /// Whether each line is looked at once, so that none need be kept.
    pub fn takes_lines_once(self) -> bool
        ensures { PrintsTexts self.entry → IsTrue result }
    {
        let is_text = matches!(self.form, Form::Text | Form::Faults);
        let is_once = matches!(self.tries, Tries::Once);
        is_text && is_once && !self.map && self.lint == Linting::Off
    }
}

/// Reads lists of calls to the end of `input`, makes their calls and prints what they give.
///
/// Where the first line is a header, `== TITLE`, each list is answered to `out` after its header, refusals included.
/// Else there is one list, and its file's text alone goes to `out`, where nothing of it was refused. A list with a line
/// that is not in the form prints nothing. Each fault is told on `err` after its source and its line, all of a list in
/// one write. With
/// `Form::Faults` nothing goes to `out`; with a map each line of a text stands after the number of the line of the list
/// that it comes from, and a tab; with `Form::Json` a line for each list does, and no fault goes to `err`.
/// A failed read (`read fault`), a failed write (`write fault`) and out of memory (`out of memory`) are told on `err` and
/// end the run. A failed write to `err` changes nothing.
///
/// With `Tries::Again` what was refused memory is made once more, and a refused call must have left the file as it was:
/// where one request is refused, the run gives what it gives without.
///
/// The contract says what the outcome `Made` promises of the streams; the rest of this is tested, not proved.
pub fn run<R: Read, W: Write, E: Write>(
    manner: Manner<'_>,
    input: &mut R,
    out: &mut W,
    err: &mut E,
) -> Outcome
    ensures silent { result ≡ Outcome.Made → E.contents err.new ≡ E.contents err.old }
    ensures read { result ≡ Outcome.Made → IsAtEnd (R.remaining input.new) }
    ensures printed { result ≡ Outcome.Made → PrintsTexts manner.entry
        → PrintsInput (R.remaining input.old) (R.remaining input.new)
        (W.contents out.old) (W.contents out.new) }
{
    match read(manner, input) {
        Ok(taken) => answer_taken(manner, taken, out, err),
        Err(error) => tell(Failure::of_read(error).line(), Outcome::Failed, err),
    }
}

/// Reads an input to its end.
fn read<R: Read>(manner: Manner<'_>, input: &mut R) -> io::Result<ReadInput>
    ensures end { OnOk result (IsAtEnd (R.remaining input.new)) }
    ensures taken { PrintsTexts manner.entry
        → IfOk result (GivesTaken (R.remaining input.old) (R.remaining input.new)) }
{
    if manner.takes_lines_once() {
        return take_input(manner.alloc, input);
    }
    let mut bytes = Vec::new(manner.alloc);
    tried!(manner.tries, input.read_to_end(&mut bytes))?;
    Ok(ReadInput::Bytes(bytes))
}

/// Answers what is read of an input, as `run` does.
pub(crate) fn answer_taken<W: Write, E: Write>(
    manner: Manner<'_>,
    taken: ReadInput,
    out: &mut W,
    err: &mut E,
) -> Outcome
    ensures silent { result ≡ Outcome.Made → E.contents err.new ≡ E.contents err.old }
    ensures printed { result ≡ Outcome.Made → manner.entry.form ≡ Form.Text
        → WritesTaken taken (W.contents out.old) (W.contents out.new) }
{
    let answered = match taken {
        ReadInput::Bytes(bytes) => answer_lists(manner, &bytes, out, err),
        ReadInput::List(made) => answer_made(manner, false, made, out, err),
    };
    ended(answered, Outcome::Failed, err)
}

/// Answers the lists of an input.
fn answer_lists<W: Write, E: Write>(
    manner: Manner<'_>,
    input: &[u8],
    out: &mut W,
    err: &mut E,
) -> Result<Outcome, Failure>
    ensures { IfOk result (λ o. o ≡ Outcome.Made → E.contents err.new ≡ E.contents err.old) }
{
    if is_packed_list(input) {
        let told = format!(in manner.alloc; "{}: {PACKED_ALONE}\n", manner.source)?;
        return Ok(tell(&told, Outcome::NotInForm, err));
    }
    let lists = tried!(manner.tries, split_lists(manner.alloc, input))?;
    let mut outcome = Outcome::Made;
    for list in &lists {
        outcome = outcome.and(answer_list(manner, list, out, err)?);
    }
    Ok(outcome)
}

fn answer_list<W: Write, E: Write>(
    manner: Manner<'_>,
    list: &ListLines<'_>,
    out: &mut W,
    err: &mut E,
) -> Result<Outcome, Failure>
    ensures { IfOk result (λ o. o ≡ Outcome.Made → E.contents err.new ≡ E.contents err.old) }
{
    match manner.form {
        Form::Text | Form::Faults => answer_text(manner, list, out, err),
        Form::Json => answer_json(manner, list, out, err),
        Form::Plain => answer_plain(manner, list, out, err),
        Form::Packed => {
            let packed = pack_list(manner.alloc, list)?;
            answer_made(manner, list.title.is_some(), packed, out, err)
        }
    }
}

/// Answers one list to `out`, its output in one piece, and its faults to `err`.
fn answer_text<W: Write, E: Write>(
    manner: Manner<'_>,
    list: &ListLines<'_>,
    out: &mut W,
    err: &mut E,
) -> Result<Outcome, Failure>
    ensures { IfOk result (λ o. o ≡ Outcome.Made → E.contents err.new ≡ E.contents err.old) }
{
    let made = list_output(manner.alloc, manner.tries, list)?;
    let made = mapped(manner, list, made)?;
    let outcome = answer_made(manner, list.title.is_some(), made, out, err)?;
    Ok(outcome.and(tell_warnings(manner, list, err)?))
}

/// Writes what one list gives to `out`, in one piece, and its faults to `err`.
fn answer_made<W: Write, E: Write>(
    manner: Manner<'_>,
    has_title: bool,
    made: ListOutput,
    out: &mut W,
    err: &mut E,
) -> Result<Outcome, Failure>
    ensures silent { IfOk result (λ o. o ≡ Outcome.Made
        → E.contents err.new ≡ E.contents err.old) }
    ensures printed { IfOk result (λ o. o ≡ Outcome.Made → manner.entry.form ≡ Form.Text
        → WritesMade made (W.contents out.old) (W.contents out.new)) }
{
    let told = tried!(manner.tries, told(manner, &made))?;
    let ListOutput {
        output,
        verdict,
        ..
    } = made;
    if let (Form::Text | Form::Packed, Some(output)) = (manner.form, &output) {
        write_whole(output, out)?;
    }
    let outcome = outcome_of(verdict, has_title);
    if outcome != Outcome::Made {
        tell(&told, (), err);
    }
    Ok(outcome)
}

/// Answers to `out` whether the list's file is plain, where nothing of the list is at fault.
fn answer_plain<W: Write, E: Write>(
    manner: Manner<'_>,
    list: &ListLines<'_>,
    out: &mut W,
    err: &mut E,
) -> Result<Outcome, Failure>
    ensures { IfOk result (λ o. o ≡ Outcome.Made → E.contents err.new ≡ E.contents err.old) }
{
    let outcome = answer_text(manner, list, out, err)?;
    if !matches!(outcome, Outcome::Made | Outcome::Warned) {
        return Ok(outcome);
    }
    let (line, is_plain) = tried!(manner.tries, plain_line(manner, list))?;
    write_whole(line.as_bytes(), out)?;
    Ok(if is_plain { outcome } else { Outcome::Refused })
}

/// The line that says whether the list's file is plain, and whether it is.
fn plain_line(manner: Manner<'_>, list: &ListLines<'_>) -> Result<(String, bool), AllocError> {
    let Manner { alloc, source, .. } = manner;
    match list_plainness(alloc, list)? {
        Some(found) => {
            let line = format!(in alloc; "{source}:{found}\n")?;
            Ok((line, matches!(&found, Plainness::Plain)))
        }
        None => Ok((String::new(alloc), false)),
    }
}

/// Tells the list's warnings, where they are asked for, in one write.
fn tell_warnings<E: Write>(
    manner: Manner<'_>,
    list: &ListLines<'_>,
    err: &mut E,
) -> Result<Outcome, Failure>
    ensures { IfOk result (λ o. o ≡ Outcome.Made → E.contents err.new ≡ E.contents err.old) }
{
    if manner.lint == Linting::Off {
        return Ok(Outcome::Made);
    }
    let warnings = tried!(manner.tries, list_warnings(manner.alloc, list))?;
    let told = tried!(manner.tries, warned(manner, &warnings))?;
    let outcome = warned_outcome(manner.lint, warnings.is_empty());
    if outcome != Outcome::Made {
        tell(&told, (), err);
    }
    Ok(outcome)
}

/// What becomes of lists where forms are told, or none.
fn warned_outcome(lint: Linting, is_clean: bool) -> Outcome {
    match lint {
        _ if is_clean => Outcome::Made,
        Linting::Off => Outcome::Made,
        Linting::Told => Outcome::Warned,
        Linting::Strict => Outcome::Refused,
    }
}

/// The warnings, each in a line after its source.
fn warned(manner: Manner<'_>, warnings: &[LineWarning]) -> Result<String, AllocError> {
    let Manner { alloc, source, .. } = manner;
    let mut told = String::new(alloc);
    for warning in warnings {
        writeln!(told, "{source}:{warning}")?;
    }
    Ok(told)
}

/// What the list gives; with a map each line of the file's text stands after the line of the list that it comes from.
fn mapped(
    manner: Manner<'_>,
    list: &ListLines<'_>,
    mut made: ListOutput,
) -> Result<ListOutput, AllocError> {
    if let (true, Some(output)) = (manner.map, &made.output) {
        let (origins, _) = tried!(manner.tries, list_origins(manner.alloc, list))?;
        if let Some(origins) = origins {
            made.output = Some(tried!(manner.tries, origins.mapped(output))?);
        }
    }
    Ok(made)
}

/// Answers one list to `out` by a line of JSON.
fn answer_json<W: Write, E: Write>(
    manner: Manner<'_>,
    list: &ListLines<'_>,
    out: &mut W,
    err: &mut E,
) -> Result<Outcome, Failure>
    ensures { IfOk result (λ o. o ≡ Outcome.Made → E.contents err.new ≡ E.contents err.old) }
{
    let (line, verdict) = tried!(manner.tries, json(manner, list))?;
    let (line, linted) = tried!(manner.tries, json_linted(manner, list, &line))?;
    write_whole(line.as_bytes(), out)?;
    Ok(outcome_of(verdict, list.title.is_some()).and(linted))
}

/// The list's line of JSON, with its map where that is asked for.
fn json(manner: Manner<'_>, list: &ListLines<'_>) -> Result<(String, Verdict), AllocError> {
    let (line, verdict) = list_json(manner.alloc, manner.source, list)?;
    if manner.map {
        Ok((json_with_map(manner.alloc, list, &line, verdict)?, verdict))
    } else {
        Ok((line, verdict))
    }
}

/// The line with the list's warnings, where they are asked for.
fn json_linted(
    manner: Manner<'_>,
    list: &ListLines<'_>,
    line: &str,
) -> Result<(String, Outcome), AllocError> {
    if manner.lint == Linting::Off {
        return Ok((String::from_str(manner.alloc, line)?, Outcome::Made));
    }
    let warnings = list_warnings(manner.alloc, list)?;
    let line = json_with_warnings(manner.alloc, line, &warnings)?;
    Ok((line, warned_outcome(manner.lint, warnings.is_empty())))
}

fn outcome_of(verdict: Verdict, has_title: bool) -> Outcome
    ensures { result ≡ Outcome.Made → IsTrue (is_made verdict) }
{
    match verdict {
        Verdict::Made => Outcome::Made,
        Verdict::Refused if has_title => Outcome::Told,
        Verdict::Refused => Outcome::Refused,
        Verdict::NotInForm => Outcome::NotInForm,
    }
}

/// The faults of a list, each in a line after its source.
fn told(manner: Manner<'_>, made: &ListOutput) -> Result<String, AllocError> {
    let Manner { alloc, source, .. } = manner;
    let mut told = String::new(alloc);
    for fault in &made.faults {
        writeln!(told, "{source}:{fault}")?;
    }
    if made.more > 0 {
        writeln!(told, "{source}: {} faults more", made.more)?;
    }
    Ok(told)
}
