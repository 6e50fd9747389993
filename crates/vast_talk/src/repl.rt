//! Lines that are answered one by one, by JSON.

ghost use Rattle.std.specs.Prelude.{◌≡◌, ◌+◌, ◌-◌, ◌^◌, ◌++◌, ◌↔◌, IfOk, IsTrue, MatchOption, OnOk, None, codes, false, min, string_bytes, true};
ghost use Rattle.std.specs.Str.Lossy.{utf8_lossy};
ghost use Rattle.vast_calls.specs.Lines.{dialect_word};
ghost use Rattle.vast_talk.specs.Linted.{HasCounted, IsLevel, HasItsLint};
ghost use Rattle.vast_talk.specs.Replies.{AsksForWarnings, IsReply, RepliesLinted, RepliesTo, RepliesToFirst, RepliesToLine, is_header, text_object};
ghost use Rattle.vast_talk.specs.Internal.Linted.{is_memory};
ghost use Rattle.vast_talk.specs.Internal.Replies.{AddsAnswer, AddsFault, AddsReply, AddsWarned};

use crate::LineWarning;
use crate::linted::{SessionLint, take_linted};
use crate::warnings::{push_last, push_warnings};
use std::alloc::{AllocError, Global};
use std::fmt::Write;
use vast_calls::{is_empty_line, push_json_text};
use vast_session::{Fault, HEADER, Session, dialect_of, push_fault, push_given};
use xlsynth_vast::VastFileType;

/// What a session with a lint is asked for what its end would tell.
const ASKED: &[u8] = b"?Warnings";

/// A session, or none before the line that names its dialect.
#[derive(Drop)]
pub struct Repl {
    alloc: Global,
    /// Whether what calls print is told.
    has_lint: bool,
    session: Option<Session>,
    /// Beside the session, where that is told.
    lint: Option<SessionLint>,
    /// The number of the last line.
    number: usize,
}

impl Repl {
    /// Before the first line. It takes no memory.
    pub fn new(alloc: Global) -> Repl
        ensures lint { result.has_lint ≡ false }
        ensures session { result.session ≡ None }
        ensures number { result.number ≡ 0 }
        ensures beside { HasItsLint result }
    {
        Repl {
            alloc,
            has_lint: false,
            session: None,
            lint: None,
            number: 0,
        }
    }

    /// The same with a lint: the reply to a call that prints what is no SystemVerilog or Verilog, or what a tool refuses,
    /// has the last member `"warnings":[{"line":12,"call":"MakeIndex",..}]`, in the form of
    /// [`json_with_warnings`](crate::json_with_warnings). The line `?Warnings` is answered by what would be told at the
    /// end of the list, if it ended there: `{"line":13,"call":"?Warnings","answer":[..]}`. It takes no memory.
    pub fn with_lint(alloc: Global) -> Repl
        ensures lint { result.has_lint ≡ true }
        ensures session { result.session ≡ None }
        ensures number { result.number ≡ 0 }
        ensures beside { HasItsLint result }
    {
        let mut repl = Repl::new(alloc);
        repl.has_lint = true;
        repl
    }

    /// Takes the next line, without its line feed, and returns what it gave, an object of JSON with a line break.
    ///
    /// The first line that is neither blank nor a comment names the dialect, `{"line":1,"dialect":"verilog"}`. A header,
    /// `== TITLE`, begins anew, `{"line":9,"title":"TITLE"}`. A line with a fault counts for nothing but its number.
    #[tactic(auto, using(crate::proofs::Replied::replies))]
    pub fn reply(&mut self, line: &[u8]) -> Result<String, AllocError>
        ensures beside { HasItsLint self.old → OnOk result (HasItsLint self.new) }
        ensures lint { self.new.has_lint ≡ self.old.has_lint }
        ensures number { self.new.number ≡ min (self.old.number + 1) (2 ^ 64 - 1) }
        ensures reply { HasItsLint self.old
            → IfOk result (λ text. IsReply self.old self.new line.now (string_bytes text)) }
    {
        self.number = self.number.saturating_add(1);
        let mut text = String::new(self.alloc);
        let taken = self.take(line, &mut text);
        push_taken(&mut text, taken)?;
        text.push('\n')?;
        Ok(text)
    }

    fn take(&mut self, line: &[u8], text: &mut String) -> Result<(), Fault>
        ensures beside { HasItsLint self.old → is_memory result ≡ false → HasItsLint self.new }
        ensures lint { self.new.has_lint ≡ self.old.has_lint }
        ensures number { self.new.number ≡ self.old.number }
        ensures told { HasItsLint self.old
            → AddsReply (string_bytes text.old) (string_bytes text.new) result
            (RepliesTo (is_header line.now) self.old.has_lint self.old.session self.new.session
            self.new.number line.now) }
    {
        if let Some(title) = line.strip_prefix(HEADER) {
            return self.begin(title, text);
        }
        match &mut self.session {
            Some(session) => match &mut self.lint {
                None => push_line(text, session, self.number, line),
                Some(lint) => push_linted(text, session, lint, self.number, line),
            },
            None => self.open(line, text),
        }
    }

    /// Begins anew, after a header.
    fn begin(&mut self, title: &[u8], text: &mut String) -> Result<(), Fault>
        ensures beside { HasItsLint self.new }
        ensures lint { self.new.has_lint ≡ self.old.has_lint }
        ensures number { self.new.number ≡ self.old.number }
        ensures session { self.new.session ≡ None }
        ensures told { AddsReply (string_bytes text.old) (string_bytes text.new) result
            (λ object. object
            ≡ text_object self.new.number (codes ",\"title\":") (utf8_lossy title.now)) }
    {
        self.session = None;
        self.lint = None;
        let title = String::from_utf8_lossy(self.alloc, title)?;
        push_one(text, self.number, ",\"title\":", &title)?;
        Ok(())
    }

    /// Takes a line before there is a session.
    #[tactic(auto, using(crate::proofs::Replied::replies))]
    fn open(&mut self, line: &[u8], text: &mut String) -> Result<(), Fault>
        ensures beside { HasItsLint self.old → is_memory result ≡ false → HasItsLint self.new }
        ensures lint { self.new.has_lint ≡ self.old.has_lint }
        ensures number { self.new.number ≡ self.old.number }
        ensures told { self.old.session ≡ None
            → AddsReply (string_bytes text.old) (string_bytes text.new) result
            (RepliesToFirst self.new.session self.new.number line.now) }
    {
        if is_empty_line(line) {
            write!(text, "{{\"line\":{}}}", self.number)?;
            return Ok(());
        }
        let dialect = match dialect_of(self.alloc, self.number, line) {
            Ok(dialect) => dialect,
            Err(fault) => return Err(fault),
        };
        self.session = Some(Session::new(self.alloc, dialect));
        self.lint = lint_of(self.alloc, self.has_lint, dialect);
        push_one(text, self.number, ",\"dialect\":", dialect_word(dialect))?;
        Ok(())
    }
}

/// Appends the fault, if the line has one.
fn push_taken(text: &mut String, taken: Result<(), Fault>) -> Result<(), AllocError>
    ensures memory { OnOk result (is_memory taken ≡ false) }
    ensures text { OnOk result
        (AddsFault (string_bytes text.old) (string_bytes text.new) taken) }
{
    match taken {
        Ok(()) => Ok(()),
        Err(Fault::Memory) => Err(AllocError),
        Err(Fault::Line(fault)) => push_fault(text, &fault),
    }
}

/// The lint beside a new session, where there is to be one.
fn lint_of(alloc: Global, has_lint: bool, dialect: VastFileType) -> Option<SessionLint>
    ensures { MatchOption result (has_lint ≡ false)
        (λ lint. (has_lint ≡ true) × HasCounted lint 0) }
{
    if has_lint {
        Some(SessionLint::new(alloc, dialect))
    } else {
        None
    }
}

/// Takes the line, and appends what it gave.
#[tactic(auto, using(crate::proofs::Replied::taken))]
fn push_line(
    text: &mut String,
    session: &mut Session,
    number: usize,
    line: &[u8],
) -> Result<(), Fault>
    ensures { AddsReply (string_bytes text.old) (string_bytes text.new) result
        (RepliesToLine session.old session.new number line.now) }
{
    let given = session.line(number, line)?;
    push_given(text, session, number, &given)?;
    Ok(())
}

/// Whether the line asks for what the end of the list would tell.
fn asks_for_warnings(line: &[u8]) -> bool
    ensures { IsTrue result ↔ AsksForWarnings line.now }
{
    line.strip_suffix(b"\r").unwrap_or(line) == ASKED
}

/// The same, and after it what the line's call prints; or what the end of the list would tell, where the line asks.
fn push_linted(
    text: &mut String,
    session: &mut Session,
    lint: &mut SessionLint,
    number: usize,
    line: &[u8],
) -> Result<(), Fault>
    ensures level { IsLevel lint.old session.old → is_memory result ≡ false
        → IsLevel lint.new session.new }
    ensures told { AddsReply (string_bytes text.old) (string_bytes text.new) result
        (RepliesLinted session.old session.new number line.now) }
{
    let alloc = session.file().allocator();
    let mut warnings = Vec::new(alloc);
    if asks_for_warnings(line) {
        lint.end(session, &mut warnings)?;
        push_end(text, number, &warnings)?;
        return Ok(());
    }
    let given = take_linted(session, lint, number, line, &mut warnings)?;
    let mut object = String::new(alloc);
    push_given(&mut object, session, number, &given)?;
    push_warned(text, &object, &warnings)?;
    Ok(())
}

/// Appends the answer of `?Warnings`.
fn push_end(text: &mut String, number: usize, warnings: &[LineWarning]) -> Result<(), AllocError>
    ensures { OnOk result (AddsAnswer (string_bytes text.old) (string_bytes text.new) number) }
{
    write!(
        text,
        "{{\"line\":{number},\"call\":\"?Warnings\",\"answer\":"
    )?;
    push_warnings(text, warnings)?;
    text.push('}')?;
    Ok(())
}

/// Appends the object, with the warnings as its last member where there are any.
fn push_warned(text: &mut String, object: &str, warnings: &[LineWarning]) -> Result<(), AllocError>
    ensures { OnOk result
        (AddsWarned (string_bytes text.old) (string_bytes text.new) object.now) }
{
    if !warnings.is_empty() {
        if let Some(front) = object.strip_suffix("}") {
            text.push_str(front)?;
            push_last(text, warnings)?;
            return text.push('}');
        }
    }
    text.push_str(object)
}

/// Appends an object of the line's number and a text; `name` is the text's name as it stands in the object.
fn push_one(text: &mut String, line: usize, name: &str, value: &str) -> Result<(), AllocError>
    ensures { OnOk result
        (string_bytes text.new ≡ string_bytes text.old ++ text_object line name.now value.now) }
{
    write!(text, "{{\"line\":{line}{name}")?;
    push_json_text(text, value)?;
    text.push('}')
}

fn dialect_word(dialect: VastFileType) -> &'static str
    ensures { result.now ≡ dialect_word dialect }
{
    match dialect {
        VastFileType::Verilog => "verilog",
        VastFileType::SystemVerilog => "systemverilog",
    }
}
