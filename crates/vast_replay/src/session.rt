//! Lines that are answered one by one.

ghost use Rattle.std.specs.Prelude.{◌≡◌, IfOk, IfSome, OnOk};
ghost use Rattle.std.specs.Io.KnownBytes.{Appends};
ghost use Rattle.vast_calls.specs.Lines.{lines_of};
ghost use Rattle.vast_talk.specs.Linted.{HasItsLint};
ghost use Rattle.vast_replay.specs.Sessions.{IsBegun, WritesReplies};
ghost use Rattle.vast_replay.specs.Internal.Sessions.{HasRepliedAll, IsWithoutFeed, ReadsLine};

use crate::outcome::Outcome;
use std::alloc::Global;
use std::io;
use std::io::{BufRead, Write};
use vast_shell::{Failure, WriteFault, ended, write_whole};
use vast_talk::Repl;

/// Answers each line of `input` by a line of JSON on `out`, written through at once, to the end of the input; with `lint`
/// each tells too what its call prints that is no SystemVerilog or Verilog, or that a tool refuses.
///
/// Where all lines were answered the replies to the input's lines were written, in order, and nothing else.
///
/// A failed read (`read fault`), a failed write (`write fault`) and out of memory (`out of memory`) are told on `err` and
/// end the run.
pub fn answer_lines<R: BufRead, W: Write, E: Write>(
    alloc: Global,
    lint: bool,
    input: &mut R,
    out: &mut W,
    err: &mut E,
) -> Outcome
    ensures made { result ≡ Outcome.Made → E.contents err.new ≡ E.contents err.old }
    ensures replies { result ≡ Outcome.Made → IfSome (R.remaining input.old)
        (λ bytes. WritesReplies lint (lines_of bytes) (W.contents out.old) (W.contents out.new)) }
{
    let mut repl = repl_of(alloc, lint);
    let answered = answer_each(alloc, &mut repl, input, out);
    drop(repl);
    ended(answered, Outcome::Failed, err)
}

/// Answers each line in this session.
fn answer_each<R: BufRead, W: Write>(
    alloc: Global,
    repl: &mut Repl,
    input: &mut R,
    out: &mut W,
) -> Result<Outcome, Failure>
    ensures { HasItsLint repl.old → OnOk result (IfSome (R.remaining input.old)
        (λ bytes. HasRepliedAll bytes repl.old repl.new (W.contents out.old) (W.contents out.new))) }
{
    for _ in 0..u64::MAX {
        let line = match read_line(alloc, input) {
            Ok(Some(line)) => line,
            Ok(None) => return Ok(Outcome::Made),
            Err(error) => return Err(Failure::of_read(error)),
        };
        write_through(out, &repl.reply(&line)?)?;
    }
    Err(Failure::Lines)
}

/// Writes the text, and through to its end.
fn write_through<W: Write>(out: &mut W, text: &str) -> Result<(), WriteFault>
    ensures { OnOk result (Appends (W.contents out.old) (W.contents out.new) text.now) }
{
    write_whole(text.as_bytes(), out)?;
    out.flush().map_err(|_| WriteFault)
}

fn repl_of(alloc: Global, lint: bool) -> Repl
    ensures { IsBegun lint result }
{
    if lint {
        Repl::with_lint(alloc)
    } else {
        Repl::new(alloc)
    }
}

/// The next line without its line feed; `None` at the end.
fn read_line<R: BufRead>(alloc: Global, input: &mut R) -> io::Result<Option<Vec<u8>>>
    ensures { IfOk result (λ found. IfSome (R.remaining input.old)
        (λ bytes. ReadsLine bytes (R.remaining input.new) found)) }
{
    let mut line = Vec::new(alloc);
    if input.read_until(b'\n', &mut line)? == 0 {
        return Ok(None);
    }
    strip_feed(&mut line);
    Ok(Some(line))
}

/// Takes away the line feed at the end, if there is one.
fn strip_feed(line: &mut Vec<u8>)
    ensures { IsWithoutFeed line.old.items line.new.items }
{
    let length = match line.strip_suffix(b"\n") {
        Some(front) => front.len(),
        None => line.len(),
    };
    line.truncate(length);
}
