//! The library for C: `bindings/c/vast.h` says what each function is for.
//!
//! A session is held by a pointer, which is null before `vast_open` and after `vast_close`.
#![tactic(auto)]

ghost use Rattle.std.specs.Prelude.{◌≡◌, ◌≢◌, ◌<◌, ◌↔◌, Some, None, length};
ghost use Rattle.vast_session.specs.Session.{IsSame};
ghost use Rattle.vast_literal.specs.declared.kind.VastFileType.TheVariants.{Verilog, SystemVerilog};
ghost use Rattle.vast_calls.specs.Lines.{lines_of};
ghost use Rattle.vast_c.specs.Seen.{Copied, CopiedSome, IsFresh, IsSameTree, Made, Printed};
ghost use Rattle.vast_c.specs.SeenPacked.{MadeAllPacked, MadePacked};
ghost use Rattle.vast_c.specs.Seen.{lines_in, number_in, session_in, status_in, status_of, text_in, told_in};

mod handle;
mod kept;
mod lines;
mod warned;

use handle::Handle;
use kept::{Cause, Kept};
use std::alloc::Global;
use warned::warned_text;
use xlsynth_vast::VastFileType;

/// What a call returns.
pub const OK: i32 = 0;

/// The library refuses what the line asks.
pub const REFUSED: i32 = 1;

/// A condition of the call is not met.
pub const CONDITION: i32 = 2;

/// The line is not in the form.
pub const FORM: i32 = 3;

/// Memory was refused.
pub const MEMORY: i32 = 4;

/// The session is not open.
pub const NOT_OPEN: i32 = 5;

/// The number is no dialect's.
pub const NO_DIALECT: i32 = 6;

/// The dialects.
pub const VERILOG: i32 = 0;

pub const SYSTEMVERILOG: i32 = 1;

/// The texts of a session: what the last line answered.
pub const ANSWER: i32 = 0;

/// The last fault, with its line and its call.
pub const MESSAGE: i32 = 1;

/// The last fault, in words alone.
pub const WORDS: i32 = 2;

/// The name of the call at fault.
pub const CALL: i32 = 3;

/// The file as it was printed last.
pub const FILE: i32 = 4;

/// The numbers of a session: how many handles it has answered.
pub const COUNT: i32 = 0;

/// The line at fault, of all lines of the session, from 1.
pub const LINE: i32 = 1;

/// The character of that line where it stops being in the form, from 1.
pub const COLUMN: i32 = 2;

/// A session with an empty file, in place of one that was there.
#[unsafe(no_mangle)]
pub extern "C" fn vast_open(alloc: Global, handle: &mut Handle, dialect: i32) -> i32
    ensures verilog { result ≡ OK → dialect ≡ VERILOG → IsFresh Verilog handle.new.kept }
    ensures other { result ≡ OK → dialect ≡ SYSTEMVERILOG → IsFresh SystemVerilog handle.new.kept }
    ensures dialect { result ≡ NO_DIALECT ↔ (dialect ≢ VERILOG) × (dialect ≢ SYSTEMVERILOG) }
    ensures unchanged { result ≢ OK → handle.new.kept ≡ handle.old.kept }
{
    let Some(dialect) = dialect_of(dialect) else {
        return NO_DIALECT;
    };
    let Ok(kept) = Box::new(alloc, Kept::new(alloc, dialect)) else {
        return MEMORY;
    };
    handle.put(kept);
    OK
}

fn dialect_of(dialect: i32) -> Option<VastFileType>
    ensures verilog { dialect ≡ VERILOG → result ≡ Some Verilog }
    ensures other { dialect ≡ SYSTEMVERILOG → result ≡ Some SystemVerilog }
    ensures none { result ≡ None ↔ (dialect ≢ VERILOG) × (dialect ≢ SYSTEMVERILOG) }
{
    match dialect {
        VERILOG => Some(VastFileType::Verilog),
        SYSTEMVERILOG => Some(VastFileType::SystemVerilog),
        _ => None,
    }
}

/// Makes the calls of the lines, up to the first at fault.
#[tactic(auto, using(crate::proofs::Steps::status_told))]
#[unsafe(no_mangle)]
pub extern "C" fn vast_lines(
    alloc: Global,
    handle: &mut Handle,
    lines: &[u8],
    taken: &mut usize,
) -> i32
    ensures closed { result ≡ NOT_OPEN ↔ handle.old.kept ≡ None }
    ensures made { Made handle.old.kept (lines_of lines.now) taken.new IsSameTree handle.new.kept }
    ensures exact { result ≢ MEMORY →
        Made handle.old.kept (lines_of lines.now) taken.new IsSame handle.new.kept }
    ensures all { result ≡ OK → taken.new ≡ length (lines_of lines.now) }
    ensures none { result ≡ OK → told_in handle.new.kept ≡ None }
    ensures file { text_in FILE handle.new.kept ≡ text_in FILE handle.old.kept }
    ensures fault { result ≢ OK → result ≢ NOT_OPEN → taken.new < length (lines_of lines.now) }
    ensures status { result ≢ OK → result ≢ NOT_OPEN → result ≡ status_in handle.new.kept }
{
    let Some(mut kept) = handle.take(alloc) else {
        *taken = 0;
        return NOT_OPEN;
    };
    let made = kept.make_lines(lines);
    handle.put(kept);
    *taken = made.taken;
    match made.cause {
        None => OK,
        Some(cause) => status(cause),
    }
}

/// Makes the packed calls, up to the first at fault.
#[tactic(auto, using(crate::proofs::Steps::status_told))]
#[unsafe(no_mangle)]
pub extern "C" fn vast_packed(
    alloc: Global,
    handle: &mut Handle,
    calls: &[u8],
    taken: &mut usize,
) -> i32
    ensures closed { result ≡ NOT_OPEN ↔ handle.old.kept ≡ None }
    ensures made { MadePacked handle.old.kept calls.now taken.new IsSameTree handle.new.kept }
    ensures exact { result ≢ MEMORY →
        MadePacked handle.old.kept calls.now taken.new IsSame handle.new.kept }
    ensures all { result ≡ OK →
        MadeAllPacked handle.old.kept calls.now taken.new handle.new.kept }
    ensures none { result ≡ OK → told_in handle.new.kept ≡ None }
    ensures file { text_in FILE handle.new.kept ≡ text_in FILE handle.old.kept }
    ensures status { result ≢ OK → result ≢ NOT_OPEN → result ≡ status_in handle.new.kept }
{
    let Some(mut kept) = handle.take(alloc) else {
        *taken = 0;
        return NOT_OPEN;
    };
    let run = kept.make_packed(calls);
    handle.put(kept);
    *taken = run.taken;
    match run.cause {
        None => OK,
        Some(cause) => status(cause),
    }
}

fn status(cause: Cause) -> i32
    ensures status { result ≡ status_of cause }
    ensures ok { result ≢ OK }
    ensures open { result ≢ NOT_OPEN }
{
    match cause {
        Cause::Refused => REFUSED,
        Cause::Condition => CONDITION,
        Cause::Form => FORM,
        Cause::Memory => MEMORY,
    }
}

/// Prints the file, which is the text FILE from then on.
#[tactic(auto, using(crate::proofs::Steps::status_told))]
#[unsafe(no_mangle)]
pub extern "C" fn vast_print(alloc: Global, handle: &mut Handle) -> i32
    ensures closed { result ≡ NOT_OPEN ↔ handle.old.kept ≡ None }
    ensures printed { result ≡ OK → Printed handle.old.kept handle.new.kept }
    ensures session { session_in handle.new.kept ≡ session_in handle.old.kept }
    ensures lines { lines_in handle.new.kept ≡ lines_in handle.old.kept }
    ensures unchanged { result ≢ OK →
        text_in FILE handle.new.kept ≡ text_in FILE handle.old.kept }
    ensures none { result ≡ OK → told_in handle.new.kept ≡ None }
    ensures status { result ≢ OK → result ≢ NOT_OPEN → result ≡ status_in handle.new.kept }
{
    let Some(mut kept) = handle.take(alloc) else {
        return NOT_OPEN;
    };
    let printed = kept.print();
    handle.put(kept);
    match printed {
        Ok(()) => OK,
        Err(cause) => status(cause),
    }
}

/// Copies the start of a text, as much as fits, and returns the length of all of it.
#[unsafe(no_mangle)]
pub extern "C" fn vast_text(alloc: Global, handle: &mut Handle, text: i32, out: &mut [u8]) -> usize
    ensures copied { Copied (text_in text handle.old.kept) out.old out.new result }
    ensures unchanged { handle.new.kept ≡ handle.old.kept }
{
    let Some(kept) = handle.take(alloc) else {
        return 0;
    };
    let length = copy_start(text_of(&kept, text).as_bytes(), out);
    handle.put(kept);
    length
}

fn text_of(kept: &Kept, text: i32) -> &str
    ensures { result.now ≡ text_in text (Some kept.now) }
{
    match (text, &kept.told) {
        (ANSWER, _) => &kept.answer,
        (FILE, _) => &kept.file,
        (MESSAGE, Some(told)) => &told.message,
        (WORDS, Some(told)) => &told.fault.words,
        (CALL, Some(told)) => &told.fault.call,
        _ => "",
    }
}

fn copy_start(text: &[u8], out: &mut [u8]) -> usize
    ensures { Copied text.now out.old out.new result }
{
    let n = text.len().min(out.len());
    out[..n].copy_from_slice(&text[..n]);
    text.len()
}

/// How many handles the session has answered, or where its last fault is; 0 where there is none.
#[unsafe(no_mangle)]
pub extern "C" fn vast_number(alloc: Global, handle: &mut Handle, number: i32) -> usize
    ensures number { result ≡ number_in number handle.old.kept }
    ensures unchanged { handle.new.kept ≡ handle.old.kept }
{
    let Some(kept) = handle.take(alloc) else {
        return 0;
    };
    let answer = number_of(&kept, number);
    handle.put(kept);
    answer
}

fn number_of(kept: &Kept, number: i32) -> usize
    ensures { result ≡ number_in number (Some kept.now) }
{
    match (number, &kept.told) {
        (COUNT, _) => kept.session.answers().len(),
        (LINE, Some(told)) => told.fault.line,
        (COLUMN, Some(told)) => told.fault.column.unwrap_or(0),
        _ => 0,
    }
}

/// Copies the start of what a list of these lines prints that is no SystemVerilog or Verilog, or that a tool refuses, as
/// much as fits. `all` becomes the length of the whole text.
#[unsafe(no_mangle)]
pub extern "C" fn vast_warnings(
    alloc: Global,
    dialect: i32,
    lines: &[u8],
    out: &mut [u8],
    all: &mut usize,
) -> i32
    ensures dialect { result ≡ NO_DIALECT ↔ (dialect ≢ VERILOG) × (dialect ≢ SYSTEMVERILOG) }
    ensures copied { result ≡ OK → CopiedSome out.old out.new all.new }
    ensures unchanged { result ≢ OK → out.new ≡ out.old }
    ensures none { result ≢ OK → all.new ≡ 0 }
{
    *all = 0;
    let Some(dialect) = dialect_of(dialect) else {
        return NO_DIALECT;
    };
    match warned_text(alloc, dialect, lines) {
        Ok(text) => {
            *all = copy_start(text.as_bytes(), out);
            OK
        }
        Err(_) => MEMORY,
    }
}

/// Frees the session, and leaves null.
#[unsafe(no_mangle)]
pub extern "C" fn vast_close(alloc: Global, handle: &mut Handle)
    ensures { handle.new.kept ≡ None }
{
    drop(handle.take(alloc));
}
