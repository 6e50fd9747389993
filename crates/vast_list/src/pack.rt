//! Lists in packed form, of lists of text.

ghost use Rattle.std.specs.Prelude.{◌≡◌, IfOk, IfSome, IsTrue};
ghost use Rattle.vast_calls.specs.Lines.{line_texts};
ghost use Rattle.vast_list.specs.Output.{IsPrinted};
ghost use Rattle.vast_list.specs.PackedLists.{IsPackedText, IsTwin};

use crate::output::{ListOutput, at_fault, packed_bytes, titled_output};
use crate::packed_list::{packed_front, packed_output};
use crate::tries::Tries;
use std::alloc::{AllocError, Global};
use vast_calls::{Problem, is_empty_line, pack_line, push_number};
use vast_session::{Fault, ListLines, Session, dialect_line, problem_fault};

/// The list in packed form, where its file's text is printed; else what is told of the list.
///
/// The packed list is read back, and returned only where it builds the same text.
pub fn pack_list(alloc: Global, list: &ListLines<'_>) -> Result<ListOutput, AllocError>
    ensures twin { IfOk result (λ made. IfSome made.output
        (λ output. IsTwin (line_texts list.now.lines.items) output.items)) }
    ensures printed { IfOk result IsPrinted }
{
    let made = titled_output(alloc, Tries::Once, None, list)?;
    let Some(text) = &made.output else {
        return Ok(made);
    };
    match twin_of(alloc, list, text) {
        Ok(bytes) => Ok(packed_bytes(alloc, bytes)),
        Err(Fault::Memory) => Err(AllocError),
        Err(Fault::Line(fault)) => at_fault(alloc, Tries::Once, fault),
    }
}

/// The list in packed form, where that builds this text.
fn twin_of(alloc: Global, list: &ListLines<'_>, text: &Vec<u8>) -> Result<Vec<u8>, Fault>
    ensures { IfOk result (λ bytes. IsPackedText bytes.items text.now.items) }
{
    let bytes = packed_lines(alloc, list)?;
    let packed = packed_output(alloc, &bytes)?;
    match &packed.output {
        Some(built) if is_same(built, text) => Ok(bytes),
        _ => { Err(problem_fault(alloc, list.number, Problem::OtherFile)) }
    }
}

fn is_same(one: &[u8], other: &[u8]) -> bool
    ensures { IsTrue result → one.now ≡ other.now }
{
    one == other
}

/// The lines in packed form, all of whose calls are made.
fn packed_lines(alloc: Global, list: &ListLines<'_>) -> Result<Vec<u8>, Fault> {
    let (dialect, lines) = match dialect_line(alloc, list) {
        Ok(found) => found,
        Err(fault) => return Err(fault),
    };
    let mut bytes = Vec::new(alloc);
    bytes.extend_from_slice(&packed_front(dialect))?;
    let mut session = Session::new(alloc, dialect);
    let mut call = Vec::new(alloc);
    for (number, line) in lines {
        if !is_empty_line(line) {
            call.clear();
            if let Err(misfit) = pack_line(session.known(), line, &mut call) {
                return Err(problem_fault(alloc, *number, misfit.problem));
            }
            push_number(&mut bytes, call.len())?;
            bytes.extend_from_slice(&call)?;
        }
        session.line(*number, line)?;
    }
    Ok(bytes)
}
