//! The line of a list that names its dialect.

ghost use Rattle.std.specs.Prelude.{◌≡◌, ◌≤◌, All, IfErr, IfOk, length, take};
ghost use Rattle.vast_calls.specs.Lines.{BeginsWithDialect, NamesDialect, Passed, dialect_word, line_kind, line_texts, without_return};
ghost use Rattle.vast_session.specs.Session.{IsOfLine};

use crate::fault::{Fault, misread, problem_fault};
use crate::lines::ListLines;
use std::alloc::Global;
use vast_calls::{Misfit, Problem, is_empty_line, text_of};
use xlsynth_vast::VastFileType;

/// The dialect that the line names.
///
/// # Errors
/// Where it names none, and out of memory.
#[tactic(auto, using(crate::proofs::Sessions::dialects))]
pub fn dialect_of(alloc: Global, number: usize, line: &[u8]) -> Result<VastFileType, Fault>
    ensures dialect { IfOk result (λ dialect. without_return line.now ≡ dialect_word dialect) }
    ensures none { IfErr result (λ fault. NamesDialect line.now → ⊥) }
    ensures number { IfErr result (IsOfLine number) }
{
    let text = match text_of(line) {
        Ok(text) => text,
        Err(misfit) => return Err(misread(alloc, number, "", "", misfit)),
    };
    let left = text.len();
    let problem = Problem::NoDialect;
    match text {
        "verilog" => Ok(VastFileType::Verilog),
        "systemverilog" => Ok(VastFileType::SystemVerilog),
        _ => Err(misread(alloc, number, text, "", Misfit { left, problem })),
    }
}

/// The dialect, and the lines after the one that names it, which is the first that is neither blank nor a comment.
///
/// # Errors
/// Where that line names none or there is no such line, and out of memory.
pub fn dialect_line<'l, 'a>(
    alloc: Global,
    list: &'l ListLines<'a>,
) -> Result<(VastFileType, &'l [(usize, &'a [u8])]), Fault>
    ensures { IfOk result (λ found.
        BeginsWithDialect (line_texts list.now.lines.items) found.0 (line_texts found.1.now)) }
{
    let lines = &list.lines[empty_lines(&list.lines)..];
    match lines.split_first() {
        Some(((number, line), behind)) => {
            let dialect = dialect_of(alloc, *number, line)?;
            Ok((dialect, behind))
        }
        None => Err(problem_fault(alloc, list.number, Problem::NoDialect)),
    }
}

/// How many of the first lines are blank or comments.
fn empty_lines(lines: &[(usize, &[u8])]) -> usize
    ensures bound { result ≤ length lines.now }
    ensures passed { All (λ line. line_kind line ≡ Passed) (line_texts (take result lines.now)) }
{
    let mut count = 0usize;
    for (_, line) in lines {
        if !is_empty_line(line) {
            return count;
        }
        count += 1;
    }
    count
}
