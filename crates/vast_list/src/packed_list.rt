//! Packed lists, whole.

ghost use Rattle.std.specs.Prelude.{◌≡◌, ◌++◌, IfOk, IfSome};
ghost use Rattle.vast_list.specs.Output.{IsPrinted};
ghost use Rattle.vast_list.specs.PackedLists.{IsPackedText, is_packed_list, packed_front};

use crate::answering::ListReport;
use crate::output::{ListOutput, at_fault, printed};
use crate::tries::Tries;
use std::alloc::{AllocError, Global};
use vast_calls::Problem;
use vast_session::{Fault, Session, problem_fault};
use xlsynth_vast::VastFileType;

/// What a packed list begins with; the version of its form and its dialect stand after it, a byte each.
pub const PACKED: &[u8] = b"\0vast";

/// Whether the input is a packed list.
pub fn is_packed_list(input: &[u8]) -> bool
    ensures { result ≡ is_packed_list input.now }
{
    input.starts_with(PACKED)
}

/// The first bytes of a packed list of the dialect.
pub(crate) fn packed_front(dialect: VastFileType) -> [u8; 7]
    ensures { result ≡ packed_front dialect }
{
    match dialect {
        VastFileType::Verilog => *b"\0vast\x02\x00",
        VastFileType::SystemVerilog => *b"\0vast\x02\x01",
    }
}

/// What is printed of a packed list, its file's text alone; and what is told of its first fault, after which no call is
/// made.
pub fn packed_output(alloc: Global, input: &[u8]) -> Result<ListOutput, AllocError>
    ensures text { IfOk result (λ made. IfSome made.output
        (λ output. IsPackedText input.now output.items)) }
    ensures printed { IfOk result IsPrinted }
{
    let Some((dialect, calls)) = packed_dialect(input) else {
        return match problem_fault(alloc, 0, Problem::NoVersion) {
            Fault::Memory => Err(AllocError),
            Fault::Line(fault) => at_fault(alloc, Tries::Once, fault),
        };
    };
    let mut session = Session::new(alloc, dialect);
    match session.packed_calls(calls) {
        Ok(()) => {
            session.forget_answers();
            printed(Tries::Once, &session, ListReport::new(alloc))
        }
        Err(Fault::Memory) => Err(AllocError),
        Err(Fault::Line(fault)) => at_fault(alloc, Tries::Once, fault),
    }
}

/// The dialect, and the calls after it.
fn packed_dialect(input: &[u8]) -> Option<(VastFileType, &[u8])>
    ensures { IfSome result (λ found. input.now ≡ packed_front found.0 ++ found.1.now) }
{
    for dialect in [VastFileType::Verilog, VastFileType::SystemVerilog] {
        if let Some(calls) = input.strip_prefix(&packed_front(dialect)) {
            return Some((dialect, calls));
        }
    }
    None
}
