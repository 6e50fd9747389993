//! A user's own crate: seven designs made by calls, which `vast_show` prints.
//!
//! The crate names one set of lemmas, `callers`, and but for one function of the queue's none has a proof of its own.
#![tactic(auto, using(xlsynth_vast::proofs::Callers::callers))]

ghost use Rattle.std.specs.Prelude.{IfOk, string_bytes};
ghost use Rattle.vast_print.specs.Layout.{IsFileText};

mod asked;
mod clocked;
mod counter;
mod fault;
mod fifo;
mod hierarchy;
mod parts;
mod pipeline;
mod registers;
mod signals;
mod states;
mod uart;

use counter::add_counter;
pub use fault::ExampleFault;
pub use fifo::add_fifo;
use hierarchy::add_hierarchy;
use pipeline::add_pipeline;
use registers::add_register_map;
use states::add_states;
use std::alloc::Global;
pub use uart::add_uart;
use xlsynth_vast::{FileIds, VastFile, VastFileType};

/// The text of a new file with the example of this name.
///
/// The contract says that it is a file's text, the printed layout of a tree; which tree is tested, not proved.
///
/// # Errors
/// `Unknown` where no example has the name; a refusal of a call; out of memory.
#[tactic(auto, using(xlsynth_vast::proofs::Callers::emitted_text))]
pub fn example(alloc: Global, name: &str) -> Result<String, ExampleFault>
    ensures { IfOk result (λ text. IsFileText (string_bytes text)) }
{
    let mut ids = FileIds::new();
    let mut file = VastFile::new(alloc, VastFileType::SystemVerilog, &mut ids).unwrap();
    build(name, &mut file)?;
    Ok(file.emit()?)
}

/// Adds the example of this name: the pipeline has three stages, the queue 16 bytes, the transmitter 4 clocks a bit.
fn build(name: &str, file: &mut VastFile) -> Result<(), ExampleFault> {
    if name == "counter" {
        add_counter(file)
    } else if name == "states" {
        add_states(file)
    } else if name == "pipeline" {
        add_pipeline(3, file)
    } else if name == "registers" {
        add_register_map(file)
    } else if name == "hierarchy" {
        add_hierarchy(file)
    } else if name == "fifo" {
        add_fifo(file, 8, 16)?;
        Ok(())
    } else if name == "uart" {
        add_uart(file, 4)?;
        Ok(())
    } else {
        Err(ExampleFault::Unknown)
    }
}
