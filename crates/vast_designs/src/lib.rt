//! Designs whose texts are proved: what `vast_demo` prints.
//!
//! [`passthrough`] and [`cases`] are lists of steps, which are replayed; [`registers`] makes its calls itself.
#![tactic(auto)]

ghost use Rattle.std.specs.Prelude.{◌≡◌, IfOk, map, string_bytes};
ghost use Rattle.vast_script.specs.Script.{call_of};
ghost use Rattle.vast_designs.specs.Internal.DesignCalls.{calls_text};

mod clocked;
mod encoder;
pub mod laws;
mod wires;

pub use clocked::registers;
pub use encoder::cases;
use std::alloc::{AllocError, Global};
use thiserror::Error;
use vast_script::{ScriptFault, Step, replay};
pub use wires::passthrough;
use xlsynth_vast::{FileIds, VastFault, VastFile, VastFileType};

/// Why a list of steps has no text.
#[derive(Debug, Drop, Error)]
pub enum DesignFault {
    /// A step is at fault.
    #[error(transparent)]
    Script(#[from] ScriptFault),
    /// The text was refused.
    #[error(transparent)]
    Text(#[from] VastFault),
    /// The memory for the steps was refused.
    #[error("out of memory")]
    Memory(#[from(alloc)] AllocError),
}

/// The text of the file that the steps build.
///
/// # Errors
/// The first step at fault, a refused text, or out of memory.
fn design_text(alloc: Global, steps: &[Step]) -> Result<String, DesignFault>
    ensures { IfOk result (λ text. string_bytes text ≡ calls_text (map call_of steps.now)) }
{
    let mut ids = FileIds::new();
    let mut file = VastFile::new(alloc, VastFileType::SystemVerilog, &mut ids).unwrap();
    let _answers = replay(&mut file, steps)?;
    let text = file.emit()?;
    Ok(text)
}
