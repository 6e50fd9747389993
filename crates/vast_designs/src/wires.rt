//! A module whose output is its input.

ghost use Rattle.std.specs.Prelude.{◌≡◌, IfOk, map, string_bytes};
ghost use Rattle.vast_script.specs.Script.{call_of};
ghost use Rattle.vast_designs.specs.DesignCalls.{passthrough_calls};
ghost use Rattle.vast_designs.specs.DesignTexts.{passthrough_text};

use super::{DesignFault, design_text};
use std::alloc::{AllocError, Global};
use vast_script::{ArtifactStep, ModuleStep, Step, TypeStep};

fn passthrough_steps(alloc: Global) -> Result<Vec<Step>, AllocError>
    ensures { IfOk result (λ steps. map call_of steps.items ≡ passthrough_calls) }
{
    let steps = vec![in alloc;
        Step::Modules(ModuleStep::AddModule(String::from_str(alloc, "passthrough")?)),
        Step::Types(TypeStep::MakeBitVectorType(8, false)),
        Step::Modules(ModuleStep::AddInput(0, String::from_str(alloc, "input_data")?, 1)),
        Step::Modules(ModuleStep::AddOutput(0, String::from_str(alloc, "output_data")?, 1)),
        Step::Artifacts(ArtifactStep::MakeContinuousAssignment(3, 2)),
        Step::Artifacts(ArtifactStep::AddMemberContinuousAssignment(0, 4)),
    ]?;
    Ok(steps)
}

/// The text of a module whose output is its input.
pub fn passthrough(alloc: Global) -> Result<String, DesignFault>
    ensures { IfOk result (λ text. string_bytes text ≡ passthrough_text) }
{
    let steps = passthrough_steps(alloc)?;
    design_text(alloc, &steps)
}
