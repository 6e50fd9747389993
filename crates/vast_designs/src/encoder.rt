//! An encoder of four bits: a function whose body is one `casez`, and its call.

ghost use Rattle.std.specs.Prelude.{◌≡◌, IfOk, map, string_bytes};
ghost use Rattle.vast_script.specs.Script.{call_of};
ghost use Rattle.vast_designs.specs.DesignCalls.{cases_calls};
ghost use Rattle.vast_designs.specs.DesignTexts.{cases_text};

use super::{DesignFault, design_text};
use std::alloc::{AllocError, Global};
use vast_script::{ArtifactStep, ExpressionStep, ModuleStep, StatementStep, Step, TypeStep};

/// The module with its ports, the function with its `casez`, and the call of it.
fn cases_steps(alloc: Global) -> Result<Vec<Step>, AllocError>
    ensures { IfOk result (λ steps. map call_of steps.items ≡ cases_calls) }
{
    let arguments = vec![in alloc; 3]?;
    let steps = vec![in alloc;
        Step::Modules(ModuleStep::AddModule(String::from_str(alloc, "encoder")?)),
        Step::Types(TypeStep::MakeBitVectorType(4, false)),
        Step::Types(TypeStep::MakeBitVectorType(2, false)),
        Step::Modules(ModuleStep::AddInput(0, String::from_str(alloc, "s")?, 1)),
        Step::Modules(ModuleStep::AddOutput(0, String::from_str(alloc, "y")?, 2)),
        Step::Statements(StatementStep::AddFunction(0, String::from_str(alloc, "f")?, 2)),
        Step::Statements(StatementStep::FunctionAddInput(5, String::from_str(alloc, "s")?, 1)),
        Step::Statements(StatementStep::FunctionBody(5)),
        Step::Statements(StatementStep::FunctionResult(5)),
        Step::Statements(StatementStep::BlockAddCasez(7, 6)),
        Step::Statements(StatementStep::CaseSetUnique(9, true)),
        Step::Expressions(ExpressionStep::MakeBinaryPattern(String::from_str(alloc, "1???")?)),
        Step::Expressions(ExpressionStep::MakeUnsizedDecimalLiteral(2)),
        Step::Statements(StatementStep::CaseAddItem(9, 11)),
        Step::Statements(StatementStep::BlockAddBlockingAssignment(13, 8, 12)),
        Step::Expressions(ExpressionStep::MakeUnsizedDecimalLiteral(0)),
        Step::Statements(StatementStep::CaseAddDefault(9)),
        Step::Statements(StatementStep::BlockAddCommentText(16, String::from_str(alloc, "none")?)),
        Step::Statements(StatementStep::BlockAddBlockingAssignment(16, 8, 15)),
        Step::Expressions(ExpressionStep::MakeFunctionCall(
            String::from_str(alloc, "f")?,
            arguments
        )),
        Step::Artifacts(ArtifactStep::MakeContinuousAssignment(4, 19)),
        Step::Artifacts(ArtifactStep::AddMemberContinuousAssignment(0, 20)),
    ]?;
    Ok(steps)
}

/// The text of the encoder.
pub fn cases(alloc: Global) -> Result<String, DesignFault>
    ensures { IfOk result (λ text. string_bytes text ≡ cases_text) }
{
    let steps = cases_steps(alloc)?;
    design_text(alloc, &steps)
}
