//! The helper that adds registers.

ghost use Rattle.std.specs.Prelude.{All, IfOk, IfSome};
ghost use Rattle.vast_core.specs.Bench.{OwnsExpr};
ghost use Rattle.xlsynth_vast.specs.Registers.{OwnsRegister, OwnsReset, OwnsScope};
ghost use Rattle.vast_script.specs.declared.answer.Answer.TheVariants.{Nothing};
ghost use Rattle.vast_script.specs.Internal.Outcome.{WrapsRefusable};
ghost use Rattle.vast_session.specs.Helpers.{AddsNamed, NamesIf, NamesRegister, NamesRegisters, NamesReset, NamesScope};

use vast_calls::{RegisterNumbers, ResetNumbers};
use vast_script::{Answer, StepFault, one};
use xlsynth_vast::helpers::{RegisterDefinition, RegisterScope, Reset};
use xlsynth_vast::{Expr, GenerateLoop, VastFault, VastFile, VastModule, helpers};

/// Adds the registers to the scope, a module or a loop.
///
/// # Errors
/// Where a number is no such answer, and where the helper refuses.
#[tactic(auto, using(crate::proofs::Sessions::helping))]
pub(crate) fn add_registers(
    file: &mut VastFile,
    answers: &[Answer],
    clk: usize,
    reset: &Option<ResetNumbers>,
    registers: &[RegisterNumbers],
    scope: usize,
) -> Result<Answer, StepFault>
    ensures { AddsNamed file.old file.new answers.now result clk reset.now registers.now scope }
{
    let clk: Expr = one(file, answers, clk)?;
    let reset = reset_of(file, answers, *reset)?;
    let registers = definitions(file, answers, registers)?;
    let scope = scope_of(file, answers, scope)?;
    added(helpers::add_registers(&clk, reset, &registers, scope, file))
}

/// Registers that a helper added, as an answer.
fn added(made: Result<(), VastFault>) -> Result<Answer, StepFault>
    ensures { WrapsRefusable made result (λ x. Nothing) }
{
    made?;
    Ok(Answer::Nothing)
}

fn reset_of(
    file: &VastFile,
    answers: &[Answer],
    reset: Option<ResetNumbers>,
) -> Result<Option<Reset>, StepFault>
    ensures owned { IfOk result (λ made. IfSome made (OwnsReset file.now)) }
    ensures named { IfOk result (NamesReset file.now answers.now reset) }
{
    match reset {
        None => Ok(None),
        Some(reset) => {
            let signal: Expr = one(file, answers, reset.signal)?;
            let active_low = reset.active_low;
            Ok(Some(Reset { signal, active_low }))
        }
    }
}

fn definitions(
    file: &VastFile,
    answers: &[Answer],
    registers: &[RegisterNumbers],
) -> Result<Vec<RegisterDefinition>, StepFault>
    ensures owned { IfOk result (λ made. All (OwnsRegister file.now) made.items) }
    ensures named { IfOk result
        (λ made. NamesRegisters file.now answers.now registers.now made.items) }
{
    let mut made = Vec::new(file.allocator());
    for register in registers {
        let register = definition(file, answers, *register)?;
        made.push(register)?;
    }
    Ok(made)
}

fn definition(
    file: &VastFile,
    answers: &[Answer],
    register: RegisterNumbers,
) -> Result<RegisterDefinition, StepFault>
    ensures owned { IfOk result (λ made. OwnsRegister file.now made) }
    ensures named { IfOk result (NamesRegister file.now answers.now register) }
{
    let reg: Expr = one(file, answers, register.reg)?;
    let next: Expr = one(file, answers, register.next)?;
    let reset_value = handle_if(file, answers, register.reset_value)?;
    let enable = handle_if(file, answers, register.enable)?;
    Ok(RegisterDefinition {
        reg,
        next,
        reset_value,
        enable,
    })
}

fn handle_if(
    file: &VastFile,
    answers: &[Answer],
    number: Option<usize>,
) -> Result<Option<Expr>, StepFault>
    ensures owned { IfOk result (λ made. IfSome made (OwnsExpr file.now)) }
    ensures named { IfOk result (NamesIf file.now answers.now number) }
{
    match number {
        None => Ok(None),
        Some(number) => {
            let expression: Expr = one(file, answers, number)?;
            Ok(Some(expression))
        }
    }
}

fn scope_of(file: &VastFile, answers: &[Answer], number: usize) -> Result<RegisterScope, StepFault>
    ensures owned { IfOk result (OwnsScope file.now) }
    ensures named { IfOk result (NamesScope file.now answers.now number) }
{
    match answers.get(number) {
        Some(Answer::GenerateLoop(_)) => {
            let owner: GenerateLoop = one(file, answers, number)?;
            Ok(RegisterScope::GenerateLoop(owner))
        }
        _ => {
            let owner: VastModule = one(file, answers, number)?;
            Ok(RegisterScope::Module(owner))
        }
    }
}
