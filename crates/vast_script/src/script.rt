//! The replay of a list of calls.

ghost use Rattle.vast_script.specs.Outcome.{Replays};
ghost use Rattle.vast_script.specs.Script.{call_of, Replayed};

use crate::answer::Answer;
use crate::artifacts::replay_artifact;
use crate::expressions::replay_expression;
use crate::fault::{ScriptFault, StepFault};
use crate::loops::replay_loop;
use crate::modules::replay_module;
use crate::operators::replay_operator;
use crate::statements::replay_statement;
use crate::types::replay_type;
use vast_steps::Step;
use xlsynth_vast::VastFile;

/// Makes the call of one step, whose arguments are among the answers so far.
///
/// # Errors
/// The step's fault; the file is as it was.
pub fn replay_step(
    file: &mut VastFile,
    answers: &[Answer],
    step: &Step,
) -> Result<Answer, StepFault>
    ensures { Replays file.old file.new answers.now result (call_of step.now) }
{
    match step {
        Step::Operators(step) => replay_operator(file, answers, step),
        Step::Expressions(step) => replay_expression(file, answers, step),
        Step::Types(step) => replay_type(file, answers, step),
        Step::Modules(step) => replay_module(file, answers, step),
        Step::Loops(step) => replay_loop(file, answers, step),
        Step::Statements(step) => replay_statement(file, answers, step),
        Step::Artifacts(step) => replay_artifact(file, answers, step),
    }
}

/// Makes the calls in order, and returns what each returns.
///
/// # Errors
/// The first step at fault, with its cause: the file is as the steps before it left it. `Memory` where a growth was
/// refused: the file is as some of the first steps left it.
pub fn replay(file: &mut VastFile, steps: &[Step]) -> Result<Vec<Answer>, ScriptFault>
    ensures { Replayed file.old file.new steps.now result }
{
    let mut answers = Vec::new(file.allocator());
    for step in steps {
        match replay_step(file, &answers, step) {
            Ok(answer) => answers.push(answer)?,
            Err(fault) => return Err(fault.at(answers.len())),
        }
    }
    Ok(answers)
}
