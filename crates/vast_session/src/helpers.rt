//! Helpers, which make expressions or registers on the file.

ghost use Rattle.vast_script.specs.Arguments.{many, one};
ghost use Rattle.vast_script.specs.Kinds.{an_expr, an_indexable};
ghost use Rattle.vast_script.specs.Internal.Outcome.{WrapsRefusable};
ghost use Rattle.vast_session.specs.Helpers.{Helps, Makes, all_hold, any_holds, elements_joined, joined};

mod registers;

use registers::add_registers;
use vast_calls::Helper;
use vast_script::{Answer, StepFault, many, one};
use xlsynth_vast::{Expr, IndexableExpr, VastFault, VastFile, helpers};

/// Calls the helper, whose arguments are among the answers so far.
///
/// # Errors
/// The helper's fault; the file is as it was. Where memory was refused, the file may have expressions and blocks that
/// nothing uses.
pub(crate) fn call_helper(
    file: &mut VastFile,
    answers: &[Answer],
    helper: &Helper,
) -> Result<Answer, StepFault>
    ensures { Helps file.old file.new answers.now result helper.now }
{
    match helper {
        Helper::AddRegisters(clk, reset, registers, scope) => {
            add_registers(file, answers, *clk, reset, registers, *scope)
        }
        Helper::BitwiseOrReduce(values) => bitwise_or(file, answers, values),
        Helper::BitwiseOrReduceArrayElements(value, dimensions) => {
            elements_or(file, answers, *value, dimensions)
        }
        Helper::LogicalAndReduce(values, invert) => logical_and(file, answers, values, *invert),
        Helper::LogicalOrReduce(values, invert) => logical_or(file, answers, values, *invert),
    }
}

#[tactic(auto, using(crate::proofs::Sessions::helping))]
fn bitwise_or(
    file: &mut VastFile,
    answers: &[Answer],
    values: &[usize],
) -> Result<Answer, StepFault>
    ensures { Makes file.old file.new result (many an_expr file.old answers.now values.now)
        (joined file.old) }
{
    let values: Vec<Expr> = many(file, answers, values)?;
    made(helpers::bitwise_or_reduce(&values, file))
}

#[tactic(auto, using(crate::proofs::Sessions::helping))]
fn elements_or(
    file: &mut VastFile,
    answers: &[Answer],
    value: usize,
    dimensions: &[i64],
) -> Result<Answer, StepFault>
    ensures { Makes file.old file.new result (one an_indexable file.old answers.now value)
        (elements_joined dimensions.now file.old) }
{
    let value: IndexableExpr = one(file, answers, value)?;
    made(helpers::bitwise_or_reduce_array_elements(&value, dimensions, file))
}

#[tactic(auto, using(crate::proofs::Sessions::helping))]
fn logical_and(
    file: &mut VastFile,
    answers: &[Answer],
    values: &[usize],
    invert: bool,
) -> Result<Answer, StepFault>
    ensures { Makes file.old file.new result (many an_expr file.old answers.now values.now)
        (all_hold invert file.old) }
{
    let values: Vec<Expr> = many(file, answers, values)?;
    made(helpers::logical_and_reduce(&values, invert, file))
}

#[tactic(auto, using(crate::proofs::Sessions::helping))]
fn logical_or(
    file: &mut VastFile,
    answers: &[Answer],
    values: &[usize],
    invert: bool,
) -> Result<Answer, StepFault>
    ensures { Makes file.old file.new result (many an_expr file.old answers.now values.now)
        (any_holds invert file.old) }
{
    let values: Vec<Expr> = many(file, answers, values)?;
    made(helpers::logical_or_reduce(&values, invert, file))
}

/// An expression that a helper made, as an answer.
fn made(made: Result<Expr, VastFault>) -> Result<Answer, StepFault>
    ensures { WrapsRefusable made result (λ x. Answer.Expr x) }
{
    Ok(Answer::Expr(made?))
}
