//! Calls that make an expression of a list of others.

ghost use Rattle.vast_script.specs.Outcome.{Replays};
ghost use Rattle.vast_script.specs.Expressions.{make_function_call, make_concat, make_replicated_concat, make_replicated_concat_i64, make_array_assignment_pattern, make_macro_ref_with_args};

use crate::answer::Answer;
use crate::answers::{expression, macro_ref};
use crate::conditions::is_named;
use crate::fault::StepFault;
use crate::lists::{many, one_and_many, references};
use xlsynth_vast::{Expr, VastFile};

/// A call with arguments, whose name is not empty.
pub(crate) fn function_call(
    file: &mut VastFile,
    answers: &[Answer],
    name: &str,
    arguments: &[usize],
) -> Result<Answer, StepFault>
    ensures { Replays file.old file.new answers.now result
        (make_function_call name.now arguments.now) }
{
    let arguments: Vec<Expr> = many(file, answers, arguments)?;
    if !is_named(name) {
        return Err(StepFault::Condition);
    }
    let arguments = references(file, &arguments)?;
    expression(file.make_function_call(name, &arguments))
}

/// A concatenation.
pub(crate) fn concat(
    file: &mut VastFile,
    answers: &[Answer],
    parts: &[usize],
) -> Result<Answer, StepFault>
    ensures { Replays file.old file.new answers.now result (make_concat parts.now) }
{
    let parts: Vec<Expr> = many(file, answers, parts)?;
    let parts = references(file, &parts)?;
    expression(file.make_concat(&parts))
}

/// A replication by an expression.
pub(crate) fn replicated_concat(
    file: &mut VastFile,
    answers: &[Answer],
    count: usize,
    parts: &[usize],
) -> Result<Answer, StepFault>
    ensures { Replays file.old file.new answers.now result
        (make_replicated_concat count parts.now) }
{
    let (count, parts): (Expr, Vec<Expr>) = one_and_many(file, answers, count, parts)?;
    let parts = references(file, &parts)?;
    expression(file.make_replicated_concat(&count, &parts))
}

/// A replication by a number.
pub(crate) fn replicated_concat_i64(
    file: &mut VastFile,
    answers: &[Answer],
    count: i64,
    parts: &[usize],
) -> Result<Answer, StepFault>
    ensures { Replays file.old file.new answers.now result
        (make_replicated_concat_i64 count parts.now) }
{
    let parts: Vec<Expr> = many(file, answers, parts)?;
    let parts = references(file, &parts)?;
    expression(file.make_replicated_concat_i64(count, &parts))
}

/// An assignment pattern.
pub(crate) fn array_assignment_pattern(
    file: &mut VastFile,
    answers: &[Answer],
    parts: &[usize],
) -> Result<Answer, StepFault>
    ensures { Replays file.old file.new answers.now result
        (make_array_assignment_pattern parts.now) }
{
    let parts: Vec<Expr> = many(file, answers, parts)?;
    let parts = references(file, &parts)?;
    expression(file.make_array_assignment_pattern(&parts))
}

/// The use of a macro with arguments.
pub(crate) fn macro_ref_with_args(
    file: &mut VastFile,
    answers: &[Answer],
    name: &str,
    arguments: &[usize],
) -> Result<Answer, StepFault>
    ensures { Replays file.old file.new answers.now result
        (make_macro_ref_with_args name.now arguments.now) }
{
    let arguments: Vec<Expr> = many(file, answers, arguments)?;
    let arguments = references(file, &arguments)?;
    macro_ref(file.make_macro_ref_with_args(name, &arguments))
}
