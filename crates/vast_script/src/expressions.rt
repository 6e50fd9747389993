//! Calls that make any other expression.

ghost use Rattle.vast_script.specs.Outcome.{Replays};
ghost use Rattle.vast_steps.specs.declared.step.ExpressionStep.TheVariants.{MakeSlice, MakeIndex, MakeIndexedPartSelect, MakeTypeCast};
ghost use Rattle.vast_script.specs.Expressions.{expression_call};

use crate::answer::Answer;
use crate::answers::{expression, index, macro_ref, refusable_expression, slice};
use crate::arguments::{one, three, two};
use crate::expression_lists::{
    array_assignment_pattern, concat, function_call, macro_ref_with_args, replicated_concat,
    replicated_concat_i64,
};
use crate::fault::StepFault;
use vast_steps::ExpressionStep;
use xlsynth_vast::{Expr, IndexableExpr, VastDataType, VastFile};

fn slice_of(
    file: &mut VastFile,
    answers: &[Answer],
    subject: usize,
    high: i64,
    low: i64,
) -> Result<Answer, StepFault>
    ensures { Replays file.old file.new answers.now result
        (expression_call (MakeSlice subject high low)) }
{
    let subject: IndexableExpr = one(file, answers, subject)?;
    if !(high >= 0 && low >= 0) {
        return Err(StepFault::Condition);
    }
    slice(file.make_slice(&subject, high, low))
}

fn index_of(
    file: &mut VastFile,
    answers: &[Answer],
    subject: usize,
    place: i64,
) -> Result<Answer, StepFault>
    ensures { Replays file.old file.new answers.now result
        (expression_call (MakeIndex subject place)) }
{
    let subject: IndexableExpr = one(file, answers, subject)?;
    if place < 0 {
        return Err(StepFault::Condition);
    }
    index(file.make_index(&subject, place))
}

fn part_select(
    file: &mut VastFile,
    answers: &[Answer],
    subject: usize,
    start: usize,
    width: i64,
) -> Result<Answer, StepFault>
    ensures { Replays file.old file.new answers.now result
        (expression_call (MakeIndexedPartSelect subject start width)) }
{
    let (subject, start): (IndexableExpr, Expr) = two(file, answers, subject, start)?;
    if width < 1 {
        return Err(StepFault::Condition);
    }
    expression(file.make_indexed_part_select(&subject, &start, width))
}

fn type_cast(
    file: &mut VastFile,
    answers: &[Answer],
    data_type: usize,
    value: usize,
) -> Result<Answer, StepFault>
    ensures { Replays file.old file.new answers.now result
        (expression_call (MakeTypeCast data_type value)) }
{
    let (data_type, value): (VastDataType, Expr) = two(file, answers, data_type, value)?;
    if !file.type_can_be_cast(data_type) {
        return Err(StepFault::Condition);
    }
    expression(file.make_type_cast(&data_type, &value))
}

/// Makes the call, over the answers so far.
pub(crate) fn replay_expression(
    file: &mut VastFile,
    answers: &[Answer],
    step: &ExpressionStep,
) -> Result<Answer, StepFault>
    ensures { Replays file.old file.new answers.now result (expression_call step.now) }
{
    match step {
        ExpressionStep::MakeLiteral(text, format) => {
            refusable_expression(file.make_literal(text, format))
        }
        ExpressionStep::MakeBinaryPattern(bits_msb) => {
            refusable_expression(file.make_binary_pattern(bits_msb))
        }
        ExpressionStep::MakeUnsizedDecimalLiteral(value) => {
            expression(file.make_unsized_decimal_literal(*value))
        }
        ExpressionStep::MakeStringLiteral(value) => { expression(file.make_string_literal(value)) }
        ExpressionStep::MakeUnsizedOneLiteral => expression(file.make_unsized_one_literal()),
        ExpressionStep::MakeUnsizedZeroLiteral => expression(file.make_unsized_zero_literal()),
        ExpressionStep::MakeUnsizedXLiteral => expression(file.make_unsized_x_literal()),
        ExpressionStep::MakeName(name) => expression(file.make_name(name)),
        ExpressionStep::MakeIndexableExpression(operand) => {
            let operand: Expr = one(file, answers, *operand)?;
            Ok(Answer::IndexableExpr(file.make_indexable_expression(&operand)))
        }
        ExpressionStep::MakeSlice(subject, high, low) => {
            slice_of(file, answers, *subject, *high, *low)
        }
        ExpressionStep::MakeIndex(subject, place) => { index_of(file, answers, *subject, *place) }
        ExpressionStep::MakeSliceExpr(subject, high, low) => {
            let (subject, high, low): (IndexableExpr, Expr, Expr) = three(
                file, answers, *subject, *high, *low,
            )?;
            slice(file.make_slice_expr(&subject, &high, &low))
        }
        ExpressionStep::MakeIndexExpr(subject, place) => {
            let (subject, place): (IndexableExpr, Expr) = two(file, answers, *subject, *place)?;
            index(file.make_index_expr(&subject, &place))
        }
        ExpressionStep::MakeIndexedPartSelect(subject, start, width) => {
            part_select(file, answers, *subject, *start, *width)
        }
        ExpressionStep::MakeFunctionCall(name, arguments) => {
            function_call(file, answers, name, arguments)
        }
        ExpressionStep::MakeConcat(parts) => concat(file, answers, parts),
        ExpressionStep::MakeReplicatedConcat(count, parts) => {
            replicated_concat(file, answers, *count, parts)
        }
        ExpressionStep::MakeReplicatedConcatI64(count, parts) => {
            replicated_concat_i64(file, answers, *count, parts)
        }
        ExpressionStep::MakeArrayAssignmentPattern(parts) => {
            array_assignment_pattern(file, answers, parts)
        }
        ExpressionStep::MakeTernary(condition, consequent, alternate) => {
            let (condition, consequent, alternate): (Expr, Expr, Expr) = three(
                file,
                answers,
                *condition,
                *consequent,
                *alternate,
            )?;
            expression(file.make_ternary(&condition, &consequent, &alternate))
        }
        ExpressionStep::MakeWidthCast(width, value) => {
            let (width, value): (Expr, Expr) = two(file, answers, *width, *value)?;
            expression(file.make_width_cast(&width, &value))
        }
        ExpressionStep::MakeTypeCast(data_type, value) => {
            type_cast(file, answers, *data_type, *value)
        }
        ExpressionStep::MakePosEdge(operand) => {
            let operand: Expr = one(file, answers, *operand)?;
            expression(file.make_pos_edge(&operand))
        }
        ExpressionStep::MakeNegEdge(operand) => {
            let operand: Expr = one(file, answers, *operand)?;
            expression(file.make_neg_edge(&operand))
        }
        ExpressionStep::MakeMacroRef(name) => { macro_ref(file.make_macro_ref(name)) }
        ExpressionStep::MakeMacroRefWithArgs(name, arguments) => {
            macro_ref_with_args(file, answers, name, arguments)
        }
        ExpressionStep::MakeMember(value, field) => {
            let value: Expr = one(file, answers, *value)?;
            expression(file.make_member(&value, field))
        }
    }
}
