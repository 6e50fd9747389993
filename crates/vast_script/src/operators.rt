//! Calls that make an expression of one or two operands.

ghost use Rattle.std.specs.Prelude.{◌≡◌};
ghost use Rattle.vast_core.specs.Bench.{OwnsExpr};
ghost use Rattle.vast_script.specs.Outcome.{Replays};
ghost use Rattle.vast_script.specs.Operators.{operation_call};
ghost use Rattle.vast_steps.specs.Operators.{operation};
ghost use Rattle.vast_script.specs.Internal.Operators.{MakesBefore, MakesBetween, TakesOne, TakesTwo, operands_of};

use crate::answer::Answer;
use crate::answers::expression;
use crate::arguments::{one, two};
use crate::fault::StepFault;
use std::alloc::AllocError;
use vast_steps::OperatorStep;
use xlsynth_vast::{Expr, VastFile};

/// The operands of a call, by the numbers of earlier steps.
#[derive(Clone, Copy)]
enum Operands {
    One(usize),
    Two(usize, usize),
}

/// The operands of the call.
fn operands_of(step: &OperatorStep) -> Operands
    ensures { result ≡ operands_of (operation step.now) }
{
    match step {
        OperatorStep::MakeNot(operand)
        | OperatorStep::MakeBitwiseNot(operand)
        | OperatorStep::MakeNegate(operand)
        | OperatorStep::MakeLogicalNot(operand)
        | OperatorStep::MakeAndReduce(operand)
        | OperatorStep::MakeOrReduce(operand)
        | OperatorStep::MakeXorReduce(operand) => Operands::One(*operand),
        OperatorStep::MakeAdd(left, right)
        | OperatorStep::MakeSub(left, right)
        | OperatorStep::MakeMul(left, right)
        | OperatorStep::MakeDiv(left, right)
        | OperatorStep::MakeMod(left, right)
        | OperatorStep::MakePower(left, right)
        | OperatorStep::MakeBitwiseAnd(left, right)
        | OperatorStep::MakeBitwiseOr(left, right)
        | OperatorStep::MakeBitwiseXor(left, right)
        | OperatorStep::MakeShll(left, right)
        | OperatorStep::MakeShra(left, right)
        | OperatorStep::MakeShrl(left, right)
        | OperatorStep::MakeNe(left, right)
        | OperatorStep::MakeCaseNe(left, right)
        | OperatorStep::MakeEq(left, right)
        | OperatorStep::MakeCaseEq(left, right)
        | OperatorStep::MakeGe(left, right)
        | OperatorStep::MakeGt(left, right)
        | OperatorStep::MakeLe(left, right)
        | OperatorStep::MakeLt(left, right)
        | OperatorStep::MakeLogicalAnd(left, right)
        | OperatorStep::MakeLogicalOr(left, right)
        | OperatorStep::MakeNeX(left, right)
        | OperatorStep::MakeEqX(left, right) => Operands::Two(*left, *right),
    }
}

/// Makes a call of one operand.
fn before(file: &mut VastFile, unary: &OperatorStep, operand: &Expr) -> Result<Expr, AllocError>
    requires unary { TakesOne (operation unary.now) }
    requires owned { OwnsExpr file.old operand.now }
    ensures { MakesBefore (operation unary.now) file.old file.new operand.now result }
{
    match unary {
        OperatorStep::MakeNot(_) => file.make_not(operand),
        OperatorStep::MakeBitwiseNot(_) => file.make_bitwise_not(operand),
        OperatorStep::MakeNegate(_) => file.make_negate(operand),
        OperatorStep::MakeLogicalNot(_) => file.make_logical_not(operand),
        OperatorStep::MakeAndReduce(_) => file.make_and_reduce(operand),
        OperatorStep::MakeOrReduce(_) => file.make_or_reduce(operand),
        OperatorStep::MakeXorReduce(_) => file.make_xor_reduce(operand),
        _ => unreachable!(),
    }
}

/// Makes a call of two operands.
fn between(
    file: &mut VastFile,
    binary: &OperatorStep,
    left: &Expr,
    right: &Expr,
) -> Result<Expr, AllocError>
    requires binary { TakesTwo (operation binary.now) }
    requires left { OwnsExpr file.old left.now }
    requires right { OwnsExpr file.old right.now }
    ensures { MakesBetween (operation binary.now) file.old file.new left.now right.now result }
{
    match binary {
        OperatorStep::MakeAdd(_, _) => file.make_add(left, right),
        OperatorStep::MakeSub(_, _) => file.make_sub(left, right),
        OperatorStep::MakeMul(_, _) => file.make_mul(left, right),
        OperatorStep::MakeDiv(_, _) => file.make_div(left, right),
        OperatorStep::MakeMod(_, _) => file.make_mod(left, right),
        OperatorStep::MakePower(_, _) => file.make_power(left, right),
        OperatorStep::MakeBitwiseAnd(_, _) => file.make_bitwise_and(left, right),
        OperatorStep::MakeBitwiseOr(_, _) => file.make_bitwise_or(left, right),
        OperatorStep::MakeBitwiseXor(_, _) => file.make_bitwise_xor(left, right),
        OperatorStep::MakeShll(_, _) => file.make_shll(left, right),
        OperatorStep::MakeShra(_, _) => file.make_shra(left, right),
        OperatorStep::MakeShrl(_, _) => file.make_shrl(left, right),
        OperatorStep::MakeNe(_, _) => file.make_ne(left, right),
        OperatorStep::MakeCaseNe(_, _) => file.make_case_ne(left, right),
        OperatorStep::MakeEq(_, _) => file.make_eq(left, right),
        OperatorStep::MakeCaseEq(_, _) => file.make_case_eq(left, right),
        OperatorStep::MakeGe(_, _) => file.make_ge(left, right),
        OperatorStep::MakeGt(_, _) => file.make_gt(left, right),
        OperatorStep::MakeLe(_, _) => file.make_le(left, right),
        OperatorStep::MakeLt(_, _) => file.make_lt(left, right),
        OperatorStep::MakeLogicalAnd(_, _) => file.make_logical_and(left, right),
        OperatorStep::MakeLogicalOr(_, _) => file.make_logical_or(left, right),
        OperatorStep::MakeNeX(_, _) => file.make_ne_x(left, right),
        OperatorStep::MakeEqX(_, _) => file.make_eq_x(left, right),
        _ => unreachable!(),
    }
}

/// Makes the call, over the answers so far.
#[tactic(auto, using(crate::proofs::Operated::operated))]
pub(crate) fn replay_operator(
    file: &mut VastFile,
    answers: &[Answer],
    step: &OperatorStep,
) -> Result<Answer, StepFault>
    ensures { Replays file.old file.new answers.now result (operation_call (operation step.now)) }
{
    match operands_of(step) {
        Operands::One(operand) => {
            let operand: Expr = one(file, answers, operand)?;
            expression(before(file, step, &operand))
        }
        Operands::Two(left, right) => {
            let (left, right): (Expr, Expr) = two(file, answers, left, right)?;
            expression(between(file, step, &left, &right))
        }
    }
}
