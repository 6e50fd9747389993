//! Statements.
#![tactic(auto, unfolding(vast_rows::specs::Built::make, vast_rows::specs::Built::of_one, vast_rows::specs::Built::of_two, vast_rows::specs::Built::of_three, vast_rows::specs::Built::of_four))]

ghost use Rattle.std.specs.Prelude.{◌≡◌, ◌∷◌, IfOk, option_map, map};
ghost use Rattle.vast_rows.specs.Built.{alternated, assigned, make};
ghost use Rattle.vast_rows.specs.declared.action.Action.TheVariants as action;
ghost use Rattle.vast_read.specs.Internal.Made.{Grown, arms_denoted, denoted, value_view};
ghost use Rattle.vast_read.specs.Internal.StatementView.{arm_view};
ghost use Rattle.vast_read.specs.StatementParts.{arms_of};
ghost use Rattle.vast_read.specs.StatementView.{block_view};
ghost use Rattle.vast_read.specs.View.{view};

use crate::children::Children;
use crate::macros::wanted;
use crate::made::part::first;
use crate::made::value::{Alternatives, Range, Value, Values};
use crate::tree::words::key_word;
use crate::tree::{Arm, CaseArm, NormalExpr, NormalStatement};
use std::alloc::{AllocError, Global};
use vast_literal::Key;
use vast_names::Word;

/// A statement of its left side and what follows that.
#[tactic(auto, unfolding(vast_rows::specs::Built::assigned, vast_rows::specs::Built::make, vast_rows::specs::Built::of_one))]
pub(crate) fn assigns(values: &mut Values<'_>) -> Result<(), AllocError>
    ensures { IfOk result (λ _. Grown (make action.Assigns (denoted values.old)) values.new) }
{
    let left = wanted!(first::<Box<NormalExpr>>(values));
    match values.pop() {
        None => Ok(()),
        Some(value) => assigned(left, value, values),
    }
}

/// The statement of what stands before this value: a call before nothing, or the left side of an assignment before
/// whether that blocks, and its right side.
#[tactic(auto, unfolding(vast_literal::specs::FileGrammar::assignment, vast_rows::specs::Built::assigned, vast_rows::specs::Built::of_one))]
fn assigned<'t>(
    left: Box<NormalExpr>,
    value: Value<'t>,
    values: &mut Values<'t>,
) -> Result<(), AllocError>
    ensures { IfOk result (λ _. Grown (assigned (view left.value)
        (value_view value.entry ∷ denoted values.old)) values.new) }
{
    match value {
        Value::Nothing => values.push(Value::Statement(NormalStatement::Task(left))),
        Value::Answer(blocks) => {
            let right = wanted!(first::<Box<NormalExpr>>(values));
            let made = if blocks {
                NormalStatement::Blocking(left, right)
            } else {
                NormalStatement::Nonblocking(left, right)
            };
            values.push(Value::Statement(made))
        }
        other => {
            drop(other);
            Ok(())
        }
    }
}

/// An assignment by its word, of its sides.
pub(crate) fn assigns_by_word(values: &mut Values<'_>) -> Result<(), AllocError>
    ensures { IfOk result (λ _. Grown (make action.AssignsByWord (denoted values.old)) values.new) }
{
    let left = wanted!(first::<Box<NormalExpr>>(values));
    let right = wanted!(first::<Box<NormalExpr>>(values));
    values.push(Value::Statement(NormalStatement::Assign(left, right)))
}

impl Alternatives {
    /// All arms, the first of them first, and the block of the last `else`.
    #[tactic(auto, using(crate::proofs::Making::arms))]
    pub(crate) fn in_order(
        self,
    ) -> Result<(Children<Arm>, Option<Children<NormalStatement>>), AllocError>
        ensures { IfOk result (λ r. arms_of (map arm_view r.0) (option_map block_view r.1)
            ≡ arms_denoted self) }
    {
        let Alternatives {
            innermost,
            before,
            last,
        } = self;
        let mut arms = before.reversed();
        arms.push(innermost)?;
        Ok((arms, last))
    }
}

/// A statement of the arms of a conditional.
pub(crate) fn chooses(values: &mut Values<'_>) -> Result<(), AllocError>
    ensures { IfOk result (λ _. Grown (make action.Chooses (denoted values.old)) values.new) }
{
    let alternatives = wanted!(first::<Alternatives>(values));
    let (arms, last) = alternatives.in_order()?;
    values.push(Value::Statement(NormalStatement::Choice(arms, last)))
}

/// A loop of its head and its statements.
pub(crate) fn repeats(alloc: Global, values: &mut Values<'_>) -> Result<(), AllocError>
    ensures { IfOk result (λ _. Grown (make action.Repeats (denoted values.old)) values.new) }
{
    let range = wanted!(first::<Range<'_>>(values));
    let block = wanted!(first::<Children<NormalStatement>>(values));
    let index = Word::new(alloc, range.variable)?;
    let made = NormalStatement::For(index, range.start, range.end, block.reversed());
    values.push(Value::Statement(made))
}

/// The case that follows, which is unique.
pub(crate) fn unique_case(values: &mut Values<'_>) -> Result<(), AllocError>
    ensures { IfOk result (λ _. Grown (make action.UniqueCase (denoted values.old)) values.new) }
{
    let statement = wanted!(first::<NormalStatement>(values));
    values.push(Value::Statement(statement.into_unique()))
}

/// A case by that word, of its selector and arms.
pub(crate) fn case_of(alloc: Global, key: Key, values: &mut Values<'_>) -> Result<(), AllocError>
    ensures { IfOk result (λ _. Grown (make (action.CaseOf key) (denoted values.old)) values.new) }
{
    let selector = wanted!(first::<Box<NormalExpr>>(values));
    let arms = wanted!(first::<Children<CaseArm>>(values));
    let made = NormalStatement::Case(false, key_word(alloc, key)?, selector, arms.reversed());
    values.push(Value::Statement(made))
}

/// The arms of a conditional, of its condition, its block and what follows that.
#[tactic(auto, unfolding(vast_rows::specs::Built::alternated, vast_rows::specs::Built::make, vast_rows::specs::Built::of_one, vast_rows::specs::Built::of_two, vast_rows::specs::Built::of_three, vast_rows::specs::Built::of_four))]
pub(crate) fn conditional(alloc: Global, values: &mut Values<'_>) -> Result<(), AllocError>
    ensures { IfOk result (λ _. Grown (make action.Conditional (denoted values.old)) values.new) }
{
    let condition = wanted!(first::<Box<NormalExpr>>(values));
    let block = wanted!(first::<Children<NormalStatement>>(values));
    let arm = Arm {
        condition,
        block: block.reversed(),
    };
    match values.pop() {
        None => Ok(()),
        Some(value) => alternated(alloc, arm, value, values),
    }
}

/// This arm before what follows it: nothing, the block of an `else`, or other arms.
#[tactic(auto, using(crate::proofs::Making::arms), unfolding(vast_rows::specs::Built::alternated))]
fn alternated<'t>(
    alloc: Global,
    arm: Arm,
    value: Value<'t>,
    values: &mut Values<'t>,
) -> Result<(), AllocError>
    ensures { IfOk result (λ _. Grown (alternated (arm_view arm).0 (arm_view arm).1
        (value_view value.entry ∷ denoted values.old)) values.new) }
{
    match value {
        Value::Nothing => values.push(Value::Arms(Alternatives {
            innermost: arm,
            before: Children::new(alloc),
            last: None,
        })),
        Value::Statements(last) => values.push(Value::Arms(Alternatives {
            innermost: arm,
            before: Children::new(alloc),
            last: Some(last.reversed()),
        })),
        Value::Arms(mut others) => {
            others.before.push(arm)?;
            values.push(Value::Arms(others))
        }
        other => {
            drop(other);
            Ok(())
        }
    }
}

/// An arm of a case of its label and block, before others.
#[tactic(auto, using(crate::proofs::Making::lists), unfolding(vast_rows::specs::Built::make, vast_rows::specs::Built::of_one, vast_rows::specs::Built::of_two, vast_rows::specs::Built::of_three, vast_rows::specs::Built::of_four))]
pub(crate) fn arm(values: &mut Values<'_>) -> Result<(), AllocError>
    ensures { IfOk result (λ _. Grown (make action.Arm (denoted values.old)) values.new) }
{
    let label = wanted!(first::<Box<NormalExpr>>(values));
    let block = wanted!(first::<Children<NormalStatement>>(values));
    let mut arms = wanted!(first::<Children<CaseArm>>(values));
    arms.push(CaseArm {
        label: Some(label),
        block: block.reversed(),
    })?;
    values.push(Value::Labels(arms))
}

/// An arm of a case without a label, before others.
#[tactic(auto, using(crate::proofs::Making::lists), unfolding(vast_rows::specs::Built::make, vast_rows::specs::Built::of_one, vast_rows::specs::Built::of_two, vast_rows::specs::Built::of_three, vast_rows::specs::Built::of_four))]
pub(crate) fn default_arm(values: &mut Values<'_>) -> Result<(), AllocError>
    ensures { IfOk result (λ _. Grown (make action.DefaultArm (denoted values.old)) values.new) }
{
    let block = wanted!(first::<Children<NormalStatement>>(values));
    let mut arms = wanted!(first::<Children<CaseArm>>(values));
    arms.push(CaseArm {
        label: None,
        block: block.reversed(),
    })?;
    values.push(Value::Labels(arms))
}
