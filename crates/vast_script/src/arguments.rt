//! Arguments: the answers of earlier steps, as handles of a kind.

ghost use Rattle.std.specs.Prelude.{◌≡◌, IfOk};
ghost use Rattle.vast_script.specs.Arguments.{Finds, found, one, two, three};

use crate::answer::Answer;
use crate::fault::StepFault;
use vast_core::Handle;
use xlsynth_vast::VastFile;

/// A kind of handle that a call takes.
pub trait Argument: Handle + Copy {
    ghost use Rattle.std.specs.Prelude.{◌≡◌, ◌↔◌, IsTrue};
    ghost use Rattle.vast_core.specs.Bench.{Bench};
    ghost use Rattle.vast_script.specs.Kinds.{Kind};

    /// Which answers may stand for one, and which are the file's.
    ghost kind: { Kind Self };

    /// The handle that the answer is, if it is of the kind.
    fn of(answer: Answer) -> Option<Self>
        ensures { result ≡ kind.of_answer answer };

    /// The test says what the file's contracts say.
    ghost is_own: { (b : Bench) (handle : Self) →
        IsTrue (kind.is_own b handle) ↔ Self.owned b handle };
}

/// The answer of this number, as a handle of the kind.
#[tactic(auto, unfolding(crate::specs::Arguments::found))]
pub(crate) fn found<A: Argument>(answers: &[Answer], number: usize) -> Result<A, StepFault>
    ensures { Finds result (found A.kind answers.now number) }
{
    match answers.get(number) {
        None => Err(StepFault::NoAnswer),
        Some(answer) => A::of(*answer).ok_or(StepFault::WrongKind),
    }
}

/// One argument, which is the file's.
#[tactic(auto, unfolding(crate::specs::Arguments::one))]
pub fn one<A: Argument>(file: &VastFile, answers: &[Answer], number: usize) -> Result<A, StepFault>
    ensures finds { Finds result (one A.kind file.now answers.now number) }
    ensures owned { IfOk result (λ x. A.owned file.now x) }
{
    let handle: A = found(answers, number)?;
    if !file.owns(&handle) {
        return Err(StepFault::Condition);
    }
    Ok(handle)
}

/// Two arguments, which are the file's.
#[tactic(auto, unfolding(crate::specs::Arguments::two))]
pub(crate) fn two<A: Argument, B: Argument>(
    file: &VastFile,
    answers: &[Answer],
    first: usize,
    second: usize,
) -> Result<(A, B), StepFault>
    ensures finds { Finds result (two A.kind B.kind file.now answers.now first second) }
    ensures first { IfOk result (λ p. A.owned file.now p.0) }
    ensures second { IfOk result (λ p. B.owned file.now p.1) }
{
    let first: A = found(answers, first)?;
    let second: B = found(answers, second)?;
    if !(file.owns(&first) && file.owns(&second)) {
        return Err(StepFault::Condition);
    }
    Ok((first, second))
}

/// Three arguments, which are the file's.
#[tactic(auto, unfolding(crate::specs::Arguments::three))]
pub(crate) fn three<A: Argument, B: Argument, C: Argument>(
    file: &VastFile,
    answers: &[Answer],
    first: usize,
    second: usize,
    third: usize,
) -> Result<(A, B, C), StepFault>
    ensures finds { Finds result
        (three A.kind B.kind C.kind file.now answers.now first second third) }
    ensures first { IfOk result (λ p. A.owned file.now p.0) }
    ensures second { IfOk result (λ p. B.owned file.now p.1) }
    ensures third { IfOk result (λ p. C.owned file.now p.2) }
{
    let first: A = found(answers, first)?;
    let second: B = found(answers, second)?;
    let third: C = found(answers, third)?;
    if !(file.owns(&first) && (file.owns(&second) && file.owns(&third))) {
        return Err(StepFault::Condition);
    }
    Ok((first, second, third))
}
