//! What the lint notes of each answer for the end of the list, which tells what no later step has
//! mended.

ghost use Rattle.std.specs.Prelude.{◌≡◌};
ghost use Rattle.vast_core.specs.Records.{changed_at};
ghost use Rattle.vast_lint.specs.Notes.{
  all_mended,
  end_rule,
  mended,
  mends,
  note_at,
  notes,
  opened,
  shown_at,
};

use crate::facts::Kept;
use crate::rule::Rule;
use vast_script::{ExpressionStep, StatementStep, Step};
use xlsynth_vast::VastFileType;

/// What the end of the list may tell of an answer.
#[derive(Clone, Copy)]
pub(crate) enum Note {
    /// A case without arms.
    NoArms,
    /// A function without inputs.
    NoInputs,
    /// A replication of no times that stands in no concatenation.
    NoTimes,
    /// The number 0, by which a replication is one of no times.
    Zero,
    /// Anything else.
    Nothing,
}

impl Note {
    /// The note of an answer of this note that is mended.
    fn mended(self) -> Note
        ensures { result ≡ mended self }
    {
        match self {
            Note::Zero => Note::Zero,
            _ => Note::Nothing,
        }
    }

    /// The rule that the end tells of such an answer.
    pub(crate) fn rule(self, dialect: VastFileType) -> Option<Rule>
        ensures { result ≡ end_rule dialect self }
    {
        match self {
            Note::NoArms => Some(Rule::CaseWithoutArms),
            Note::NoTimes => Some(Rule::ZeroReplication),
            Note::NoInputs if dialect == VastFileType::Verilog => Some(Rule::VerilogNoInputs),
            _ => None,
        }
    }

    /// The number of the expression that shows the answer of this number, if such an answer is one.
    pub(crate) fn shown_at(self, number: usize) -> Option<usize>
        ensures { result ≡ shown_at self number }
    {
        match self {
            Note::NoTimes => Some(number),
            _ => None,
        }
    }
}

/// The note of the step's answer, which is made of these.
pub(crate) fn opened(answers: &[Kept], step: &Step) -> Note
    ensures { result ≡ opened (notes answers.now) step.now }
{
    match step {
        Step::Expressions(ExpressionStep::MakeUnsizedDecimalLiteral(0)) => Note::Zero,
        Step::Expressions(ExpressionStep::MakeIndexableExpression(subject)) => {
            note_at(answers, *subject)
        }
        Step::Expressions(ExpressionStep::MakeReplicatedConcat(times, _)) => {
            match note_at(answers, *times) {
                Note::Zero => Note::NoTimes,
                _ => Note::Nothing,
            }
        }
        Step::Expressions(ExpressionStep::MakeReplicatedConcatI64(0, _)) => Note::NoTimes,
        Step::Statements(StatementStep::AddFunction(_, _, _)) => Note::NoInputs,
        Step::Statements(
            StatementStep::BlockAddCase(_, _)
            | StatementStep::BlockAddCasez(_, _)
            | StatementStep::BlockAddCasex(_, _),
        ) => Note::NoArms,
        _ => Note::Nothing,
    }
}

/// The note of the answer of this number.
fn note_at(answers: &[Kept], number: usize) -> Note
    ensures { result ≡ note_at (notes answers.now) number }
{
    match answers.get(number) {
        Some(answer) => answer.note,
        None => Note::Nothing,
    }
}

/// The answers that the step mends.
pub(crate) fn mends(step: &Step) -> &[usize]
    ensures { result.now ≡ mends step.now }
{
    match step {
        Step::Expressions(ExpressionStep::MakeConcat(parts)) => parts,
        Step::Statements(
            StatementStep::FunctionAddInput(function, _, _)
            | StatementStep::FunctionAddLogicInput(function, _, _),
        ) => std::slice::from_ref(function),
        Step::Statements(
            StatementStep::CaseAddItem(case, _) | StatementStep::CaseAddDefault(case),
        ) => std::slice::from_ref(case),
        _ => &[],
    }
}

/// Mends the answers of these numbers.
pub(crate) fn mend(answers: &mut [Kept], numbers: &[usize])
    ensures { notes answers.new ≡ all_mended (notes answers.old) numbers.now }
{
    for number in numbers {
        mend_one(answers, *number);
    }
}

/// Mends the answer of this number.
fn mend_one(answers: &mut [Kept], number: usize)
    ensures { notes answers.new ≡ changed_at number mended (notes answers.old) }
{
    if number < answers.len() {
        answers[number].note = answers[number].note.mended();
    }
}
