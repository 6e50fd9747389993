//! Questions about a file, `?NAME`.

ghost use Rattle.vast_session.specs.Questions.{Asks};

pub(crate) mod answered;
mod modules;
mod values;

use answered::Value;
use modules::answer_module;
use values::answer_value;
use vast_calls::Question;
use vast_script::{Answer, StepFault};
use xlsynth_vast::VastFile;

/// The answer.
///
/// # Errors
/// Where the question is refused.
pub(crate) fn answer(
    file: &VastFile,
    answers: &[Answer],
    question: &Question,
) -> Result<Value, StepFault>
    ensures { Asks file.now answers.now result question.now }
{
    match question {
        Question::Module(question) => answer_module(file, answers, question),
        Question::Value(question) => answer_value(file, answers, question),
    }
}
