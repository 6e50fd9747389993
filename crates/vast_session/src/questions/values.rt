//! Questions of expressions, types and words.

ghost use Rattle.vast_session.specs.Questions.{Tells, value_fact};

use crate::questions::answered::Value;
use vast_calls::ValueQuestion;
use vast_script::{Answer, StepFault, one};
use xlsynth_vast::{Conditional, Expr, VastDataType, VastFile, is_system_verilog_keyword};

/// The answer to the question.
///
/// # Errors
/// Where the question is refused.
pub(crate) fn answer_value(
    file: &VastFile,
    answers: &[Answer],
    question: &ValueQuestion,
) -> Result<Value, StepFault>
    ensures { Tells result (value_fact file.now answers.now question.now) }
{
    match question {
        ValueQuestion::ConditionalHasElse(conditional) => {
            let conditional: Conditional = one(file, answers, *conditional)?;
            Ok(Value::Truth(file.conditional_has_else(conditional)))
        }
        ValueQuestion::Emit => Ok(Value::Text(file.emit()?)),
        ValueQuestion::EmitExpression(expression) => {
            let expression: Expr = one(file, answers, *expression)?;
            Ok(Value::Text(file.emit_expression(&expression)?))
        }
        ValueQuestion::FileIsPlain => Ok(Value::Truth(file.is_plain()?)),
        ValueQuestion::IsSystemVerilogKeyword(word) => {
            Ok(Value::Truth(is_system_verilog_keyword(word)))
        }
        ValueQuestion::TypeCanBeCast(data_type) => {
            let data_type: VastDataType = one(file, answers, *data_type)?;
            Ok(Value::Truth(file.type_can_be_cast(data_type)))
        }
        ValueQuestion::TypeCanBePacked(data_type) => {
            let data_type: VastDataType = one(file, answers, *data_type)?;
            Ok(Value::Truth(file.type_can_be_packed(data_type)))
        }
        ValueQuestion::TypeFlatBitCountAsInt64(data_type) => {
            let data_type: VastDataType = one(file, answers, *data_type)?;
            Ok(Value::Number(file.type_flat_bit_count_as_int64(data_type)?))
        }
        ValueQuestion::TypeIsSigned(data_type) => {
            let data_type: VastDataType = one(file, answers, *data_type)?;
            Ok(Value::Truth(file.type_is_signed(data_type)))
        }
        ValueQuestion::TypeWidthAsInt64(data_type) => {
            let data_type: VastDataType = one(file, answers, *data_type)?;
            Ok(Value::Number(file.type_width_as_int64(data_type)?))
        }
        ValueQuestion::TypeWidthExpr(data_type) => {
            let data_type: VastDataType = one(file, answers, *data_type)?;
            match file.type_width_expr(data_type) {
                Some(width) => Ok(Value::Text(file.emit_expression(&width)?)),
                None => Ok(Value::Nothing),
            }
        }
        ValueQuestion::WidthIsUsable(width) => {
            let width: Expr = one(file, answers, *width)?;
            Ok(Value::Truth(file.width_is_usable(&width)))
        }
    }
}
