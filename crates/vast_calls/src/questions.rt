//! Questions about a file, `?NAME`, as values.

ghost use Rattle.std.specs.Prelude.{IfOk};
ghost use Rattle.vast_calls.specs.CallNumbers.{question_names};
ghost use Rattle.vast_calls.specs.Questions.{module_words, question_words, value_words};
ghost use Rattle.vast_calls.specs.Internal.CallRows.{StandsAt};
ghost use Rattle.vast_calls.specs.Internal.Written.{AreLeft};

use crate::arguments::Arguments;
use crate::problem::{Misfit, Problem};

/// One question, whose handles are places among the answers.
#[derive(Drop)]
pub enum Question {
    /// Of modules, their ports and their names.
    Module(ModuleQuestion),
    /// Of expressions, types and words.
    Value(ValueQuestion),
}

/// A question of a module, or of a name.
#[derive(Drop)]
pub enum ModuleQuestion {
    LogicRefName(usize),
    ModuleInputPorts(usize),
    ModuleMemberCount(usize),
    ModuleName(usize),
    ModuleOutputPorts(usize),
    ModulePorts(usize),
    NameIsFree(usize, String),
}

/// A question of an expression, a type, a conditional or a word.
#[derive(Drop)]
pub enum ValueQuestion {
    ConditionalHasElse(usize),
    Emit,
    EmitExpression(usize),
    FileIsPlain,
    IsSystemVerilogKeyword(String),
    TypeCanBeCast(usize),
    TypeCanBePacked(usize),
    TypeFlatBitCountAsInt64(usize),
    TypeIsSigned(usize),
    TypeWidthAsInt64(usize),
    TypeWidthExpr(usize),
    WidthIsUsable(usize),
}

/// The question of this place in the table, over the arguments.
///
/// # Errors
/// Where no question has the place or the arguments are not those of the question, and out of memory.
pub(crate) fn make_question(place: usize, arguments: &mut Arguments<'_>) -> Result<Question, Misfit>
    ensures named { IfOk result
        (λ question. StandsAt question_names place (question_words question).0) }
    ensures written { IfOk result
        (λ question. AreLeft arguments.old (question_words question).1) }
{
    match place {
        5..=11 => Ok(Question::Module(module_question(place, arguments)?)),
        _ => Ok(Question::Value(value_question(place, arguments)?)),
    }
}

/// The question of this place in the table, over the arguments.
///
/// # Errors
/// Where no such question has the place or the arguments are not those of the question, and out of memory.
fn module_question(place: usize, arguments: &mut Arguments<'_>) -> Result<ModuleQuestion, Misfit>
    ensures named { IfOk result
        (λ question. StandsAt question_names place (module_words question).0) }
    ensures written { IfOk result (λ question. AreLeft arguments.old (module_words question).1) }
{
    match place {
        5 => arguments.one(ModuleQuestion::LogicRefName),
        6 => arguments.one(ModuleQuestion::ModuleInputPorts),
        7 => arguments.one(ModuleQuestion::ModuleMemberCount),
        8 => arguments.one(ModuleQuestion::ModuleName),
        9 => arguments.one(ModuleQuestion::ModuleOutputPorts),
        10 => arguments.one(ModuleQuestion::ModulePorts),
        11 => arguments.two(ModuleQuestion::NameIsFree),
        _ => Err(arguments.misfit(Problem::UnknownCall)),
    }
}

/// The question of this place in the table, over the arguments.
///
/// # Errors
/// Where no such question has the place or the arguments are not those of the question, and out of memory.
fn value_question(place: usize, arguments: &mut Arguments<'_>) -> Result<ValueQuestion, Misfit>
    ensures named { IfOk result
        (λ question. StandsAt question_names place (value_words question).0) }
    ensures written { IfOk result (λ question. AreLeft arguments.old (value_words question).1) }
{
    match place {
        0 => arguments.one(ValueQuestion::ConditionalHasElse),
        1 => arguments.none(ValueQuestion::Emit),
        2 => arguments.one(ValueQuestion::EmitExpression),
        3 => arguments.none(ValueQuestion::FileIsPlain),
        4 => arguments.one(ValueQuestion::IsSystemVerilogKeyword),
        12 => arguments.one(ValueQuestion::TypeCanBeCast),
        13 => arguments.one(ValueQuestion::TypeCanBePacked),
        14 => arguments.one(ValueQuestion::TypeFlatBitCountAsInt64),
        15 => arguments.one(ValueQuestion::TypeIsSigned),
        16 => arguments.one(ValueQuestion::TypeWidthAsInt64),
        17 => arguments.one(ValueQuestion::TypeWidthExpr),
        18 => arguments.one(ValueQuestion::WidthIsUsable),
        _ => Err(arguments.misfit(Problem::UnknownCall)),
    }
}
