//! What calls made, as answers of steps.

ghost use Rattle.vast_script.specs.declared.answer.Answer.TheVariants.{Nothing};
ghost use Rattle.vast_script.specs.Internal.Outcome.{Wraps, WrapsRefusable};

use crate::answer::Answer;
use crate::fault::StepFault;
use std::alloc::AllocError;
use vast_literal::VastFault;
use xlsynth_vast::{
    BlankLine, CaseStatement, Comment, Conditional, ContinuousAssignment, Def, Expr, GenerateLoop,
    Index, InlineVerilogStatement, Instantiation, LocalparamRef, LogicRef, MacroRef,
    MacroStatement, ParameterRef, Slice, VastAlwaysBase, VastDataType, VastFunction, VastModule,
    VastStatement, VastStatementBlock,
};

/// An expression that a call made, as an answer.
pub(crate) fn expression(made: Result<Expr, AllocError>) -> Result<Answer, StepFault>
    ensures { Wraps made result (λ x. Answer.Expr x) }
{
    Ok(Answer::Expr(made?))
}

/// A type that a call made, as an answer.
pub(crate) fn data_type(made: Result<VastDataType, AllocError>) -> Result<Answer, StepFault>
    ensures { Wraps made result (λ x. Answer.VastDataType x) }
{
    Ok(Answer::VastDataType(made?))
}

/// A name that a call made, as an answer.
pub(crate) fn logic_ref(made: Result<LogicRef, AllocError>) -> Result<Answer, StepFault>
    ensures { Wraps made result (λ x. Answer.LogicRef x) }
{
    Ok(Answer::LogicRef(made?))
}

/// A part select that a call made, as an answer.
pub(crate) fn slice(made: Result<Slice, AllocError>) -> Result<Answer, StepFault>
    ensures { Wraps made result (λ x. Answer.Slice x) }
{
    Ok(Answer::Slice(made?))
}

/// A bit select that a call made, as an answer.
pub(crate) fn index(made: Result<Index, AllocError>) -> Result<Answer, StepFault>
    ensures { Wraps made result (λ x. Answer.Index x) }
{
    Ok(Answer::Index(made?))
}

/// The use of a macro that a call made, as an answer.
pub(crate) fn macro_ref(made: Result<MacroRef, AllocError>) -> Result<Answer, StepFault>
    ensures { Wraps made result (λ x. Answer.MacroRef x) }
{
    Ok(Answer::MacroRef(made?))
}

/// A module that a call made, as an answer.
pub(crate) fn module(made: Result<VastModule, AllocError>) -> Result<Answer, StepFault>
    ensures { Wraps made result (λ x. Answer.VastModule x) }
{
    Ok(Answer::VastModule(made?))
}

/// A parameter's name that a call made, as an answer.
pub(crate) fn parameter(made: Result<ParameterRef, AllocError>) -> Result<Answer, StepFault>
    ensures { Wraps made result (λ x. Answer.ParameterRef x) }
{
    Ok(Answer::ParameterRef(made?))
}

/// A local parameter's name that a call made, as an answer.
pub(crate) fn localparam(made: Result<LocalparamRef, AllocError>) -> Result<Answer, StepFault>
    ensures { Wraps made result (λ x. Answer.LocalparamRef x) }
{
    Ok(Answer::LocalparamRef(made?))
}

/// An assignment that a call made, as an answer.
pub(crate) fn statement(made: Result<VastStatement, AllocError>) -> Result<Answer, StepFault>
    ensures { Wraps made result (λ x. Answer.VastStatement x) }
{
    Ok(Answer::VastStatement(made?))
}

/// A continuous assignment that a call made, as an answer.
pub(crate) fn continuous(
    made: Result<ContinuousAssignment, AllocError>,
) -> Result<Answer, StepFault>
    ensures { Wraps made result (λ x. Answer.ContinuousAssignment x) }
{
    Ok(Answer::ContinuousAssignment(made?))
}

/// A block that a call made, as an answer.
pub(crate) fn block(made: Result<VastStatementBlock, AllocError>) -> Result<Answer, StepFault>
    ensures { Wraps made result (λ x. Answer.VastStatementBlock x) }
{
    Ok(Answer::VastStatementBlock(made?))
}

/// A conditional that a call made, as an answer.
pub(crate) fn conditional(made: Result<Conditional, AllocError>) -> Result<Answer, StepFault>
    ensures { Wraps made result (λ x. Answer.Conditional x) }
{
    Ok(Answer::Conditional(made?))
}

/// A case statement that a call made, as an answer.
pub(crate) fn case(made: Result<CaseStatement, AllocError>) -> Result<Answer, StepFault>
    ensures { Wraps made result (λ x. Answer.CaseStatement x) }
{
    Ok(Answer::CaseStatement(made?))
}

/// A loop that a call made, as an answer.
pub(crate) fn generate_loop(made: Result<GenerateLoop, AllocError>) -> Result<Answer, StepFault>
    ensures { Wraps made result (λ x. Answer.GenerateLoop x) }
{
    Ok(Answer::GenerateLoop(made?))
}

/// A definition that a call made, as an answer.
pub(crate) fn definition(made: Result<Def, AllocError>) -> Result<Answer, StepFault>
    ensures { Wraps made result (λ x. Answer.Def x) }
{
    Ok(Answer::Def(made?))
}

/// A blank line that a call made, as an answer.
pub(crate) fn blank_line(made: Result<BlankLine, AllocError>) -> Result<Answer, StepFault>
    ensures { Wraps made result (λ x. Answer.BlankLine x) }
{
    Ok(Answer::BlankLine(made?))
}

/// A comment that a call made, as an answer.
pub(crate) fn comment(made: Result<Comment, AllocError>) -> Result<Answer, StepFault>
    ensures { Wraps made result (λ x. Answer.Comment x) }
{
    Ok(Answer::Comment(made?))
}

/// A text that a call made, as an answer.
pub(crate) fn inline(made: Result<InlineVerilogStatement, AllocError>) -> Result<Answer, StepFault>
    ensures { Wraps made result (λ x. Answer.InlineVerilogStatement x) }
{
    Ok(Answer::InlineVerilogStatement(made?))
}

/// The use of a macro as a member that a call made, as an answer.
pub(crate) fn macro_statement(made: Result<MacroStatement, AllocError>) -> Result<Answer, StepFault>
    ensures { Wraps made result (λ x. Answer.MacroStatement x) }
{
    Ok(Answer::MacroStatement(made?))
}

/// An instantiation that a call made, as an answer.
pub(crate) fn instantiation(made: Result<Instantiation, AllocError>) -> Result<Answer, StepFault>
    ensures { Wraps made result (λ x. Answer.Instantiation x) }
{
    Ok(Answer::Instantiation(made?))
}

/// Nothing, of a call that returns nothing.
pub(crate) fn nothing(made: Result<(), AllocError>) -> Result<Answer, StepFault>
    ensures { Wraps made result (λ _. Nothing) }
{
    made?;
    Ok(Answer::Nothing)
}

/// An expression that a call which may be refused made, as an answer.
pub(crate) fn refusable_expression(made: Result<Expr, VastFault>) -> Result<Answer, StepFault>
    ensures { WrapsRefusable made result (λ x. Answer.Expr x) }
{
    Ok(Answer::Expr(made?))
}

/// A name that a call which may be refused made, as an answer.
pub(crate) fn refusable_logic_ref(made: Result<LogicRef, VastFault>) -> Result<Answer, StepFault>
    ensures { WrapsRefusable made result (λ x. Answer.LogicRef x) }
{
    Ok(Answer::LogicRef(made?))
}

/// A function that a call which may be refused made, as an answer.
pub(crate) fn refusable_function(made: Result<VastFunction, VastFault>) -> Result<Answer, StepFault>
    ensures { WrapsRefusable made result (λ x. Answer.VastFunction x) }
{
    Ok(Answer::VastFunction(made?))
}

/// An always block that a call which may be refused made, as an answer.
pub(crate) fn refusable_always(made: Result<VastAlwaysBase, VastFault>) -> Result<Answer, StepFault>
    ensures { WrapsRefusable made result (λ x. Answer.VastAlwaysBase x) }
{
    Ok(Answer::VastAlwaysBase(made?))
}

/// Nothing, of a call which may be refused that returns nothing.
pub(crate) fn refusable_nothing(made: Result<(), VastFault>) -> Result<Answer, StepFault>
    ensures { WrapsRefusable made result (λ _. Nothing) }
{
    made?;
    Ok(Answer::Nothing)
}
