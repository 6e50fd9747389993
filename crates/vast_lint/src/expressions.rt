//! Calls that make an expression.

use crate::facts::{Fact, Known};
use crate::forms::{Base, Form, TypeForm};
use crate::rule::Rule;
use crate::warning::StepFindings;
use crate::words::{is_directive, is_keyword};
use std::alloc::AllocError;
use vast_script::{ExpressionStep, OperatorStep};
use xlsynth_vast::LiteralFormat;

/// More bits than each tool must take in a literal (IEEE 1800-2017, 5.7.1).
const MOST_LITERAL_BITS: usize = 65536;
/// More bits than a part select's or a vector's bounds of 32 bits can tell.
pub(crate) const MOST_BITS: i64 = 2147483647;

/// Tells what can't stand as an operand.
pub(crate) fn operand(
    known: Known<'_>,
    number: usize,
    told: &mut StepFindings,
) -> Result<(), AllocError> {
    told.show_other(known.form(number).operand_rule(), number)
}

/// Tells what can't stand among these operands.
pub(crate) fn operands(
    known: Known<'_>,
    numbers: &[usize],
    told: &mut StepFindings,
) -> Result<(), AllocError> {
    for number in numbers {
        operand(known, *number, told)?;
    }
    Ok(())
}

/// What a call of one or two operands makes.
#[rattlefmt::skip]
pub(crate) fn operator(
    known: Known<'_>,
    step: &OperatorStep,
    told: &mut StepFindings,
) -> Result<Fact, AllocError> {
    match step {
        OperatorStep::MakeNot(one)
        | OperatorStep::MakeBitwiseNot(one)
        | OperatorStep::MakeNegate(one)
        | OperatorStep::MakeLogicalNot(one)
        | OperatorStep::MakeAndReduce(one)
        | OperatorStep::MakeOrReduce(one)
        | OperatorStep::MakeXorReduce(one) => operand(known, *one, told)?,
        OperatorStep::MakeAdd(left, right)
        | OperatorStep::MakeSub(left, right)
        | OperatorStep::MakeMul(left, right)
        | OperatorStep::MakeDiv(left, right)
        | OperatorStep::MakeMod(left, right)
        | OperatorStep::MakePower(left, right)
        | OperatorStep::MakeBitwiseAnd(left, right)
        | OperatorStep::MakeBitwiseOr(left, right)
        | OperatorStep::MakeBitwiseXor(left, right)
        | OperatorStep::MakeShll(left, right)
        | OperatorStep::MakeShra(left, right)
        | OperatorStep::MakeShrl(left, right)
        | OperatorStep::MakeNe(left, right)
        | OperatorStep::MakeCaseNe(left, right)
        | OperatorStep::MakeEq(left, right)
        | OperatorStep::MakeCaseEq(left, right)
        | OperatorStep::MakeGe(left, right)
        | OperatorStep::MakeGt(left, right)
        | OperatorStep::MakeLe(left, right)
        | OperatorStep::MakeLt(left, right)
        | OperatorStep::MakeLogicalAnd(left, right)
        | OperatorStep::MakeLogicalOr(left, right)
        | OperatorStep::MakeNeX(left, right)
        | OperatorStep::MakeEqX(left, right) => {
            operand(known, *left, told)?;
            operand(known, *right, told)?;
        }
    }
    Ok(Fact::Expression(Form::Computed))
}

/// What a call makes any other expression of.
pub(crate) fn expression(
    known: Known<'_>,
    step: &ExpressionStep,
    told: &mut StepFindings,
) -> Result<Fact, AllocError> {
    let form = match step {
        ExpressionStep::MakeLiteral(text, format) => literal(text, *format, told)?,
        ExpressionStep::MakeBinaryPattern(bits_msb) => {
            told.tell_if(bits_msb.len() > MOST_LITERAL_BITS, Rule::WideLiteral)?;
            Form::Literal
        }
        ExpressionStep::MakeUnsizedDecimalLiteral(value) => Form::Number(*value),
        ExpressionStep::MakeStringLiteral(value) => {
            told.show_if(!value.is_ascii(), Rule::NotAscii)?;
            Form::Text(value.contains('"'))
        }
        ExpressionStep::MakeUnsizedOneLiteral
        | ExpressionStep::MakeUnsizedZeroLiteral
        | ExpressionStep::MakeUnsizedXLiteral => {
            told.show_if(known.is_verilog(), Rule::VerilogFill)?;
            Form::Literal
        }
        ExpressionStep::MakeIndexableExpression(_)
        | ExpressionStep::MakeSlice(_, _, _)
        | ExpressionStep::MakeIndex(_, _)
        | ExpressionStep::MakeSliceExpr(_, _, _)
        | ExpressionStep::MakeIndexExpr(_, _)
        | ExpressionStep::MakeIndexedPartSelect(_, _, _) => select(known, step, told)?,
        ExpressionStep::MakeConcat(_)
        | ExpressionStep::MakeReplicatedConcat(_, _)
        | ExpressionStep::MakeReplicatedConcatI64(_, _)
        | ExpressionStep::MakeArrayAssignmentPattern(_) => list(known, step, told)?,
        _ => other(known, step, told)?,
    };
    Ok(Fact::Expression(form))
}

/// What the literal of this text is.
fn literal(text: &str, format: LiteralFormat, told: &mut StepFindings) -> Result<Form, AllocError> {
    told.tell_if(is_wide(text), Rule::WideLiteral)?;
    match format {
        LiteralFormat::UnsizedBinary | LiteralFormat::UnsizedDecimal | LiteralFormat::UnsizedHex =>
            Ok(Form::Unsized),
        _ => Ok(Form::Literal),
    }
}

/// Whether a literal's text, `bits[N]:value`, has more bits than each tool must take.
fn is_wide(text: &str) -> bool {
    let Some(rest) = text.strip_prefix("bits[") else {
        return false;
    };
    match rest.split_once("]:") {
        Some((width, _)) => width
            .parse::<usize>()
            .is_ok_and(|bits| bits > MOST_LITERAL_BITS),
        None => false,
    }
}

/// What a select is.
fn select(
    known: Known<'_>,
    step: &ExpressionStep,
    told: &mut StepFindings,
) -> Result<Form, AllocError> {
    match step {
        ExpressionStep::MakeIndexableExpression(subject) => Ok(known.form(*subject)),
        ExpressionStep::MakeSlice(subject, _, _) => part_of(known.form(*subject), told),
        ExpressionStep::MakeIndex(subject, _) => element_of(known.form(*subject), told),
        ExpressionStep::MakeSliceExpr(subject, high, low) => {
            operand(known, *high, told)?;
            operand(known, *low, told)?;
            part_of(known.form(*subject), told)
        }
        ExpressionStep::MakeIndexExpr(subject, place) => {
            operand(known, *place, told)?;
            element_of(known.form(*subject), told)
        }
        ExpressionStep::MakeIndexedPartSelect(subject, start, width) => {
            operand(known, *start, told)?;
            told.show_if(*width > MOST_BITS, Rule::WidePart)?;
            let form = known.form(*subject);
            told.show_if(form == Form::Signal(Some(0)), Rule::PartOfScalar)?;
            part_of(form, told)
        }
        _ => Ok(Form::Other),
    }
}

fn part_of(subject: Form, told: &mut StepFindings) -> Result<Form, AllocError> {
    told.show_any(subject.select_rule())?;
    Ok(subject.part())
}

fn element_of(subject: Form, told: &mut StepFindings) -> Result<Form, AllocError> {
    told.show_any(subject.select_rule())?;
    Ok(subject.element())
}

/// What a list between braces is.
fn list(
    known: Known<'_>,
    step: &ExpressionStep,
    told: &mut StepFindings,
) -> Result<Form, AllocError> {
    match step {
        ExpressionStep::MakeConcat(parts) => {
            told.show_if(parts.is_empty(), Rule::EmptyConcat)?;
            concat_parts(known, parts, told)?;
            Ok(Form::Concat(!parts.is_empty() && are_left_sides(known, parts)))
        }
        ExpressionStep::MakeReplicatedConcat(times, parts) => {
            told.show_any(known.form(*times).times_rule())?;
            replication(known, parts, told)
        }
        ExpressionStep::MakeReplicatedConcatI64(times, parts) => {
            told.show_if(*times < 0, Rule::NegativeReplication)?;
            replication(known, parts, told)
        }
        ExpressionStep::MakeArrayAssignmentPattern(parts) => {
            operands(known, parts, told)?;
            told.show_any(Some(pattern_rule(known, parts)))?;
            Ok(Form::Pattern)
        }
        _ => Ok(Form::Other),
    }
}

fn pattern_rule(known: Known<'_>, parts: &[usize]) -> Rule {
    if known.is_verilog() {
        Rule::VerilogPattern
    } else if parts.is_empty() {
        Rule::EmptyPattern
    } else {
        Rule::Pattern
    }
}

fn replication(
    known: Known<'_>,
    parts: &[usize],
    told: &mut StepFindings,
) -> Result<Form, AllocError> {
    told.show_if(parts.is_empty(), Rule::EmptyReplication)?;
    concat_parts(known, parts, told)?;
    Ok(Form::Computed)
}

/// Tells what can't stand among the parts of a concatenation.
fn concat_parts(
    known: Known<'_>,
    parts: &[usize],
    told: &mut StepFindings,
) -> Result<(), AllocError> {
    for part in parts {
        told.show_any(known.form(*part).part_rule())?;
    }
    Ok(())
}

/// Whether each can stand on the left of an assignment.
fn are_left_sides(known: Known<'_>, parts: &[usize]) -> bool {
    parts
        .iter()
        .all(|part| known.form(*part).left_rule().is_none())
}

/// Whether the call, as a statement, is one that a tool which simulates nothing refuses to run.
fn is_simulated(known: Known<'_>, name: &str, arguments: &[usize]) -> bool {
    match name {
        "$finish" | "$stop" => true,
        "$display" | "$write" => {
            arguments.is_empty()
                || arguments
                    .iter()
                    .any(|part| !known.form(*part).is_constant())
        }
        _ => false,
    }
}

/// What a name, a member, a call, a cast, an edge or a macro is.
fn other(
    known: Known<'_>,
    step: &ExpressionStep,
    told: &mut StepFindings,
) -> Result<Form, AllocError> {
    match step {
        ExpressionStep::MakeName(name) | ExpressionStep::MakeMember(_, name) => {
            told.show_if(is_keyword(known.dialect, name), Rule::Keyword)?;
            Ok(Form::Signal(None))
        }
        ExpressionStep::MakeFunctionCall(name, arguments) => {
            operands(known, arguments, told)?;
            told.show_if(is_keyword(known.dialect, name), Rule::Keyword)?;
            let is_bare = name.starts_with('$') && arguments.is_empty();
            Ok(Form::Call(is_bare, is_simulated(known, name, arguments)))
        }
        ExpressionStep::MakeTernary(condition, consequent, alternate) => {
            operands(known, &[*condition, *consequent, *alternate], told)?;
            Ok(Form::Computed)
        }
        ExpressionStep::MakeWidthCast(width, value) => {
            operands(known, &[*width, *value], told)?;
            told.show_if(known.is_verilog(), Rule::VerilogCast)?;
            Ok(Form::Computed)
        }
        ExpressionStep::MakeTypeCast(data_type, value) => {
            operand(known, *value, told)?;
            told.show_any(cast_rule(known, *data_type))?;
            Ok(Form::Computed)
        }
        ExpressionStep::MakePosEdge(value) | ExpressionStep::MakeNegEdge(value) => {
            told.show_any(known.form(*value).edge_rule())?;
            Ok(Form::Edge)
        }
        _ => macro_use(known, step, told),
    }
}

/// What the use of a macro is; no rule asks for the form of what is none of these.
fn macro_use(
    known: Known<'_>,
    step: &ExpressionStep,
    told: &mut StepFindings,
) -> Result<Form, AllocError> {
    match step {
        ExpressionStep::MakeMacroRef(name) => {
            told.show_if(is_directive(name), Rule::Directive)?;
            Ok(Form::Other)
        }
        ExpressionStep::MakeMacroRefWithArgs(name, arguments) => {
            operands(known, arguments, told)?;
            told.show_if(is_directive(name), Rule::Directive)?;
            let has_quote = arguments
                .iter()
                .any(|argument| known.form(*argument) == Form::Text(true));
            told.show_if(has_quote, Rule::QuoteInMacro)?;
            Ok(Form::Other)
        }
        _ => Ok(Form::Other),
    }
}

/// The rule that tells a cast to the type of this number.
fn cast_rule(known: Known<'_>, data_type: usize) -> Option<Rule> {
    if known.is_verilog() {
        return Some(Rule::VerilogCast);
    }
    match known.type_form(data_type) {
        Some(form) => Some(type_cast_rule(form)),
        None => None,
    }
}

fn type_cast_rule(form: TypeForm) -> Rule {
    match form.base {
        Base::Scalar => Rule::ScalarCast,
        Base::Vector => Rule::SignCast,
        Base::Integer | Base::Int if form.is_unsigned => Rule::UnsignedIntegerCast,
        Base::Integer | Base::Int => Rule::IntegerCast,
        Base::External => Rule::ExternalCast,
        Base::Package => Rule::PackageCast,
    }
}
