//! What lines give, as JSON: each an object without a line break.

ghost use Rattle.std.specs.Prelude.{◌≡◌, ◌++◌, OnOk, codes, string_bytes};
ghost use Rattle.std.specs.List.{join_by};
ghost use Rattle.vast_session.specs.Replies.{AddsGiven, call_members, cause_word, column_member, fault_members, fault_object, port_end, port_front, port_object, port_type, reason_members, text_member, value_json};
ghost use Rattle.vast_session.specs.Internal.Replies.{AddsHelper, more_ports};

use crate::fault::LineFault;
use crate::questions::answered::{PortValue, Value};
use crate::session::{LineResult, Session};
use std::alloc::AllocError;
use std::fmt::Write;
use vast_calls::push_json_text;
use vast_script::StepFault;

/// Appends what the line gave: `{"line":4,"call":"AddInput","step":3}`, and `"answer"` of a helper or a question.
pub fn push_given(
    text: &mut String,
    session: &Session,
    line: usize,
    given: &LineResult<'_>,
) -> Result<(), AllocError>
    ensures { OnOk result
        (AddsGiven session.now (string_bytes text.old) (string_bytes text.new) line given.now) }
{
    write!(text, "{{\"line\":{line}")?;
    match given {
        LineResult::Nothing => {}
        LineResult::Step { number, call } => push_call(text, call, Some(*number))?,
        LineResult::Helper { number, call } => {
            push_call(text, call, Some(*number))?;
            text.push_str(",\"answer\":")?;
            push_helper_text(text, session, *number)?;
        }
        LineResult::Answer { call, value } => {
            push_call(text, call, None)?;
            text.push_str(",\"answer\":")?;
            push_value(text, value)?;
        }
    }
    text.push('}')
}

/// Appends the fault: `{"line":12,"call":"AddInput","step":9,"cause":"condition","words":"the name \"clk\" is taken"}`,
/// `"column"` of a line that is not in the form. A fault of the file's text has no call.
pub fn push_fault(text: &mut String, fault: &LineFault) -> Result<(), AllocError>
    ensures { OnOk result
        (string_bytes text.new ≡ string_bytes text.old ++ fault_object fault.now) }
{
    write!(text, "{{\"line\":{}", fault.line)?;
    push_column(text, fault.column)?;
    push_fault_call(text, fault)?;
    push_reason(text, fault)
}

fn push_reason(text: &mut String, fault: &LineFault) -> Result<(), AllocError>
    ensures { OnOk result
        (string_bytes text.new ≡ string_bytes text.old ++ reason_members fault.now) }
{
    push_member(text, ",\"cause\":", cause_word(&fault.cause))?;
    push_member(text, ",\"words\":", &fault.words)?;
    text.push('}')
}

/// Appends a member whose value is a text; `name` is its name as it stands in the object.
fn push_member(text: &mut String, name: &str, content: &str) -> Result<(), AllocError>
    ensures { OnOk result
        (string_bytes text.new ≡ string_bytes text.old ++ text_member name.now content.now) }
{
    text.push_str(name)?;
    push_json_text(text, content)?;
    Ok(())
}

fn push_column(text: &mut String, column: Option<usize>) -> Result<(), AllocError>
    ensures { OnOk result
        (string_bytes text.new ≡ string_bytes text.old ++ column_member column) }
{
    if let Some(column) = column {
        write!(text, ",\"column\":{column}")?;
    }
    Ok(())
}

/// Appends the call's name and the step's number, where the fault has a call.
fn push_fault_call(text: &mut String, fault: &LineFault) -> Result<(), AllocError>
    ensures { OnOk result
        (string_bytes text.new ≡ string_bytes text.old ++ fault_members fault.now) }
{
    if fault.call.is_empty() {
        return Ok(());
    }
    push_call(text, &fault.call, fault.step)
}

fn push_call(text: &mut String, call: &str, step: Option<usize>) -> Result<(), AllocError>
    ensures { OnOk result
        (string_bytes text.new ≡ string_bytes text.old ++ call_members call.now step) }
{
    text.push_str(",\"call\":")?;
    push_json_text(text, call)?;
    if let Some(step) = step {
        write!(text, ",\"step\":{step}")?;
    }
    Ok(())
}

/// The text of the helper's expression; `null` where it is refused or the helper returns nothing.
fn push_helper_text(text: &mut String, session: &Session, number: usize) -> Result<(), AllocError>
    ensures { OnOk result
        (AddsHelper session.now number (string_bytes text.old) (string_bytes text.new)) }
{
    match session.helper_text(number) {
        Ok(answer) => push_json_text(text, &answer),
        Err(StepFault::Memory) => Err(AllocError),
        Err(_) => text.push_str("null"),
    }
}

/// Appends the value: a text, `null`, a truth, a number or a list of ports.
fn push_value(text: &mut String, value: &Value) -> Result<(), AllocError>
    ensures { OnOk result
        (string_bytes text.new ≡ string_bytes text.old ++ value_json value.now) }
{
    match value {
        Value::Text(answer) => push_json_text(text, answer),
        Value::Nothing => text.push_str("null"),
        Value::Truth(true) => text.push_str("true"),
        Value::Truth(false) => text.push_str("false"),
        Value::Number(number) => {
            write!(text, "{number}")?;
            Ok(())
        }
        Value::Count(count) => {
            write!(text, "{count}")?;
            Ok(())
        }
        Value::Ports(ports) => push_ports(text, ports),
    }
}

fn push_ports(text: &mut String, ports: &[PortValue]) -> Result<(), AllocError>
    ensures { OnOk result (string_bytes text.new
        ≡ string_bytes text.old ++ codes "[" ++ join_by port_object (codes ",") ports.now
        ++ codes "]") }
{
    text.push('[')?;
    if let Some((first, more)) = ports.split_first() {
        push_port(text, first)?;
        push_more_ports(text, more)?;
    }
    text.push(']')
}

/// Appends ports after the first.
#[tactic(auto, using(crate::proofs::Replied::ports))]
fn push_more_ports(text: &mut String, ports: &[PortValue]) -> Result<(), AllocError>
    ensures { OnOk result
        (string_bytes text.new ≡ string_bytes text.old ++ more_ports ports.now) }
{
    for port in ports {
        text.push(',')?;
        push_port(text, port)?;
    }
    Ok(())
}

fn push_port(text: &mut String, port: &PortValue) -> Result<(), AllocError>
    ensures { OnOk result
        (string_bytes text.new ≡ string_bytes text.old ++ port_object port.now) }
{
    push_port_front(text, port)?;
    push_port_type(text, port.width, port.signed)?;
    push_port_end(text, port)
}

fn push_port_front(text: &mut String, port: &PortValue) -> Result<(), AllocError>
    ensures { OnOk result
        (string_bytes text.new ≡ string_bytes text.old ++ port_front port.now) }
{
    push_member(text, "{\"name\":", &port.name)?;
    push_member(text, ",\"direction\":", port.direction_word())?;
    Ok(())
}

fn push_port_end(text: &mut String, port: &PortValue) -> Result<(), AllocError>
    ensures { OnOk result
        (string_bytes text.new ≡ string_bytes text.old ++ port_end port.now) }
{
    push_member(text, ",\"reference\":", &port.reference)?;
    text.push('}')
}

fn push_port_type(text: &mut String, width: i64, signed: bool) -> Result<(), AllocError>
    ensures { OnOk result
        (string_bytes text.new ≡ string_bytes text.old ++ port_type width signed) }
{
    write!(text, ",\"width\":{width},\"signed\":{signed}")?;
    Ok(())
}

fn cause_word(cause: &Option<StepFault>) -> &'static str
    ensures { result.now ≡ cause_word cause.now }
{
    match cause {
        None => "form",
        Some(StepFault::NoAnswer) => "no answer",
        Some(StepFault::WrongKind) => "kind",
        Some(StepFault::Condition) => "condition",
        Some(StepFault::Refused(_)) => "refused",
        Some(StepFault::Memory) => "memory",
    }
}
