//! The table as a text, a line for each call: `AddInput owner: module, name: text, data_type: type -> signal`.

use super::{CallRow, Group, groups};
use std::alloc::{AllocError, Global};
use std::fmt::Write;

/// Each group's name after `# `, and its calls, each with the names and the kinds of its parameters and what it returns.
pub fn calls_text(alloc: Global) -> Result<String, AllocError> {
    let mut text = String::new(alloc);
    for group in groups() {
        push_group(&group, &mut text)?;
    }
    Ok(text)
}

fn push_group(group: &Group, text: &mut String) -> Result<(), AllocError> {
    text.push_str("# ")?;
    text.push_str(group.name)?;
    text.push('\n')?;
    for call in group.calls {
        push_call(call, text)?;
    }
    Ok(())
}

fn push_call(call: &CallRow, text: &mut String) -> Result<(), AllocError> {
    text.push_str(call.name())?;
    let mut separator = " ";
    for parameter in call.parameters() {
        write!(
            text,
            "{separator}{}: {}",
            parameter.name(),
            parameter.kind()
        )?;
        separator = ", ";
    }
    writeln!(text, " -> {}", call.answer())?;
    Ok(())
}
