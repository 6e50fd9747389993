//! How calls are written.

use crate::table::Parameter;
use crate::table::numbered::row_of;
use std::alloc::{AllocError, Global};

/// How the call is written: its name and its parameters.
///
/// # Errors
/// Out of memory.
pub fn usage(alloc: Global, call: &str) -> Result<String, AllocError> {
    let mut usage = String::from_str(alloc, call)?;
    if let Some(row) = row_of(call) {
        push_names(&mut usage, row.parameters())?;
    }
    Ok(usage)
}

/// Each parameter's name, after a space.
fn push_names(usage: &mut String, parameters: &[Parameter]) -> Result<(), AllocError> {
    for parameter in parameters {
        usage.push(' ')?;
        usage.push_str(parameter.name())?;
    }
    Ok(())
}
