//! What several examples are made of: a signal that is declared, and one that is driven, by tests of what was passed in.

use crate::fault::ExampleFault;
use xlsynth_vast::{Expr, VastDataType, VastFile, VastModule};

/// What is declared: a port or a variable.
#[derive(Clone, Copy, Drop)]
pub(crate) enum Signal {
    Input,
    Output,
    Logic,
}

/// Declares a signal of this name.
///
/// # Errors
/// `Foreign` where a handle is another file's, `Taken` where the name is taken; out of memory.
pub(crate) fn declare(
    signal: Signal,
    module: VastModule,
    name: &str,
    data_type: &VastDataType,
    file: &mut VastFile,
) -> Result<Expr, ExampleFault> {
    if !file.owns(&module) || !file.owns(data_type) {
        return Err(ExampleFault::Foreign);
    }
    if !file.name_is_free(module, name) {
        return Err(ExampleFault::Taken);
    }
    let reference = match signal {
        Signal::Input => file.add_input(module, name, data_type)?,
        Signal::Output => file.add_output(module, name, data_type)?,
        Signal::Logic => file.add_logic(module, name, data_type)?,
    };
    Ok(reference.to_expr())
}

/// The signal is assigned the value at all times.
///
/// # Errors
/// `Foreign` where a handle is another file's; out of memory.
pub(crate) fn drive(
    module: VastModule,
    signal: Expr,
    value: Expr,
    file: &mut VastFile,
) -> Result<(), ExampleFault> {
    if !file.owns(&module) || !file.owns(&signal) || !file.owns(&value) {
        return Err(ExampleFault::Foreign);
    }
    let assignment = file.make_continuous_assignment(&signal, &value)?;
    file.add_member_continuous_assignment(module, assignment)?;
    Ok(())
}
