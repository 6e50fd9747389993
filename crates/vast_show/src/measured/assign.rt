//! A member that more than one design has.

use crate::measured::fault::MeasureFault;
use xlsynth_vast::{Expr, VastFile, VastModule};

/// The target is assigned the value.
///
/// # Errors
/// `Foreign` where a handle is another file's; out of memory.
pub(crate) fn assign(
    module: VastModule,
    target: Expr,
    value: Expr,
    file: &mut VastFile,
) -> Result<(), MeasureFault> {
    if !file.owns(&module) || !file.owns(&target) || !file.owns(&value) {
        return Err(MeasureFault::Foreign);
    }
    let assignment = file.make_continuous_assignment(&target, &value)?;
    file.add_member_continuous_assignment(module, assignment)?;
    Ok(())
}
