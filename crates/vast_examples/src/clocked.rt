//! What several examples make: a block at each edge of a clock.

use crate::fault::ExampleFault;
use xlsynth_vast::{Expr, VastFile, VastModule, VastStatementBlock};

/// The block of an `always_ff` of the clock's rising edge.
///
/// # Errors
/// `Foreign` where a handle is another file's; out of memory.
pub(crate) fn add_clocked(
    module: VastModule,
    clock: Expr,
    file: &mut VastFile,
) -> Result<VastStatementBlock, ExampleFault> {
    if !file.owns(&clock) {
        return Err(ExampleFault::Foreign);
    }
    let edge = file.make_pos_edge(&clock)?;
    if !file.owns(&module) {
        return Err(ExampleFault::Foreign);
    }
    let always = file.add_always_ff(module, &[&edge])?;
    Ok(file.statement_block(always))
}
