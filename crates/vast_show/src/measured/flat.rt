//! Many members in one module: a wire and its assignment, again and again.

use crate::measured::assign::assign;
use crate::measured::fault::MeasureFault;
use xlsynth_vast::{Expr, VastDataType, VastFile, VastModule};

/// So many wires in one module, each assigned the one before it, and the first one the input.
pub(crate) fn build_flat(size: usize, file: &mut VastFile) -> Result<(), MeasureFault> {
    let module = file.add_module("flat")?;
    let byte = file.make_bit_vector_type(8, false)?;
    let mut before = file.add_input(module, "data", &byte)?.to_expr();
    for i in 0..size {
        let wire = add_wire(module, byte, i, file)?;
        assign(module, wire, before, file)?;
        before = wire;
    }
    Ok(())
}

/// Adds the wire of this number.
fn add_wire(
    module: VastModule,
    byte: VastDataType,
    i: usize,
    file: &mut VastFile,
) -> Result<Expr, MeasureFault> {
    let name = format!(in file.allocator(); "wire_{i}")?;
    if !file.owns(&module) || !file.owns(&byte) {
        return Err(MeasureFault::Foreign);
    }
    if !file.name_is_free(module, &name) {
        return Err(MeasureFault::Taken);
    }
    Ok(file.add_wire(module, &name, &byte)?.to_expr())
}
