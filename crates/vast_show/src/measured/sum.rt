//! One long expression.

use crate::measured::assign::assign;
use crate::measured::fault::MeasureFault;
use xlsynth_vast::VastFile;

/// One assignment of so many sums, the first in the second, and so on.
pub(crate) fn build_sum(size: usize, file: &mut VastFile) -> Result<(), MeasureFault> {
    let module = file.add_module("sum")?;
    let byte = file.make_bit_vector_type(8, false)?;
    let term = file.add_input(module, "term", &byte)?.to_expr();
    let total = file.add_output(module, "total", &byte)?.to_expr();
    let mut sum = term;
    for _ in 0..size {
        sum = file.make_add(&sum, &term)?;
    }
    assign(module, total, sum, file)
}
