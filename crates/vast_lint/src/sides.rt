//! Assignments.

use crate::expressions::operand;
use crate::facts::Known;
use crate::warning::StepFindings;
use std::alloc::AllocError;

/// The expression of the one number is assigned to that of the other.
pub(crate) fn assignment(
    known: Known<'_>,
    left: usize,
    right: usize,
    told: &mut StepFindings,
) -> Result<(), AllocError> {
    told.show_other(known.form(left).left_rule(), left)?;
    operand(known, right, told)
}
