//! Many arms of one `case`, with a literal in each.

use crate::measured::fault::MeasureFault;
use xlsynth_vast::{CaseStatement, Expr, LiteralFormat, VastFile};

/// A `case` of so many arms in an `always_comb`.
///
/// # Errors
/// Out of memory, and a literal of more than 32 bits is refused.
pub(crate) fn build_cases(size: usize, file: &mut VastFile) -> Result<(), MeasureFault> {
    let module = file.add_module("cases")?;
    let word = file.make_bit_vector_type(32, false)?;
    let place = file.add_input(module, "place", &word)?.to_expr();
    let value = file.add_logic(module, "value", &word)?.to_expr();
    let always = file.add_always_comb(module)?;
    let body = file.statement_block(always);
    let case = file.block_add_case(body, &place)?;
    for i in 0..size {
        add_arm(case, value, place, i, file)?;
    }
    Ok(())
}

/// Adds the arm of this number: the value is the place.
fn add_arm(
    case: CaseStatement,
    value: Expr,
    place: Expr,
    i: usize,
    file: &mut VastFile,
) -> Result<(), MeasureFault> {
    let text = format!(in file.allocator(); "bits[32]:{i}")?;
    let label = file.make_literal(&text, &LiteralFormat::Hex)?;
    if !file.owns(&case) || !file.owns(&value) || !file.owns(&place) {
        return Err(MeasureFault::Foreign);
    }
    let arm = file.case_add_item(case, &label)?;
    file.block_add_blocking_assignment(arm, &value, &place)?;
    Ok(())
}
