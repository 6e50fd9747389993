//! Conditionals in conditionals.

use crate::measured::fault::MeasureFault;
use xlsynth_vast::{Expr, VastFile, VastStatementBlock};

/// So many nests in one `always_comb`, each of `depth` conditionals, every one in the one before it, and an assignment
/// in the last.
pub(crate) fn build_nests(
    count: usize,
    depth: usize,
    file: &mut VastFile,
) -> Result<(), MeasureFault> {
    let module = file.add_module("nests")?;
    let bit = file.make_scalar_type()?;
    let go = file.add_input(module, "go", &bit)?.to_expr();
    let value = file.add_logic(module, "value", &bit)?.to_expr();
    let always = file.add_always_comb(module)?;
    let body = file.statement_block(always);
    for _ in 0..count {
        add_nest(body, go, value, depth, file)?;
    }
    Ok(())
}

fn add_nest(
    body: VastStatementBlock,
    go: Expr,
    value: Expr,
    depth: usize,
    file: &mut VastFile,
) -> Result<(), MeasureFault> {
    let mut block = body;
    for _ in 0..depth {
        block = add_level(block, go, file)?;
    }
    if !file.owns(&block) || !file.owns(&value) || !file.owns(&go) {
        return Err(MeasureFault::Foreign);
    }
    file.block_add_blocking_assignment(block, &value, &go)?;
    Ok(())
}

/// A conditional in the block; returns its own block.
fn add_level(
    block: VastStatementBlock,
    go: Expr,
    file: &mut VastFile,
) -> Result<VastStatementBlock, MeasureFault> {
    if !file.owns(&block) || !file.owns(&go) {
        return Err(MeasureFault::Foreign);
    }
    let conditional = file.block_add_cond(block, &go)?;
    Ok(file.conditional_then_block(conditional))
}
