//! A pipeline of any number of stages, which are made in a loop.

use crate::clocked::add_clocked;
use crate::fault::ExampleFault;
use crate::signals::{Signal, declare, drive};
use xlsynth_vast::{Expr, VastDataType, VastFile, VastModule, VastStatementBlock};

/// Adds a pipeline of `count` stages.
///
/// # Errors
/// `Taken` where a name is taken; out of memory.
pub(crate) fn add_pipeline(count: usize, file: &mut VastFile) -> Result<(), ExampleFault> {
    let module = file.add_module("pipeline")?;
    let bit = file.make_scalar_type()?;
    let byte = file.make_bit_vector_type(8, false)?;
    let clock = file.add_input(module, "clk", &bit)?.to_expr();
    let first = file.add_input(module, "data_in", &byte)?.to_expr();
    let last = file.add_output(module, "data_out", &byte)?.to_expr();
    let stages = add_stages(module, byte, count, file)?;
    let body = add_clocked(module, clock, file)?;
    let end = connect(body, first, &stages, file)?;
    drive(module, last, end, file)
}

/// A register for each stage, `stage_0` first.
fn add_stages(
    module: VastModule,
    data_type: VastDataType,
    count: usize,
    file: &mut VastFile,
) -> Result<Vec<Expr>, ExampleFault> {
    let alloc = file.allocator();
    let mut stages = Vec::new(alloc);
    for i in 0..count {
        let name = format!(in alloc; "stage_{i}")?;
        stages.push(declare(Signal::Logic, module, &name, &data_type, file)?)?;
    }
    Ok(stages)
}

/// Each stage takes what the one before it holds; returns the last signal.
fn connect(
    body: VastStatementBlock,
    first: Expr,
    stages: &[Expr],
    file: &mut VastFile,
) -> Result<Expr, ExampleFault> {
    let mut before = first;
    for stage in stages {
        if !file.owns(&body) || !file.owns(&before) || !file.owns(stage) {
            return Err(ExampleFault::Foreign);
        }
        file.block_add_nonblocking_assignment(body, stage, &before)?;
        before = *stage;
    }
    Ok(before)
}
