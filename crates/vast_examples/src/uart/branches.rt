//! Blocks of the transmitter.

ghost use Rattle.std.specs.Prelude.{IfOk};
ghost use Rattle.vast_core.specs.Bench.{OwnsBlock, OwnsExpr, OwnsModule};
ghost use Rattle.xlsynth_vast.specs.Keeps.{Keeps};

use crate::fault::ExampleFault;
use xlsynth_vast::{Expr, VastFile, VastModule, VastStatementBlock};

/// What happens at an edge of the clock.
#[derive(Drop)]
pub(crate) struct Branches {
    pub(crate) at_reset: VastStatementBlock,
    pub(crate) at_start: VastStatementBlock,
    pub(crate) at_clock: VastStatementBlock,
}

/// What happens after the last clock of a bit, and what at each other.
#[derive(Drop)]
pub(crate) struct Clocks {
    pub(crate) at_end: VastStatementBlock,
    pub(crate) otherwise: VastStatementBlock,
}

/// The block of an `always_ff` of the clock's rising edge.
pub(crate) fn add_clocked(
    owner: VastModule,
    clk: Expr,
    file: &mut VastFile,
) -> Result<VastStatementBlock, ExampleFault>
    requires owner { OwnsModule file.old owner }
    requires clk { OwnsExpr file.old clk }
    ensures answer { IfOk result (λ body. OwnsBlock file.new body) }
    ensures kept { Keeps file.old file.new }
{
    let edge = file.make_pos_edge(&clk)?;
    let always = file.add_always_ff(owner, &[&edge])?;
    Ok(file.statement_block(always))
}

pub(crate) fn add_branches(
    body: VastStatementBlock,
    reset: Expr,
    starts: Expr,
    busy: Expr,
    file: &mut VastFile,
) -> Result<Branches, ExampleFault>
    requires body { OwnsBlock file.old body }
    requires reset { OwnsExpr file.old reset }
    requires starts { OwnsExpr file.old starts }
    requires busy { OwnsExpr file.old busy }
    ensures at_reset { IfOk result (λ b. OwnsBlock file.new b.at_reset) }
    ensures at_start { IfOk result (λ b. OwnsBlock file.new b.at_start) }
    ensures at_clock { IfOk result (λ b. OwnsBlock file.new b.at_clock) }
    ensures kept { Keeps file.old file.new }
{
    let conditional = file.block_add_cond(body, &reset)?;
    let at_reset = file.conditional_then_block(conditional);
    let at_start = file.conditional_add_else_if(conditional, &starts)?;
    let at_clock = file.conditional_add_else_if(conditional, &busy)?;
    Ok(Branches {
        at_reset,
        at_start,
        at_clock,
    })
}

pub(crate) fn add_clocks(
    block: VastStatementBlock,
    bit_ends: Expr,
    file: &mut VastFile,
) -> Result<Clocks, ExampleFault>
    requires block { OwnsBlock file.old block }
    requires bit_ends { OwnsExpr file.old bit_ends }
    ensures at_end { IfOk result (λ c. OwnsBlock file.new c.at_end) }
    ensures otherwise { IfOk result (λ c. OwnsBlock file.new c.otherwise) }
    ensures kept { Keeps file.old file.new }
{
    let conditional = file.block_add_cond(block, &bit_ends)?;
    let at_end = file.conditional_then_block(conditional);
    let otherwise = file.conditional_add_else(conditional)?;
    Ok(Clocks { at_end, otherwise })
}
