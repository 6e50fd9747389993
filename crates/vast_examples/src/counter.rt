//! A counter of eight bits with a reset: ports, a register, a conditional in an `always_ff`, an assignment.

ghost use Rattle.std.specs.Prelude.{IfOk};
ghost use Rattle.vast_core.specs.Bench.{OwnsBlock, OwnsExpr, OwnsModule, OwnsType};
ghost use Rattle.xlsynth_vast.specs.Keeps.{Keeps};

use crate::asked::{Net, declare, drive, make_bit, make_literal};
use crate::fault::ExampleFault;
use xlsynth_vast::{Expr, LiteralFormat, VastDataType, VastFile, VastModule, VastStatementBlock};

/// The module and its signals.
#[derive(Drop)]
struct Signals {
    owner: VastModule,
    clock: Expr,
    reset: Expr,
    count: Expr,
    value: Expr,
}

/// The module with what it counts in, and the type of that.
#[derive(Drop)]
struct Counted {
    owner: VastModule,
    byte: VastDataType,
    value: Expr,
}

/// Adds the counter: one more at each edge of the clock, 0 at a reset.
///
/// # Errors
/// `Taken` where a name is taken; out of memory.
pub(crate) fn add_counter(file: &mut VastFile) -> Result<(), ExampleFault> {
    let signals = add_signals(file)?;
    drive(signals.owner, signals.count, signals.value, file)?;
    let body = add_clocked(signals.owner, signals.clock, file)?;
    let format = LiteralFormat::UnsignedDecimal;
    let zero = make_literal("bits[8]:0", &format, file)?;
    let next = make_next(signals.value, file)?;
    add_register(body, signals.reset, signals.value, zero, next, file)
}

fn add_counted(file: &mut VastFile) -> Result<Counted, ExampleFault>
    ensures owner { IfOk result (λ c. OwnsModule file.new c.owner) }
    ensures byte { IfOk result (λ c. OwnsType file.new c.byte) }
    ensures value { IfOk result (λ c. OwnsExpr file.new c.value) }
{
    let owner = file.add_module("counter")?;
    let byte = file.make_bit_vector_type(8, false)?;
    let value = file.add_logic(owner, "value", &byte)?.to_expr();
    Ok(Counted { owner, byte, value })
}

fn add_signals(file: &mut VastFile) -> Result<Signals, ExampleFault>
    ensures owner { IfOk result (λ s. OwnsModule file.new s.owner) }
    ensures clock { IfOk result (λ s. OwnsExpr file.new s.clock) }
    ensures reset { IfOk result (λ s. OwnsExpr file.new s.reset) }
    ensures count { IfOk result (λ s. OwnsExpr file.new s.count) }
    ensures value { IfOk result (λ s. OwnsExpr file.new s.value) }
{
    let Counted { owner, byte, value } = add_counted(file)?;
    let bit = make_bit(file)?;
    let clock = declare(Net::Input, owner, "clk", &bit, file)?;
    let reset = declare(Net::Input, owner, "rst", &bit, file)?;
    let count = declare(Net::Output, owner, "count", &byte, file)?;
    Ok(Signals {
        owner,
        clock,
        reset,
        count,
        value,
    })
}

/// The block of an `always_ff` of the clock's rising edge.
fn add_clocked(
    owner: VastModule,
    clock: Expr,
    file: &mut VastFile,
) -> Result<VastStatementBlock, ExampleFault>
    requires owner { OwnsModule file.old owner }
    requires clock { OwnsExpr file.old clock }
    ensures answer { IfOk result (λ body. OwnsBlock file.new body) }
    ensures kept { Keeps file.old file.new }
{
    let edge = file.make_pos_edge(&clock)?;
    let always = file.add_always_ff(owner, &[&edge])?;
    Ok(file.statement_block(always))
}

/// The register takes one value at a reset, and at each other edge the next one.
fn add_register(
    body: VastStatementBlock,
    reset: Expr,
    register: Expr,
    first: Expr,
    next: Expr,
    file: &mut VastFile,
) -> Result<(), ExampleFault>
    requires body { OwnsBlock file.old body }
    requires reset { OwnsExpr file.old reset }
    requires register { OwnsExpr file.old register }
    requires first { OwnsExpr file.old first }
    requires next { OwnsExpr file.old next }
    ensures kept { Keeps file.old file.new }
{
    let branches = add_branches(body, reset, file)?;
    assign(branches.at_reset, register, first, file)?;
    assign(branches.otherwise, register, next, file)
}

/// The blocks of the conditional by the reset.
#[derive(Drop)]
struct Branches {
    at_reset: VastStatementBlock,
    otherwise: VastStatementBlock,
}

/// A conditional by the reset, with both its blocks.
fn add_branches(
    body: VastStatementBlock,
    reset: Expr,
    file: &mut VastFile,
) -> Result<Branches, ExampleFault>
    requires body { OwnsBlock file.old body }
    requires reset { OwnsExpr file.old reset }
    ensures at_reset { IfOk result (λ b. OwnsBlock file.new b.at_reset) }
    ensures otherwise { IfOk result (λ b. OwnsBlock file.new b.otherwise) }
    ensures kept { Keeps file.old file.new }
{
    let conditional = file.block_add_cond(body, &reset)?;
    let at_reset = file.conditional_then_block(conditional);
    let otherwise = file.conditional_add_else(conditional)?;
    Ok(Branches {
        at_reset,
        otherwise,
    })
}

/// In the block, the register takes the value.
fn assign(
    block: VastStatementBlock,
    register: Expr,
    value: Expr,
    file: &mut VastFile,
) -> Result<(), ExampleFault>
    requires block { OwnsBlock file.old block }
    requires register { OwnsExpr file.old register }
    requires value { OwnsExpr file.old value }
    ensures kept { Keeps file.old file.new }
{
    file.block_add_nonblocking_assignment(block, &register, &value)?;
    Ok(())
}

/// One more than the value.
fn make_next(value: Expr, file: &mut VastFile) -> Result<Expr, ExampleFault>
    requires value { OwnsExpr file.old value }
    ensures answer { IfOk result (λ e. OwnsExpr file.new e) }
    ensures kept { Keeps file.old file.new }
{
    let one = make_literal("bits[8]:1", &LiteralFormat::UnsignedDecimal, file)?;
    Ok(file.make_add(&value, &one)?)
}
