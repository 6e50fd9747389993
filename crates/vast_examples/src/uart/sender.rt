//! What the transmitter does at each edge of the clock.

ghost use Rattle.std.specs.Prelude.{◌≤ℤ◌, pos, IfOk};
ghost use Rattle.vast_core.specs.Bench.{OwnsBlock, OwnsExpr, OwnsModule};
ghost use Rattle.xlsynth_vast.specs.Keeps.{Keeps};

use crate::fault::ExampleFault;
use crate::parts::{make_number, set};
use crate::uart::branches::{Branches, add_branches, add_clocked, add_clocks};
use crate::uart::signals::{COUNT_BITS, FRAME_BITS, Ports, State};
use xlsynth_vast::{Expr, VastFile, VastModule, VastStatementBlock};

pub(crate) fn add_sender(
    owner: VastModule,
    ports: &Ports,
    state: &State,
    clocks: i64,
    file: &mut VastFile,
) -> Result<(), ExampleFault>
    requires owner { OwnsModule file.old owner }
    requires clocks { pos 1 ≤ℤ clocks }
    requires clk { OwnsExpr file.old ports.now.clk }
    requires rst { OwnsExpr file.old ports.now.rst }
    requires start { OwnsExpr file.old ports.now.start }
    requires byte { OwnsExpr file.old ports.now.byte }
    requires busy { OwnsExpr file.old ports.now.busy }
    requires frame { OwnsExpr file.old state.now.frame }
    requires left { OwnsExpr file.old state.now.left }
    requires timer { OwnsExpr file.old state.now.timer }
    ensures kept { Keeps file.old file.new }
{
    let starts = make_starts(ports.start, ports.busy, file)?;
    let body = add_clocked(owner, ports.clk, file)?;
    let branches = add_branches(body, ports.rst, starts, ports.busy, file)?;
    fill(&branches, ports.byte, state, clocks, file)
}

/// A byte is taken where it is given and none is sent.
fn make_starts(start: Expr, busy: Expr, file: &mut VastFile) -> Result<Expr, ExampleFault>
    requires start { OwnsExpr file.old start }
    requires busy { OwnsExpr file.old busy }
    ensures answer { IfOk result (λ e. OwnsExpr file.new e) }
    ensures kept { Keeps file.old file.new }
{
    let idle = file.make_logical_not(&busy)?;
    Ok(file.make_logical_and(&start, &idle)?)
}

fn fill(
    branches: &Branches,
    byte: Expr,
    state: &State,
    clocks: i64,
    file: &mut VastFile,
) -> Result<(), ExampleFault>
    requires at_reset { OwnsBlock file.old branches.now.at_reset }
    requires at_start { OwnsBlock file.old branches.now.at_start }
    requires at_clock { OwnsBlock file.old branches.now.at_clock }
    requires clocks { pos 1 ≤ℤ clocks }
    requires byte { OwnsExpr file.old byte }
    requires frame { OwnsExpr file.old state.now.frame }
    requires left { OwnsExpr file.old state.now.left }
    requires timer { OwnsExpr file.old state.now.timer }
    ensures kept { Keeps file.old file.new }
{
    fill_reset(branches.at_reset, state, file)?;
    fill_start(branches.at_start, byte, state, file)?;
    fill_clock(branches.at_clock, state, clocks, file)
}

/// In the block the bits to send are these, and so many, and the next has had no clock.
fn load(
    block: VastStatementBlock,
    state: &State,
    frame: Expr,
    left: Expr,
    file: &mut VastFile,
) -> Result<(), ExampleFault>
    requires block { OwnsBlock file.old block }
    requires old_frame { OwnsExpr file.old state.now.frame }
    requires old_left { OwnsExpr file.old state.now.left }
    requires timer { OwnsExpr file.old state.now.timer }
    requires frame { OwnsExpr file.old frame }
    requires left { OwnsExpr file.old left }
    ensures kept { Keeps file.old file.new }
{
    set(block, state.frame, frame, file)?;
    set(block, state.left, left, file)?;
    let no_clocks = make_number(state.timer_bits, 0, file)?;
    set(block, state.timer, no_clocks, file)
}

/// The line is high, and nothing is left to send.
fn fill_reset(
    block: VastStatementBlock,
    state: &State,
    file: &mut VastFile,
) -> Result<(), ExampleFault>
    requires block { OwnsBlock file.old block }
    requires frame { OwnsExpr file.old state.now.frame }
    requires left { OwnsExpr file.old state.now.left }
    requires timer { OwnsExpr file.old state.now.timer }
    ensures kept { Keeps file.old file.new }
{
    let high = make_number(FRAME_BITS, 0x3ff, file)?;
    let none = make_number(COUNT_BITS, 0, file)?;
    load(block, state, high, none, file)
}

/// A byte is taken.
fn fill_start(
    block: VastStatementBlock,
    byte: Expr,
    state: &State,
    file: &mut VastFile,
) -> Result<(), ExampleFault>
    requires block { OwnsBlock file.old block }
    requires byte { OwnsExpr file.old byte }
    requires frame { OwnsExpr file.old state.now.frame }
    requires left { OwnsExpr file.old state.now.left }
    requires timer { OwnsExpr file.old state.now.timer }
    ensures kept { Keeps file.old file.new }
{
    let framed = make_framed(byte, file)?;
    let all = make_number(COUNT_BITS, FRAME_BITS, file)?;
    load(block, state, framed, all, file)
}

/// The byte between its stop bit and its start bit, which is sent first.
fn make_framed(byte: Expr, file: &mut VastFile) -> Result<Expr, ExampleFault>
    requires byte { OwnsExpr file.old byte }
    ensures answer { IfOk result (λ e. OwnsExpr file.new e) }
    ensures kept { Keeps file.old file.new }
{
    let high = make_number(1, 1, file)?;
    let low = make_number(1, 0, file)?;
    Ok(file.make_concat(&[&high, &byte, &low])?)
}

/// One clock more, and after the last the next bit.
fn fill_clock(
    block: VastStatementBlock,
    state: &State,
    clocks: i64,
    file: &mut VastFile,
) -> Result<(), ExampleFault>
    requires block { OwnsBlock file.old block }
    requires clocks { pos 1 ≤ℤ clocks }
    requires frame { OwnsExpr file.old state.now.frame }
    requires left { OwnsExpr file.old state.now.left }
    requires timer { OwnsExpr file.old state.now.timer }
    ensures kept { Keeps file.old file.new }
{
    let bit_ends = make_bit_ends(state, clocks, file)?;
    let clocks = add_clocks(block, bit_ends, file)?;
    fill_end(clocks.at_end, state, file)?;
    count_clock(clocks.otherwise, state, file)
}

/// Whether this is the last clock of a bit.
fn make_bit_ends(state: &State, clocks: i64, file: &mut VastFile) -> Result<Expr, ExampleFault>
    requires clocks { pos 1 ≤ℤ clocks }
    requires timer { OwnsExpr file.old state.now.timer }
    ensures answer { IfOk result (λ e. OwnsExpr file.new e) }
    ensures kept { Keeps file.old file.new }
{
    let last = make_number(state.timer_bits, clocks - 1, file)?;
    Ok(file.make_eq(&state.timer, &last)?)
}

/// The next bit, with a high one after the last.
fn fill_end(
    block: VastStatementBlock,
    state: &State,
    file: &mut VastFile,
) -> Result<(), ExampleFault>
    requires block { OwnsBlock file.old block }
    requires frame { OwnsExpr file.old state.now.frame }
    requires left { OwnsExpr file.old state.now.left }
    requires timer { OwnsExpr file.old state.now.timer }
    ensures kept { Keeps file.old file.new }
{
    let shifted = make_shifted(state.frame, file)?;
    let fewer = make_fewer(state.left, file)?;
    load(block, state, shifted, fewer, file)
}

fn make_shifted(frame: Expr, file: &mut VastFile) -> Result<Expr, ExampleFault>
    requires frame { OwnsExpr file.old frame }
    ensures answer { IfOk result (λ e. OwnsExpr file.new e) }
    ensures kept { Keeps file.old file.new }
{
    let high = make_number(1, 1, file)?;
    let rest = make_rest(frame, file)?;
    Ok(file.make_concat(&[&high, &rest])?)
}

/// All bits but the first.
fn make_rest(frame: Expr, file: &mut VastFile) -> Result<Expr, ExampleFault>
    requires frame { OwnsExpr file.old frame }
    ensures answer { IfOk result (λ e. OwnsExpr file.new e) }
    ensures kept { Keeps file.old file.new }
{
    let frame = file.make_indexable_expression(&frame);
    Ok(file.make_slice(&frame, FRAME_BITS - 1, 1)?.to_expr())
}

fn make_fewer(left: Expr, file: &mut VastFile) -> Result<Expr, ExampleFault>
    requires left { OwnsExpr file.old left }
    ensures answer { IfOk result (λ e. OwnsExpr file.new e) }
    ensures kept { Keeps file.old file.new }
{
    let one = make_number(COUNT_BITS, 1, file)?;
    Ok(file.make_sub(&left, &one)?)
}

fn count_clock(
    block: VastStatementBlock,
    state: &State,
    file: &mut VastFile,
) -> Result<(), ExampleFault>
    requires block { OwnsBlock file.old block }
    requires timer { OwnsExpr file.old state.now.timer }
    ensures kept { Keeps file.old file.new }
{
    let one = make_number(state.timer_bits, 1, file)?;
    let more = file.make_add(&state.timer, &one)?;
    set(block, state.timer, more, file)
}
