//! The words of the queue: the front one is read, the next one written; they have no reset.

ghost use Rattle.std.specs.Prelude.{◌≤ℤ◌, pos, IfOk};
ghost use Rattle.vast_core.specs.Bench.{OwnsBlock, OwnsExpr, OwnsModule};
ghost use Rattle.xlsynth_vast.specs.Keeps.{Keeps};

use crate::asked::drive;
use crate::fault::ExampleFault;
use crate::fifo::signals::{Ports, State};
use crate::parts::place;
use xlsynth_vast::{Expr, VastFile, VastModule, VastStatementBlock};

pub(crate) fn add_memory(
    owner: VastModule,
    ports: &Ports,
    state: &State,
    address: i64,
    file: &mut VastFile,
) -> Result<(), ExampleFault>
    requires owner { OwnsModule file.old owner }
    requires address { pos 1 ≤ℤ address }
    requires clk { OwnsExpr file.old ports.now.clk }
    requires write_data { OwnsExpr file.old ports.now.write_data }
    requires read_data { OwnsExpr file.old ports.now.read_data }
    requires words { OwnsExpr file.old state.now.words }
    requires head { OwnsExpr file.old state.now.head }
    requires tail { OwnsExpr file.old state.now.tail }
    requires writes { OwnsExpr file.old state.now.writes }
    ensures kept { Keeps file.old file.new }
{
    let front = word_at(state.words, state.tail, address, file)?;
    drive(owner, ports.read_data, front, file)?;
    let next = word_at(state.words, state.head, address, file)?;
    let body = add_clocked(owner, ports.clk, file)?;
    take(body, state.writes, next, ports.write_data, file)
}

/// The word at the place of a pointer.
fn word_at(
    words: Expr,
    pointer: Expr,
    address: i64,
    file: &mut VastFile,
) -> Result<Expr, ExampleFault>
    requires words { OwnsExpr file.old words }
    requires pointer { OwnsExpr file.old pointer }
    requires address { pos 1 ≤ℤ address }
    ensures answer { IfOk result (λ e. OwnsExpr file.new e) }
    ensures kept { Keeps file.old file.new }
{
    let place = place(pointer, address, file)?;
    let words = file.make_indexable_expression(&words);
    Ok(file.make_index_expr(&words, &place)?.to_expr())
}

/// The block of an `always_ff` of the clock's rising edge.
fn add_clocked(
    owner: VastModule,
    clk: Expr,
    file: &mut VastFile,
) -> Result<VastStatementBlock, ExampleFault>
    requires owner { OwnsModule file.old owner }
    requires clk { OwnsExpr file.old clk }
    ensures answer { IfOk result (λ body. OwnsBlock file.new body) }
    ensures kept { Keeps file.old file.new }
{
    let edge = file.make_pos_edge(&clk)?;
    let always = file.add_always_ff(owner, &[&edge])?;
    Ok(file.statement_block(always))
}

/// The target takes the value where the condition holds.
fn take(
    body: VastStatementBlock,
    condition: Expr,
    target: Expr,
    value: Expr,
    file: &mut VastFile,
) -> Result<(), ExampleFault>
    requires body { OwnsBlock file.old body }
    requires condition { OwnsExpr file.old condition }
    requires target { OwnsExpr file.old target }
    requires value { OwnsExpr file.old value }
    ensures kept { Keeps file.old file.new }
{
    let conditional = file.block_add_cond(body, &condition)?;
    let block = file.conditional_then_block(conditional);
    file.block_add_nonblocking_assignment(block, &target, &value)?;
    Ok(())
}
