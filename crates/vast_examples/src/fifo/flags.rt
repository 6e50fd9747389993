//! Whether the queue is empty or full, and what is read and written now.

ghost use Rattle.std.specs.Prelude.{◌≤ℤ◌, pos, IfOk};
ghost use Rattle.vast_core.specs.Bench.{OwnsExpr, OwnsModule};
ghost use Rattle.xlsynth_vast.specs.Keeps.{Keeps};

use crate::asked::drive;
use crate::fault::ExampleFault;
use crate::fifo::signals::{Ports, State};
use crate::parts::{both, place};
use xlsynth_vast::{Expr, VastFile, VastModule};

/// The queue is empty where the pointers are equal, and full where they differ in the last bit alone.
pub(crate) fn drive_flags(
    owner: VastModule,
    ports: &Ports,
    state: &State,
    address: i64,
    file: &mut VastFile,
) -> Result<(), ExampleFault>
    requires owner { OwnsModule file.old owner }
    requires address { pos 1 ≤ℤ address }
    requires full { OwnsExpr file.old ports.now.full }
    requires empty { OwnsExpr file.old ports.now.empty }
    requires head { OwnsExpr file.old state.now.head }
    requires tail { OwnsExpr file.old state.now.tail }
    ensures kept { Keeps file.old file.new }
{
    let is_empty = is_same(state.head, state.tail, file)?;
    drive(owner, ports.empty, is_empty, file)?;
    let is_full = is_a_round_ahead(state.head, state.tail, address, file)?;
    drive(owner, ports.full, is_full, file)
}

/// A word is written, or read, where that is asked for and not hindered.
pub(crate) fn drive_strobes(
    owner: VastModule,
    ports: &Ports,
    state: &State,
    file: &mut VastFile,
) -> Result<(), ExampleFault>
    requires owner { OwnsModule file.old owner }
    requires write { OwnsExpr file.old ports.now.write }
    requires read { OwnsExpr file.old ports.now.read }
    requires full { OwnsExpr file.old ports.now.full }
    requires empty { OwnsExpr file.old ports.now.empty }
    requires writes { OwnsExpr file.old state.now.writes }
    requires reads { OwnsExpr file.old state.now.reads }
    ensures kept { Keeps file.old file.new }
{
    drive_strobe(owner, state.writes, ports.write, ports.full, file)?;
    drive_strobe(owner, state.reads, ports.read, ports.empty, file)
}

fn is_same(left: Expr, right: Expr, file: &mut VastFile) -> Result<Expr, ExampleFault>
    requires left { OwnsExpr file.old left }
    requires right { OwnsExpr file.old right }
    ensures answer { IfOk result (λ e. OwnsExpr file.new e) }
    ensures kept { Keeps file.old file.new }
{
    Ok(file.make_eq(&left, &right)?)
}

fn is_other(left: Expr, right: Expr, file: &mut VastFile) -> Result<Expr, ExampleFault>
    requires left { OwnsExpr file.old left }
    requires right { OwnsExpr file.old right }
    ensures answer { IfOk result (λ e. OwnsExpr file.new e) }
    ensures kept { Keeps file.old file.new }
{
    Ok(file.make_ne(&left, &right)?)
}

/// The last bit of a pointer.
fn round(pointer: Expr, address: i64, file: &mut VastFile) -> Result<Expr, ExampleFault>
    requires pointer { OwnsExpr file.old pointer }
    requires address { pos 1 ≤ℤ address }
    ensures answer { IfOk result (λ e. OwnsExpr file.new e) }
    ensures kept { Keeps file.old file.new }
{
    let pointer = file.make_indexable_expression(&pointer);
    Ok(file.make_index(&pointer, address)?.to_expr())
}

/// Whether the pointers differ in the last bit alone.
fn is_a_round_ahead(
    head: Expr,
    tail: Expr,
    address: i64,
    file: &mut VastFile,
) -> Result<Expr, ExampleFault>
    requires head { OwnsExpr file.old head }
    requires tail { OwnsExpr file.old tail }
    requires address { pos 1 ≤ℤ address }
    ensures answer { IfOk result (λ e. OwnsExpr file.new e) }
    ensures kept { Keeps file.old file.new }
{
    let head_round = round(head, address, file)?;
    let tail_round = round(tail, address, file)?;
    let is_ahead = is_other(head_round, tail_round, file)?;
    let head_place = place(head, address, file)?;
    let tail_place = place(tail, address, file)?;
    let is_there = is_same(head_place, tail_place, file)?;
    both(is_ahead, is_there, file)
}

/// The strobe holds where it is asked for and not hindered.
fn drive_strobe(
    owner: VastModule,
    strobe: Expr,
    asked: Expr,
    hindered: Expr,
    file: &mut VastFile,
) -> Result<(), ExampleFault>
    requires owner { OwnsModule file.old owner }
    requires strobe { OwnsExpr file.old strobe }
    requires asked { OwnsExpr file.old asked }
    requires hindered { OwnsExpr file.old hindered }
    ensures kept { Keeps file.old file.new }
{
    let free = file.make_logical_not(&hindered)?;
    let value = both(asked, free, file)?;
    drive(owner, strobe, value, file)
}
