//! The transmitter's ports and variables, and what it puts out.

ghost use Rattle.std.specs.Prelude.{◌≤ℤ◌, pos, IfOk};
ghost use Rattle.vast_core.specs.Bench.{OwnsExpr, OwnsModule};
ghost use Rattle.xlsynth_vast.specs.Keeps.{Keeps};

use crate::asked::{declare_logic, drive};
use crate::fault::ExampleFault;
use crate::parts::{Pair, add_clock, add_input, add_output, make_bits, make_number};
use xlsynth_vast::{Expr, VastFile, VastModule};

/// The bits of a byte with the start bit and the stop bit.
pub(crate) const FRAME_BITS: i64 = 10;

/// The width of the count of bits that are left.
pub(crate) const COUNT_BITS: i64 = 4;

/// The ports.
#[derive(Drop)]
pub(crate) struct Ports {
    pub(crate) clk: Expr,
    pub(crate) rst: Expr,
    pub(crate) start: Expr,
    pub(crate) byte: Expr,
    pub(crate) busy: Expr,
    pub(crate) tx: Expr,
}

/// The bits that are left to send, the next first; how many; the clocks that this one has had, of so many bits.
#[derive(Drop)]
pub(crate) struct State {
    pub(crate) frame: Expr,
    pub(crate) left: Expr,
    pub(crate) timer: Expr,
    pub(crate) timer_bits: i64,
}

pub(crate) fn add_ports(owner: VastModule, file: &mut VastFile) -> Result<Ports, ExampleFault>
    requires owner { OwnsModule file.old owner }
    ensures clk { IfOk result (λ p. OwnsExpr file.new p.clk) }
    ensures rst { IfOk result (λ p. OwnsExpr file.new p.rst) }
    ensures start { IfOk result (λ p. OwnsExpr file.new p.start) }
    ensures byte { IfOk result (λ p. OwnsExpr file.new p.byte) }
    ensures busy { IfOk result (λ p. OwnsExpr file.new p.busy) }
    ensures tx { IfOk result (λ p. OwnsExpr file.new p.tx) }
    ensures kept { Keeps file.old file.new }
{
    let clock = add_clock(owner, file)?;
    let input = add_request(owner, file)?;
    let output = add_line(owner, file)?;
    Ok(Ports {
        clk: clock.first,
        rst: clock.second,
        start: input.first,
        byte: input.second,
        busy: output.first,
        tx: output.second,
    })
}

fn add_request(owner: VastModule, file: &mut VastFile) -> Result<Pair, ExampleFault>
    requires owner { OwnsModule file.old owner }
    ensures first { IfOk result (λ p. OwnsExpr file.new p.first) }
    ensures second { IfOk result (λ p. OwnsExpr file.new p.second) }
    ensures kept { Keeps file.old file.new }
{
    let first = add_input(owner, "start", 1, file)?;
    let second = add_input(owner, "data", 8, file)?;
    Ok(Pair { first, second })
}

fn add_line(owner: VastModule, file: &mut VastFile) -> Result<Pair, ExampleFault>
    requires owner { OwnsModule file.old owner }
    ensures first { IfOk result (λ p. OwnsExpr file.new p.first) }
    ensures second { IfOk result (λ p. OwnsExpr file.new p.second) }
    ensures kept { Keeps file.old file.new }
{
    let first = add_output(owner, "busy", 1, file)?;
    let second = add_output(owner, "tx", 1, file)?;
    Ok(Pair { first, second })
}

pub(crate) fn add_state(
    owner: VastModule,
    timer_bits: i64,
    file: &mut VastFile,
) -> Result<State, ExampleFault>
    requires owner { OwnsModule file.old owner }
    requires timer_bits { pos 1 ≤ℤ timer_bits }
    ensures frame { IfOk result (λ s. OwnsExpr file.new s.frame) }
    ensures left { IfOk result (λ s. OwnsExpr file.new s.left) }
    ensures timer { IfOk result (λ s. OwnsExpr file.new s.timer) }
    ensures kept { Keeps file.old file.new }
{
    let frame = add_bits(owner, "frame", FRAME_BITS, file)?;
    let left = add_bits(owner, "left", COUNT_BITS, file)?;
    let timer = add_bits(owner, "timer", timer_bits, file)?;
    Ok(State {
        frame,
        left,
        timer,
        timer_bits,
    })
}

/// A variable of so many bits.
fn add_bits(
    owner: VastModule,
    name: &str,
    width: i64,
    file: &mut VastFile,
) -> Result<Expr, ExampleFault>
    requires owner { OwnsModule file.old owner }
    requires width { pos 1 ≤ℤ width }
    ensures answer { IfOk result (λ e. OwnsExpr file.new e) }
    ensures kept { Keeps file.old file.new }
{
    let bits = make_bits(width, file)?;
    declare_logic(owner, name, bits, file)
}

/// The transmitter is busy where bits are left, and the line is the next one.
pub(crate) fn add_outputs(
    owner: VastModule,
    ports: &Ports,
    state: &State,
    file: &mut VastFile,
) -> Result<(), ExampleFault>
    requires owner { OwnsModule file.old owner }
    requires busy { OwnsExpr file.old ports.now.busy }
    requires tx { OwnsExpr file.old ports.now.tx }
    requires frame { OwnsExpr file.old state.now.frame }
    requires left { OwnsExpr file.old state.now.left }
    ensures kept { Keeps file.old file.new }
{
    let is_busy = make_is_busy(state.left, file)?;
    drive(owner, ports.busy, is_busy, file)?;
    let next = make_next(state.frame, file)?;
    drive(owner, ports.tx, next, file)
}

fn make_is_busy(left: Expr, file: &mut VastFile) -> Result<Expr, ExampleFault>
    requires left { OwnsExpr file.old left }
    ensures answer { IfOk result (λ e. OwnsExpr file.new e) }
    ensures kept { Keeps file.old file.new }
{
    let none = make_number(COUNT_BITS, 0, file)?;
    Ok(file.make_ne(&left, &none)?)
}

/// The bit of the frame that is sent next.
fn make_next(frame: Expr, file: &mut VastFile) -> Result<Expr, ExampleFault>
    requires frame { OwnsExpr file.old frame }
    ensures answer { IfOk result (λ e. OwnsExpr file.new e) }
    ensures kept { Keeps file.old file.new }
{
    let frame = file.make_indexable_expression(&frame);
    Ok(file.make_index(&frame, 0)?.to_expr())
}
