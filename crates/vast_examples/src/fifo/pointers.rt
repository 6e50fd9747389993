//! The pointers of the queue: registers that are 0 at a reset, and one more where a word is written or read.

ghost use Rattle.std.specs.Prelude.{◌≤ℤ◌, pos, IfOk};
ghost use Rattle.vast_core.specs.Bench.{OwnsExpr, OwnsModule};
ghost use Rattle.xlsynth_vast.specs.Keeps.{Keeps};
ghost use Rattle.xlsynth_vast.specs.Registers.{OwnsRegister};

use crate::fault::ExampleFault;
use crate::fifo::signals::{Ports, State};
use crate::parts::make_number;
use xlsynth_vast::helpers::{RegisterDefinition, RegisterScope, Reset, add_registers};
use xlsynth_vast::{Expr, VastFile, VastModule};

pub(crate) fn add_pointers(
    owner: VastModule,
    ports: &Ports,
    state: &State,
    address: i64,
    file: &mut VastFile,
) -> Result<(), ExampleFault>
    requires owner { OwnsModule file.old owner }
    requires fits { address ≤ℤ pos 62 }
    requires clk { OwnsExpr file.old ports.now.clk }
    requires rst { OwnsExpr file.old ports.now.rst }
    requires head { OwnsExpr file.old state.now.head }
    requires tail { OwnsExpr file.old state.now.tail }
    requires writes { OwnsExpr file.old state.now.writes }
    requires reads { OwnsExpr file.old state.now.reads }
    ensures kept { Keeps file.old file.new }
{
    let head = make_register(state.head, state.writes, address + 1, file)?;
    let tail = make_register(state.tail, state.reads, address + 1, file)?;
    add_both(owner, ports, head, tail, file)
}

/// The pointer of so many bits as a register: one more where it is enabled.
fn make_register(
    pointer: Expr,
    enable: Expr,
    width: i64,
    file: &mut VastFile,
) -> Result<RegisterDefinition, ExampleFault>
    requires pointer { OwnsExpr file.old pointer }
    requires enable { OwnsExpr file.old enable }
    ensures answer { IfOk result (λ r. OwnsRegister file.new r) }
    ensures kept { Keeps file.old file.new }
{
    let zero = make_number(width, 0, file)?;
    let next = make_next(pointer, width, file)?;
    Ok(RegisterDefinition {
        reg: pointer,
        next,
        reset_value: Some(zero),
        enable: Some(enable),
    })
}

fn make_next(pointer: Expr, width: i64, file: &mut VastFile) -> Result<Expr, ExampleFault>
    requires pointer { OwnsExpr file.old pointer }
    ensures answer { IfOk result (λ e. OwnsExpr file.new e) }
    ensures kept { Keeps file.old file.new }
{
    let one = make_number(width, 1, file)?;
    Ok(file.make_add(&pointer, &one)?)
}

fn add_both(
    owner: VastModule,
    ports: &Ports,
    head: RegisterDefinition,
    tail: RegisterDefinition,
    file: &mut VastFile,
) -> Result<(), ExampleFault>
    requires owner { OwnsModule file.old owner }
    requires clk { OwnsExpr file.old ports.now.clk }
    requires rst { OwnsExpr file.old ports.now.rst }
    requires head { OwnsRegister file.old head }
    requires tail { OwnsRegister file.old tail }
    ensures kept { Keeps file.old file.new }
{
    let reset = Reset {
        signal: ports.rst,
        active_low: false,
    };
    let scope = RegisterScope::Module(owner);
    add_registers(&ports.clk, Some(reset), &[head, tail], scope, file)?;
    Ok(())
}
