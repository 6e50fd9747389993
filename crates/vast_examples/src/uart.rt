//! A transmitter of bytes, 8 data bits and 1 stop bit.
//!
//! Where it is not busy, `start` takes the byte. The line is low for one bit, holds the byte from its lowest bit on, and
//! is high for one bit at least.

ghost use Rattle.std.specs.Prelude.{◌≤ℤ◌, pos, IfOk};
ghost use Rattle.vast_core.specs.Bench.{OwnsModule};
ghost use Rattle.xlsynth_vast.specs.Keeps.{Keeps};

mod branches;
mod sender;
mod signals;

use crate::fault::ExampleFault;
use crate::parts::add_owner;
use sender::add_sender;
use signals::{add_outputs, add_ports, add_state};
use xlsynth_vast::{VastFile, VastModule};

/// Adds the module `uart_tx`, which sends a bit in so many clocks, and returns it.
///
/// # Errors
/// `Clocks` where a bit has no clock; out of memory.
pub fn add_uart(file: &mut VastFile, clocks: i64) -> Result<VastModule, ExampleFault>
    ensures answer { IfOk result (λ m. OwnsModule file.new m) }
    ensures kept { Keeps file.old file.new }
{
    if clocks < 1 {
        return Err(ExampleFault::Clocks);
    }
    let owner = add_owner("uart_tx", file)?;
    add_parts(owner, clocks, file)?;
    Ok(owner)
}

/// The module's ports and variables, and what it does.
fn add_parts(owner: VastModule, clocks: i64, file: &mut VastFile) -> Result<(), ExampleFault>
    requires owner { OwnsModule file.old owner }
    requires clocks { pos 1 ≤ℤ clocks }
    ensures kept { Keeps file.old file.new }
{
    let ports = add_ports(owner, file)?;
    let state = add_state(owner, timer_bits(clocks), file)?;
    add_outputs(owner, &ports, &state, file)?;
    add_sender(owner, &ports, &state, clocks, file)
}

/// How many bits count the clocks of a bit, from 0.
fn timer_bits(clocks: i64) -> i64
    requires { pos 1 ≤ℤ clocks }
    ensures { pos 1 ≤ℤ result }
{
    let bits = 64 - i64::from((clocks - 1).leading_zeros());
    bits.max(1)
}
