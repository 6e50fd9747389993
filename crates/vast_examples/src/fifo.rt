//! A first-in, first-out queue of words.
//!
//! A write is taken where the queue is not full, a read where it is not empty; the front word stands at `read_data`.
//! Pointers have a bit more than an address: the queue is empty where they are equal, and full where they differ in
//! that bit alone.

ghost use Rattle.std.specs.Prelude.{◌≤ℤ◌, pos, IfOk};
ghost use Rattle.vast_core.specs.Bench.{OwnsExpr, OwnsModule};
ghost use Rattle.xlsynth_vast.specs.Keeps.{Keeps};

mod flags;
mod memory;
mod pointers;
mod signals;

use crate::fault::ExampleFault;
use crate::parts::add_owner;
use flags::{drive_flags, drive_strobes};
use memory::add_memory;
use pointers::add_pointers;
use signals::{Ports, State, add_ports, add_state};
use xlsynth_vast::{VastFile, VastModule};

/// Adds the module `fifo`, a queue of words of `width` bits, and returns it.
///
/// # Errors
/// `Width` where the width is below 1, `Depth` where the depth is no power of two above 1; out of memory.
pub fn add_fifo(file: &mut VastFile, width: i64, depth: i64) -> Result<VastModule, ExampleFault>
    ensures answer { IfOk result (λ m. OwnsModule file.new m) }
    ensures kept { Keeps file.old file.new }
{
    if width < 1 {
        return Err(ExampleFault::Width);
    }
    let address = address_bits(depth)?;
    let owner = add_owner("fifo", file)?;
    add_parts(owner, width, depth, address, file)?;
    Ok(owner)
}

/// How many bits an address of so many words has.
fn address_bits(depth: i64) -> Result<i64, ExampleFault>
    ensures address { IfOk result (λ bits. (pos 1 ≤ℤ bits) × (bits ≤ℤ pos 62)) }
    ensures depth { IfOk result (λ bits. pos 1 ≤ℤ depth) }
{
    let bits = i64::from(depth.trailing_zeros());
    if depth < 1 || bits < 1 || bits > 62 || 1 << bits != depth {
        return Err(ExampleFault::Depth);
    }
    Ok(bits)
}

/// The module's ports and variables, and what it does.
fn add_parts(
    owner: VastModule,
    width: i64,
    depth: i64,
    address: i64,
    file: &mut VastFile,
) -> Result<(), ExampleFault>
    requires owner { OwnsModule file.old owner }
    requires width { pos 1 ≤ℤ width }
    requires depth { pos 1 ≤ℤ depth }
    requires address { pos 1 ≤ℤ address }
    requires fits { address ≤ℤ pos 62 }
    ensures kept { Keeps file.old file.new }
{
    let ports = add_ports(owner, width, file)?;
    let state = add_state(owner, width, depth, address, file)?;
    fill(owner, &ports, &state, address, file)
}

/// What the module does.
fn fill(
    owner: VastModule,
    ports: &Ports,
    state: &State,
    address: i64,
    file: &mut VastFile,
) -> Result<(), ExampleFault>
    requires owner { OwnsModule file.old owner }
    requires address { pos 1 ≤ℤ address }
    requires fits { address ≤ℤ pos 62 }
    requires clk { OwnsExpr file.old ports.now.clk }
    requires rst { OwnsExpr file.old ports.now.rst }
    requires write { OwnsExpr file.old ports.now.write }
    requires write_data { OwnsExpr file.old ports.now.write_data }
    requires read { OwnsExpr file.old ports.now.read }
    requires read_data { OwnsExpr file.old ports.now.read_data }
    requires full { OwnsExpr file.old ports.now.full }
    requires empty { OwnsExpr file.old ports.now.empty }
    requires words { OwnsExpr file.old state.now.words }
    requires head { OwnsExpr file.old state.now.head }
    requires tail { OwnsExpr file.old state.now.tail }
    requires writes { OwnsExpr file.old state.now.writes }
    requires reads { OwnsExpr file.old state.now.reads }
    ensures kept { Keeps file.old file.new }
{
    drive_flags(owner, ports, state, address, file)?;
    drive_strobes(owner, ports, state, file)?;
    add_memory(owner, ports, state, address, file)?;
    add_pointers(owner, ports, state, address, file)
}
