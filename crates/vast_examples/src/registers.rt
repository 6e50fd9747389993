//! A map of two registers that are written by enables, with a reset that is active where its signal is low.

ghost use Rattle.std.specs.Prelude.{IfOk};
ghost use Rattle.vast_core.specs.Bench.{OwnsExpr, OwnsModule, OwnsType};
ghost use Rattle.xlsynth_vast.specs.Keeps.{Keeps};
ghost use Rattle.xlsynth_vast.specs.Registers.{OwnsRegister};

use crate::asked::{Net, declare, declare_logic, make_bit, make_literal};
use crate::fault::ExampleFault;
use xlsynth_vast::helpers::{RegisterDefinition, RegisterScope, Reset, add_registers};
use xlsynth_vast::{Expr, LiteralFormat, VastDataType, VastFile, VastModule};

/// The module, and what all its registers share.
#[derive(Drop)]
struct Map {
    owner: VastModule,
    bit: VastDataType,
    byte: VastDataType,
    clock: Expr,
    reset: Expr,
    input: Expr,
}

/// Adds the register map.
///
/// # Errors
/// `Taken` where a name is taken; out of memory.
pub(crate) fn add_register_map(file: &mut VastFile) -> Result<(), ExampleFault> {
    let map = add_map(file)?;
    let control = add_register(&map, "control", "control_write", "bits[8]:0x1", file)?;
    let mask = add_register(&map, "mask", "mask_write", "bits[8]:0xff", file)?;
    add_both(&map, control, mask, file)
}

fn add_map(file: &mut VastFile) -> Result<Map, ExampleFault>
    ensures owner { IfOk result (λ m. OwnsModule file.new m.owner) }
    ensures bit { IfOk result (λ m. OwnsType file.new m.bit) }
    ensures byte { IfOk result (λ m. OwnsType file.new m.byte) }
    ensures clock { IfOk result (λ m. OwnsExpr file.new m.clock) }
    ensures reset { IfOk result (λ m. OwnsExpr file.new m.reset) }
    ensures input { IfOk result (λ m. OwnsExpr file.new m.input) }
{
    let owner = file.add_module("register_map")?;
    let byte = file.make_bit_vector_type(8, false)?;
    let bit = make_bit(file)?;
    let clock = declare(Net::Input, owner, "clk", &bit, file)?;
    let reset = declare(Net::Input, owner, "rst_n", &bit, file)?;
    let input = declare(Net::Input, owner, "data", &byte, file)?;
    Ok(Map {
        owner,
        bit,
        byte,
        clock,
        reset,
        input,
    })
}

/// A register of this name, with an input that enables its writes and the value that it has at reset.
fn add_register(
    map: &Map,
    name: &str,
    enable: &str,
    value: &str,
    file: &mut VastFile,
) -> Result<RegisterDefinition, ExampleFault>
    requires owner { OwnsModule file.old map.now.owner }
    requires bit { OwnsType file.old map.now.bit }
    requires byte { OwnsType file.old map.now.byte }
    requires input { OwnsExpr file.old map.now.input }
    ensures register { IfOk result (λ r. OwnsRegister file.new r) }
    ensures kept { Keeps file.old file.new }
{
    let enable = declare(Net::Input, map.owner, enable, &map.bit, file)?;
    let reg = declare_logic(map.owner, name, map.byte, file)?;
    let reset_value = make_literal(value, &LiteralFormat::Hex, file)?;
    Ok(RegisterDefinition {
        reg,
        next: map.input,
        reset_value: Some(reset_value),
        enable: Some(enable),
    })
}

fn add_both(
    map: &Map,
    control: RegisterDefinition,
    mask: RegisterDefinition,
    file: &mut VastFile,
) -> Result<(), ExampleFault>
    requires owner { OwnsModule file.old map.now.owner }
    requires clock { OwnsExpr file.old map.now.clock }
    requires reset { OwnsExpr file.old map.now.reset }
    requires control { OwnsRegister file.old control }
    requires mask { OwnsRegister file.old mask }
{
    let reset = Reset {
        signal: map.reset,
        active_low: true,
    };
    let scope = RegisterScope::Module(map.owner);
    add_registers(&map.clock, Some(reset), &[control, mask], scope, file)?;
    Ok(())
}
