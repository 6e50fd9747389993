//! What the queue and the transmitter are made of: mostly a call each, which then costs its callers little to be checked.

ghost use Rattle.std.specs.Prelude.{◌≤ℤ◌, pos, IfOk};
ghost use Rattle.vast_core.specs.Bench.{OwnsBlock, OwnsExpr, OwnsModule, OwnsType};
ghost use Rattle.xlsynth_vast.specs.Keeps.{Keeps};

use crate::asked::{Net, declare};
use crate::fault::ExampleFault;
use xlsynth_vast::{Expr, LiteralFormat, VastDataType, VastFile, VastModule, VastStatementBlock};

/// Two signals that stand beside each other.
#[derive(Drop)]
pub(crate) struct Pair {
    pub(crate) first: Expr,
    pub(crate) second: Expr,
}

/// The module of this name.
pub(crate) fn add_owner(name: &str, file: &mut VastFile) -> Result<VastModule, ExampleFault>
    ensures answer { IfOk result (λ m. OwnsModule file.new m) }
    ensures kept { Keeps file.old file.new }
{
    Ok(file.add_module(name)?)
}

/// The type of so many bits.
pub(crate) fn make_bits(width: i64, file: &mut VastFile) -> Result<VastDataType, ExampleFault>
    requires width { pos 1 ≤ℤ width }
    ensures answer { IfOk result (λ t. OwnsType file.new t) }
    ensures kept { Keeps file.old file.new }
{
    Ok(file.make_bit_vector_type(width, false)?)
}

/// The clock and the reset.
pub(crate) fn add_clock(owner: VastModule, file: &mut VastFile) -> Result<Pair, ExampleFault>
    requires owner { OwnsModule file.old owner }
    ensures first { IfOk result (λ p. OwnsExpr file.new p.first) }
    ensures second { IfOk result (λ p. OwnsExpr file.new p.second) }
    ensures kept { Keeps file.old file.new }
{
    let first = add_input(owner, "clk", 1, file)?;
    let second = add_input(owner, "rst", 1, file)?;
    Ok(Pair { first, second })
}

/// An input of this name, of so many bits.
pub(crate) fn add_input(
    owner: VastModule,
    name: &str,
    width: i64,
    file: &mut VastFile,
) -> Result<Expr, ExampleFault>
    requires owner { OwnsModule file.old owner }
    requires width { pos 1 ≤ℤ width }
    ensures answer { IfOk result (λ e. OwnsExpr file.new e) }
    ensures kept { Keeps file.old file.new }
{
    let bits = make_bits(width, file)?;
    declare(Net::Input, owner, name, &bits, file)
}

/// An output of this name, of so many bits.
pub(crate) fn add_output(
    owner: VastModule,
    name: &str,
    width: i64,
    file: &mut VastFile,
) -> Result<Expr, ExampleFault>
    requires owner { OwnsModule file.old owner }
    requires width { pos 1 ≤ℤ width }
    ensures answer { IfOk result (λ e. OwnsExpr file.new e) }
    ensures kept { Keeps file.old file.new }
{
    let bits = make_bits(width, file)?;
    declare(Net::Output, owner, name, &bits, file)
}

/// Whether both hold.
pub(crate) fn both(left: Expr, right: Expr, file: &mut VastFile) -> Result<Expr, ExampleFault>
    requires left { OwnsExpr file.old left }
    requires right { OwnsExpr file.old right }
    ensures answer { IfOk result (λ e. OwnsExpr file.new e) }
    ensures kept { Keeps file.old file.new }
{
    Ok(file.make_logical_and(&left, &right)?)
}

/// The address in a pointer: all its bits but the last.
pub(crate) fn place(pointer: Expr, address: i64, file: &mut VastFile) -> Result<Expr, ExampleFault>
    requires pointer { OwnsExpr file.old pointer }
    requires address { pos 1 ≤ℤ address }
    ensures answer { IfOk result (λ e. OwnsExpr file.new e) }
    ensures kept { Keeps file.old file.new }
{
    let pointer = file.make_indexable_expression(&pointer);
    Ok(file.make_slice(&pointer, address - 1, 0)?.to_expr())
}

/// A number of so many bits, from 10 on in base 16.
pub(crate) fn make_number(width: i64, value: i64, file: &mut VastFile) -> Result<Expr, ExampleFault>
    ensures answer { IfOk result (λ e. OwnsExpr file.new e) }
    ensures kept { Keeps file.old file.new }
{
    let alloc = file.allocator();
    let text = format!(in alloc; "bits[{width}]:{value}")?;
    let format = number_format(value);
    Ok(file.make_literal(&text, &format)?)
}

fn number_format(value: i64) -> LiteralFormat {
    if value < 10 {
        LiteralFormat::UnsignedDecimal
    } else {
        LiteralFormat::Hex
    }
}

/// In the block the register takes the value.
pub(crate) fn set(
    block: VastStatementBlock,
    register: Expr,
    value: Expr,
    file: &mut VastFile,
) -> Result<(), ExampleFault>
    requires block { OwnsBlock file.old block }
    requires register { OwnsExpr file.old register }
    requires value { OwnsExpr file.old value }
    ensures kept { Keeps file.old file.new }
{
    file.block_add_nonblocking_assignment(block, &register, &value)?;
    Ok(())
}
