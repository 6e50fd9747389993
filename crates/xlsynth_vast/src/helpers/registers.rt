//! Registers of one clock, with resets and enables.

ghost use Rattle.std.specs.Prelude.{◌≡◌, [], All, OnErr, OnOk, Some, IfSome};
ghost use Rattle.std.specs.List.{list_any};
ghost use Rattle.vast_core.specs.Bench.{OwnsExpr, OwnsBlock};
ghost use Rattle.vast_core.specs.Sound.{EventSound};
ghost use Rattle.vast_core.specs.Growth.{Builds, Leaves};
ghost use Rattle.vast_core.specs.Containers.{next_block, with_detached_block};
ghost use Rattle.vast_core.specs.FileTree.{tree};
ghost use Rattle.xlsynth_vast.specs.Internal.Reductions.{ChecksBy};
ghost use Rattle.xlsynth_vast.specs.Keeps.{Keeps};
ghost use Rattle.xlsynth_vast.specs.Registers.{register_trees, maybe_reset_tree, unless_unresettable, OwnsRegister, OwnsReset, OwnsScope, TakeTheirValues};
ghost use Rattle.xlsynth_vast.specs.AddedRegisters.{is_resettable, running_expr, with_running, value_expr, with_value, with_assigned, with_all_assigned, active_expr, with_active, with_reset, with_clocked, MayAddRegisters};
ghost use Rattle.xlsynth_vast.specs.Internal.RegisterSteps.{MayFill, MayMakeBlock, IsOlderScope};

use crate::file::VastFile;
use crate::helpers::records_are_sound;
use crate::refusals::refusal;
use std::alloc::AllocError;
use vast_core::{Expr, GenerateLoop, Scope, VastModule, VastStatementBlock};
use vast_literal::VastFault;

/// The signal that resets registers.
#[derive(Clone, Copy, Debug)]
pub struct Reset {
    /// Active where it holds, or, for active low, where it does not.
    pub signal: Expr,
    /// Whether the reset is active where the signal does not hold.
    pub active_low: bool,
}

/// A register and its next value, with the value that it takes at reset and the signal that enables it, where it has
/// them.
#[derive(Clone, Copy, Debug)]
pub struct RegisterDefinition {
    /// What is assigned to.
    pub reg: Expr,
    /// The value of the next cycle.
    pub next: Expr,
    /// The value while the reset is active; without one the reset does not concern the register.
    pub reset_value: Option<Expr>,
    /// Where it does not hold, the register keeps its value.
    pub enable: Option<Expr>,
}

/// Where the always block of registers goes.
#[derive(Clone, Copy, Debug)]
pub enum RegisterScope {
    /// To the end of a module's members.
    Module(VastModule),
    /// To the end of a generate loop's members.
    GenerateLoop(GenerateLoop),
}

/// Which registers a list of assignments gives values to: those without a reset value, or the others, at reset or
/// outside of it.
#[derive(Clone, Copy)]
enum Share {
    Unreset,
    AtReset,
    OutsideReset,
}

fn any_resettable(registers: &[RegisterDefinition]) -> bool
    ensures { result ≡ list_any is_resettable registers.now }
{
    registers
        .iter()
        .any(|register| register.reset_value.is_some())
}

#[tactic(auto, using(crate::proofs::RegisterParts::refusing))]
fn check_reset(
    reset: Option<Reset>,
    registers: &[RegisterDefinition],
    file: &VastFile,
) -> Result<(), VastFault>
    ensures { ChecksBy
        (unless_unresettable (maybe_reset_tree file.now reset)
        (register_trees file.now registers.now)) result }
{
    if reset.is_some() {
        return Ok(());
    }
    if any_resettable(registers) {
        let words = "reset signal is required when a register has a reset value";
        return Err(refusal(String::from_str(file.allocator(), words)));
    }
    Ok(())
}

/// The value of a register outside of reset.
fn make_running_value(
    register: &RegisterDefinition,
    file: &mut VastFile,
) -> Result<Expr, AllocError>
    requires { OwnsRegister file.old register.now }
    ensures { Builds file.old file.new result (running_expr register.now)
        (with_running register.now) }
{
    match register.enable {
        Some(enable) => file.make_ternary(&enable, &register.next, &register.reg),
        None => Ok(register.next),
    }
}

fn make_value(
    share: Share,
    register: &RegisterDefinition,
    file: &mut VastFile,
) -> Result<Option<Expr>, AllocError>
    requires { OwnsRegister file.old register.now }
    ensures { Builds file.old file.new result (value_expr share register.now)
        (with_value share register.now) }
{
    let takes_running_value = match share {
        Share::Unreset => register.reset_value.is_none(),
        Share::AtReset => return Ok(register.reset_value),
        Share::OutsideReset => register.reset_value.is_some(),
    };
    if !takes_running_value {
        return Ok(None);
    }
    Ok(Some(make_running_value(register, file)?))
}

/// Assigns the value of this share to the register, if it has one.
fn assign(
    share: Share,
    register: &RegisterDefinition,
    block: VastStatementBlock,
    file: &mut VastFile,
) -> Result<(), AllocError>
    requires register { OwnsRegister file.old register.now }
    requires block { OwnsBlock file.old block }
    ensures { MayFill file.old file.new result block
        (with_assigned share block register.now file.old) }
{
    match make_value(share, register, file)? {
        Some(value) => {
            file.block_add_nonblocking_assignment(block, &register.reg, &value)?;
            Ok(())
        }
        None => Ok(()),
    }
}

fn assign_all(
    share: Share,
    registers: &[RegisterDefinition],
    block: VastStatementBlock,
    file: &mut VastFile,
) -> Result<(), AllocError>
    requires registers { All (OwnsRegister file.old) registers.now }
    requires block { OwnsBlock file.old block }
    ensures { MayFill file.old file.new result block
        (with_all_assigned share block registers.now file.old) }
{
    for register in registers {
        assign(share, register, block, file)?;
    }
    Ok(())
}

/// The expression that holds where the reset is active.
fn make_active(reset: Reset, file: &mut VastFile) -> Result<Expr, AllocError>
    requires { OwnsReset file.old reset }
    ensures { Builds file.old file.new result (active_expr reset) (with_active reset) }
{
    if reset.active_low {
        file.make_logical_not(&reset.signal)
    } else {
        Ok(reset.signal)
    }
}

/// Appends the conditional of the reset to the block.
fn branch(
    reset: Reset,
    registers: &[RegisterDefinition],
    block: VastStatementBlock,
    file: &mut VastFile,
) -> Result<(), AllocError>
    requires reset { OwnsReset file.old reset }
    requires registers { All (OwnsRegister file.old) registers.now }
    requires block { OwnsBlock file.old block }
    ensures { MayFill file.old file.new result block
        (with_reset reset registers.now block file.old) }
{
    let condition = make_active(reset, file)?;
    let conditional = file.block_add_cond(block, &condition)?;
    let at_reset = file.conditional_then_block(conditional);
    let outside = file.conditional_add_else(conditional)?;
    assign_all(Share::AtReset, registers, at_reset, file)?;
    assign_all(Share::OutsideReset, registers, outside, file)
}

/// An empty block, which nothing holds yet.
fn make_empty_block(file: &mut VastFile) -> Result<VastStatementBlock, AllocError>
    ensures { Builds file.old file.new result next_block with_detached_block }
{
    file.ast.push_block()
}

/// The block of the registers, which nothing holds yet.
fn make_block(
    reset: Option<Reset>,
    registers: &[RegisterDefinition],
    file: &mut VastFile,
) -> Result<VastStatementBlock, AllocError>
    requires reset { IfSome reset (OwnsReset file.old) }
    requires registers { All (OwnsRegister file.old) registers.now }
    ensures { MayMakeBlock file.old file.new result reset registers.now }
{
    let block = make_empty_block(file)?;
    assign_all(Share::Unreset, registers, block, file)?;
    if !any_resettable(registers) {
        return Ok(block);
    }
    match reset {
        Some(reset) => {
            branch(reset, registers, block, file)?;
            Ok(block)
        }
        None => Ok(block),
    }
}

/// Adds an `always_ff` at this event, over the block, as the last member of the scope.
fn attach(
    scope: RegisterScope,
    event: Expr,
    block: VastStatementBlock,
    file: &mut VastFile,
) -> Result<(), AllocError>
    requires scope { OwnsScope file.old scope }
    requires event { EventSound file.old event }
    requires detached { file.old.detached ≡ Some block }
    requires newer { IsOlderScope scope block }
    ensures { Leaves file.old file.new result (with_clocked scope event block) }
{
    let mut events = Vec::new(file.allocator());
    events.push(event)?;
    match scope {
        RegisterScope::Module(owner) => {
            file.ast
                .push_always_ff_over(Scope::Module(owner), events, block)?
        }
        RegisterScope::GenerateLoop(owner) => {
            file.ast
                .push_always_ff_over(Scope::Loop(owner), events, block)?
        }
    };
    Ok(())
}

/// One `always_ff` at the rising edge of the clock, as the last member of the scope. First the registers without reset
/// values are assigned, in order. Then, where a register has one, `if (signal)`, or `if (!signal)` for active low,
/// assigns the reset values, and its `else` the values of the same registers. The value of a register is
/// `enable ? next : reg`, or `next` where it has no enable. Each assignment is nonblocking. No registers change
/// nothing, and take no memory.
///
/// Where the registers are names that differ, each takes its value, whatever signals hold: its reset value where the
/// reset is active and it has one, else its next value where it has no enable or the enable holds, else its own.
///
/// # Errors
/// `Refused` where a register has a reset value and there is no reset: `reset signal is required when a register has a
/// reset value`; the file is unchanged. `Memory` where a growth was refused: the file then may have expressions and
/// blocks more that nothing uses; all else of it is as it was.
pub fn add_registers(
    clk: &Expr,
    reset: Option<Reset>,
    registers: &[RegisterDefinition],
    scope: RegisterScope,
    file: &mut VastFile,
) -> Result<(), VastFault>
    requires clk { OwnsExpr file.old clk.now }
    requires reset { IfSome reset (OwnsReset file.old) }
    requires registers { All (OwnsRegister file.old) registers.now }
    requires scope { OwnsScope file.old scope }
    ensures built { MayAddRegisters file.old file.new result clk.now reset
        registers.now scope }
    ensures values { OnOk result
        (TakeTheirValues (maybe_reset_tree file.old reset)
        (register_trees file.old registers.now)) }
    ensures kept { Keeps file.old file.new }
    ensures unseen { OnErr result (tree file.new ≡ tree file.old) }
    ensures none { registers.now ≡ [] → result ≡ Ok tt }
{
    if registers.is_empty() {
        return Ok(());
    }
    records_are_sound(file);
    check_reset(reset, registers, file)?;
    let block = make_block(reset, registers, file)?;
    let event = file.make_pos_edge(clk)?;
    Ok(attach(scope, event, block, file)?)
}
