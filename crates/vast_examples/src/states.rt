//! A machine of four states: a `case` over its state, its register, and an output by a function.

use crate::fault::ExampleFault;
use crate::signals::{Signal, declare, drive};
use xlsynth_vast::helpers::{RegisterDefinition, RegisterScope, Reset, add_registers};
use xlsynth_vast::{
    CaseStatement, Expr, LiteralFormat, VastDataType, VastFile, VastFunction, VastModule,
};

/// The module, its signals, and the type of a state.
#[derive(Drop)]
struct Machine {
    module: VastModule,
    state_type: VastDataType,
    clock: Expr,
    reset: Expr,
    go: Expr,
    busy: Expr,
    state: Expr,
    next: Expr,
}

/// Adds the machine: idle until `go`, and then three states in a row; idle at a reset.
///
/// # Errors
/// `Taken` where a name is taken; out of memory.
pub(crate) fn add_states(file: &mut VastFile) -> Result<(), ExampleFault> {
    let machine = add_machine(file)?;
    let states = make_states(file)?;
    let start = make_start(machine.go, &states, file)?;
    let case = add_case(&machine, file)?;
    let next = machine.next;
    add_arm(case, states.idle, next, start, file)?;
    add_arm(case, states.load, next, states.work, file)?;
    add_arm(case, states.work, next, states.done, file)?;
    add_arm(case, states.done, next, states.idle, file)?;
    add_state_register(&machine, states.idle, file)?;
    let is_busy = add_is_busy(machine.module, file)?;
    fill_is_busy(is_busy, &machine.state_type, states.idle, file)?;
    let call = call_is_busy(machine.state, file)?;
    drive(machine.module, machine.busy, call, file)
}

fn add_machine(file: &mut VastFile) -> Result<Machine, ExampleFault> {
    let module = file.add_module("machine")?;
    let bit = file.make_scalar_type()?;
    let state_type = file.make_bit_vector_type(2, false)?;
    let clock = declare(Signal::Input, module, "clk", &bit, file)?;
    let reset = declare(Signal::Input, module, "rst", &bit, file)?;
    let go = declare(Signal::Input, module, "go", &bit, file)?;
    let busy = declare(Signal::Output, module, "busy", &bit, file)?;
    let state = declare(Signal::Logic, module, "state", &state_type, file)?;
    let next = declare(Signal::Logic, module, "next", &state_type, file)?;
    Ok(Machine {
        module,
        state_type,
        clock,
        reset,
        go,
        busy,
        state,
        next,
    })
}

/// The literals of the four states.
#[derive(Drop)]
struct FourStates {
    idle: Expr,
    load: Expr,
    work: Expr,
    done: Expr,
}

fn make_states(file: &mut VastFile) -> Result<FourStates, ExampleFault> {
    let format = LiteralFormat::UnsignedDecimal;
    let idle = file.make_literal("bits[2]:0", &format)?;
    let load = file.make_literal("bits[2]:1", &format)?;
    let work = file.make_literal("bits[2]:2", &format)?;
    let done = file.make_literal("bits[2]:3", &format)?;
    Ok(FourStates {
        idle,
        load,
        work,
        done,
    })
}

/// What follows the idle state.
fn make_start(go: Expr, states: &FourStates, file: &mut VastFile) -> Result<Expr, ExampleFault> {
    if !file.owns(&go) || !file.owns(&states.load) || !file.owns(&states.idle) {
        return Err(ExampleFault::Foreign);
    }
    Ok(file.make_ternary(&go, &states.load, &states.idle)?)
}

/// The `case` over the state, in an `always_comb`.
fn add_case(machine: &Machine, file: &mut VastFile) -> Result<CaseStatement, ExampleFault> {
    if !file.owns(&machine.module) || !file.owns(&machine.state) {
        return Err(ExampleFault::Foreign);
    }
    let always = file.add_always_comb(machine.module)?;
    let body = file.statement_block(always);
    Ok(file.block_add_case(body, &machine.state)?)
}

/// In the state `label`, the signal `next` takes the value.
fn add_arm(
    case: CaseStatement,
    label: Expr,
    next: Expr,
    value: Expr,
    file: &mut VastFile,
) -> Result<(), ExampleFault> {
    if !file.owns(&case) || !file.owns(&label) || !file.owns(&next) || !file.owns(&value) {
        return Err(ExampleFault::Foreign);
    }
    let arm = file.case_add_item(case, &label)?;
    file.block_add_blocking_assignment(arm, &next, &value)?;
    Ok(())
}

/// The state is the next one at each edge of the clock, and the idle one at a reset.
fn add_state_register(
    machine: &Machine,
    idle: Expr,
    file: &mut VastFile,
) -> Result<(), ExampleFault> {
    if !file.owns(&machine.module) || !file.owns(&machine.clock) || !file.owns(&machine.reset) {
        return Err(ExampleFault::Foreign);
    }
    if !file.owns(&machine.state) || !file.owns(&machine.next) || !file.owns(&idle) {
        return Err(ExampleFault::Foreign);
    }
    let register = RegisterDefinition {
        reg: machine.state,
        next: machine.next,
        reset_value: Some(idle),
        enable: None,
    };
    let reset = Reset {
        signal: machine.reset,
        active_low: false,
    };
    let scope = RegisterScope::Module(machine.module);
    add_registers(&machine.clock, Some(reset), &[register], scope, file)?;
    Ok(())
}

/// Adds the function `is_busy` of a state.
fn add_is_busy(module: VastModule, file: &mut VastFile) -> Result<VastFunction, ExampleFault> {
    if !file.owns(&module) {
        return Err(ExampleFault::Foreign);
    }
    let bit = file.make_scalar_type()?;
    Ok(file.add_function(module, "is_busy", &bit)?)
}

/// Its input and its answer: whether the state isn't the idle one.
fn fill_is_busy(
    is_busy: VastFunction,
    state_type: &VastDataType,
    idle: Expr,
    file: &mut VastFile,
) -> Result<(), ExampleFault> {
    if !file.owns(&is_busy) || !file.owns(state_type) || !file.owns(&idle) {
        return Err(ExampleFault::Foreign);
    }
    let of = file
        .function_add_input(is_busy, "of", state_type)?
        .to_expr();
    let differs = file.make_ne(&of, &idle)?;
    let body = file.function_body(is_busy);
    let answer = file.function_result(is_busy).to_expr();
    file.block_add_blocking_assignment(body, &answer, &differs)?;
    Ok(())
}

/// The call of the function of the state.
fn call_is_busy(state: Expr, file: &mut VastFile) -> Result<Expr, ExampleFault> {
    if !file.owns(&state) {
        return Err(ExampleFault::Foreign);
    }
    Ok(file.make_function_call("is_busy", &[&state])?)
}
