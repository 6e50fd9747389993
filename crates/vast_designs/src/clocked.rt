//! Two registers of one clock, of which the first is enabled, and a reset that is active where its signal is low.
//!
//! Each part is added by a function of its own, which takes the file as the part before left it.

ghost use Rattle.std.specs.Prelude.{◌≡◌, IfOk, string_bytes};
ghost use Rattle.vast_literal.specs.declared.kind.VastFileType.TheVariants.{SystemVerilog};
ghost use Rattle.vast_core.specs.Bench.{start};
ghost use Rattle.vast_core.specs.FileTree.{tree};
ghost use Rattle.vast_print.specs.Page.{print};
ghost use Rattle.vast_print.specs.Layout.{layout};
ghost use Rattle.vast_designs.specs.DesignTexts.{registers_text};
ghost use Rattle.vast_designs.specs.Internal.RegistersFile.{the_signals, signals_made, the_state, state_made, the_values, values_made, enabled, plain};

use std::alloc::{AllocError, Global};
use xlsynth_vast::helpers::{RegisterDefinition, RegisterScope, Reset, add_registers};
use xlsynth_vast::{
    Expr, FileIds, LiteralFormat, LogicRef, VastFault, VastFile, VastFileType, VastModule,
};

/// The module and its inputs.
#[derive(Drop)]
struct Signals {
    owner: VastModule,
    clock: LogicRef,
    reset: LogicRef,
    enable: LogicRef,
}

/// The registers, and their values of the next cycle.
#[derive(Drop)]
struct State {
    first: LogicRef,
    first_next: LogicRef,
    second: LogicRef,
    second_next: LogicRef,
}

/// The values at reset.
#[derive(Drop)]
struct Values {
    first: Expr,
    second: Expr,
}

/// The text of the registers.
pub fn registers(alloc: Global) -> Result<String, VastFault>
    ensures { IfOk result (λ text. string_bytes text ≡ registers_text) }
{
    let mut ids = FileIds::new();
    let mut file = VastFile::new(alloc, VastFileType::SystemVerilog, &mut ids).unwrap();
    let signals = add_signals(&mut file)?;
    let state = add_state(&signals, &mut file)?;
    let values = make_values(&mut file)?;
    add_both(&signals, &state, &values, &mut file)?;
    file.emit()
}

fn add_signals(file: &mut VastFile) -> Result<Signals, AllocError>
    requires { file.old ≡ start SystemVerilog 1 }
    ensures { IfOk result (λ made. (made ≡ the_signals) × (file.new ≡ signals_made)) }
{
    let owner = file.add_module("regs_rst_en")?;
    let bit = file.make_scalar_type()?;
    let clock = file.add_input(owner, "clk", &bit)?;
    let reset = file.add_input(owner, "rst", &bit)?;
    let enable = file.add_input(owner, "en", &bit)?;
    Ok(Signals {
        owner,
        clock,
        reset,
        enable,
    })
}

fn add_state(of: &Signals, file: &mut VastFile) -> Result<State, VastFault>
    requires of { of.now ≡ the_signals }
    requires file { file.old ≡ signals_made }
    ensures { IfOk result (λ made. (made ≡ the_state) × (file.new ≡ state_made)) }
{
    let byte = file.make_bit_vector_type(8, false)?;
    let first = file.add_logic(of.owner, "r", &byte)?;
    let first_next = file.add_logic(of.owner, "r_next", &byte)?;
    let second = file.add_logic(of.owner, "r2", &byte)?;
    let second_next = file.add_logic(of.owner, "r2_next", &byte)?;
    Ok(State {
        first,
        first_next,
        second,
        second_next,
    })
}

fn make_values(file: &mut VastFile) -> Result<Values, VastFault>
    requires { file.old ≡ state_made }
    ensures { IfOk result (λ made. (made ≡ the_values) × (file.new ≡ values_made)) }
{
    let first = file.make_literal("bits[8]:0xaa", &LiteralFormat::Hex)?;
    let second = file.make_literal("bits[8]:0x55", &LiteralFormat::Hex)?;
    Ok(Values { first, second })
}

fn enabled_register(signals: &Signals, state: &State, values: &Values) -> RegisterDefinition
    ensures { result ≡ enabled signals.now state.now values.now }
{
    RegisterDefinition {
        reg: state.first.to_expr(),
        next: state.first_next.to_expr(),
        reset_value: Some(values.first),
        enable: Some(signals.enable.to_expr()),
    }
}

fn plain_register(state: &State, values: &Values) -> RegisterDefinition
    ensures { result ≡ plain state.now values.now }
{
    RegisterDefinition {
        reg: state.second.to_expr(),
        next: state.second_next.to_expr(),
        reset_value: Some(values.second),
        enable: None,
    }
}

fn add_both(
    signals: &Signals,
    state: &State,
    values: &Values,
    file: &mut VastFile,
) -> Result<(), VastFault>
    requires signals { signals.now ≡ the_signals }
    requires state { state.now ≡ the_state }
    requires values { values.now ≡ the_values }
    requires file { file.old ≡ values_made }
    ensures { IfOk result (λ _. print (layout (tree file.new)) ≡ registers_text) }
{
    let reset = Reset {
        signal: signals.reset.to_expr(),
        active_low: true,
    };
    let first = enabled_register(signals, state, values);
    let second = plain_register(state, values);
    let scope = RegisterScope::Module(signals.owner);
    add_registers(
        &signals.clock.to_expr(),
        Some(reset),
        &[first, second],
        scope,
        file,
    )
}
