//! A module of a parameter, instantiated twice, once with an open port, and a generate loop between the two.

ghost use Rattle.std.specs.Prelude.{IfOk, IfSome};
ghost use Rattle.vast_core.specs.Bench.{OwnsExpr, OwnsLoop, OwnsModule, OwnsType};
ghost use Rattle.xlsynth_vast.specs.Keeps.{Keeps};

use crate::asked::{Net, declare, drive, make_bit};
use crate::fault::ExampleFault;
use xlsynth_vast::{Expr, GenerateLoop, VastDataType, VastFile, VastModule};

/// The module that is instantiated, and its parameter.
#[derive(Drop)]
struct Lane {
    owner: VastModule,
    width: Expr,
}

/// The signals of the module at the top.
#[derive(Drop)]
struct Top {
    owner: VastModule,
    input: Expr,
    output: Expr,
    odd: Expr,
    middle: Expr,
    crossed: Expr,
}

/// Adds the two modules.
///
/// # Errors
/// `Taken` where a name is taken; out of memory.
pub(crate) fn add_hierarchy(file: &mut VastFile) -> Result<(), ExampleFault> {
    add_lane(file)?;
    allow_in_lint(file)?;
    let top = add_top(file)?;
    add_instance(top.owner, "first", top.input, top.middle, None, file)?;
    let bits = add_loop(top.owner, file)?;
    let target = bit_of(top.crossed, bits, file)?;
    let source = bit_of(top.middle, bits, file)?;
    join(bits, target, source, file)?;
    let odd = Some(&top.odd);
    add_instance(top.owner, "second", top.crossed, top.output, odd, file)
}

/// The module that is instantiated.
fn add_lane(file: &mut VastFile) -> Result<(), ExampleFault> {
    let lane = add_lane_module(file)?;
    let word = make_word(lane.width, file)?;
    let data = declare(Net::Input, lane.owner, "data", &word, file)?;
    let inverted = declare(Net::Output, lane.owner, "result", &word, file)?;
    let inverse = invert(data, file)?;
    drive(lane.owner, inverted, inverse, file)?;
    add_odd(lane.owner, data, file)
}

/// The module with its parameter.
fn add_lane_module(file: &mut VastFile) -> Result<Lane, ExampleFault>
    ensures owner { IfOk result (λ l. OwnsModule file.new l.owner) }
    ensures width { IfOk result (λ l. OwnsExpr file.new l.width) }
{
    let owner = file.add_module("lane")?;
    let eight = file.make_unsized_decimal_literal(8)?;
    let width = file.add_parameter_port(owner, "WIDTH", &eight)?.to_expr();
    Ok(Lane { owner, width })
}

/// A vector as wide as this says.
fn make_word(width: Expr, file: &mut VastFile) -> Result<VastDataType, ExampleFault>
    requires width { OwnsExpr file.old width }
    ensures answer { IfOk result (λ t. OwnsType file.new t) }
    ensures kept { Keeps file.old file.new }
{
    if !file.width_is_usable(&width) {
        return Err(ExampleFault::Width);
    }
    Ok(file.make_bit_vector_type_expr(&width, false)?)
}

fn invert(value: Expr, file: &mut VastFile) -> Result<Expr, ExampleFault>
    requires value { OwnsExpr file.old value }
    ensures answer { IfOk result (λ e. OwnsExpr file.new e) }
    ensures kept { Keeps file.old file.new }
{
    Ok(file.make_bitwise_not(&value)?)
}

fn parity_of(value: Expr, file: &mut VastFile) -> Result<Expr, ExampleFault>
    requires value { OwnsExpr file.old value }
    ensures answer { IfOk result (λ e. OwnsExpr file.new e) }
    ensures kept { Keeps file.old file.new }
{
    Ok(file.make_xor_reduce(&value)?)
}

/// An output that is the parity of the value.
fn add_odd(owner: VastModule, value: Expr, file: &mut VastFile) -> Result<(), ExampleFault>
    requires owner { OwnsModule file.old owner }
    requires value { OwnsExpr file.old value }
    ensures kept { Keeps file.old file.new }
{
    let parity = parity_of(value, file)?;
    let bit = make_bit(file)?;
    let odd = declare(Net::Output, owner, "odd", &bit, file)?;
    drive(owner, odd, parity, file)
}

/// Comments that Verilator reads: what follows is meant to be a second module of its file, and to have an open port.
fn allow_in_lint(file: &mut VastFile) -> Result<(), ExampleFault> {
    file.add_comment_text("verilator lint_off DECLFILENAME")?;
    file.add_comment_text("verilator lint_off PINCONNECTEMPTY")?;
    Ok(())
}

fn add_top(file: &mut VastFile) -> Result<Top, ExampleFault>
    ensures owner { IfOk result (λ t. OwnsModule file.new t.owner) }
    ensures input { IfOk result (λ t. OwnsExpr file.new t.input) }
    ensures output { IfOk result (λ t. OwnsExpr file.new t.output) }
    ensures odd { IfOk result (λ t. OwnsExpr file.new t.odd) }
    ensures middle { IfOk result (λ t. OwnsExpr file.new t.middle) }
    ensures crossed { IfOk result (λ t. OwnsExpr file.new t.crossed) }
{
    let owner = file.add_module("top")?;
    let bit = file.make_scalar_type()?;
    let byte = file.make_bit_vector_type(8, false)?;
    let input = declare(Net::Input, owner, "data", &byte, file)?;
    let output = declare(Net::Output, owner, "result", &byte, file)?;
    let odd = declare(Net::Output, owner, "odd", &bit, file)?;
    let middle = declare(Net::Wire, owner, "middle", &byte, file)?;
    let crossed = declare(Net::Wire, owner, "crossed", &byte, file)?;
    Ok(Top {
        owner,
        input,
        output,
        odd,
        middle,
        crossed,
    })
}

/// An instance of `lane` with its parameter; without a signal for it the port `odd` is open.
fn add_instance(
    owner: VastModule,
    name: &str,
    input: Expr,
    output: Expr,
    odd: Option<&Expr>,
    file: &mut VastFile,
) -> Result<(), ExampleFault>
    requires owner { OwnsModule file.old owner }
    requires input { OwnsExpr file.old input }
    requires output { OwnsExpr file.old output }
    requires odd { IfSome odd (λ e. OwnsExpr file.old e.now) }
    ensures kept { Keeps file.old file.new }
{
    let eight = file.make_unsized_decimal_literal(8)?;
    let instance = file.make_instantiation(
        "lane",
        name,
        &["WIDTH"],
        &[&eight],
        &["data", "result", "odd"],
        &[Some(&input), Some(&output), odd],
    )?;
    file.add_member_instantiation(owner, instance)?;
    Ok(())
}

/// A generate loop over the bits of a byte.
fn add_loop(owner: VastModule, file: &mut VastFile) -> Result<GenerateLoop, ExampleFault>
    requires owner { OwnsModule file.old owner }
    ensures answer { IfOk result (λ l. OwnsLoop file.new l) }
    ensures kept { Keeps file.old file.new }
{
    let zero = file.make_unsized_decimal_literal(0)?;
    let eight = file.make_unsized_decimal_literal(8)?;
    Ok(file.add_generate_loop(owner, "i", &zero, &eight, Some("bits"))?)
}

/// The bit of the signal that the loop is at.
fn bit_of(signal: Expr, bits: GenerateLoop, file: &mut VastFile) -> Result<Expr, ExampleFault>
    requires signal { OwnsExpr file.old signal }
    requires bits { OwnsLoop file.old bits }
    ensures answer { IfOk result (λ e. OwnsExpr file.new e) }
    ensures kept { Keeps file.old file.new }
{
    let place = file.generate_genvar(bits).to_expr();
    let signal = file.make_indexable_expression(&signal);
    Ok(file.make_index_expr(&signal, &place)?.to_expr())
}

/// In the loop, the one signal is the other.
fn join(
    bits: GenerateLoop,
    target: Expr,
    source: Expr,
    file: &mut VastFile,
) -> Result<(), ExampleFault>
    requires bits { OwnsLoop file.old bits }
    requires target { OwnsExpr file.old target }
    requires source { OwnsExpr file.old source }
    ensures kept { Keeps file.old file.new }
{
    file.generate_add_continuous_assignment(bits, &target, &source)?;
    Ok(())
}
