//! Parts that ask for what they need in place of testing it, and promise what stays the file's.

ghost use Rattle.std.specs.Prelude.{IfOk};
ghost use Rattle.vast_core.specs.Bench.{OwnsExpr, OwnsModule, OwnsType};
ghost use Rattle.xlsynth_vast.specs.Keeps.{Keeps};

use crate::fault::ExampleFault;
use xlsynth_vast::{Expr, LiteralFormat, VastDataType, VastFile, VastModule};

/// What is declared: a port or a wire.
#[derive(Clone, Copy, Drop)]
pub(crate) enum Net {
    Input,
    Output,
    Wire,
}

/// Declares a port or a wire of this name.
///
/// # Errors
/// `Taken` where the name is taken; out of memory.
pub(crate) fn declare(
    net: Net,
    owner: VastModule,
    name: &str,
    data_type: &VastDataType,
    file: &mut VastFile,
) -> Result<Expr, ExampleFault>
    requires owner { OwnsModule file.old owner }
    requires data_type { OwnsType file.old data_type.now }
    ensures answer { IfOk result (λ e. OwnsExpr file.new e) }
    ensures kept { Keeps file.old file.new }
{
    if !file.name_is_free(owner, name) {
        return Err(ExampleFault::Taken);
    }
    match net {
        Net::Input => Ok(file.add_input(owner, name, data_type)?.to_expr()),
        Net::Output => Ok(file.add_output(owner, name, data_type)?.to_expr()),
        Net::Wire => Ok(file.add_wire(owner, name, data_type)?.to_expr()),
    }
}

/// The signal is assigned the value at all times.
pub(crate) fn drive(
    owner: VastModule,
    signal: Expr,
    value: Expr,
    file: &mut VastFile,
) -> Result<(), ExampleFault>
    requires owner { OwnsModule file.old owner }
    requires signal { OwnsExpr file.old signal }
    requires value { OwnsExpr file.old value }
    ensures kept { Keeps file.old file.new }
{
    let assignment = file.make_continuous_assignment(&signal, &value)?;
    file.add_member_continuous_assignment(owner, assignment)?;
    Ok(())
}

/// The type of one bit.
pub(crate) fn make_bit(file: &mut VastFile) -> Result<VastDataType, ExampleFault>
    ensures answer { IfOk result (λ t. OwnsType file.new t) }
    ensures kept { Keeps file.old file.new }
{
    Ok(file.make_scalar_type()?)
}

/// Declares a variable of this name.
///
/// # Errors
/// `Refused` where the name is taken; out of memory.
pub(crate) fn declare_logic(
    owner: VastModule,
    name: &str,
    data_type: VastDataType,
    file: &mut VastFile,
) -> Result<Expr, ExampleFault>
    requires owner { OwnsModule file.old owner }
    requires data_type { OwnsType file.old data_type }
    ensures answer { IfOk result (λ e. OwnsExpr file.new e) }
    ensures kept { Keeps file.old file.new }
{
    Ok(file.add_logic(owner, name, &data_type)?.to_expr())
}

/// The literal of this text.
///
/// # Errors
/// `Refused` where the text is no literal; out of memory.
pub(crate) fn make_literal(
    text: &str,
    format: &LiteralFormat,
    file: &mut VastFile,
) -> Result<Expr, ExampleFault>
    ensures answer { IfOk result (λ e. OwnsExpr file.new e) }
    ensures kept { Keeps file.old file.new }
{
    Ok(file.make_literal(text, format)?)
}
