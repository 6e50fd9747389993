//! Calls of the file's items, and of modules with their ports, declarations and parameters, by their places in the table.

ghost use Rattle.std.specs.Prelude.{IfOk};
ghost use Rattle.vast_calls.specs.CallArguments.{module_pieces};
ghost use Rattle.vast_calls.specs.CallNames.{module_name};
ghost use Rattle.vast_calls.specs.CallNumbers.{module_names};
ghost use Rattle.vast_calls.specs.Internal.CallRows.{StandsAt};
ghost use Rattle.vast_calls.specs.Internal.Written.{AreLeft};

use crate::arguments::Arguments;
use crate::from_arguments::Count;
use crate::problem::{Misfit, Problem};
use vast_steps::ModuleStep;

/// The call of this place in its group, over the arguments.
///
/// # Errors
/// Where no call has the place or the arguments are not those of the call, and out of memory.
pub(super) fn module_step(place: usize, arguments: &mut Arguments<'_>) -> Result<ModuleStep, Misfit>
    ensures named { IfOk result (λ step. StandsAt module_names place (module_name step)) }
    ensures written { IfOk result (λ step. AreLeft arguments.old (module_pieces step)) }
{
    match place {
        0 => arguments.one(ModuleStep::AddInclude),
        1 => arguments.one(ModuleStep::AddBlankLine),
        2 => arguments.one(ModuleStep::AddCommentText),
        3 => arguments.one(ModuleStep::AddModule),
        4 => arguments.three(ModuleStep::AddInput),
        5 => arguments.three(ModuleStep::AddOutput),
        6 => arguments.three(ModuleStep::AddInout),
        7 => arguments.three(ModuleStep::AddLogicInput),
        8 => arguments.three(ModuleStep::AddLogicOutput),
        9 => arguments.three(ModuleStep::AddWire),
        10 => arguments.three(ModuleStep::AddReg),
        11 => arguments.three(ModuleStep::AddLogic),
        12 => arguments.three(ModuleStep::AddParameterPort),
        13 => arguments.four(ModuleStep::AddTypedParameterPort),
        14 => arguments.three(ModuleStep::AddParameter),
        15 => arguments.three(ModuleStep::AddParameterWithDef),
        16 => arguments.three(ModuleStep::AddLocalparam),
        17 => arguments.three(ModuleStep::AddIntLocalparam),
        18 => arguments.three(ModuleStep::AddTypedLocalparam),
        19 => arguments.two(|module, Count(start)| {
            ModuleStep::HoistModuleDeclarations(module, start)
        }),
        20 => arguments.two(ModuleStep::AddImport),
        21 => arguments.one(ModuleStep::AddFileImport),
        22 => arguments.five(ModuleStep::AddEnumTypedef),
        23 => arguments.three(ModuleStep::AddStructTypedef),
        24 => arguments.four(ModuleStep::AddFileEnumTypedef),
        25 => arguments.two(ModuleStep::AddFileStructTypedef),
        26 => arguments.three(ModuleStep::AddVariable),
        _ => Err(arguments.misfit(Problem::UnknownCall)),
    }
}
