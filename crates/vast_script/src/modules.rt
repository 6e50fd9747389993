//! Calls of the file's items, and of modules with their ports, declarations and parameters.

ghost use Rattle.vast_script.specs.Outcome.{Replays};
ghost use Rattle.vast_steps.specs.declared.step.ModuleStep.TheVariants.{HoistModuleDeclarations};
ghost use Rattle.vast_script.specs.Modules.{module_call};
ghost use Rattle.vast_script.specs.Internal.Modules.{add_signal};

use crate::answer::Answer;
use crate::answers::{localparam, logic_ref, module, nothing, parameter, refusable_logic_ref};
use crate::arguments::{one, three, two};
use crate::fault::StepFault;
use crate::signal::Signal;
use crate::typedefs::{
    add_enum_typedef, add_file_enum_typedef, add_file_struct_typedef, add_struct_typedef,
};
use vast_steps::ModuleStep;
use xlsynth_vast::{BlankLine, Def, Expr, VastDataType, VastFile, VastModule};

/// A signal of this type, in a module in which its name is free.
fn add_signal(
    file: &mut VastFile,
    answers: &[Answer],
    signal: Signal,
    owner: usize,
    name: &str,
    data_type: usize,
) -> Result<Answer, StepFault>
    ensures { Replays file.old file.new answers.now result
        (add_signal signal owner name.now data_type) }
{
    let (owner, data_type): (VastModule, VastDataType) = two(file, answers, owner, data_type)?;
    if !file.name_is_free(owner, name) {
        return Err(StepFault::Condition);
    }
    match signal {
        Signal::Input => logic_ref(file.add_input(owner, name, &data_type)),
        Signal::Output => logic_ref(file.add_output(owner, name, &data_type)),
        Signal::InOut => logic_ref(file.add_inout(owner, name, &data_type)),
        Signal::LogicInput => logic_ref(file.add_logic_input(owner, name, &data_type)),
        Signal::LogicOutput => logic_ref(file.add_logic_output(owner, name, &data_type)),
        Signal::Wire => logic_ref(file.add_wire(owner, name, &data_type)),
    }
}

fn hoist_declarations(
    file: &mut VastFile,
    answers: &[Answer],
    owner: usize,
    start: usize,
) -> Result<Answer, StepFault>
    ensures { Replays file.old file.new answers.now result
        (module_call (HoistModuleDeclarations owner start)) }
{
    let owner: VastModule = one(file, answers, owner)?;
    if start > file.module_member_count(owner) {
        return Err(StepFault::Condition);
    }
    nothing(file.hoist_module_declarations(owner, start))
}

/// Makes the call, over the answers so far.
pub(crate) fn replay_module(
    file: &mut VastFile,
    answers: &[Answer],
    step: &ModuleStep,
) -> Result<Answer, StepFault>
    ensures { Replays file.old file.new answers.now result (module_call step.now) }
{
    match step {
        ModuleStep::AddInclude(path) => nothing(file.add_include(path)),
        ModuleStep::AddImport(owner, package) => {
            let owner: VastModule = one(file, answers, *owner)?;
            nothing(file.add_import(owner, package))
        }
        ModuleStep::AddFileImport(package) => nothing(file.add_file_import(package)),
        ModuleStep::AddEnumTypedef(owner, name, base, names, values) => {
            add_enum_typedef(file, answers, *owner, name, *base, names, values)
        }
        ModuleStep::AddStructTypedef(owner, name, fields) => {
            add_struct_typedef(file, answers, *owner, name, fields)
        }
        ModuleStep::AddFileEnumTypedef(name, base, names, values) => {
            add_file_enum_typedef(file, answers, name, *base, names, values)
        }
        ModuleStep::AddFileStructTypedef(name, fields) => {
            add_file_struct_typedef(file, answers, name, fields)
        }
        ModuleStep::AddBlankLine(blank) => {
            let blank: BlankLine = one(file, answers, *blank)?;
            nothing(file.add_blank_line(blank))
        }
        ModuleStep::AddCommentText(text) => nothing(file.add_comment_text(text)),
        ModuleStep::AddModule(name) => module(file.add_module(name)),
        ModuleStep::AddInput(owner, name, data_type) => {
            add_signal(file, answers, Signal::Input, *owner, name, *data_type)
        }
        ModuleStep::AddOutput(owner, name, data_type) => {
            add_signal(file, answers, Signal::Output, *owner, name, *data_type)
        }
        ModuleStep::AddInout(owner, name, data_type) => {
            add_signal(file, answers, Signal::InOut, *owner, name, *data_type)
        }
        ModuleStep::AddLogicInput(owner, name, data_type) => {
            add_signal(file, answers, Signal::LogicInput, *owner, name, *data_type)
        }
        ModuleStep::AddLogicOutput(owner, name, data_type) => {
            add_signal(file, answers, Signal::LogicOutput, *owner, name, *data_type)
        }
        ModuleStep::AddWire(owner, name, data_type) => {
            add_signal(file, answers, Signal::Wire, *owner, name, *data_type)
        }
        ModuleStep::AddReg(owner, name, data_type) => {
            let (owner, data_type): (VastModule, VastDataType) = two(
                file, answers, *owner, *data_type,
            )?;
            refusable_logic_ref(file.add_reg(owner, name, &data_type))
        }
        ModuleStep::AddLogic(owner, name, data_type) => {
            let (owner, data_type): (VastModule, VastDataType) = two(
                file, answers, *owner, *data_type,
            )?;
            refusable_logic_ref(file.add_logic(owner, name, &data_type))
        }
        ModuleStep::AddVariable(owner, name, data_type) => {
            let (owner, data_type): (VastModule, VastDataType) = two(
                file, answers, *owner, *data_type,
            )?;
            refusable_logic_ref(file.add_variable(owner, name, &data_type))
        }
        ModuleStep::AddParameterPort(owner, name, value) => {
            let (owner, value): (VastModule, Expr) = two(file, answers, *owner, *value)?;
            logic_ref(file.add_parameter_port(owner, name, &value))
        }
        ModuleStep::AddTypedParameterPort(owner, name, data_type, value) => {
            let (owner, data_type, value): (VastModule, VastDataType, Expr) = three(
                file, answers, *owner, *data_type, *value,
            )?;
            logic_ref(file.add_typed_parameter_port(owner, name, &data_type, &value))
        }
        ModuleStep::AddParameter(owner, name, value) => {
            let (owner, value): (VastModule, Expr) = two(file, answers, *owner, *value)?;
            parameter(file.add_parameter(owner, name, &value))
        }
        ModuleStep::AddParameterWithDef(owner, definition, value) => {
            let (owner, definition, value): (VastModule, Def, Expr) = three(
                file,
                answers,
                *owner,
                *definition,
                *value,
            )?;
            parameter(file.add_parameter_with_def(owner, &definition, &value))
        }
        ModuleStep::AddLocalparam(owner, name, value) => {
            let (owner, value): (VastModule, Expr) = two(file, answers, *owner, *value)?;
            localparam(file.add_localparam(owner, name, &value))
        }
        ModuleStep::AddIntLocalparam(owner, name, value) => {
            let (owner, value): (VastModule, Expr) = two(file, answers, *owner, *value)?;
            localparam(file.add_int_localparam(owner, name, &value))
        }
        ModuleStep::AddTypedLocalparam(owner, definition, value) => {
            let (owner, definition, value): (VastModule, Def, Expr) = three(
                file,
                answers,
                *owner,
                *definition,
                *value,
            )?;
            localparam(file.add_typed_localparam(owner, &definition, &value))
        }
        ModuleStep::HoistModuleDeclarations(owner, start) => {
            hoist_declarations(file, answers, *owner, *start)
        }
    }
}
