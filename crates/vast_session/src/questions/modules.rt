//! Questions of modules, their ports and their names.

ghost use Rattle.std.specs.Prelude.{◌≡◌, All, IfErr, IfOk, None, Ok, map};
ghost use Rattle.vast_core.specs.Bench.{OwnsPort};
ghost use Rattle.vast_script.specs.Outcome.{cause_of};
ghost use Rattle.vast_session.specs.Questions.{PortsAre, Tells, module_fact, port_fact, port_told};

use crate::questions::answered::{PortValue, Value};
use vast_calls::ModuleQuestion;
use vast_script::{Answer, StepFault, one};
use xlsynth_vast::{LogicRef, ModulePort, VastFile, VastModule};

/// The answer to the question.
///
/// # Errors
/// Where the question is refused.
pub(crate) fn answer_module(
    file: &VastFile,
    answers: &[Answer],
    question: &ModuleQuestion,
) -> Result<Value, StepFault>
    ensures { Tells result (module_fact file.now answers.now question.now) }
{
    match question {
        ModuleQuestion::LogicRefName(name) => {
            let name: LogicRef = one(file, answers, *name)?;
            Ok(Value::Text(file.logic_ref_name(name)?))
        }
        ModuleQuestion::ModuleInputPorts(owner) => {
            let owner: VastModule = one(file, answers, *owner)?;
            port_values(file, &file.module_input_ports(owner)?)
        }
        ModuleQuestion::ModuleMemberCount(owner) => {
            let owner: VastModule = one(file, answers, *owner)?;
            Ok(Value::Count(file.module_member_count(owner)))
        }
        ModuleQuestion::ModuleName(owner) => {
            let owner: VastModule = one(file, answers, *owner)?;
            Ok(Value::Text(file.module_name(owner)?))
        }
        ModuleQuestion::ModuleOutputPorts(owner) => {
            let owner: VastModule = one(file, answers, *owner)?;
            port_values(file, &file.module_output_ports(owner)?)
        }
        ModuleQuestion::ModulePorts(owner) => {
            let owner: VastModule = one(file, answers, *owner)?;
            port_values(file, &file.module_ports(owner)?)
        }
        ModuleQuestion::NameIsFree(owner, name) => {
            let owner: VastModule = one(file, answers, *owner)?;
            Ok(Value::Truth(file.name_is_free(owner, name)))
        }
    }
}

/// The ports as values.
fn port_values(file: &VastFile, ports: &[ModulePort]) -> Result<Value, StepFault>
    requires { All (OwnsPort file.now) ports.now }
    ensures { Tells result (Ok (PortsAre (map (port_fact file.now) ports.now))) }
{
    let mut values = Vec::new(file.allocator());
    for port in ports {
        let value = port_value(file, *port)?;
        values.push(value)?;
    }
    Ok(Value::Ports(values))
}

/// A port with its name, direction, width, whether it is signed, and its name as an expression.
fn port_value(file: &VastFile, port: ModulePort) -> Result<PortValue, StepFault>
    requires { OwnsPort file.now port }
    ensures told { IfOk result (λ value. port_fact file.now port ≡ port_told value) }
    ensures memory { IfErr result (λ fault. cause_of fault ≡ None) }
{
    Ok(PortValue {
        name: file.port_name(port)?,
        direction: file.port_direction(port),
        width: file.port_width(port),
        signed: file.type_is_signed(file.port_data_type(port)),
        reference: file.logic_ref_name(file.port_logic_ref(port))?,
    })
}
