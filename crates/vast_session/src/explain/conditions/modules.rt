//! Conditions of calls of modules and statements in words.

use std::alloc::AllocError;
use vast_script::{Answer, one};
use vast_steps::{ModuleStep, StatementStep};
use xlsynth_vast::{VastFile, VastModule};

pub(crate) fn module_condition(
    file: &VastFile,
    answers: &[Answer],
    step: &ModuleStep,
) -> Result<String, AllocError> {
    match step {
        ModuleStep::AddInput(_, name, _)
        | ModuleStep::AddOutput(_, name, _)
        | ModuleStep::AddInout(_, name, _)
        | ModuleStep::AddLogicInput(_, name, _)
        | ModuleStep::AddLogicOutput(_, name, _)
        | ModuleStep::AddWire(_, name, _) => name_taken(file, name),
        ModuleStep::HoistModuleDeclarations(owner, start) => {
            start_condition(file, answers, *owner, *start)
        }
        ModuleStep::AddEnumTypedef(_, _, _, names, values)
        | ModuleStep::AddFileEnumTypedef(_, _, names, values) => {
            entries_condition(file, names.len(), values.len())
        }
        _ => String::from_str(file.allocator(), "condition not met"),
    }
}

fn entries_condition(file: &VastFile, names: usize, values: usize) -> Result<String, AllocError> {
    format!(in file.allocator(); "entries: {names} names, {values} values; each name has one")
}

fn name_taken(file: &VastFile, name: &str) -> Result<String, AllocError> {
    format!(in file.allocator(); "the name \"{name}\" is taken in the module")
}

fn start_condition(
    file: &VastFile,
    answers: &[Answer],
    owner: usize,
    start: usize,
) -> Result<String, AllocError> {
    let alloc = file.allocator();
    match one::<VastModule>(file, answers, owner) {
        Ok(owner) => {
            let count = file.module_member_count(owner);
            format!(in alloc; "the start is {start}, and the module has {count} members")
        }
        Err(_) => String::from_str(alloc, "the start is behind the module's last member"),
    }
}

pub(crate) fn statement_condition(
    file: &VastFile,
    step: &StatementStep,
) -> Result<String, AllocError> {
    let words = match step {
        StatementStep::ConditionalAddElse(_) => "the conditional has an `else` already",
        StatementStep::ConditionalAddElseIf(_, _) => {
            "the conditional has an `else`, and no `else if` can stand behind it"
        }
        _ => "condition not met",
    };
    String::from_str(file.allocator(), words)
}
