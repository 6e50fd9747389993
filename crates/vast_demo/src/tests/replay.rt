//! A replay and its answers. What other lists answer, faults among it, is in the stored run of `vast_replay`.

use std::alloc::{AllocError, Global};
use std::test::Fail;
use vast_script::{Answer, ArtifactStep, ModuleStep, Step, TypeStep, replay};
use xlsynth_vast::{FileIds, VastFile, VastFileType};

fn empty_file(alloc: Global) -> VastFile {
    let mut ids = FileIds::new();
    VastFile::new(alloc, VastFileType::SystemVerilog, &mut ids).unwrap()
}

fn module(alloc: Global, name: &str) -> Result<Step, AllocError> {
    Ok(Step::Modules(ModuleStep::AddModule(String::from_str(alloc, name)?)))
}

fn input(alloc: Global, owner: usize, name: &str, data_type: usize) -> Result<Step, AllocError> {
    let name = String::from_str(alloc, name)?;
    Ok(Step::Modules(ModuleStep::AddInput(owner, name, data_type)))
}

/// A module whose output is its input.
fn passthrough_steps(alloc: Global) -> Result<Vec<Step>, AllocError> {
    let output = String::from_str(alloc, "output_data")?;
    let steps = vec![in alloc;
        module(alloc, "passthrough")?,
        Step::Types(TypeStep::MakeBitVectorType(8, false)),
        input(alloc, 0, "input_data", 1)?,
        Step::Modules(ModuleStep::AddOutput(0, output, 1)),
        Step::Artifacts(ArtifactStep::MakeContinuousAssignment(3, 2)),
        Step::Artifacts(ArtifactStep::AddMemberContinuousAssignment(0, 4)),
    ]?;
    Ok(steps)
}

/// Whether these are what the steps of the module answer, each of its kind.
fn are_passthrough_answers(answers: &[Answer]) -> bool {
    matches!(
        answers,
        [
            Answer::VastModule(_),
            Answer::VastDataType(_),
            Answer::LogicRef(_),
            Answer::LogicRef(_),
            Answer::ContinuousAssignment(_),
            Answer::Nothing,
        ]
    )
}

#[test]
fn six_steps_make_a_module(rt: HostRuntime) -> Result<(), Fail> {
    let alloc = rt.alloc();
    let mut file = empty_file(alloc);
    let steps = passthrough_steps(alloc)?;
    match replay(&mut file, &steps) {
        Ok(answers) => assert!(rt; are_passthrough_answers(&answers)),
        Err(_) => assert!(rt; false),
    }
    assert_eq!(rt;
        file.emit()?.as_str(),
        "module passthrough(\n  input wire [7:0] input_data,\n  output wire [7:0] output_data\n);\n  assign output_data = input_data;\nendmodule\n"
    );
    Ok(())
}
