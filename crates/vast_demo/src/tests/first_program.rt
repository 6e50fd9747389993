//! A module by calls, as the README shows it.

use std::alloc::Global;
use std::test::Fail;
use xlsynth_vast::{FileIds, VastFault, VastFile, VastFileType};

fn passthrough(alloc: Global) -> Result<String, VastFault> {
    let mut ids = FileIds::new();
    let mut file = VastFile::new(alloc, VastFileType::SystemVerilog, &mut ids).unwrap();
    let module = file.add_module("passthrough")?;
    let data_type = file.make_bit_vector_type(8, false)?;
    let input = file.add_input(module, "input_data", &data_type)?;
    let output = file.add_output(module, "output_data", &data_type)?;
    let assignment = file.make_continuous_assignment(&output.to_expr(), &input.to_expr())?;
    file.add_member_continuous_assignment(module, assignment)?;
    file.emit()
}

#[test]
fn calls_make_the_module(rt: HostRuntime) -> Result<(), Fail> {
    assert_eq!(rt;
        passthrough(rt.alloc())?.as_str(),
        "module passthrough(\n  input wire [7:0] input_data,\n  output wire [7:0] output_data\n);\n  assign output_data = input_data;\nendmodule\n"
    );
    Ok(())
}
