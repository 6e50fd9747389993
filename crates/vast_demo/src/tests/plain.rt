//! Whether a file is plain.

use std::alloc::Global;
use std::test::Fail;
use xlsynth_vast::{FileIds, VastFault, VastFile, VastFileType};

/// A file with a module of this name that drives an output by an input.
fn wires(alloc: Global, name: &str) -> Result<VastFile, VastFault> {
    let mut ids = FileIds::new();
    let mut file = VastFile::new(alloc, VastFileType::SystemVerilog, &mut ids).unwrap();
    let module = file.add_module(name)?;
    let data_type = file.make_bit_vector_type(8, false)?;
    let input = file.add_input(module, "a", &data_type)?;
    let output = file.add_output(module, "b", &data_type)?;
    let sum = file.make_add(&input.to_expr(), &input.to_expr())?;
    let assignment = file.make_continuous_assignment(&output.to_expr(), &sum)?;
    file.add_member_continuous_assignment(module, assignment)?;
    Ok(file)
}

#[test]
fn names_decide(rt: HostRuntime) -> Result<(), Fail> {
    assert_eq!(rt; wires(rt.alloc(), "wires")?.is_plain()?, true);
    assert_eq!(rt; wires(rt.alloc(), "wire")?.is_plain()?, false);
    assert_eq!(rt; wires(rt.alloc(), "2wires")?.is_plain()?, false);
    Ok(())
}
