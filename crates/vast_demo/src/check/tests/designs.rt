//! What is read from printed files: the whole tree of a design, part by part, and an empty module.

use crate::check::read_back::read_back;
use std::alloc::Global;
use std::test::Fail;
use vast_designs::passthrough;
use vast_read::{
    Children, Group, NormalDeclaration, NormalExpr, NormalFile, NormalItem, NormalMember,
    NormalModule, Port, Word, read_normal,
};
use xlsynth_vast::{FileIds, VastFile, VastFileType};

fn literal(alloc: Global, text: &str) -> Result<Box<NormalExpr>, Fail> {
    let text = Word::new(alloc, text)?;
    Ok(Box::new(alloc, NormalExpr::Literal(text))?)
}

fn name(alloc: Global, text: &str) -> Result<Box<NormalExpr>, Fail> {
    let text = Word::new(alloc, text)?;
    Ok(Box::new(alloc, NormalExpr::Name(text))?)
}

/// `wire [7:0]` and the name.
fn byte_wire(alloc: Global, name: &str) -> Result<Box<NormalDeclaration>, Fail> {
    let mut groups = Children::new(alloc);
    groups.push(Group {
        first: literal(alloc, "7")?,
        second: Some(literal(alloc, "0")?),
    })?;
    let declaration = NormalDeclaration {
        kind: Some(Word::new(alloc, "wire")?),
        typed: None,
        groups,
        name: Word::new(alloc, name)?,
        after: Children::new(alloc),
    };
    Ok(Box::new(alloc, declaration)?)
}

/// `module passthrough`, its two ports and its assignment.
fn passthrough_tree(alloc: Global) -> Result<NormalFile, Fail> {
    let mut ports = Children::new(alloc);
    for (direction, name) in [("input", "input_data"), ("output", "output_data")] {
        ports.push(Port {
            direction: Word::new(alloc, direction)?,
            declaration: byte_wire(alloc, name)?,
        })?;
    }
    let mut members = Children::new(alloc);
    members.push(NormalMember::Assign(name(alloc, "output_data")?, name(alloc, "input_data")?))?;
    let mut items = Children::new(alloc);
    items.push(NormalItem::Module(NormalModule {
        name: Word::new(alloc, "passthrough")?,
        parameters: Children::new(alloc),
        ports,
        members,
    }))?;
    Ok(NormalFile { items })
}

#[test]
fn the_tree_of_passthrough(rt: HostRuntime) -> Result<(), Fail> {
    let alloc = rt.alloc();
    let read = match passthrough(alloc) {
        Ok(text) => read_normal(alloc, &text)?,
        Err(_) => None,
    };
    assert!(rt; read == Some(passthrough_tree(alloc)?));
    Ok(())
}

#[test]
fn printed_files(rt: HostRuntime) -> Result<(), Fail> {
    let alloc = rt.alloc();
    let mut ids = FileIds::new();
    let mut file = VastFile::new(alloc, VastFileType::Verilog, &mut ids)?;
    let _ = file.add_module("m")?;
    let tree = read_back(&file)?;
    assert!(rt; tree.is_some());
    assert!(rt; tree == read_normal(alloc, "module m; endmodule")?);
    Ok(())
}
