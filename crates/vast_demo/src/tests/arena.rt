//! The arenas' detached block, which no builder shows.

use std::test::Fail;
use vast_core::{Ast, Scope, VastFileType};

#[test]
fn keeps_a_detached_block_until_it_is_taken(rt: HostRuntime) -> Result<(), Fail> {
    let mut ast = Ast::new(rt.alloc(), VastFileType::SystemVerilog, 1);
    assert!(rt; ast.detached_block().is_none());
    let block = ast.push_block()?;
    assert!(rt; ast.detached_block() == Some(block));
    let owner = ast.push_module("m")?;
    ast.push_always_ff_over(Scope::Module(owner), Vec::new(rt.alloc()), block)?;
    assert!(rt; ast.detached_block().is_none());
    Ok(())
}
