//! Hoisting of declarations.

ghost use Rattle.std.specs.Prelude.{◌≡◌, ◌≤◌, OnOk, OnErr, length, slice_get};
ghost use Rattle.vast_core.specs.Records.{module_record};
ghost use Rattle.vast_core.specs.Bench.{OwnsModule};
ghost use Rattle.vast_core.specs.Hoisting.{is_declaration, members_of, with_members_hoisted, with_hoisted};
ghost use Rattle.vast_core.specs.Growth.{GrowsBy};
ghost use Rattle.vast_core.specs.View.{bench};

use crate::ast::Ast;
use crate::handle::VastModule;
use crate::node::{Member, Module};
use std::alloc::AllocError;

impl Member {
    /// Whether it declares a wire, a reg or a logic.
    fn is_declaration(&self) -> bool
        ensures { result ≡ is_declaration self.now }
    {
        match self {
            Member::Declaration(_, _, _) => true,
            _ => false,
        }
    }
}

impl Module {
    fn hoist(&mut self, start: usize) -> Result<(), AllocError>
        requires { start ≤ length self.old.members.items }
        ensures ok { OnOk result
            (module_record self.new ≡ with_members_hoisted start (module_record self.old)) }
        ensures err { OnErr result (module_record self.new ≡ module_record self.old) }
    {
        let mut suffix = self.members.split_off(start)?;
        let sorted = suffix.sort_by_key(|member| !member.is_declaration());
        self.members.append(&mut suffix).unwrap();
        sorted
    }
}

impl Ast {
    /// Puts the module's wire, reg and logic declarations from the member `start` on before the other members from
    /// there on. Declarations keep their order, and so do the others.
    ///
    /// # Errors
    /// `AllocError` where memory was refused; nothing changed.
    pub fn hoist_declarations(&mut self, owner: VastModule, start: usize) -> Result<(), AllocError>
        requires owner { OwnsModule (bench self.old) owner }
        requires start { start
            ≤ length (members_of (slice_get (bench self.old).modules owner.id.index)) }
        ensures { GrowsBy self.old self.new result (with_hoisted owner start) }
    {
        let target = &mut self.modules[owner.id.index];
        target.hoist(start)?;
        Ok(())
    }
}
