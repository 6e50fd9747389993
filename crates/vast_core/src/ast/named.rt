//! Growths of the members of a module by plain pushes: most of what a file holds comes so, and the growth of anything moves
//! several times as much.

ghost use Rattle.std.specs.Prelude.{Some, None};
ghost use Rattle.vast_core.specs.Internal.Containers.{MembersGain, InModule, GrowthSound, after_growth, no_fresh};
ghost use Rattle.vast_core.specs.Internal.Fresh.{fresh_term};
ghost use Rattle.vast_core.specs.Growth.{GrowsBy};
ghost use Rattle.vast_core.specs.View.{bench};

use crate::ast::Ast;
use crate::ast::growth::{ModuleEntry, enter_module};
use crate::handle::VastModule;
use crate::node::{ExprNode, Member};
use std::alloc::AllocError;

impl Ast {
    /// Adds a member that declares a name to a module, and the name as an expression.
    ///
    /// # Errors
    /// `AllocError` where a growth was refused; nothing changed.
    pub(crate) fn grow_named(
        &mut self,
        owner: VastModule,
        member: Member,
        name: &str,
        node: ExprNode,
    ) -> Result<(), AllocError>
        requires { GrowthSound (bench self.old)
            (InModule owner (MembersGain member (Some name.now))) (fresh_term node) }
        ensures { GrowsBy self.old self.new result
            (after_growth (InModule owner (MembersGain member (Some name.now)))
            (fresh_term node)) }
    {
        self.terms.reserve(1)?;
        enter_module(
            &mut self.modules,
            owner,
            ModuleEntry::Member(member, Some(name)),
        )?;
        self.terms.push(node).unwrap();
        Ok(())
    }

    /// Adds a member to a module, and no node.
    ///
    /// # Errors
    /// `AllocError` where a growth was refused; nothing changed.
    pub(crate) fn grow_listed(
        &mut self,
        owner: VastModule,
        member: Member,
    ) -> Result<(), AllocError>
        requires { GrowthSound (bench self.old) (InModule owner (MembersGain member None)) no_fresh }
        ensures { GrowsBy self.old self.new result
            (after_growth (InModule owner (MembersGain member None)) no_fresh) }
    {
        enter_module(&mut self.modules, owner, ModuleEntry::Member(member, None))?;
        Ok(())
    }
}
