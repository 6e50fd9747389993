//! What has members: modules and generate loops.

ghost use Rattle.std.specs.Prelude.{◌≡◌};
ghost use Rattle.vast_core.specs.Scopes.{OwnsScope, IsShared, with_scope_member};
ghost use Rattle.vast_core.specs.Internal.Scopes.{listing_in};
ghost use Rattle.vast_core.specs.Internal.Arrivals.{listing_of, fresh_of};
ghost use Rattle.vast_core.specs.Growth.{GrowsBy};
ghost use Rattle.vast_core.specs.Internal.Containers.{GrowthSound, with_fresh};
ghost use Rattle.vast_core.specs.Sound.{MemberSound};
ghost use Rattle.vast_core.specs.View.{bench};

use crate::ast::Ast;
use crate::ast::arrivals::{Node, Terms};
use crate::ast::growth::{Entry, ModuleEntry, Place};
use crate::handle::{GenerateLoop, VastModule};
use crate::node::Member;
use std::alloc::AllocError;

/// What has members: a module or a generate loop.
#[derive(Clone, Copy, Debug, PartialEq, Eq)]
pub enum Scope {
    /// A module.
    Module(VastModule),
    /// A generate loop.
    Loop(GenerateLoop),
}

impl<'a> Place<'a> {
    /// At the end of the scope's members, without a name.
    #[inline(always)]
    pub(crate) fn in_scope(scope: Scope, member: Member) -> Place<'a>
        ensures { listing_of result ≡ listing_in scope member }
    {
        match scope {
            Scope::Module(owner) => Place::Module(owner, ModuleEntry::Member(member, None)),
            Scope::Loop(owner) => Place::Nest(owner.id.index, Entry::Member(member)),
        }
    }
}

impl Ast {
    /// Adds the member at the end of the scope's, and the nodes that come with it.
    ///
    /// # Errors
    /// `AllocError` where a growth was refused; nothing changed.
    #[inline(always)]
    pub(crate) fn grow_in(
        &mut self,
        scope: Scope,
        member: Member,
        terms: Terms,
        node: Node,
        block: bool,
    ) -> Result<(), AllocError>
        requires { GrowthSound (bench self.old) (listing_in scope member)
            (fresh_of terms node block) }
        ensures { GrowsBy self.old self.new result
            (λ b. with_scope_member scope member
            (with_fresh (fresh_of terms node block) b)) }
    {
        self.grow(Place::in_scope(scope, member), terms, node, block)
    }

    /// Appends a member to the scope's: an assignment, a parameter, a blank line, a comment, an import, a text, a use of a
    /// macro or an instantiation. The same may be appended again, anywhere.
    ///
    /// # Errors
    /// `AllocError` where a growth was refused; nothing changed.
    #[tactic(auto, using(crate::proofs::EntersScopes::enters_scopes))]
    pub fn append_member(&mut self, scope: Scope, member: Member) -> Result<(), AllocError>
        requires scope { OwnsScope (bench self.old) scope }
        requires member { MemberSound (bench self.old) member }
        requires shared { IsShared member }
        ensures { GrowsBy self.old self.new result (with_scope_member scope member) }
    {
        match scope {
            Scope::Module(owner) => self.grow_listed(owner, member),
            Scope::Loop(_) => self.grow_in(scope, member, Terms::Nothing, Node::Nothing, false),
        }
    }
}
