//! Always blocks.

ghost use Rattle.std.specs.Prelude.{◌≡◌, All, Some, [], slice_get};
ghost use Rattle.vast_literal.specs.declared.kind.AlwaysKind.TheVariants.{AlwaysFF};
ghost use Rattle.vast_core.specs.Records.{AlwaysEntry};
ghost use Rattle.vast_core.specs.Nests.{always_record};
ghost use Rattle.vast_core.specs.Bench.{OwnsAlways, OwnsBlock};
ghost use Rattle.vast_core.specs.Sound.{EventSound};
ghost use Rattle.vast_core.specs.Growth.{Grows};
ghost use Rattle.vast_core.specs.Loops.{next_always, with_always};
ghost use Rattle.vast_core.specs.Unattached.{with_always_over};
ghost use Rattle.vast_core.specs.Scopes.{OwnsScope, IsOlder, with_scope_member};
ghost use Rattle.vast_core.specs.View.{bench};

use crate::ast::Ast;
use crate::ast::arrivals::{Node, Terms};
use crate::ast::scope::Scope;
use crate::handle::{Expr, VastAlwaysBase, VastStatementBlock};
use crate::node::{AlwaysBlock, Member};
use std::alloc::AllocError;
use vast_literal::AlwaysKind;

impl Ast {
    /// Adds an always block of the kind as the scope's last member, with these events and an empty block. Each event is an
    /// edge or a name ([`Ast::first_wrong_event`]).
    ///
    /// # Errors
    /// `AllocError` where a growth was refused; nothing changed.
    #[tactic(auto, using(crate::proofs::EntersScopes::enters_scopes))]
    pub fn push_always(
        &mut self,
        scope: Scope,
        kind: AlwaysKind,
        events: Vec<Expr>,
    ) -> Result<VastAlwaysBase, AllocError>
        requires scope { OwnsScope (bench self.old) scope }
        requires events { All (EventSound (bench self.old)) events.items }
        ensures { Grows self.old self.new result next_always
            (λ b. with_scope_member scope (AlwaysEntry (next_always b))
            (with_always kind events.items b)) }
    {
        let always_block = VastAlwaysBase {
            id: self.next_always_block(),
        };
        let block = VastStatementBlock {
            id: self.next_nest(),
        };
        self.grow_in(
            scope,
            Member::Always(always_block),
            Terms::Nothing,
            Node::Always(AlwaysBlock {
                kind,
                events,
                block,
            }),
            true,
        )?;
        Ok(always_block)
    }

    /// Adds an always block of the kind as the scope's last member, without events and with an empty block.
    ///
    /// # Errors
    /// `AllocError` where a growth was refused; nothing changed.
    pub fn push_unclocked(
        &mut self,
        scope: Scope,
        kind: AlwaysKind,
    ) -> Result<VastAlwaysBase, AllocError>
        requires { OwnsScope (bench self.old) scope }
        ensures { Grows self.old self.new result next_always
            (λ b. with_scope_member scope (AlwaysEntry (next_always b))
            (with_always kind [] b)) }
    {
        let events = Vec::new(self.alloc);
        self.push_always(scope, kind, events)
    }

    /// Adds an `always_ff` block as the scope's last member, with these events, over the file's detached block
    /// ([`Ast::detached_block`]), which a loop must be older than. Each event is an edge or a name.
    ///
    /// # Errors
    /// `AllocError` where a growth was refused; nothing changed.
    pub fn push_always_ff_over(
        &mut self,
        scope: Scope,
        events: Vec<Expr>,
        block: VastStatementBlock,
    ) -> Result<VastAlwaysBase, AllocError>
        requires scope { OwnsScope (bench self.old) scope }
        requires events { All (EventSound (bench self.old)) events.items }
        requires detached { (bench self.old).detached ≡ Some block }
        requires older { IsOlder scope block }
        ensures { Grows self.old self.new result next_always
            (λ b. with_scope_member scope (AlwaysEntry (next_always b))
            (with_always_over AlwaysFF events.items block b)) }
    {
        self.file_is_sound();
        let always_block = VastAlwaysBase {
            id: self.next_always_block(),
        };
        self.grow_in(
            scope,
            Member::Always(always_block),
            Terms::Nothing,
            Node::AlwaysOverDetached(AlwaysBlock {
                kind: AlwaysKind::AlwaysFF,
                events,
                block,
            }),
            false,
        )?;
        Ok(always_block)
    }

    /// An always block. Its events and its block are the file's.
    pub fn always_block(&self, a: VastAlwaysBase) -> &AlwaysBlock
        requires { OwnsAlways (bench self.now) a }
        ensures there { slice_get (bench self.now).always_blocks a.id.index
            ≡ Some (always_record result.now) }
        ensures events { All (EventSound (bench self.now)) result.now.events.items }
        ensures block { OwnsBlock (bench self.now) result.now.block }
    {
        &self.always_blocks[a.id.index]
    }
}
