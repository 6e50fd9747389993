//! The detached block: one that nothing holds yet, for an always block to take.

ghost use Rattle.std.specs.Prelude.{◌≡◌};
ghost use Rattle.vast_core.specs.Growth.{Grows};
ghost use Rattle.vast_core.specs.Containers.{next_block, with_detached_block};
ghost use Rattle.vast_core.specs.Internal.Containers.{detached_left};
ghost use Rattle.vast_core.specs.View.{bench};

use crate::ast::Ast;
use crate::ast::arrivals::{Node, Terms};
use crate::ast::growth::Place;
use crate::handle::VastStatementBlock;
use std::alloc::AllocError;

impl Ast {
    /// Makes an empty block, which nothing holds yet: the file's detached one from then on.
    ///
    /// # Errors
    /// `AllocError` where a growth was refused; nothing changed.
    #[tactic(auto, using(crate::proofs::Unattached::enters_over))]
    pub fn push_block(&mut self) -> Result<VastStatementBlock, AllocError>
        ensures { Grows self.old self.new result next_block with_detached_block }
    {
        let block = VastStatementBlock {
            id: self.next_nest(),
        };
        self.grow(Place::Detached(block), Terms::Nothing, Node::Nothing, true)?;
        Ok(block)
    }

    /// The file's detached block, where it has one.
    #[tactic(auto, unfolding(crate::specs::View::bench))]
    pub fn detached_block(&self) -> Option<VastStatementBlock>
        ensures { result ≡ (bench self.now).detached }
    {
        self.detached
    }
}

/// The detached block, unless it is used.
#[inline(always)]
pub(crate) fn detached_left(
    used: bool,
    detached: Option<VastStatementBlock>,
) -> Option<VastStatementBlock>
    ensures { result ≡ detached_left used detached }
{
    if used { None } else { detached }
}
