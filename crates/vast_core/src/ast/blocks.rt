//! Blocks: their statements, and calls that append to them.

ghost use Rattle.std.specs.Prelude.{[], ◌≡◌, ◌<◌, ◌^◌, All, Some, slice_get};
ghost use Rattle.vast_core.specs.Nests.{BlockRecord};
ghost use Rattle.vast_core.specs.Parents.{held_by_statement};
ghost use Rattle.vast_core.specs.Bench.{OwnsBlock};
ghost use Rattle.vast_core.specs.Sound.{StatementSound};
ghost use Rattle.vast_core.specs.FileTree.{block_tree, statements_tree};
ghost use Rattle.vast_core.specs.Growth.{GrowsBy};
ghost use Rattle.vast_core.specs.Containers.{with_statement};
ghost use Rattle.vast_core.specs.View.{bench};

use crate::ast::Ast;
use crate::ast::arrivals::{Node, Terms};
use crate::ast::growth::{Entry, Place};
use crate::handle::VastStatementBlock;
use crate::node::{Nest, Statement};
use std::alloc::AllocError;

impl Ast {
    /// Appends a statement to the block: an assignment, a comment, a text or a blank line.
    ///
    /// # Errors
    /// `AllocError` where a growth was refused; nothing changed.
    #[tactic(auto, using(crate::proofs::Enters::enters))]
    pub fn append_statement(
        &mut self,
        owner: VastStatementBlock,
        statement: Statement,
    ) -> Result<(), AllocError>
        requires owner { OwnsBlock (bench self.old) owner }
        requires statement { StatementSound (bench self.old) owner.id.index
            statement }
        requires no_part { held_by_statement statement ≡ [] }
        ensures { GrowsBy self.old self.new result
            (with_statement owner statement) }
    {
        self.grow(
            Place::Nest(owner.id.index, Entry::Statement(statement)),
            Terms::Nothing,
            Node::Nothing,
            false,
        )
    }

    /// The statements of a block, in order. What they are made of is the file's, and newer than the block.
    pub fn block(&self, b: VastStatementBlock) -> &[Statement]
        requires { OwnsBlock (bench self.now) b }
        ensures there { slice_get (bench self.now).nests b.id.index
            ≡ Some (BlockRecord result.now) }
        ensures tree { block_tree (bench self.now) b
            ≡ statements_tree (bench self.now) result.now }
        ensures sound { All
            (StatementSound (bench self.now) b.id.index) result.now }
        ensures small { b.id.index < 2 ^ 63 }
    {
        match self.nest_at(b.id.index) {
            Some(Nest::Block(statements)) => statements,
            _ => unreachable!(),
        }
    }
}
