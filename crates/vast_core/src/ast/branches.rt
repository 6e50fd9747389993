//! Conditionals, case statements and loops of blocks.

ghost use Rattle.std.specs.Prelude.{◌≡◌, ◌<◌, ◌^◌, false, Some, slice_get, IfSome};
ghost use Rattle.vast_core.specs.Nests.{nest_record, conditional_record, case_record, ConditionalNestRecord, CaseNestRecord, CasesStatement};
ghost use Rattle.vast_core.specs.Bench.{OwnsBlock, OwnsExpr, OwnsConditional, OwnsCase, tree_of};
ghost use Rattle.vast_core.specs.Sound.{ConditionalSound, CaseSound};
ghost use Rattle.vast_core.specs.FileTree.{ConditionalFamily, CaseFamily, families, block_tree, alternates_tree, case_arms_tree};
ghost use Rattle.vast_literal.specs.Tree.{CaseTree};
ghost use Rattle.vast_core.specs.Growth.{Grows, GrowsBy};
ghost use Rattle.vast_core.specs.Containers.{new_conditional, with_nest_entry, with_block, with_statement, next_case, with_case, next_block, with_else_if, with_else, with_case_arm, with_for, has_else, with_unique, with_case_unique};
ghost use Rattle.vast_core.specs.Internal.Containers.{InNest, GrowthSound, fresh_block};
ghost use Rattle.vast_core.specs.Internal.Arrivals.{entry_of};
ghost use Rattle.vast_core.specs.View.{bench};

use crate::ast::Ast;
use crate::ast::arrivals::{Node, Terms};
use crate::ast::growth::{Entry, Place};
use crate::handle::{CaseStatement, Conditional, Expr, VastStatementBlock};
use crate::node::{CaseArm, CaseNode, ConditionalNode, ElseIf, ForLoop, ForParts, Nest, Statement};
use std::alloc::AllocError;
use vast_literal::CaseKind;
use vast_names::Word;

impl Nest {
    fn set_unique(&mut self, unique: bool)
        ensures { nest_record self.new ≡ with_unique unique (nest_record self.old) }
    {
        if let Nest::Case(node) = self {
            node.unique = unique;
        }
    }
}

impl Ast {
    /// Makes the case statement `unique`, or not. It takes no memory.
    pub fn case_set_unique(&mut self, c: CaseStatement, unique: bool)
        requires { OwnsCase (bench self.old) c }
        ensures { bench self.new ≡ with_case_unique c unique (bench self.old) }
    {
        let target = &mut self.nests[c.id.index];
        target.set_unique(unique);
    }

    /// A conditional whose first arm is the block after the next container.
    pub(crate) fn new_conditional(&self, condition: Expr) -> Nest
        ensures { nest_record result ≡ new_conditional (bench self.now) condition }
    {
        Nest::Conditional(ConditionalNode {
            condition,
            consequent: VastStatementBlock {
                id: self.second_nest(),
            },
            else_ifs: Vec::new(self.alloc),
            otherwise: None,
        })
    }

    /// Appends a case statement without arms to the block.
    ///
    /// # Errors
    /// `AllocError` where a growth was refused; nothing changed.
    #[tactic(auto, using(crate::proofs::Enters::enters))]
    pub fn append_block_case(
        &mut self,
        owner: VastStatementBlock,
        kind: CaseKind,
        selector: Expr,
    ) -> Result<CaseStatement, AllocError>
        requires owner { OwnsBlock (bench self.old) owner }
        requires selector { OwnsExpr (bench self.old) selector }
        ensures { Grows self.old self.new result next_case
            (λ b. with_statement owner (CasesStatement (next_case b)) (with_case kind selector b)) }
    {
        let case = CaseStatement {
            id: self.next_nest(),
        };
        let node = CaseNode {
            kind,
            unique: false,
            selector,
            arms: Vec::new(self.alloc),
        };
        self.grow(
            Place::Nest(owner.id.index, Entry::Statement(Statement::Case(case))),
            Terms::Nothing,
            Node::Container(Nest::Case(node)),
            false,
        )?;
        Ok(case)
    }

    /// Adds an entry that names the next block, and that block, which is empty.
    fn grow_with_block(&mut self, place: usize, entry: Entry) -> Result<(), AllocError>
        requires { GrowthSound (bench self.old) (InNest place (entry_of entry)) fresh_block }
        ensures { GrowsBy self.old self.new result
            (λ b. with_nest_entry place (entry_of entry) (with_block b)) }
    {
        self.grow(
            Place::Nest(place, entry),
            Terms::Nothing,
            Node::Nothing,
            true,
        )
    }

    /// Adds an arm `else if` to the conditional, and returns its block, which is empty. The conditional has no `else`
    /// yet ([`Ast::conditional_has_else`]).
    ///
    /// # Errors
    /// `AllocError` where a growth was refused; nothing changed.
    #[tactic(auto, using(crate::proofs::Enters::enters))]
    pub fn conditional_add_else_if(
        &mut self,
        owner: Conditional,
        condition: Expr,
    ) -> Result<VastStatementBlock, AllocError>
        requires owner { OwnsConditional (bench self.old) owner }
        requires condition { OwnsExpr (bench self.old) condition }
        requires no_else { has_else (slice_get (bench self.old).nests owner.id.index)
            ≡ false }
        ensures { Grows self.old self.new result next_block (with_else_if owner condition) }
    {
        let block = VastStatementBlock {
            id: self.next_nest(),
        };
        self.grow_with_block(owner.id.index, Entry::ElseIf(ElseIf { condition, block }))?;
        Ok(block)
    }

    /// Adds the `else` to the conditional, and returns its block, which is empty. The conditional has none yet
    /// ([`Ast::conditional_has_else`]).
    ///
    /// # Errors
    /// `AllocError` where a growth was refused; nothing changed.
    #[tactic(auto, using(crate::proofs::Enters::enters))]
    pub fn conditional_add_else(
        &mut self,
        owner: Conditional,
    ) -> Result<VastStatementBlock, AllocError>
        requires owner { OwnsConditional (bench self.old) owner }
        requires no_else { has_else (slice_get (bench self.old).nests owner.id.index)
            ≡ false }
        ensures { Grows self.old self.new result next_block (with_else owner) }
    {
        let block = VastStatementBlock {
            id: self.next_nest(),
        };
        self.grow_with_block(owner.id.index, Entry::Else(block))?;
        Ok(block)
    }

    /// Adds an arm to the case statement, a default where it has no label, and returns its block, which is empty.
    ///
    /// # Errors
    /// `AllocError` where a growth was refused; nothing changed.
    #[tactic(auto, using(crate::proofs::Enters::enters))]
    pub fn case_add_arm(
        &mut self,
        owner: CaseStatement,
        label: Option<Expr>,
    ) -> Result<VastStatementBlock, AllocError>
        requires owner { OwnsCase (bench self.old) owner }
        requires label { IfSome label (OwnsExpr (bench self.old)) }
        ensures { Grows self.old self.new result next_block (with_case_arm owner label) }
    {
        let block = VastStatementBlock {
            id: self.next_nest(),
        };
        self.grow_with_block(owner.id.index, Entry::CaseArm(CaseArm { label, block }))?;
        Ok(block)
    }

    /// Appends a loop to the block, whose index runs from `start` on while it is below `end`, and returns the loop's
    /// block, which is empty.
    ///
    /// # Errors
    /// `AllocError` where a growth was refused; nothing changed.
    #[tactic(auto, using(crate::proofs::Enters::enters))]
    pub fn append_block_for(
        &mut self,
        owner: VastStatementBlock,
        index: Word,
        start: Expr,
        end: Expr,
    ) -> Result<VastStatementBlock, AllocError>
        requires owner { OwnsBlock (bench self.old) owner }
        requires start { OwnsExpr (bench self.old) start }
        requires end { OwnsExpr (bench self.old) end }
        ensures { Grows self.old self.new result next_block (with_for owner index start end) }
    {
        let block = VastStatementBlock {
            id: self.next_nest(),
        };
        let parts = ForParts {
            index,
            start,
            end,
            block,
        };
        let statement = Statement::For(ForLoop::new(self.alloc, parts)?);
        self.grow_with_block(owner.id.index, Entry::Statement(statement))?;
        Ok(block)
    }

    /// The parts of a conditional. They are the file's, and its blocks are newer than it.
    pub fn conditional(&self, c: Conditional) -> &ConditionalNode
        requires { OwnsConditional (bench self.now) c }
        ensures there { slice_get (bench self.now).nests c.id.index
            ≡ Some (ConditionalNestRecord (conditional_record result.now)) }
        ensures tree { families (bench self.now) c.id.index
            ≡ ConditionalFamily (tree_of (bench self.now) result.now.condition)
            (block_tree (bench self.now) result.now.consequent)
            (alternates_tree (bench self.now) result.now.else_ifs.items result.now.otherwise) }
        ensures sound { ConditionalSound (bench self.now) c.id.index
            (conditional_record result.now) }
        ensures small { c.id.index < 2 ^ 63 }
    {
        match self.nest_at(c.id.index) {
            Some(Nest::Conditional(node)) => node,
            _ => unreachable!(),
        }
    }

    /// Whether the conditional has an `else`.
    pub fn conditional_has_else(&self, c: Conditional) -> bool
        requires { OwnsConditional (bench self.now) c }
        ensures { result ≡ has_else (slice_get (bench self.now).nests c.id.index) }
    {
        self.conditional(c).otherwise.is_some()
    }

    /// The parts of a case statement. They are the file's, and its blocks are newer than it.
    pub fn case(&self, c: CaseStatement) -> &CaseNode
        requires { OwnsCase (bench self.now) c }
        ensures there { slice_get (bench self.now).nests c.id.index
            ≡ Some (CaseNestRecord (case_record result.now)) }
        ensures tree { families (bench self.now) c.id.index
            ≡ CaseFamily
            (CaseTree result.now.unique result.now.kind
            (tree_of (bench self.now) result.now.selector)
            (case_arms_tree (bench self.now) result.now.arms.items)) }
        ensures sound { CaseSound (bench self.now) c.id.index (case_record result.now) }
        ensures small { c.id.index < 2 ^ 63 }
    {
        match self.nest_at(c.id.index) {
            Some(Nest::Case(node)) => node,
            _ => unreachable!(),
        }
    }
}
