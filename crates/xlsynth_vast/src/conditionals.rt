//! Conditionals, among members and in blocks (IEEE 1800-2017, 12.4), as in the crate `xlsynth-vast`.

ghost use Rattle.std.specs.Prelude.{◌≡◌, false, Some, slice_get};
ghost use Rattle.vast_core.specs.Bench.{OwnsModule, OwnsBlock, OwnsExpr, OwnsConditional};
ghost use Rattle.vast_core.specs.declared.node.Member.TheVariants.{Conditional as ConditionalEntry};
ghost use Rattle.vast_core.specs.declared.node.Statement.TheVariants.{Conditional as ConditionalStatement};
ghost use Rattle.vast_core.specs.Growth.{Builds, with_member};
ghost use Rattle.vast_core.specs.Containers.{next_block, next_conditional, with_conditional, with_statement, with_else_if, with_else, has_else};
ghost use Rattle.xlsynth_vast.specs.Keeps.{Keeps};
ghost use Rattle.xlsynth_vast.specs.Inspections.{then_block_at};

use crate::file::VastFile;
use std::alloc::AllocError;
use vast_core::{Conditional, Expr, InsertionPoint, Scope, VastModule, VastStatementBlock};

impl VastFile {
    /// A conditional with an empty block, as the module's last member.
    ///
    /// # Errors
    /// `AllocError` where a growth was refused; the file is unchanged.
    pub fn add_conditional(
        &mut self,
        owner: VastModule,
        condition: &Expr,
    ) -> Result<Conditional, AllocError>
        requires owner { OwnsModule self.old owner }
        requires condition { OwnsExpr self.old condition.now }
        ensures built { Builds self.old self.new result next_conditional
            (λ b. with_member owner (ConditionalEntry (next_conditional b))
            (with_conditional condition.now b)) }
        ensures kept { Keeps self.old self.new }
    {
        self.ast
            .push_conditional(InsertionPoint::Scope(Scope::Module(owner)), *condition)
    }

    /// A conditional with an empty block, as the block's last statement.
    ///
    /// # Errors
    /// `AllocError` where a growth was refused; the file is unchanged.
    pub fn block_add_cond(
        &mut self,
        block: VastStatementBlock,
        condition: &Expr,
    ) -> Result<Conditional, AllocError>
        requires block { OwnsBlock self.old block }
        requires condition { OwnsExpr self.old condition.now }
        ensures built { Builds self.old self.new result next_conditional
            (λ b. with_statement block (ConditionalStatement (next_conditional b))
            (with_conditional condition.now b)) }
        ensures kept { Keeps self.old self.new }
    {
        self.ast
            .push_conditional(InsertionPoint::Block(block), *condition)
    }

    /// The block of the conditional's first arm, which is the file's.
    pub fn conditional_then_block(&self, conditional: Conditional) -> VastStatementBlock
        requires { OwnsConditional self.now conditional }
        ensures block { then_block_at self.now conditional ≡ Some result }
        ensures owned { OwnsBlock self.now result }
    {
        self.ast.conditional(conditional).consequent
    }

    /// Whether the conditional has an `else`: where it has none, it may be given another arm.
    pub fn conditional_has_else(&self, conditional: Conditional) -> bool
        requires { OwnsConditional self.now conditional }
        ensures { result
            ≡ has_else (slice_get self.now.nests conditional.id.index) }
    {
        self.ast.conditional_has_else(conditional)
    }

    /// An arm `else if` with an empty block, as the conditional's last; returns the block. The conditional has no
    /// `else` yet; [`VastFile::conditional_has_else`] is the test.
    ///
    /// # Errors
    /// `AllocError` where a growth was refused; the file is unchanged.
    pub fn conditional_add_else_if(
        &mut self,
        conditional: Conditional,
        condition: &Expr,
    ) -> Result<VastStatementBlock, AllocError>
        requires conditional { OwnsConditional self.old conditional }
        requires condition { OwnsExpr self.old condition.now }
        requires no_else { has_else
            (slice_get self.old.nests conditional.id.index) ≡ false }
        ensures built { Builds self.old self.new result next_block
            (with_else_if conditional condition.now) }
        ensures kept { Keeps self.old self.new }
    {
        self.ast.conditional_add_else_if(conditional, *condition)
    }

    /// The conditional's `else` with an empty block; returns the block. The conditional has none yet;
    /// [`VastFile::conditional_has_else`] is the test.
    ///
    /// # Errors
    /// `AllocError` where a growth was refused; the file is unchanged.
    pub fn conditional_add_else(
        &mut self,
        conditional: Conditional,
    ) -> Result<VastStatementBlock, AllocError>
        requires conditional { OwnsConditional self.old conditional }
        requires no_else { has_else
            (slice_get self.old.nests conditional.id.index) ≡ false }
        ensures built { Builds self.old self.new result next_block (with_else conditional) }
        ensures kept { Keeps self.old self.new }
    {
        self.ast.conditional_add_else(conditional)
    }
}
