//! Statements of blocks: assignments, comments, texts and blank lines (IEEE 1800-2017, 10.4), as in the crate
//! `xlsynth-vast`, and calls and loops, which that crate has not.

ghost use Rattle.std.specs.Prelude.{true, false};
ghost use Rattle.vast_core.specs.Bench.{OwnsBlock, OwnsExpr};
ghost use Rattle.vast_core.specs.declared.node.Statement.TheVariants.{Assignment as AssignStatement, Continuous as ContinuousStatement, Task as TaskStatement, BlankLine as BlankStatement, Comment as CommentStatement, Inline as InlineStatement};
ghost use Rattle.vast_core.specs.Growth.{Builds, Leaves, with_assignment};
ghost use Rattle.vast_core.specs.Artifacts.{next_statement};
ghost use Rattle.vast_core.specs.Containers.{next_block, with_statement, with_for};
ghost use Rattle.xlsynth_vast.specs.Keeps.{Keeps};

use crate::file::VastFile;
use std::alloc::AllocError;
use vast_core::{
    AssignmentForm, Expr, InsertionPoint, Statement, VastStatement, VastStatementBlock,
};
use vast_names::{Text, Word};

impl VastFile {
    /// The assignment `lhs = rhs`, as the block's last statement.
    ///
    /// # Errors
    /// `AllocError` where a growth was refused; the file is unchanged.
    pub fn block_add_blocking_assignment(
        &mut self,
        block: VastStatementBlock,
        lhs: &Expr,
        rhs: &Expr,
    ) -> Result<VastStatement, AllocError>
        requires block { OwnsBlock self.old block }
        requires lhs { OwnsExpr self.old lhs.now }
        requires rhs { OwnsExpr self.old rhs.now }
        ensures built { Builds self.old self.new result next_statement
            (λ b. with_statement block (AssignStatement (next_statement b))
            (with_assignment (record { lhs = lhs.now; rhs = rhs.now; nonblocking = false })
            b)) }
        ensures kept { Keeps self.old self.new }
    {
        let point = InsertionPoint::Block(block);
        self.ast
            .append_assignment(point, AssignmentForm::Blocking, *lhs, *rhs)
    }

    /// The assignment `lhs <= rhs`, as the block's last statement.
    ///
    /// # Errors
    /// `AllocError` where a growth was refused; the file is unchanged.
    pub fn block_add_nonblocking_assignment(
        &mut self,
        block: VastStatementBlock,
        lhs: &Expr,
        rhs: &Expr,
    ) -> Result<VastStatement, AllocError>
        requires block { OwnsBlock self.old block }
        requires lhs { OwnsExpr self.old lhs.now }
        requires rhs { OwnsExpr self.old rhs.now }
        ensures built { Builds self.old self.new result next_statement
            (λ b. with_statement block (AssignStatement (next_statement b))
            (with_assignment (record { lhs = lhs.now; rhs = rhs.now; nonblocking = true }) b)) }
        ensures kept { Keeps self.old self.new }
    {
        let point = InsertionPoint::Block(block);
        self.ast
            .append_assignment(point, AssignmentForm::Nonblocking, *lhs, *rhs)
    }

    /// The assignment `assign lhs = rhs`, as the block's last statement.
    ///
    /// # Errors
    /// `AllocError` where a growth was refused; the file is unchanged.
    pub fn block_add_continuous_assignment(
        &mut self,
        block: VastStatementBlock,
        lhs: &Expr,
        rhs: &Expr,
    ) -> Result<VastStatement, AllocError>
        requires block { OwnsBlock self.old block }
        requires lhs { OwnsExpr self.old lhs.now }
        requires rhs { OwnsExpr self.old rhs.now }
        ensures built { Builds self.old self.new result next_statement
            (λ b. with_statement block (ContinuousStatement (next_statement b))
            (with_assignment (record { lhs = lhs.now; rhs = rhs.now; nonblocking = false })
            b)) }
        ensures kept { Keeps self.old self.new }
    {
        let point = InsertionPoint::Block(block);
        self.ast
            .append_assignment(point, AssignmentForm::Continuous, *lhs, *rhs)
    }

    /// The statement `f(a, b);` of a call, as the block's last: a task's or a system task's, made by
    /// [`VastFile::make_function_call`], or the use of a macro. The original crate lacks it.
    ///
    /// # Errors
    /// `AllocError` where a growth was refused; the file is unchanged.
    pub fn block_add_task_call(
        &mut self,
        block: VastStatementBlock,
        call: &Expr,
    ) -> Result<(), AllocError>
        requires block { OwnsBlock self.old block }
        requires call { OwnsExpr self.old call.now }
        ensures built { Leaves self.old self.new result
            (with_statement block (TaskStatement call.now)) }
        ensures kept { Keeps self.old self.new }
    {
        self.ast.append_statement(block, Statement::Task(*call))
    }

    /// A loop with an empty block, as the block's last statement, whose index of this name runs from `start` on while
    /// it is below `end`: `for (int i = start; i < end; i = i + 1)`. It returns the loop's block;
    /// [`VastFile::make_name`] makes the index as an expression. The original crate lacks it.
    ///
    /// # Errors
    /// `AllocError` where a growth was refused; the file is unchanged.
    pub fn block_add_for(
        &mut self,
        block: VastStatementBlock,
        name: &str,
        start: &Expr,
        end: &Expr,
    ) -> Result<VastStatementBlock, AllocError>
        requires block { OwnsBlock self.old block }
        requires start { OwnsExpr self.old start.now }
        requires end { OwnsExpr self.old end.now }
        ensures built { Builds self.old self.new result next_block
            (with_for block name.now start.now end.now) }
        ensures kept { Keeps self.old self.new }
    {
        let index = Word::new(self.ast.allocator(), name)?;
        self.ast.append_block_for(block, index, *start, *end)
    }

    /// A comment, as the block's last statement; each line of the text becomes a line of its own.
    ///
    /// # Errors
    /// `AllocError` where a growth was refused; the file is unchanged.
    pub fn block_add_comment_text(
        &mut self,
        block: VastStatementBlock,
        text: &str,
    ) -> Result<(), AllocError>
        requires { OwnsBlock self.old block }
        ensures built { Leaves self.old self.new result
            (with_statement block (CommentStatement text.now)) }
        ensures kept { Keeps self.old self.new }
    {
        let text = Text::new(self.ast.allocator(), text)?;
        self.ast.append_statement(block, Statement::Comment(text))
    }

    /// A text that is written as it is, as the block's last statement.
    ///
    /// # Errors
    /// `AllocError` where a growth was refused; the file is unchanged.
    pub fn block_add_inline_text(
        &mut self,
        block: VastStatementBlock,
        text: &str,
    ) -> Result<(), AllocError>
        requires { OwnsBlock self.old block }
        ensures built { Leaves self.old self.new result
            (with_statement block (InlineStatement text.now)) }
        ensures kept { Keeps self.old self.new }
    {
        let text = Text::new(self.ast.allocator(), text)?;
        self.ast.append_statement(block, Statement::Inline(text))
    }

    /// A blank line, as the block's last statement.
    ///
    /// # Errors
    /// `AllocError` where a growth was refused; the file is unchanged.
    pub fn block_add_blank_line(&mut self, block: VastStatementBlock) -> Result<(), AllocError>
        requires { OwnsBlock self.old block }
        ensures built { Leaves self.old self.new result (with_statement block BlankStatement) }
        ensures kept { Keeps self.old self.new }
    {
        self.ast.append_statement(block, Statement::BlankLine)
    }
}
