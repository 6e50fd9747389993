//! Operators and edges before one operand.

ghost use Rattle.vast_literal.specs.declared.operator.UnaryOperator.TheVariants.{Negate as NegateOp, BitwiseNot as BitwiseNotOp, LogicalNot as LogicalNotOp, AndReduce as AndReduceOp, OrReduce as OrReduceOp, XorReduce as XorReduceOp};
ghost use Rattle.vast_literal.specs.Tree.{NegEdgeTree, PosEdgeTree};
ghost use Rattle.vast_core.specs.Bench.{OwnsExpr, tree_of};
ghost use Rattle.vast_core.specs.Growth.{Builds, next_expr, with_expr};
ghost use Rattle.xlsynth_vast.specs.Keeps.{Keeps};
ghost use Rattle.xlsynth_vast.specs.Expressions.{with_unary};

use crate::file::VastFile;
use std::alloc::AllocError;
use vast_core::{Expr, ExprNode, UnaryOperator};

impl VastFile {
    /// The bitwise complement `~a`, as [`VastFile::make_bitwise_not`] makes it.
    ///
    /// # Errors
    /// `AllocError` where a growth was refused; the file is unchanged.
    pub fn make_not(&mut self, expression: &Expr) -> Result<Expr, AllocError>
        requires { OwnsExpr self.old expression.now }
        ensures built { Builds self.old self.new result next_expr
            (with_unary BitwiseNotOp expression.now) }
        ensures kept { Keeps self.old self.new }
    {
        self.make_bitwise_not(expression)
    }

    /// The bitwise complement `~a`.
    ///
    /// # Errors
    /// `AllocError` where a growth was refused; the file is unchanged.
    pub fn make_bitwise_not(&mut self, expression: &Expr) -> Result<Expr, AllocError>
        requires { OwnsExpr self.old expression.now }
        ensures built { Builds self.old self.new result next_expr
            (with_unary BitwiseNotOp expression.now) }
        ensures kept { Keeps self.old self.new }
    {
        self.push_expr(ExprNode::Unary(UnaryOperator::BitwiseNot, *expression))
    }

    /// The negation `-a`.
    ///
    /// # Errors
    /// `AllocError` where a growth was refused; the file is unchanged.
    pub fn make_negate(&mut self, expression: &Expr) -> Result<Expr, AllocError>
        requires { OwnsExpr self.old expression.now }
        ensures built { Builds self.old self.new result next_expr
            (with_unary NegateOp expression.now) }
        ensures kept { Keeps self.old self.new }
    {
        self.push_expr(ExprNode::Unary(UnaryOperator::Negate, *expression))
    }

    /// The logical complement `!a`.
    ///
    /// # Errors
    /// `AllocError` where a growth was refused; the file is unchanged.
    pub fn make_logical_not(&mut self, expression: &Expr) -> Result<Expr, AllocError>
        requires { OwnsExpr self.old expression.now }
        ensures built { Builds self.old self.new result next_expr
            (with_unary LogicalNotOp expression.now) }
        ensures kept { Keeps self.old self.new }
    {
        self.push_expr(ExprNode::Unary(UnaryOperator::LogicalNot, *expression))
    }

    /// The AND of all bits, `&a`.
    ///
    /// # Errors
    /// `AllocError` where a growth was refused; the file is unchanged.
    pub fn make_and_reduce(&mut self, expression: &Expr) -> Result<Expr, AllocError>
        requires { OwnsExpr self.old expression.now }
        ensures built { Builds self.old self.new result next_expr
            (with_unary AndReduceOp expression.now) }
        ensures kept { Keeps self.old self.new }
    {
        self.push_expr(ExprNode::Unary(UnaryOperator::AndReduce, *expression))
    }

    /// The OR of all bits, `|a`.
    ///
    /// # Errors
    /// `AllocError` where a growth was refused; the file is unchanged.
    pub fn make_or_reduce(&mut self, expression: &Expr) -> Result<Expr, AllocError>
        requires { OwnsExpr self.old expression.now }
        ensures built { Builds self.old self.new result next_expr
            (with_unary OrReduceOp expression.now) }
        ensures kept { Keeps self.old self.new }
    {
        self.push_expr(ExprNode::Unary(UnaryOperator::OrReduce, *expression))
    }

    /// The XOR of all bits, `^a`.
    ///
    /// # Errors
    /// `AllocError` where a growth was refused; the file is unchanged.
    pub fn make_xor_reduce(&mut self, expression: &Expr) -> Result<Expr, AllocError>
        requires { OwnsExpr self.old expression.now }
        ensures built { Builds self.old self.new result next_expr
            (with_unary XorReduceOp expression.now) }
        ensures kept { Keeps self.old self.new }
    {
        self.push_expr(ExprNode::Unary(UnaryOperator::XorReduce, *expression))
    }

    /// The event of a rising edge, `posedge a`.
    ///
    /// # Errors
    /// `AllocError` where a growth was refused; the file is unchanged.
    pub fn make_pos_edge(&mut self, expression: &Expr) -> Result<Expr, AllocError>
        requires { OwnsExpr self.old expression.now }
        ensures built { Builds self.old self.new result next_expr
            (λ b. with_expr (PosEdgeTree (tree_of b expression.now)) b) }
        ensures kept { Keeps self.old self.new }
    {
        self.push_expr(ExprNode::PosEdge(*expression))
    }

    /// The event of a falling edge, `negedge a`.
    ///
    /// # Errors
    /// `AllocError` where a growth was refused; the file is unchanged.
    pub fn make_neg_edge(&mut self, expression: &Expr) -> Result<Expr, AllocError>
        requires { OwnsExpr self.old expression.now }
        ensures built { Builds self.old self.new result next_expr
            (λ b. with_expr (NegEdgeTree (tree_of b expression.now)) b) }
        ensures kept { Keeps self.old self.new }
    {
        self.push_expr(ExprNode::NegEdge(*expression))
    }
}
