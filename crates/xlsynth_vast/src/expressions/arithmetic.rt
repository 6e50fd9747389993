//! Arithmetic, bitwise operators and shifts.

ghost use Rattle.vast_literal.specs.declared.operator.BinaryOperator.TheVariants.{Add as AddOp, Sub as SubOp, Mul as MulOp, Div as DivOp, Mod as ModOp, Power as PowerOp, BitwiseAnd as BitwiseAndOp, BitwiseOr as BitwiseOrOp, BitwiseXor as BitwiseXorOp, Shll as ShllOp, Shra as ShraOp, Shrl as ShrlOp};
ghost use Rattle.vast_core.specs.Bench.{OwnsExpr};
ghost use Rattle.vast_core.specs.Growth.{Builds, next_expr};
ghost use Rattle.xlsynth_vast.specs.Keeps.{Keeps};
ghost use Rattle.xlsynth_vast.specs.Expressions.{with_binary};

use crate::file::VastFile;
use std::alloc::AllocError;
use vast_core::{BinaryOperator, Expr, ExprNode};

impl VastFile {
    /// The sum `a + b`.
    ///
    /// # Errors
    /// `AllocError` where a growth was refused; the file is unchanged.
    pub fn make_add(&mut self, lhs: &Expr, rhs: &Expr) -> Result<Expr, AllocError>
        requires lhs { OwnsExpr self.old lhs.now }
        requires rhs { OwnsExpr self.old rhs.now }
        ensures built { Builds self.old self.new result next_expr
            (with_binary AddOp lhs.now rhs.now) }
        ensures kept { Keeps self.old self.new }
    {
        self.push_expr(ExprNode::Binary(BinaryOperator::Add, *lhs, *rhs))
    }

    /// The difference `a - b`.
    ///
    /// # Errors
    /// `AllocError` where a growth was refused; the file is unchanged.
    pub fn make_sub(&mut self, lhs: &Expr, rhs: &Expr) -> Result<Expr, AllocError>
        requires lhs { OwnsExpr self.old lhs.now }
        requires rhs { OwnsExpr self.old rhs.now }
        ensures built { Builds self.old self.new result next_expr
            (with_binary SubOp lhs.now rhs.now) }
        ensures kept { Keeps self.old self.new }
    {
        self.push_expr(ExprNode::Binary(BinaryOperator::Sub, *lhs, *rhs))
    }

    /// The product `a * b`.
    ///
    /// # Errors
    /// `AllocError` where a growth was refused; the file is unchanged.
    pub fn make_mul(&mut self, lhs: &Expr, rhs: &Expr) -> Result<Expr, AllocError>
        requires lhs { OwnsExpr self.old lhs.now }
        requires rhs { OwnsExpr self.old rhs.now }
        ensures built { Builds self.old self.new result next_expr
            (with_binary MulOp lhs.now rhs.now) }
        ensures kept { Keeps self.old self.new }
    {
        self.push_expr(ExprNode::Binary(BinaryOperator::Mul, *lhs, *rhs))
    }

    /// The quotient `a / b`.
    ///
    /// # Errors
    /// `AllocError` where a growth was refused; the file is unchanged.
    pub fn make_div(&mut self, lhs: &Expr, rhs: &Expr) -> Result<Expr, AllocError>
        requires lhs { OwnsExpr self.old lhs.now }
        requires rhs { OwnsExpr self.old rhs.now }
        ensures built { Builds self.old self.new result next_expr
            (with_binary DivOp lhs.now rhs.now) }
        ensures kept { Keeps self.old self.new }
    {
        self.push_expr(ExprNode::Binary(BinaryOperator::Div, *lhs, *rhs))
    }

    /// The remainder `a % b`.
    ///
    /// # Errors
    /// `AllocError` where a growth was refused; the file is unchanged.
    pub fn make_mod(&mut self, lhs: &Expr, rhs: &Expr) -> Result<Expr, AllocError>
        requires lhs { OwnsExpr self.old lhs.now }
        requires rhs { OwnsExpr self.old rhs.now }
        ensures built { Builds self.old self.new result next_expr
            (with_binary ModOp lhs.now rhs.now) }
        ensures kept { Keeps self.old self.new }
    {
        self.push_expr(ExprNode::Binary(BinaryOperator::Mod, *lhs, *rhs))
    }

    /// The power `a ** b`.
    ///
    /// # Errors
    /// `AllocError` where a growth was refused; the file is unchanged.
    pub fn make_power(&mut self, lhs: &Expr, rhs: &Expr) -> Result<Expr, AllocError>
        requires lhs { OwnsExpr self.old lhs.now }
        requires rhs { OwnsExpr self.old rhs.now }
        ensures built { Builds self.old self.new result next_expr
            (with_binary PowerOp lhs.now rhs.now) }
        ensures kept { Keeps self.old self.new }
    {
        self.push_expr(ExprNode::Binary(BinaryOperator::Power, *lhs, *rhs))
    }

    /// The bitwise AND `a & b`.
    ///
    /// # Errors
    /// `AllocError` where a growth was refused; the file is unchanged.
    pub fn make_bitwise_and(&mut self, lhs: &Expr, rhs: &Expr) -> Result<Expr, AllocError>
        requires lhs { OwnsExpr self.old lhs.now }
        requires rhs { OwnsExpr self.old rhs.now }
        ensures built { Builds self.old self.new result next_expr
            (with_binary BitwiseAndOp lhs.now rhs.now) }
        ensures kept { Keeps self.old self.new }
    {
        self.push_expr(ExprNode::Binary(BinaryOperator::BitwiseAnd, *lhs, *rhs))
    }

    /// The bitwise OR `a | b`.
    ///
    /// # Errors
    /// `AllocError` where a growth was refused; the file is unchanged.
    pub fn make_bitwise_or(&mut self, lhs: &Expr, rhs: &Expr) -> Result<Expr, AllocError>
        requires lhs { OwnsExpr self.old lhs.now }
        requires rhs { OwnsExpr self.old rhs.now }
        ensures built { Builds self.old self.new result next_expr
            (with_binary BitwiseOrOp lhs.now rhs.now) }
        ensures kept { Keeps self.old self.new }
    {
        self.push_expr(ExprNode::Binary(BinaryOperator::BitwiseOr, *lhs, *rhs))
    }

    /// The bitwise XOR `a ^ b`.
    ///
    /// # Errors
    /// `AllocError` where a growth was refused; the file is unchanged.
    pub fn make_bitwise_xor(&mut self, lhs: &Expr, rhs: &Expr) -> Result<Expr, AllocError>
        requires lhs { OwnsExpr self.old lhs.now }
        requires rhs { OwnsExpr self.old rhs.now }
        ensures built { Builds self.old self.new result next_expr
            (with_binary BitwiseXorOp lhs.now rhs.now) }
        ensures kept { Keeps self.old self.new }
    {
        self.push_expr(ExprNode::Binary(BinaryOperator::BitwiseXor, *lhs, *rhs))
    }

    /// The logical shift to the left, `a << b`.
    ///
    /// # Errors
    /// `AllocError` where a growth was refused; the file is unchanged.
    pub fn make_shll(&mut self, lhs: &Expr, rhs: &Expr) -> Result<Expr, AllocError>
        requires lhs { OwnsExpr self.old lhs.now }
        requires rhs { OwnsExpr self.old rhs.now }
        ensures built { Builds self.old self.new result next_expr
            (with_binary ShllOp lhs.now rhs.now) }
        ensures kept { Keeps self.old self.new }
    {
        self.push_expr(ExprNode::Binary(BinaryOperator::Shll, *lhs, *rhs))
    }

    /// The arithmetic shift to the right, `a >>> b`.
    ///
    /// # Errors
    /// `AllocError` where a growth was refused; the file is unchanged.
    pub fn make_shra(&mut self, lhs: &Expr, rhs: &Expr) -> Result<Expr, AllocError>
        requires lhs { OwnsExpr self.old lhs.now }
        requires rhs { OwnsExpr self.old rhs.now }
        ensures built { Builds self.old self.new result next_expr
            (with_binary ShraOp lhs.now rhs.now) }
        ensures kept { Keeps self.old self.new }
    {
        self.push_expr(ExprNode::Binary(BinaryOperator::Shra, *lhs, *rhs))
    }

    /// The logical shift to the right, `a >> b`.
    ///
    /// # Errors
    /// `AllocError` where a growth was refused; the file is unchanged.
    pub fn make_shrl(&mut self, lhs: &Expr, rhs: &Expr) -> Result<Expr, AllocError>
        requires lhs { OwnsExpr self.old lhs.now }
        requires rhs { OwnsExpr self.old rhs.now }
        ensures built { Builds self.old self.new result next_expr
            (with_binary ShrlOp lhs.now rhs.now) }
        ensures kept { Keeps self.old self.new }
    {
        self.push_expr(ExprNode::Binary(BinaryOperator::Shrl, *lhs, *rhs))
    }
}
