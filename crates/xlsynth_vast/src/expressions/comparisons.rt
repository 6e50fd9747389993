//! Comparisons, logical operators and the choice between two expressions.

ghost use Rattle.vast_literal.specs.declared.operator.BinaryOperator.TheVariants.{Ne as NeOp, CaseNe as CaseNeOp, Eq as EqOp, CaseEq as CaseEqOp, Ge as GeOp, Gt as GtOp, Le as LeOp, Lt as LtOp, LogicalAnd as LogicalAndOp, LogicalOr as LogicalOrOp, NeX as NeXOp, EqX as EqXOp};
ghost use Rattle.vast_literal.specs.Tree.{TernaryTree};
ghost use Rattle.vast_core.specs.Bench.{OwnsExpr, tree_of};
ghost use Rattle.vast_core.specs.Growth.{Builds, next_expr, with_expr};
ghost use Rattle.xlsynth_vast.specs.Keeps.{Keeps};
ghost use Rattle.xlsynth_vast.specs.Expressions.{with_binary};

use crate::file::VastFile;
use std::alloc::AllocError;
use vast_core::{BinaryOperator, Expr, ExprNode};

impl VastFile {
    /// The inequality `a != b`.
    ///
    /// # Errors
    /// `AllocError` where a growth was refused; the file is unchanged.
    pub fn make_ne(&mut self, lhs: &Expr, rhs: &Expr) -> Result<Expr, AllocError>
        requires lhs { OwnsExpr self.old lhs.now }
        requires rhs { OwnsExpr self.old rhs.now }
        ensures built { Builds self.old self.new result next_expr
            (with_binary NeOp lhs.now rhs.now) }
        ensures kept { Keeps self.old self.new }
    {
        self.push_expr(ExprNode::Binary(BinaryOperator::Ne, *lhs, *rhs))
    }

    /// The inequality with unknown bits compared too, `a !== b`.
    ///
    /// # Errors
    /// `AllocError` where a growth was refused; the file is unchanged.
    pub fn make_case_ne(&mut self, lhs: &Expr, rhs: &Expr) -> Result<Expr, AllocError>
        requires lhs { OwnsExpr self.old lhs.now }
        requires rhs { OwnsExpr self.old rhs.now }
        ensures built { Builds self.old self.new result next_expr
            (with_binary CaseNeOp lhs.now rhs.now) }
        ensures kept { Keeps self.old self.new }
    {
        self.push_expr(ExprNode::Binary(BinaryOperator::CaseNe, *lhs, *rhs))
    }

    /// The equality `a == b`.
    ///
    /// # Errors
    /// `AllocError` where a growth was refused; the file is unchanged.
    pub fn make_eq(&mut self, lhs: &Expr, rhs: &Expr) -> Result<Expr, AllocError>
        requires lhs { OwnsExpr self.old lhs.now }
        requires rhs { OwnsExpr self.old rhs.now }
        ensures built { Builds self.old self.new result next_expr
            (with_binary EqOp lhs.now rhs.now) }
        ensures kept { Keeps self.old self.new }
    {
        self.push_expr(ExprNode::Binary(BinaryOperator::Eq, *lhs, *rhs))
    }

    /// The equality with unknown bits compared too, `a === b`.
    ///
    /// # Errors
    /// `AllocError` where a growth was refused; the file is unchanged.
    pub fn make_case_eq(&mut self, lhs: &Expr, rhs: &Expr) -> Result<Expr, AllocError>
        requires lhs { OwnsExpr self.old lhs.now }
        requires rhs { OwnsExpr self.old rhs.now }
        ensures built { Builds self.old self.new result next_expr
            (with_binary CaseEqOp lhs.now rhs.now) }
        ensures kept { Keeps self.old self.new }
    {
        self.push_expr(ExprNode::Binary(BinaryOperator::CaseEq, *lhs, *rhs))
    }

    /// The comparison `a >= b`.
    ///
    /// # Errors
    /// `AllocError` where a growth was refused; the file is unchanged.
    pub fn make_ge(&mut self, lhs: &Expr, rhs: &Expr) -> Result<Expr, AllocError>
        requires lhs { OwnsExpr self.old lhs.now }
        requires rhs { OwnsExpr self.old rhs.now }
        ensures built { Builds self.old self.new result next_expr
            (with_binary GeOp lhs.now rhs.now) }
        ensures kept { Keeps self.old self.new }
    {
        self.push_expr(ExprNode::Binary(BinaryOperator::Ge, *lhs, *rhs))
    }

    /// The comparison `a > b`.
    ///
    /// # Errors
    /// `AllocError` where a growth was refused; the file is unchanged.
    pub fn make_gt(&mut self, lhs: &Expr, rhs: &Expr) -> Result<Expr, AllocError>
        requires lhs { OwnsExpr self.old lhs.now }
        requires rhs { OwnsExpr self.old rhs.now }
        ensures built { Builds self.old self.new result next_expr
            (with_binary GtOp lhs.now rhs.now) }
        ensures kept { Keeps self.old self.new }
    {
        self.push_expr(ExprNode::Binary(BinaryOperator::Gt, *lhs, *rhs))
    }

    /// The comparison `a <= b`.
    ///
    /// # Errors
    /// `AllocError` where a growth was refused; the file is unchanged.
    pub fn make_le(&mut self, lhs: &Expr, rhs: &Expr) -> Result<Expr, AllocError>
        requires lhs { OwnsExpr self.old lhs.now }
        requires rhs { OwnsExpr self.old rhs.now }
        ensures built { Builds self.old self.new result next_expr
            (with_binary LeOp lhs.now rhs.now) }
        ensures kept { Keeps self.old self.new }
    {
        self.push_expr(ExprNode::Binary(BinaryOperator::Le, *lhs, *rhs))
    }

    /// The comparison `a < b`.
    ///
    /// # Errors
    /// `AllocError` where a growth was refused; the file is unchanged.
    pub fn make_lt(&mut self, lhs: &Expr, rhs: &Expr) -> Result<Expr, AllocError>
        requires lhs { OwnsExpr self.old lhs.now }
        requires rhs { OwnsExpr self.old rhs.now }
        ensures built { Builds self.old self.new result next_expr
            (with_binary LtOp lhs.now rhs.now) }
        ensures kept { Keeps self.old self.new }
    {
        self.push_expr(ExprNode::Binary(BinaryOperator::Lt, *lhs, *rhs))
    }

    /// The logical AND `a && b`.
    ///
    /// # Errors
    /// `AllocError` where a growth was refused; the file is unchanged.
    pub fn make_logical_and(&mut self, lhs: &Expr, rhs: &Expr) -> Result<Expr, AllocError>
        requires lhs { OwnsExpr self.old lhs.now }
        requires rhs { OwnsExpr self.old rhs.now }
        ensures built { Builds self.old self.new result next_expr
            (with_binary LogicalAndOp lhs.now rhs.now) }
        ensures kept { Keeps self.old self.new }
    {
        self.push_expr(ExprNode::Binary(BinaryOperator::LogicalAnd, *lhs, *rhs))
    }

    /// The logical OR `a || b`.
    ///
    /// # Errors
    /// `AllocError` where a growth was refused; the file is unchanged.
    pub fn make_logical_or(&mut self, lhs: &Expr, rhs: &Expr) -> Result<Expr, AllocError>
        requires lhs { OwnsExpr self.old lhs.now }
        requires rhs { OwnsExpr self.old rhs.now }
        ensures built { Builds self.old self.new result next_expr
            (with_binary LogicalOrOp lhs.now rhs.now) }
        ensures kept { Keeps self.old self.new }
    {
        self.push_expr(ExprNode::Binary(BinaryOperator::LogicalOr, *lhs, *rhs))
    }

    /// The inequality with an unknown value, written `a !== b`.
    ///
    /// # Errors
    /// `AllocError` where a growth was refused; the file is unchanged.
    pub fn make_ne_x(&mut self, lhs: &Expr, rhs: &Expr) -> Result<Expr, AllocError>
        requires lhs { OwnsExpr self.old lhs.now }
        requires rhs { OwnsExpr self.old rhs.now }
        ensures built { Builds self.old self.new result next_expr
            (with_binary NeXOp lhs.now rhs.now) }
        ensures kept { Keeps self.old self.new }
    {
        self.push_expr(ExprNode::Binary(BinaryOperator::NeX, *lhs, *rhs))
    }

    /// The equality with an unknown value, written `a === b`.
    ///
    /// # Errors
    /// `AllocError` where a growth was refused; the file is unchanged.
    pub fn make_eq_x(&mut self, lhs: &Expr, rhs: &Expr) -> Result<Expr, AllocError>
        requires lhs { OwnsExpr self.old lhs.now }
        requires rhs { OwnsExpr self.old rhs.now }
        ensures built { Builds self.old self.new result next_expr
            (with_binary EqXOp lhs.now rhs.now) }
        ensures kept { Keeps self.old self.new }
    {
        self.push_expr(ExprNode::Binary(BinaryOperator::EqX, *lhs, *rhs))
    }

    /// The choice `c ? a : b`.
    ///
    /// # Errors
    /// `AllocError` where a growth was refused; the file is unchanged.
    pub fn make_ternary(
        &mut self,
        condition: &Expr,
        consequent: &Expr,
        alternate: &Expr,
    ) -> Result<Expr, AllocError>
        requires condition { OwnsExpr self.old condition.now }
        requires consequent { OwnsExpr self.old consequent.now }
        requires alternate { OwnsExpr self.old alternate.now }
        ensures built { Builds self.old self.new result next_expr
            (λ b. with_expr (TernaryTree (tree_of b condition.now) (tree_of b consequent.now)
            (tree_of b alternate.now)) b) }
        ensures kept { Keeps self.old self.new }
    {
        self.push_expr(ExprNode::Ternary(*condition, *consequent, *alternate))
    }
}
