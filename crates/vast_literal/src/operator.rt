//! The operators of expressions, by the names of the crate xlsynth-vast's `UnaryOp` and `BinaryOp`.

/// The operator before an operand.
#[derive(Clone, Copy, Debug, PartialEq, Eq, Hash)]
pub enum UnaryOperator {
    Negate,
    BitwiseNot,
    LogicalNot,
    AndReduce,
    OrReduce,
    XorReduce,
}

/// The operator between two operands. `NeX` and `EqX` compare with an unknown value, as `CaseNe` and `CaseEq` do.
#[derive(Clone, Copy, Debug, PartialEq, Eq, Hash)]
pub enum BinaryOperator {
    Add,
    Sub,
    Mul,
    Div,
    Mod,
    Power,
    BitwiseAnd,
    BitwiseOr,
    BitwiseXor,
    Shll,
    Shra,
    Shrl,
    Ne,
    CaseNe,
    Eq,
    CaseEq,
    Ge,
    Gt,
    Le,
    Lt,
    LogicalAnd,
    LogicalOr,
    NeX,
    EqX,
}
