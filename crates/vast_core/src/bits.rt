//! Why a type has no number of bits.

use crate::handle::{Expr, VastDataType};

/// Why the bits of a type can't be counted.
#[derive(Clone, Copy, Debug, PartialEq, Eq)]
pub enum BitCountFault {
    /// The count is above `i64::MAX`.
    Overflow,
    /// The type within the arrays is a vector of this width, which is no literal with a value.
    Symbolic(Expr),
    /// The type within the arrays is this one, which is declared elsewhere.
    External(VastDataType),
    /// A dimension of the arrays is this size, which is no literal with a value.
    Dimension(Expr),
}

/// Why a type has no width.
#[derive(Clone, Copy, Debug, PartialEq, Eq)]
pub enum WidthFault {
    /// The type within the arrays is a vector of this width, which is no literal with a value.
    Symbolic(Expr),
    /// The type within the arrays is neither a scalar nor a vector.
    Undeclared,
}
