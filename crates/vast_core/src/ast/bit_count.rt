//! Counting the bits of types.

ghost use Rattle.std.specs.Prelude.{◌≡◌, ◌≤ℤ◌, ◌*ℤ◌, ◌^◌, pos, All, Some, IfNone, IfSome, IfOk, IfErr};
ghost use Rattle.vast_literal.specs.Shape.{base_of, literal_value};
ghost use Rattle.vast_core.specs.BitCount.{product, value_or_one, size_values, unknown_size, unknown_dimension, base_bits, bit_count, width_value, CountRefused, WidthRefused};
ghost use Rattle.vast_core.specs.Bench.{OwnsExpr, OwnsType, OwnsDimension, maybe_tree_of, type_of, size_of};
ghost use Rattle.vast_core.specs.Internal.BitCount.{sizes_of};
ghost use Rattle.vast_core.specs.View.{bench};

use crate::ast::Ast;
use crate::bits::{BitCountFault, WidthFault};
use crate::handle::{Expr, VastDataType};
use crate::node::{Dimension, TypeNode};

impl Ast {
    /// The value of a dimension; one that has none counts as 1.
    pub fn value_or_one(&self, dimension: Dimension) -> i64
        requires { OwnsDimension (bench self.now) dimension }
        ensures { result ≡ value_or_one (literal_value (size_of (bench self.now) dimension)) }
    {
        match dimension {
            Dimension::Count(count) => count,
            Dimension::Size(size) => self.expr(size).literal_value().unwrap_or(1),
        }
    }

    /// The count times all dimensions, or `None` where that is above `i64::MAX`.
    fn multiplied(&self, count: i64, dimensions: &[Dimension]) -> Option<i64>
        requires count { pos 1 ≤ℤ count }
        requires owned { All (OwnsDimension (bench self.now)) dimensions.now }
        requires each { All (λ d. pos 1 ≤ℤ d) (size_values (sizes_of (bench self.now)
            dimensions.now)) }
        ensures some { IfSome result (λ n. n
            ≡ product (size_values (sizes_of (bench self.now) dimensions.now)) *ℤ count) }
        ensures positive { IfSome result (λ n. pos 1 ≤ℤ n) }
        ensures none { IfNone result (pos (2 ^ 63)
            ≤ℤ (product (size_values (sizes_of (bench self.now) dimensions.now)) *ℤ count)) }
    {
        let mut total = count;
        for dimension in dimensions {
            total = total.checked_mul(self.value_or_one(*dimension))?;
        }
        Some(total)
    }

    /// The first of these dimensions that has no value.
    fn unknown_size(&self, dimensions: &[Dimension]) -> Option<Expr>
        requires { All (OwnsDimension (bench self.now)) dimensions.now }
        ensures owned { IfSome result (OwnsExpr (bench self.now)) }
        ensures size { maybe_tree_of (bench self.now) result
            ≡ unknown_size (sizes_of (bench self.now) dimensions.now) }
    {
        for dimension in dimensions {
            if let Dimension::Size(size) = dimension {
                if self.expr(*size).literal_value().is_none() {
                    return Some(*size);
                }
            }
        }
        None
    }

    /// The first dimension that has no value, of an array and of the arrays in it.
    pub fn unknown_dimension(&self, data_type: VastDataType) -> Option<Expr>
        requires { OwnsType (bench self.now) data_type }
        ensures owned { IfSome result (OwnsExpr (bench self.now)) }
        ensures size { maybe_tree_of (bench self.now) result
            ≡ unknown_dimension (type_of (bench self.now) data_type) }
    {
        let mut array = data_type;
        while let Some((element, dimensions)) = self.array(array) {
            if let Some(size) = self.unknown_size(dimensions) {
                return Some(size);
            }
            array = element;
        }
        None
    }

    /// The bits of the type within the arrays.
    fn base_bit_count(&self, data_type: VastDataType) -> Result<i64, BitCountFault>
        requires { OwnsType (bench self.now) data_type }
        ensures counted { IfOk result
            (λ n. base_bits (base_of (type_of (bench self.now) data_type)) ≡ Some n) }
        ensures positive { IfOk result (λ n. pos 1 ≤ℤ n) }
        ensures refused { IfErr result
            (λ fault. CountRefused (bench self.now) (type_of (bench self.now) data_type) fault) }
    {
        let base = self.base_type(data_type);
        match self.data_type(base) {
            TypeNode::Scalar(_) => Ok(1),
            TypeNode::Vector(_, Some(bits), _) => Ok(*bits),
            TypeNode::Vector(width, None, _) => Err(BitCountFault::Symbolic(*width)),
            TypeNode::Integer(_) => Ok(32),
            TypeNode::Int(_) => Ok(32),
            TypeNode::External(_) => Err(BitCountFault::External(base)),
            TypeNode::Package(_) => Err(BitCountFault::External(base)),
            TypeNode::Packed(_, _) => unreachable!(),
            TypeNode::Unpacked(_, _) => unreachable!(),
        }
    }

    /// The bits of a type: the product of all dimensions and of the bits of the type within the arrays, which are 1
    /// for a scalar, 32 for integer and int.
    ///
    /// # Errors
    /// Those of the type within the arrays first: a symbolic width, or a type declared elsewhere; then the first
    /// dimension that has no value; then [`BitCountFault::Overflow`].
    pub fn flat_bit_count(&self, data_type: VastDataType) -> Result<i64, BitCountFault>
        requires { OwnsType (bench self.now) data_type }
        ensures counted { IfOk result
            (λ n. bit_count (type_of (bench self.now) data_type) ≡ Some n) }
        ensures refused { IfErr result
            (λ fault. CountRefused (bench self.now) (type_of (bench self.now) data_type) fault) }
    {
        let bits = self.base_bit_count(data_type)?;
        if let Some(size) = self.unknown_dimension(data_type) {
            return Err(BitCountFault::Dimension(size));
        }
        let mut count = bits;
        let mut array = data_type;
        while let Some((element, dimensions)) = self.array(array) {
            let Some(total) = self.multiplied(count, dimensions) else {
                return Err(BitCountFault::Overflow);
            };
            count = total;
            array = element;
        }
        Ok(count)
    }

    /// The declared width of the type within the arrays: 1 for a scalar, and a vector's where it has a value.
    ///
    /// # Errors
    /// A symbolic width; or no scalar and no vector.
    pub fn width_value(&self, data_type: VastDataType) -> Result<i64, WidthFault>
        requires { OwnsType (bench self.now) data_type }
        ensures known { IfOk result
            (λ n. width_value (type_of (bench self.now) data_type) ≡ Some n) }
        ensures refused { IfErr result
            (λ fault. WidthRefused (bench self.now) (type_of (bench self.now) data_type) fault) }
    {
        let base = self.base_type(data_type);
        match self.data_type(base) {
            TypeNode::Scalar(_) => Ok(1),
            TypeNode::Vector(_, Some(bits), _) => Ok(*bits),
            TypeNode::Vector(width, None, _) => Err(WidthFault::Symbolic(*width)),
            TypeNode::Integer(_) => Err(WidthFault::Undeclared),
            TypeNode::Int(_) => Err(WidthFault::Undeclared),
            TypeNode::External(_) => Err(WidthFault::Undeclared),
            TypeNode::Package(_) => Err(WidthFault::Undeclared),
            TypeNode::Packed(_, _) => unreachable!(),
            TypeNode::Unpacked(_, _) => unreachable!(),
        }
    }
}
