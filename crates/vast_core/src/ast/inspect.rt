//! What types and widths are.

ghost use Rattle.std.specs.Prelude.{◌≡◌, ◌↔◌, IsTrue, IfNone, IfSome};
ghost use Rattle.vast_core.specs.Types.{IsUsableWidth, width_of, vector_width, is_signed, is_packable, is_castable};
ghost use Rattle.vast_literal.specs.Shape.{base_of, is_external};
ghost use Rattle.vast_core.specs.Internal.BitCount.{IsArrayOf, IsNoArray};
ghost use Rattle.vast_core.specs.Bench.{OwnsExpr, OwnsType, tree_of, type_of, maybe_tree_of};
ghost use Rattle.vast_core.specs.View.{bench};

use crate::ast::Ast;
use crate::handle::{Expr, VastDataType};
use crate::node::{Dimension, TypeNode};

impl Ast {
    /// Whether the expression may be a vector's width: it isn't a literal with a value below 1.
    pub fn width_is_usable(&self, width: Expr) -> bool
        requires { OwnsExpr (bench self.now) width }
        ensures { IsTrue result ↔ IsUsableWidth (tree_of (bench self.now) width) }
    {
        match self.expr(width).literal_value() {
            Some(value) => value >= 1,
            None => true,
        }
    }

    /// Whether a packed array may be made of the type: it is no unpacked array, no integer and no int.
    pub fn type_can_be_packed(&self, data_type: VastDataType) -> bool
        requires { OwnsType (bench self.now) data_type }
        ensures { result ≡ is_packable (type_of (bench self.now) data_type) }
    {
        match self.data_type(data_type) {
            TypeNode::Unpacked(_, _) | TypeNode::Integer(_) | TypeNode::Int(_) => false,
            _ => true,
        }
    }

    /// Whether an expression may be cast to the type: it is no array.
    pub fn type_can_be_cast(&self, data_type: VastDataType) -> bool
        requires { OwnsType (bench self.now) data_type }
        ensures { result ≡ is_castable (type_of (bench self.now) data_type) }
    {
        match self.data_type(data_type) {
            TypeNode::Packed(_, _) | TypeNode::Unpacked(_, _) => false,
            _ => true,
        }
    }

    /// An array's element type and dimensions.
    pub(crate) fn array(&self, data_type: VastDataType) -> Option<(VastDataType, &[Dimension])>
        requires { OwnsType (bench self.now) data_type }
        ensures some { IfSome result (λ a. IsArrayOf (bench self.now) data_type a.0 a.1.now) }
        ensures none { IfNone result (IsNoArray (type_of (bench self.now) data_type)) }
    {
        match self.data_type(data_type) {
            TypeNode::Packed(element, dimensions) => Some((*element, dimensions)),
            TypeNode::Unpacked(element, dimensions) => Some((*element, dimensions)),
            _ => None,
        }
    }

    /// The type within the arrays: the type itself where it is no array.
    pub fn base_type(&self, data_type: VastDataType) -> VastDataType
        requires { OwnsType (bench self.now) data_type }
        ensures owned { OwnsType (bench self.now) result }
        ensures base { type_of (bench self.now) result
            ≡ base_of (type_of (bench self.now) data_type) }
        ensures no_array { IsTrue (is_castable (type_of (bench self.now) result)) }
    {
        let mut base = data_type;
        while let Some((element, _)) = self.array(base) {
            base = element;
        }
        base
    }

    /// Whether the type within the arrays is one that is declared elsewhere.
    pub fn is_external(&self, data_type: VastDataType) -> bool
        requires { OwnsType (bench self.now) data_type }
        ensures { result ≡ is_external (base_of (type_of (bench self.now) data_type)) }
    {
        match self.data_type(self.base_type(data_type)) {
            TypeNode::External(_) => true,
            TypeNode::Package(_) => true,
            _ => false,
        }
    }

    /// The width of the vector within the arrays, if a vector is within.
    pub fn type_width_expr(&self, data_type: VastDataType) -> Option<Expr>
        requires { OwnsType (bench self.now) data_type }
        ensures owned { IfSome result (OwnsExpr (bench self.now)) }
        ensures width { maybe_tree_of (bench self.now) result
            ≡ width_of (type_of (bench self.now) data_type) }
    {
        self.own_width(self.base_type(data_type))
    }

    fn own_width(&self, data_type: VastDataType) -> Option<Expr>
        requires { OwnsType (bench self.now) data_type }
        ensures owned { IfSome result (OwnsExpr (bench self.now)) }
        ensures width { maybe_tree_of (bench self.now) result
            ≡ vector_width (type_of (bench self.now) data_type) }
    {
        match self.data_type(data_type) {
            TypeNode::Vector(width, _, _) => Some(*width),
            _ => None,
        }
    }

    /// Whether the type within the arrays is signed; one that is declared elsewhere isn't.
    pub fn type_is_signed(&self, data_type: VastDataType) -> bool
        requires { OwnsType (bench self.now) data_type }
        ensures { result ≡ is_signed (type_of (bench self.now) data_type) }
    {
        match self.data_type(self.base_type(data_type)) {
            TypeNode::Scalar(signed) => *signed,
            TypeNode::Vector(_, _, signed) => *signed,
            TypeNode::Integer(signed) => *signed,
            TypeNode::Int(signed) => *signed,
            _ => false,
        }
    }
}
