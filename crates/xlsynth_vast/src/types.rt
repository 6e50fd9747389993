//! Types.

ghost use Rattle.std.specs.Prelude.{◌≡◌, ◌≤ℤ◌, ◌↔◌, pos, false, map, All, IsTrue, IfOk, IfSome};
ghost use Rattle.vast_literal.specs.Tree.{ScalarTree, IntegerTree, IntTree, ExternalTree, PackageTree, VectorTree, PackedTree, UnpackedTree};
ghost use Rattle.vast_core.specs.Types.{IsUsableWidth, is_packable, is_castable, is_signed, width_of, AreDimensions, AreSizes};
ghost use Rattle.vast_literal.specs.Shape.{literal_value};
ghost use Rattle.vast_core.specs.declared.node.Dimension.TheVariants.{Count, Size};
ghost use Rattle.vast_core.specs.Bench.{OwnsExpr, OwnsType, OwnsDimension, tree_of, trees_of, maybe_tree_of, type_of};
ghost use Rattle.vast_core.specs.Internal.BitCount.{sizes_of};
ghost use Rattle.vast_core.specs.Growth.{Builds, counts, next_type, with_type};
ghost use Rattle.xlsynth_vast.specs.Keeps.{Keeps};
ghost use Rattle.xlsynth_vast.specs.Conditions.{is_usable_width, each_usable, are_usable_dimensions};
ghost use Rattle.xlsynth_vast.specs.Equations.{next_bit_vector, with_bit_vector};
ghost use Rattle.xlsynth_vast.specs.Refusals.{AnswersBy};
ghost use Rattle.xlsynth_vast.specs.Widths.{declared_width, flat_bits};

use crate::file::VastFile;
use crate::refusals::{count_exceeds, no_declared_width, no_known_width, no_literal};
use std::alloc::{AllocError, Global};
use vast_core::{BitCountFault, Dimension, Expr, PackageName, TypeNode, VastDataType, WidthFault};
use vast_literal::VastFault;

fn counts_of(dimensions: &[i64], alloc: Global) -> Result<Vec<Dimension>, AllocError>
    ensures { IfOk result (λ made. made.items ≡ map Count dimensions.now) }
{
    dimensions
        .iter()
        .map(|count| Dimension::Count(*count))
        .collect(alloc)
}

fn sizes_of(dimensions: &[&Expr], alloc: Global) -> Result<Vec<Dimension>, AllocError>
    ensures { IfOk result (λ made. made.items ≡ map (λ e. Size e.now) dimensions.now) }
{
    dimensions
        .iter()
        .map(|size| Dimension::Size(**size))
        .collect(alloc)
}

impl VastFile {
    /// The type of one bit.
    ///
    /// # Errors
    /// `AllocError` where a growth was refused; the file is unchanged.
    pub fn make_scalar_type(&mut self) -> Result<VastDataType, AllocError>
        ensures built { Builds self.old self.new result next_type (with_type (ScalarTree false)) }
        ensures kept { Keeps self.old self.new }
    {
        self.push_type(TypeNode::Scalar(false))
    }

    /// The type of `bit_count` bits; of one bit it is a scalar.
    ///
    /// # Errors
    /// `AllocError` where a growth was refused; the file is unchanged.
    pub fn make_bit_vector_type(
        &mut self,
        bit_count: i64,
        signed: bool,
    ) -> Result<VastDataType, AllocError>
        requires { pos 1 ≤ℤ bit_count }
        ensures built { Builds self.old self.new result (next_bit_vector bit_count)
            (with_bit_vector bit_count signed) }
        ensures kept { Keeps self.old self.new }
    {
        if bit_count == 1 {
            self.push_type(TypeNode::Scalar(signed))
        } else {
            self.ast.push_vector(bit_count, signed)
        }
    }

    /// The vector whose width is the expression; [`VastFile::width_is_usable`] is the test.
    ///
    /// # Errors
    /// `AllocError` where a growth was refused; the file is unchanged.
    pub fn make_bit_vector_type_expr(
        &mut self,
        width: &Expr,
        signed: bool,
    ) -> Result<VastDataType, AllocError>
        requires width { OwnsExpr self.old width.now }
        requires usable { IsUsableWidth (tree_of self.old width.now) }
        ensures built { Builds self.old self.new result next_type
            (λ b. with_type (VectorTree (tree_of b width.now) (literal_value (tree_of b width.now))
            signed) b) }
        ensures kept { Keeps self.old self.new }
    {
        let value = self.ast.expr(*width).literal_value();
        self.push_type(TypeNode::Vector(*width, value, signed))
    }

    /// Verilog's `integer`.
    ///
    /// # Errors
    /// `AllocError` where a growth was refused; the file is unchanged.
    pub fn make_integer_type(&mut self, signed: bool) -> Result<VastDataType, AllocError>
        ensures built { Builds self.old self.new result next_type (with_type (IntegerTree signed)) }
        ensures kept { Keeps self.old self.new }
    {
        self.push_type(TypeNode::Integer(signed))
    }

    /// SystemVerilog's `int`.
    ///
    /// # Errors
    /// `AllocError` where a growth was refused; the file is unchanged.
    pub fn make_int_type(&mut self, signed: bool) -> Result<VastDataType, AllocError>
        ensures built { Builds self.old self.new result next_type (with_type (IntTree signed)) }
        ensures kept { Keeps self.old self.new }
    {
        self.push_type(TypeNode::Int(signed))
    }

    /// A type of this name that is declared elsewhere.
    ///
    /// # Errors
    /// `AllocError` where a growth was refused; the file is unchanged.
    pub fn make_extern_type(&mut self, name: &str) -> Result<VastDataType, AllocError>
        ensures built { Builds self.old self.new result next_type
            (with_type (ExternalTree name.now)) }
        ensures kept { Keeps self.old self.new }
    {
        let name = String::from_str(self.ast.allocator(), name)?;
        self.push_type(TypeNode::External(name))
    }

    /// A type of this name that is declared in a package, `package::name`.
    ///
    /// # Errors
    /// `AllocError` where a growth was refused; the file is unchanged.
    pub fn make_extern_package_type(
        &mut self,
        package_name: &str,
        name: &str,
    ) -> Result<VastDataType, AllocError>
        ensures built { Builds self.old self.new result next_type
            (with_type (PackageTree package_name.now name.now)) }
        ensures kept { Keeps self.old self.new }
    {
        let package_name = String::from_str(self.ast.allocator(), package_name)?;
        let name = String::from_str(self.ast.allocator(), name)?;
        let package = PackageName { package_name, name };
        let package = Box::new(self.ast.allocator(), package)?;
        self.push_type(TypeNode::Package(package))
    }

    /// The packed array of elements of a type, with its dimensions from the outermost;
    /// [`VastFile::type_can_be_packed`] is the test of the type.
    ///
    /// # Errors
    /// `AllocError` where a growth was refused; the file is unchanged.
    #[tactic(auto, using(crate::proofs::Dimensions::dimensions))]
    pub fn make_packed_array_type(
        &mut self,
        element: VastDataType,
        dimensions: &[i64],
    ) -> Result<VastDataType, AllocError>
        requires element { OwnsType self.old element }
        requires packable { IsTrue (is_packable (type_of self.old element)) }
        requires dimensions { AreDimensions dimensions.now }
        ensures built { Builds self.old self.new result next_type
            (λ b. with_type (PackedTree (type_of b element) (counts dimensions.now)) b) }
        ensures kept { Keeps self.old self.new }
    {
        let dimensions = self.counted(dimensions)?;
        self.push_type(TypeNode::Packed(element, dimensions))
    }

    /// The unpacked array of elements of a type, with its dimensions from the outermost.
    ///
    /// # Errors
    /// `AllocError` where a growth was refused; the file is unchanged.
    #[tactic(auto, using(crate::proofs::Dimensions::dimensions))]
    pub fn make_unpacked_array_type(
        &mut self,
        element: VastDataType,
        dimensions: &[i64],
    ) -> Result<VastDataType, AllocError>
        requires element { OwnsType self.old element }
        requires dimensions { AreDimensions dimensions.now }
        ensures built { Builds self.old self.new result next_type
            (λ b. with_type (UnpackedTree (type_of b element) (counts dimensions.now)) b) }
        ensures kept { Keeps self.old self.new }
    {
        let dimensions = self.counted(dimensions)?;
        self.push_type(TypeNode::Unpacked(element, dimensions))
    }

    /// The packed array of elements of a type, each dimension as many as an expression says;
    /// [`VastFile::dimensions_are_usable`] is the test of these.
    ///
    /// # Errors
    /// `AllocError` where a growth was refused; the file is unchanged.
    #[tactic(auto, using(crate::proofs::Dimensions::dimensions))]
    pub fn make_packed_array_type_expr(
        &mut self,
        element: VastDataType,
        dimensions: &[&Expr],
    ) -> Result<VastDataType, AllocError>
        requires element { OwnsType self.old element }
        requires packable { IsTrue (is_packable (type_of self.old element)) }
        requires dimensions { All (λ e. OwnsExpr self.old e.now) dimensions.now }
        requires usable { AreSizes (trees_of self.old (map (λ e. e.now) dimensions.now)) }
        ensures built { Builds self.old self.new result next_type
            (λ b. with_type (PackedTree (type_of b element)
            (trees_of b (map (λ e. e.now) dimensions.now))) b) }
        ensures kept { Keeps self.old self.new }
    {
        let sizes = self.sized(dimensions)?;
        self.push_type(TypeNode::Packed(element, sizes))
    }

    /// The unpacked array of elements of a type, each dimension as many as an expression says;
    /// [`VastFile::dimensions_are_usable`] is the test of these.
    ///
    /// # Errors
    /// `AllocError` where a growth was refused; the file is unchanged.
    #[tactic(auto, using(crate::proofs::Dimensions::dimensions))]
    pub fn make_unpacked_array_type_expr(
        &mut self,
        element: VastDataType,
        dimensions: &[&Expr],
    ) -> Result<VastDataType, AllocError>
        requires element { OwnsType self.old element }
        requires dimensions { All (λ e. OwnsExpr self.old e.now) dimensions.now }
        requires usable { AreSizes (trees_of self.old (map (λ e. e.now) dimensions.now)) }
        ensures built { Builds self.old self.new result next_type
            (λ b. with_type (UnpackedTree (type_of b element)
            (trees_of b (map (λ e. e.now) dimensions.now))) b) }
        ensures kept { Keeps self.old self.new }
    {
        let sizes = self.sized(dimensions)?;
        self.push_type(TypeNode::Unpacked(element, sizes))
    }

    /// Dimensions that are numbers.
    #[tactic(auto, using(crate::proofs::Dimensions::dimensions))]
    fn counted(&self, dimensions: &[i64]) -> Result<Vec<Dimension>, AllocError>
        ensures sizes { IfOk result
            (λ made. sizes_of self.now made.items ≡ counts dimensions.now) }
        ensures owned { IfOk result (λ made. All (OwnsDimension self.now) made.items) }
    {
        let made = counts_of(dimensions, self.ast.allocator())?;
        Ok(made)
    }

    /// Dimensions that are expressions.
    #[tactic(auto, using(crate::proofs::Dimensions::dimensions))]
    fn sized(&self, dimensions: &[&Expr]) -> Result<Vec<Dimension>, AllocError>
        requires { All (λ e. OwnsExpr self.now e.now) dimensions.now }
        ensures sizes { IfOk result (λ made. sizes_of self.now made.items
            ≡ trees_of self.now (map (λ e. e.now) dimensions.now)) }
        ensures owned { IfOk result (λ made. All (OwnsDimension self.now) made.items) }
    {
        let made = sizes_of(dimensions, self.ast.allocator())?;
        Ok(made)
    }

    #[tactic(auto, using(crate::proofs::Dimensions::dimensions))]
    fn each_is_usable(&self, dimensions: &[&Expr]) -> bool
        requires { All (λ e. OwnsExpr self.now e.now) dimensions.now }
        ensures { result ≡ each_usable (trees_of self.now (map (λ e. e.now) dimensions.now)) }
    {
        for size in dimensions {
            if !self.width_is_usable(size) {
                return false;
            }
        }
        true
    }

    /// Whether expressions may be an array's dimensions: there is one, and none is a literal with a value below 1.
    #[tactic(auto, using(crate::proofs::Dimensions::dimensions))]
    pub fn dimensions_are_usable(&self, dimensions: &[&Expr]) -> bool
        requires { All (λ e. OwnsExpr self.now e.now) dimensions.now }
        ensures usable { IsTrue result
            → AreSizes (trees_of self.now (map (λ e. e.now) dimensions.now)) }
        ensures test { result ≡ are_usable_dimensions (trees_of self.now
            (map (λ e. e.now) dimensions.now)) }
    {
        if dimensions.is_empty() {
            return false;
        }
        self.each_is_usable(dimensions)
    }

    /// Whether the expression may be a vector's width: it isn't a literal with a value below 1.
    pub fn width_is_usable(&self, width: &Expr) -> bool
        requires { OwnsExpr self.now width.now }
        ensures usable { IsTrue result ↔ IsUsableWidth (tree_of self.now width.now) }
        ensures test { result ≡ is_usable_width (tree_of self.now width.now) }
    {
        self.ast.width_is_usable(*width)
    }

    /// Whether a packed array may be made of the type: it is no unpacked array, no `integer` and no `int`.
    pub fn type_can_be_packed(&self, data_type: VastDataType) -> bool
        requires { OwnsType self.now data_type }
        ensures { result ≡ is_packable (type_of self.now data_type) }
    {
        self.ast.type_can_be_packed(data_type)
    }

    /// Whether an expression may be cast to the type: it is no array.
    pub fn type_can_be_cast(&self, data_type: VastDataType) -> bool
        requires { OwnsType self.now data_type }
        ensures { result ≡ is_castable (type_of self.now data_type) }
    {
        self.ast.type_can_be_cast(data_type)
    }

    /// The width of the vector within the arrays; `None` where no vector is within.
    pub fn type_width_expr(&self, data_type: VastDataType) -> Option<Expr>
        requires { OwnsType self.now data_type }
        ensures owned { IfSome result (OwnsExpr self.now) }
        ensures width { maybe_tree_of self.now result
            ≡ width_of (type_of self.now data_type) }
    {
        self.ast.type_width_expr(data_type)
    }

    /// Whether the type within the arrays is signed; one that is declared elsewhere isn't.
    pub fn type_is_signed(&self, data_type: VastDataType) -> bool
        requires { OwnsType self.now data_type }
        ensures { result ≡ is_signed (type_of self.now data_type) }
    {
        self.ast.type_is_signed(data_type)
    }

    /// The width that the type within the arrays declares: 1 for a scalar, and a vector's where that is a literal with
    /// a value. A number takes no memory.
    ///
    /// # Errors
    /// `Refused` where there is no such width. Any other vector is refused by `Width is not a literal: {text}` with
    /// the text of its width, or by the refusal of that text ([`VastFile::emit_expression`]); `integer`, `int` and a
    /// type that is declared elsewhere by `data type does not have a declared bit-vector width`. `Memory` where memory
    /// for the words was refused.
    pub fn type_width_as_int64(&self, data_type: VastDataType) -> Result<i64, VastFault>
        requires { OwnsType self.now data_type }
        ensures { AnswersBy (declared_width (type_of self.now data_type)) result }
    {
        match self.ast.width_value(data_type) {
            Ok(bits) => Ok(bits),
            Err(WidthFault::Symbolic(width)) => Err(no_literal(&self.ast, width)),
            Err(WidthFault::Undeclared) => Err(no_declared_width(&self.ast)),
        }
    }

    /// The bits of the type: those of the type within the arrays, times all dimensions. A scalar has 1, `integer` and
    /// `int` have 32, a vector has its width where that is a literal with a value. A number takes no memory.
    ///
    /// # Errors
    /// `Refused` where there is no such number. First come the refusals of the type within: any other vector as in
    /// [`VastFile::type_width_as_int64`], and a type that is declared elsewhere by ``external type `{name}` has no
    /// known bit width``, its package and `::` before the name. Then comes that of the first dimension that is no
    /// literal with a value, as of a vector's width; then `array bit count exceeds i64`. `Memory` where memory for the
    /// words was refused.
    pub fn type_flat_bit_count_as_int64(&self, data_type: VastDataType) -> Result<i64, VastFault>
        requires { OwnsType self.now data_type }
        ensures { AnswersBy (flat_bits (type_of self.now data_type)) result }
    {
        match self.ast.flat_bit_count(data_type) {
            Ok(count) => Ok(count),
            Err(BitCountFault::Overflow) => Err(count_exceeds(&self.ast)),
            Err(BitCountFault::Symbolic(width)) => Err(no_literal(&self.ast, width)),
            Err(BitCountFault::External(base)) => Err(no_known_width(&self.ast, base)),
            Err(BitCountFault::Dimension(size)) => Err(no_literal(&self.ast, size)),
        }
    }
}
