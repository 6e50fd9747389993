//! Casts.

ghost use Rattle.std.specs.Prelude.{IsTrue};
ghost use Rattle.vast_literal.specs.Tree.{TypeCastTree, WidthCastTree};
ghost use Rattle.vast_core.specs.Types.{is_castable};
ghost use Rattle.vast_core.specs.Bench.{OwnsExpr, OwnsType, type_of, tree_of};
ghost use Rattle.vast_core.specs.Growth.{Builds, next_expr, with_expr};
ghost use Rattle.xlsynth_vast.specs.Keeps.{Keeps};

use crate::file::VastFile;
use std::alloc::AllocError;
use vast_core::{Expr, ExprNode, VastDataType};

impl VastFile {
    /// The value, cast to a width: `w'(v)`.
    ///
    /// # Errors
    /// `AllocError` where a growth was refused; the file is unchanged.
    pub fn make_width_cast(&mut self, width: &Expr, value: &Expr) -> Result<Expr, AllocError>
        requires width { OwnsExpr self.old width.now }
        requires value { OwnsExpr self.old value.now }
        ensures built { Builds self.old self.new result next_expr
            (λ b. with_expr (WidthCastTree (tree_of b width.now) (tree_of b value.now)) b) }
        ensures kept { Keeps self.old self.new }
    {
        self.push_expr(ExprNode::WidthCast(*width, *value))
    }

    /// The value, cast to a type that is no array; [`VastFile::type_can_be_cast`] is the test.
    ///
    /// # Errors
    /// `AllocError` where a growth was refused; the file is unchanged.
    pub fn make_type_cast(
        &mut self,
        data_type: &VastDataType,
        value: &Expr,
    ) -> Result<Expr, AllocError>
        requires data_type { OwnsType self.old data_type.now }
        requires castable { IsTrue (is_castable (type_of self.old data_type.now)) }
        requires value { OwnsExpr self.old value.now }
        ensures built { Builds self.old self.new result next_expr
            (λ b. with_expr (TypeCastTree (type_of b data_type.now) (tree_of b value.now)) b) }
        ensures kept { Keeps self.old self.new }
    {
        self.push_expr(ExprNode::TypeCast(*data_type, *value))
    }
}
