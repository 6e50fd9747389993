//! Growths that many calls make, with what the file keeps at each.

ghost use Rattle.vast_core.specs.Nodes.{ExprChildrenHold, TypeChildrenHold, expr_tree, type_tree};
ghost use Rattle.vast_core.specs.Types.{ExprFits, TypeFits};
ghost use Rattle.vast_core.specs.Bench.{OwnsExpr, OwnsType};
ghost use Rattle.vast_core.specs.Scopes.{OwnsScope, IsShared, with_scope_member};
ghost use Rattle.vast_core.specs.Sound.{MemberSound};
ghost use Rattle.vast_core.specs.Growth.{Builds, Leaves, next_expr, next_type, with_expr, with_type};
ghost use Rattle.xlsynth_vast.specs.Keeps.{Keeps};

use crate::file::VastFile;
use std::alloc::AllocError;
use vast_core::{Expr, ExprNode, Member, Scope, TypeNode, VastDataType};

impl VastFile {
    pub(crate) fn push_expr(&mut self, node: ExprNode) -> Result<Expr, AllocError>
        requires children { ExprChildrenHold (OwnsExpr self.old) (OwnsType self.old) node }
        requires fits { ExprFits (expr_tree self.old.nodes node) }
        ensures built { Builds self.old self.new result next_expr
            (λ b. with_expr (expr_tree b.nodes node) b) }
        ensures kept { Keeps self.old self.new }
    {
        self.ast.push_expr(node)
    }

    pub(crate) fn push_type(&mut self, node: TypeNode) -> Result<VastDataType, AllocError>
        requires children { TypeChildrenHold (OwnsExpr self.old) (OwnsType self.old) node }
        requires fits { TypeFits (type_tree self.old.nodes node) }
        ensures built { Builds self.old self.new result next_type
            (λ b. with_type (type_tree b.nodes node) b) }
        ensures kept { Keeps self.old self.new }
    {
        self.ast.push_type(node)
    }

    /// Adds a member that more scopes than one may have to the scope's end.
    pub(crate) fn append_member(&mut self, scope: Scope, member: Member) -> Result<(), AllocError>
        requires scope { OwnsScope self.old scope }
        requires member { MemberSound self.old member }
        requires shared { IsShared member }
        ensures built { Leaves self.old self.new result
            (with_scope_member scope member) }
        ensures kept { Keeps self.old self.new }
    {
        self.ast.append_member(scope, member)
    }
}
