//! Assignments that members and statements are made of.

ghost use Rattle.std.specs.Prelude.{◌≡◌, false, slice_get};
ghost use Rattle.vast_core.specs.Bench.{OwnsContinuous, OwnsStatement, OwnsExpr};
ghost use Rattle.vast_core.specs.Internal.Containers.{Nowhere, GrowthSound, after_growth, fresh_assignment};
ghost use Rattle.vast_core.specs.Growth.{Grows, GrowsBy, next_continuous, with_assignment};
ghost use Rattle.vast_core.specs.Artifacts.{next_statement};
ghost use Rattle.vast_core.specs.View.{bench};

use crate::ast::Ast;
use crate::handle::{ContinuousAssignment, Expr, VastStatement};
use crate::node::Assignment;
use std::alloc::AllocError;

impl Ast {
    /// Adds one assignment by a plain push, which takes less than the growth of anything.
    fn grow_assignment(&mut self, assignment: Assignment) -> Result<(), AllocError>
        requires { GrowthSound (bench self.old) Nowhere (fresh_assignment assignment) }
        ensures { GrowsBy self.old self.new result
            (after_growth Nowhere (fresh_assignment assignment)) }
    {
        self.assignments.push(assignment)?;
        Ok(())
    }

    /// Adds the assignment `assign lhs = rhs`, which no list holds yet.
    ///
    /// # Errors
    /// `AllocError` where a growth was refused; nothing changed.
    pub fn push_continuous(
        &mut self,
        lhs: Expr,
        rhs: Expr,
    ) -> Result<ContinuousAssignment, AllocError>
        requires lhs { OwnsExpr (bench self.old) lhs }
        requires rhs { OwnsExpr (bench self.old) rhs }
        ensures { Grows self.old self.new result next_continuous
            (with_assignment (record { lhs = lhs; rhs = rhs; nonblocking = false })) }
    {
        let assignment = self.push_assignment(lhs, rhs, false)?;
        Ok(ContinuousAssignment { id: assignment.id })
    }

    /// Adds an assignment of a procedural block, `lhs <= rhs` where it is nonblocking.
    ///
    /// # Errors
    /// `AllocError` where a growth was refused; nothing changed.
    #[tactic(auto, using(crate::proofs::EntersRecords::enters_records))]
    pub fn push_assignment(
        &mut self,
        lhs: Expr,
        rhs: Expr,
        nonblocking: bool,
    ) -> Result<VastStatement, AllocError>
        requires lhs { OwnsExpr (bench self.old) lhs }
        requires rhs { OwnsExpr (bench self.old) rhs }
        ensures { Grows self.old self.new result next_statement
            (with_assignment (record { lhs = lhs; rhs = rhs; nonblocking = nonblocking })) }
    {
        let id = self.next_assignment();
        self.grow_assignment(Assignment {
            lhs,
            rhs,
            nonblocking,
        })?;
        Ok(VastStatement { id })
    }

    /// The sides of an assignment.
    pub fn continuous(&self, a: ContinuousAssignment) -> &Assignment
        requires { OwnsContinuous (bench self.now) a }
        ensures there { slice_get (bench self.now).assignments a.id.index
            ≡ Some result.now }
        ensures lhs { OwnsExpr (bench self.now) result.now.lhs }
        ensures rhs { OwnsExpr (bench self.now) result.now.rhs }
    {
        &self.assignments[a.id.index]
    }

    /// The sides of an assignment of a procedural block, and its form.
    pub fn assignment(&self, s: VastStatement) -> &Assignment
        requires { OwnsStatement (bench self.now) s }
        ensures there { slice_get (bench self.now).assignments s.id.index
            ≡ Some result.now }
        ensures lhs { OwnsExpr (bench self.now) result.now.lhs }
        ensures rhs { OwnsExpr (bench self.now) result.now.rhs }
    {
        &self.assignments[s.id.index]
    }
}
