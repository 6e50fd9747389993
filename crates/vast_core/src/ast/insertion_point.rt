//! Where conditionals and assignments go: among the members of a scope, or into a block.

ghost use Rattle.std.specs.Prelude.{◌≡◌};
ghost use Rattle.vast_core.specs.Bench.{OwnsExpr};
ghost use Rattle.vast_core.specs.Growth.{Grows};
ghost use Rattle.vast_core.specs.Artifacts.{next_statement};
ghost use Rattle.vast_core.specs.Internal.Arrivals.{listing_of};
ghost use Rattle.vast_core.specs.Containers.{next_conditional};
ghost use Rattle.vast_core.specs.InsertionPoints.{OwnsPoint, IsWrittenIn, is_nonblocking, statement_of, with_assignment_at, with_conditional_at};
ghost use Rattle.vast_core.specs.Internal.InsertionPoints.{assignment_at, conditional_at};
ghost use Rattle.vast_core.specs.View.{bench};

use crate::ast::Ast;
use crate::ast::arrivals::{Node, Terms};
use crate::ast::growth::{Entry, Place};
use crate::ast::scope::Scope;
use crate::handle::{Conditional, ContinuousAssignment, Expr, VastStatement, VastStatementBlock};
use crate::node::{Assignment, Member, Statement};
use std::alloc::AllocError;
use vast_literal::AssignmentForm;

/// Where a conditional or an assignment goes.
#[derive(Clone, Copy, Debug, PartialEq, Eq)]
pub enum InsertionPoint {
    /// After the last member of the module or the loop.
    Scope(Scope),
    /// After the last statement of the block.
    Block(VastStatementBlock),
}

fn is_nonblocking(form: AssignmentForm) -> bool
    ensures { result ≡ is_nonblocking form }
{
    match form {
        AssignmentForm::Nonblocking => true,
        AssignmentForm::Blocking | AssignmentForm::Continuous => false,
    }
}

/// The statement of a block that is written so.
fn statement_of(form: AssignmentForm, assignment: VastStatement) -> Statement
    ensures { result ≡ statement_of form assignment }
{
    match form {
        AssignmentForm::Continuous => Statement::Continuous(assignment),
        AssignmentForm::Blocking | AssignmentForm::Nonblocking => Statement::Assignment(assignment),
    }
}

impl<'a> Place<'a> {
    /// At the end of the point's list, with an assignment.
    fn of_assignment(
        point: InsertionPoint,
        form: AssignmentForm,
        assignment: VastStatement,
    ) -> Place<'a>
        ensures { listing_of result ≡ assignment_at point form assignment }
    {
        match point {
            InsertionPoint::Scope(scope) => {
                let member = ContinuousAssignment { id: assignment.id };
                Place::in_scope(scope, Member::ContinuousAssignment(member))
            }
            InsertionPoint::Block(owner) => {
                let statement = statement_of(form, assignment);
                Place::Nest(owner.id.index, Entry::Statement(statement))
            }
        }
    }

    /// At the end of the point's list, with a conditional.
    fn of_conditional(point: InsertionPoint, conditional: Conditional) -> Place<'a>
        ensures { listing_of result ≡ conditional_at point conditional }
    {
        match point {
            InsertionPoint::Scope(scope) => Place::in_scope(
                scope,
                Member::Conditional(conditional),
            ),
            InsertionPoint::Block(owner) => Place::Nest(
                owner.id.index,
                Entry::Statement(Statement::Conditional(conditional)),
            ),
        }
    }
}

impl Ast {
    /// Appends an assignment to the scope or the block. A scope has continuous assignments alone.
    ///
    /// # Errors
    /// `AllocError` where a growth was refused; nothing changed.
    pub fn append_assignment(
        &mut self,
        point: InsertionPoint,
        form: AssignmentForm,
        lhs: Expr,
        rhs: Expr,
    ) -> Result<VastStatement, AllocError>
        requires point { OwnsPoint (bench self.old) point }
        requires form { IsWrittenIn point form }
        requires lhs { OwnsExpr (bench self.old) lhs }
        requires rhs { OwnsExpr (bench self.old) rhs }
        ensures { Grows self.old self.new result next_statement
            (with_assignment_at point form lhs rhs) }
    {
        let assignment = VastStatement {
            id: self.next_assignment(),
        };
        let place = Place::of_assignment(point, form, assignment);
        let nonblocking = is_nonblocking(form);
        self.grow(
            place,
            Terms::Nothing,
            Node::Assignment(Assignment {
                lhs,
                rhs,
                nonblocking,
            }),
            false,
        )?;
        Ok(assignment)
    }

    /// Appends a conditional to the scope or the block, with an empty block as its first arm.
    ///
    /// # Errors
    /// `AllocError` where a growth was refused; nothing changed.
    pub fn push_conditional(
        &mut self,
        point: InsertionPoint,
        condition: Expr,
    ) -> Result<Conditional, AllocError>
        requires point { OwnsPoint (bench self.old) point }
        requires condition { OwnsExpr (bench self.old) condition }
        ensures { Grows self.old self.new result next_conditional
            (with_conditional_at point condition) }
    {
        let conditional = Conditional {
            id: self.next_nest(),
        };
        let place = Place::of_conditional(point, conditional);
        let node = self.new_conditional(condition);
        self.grow(place, Terms::Nothing, Node::Container(node), true)?;
        Ok(conditional)
    }
}
