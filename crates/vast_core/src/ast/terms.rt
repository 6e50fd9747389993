//! The arena of expressions and types: growing it and reading it.

ghost use Rattle.std.specs.Prelude.{◌≡◌, ◌<◌, [], ◌∷◌, IfSome, IfNone, None, slice_get};
ghost use Rattle.vast_core.specs.Handles.{rank, type_rank};
ghost use Rattle.vast_core.specs.Nodes.{ExprChildrenHold, TypeChildrenHold, expr_tree, type_tree};
ghost use Rattle.vast_core.specs.Internal.Nodes.{IsNodeAt, TermsSound};
ghost use Rattle.vast_core.specs.Types.{ExprWellFormed, TypeWellFormed};
ghost use Rattle.vast_core.specs.Bench.{OwnsExpr, OwnsType, tree_of, type_of};
ghost use Rattle.vast_core.specs.Growth.{GrowsBy};
ghost use Rattle.vast_core.specs.Internal.Growth.{with_terms};
ghost use Rattle.vast_core.specs.Internal.Arrivals.{terms_of};
ghost use Rattle.vast_core.specs.View.{bench};

use crate::ast::Ast;
use crate::ast::arrivals::{Node, Terms};
use crate::ast::growth::Place;
use crate::handle::{Expr, VastDataType};
use crate::node::{ExprNode, TypeNode};
use std::alloc::AllocError;

impl Ast {
    /// Adds one expression or type by a plain push, which takes half the instructions of the growth of several.
    pub(crate) fn grow_term(&mut self, node: ExprNode) -> Result<(), AllocError>
        requires { TermsSound (bench self.old).nodes (node ∷ []) }
        ensures { GrowsBy self.old self.new result (with_terms (node ∷ [])) }
    {
        self.terms.push(node)?;
        Ok(())
    }

    /// Adds expressions and types, the older first.
    #[inline(always)]
    pub(crate) fn grow_terms(&mut self, terms: Terms) -> Result<(), AllocError>
        requires { TermsSound (bench self.old).nodes (terms_of terms) }
        ensures { GrowsBy self.old self.new result (with_terms (terms_of terms)) }
    {
        self.grow(Place::Nowhere, terms, Node::Nothing, false)
    }

    pub(crate) fn node(&self, index: usize) -> Option<&ExprNode>
        ensures none { IfNone result (slice_get (bench self.now).nodes.roots index ≡ None) }
        ensures some { IfSome result (λ t. IsNodeAt (bench self.now).nodes index t.now) }
    {
        if index < self.terms.len() {
            Some(&self.terms[index])
        } else {
            None
        }
    }

    /// The node of an expression. Its children are the file's, and older; it is well formed in all its parts.
    #[tactic(auto, unfolding(crate::specs::Nodes::expr_in))]
    pub fn expr(&self, e: Expr) -> &ExprNode
        requires { OwnsExpr (bench self.now) e }
        ensures tree { tree_of (bench self.now) e ≡ expr_tree (bench self.now).nodes result.now }
        ensures owned { ExprChildrenHold (OwnsExpr (bench self.now)) (OwnsType (bench self.now))
            result.now }
        ensures older { ExprChildrenHold (λ c. rank c < rank e) (λ c. type_rank c < rank e)
            result.now }
        ensures well_formed { ExprWellFormed (tree_of (bench self.now) e) }
    {
        match self.node(e.id.index) {
            Some(ExprNode::DataType(_)) => unreachable!(),
            Some(node) => node,
            None => unreachable!(),
        }
    }

    /// The node of a data type. Its children are the file's, and older; it is well formed in all its parts.
    #[tactic(auto, unfolding(crate::specs::Nodes::type_in))]
    pub fn data_type(&self, t: VastDataType) -> &TypeNode
        requires { OwnsType (bench self.now) t }
        ensures tree { type_of (bench self.now) t ≡ type_tree (bench self.now).nodes result.now }
        ensures owned { TypeChildrenHold (OwnsExpr (bench self.now)) (OwnsType (bench self.now))
            result.now }
        ensures older { TypeChildrenHold (λ c. rank c < type_rank t)
            (λ c. type_rank c < type_rank t) result.now }
        ensures well_formed { TypeWellFormed (type_of (bench self.now) t) }
    {
        match self.node(t.id.index) {
            Some(ExprNode::DataType(node)) => node,
            Some(_) => unreachable!(),
            None => unreachable!(),
        }
    }
}
