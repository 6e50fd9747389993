//! What event lists are made of.

ghost use Rattle.std.specs.Prelude.{◌≡◌, All, IfNone, IfSome};
ghost use Rattle.vast_core.specs.Bench.{OwnsExpr, tree_of};
ghost use Rattle.vast_core.specs.Sound.{is_event, EventSound};
ghost use Rattle.vast_core.specs.Events.{IsFirstWrongEvent};
ghost use Rattle.vast_core.specs.View.{bench};

use crate::ast::Ast;
use crate::handle::Expr;
use crate::node::ExprNode;

impl Ast {
    /// Whether the expression may stand in an event list: it is an edge or a name.
    pub fn is_event(&self, e: Expr) -> bool
        requires { OwnsExpr (bench self.now) e }
        ensures { result ≡ is_event (tree_of (bench self.now) e) }
    {
        match self.expr(e) {
            ExprNode::Name(_, _) | ExprNode::PosEdge(_) | ExprNode::NegEdge(_) => true,
            _ => false,
        }
    }

    /// The index of the first of the expressions that may not stand in an event list, if one may not.
    pub fn first_wrong_event(&self, events: &[Expr]) -> Option<usize>
        requires { All (OwnsExpr (bench self.now)) events.now }
        ensures none { IfNone result (All (EventSound (bench self.now)) events.now) }
        ensures some { IfSome result (λ i. IsFirstWrongEvent (bench self.now) events.now i) }
    {
        for (index, event) in events.iter().enumerate() {
            if !self.is_event(*event) {
                return Some(index);
            }
        }
        None
    }
}
