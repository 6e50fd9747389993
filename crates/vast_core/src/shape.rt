//! Shapes of expressions that handles of their own name.

ghost use Rattle.std.specs.Prelude.{◌≡◌, Some};
ghost use Rattle.vast_core.specs.Nodes.{Nodes, expr_tree, term_root, is_root_of, is_name, is_index, is_slice, is_macro};
ghost use Rattle.vast_literal.specs.Shape.{literal_value};

use crate::node::ExprNode;

impl ExprNode {
    /// Whether it is a name.
    pub(crate) fn is_name(&self) -> bool
        ensures { (b : Nodes) → result ≡ is_root_of is_name (Some (term_root b self.now)) }
    {
        match self {
            ExprNode::Name(_, _) => true,
            _ => false,
        }
    }

    /// Whether it is a bit select `s[i]`.
    pub(crate) fn is_index(&self) -> bool
        ensures { (b : Nodes) → result ≡ is_root_of is_index (Some (term_root b self.now)) }
    {
        match self {
            ExprNode::Index(_, _) => true,
            _ => false,
        }
    }

    /// Whether it is a part select `s[h:l]`.
    pub(crate) fn is_slice(&self) -> bool
        ensures { (b : Nodes) → result ≡ is_root_of is_slice (Some (term_root b self.now)) }
    {
        match self {
            ExprNode::Slice(_, _, _) => true,
            _ => false,
        }
    }

    /// Whether it is the use of a macro.
    pub(crate) fn is_macro(&self) -> bool
        ensures { (b : Nodes) → result ≡ is_root_of is_macro (Some (term_root b self.now)) }
    {
        match self {
            ExprNode::Macro(_) | ExprNode::MacroCall(_, _) => true,
            _ => false,
        }
    }

    /// A literal's value, where that is known.
    pub fn literal_value(&self) -> Option<i64>
        ensures { (b : Nodes) → result ≡ literal_value (expr_tree b self.now) }
    {
        match self {
            ExprNode::Literal(_, value) => *value,
            _ => None,
        }
    }
}
