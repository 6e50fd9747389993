//! Data types of a file.

ghost use Rattle.std.specs.Prelude.{◌≤ℤ◌, pos};
ghost use Rattle.vast_core.specs.Nodes.{TypeChildrenHold, type_tree};
ghost use Rattle.vast_core.specs.Types.{TypeFits};
ghost use Rattle.vast_core.specs.Bench.{OwnsExpr, OwnsType};
ghost use Rattle.vast_core.specs.Growth.{Grows, with_type, with_vector, next_type, next_vector};
ghost use Rattle.vast_core.specs.View.{bench};

use crate::ast::Ast;
use crate::ast::arrivals::Terms;
use crate::ast::decimal::decimal_word;
use crate::handle::{Expr, VastDataType};
use crate::node::{ExprNode, TypeNode};
use std::alloc::AllocError;

impl Ast {
    /// Adds a type. Its parts are the file's, and it fits: a vector's width is usable and its value that of a literal,
    /// dimensions are at least 1 and there is one, and the elements of a packed array can be packed.
    ///
    /// # Errors
    /// `AllocError` where a growth was refused; nothing changed.
    pub fn push_type(&mut self, node: TypeNode) -> Result<VastDataType, AllocError>
        requires children { TypeChildrenHold (OwnsExpr (bench self.old)) (OwnsType (bench self.old))
            node }
        requires fits { TypeFits (type_tree (bench self.old).nodes node) }
        ensures { Grows self.old self.new result next_type
            (λ b. with_type (type_tree b.nodes node) b) }
    {
        let data_type = VastDataType {
            id: self.next_term(),
        };
        self.grow_term(ExprNode::DataType(node))?;
        Ok(data_type)
    }

    /// Adds a vector of `bits` bits, and before it the literal of its width.
    ///
    /// # Errors
    /// `AllocError` where a growth was refused; nothing changed.
    #[tactic(auto, using(crate::proofs::Laws::terms, vast_literal::proofs::NumberLaws::signed_text))]
    pub fn push_vector(&mut self, bits: i64, signed: bool) -> Result<VastDataType, AllocError>
        requires { pos 1 ≤ℤ bits }
        ensures { Grows self.old self.new result (next_vector bits) (with_vector bits signed) }
    {
        let text = decimal_word(self.alloc, bits)?;
        let width = Expr {
            id: self.next_term(),
        };
        let vector = VastDataType {
            id: self.second_term(),
        };
        self.grow_terms(Terms::Two(
            ExprNode::Literal(text, Some(bits)),
            ExprNode::DataType(TypeNode::Vector(width, Some(bits), signed)),
        ))?;
        Ok(vector)
    }
}
