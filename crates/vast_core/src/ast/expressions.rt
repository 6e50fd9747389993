//! Expressions of a file.

ghost use Rattle.std.specs.Prelude.{◌≡◌, IsTrue, All, IfSome, string_bytes};
ghost use Rattle.vast_core.specs.Nodes.{ExprChildrenHold, expr_tree, maybe_exprs_in};
ghost use Rattle.vast_core.specs.Types.{ExprFits};
ghost use Rattle.vast_core.specs.Bench.{OwnsExpr, OwnsIndexable, OwnsType, tree_of};
ghost use Rattle.vast_core.specs.Growth.{Grows, with_expr, with_fixed_index, with_fixed_slice, with_fixed_replication, next_expr, next_node, next_fixed_index, next_fixed_slice, next_fixed_replication};
ghost use Rattle.vast_core.specs.View.{bench};
ghost use Rattle.vast_literal.specs.LiteralToken.{is_literal_text};
ghost use Rattle.vast_literal.specs.Tree.{IndexTree, SliceTree, MacroTree};

use crate::ast::Ast;
use crate::ast::arrivals::Terms;
use crate::ast::decimal::decimal_word;
use crate::handle::{Expr, Index, IndexableExpr, MacroRef, Slice};
use crate::node::ExprNode;
use std::alloc::AllocError;
use vast_names::Word;

impl Ast {
    /// The same node as an expression that may be selected from.
    pub fn indexable(&self, e: Expr) -> IndexableExpr
        requires { OwnsExpr (bench self.now) e }
        ensures { result ≡ record { id = e.id } }
    {
        IndexableExpr { id: e.id }
    }

    /// Adds an expression. Its children are the file's, and it fits: a literal's text is one literal token, perhaps after a
    /// minus, a string's one string token, the width of a part select is at least 1, and no cast is to an array.
    ///
    /// # Errors
    /// `AllocError` where a growth was refused; nothing changed.
    pub fn push_expr(&mut self, node: ExprNode) -> Result<Expr, AllocError>
        requires children { ExprChildrenHold (OwnsExpr (bench self.old)) (OwnsType (bench self.old))
            node }
        requires fits { ExprFits (expr_tree (bench self.old).nodes node) }
        ensures { Grows self.old self.new result next_expr
            (λ b. with_expr (expr_tree b.nodes node) b) }
    {
        let expr = Expr {
            id: self.next_term(),
        };
        self.grow_term(node)?;
        Ok(expr)
    }

    /// Adds the bit select `subject[index]`.
    ///
    /// # Errors
    /// `AllocError` where a growth was refused; nothing changed.
    pub fn push_index(&mut self, subject: IndexableExpr, index: Expr) -> Result<Index, AllocError>
        requires subject { OwnsIndexable (bench self.old) subject }
        requires index { OwnsExpr (bench self.old) index }
        ensures { Grows self.old self.new result (λ b. record { id = next_node b })
            (λ b. with_expr
            (IndexTree (tree_of b (record { id = subject.id })) (tree_of b index)) b) }
    {
        let select = self.push_expr(ExprNode::Index(subject.to_expr(), index))?;
        Ok(Index { id: select.id })
    }

    /// Adds the bit select by a number: a literal of this text and value, and the select.
    ///
    /// # Errors
    /// `AllocError` where a growth was refused; nothing changed.
    #[tactic(auto, using(crate::proofs::Laws::terms, crate::proofs::Laws::older_terms))]
    pub fn push_index_fixed(
        &mut self,
        subject: IndexableExpr,
        text: &str,
        index: i64,
    ) -> Result<Index, AllocError>
        requires subject { OwnsIndexable (bench self.old) subject }
        requires token { IsTrue (is_literal_text text.now) }
        ensures { Grows self.old self.new result (next_fixed_index text.now index)
            (with_fixed_index subject text.now index) }
    {
        let text = Word::new(self.alloc, text)?;
        let literal = Expr {
            id: self.next_term(),
        };
        let select = Index {
            id: self.second_term(),
        };
        self.grow_terms(Terms::Two(
            ExprNode::Literal(text, Some(index)),
            ExprNode::Index(subject.to_expr(), literal),
        ))?;
        Ok(select)
    }

    /// Adds the part select `subject[high:low]`.
    ///
    /// # Errors
    /// `AllocError` where a growth was refused; nothing changed.
    pub fn push_slice(
        &mut self,
        subject: IndexableExpr,
        high: Expr,
        low: Expr,
    ) -> Result<Slice, AllocError>
        requires subject { OwnsIndexable (bench self.old) subject }
        requires high { OwnsExpr (bench self.old) high }
        requires low { OwnsExpr (bench self.old) low }
        ensures { Grows self.old self.new result (λ b. record { id = next_node b })
            (λ b. with_expr
            (SliceTree (tree_of b (record { id = subject.id })) (tree_of b high)
            (tree_of b low)) b) }
    {
        let select = self.push_expr(ExprNode::Slice(subject.to_expr(), high, low))?;
        Ok(Slice { id: select.id })
    }

    /// Adds the part select by two numbers: literals of these texts and values, the upper bound's first, and the
    /// select.
    ///
    /// # Errors
    /// `AllocError` where a growth was refused; nothing changed.
    #[tactic(auto, using(crate::proofs::Laws::terms, crate::proofs::Laws::older_terms))]
    pub fn push_slice_fixed(
        &mut self,
        subject: IndexableExpr,
        high_text: &str,
        high: i64,
        low_text: &str,
        low: i64,
    ) -> Result<Slice, AllocError>
        requires subject { OwnsIndexable (bench self.old) subject }
        requires high { IsTrue (is_literal_text high_text.now) }
        requires low { IsTrue (is_literal_text low_text.now) }
        ensures { Grows self.old self.new result
            (next_fixed_slice high_text.now high low_text.now low)
            (with_fixed_slice subject high_text.now high low_text.now low) }
    {
        let high_text = Word::new(self.alloc, high_text)?;
        let low_text = Word::new(self.alloc, low_text)?;
        let high_literal = Expr {
            id: self.next_term(),
        };
        let low_literal = Expr {
            id: self.second_term(),
        };
        let select = Slice {
            id: self.third_term(),
        };
        self.grow_terms(Terms::Three(
            ExprNode::Literal(high_text, Some(high)),
            ExprNode::Literal(low_text, Some(low)),
            ExprNode::Slice(subject.to_expr(), high_literal, low_literal),
        ))?;
        Ok(select)
    }

    /// Adds the replication by a number: a literal of the count in decimal, and the replication.
    ///
    /// # Errors
    /// `AllocError` where a growth was refused; nothing changed.
    #[tactic(auto, using(crate::proofs::Laws::terms, crate::proofs::Laws::older_terms, vast_literal::proofs::NumberLaws::signed_text))]
    pub fn push_replication_fixed(&mut self, count: i64, parts: &[Expr]) -> Result<Expr, AllocError>
        requires { All (OwnsExpr (bench self.old)) parts.now }
        ensures { Grows self.old self.new result (next_fixed_replication count)
            (with_fixed_replication count parts.now) }
    {
        let text = decimal_word(self.alloc, count)?;
        let parts = Vec::from_slice(self.alloc, parts)?;
        let literal = Expr {
            id: self.next_term(),
        };
        let replication = Expr {
            id: self.second_term(),
        };
        self.grow_terms(Terms::Two(
            ExprNode::Literal(text, Some(count)),
            ExprNode::Concat(Some(literal), parts),
        ))?;
        Ok(replication)
    }

    /// Adds the use of a macro, with an argument list or without one.
    ///
    /// # Errors
    /// `AllocError` where a growth was refused; nothing changed.
    pub fn push_macro(
        &mut self,
        name: String,
        arguments: Option<Vec<Expr>>,
    ) -> Result<MacroRef, AllocError>
        requires { IfSome arguments (λ parts. All (OwnsExpr (bench self.old)) parts.items) }
        ensures { Grows self.old self.new result (λ b. record { id = next_node b })
            (λ b. with_expr (MacroTree (string_bytes name) (maybe_exprs_in b.nodes arguments)) b) }
    {
        let node = match arguments {
            Some(arguments) => ExprNode::MacroCall(name, arguments),
            None => ExprNode::Macro(name),
        };
        let call = self.push_expr(node)?;
        Ok(MacroRef { id: call.id })
    }
}
