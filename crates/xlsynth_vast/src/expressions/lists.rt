//! Expressions over lists of others: concatenations, patterns, calls and macros.

ghost use Rattle.std.specs.Prelude.{◌≡◌, ◌≢◌, IfOk, All, [], map};
ghost use Rattle.vast_literal.specs.Tree.{CallTree, ConcatTree, MacroTree, NoArguments, NoExpr, PatternTree, SomeArguments, SomeExpr};
ghost use Rattle.vast_core.specs.Bench.{OwnsExpr, tree_of, trees_of};
ghost use Rattle.vast_core.specs.Growth.{Builds, next_expr, next_node, next_fixed_replication, with_fixed_replication, with_expr};
ghost use Rattle.xlsynth_vast.specs.Keeps.{Keeps};

use crate::file::VastFile;
use std::alloc::AllocError;
use vast_core::{Expr, ExprNode, MacroRef};

impl VastFile {
    /// The handles behind the references, which are the file's own as those are.
    pub(crate) fn handles(&self, parts: &[&Expr]) -> Result<Vec<Expr>, AllocError>
        requires { All (λ e. OwnsExpr self.now e.now) parts.now }
        ensures items { IfOk result (λ handles. handles.items ≡ map (λ e. e.now) parts.now) }
        ensures owned { IfOk result (λ handles. All (OwnsExpr self.now) handles.items) }
    {
        parts.iter().map(|e| **e).collect(self.ast.allocator())
    }

    /// The concatenation `{a, b}`; there may be no parts.
    ///
    /// # Errors
    /// `AllocError` where a growth was refused; the file is unchanged.
    pub fn make_concat(&mut self, expressions: &[&Expr]) -> Result<Expr, AllocError>
        requires { All (λ e. OwnsExpr self.old e.now) expressions.now }
        ensures built { Builds self.old self.new result next_expr
            (λ b. with_expr (ConcatTree NoExpr
            (trees_of b (map (λ e. e.now) expressions.now))) b) }
        ensures kept { Keeps self.old self.new }
    {
        let parts = self.handles(expressions)?;
        self.push_expr(ExprNode::Concat(None, parts))
    }

    /// The replicated concatenation `{n{a, b}}`.
    ///
    /// # Errors
    /// `AllocError` where a growth was refused; the file is unchanged.
    pub fn make_replicated_concat(
        &mut self,
        replication: &Expr,
        elements: &[&Expr],
    ) -> Result<Expr, AllocError>
        requires replication { OwnsExpr self.old replication.now }
        requires elements { All (λ e. OwnsExpr self.old e.now) elements.now }
        ensures built { Builds self.old self.new result next_expr
            (λ b. with_expr (ConcatTree (SomeExpr (tree_of b replication.now))
            (trees_of b (map (λ e. e.now) elements.now))) b) }
        ensures kept { Keeps self.old self.new }
    {
        let parts = self.handles(elements)?;
        self.push_expr(ExprNode::Concat(Some(*replication), parts))
    }

    /// The replicated concatenation by a number, for which a literal is made too.
    ///
    /// # Errors
    /// `AllocError` where a growth was refused; the file is unchanged.
    pub fn make_replicated_concat_i64(
        &mut self,
        replication: i64,
        elements: &[&Expr],
    ) -> Result<Expr, AllocError>
        requires { All (λ e. OwnsExpr self.old e.now) elements.now }
        ensures built { Builds self.old self.new result (next_fixed_replication replication)
            (with_fixed_replication replication (map (λ e. e.now) elements.now)) }
        ensures kept { Keeps self.old self.new }
    {
        let parts = self.handles(elements)?;
        self.ast.push_replication_fixed(replication, &parts)
    }

    /// The array assignment pattern `'{a, b}`.
    ///
    /// # Errors
    /// `AllocError` where a growth was refused; the file is unchanged.
    pub fn make_array_assignment_pattern(&mut self, elements: &[&Expr]) -> Result<Expr, AllocError>
        requires { All (λ e. OwnsExpr self.old e.now) elements.now }
        ensures built { Builds self.old self.new result next_expr
            (λ b. with_expr (PatternTree (trees_of b (map (λ e. e.now) elements.now))) b) }
        ensures kept { Keeps self.old self.new }
    {
        let parts = self.handles(elements)?;
        self.push_expr(ExprNode::Pattern(parts))
    }

    /// The call `f(a, b)` of a function of this name.
    ///
    /// # Errors
    /// `AllocError` where a growth was refused; the file is unchanged.
    pub fn make_function_call(
        &mut self,
        name: &str,
        arguments: &[&Expr],
    ) -> Result<Expr, AllocError>
        requires name { name.now ≢ [] }
        requires arguments { All (λ e. OwnsExpr self.old e.now) arguments.now }
        ensures built { Builds self.old self.new result next_expr
            (λ b. with_expr (CallTree name.now (trees_of b (map (λ e. e.now) arguments.now))) b) }
        ensures kept { Keeps self.old self.new }
    {
        let parts = self.handles(arguments)?;
        let name = String::from_str(self.ast.allocator(), name)?;
        self.push_expr(ExprNode::Call(name, parts))
    }

    /// The use of a macro without arguments, `` `M ``.
    ///
    /// # Errors
    /// `AllocError` where a growth was refused; the file is unchanged.
    pub fn make_macro_ref(&mut self, name: &str) -> Result<MacroRef, AllocError>
        ensures built { Builds self.old self.new result (λ b. record { id = next_node b })
            (λ b. with_expr (MacroTree name.now NoArguments) b) }
        ensures kept { Keeps self.old self.new }
    {
        let name = String::from_str(self.ast.allocator(), name)?;
        self.ast.push_macro(name, None)
    }

    /// The use of a macro with arguments, `` `M(a, b) ``; there may be none.
    ///
    /// # Errors
    /// `AllocError` where a growth was refused; the file is unchanged.
    pub fn make_macro_ref_with_args(
        &mut self,
        name: &str,
        arguments: &[&Expr],
    ) -> Result<MacroRef, AllocError>
        requires { All (λ e. OwnsExpr self.old e.now) arguments.now }
        ensures built { Builds self.old self.new result (λ b. record { id = next_node b })
            (λ b. with_expr (MacroTree name.now
            (SomeArguments (trees_of b (map (λ e. e.now) arguments.now)))) b) }
        ensures kept { Keeps self.old self.new }
    {
        let parts = self.handles(arguments)?;
        let name = String::from_str(self.ast.allocator(), name)?;
        self.ast.push_macro(name, Some(parts))
    }
}
