//! Selects: single bits and ranges of an expression, and members.

ghost use Rattle.std.specs.Prelude.{◌≡◌, ◌≤ℤ◌, pos, IfOk, IsTrue, string_bytes};
ghost use Rattle.vast_literal.specs.LiteralText.{format_text};
ghost use Rattle.vast_literal.specs.LiteralToken.{is_literal_text};
ghost use Rattle.vast_literal.specs.Tree.{IndexTree, MemberOfTree, PartSelectTree, SliceTree};
ghost use Rattle.vast_core.specs.Bench.{OwnsExpr, OwnsIndexable, tree_of};
ghost use Rattle.vast_core.specs.Growth.{Builds, next_expr, next_node, next_fixed_index, with_fixed_index, next_fixed_slice, with_fixed_slice, with_expr};
ghost use Rattle.xlsynth_vast.specs.Keeps.{Keeps};
ghost use Rattle.xlsynth_vast.specs.Literals.{selector_text};

use crate::file::VastFile;
use std::alloc::{AllocError, Global};
use vast_core::{Expr, ExprNode, Index, IndexableExpr, Slice};
use vast_literal::{Literal, LiteralFormat};
use vast_names::Word;

impl VastFile {
    /// The same node, as an expression that may be selected from.
    ///
    /// Tools commonly take selects of named signals and arrays, and not of other expressions.
    pub fn make_indexable_expression(&self, expression: &Expr) -> IndexableExpr
        requires { OwnsExpr self.now expression.now }
        ensures { result ≡ record { id = expression.now.id } }
    {
        self.ast.indexable(*expression)
    }

    /// The range `s[hi:lo]` between two numbers, for which literals are made, that of `hi` first.
    ///
    /// # Errors
    /// `AllocError` where a growth was refused; the file is unchanged.
    pub fn make_slice(
        &mut self,
        subject: &IndexableExpr,
        hi: i64,
        lo: i64,
    ) -> Result<Slice, AllocError>
        requires subject { OwnsIndexable self.old subject.now }
        requires hi { pos 0 ≤ℤ hi }
        requires lo { pos 0 ≤ℤ lo }
        ensures built { Builds self.old self.new result
            (next_fixed_slice (selector_text hi) hi (selector_text lo) lo)
            (with_fixed_slice subject.now (selector_text hi) hi (selector_text lo) lo) }
        ensures kept { Keeps self.old self.new }
    {
        let alloc = self.ast.allocator();
        let high_text = selector_text(alloc, hi)?;
        let low_text = selector_text(alloc, lo)?;
        self.ast
            .push_slice_fixed(*subject, &high_text, hi, &low_text, lo)
    }

    /// The bit `s[index]`, by a number, for which a literal is made.
    ///
    /// # Errors
    /// `AllocError` where a growth was refused; the file is unchanged.
    pub fn make_index(&mut self, subject: &IndexableExpr, index: i64) -> Result<Index, AllocError>
        requires subject { OwnsIndexable self.old subject.now }
        requires index { pos 0 ≤ℤ index }
        ensures built { Builds self.old self.new result
            (next_fixed_index (selector_text index) index)
            (with_fixed_index subject.now (selector_text index) index) }
        ensures kept { Keeps self.old self.new }
    {
        let text = selector_text(self.ast.allocator(), index)?;
        self.ast.push_index_fixed(*subject, &text, index)
    }

    /// The range `s[hi:lo]` between two bounds that are expressions.
    ///
    /// # Errors
    /// `AllocError` where a growth was refused; the file is unchanged.
    pub fn make_slice_expr(
        &mut self,
        subject: &IndexableExpr,
        hi: &Expr,
        lo: &Expr,
    ) -> Result<Slice, AllocError>
        requires subject { OwnsIndexable self.old subject.now }
        requires hi { OwnsExpr self.old hi.now }
        requires lo { OwnsExpr self.old lo.now }
        ensures built { Builds self.old self.new result (λ b. record { id = next_node b })
            (λ b. with_expr (SliceTree (tree_of b (record { id = subject.now.id }))
            (tree_of b hi.now) (tree_of b lo.now)) b) }
        ensures kept { Keeps self.old self.new }
    {
        self.ast.push_slice(*subject, *hi, *lo)
    }

    /// The bit `s[index]`, by an expression.
    ///
    /// # Errors
    /// `AllocError` where a growth was refused; the file is unchanged.
    pub fn make_index_expr(
        &mut self,
        subject: &IndexableExpr,
        index: &Expr,
    ) -> Result<Index, AllocError>
        requires subject { OwnsIndexable self.old subject.now }
        requires index { OwnsExpr self.old index.now }
        ensures built { Builds self.old self.new result (λ b. record { id = next_node b })
            (λ b. with_expr (IndexTree (tree_of b (record { id = subject.now.id }))
            (tree_of b index.now)) b) }
        ensures kept { Keeps self.old self.new }
    {
        self.ast.push_index(*subject, *index)
    }

    /// The range `s[start +: width]` of so many bits upwards.
    ///
    /// # Errors
    /// `AllocError` where a growth was refused; the file is unchanged.
    pub fn make_indexed_part_select(
        &mut self,
        subject: &IndexableExpr,
        start: &Expr,
        width: i64,
    ) -> Result<Expr, AllocError>
        requires subject { OwnsIndexable self.old subject.now }
        requires start { OwnsExpr self.old start.now }
        requires width { pos 1 ≤ℤ width }
        ensures built { Builds self.old self.new result next_expr
            (λ b. with_expr (PartSelectTree (tree_of b (record { id = subject.now.id }))
            (tree_of b start.now) width) b) }
        ensures kept { Keeps self.old self.new }
    {
        self.push_expr(ExprNode::PartSelect(subject.to_expr(), *start, width))
    }

    /// The member `value.field` of a value of a named type, whose name prints as it is. The original crate lacks it.
    ///
    /// # Errors
    /// `AllocError` where a growth was refused; the file is unchanged.
    pub fn make_member(&mut self, value: &Expr, field: &str) -> Result<Expr, AllocError>
        requires { OwnsExpr self.old value.now }
        ensures built { Builds self.old self.new result next_expr
            (λ b. with_expr (MemberOfTree (tree_of b value.now) field.now) b) }
        ensures kept { Keeps self.old self.new }
    {
        let field = Word::new(self.ast.allocator(), field)?;
        self.push_expr(ExprNode::MemberOf(*value, field))
    }
}

/// The text of a number that selects: in decimal up to `i32::MAX`, which every tool reads, and above that in base 16
/// with a width of 64 bits.
#[tactic(auto, using(vast_literal::proofs::NumberLaws::signed_text))]
fn selector_text(alloc: Global, index: i64) -> Result<String, AllocError>
    requires { pos 0 ≤ℤ index }
    ensures text { IfOk result (λ text. string_bytes text ≡ selector_text index) }
    ensures token { IfOk result (λ text. IsTrue (is_literal_text (string_bytes text))) }
{
    if index <= i64::from(i32::MAX) {
        format!(in alloc; "{index}")
    } else {
        wide_text(alloc, index.unsigned_abs())
    }
}

/// The number in base 16 with a width of 64 bits.
fn wide_text(alloc: Global, number: u64) -> Result<String, AllocError>
    ensures text { IfOk result
        (λ text. string_bytes text ≡ format_text LiteralFormat.Hex 64 number) }
    ensures token { IfOk result (λ text. IsTrue (is_literal_text (string_bytes text))) }
{
    let text = format!(in alloc; "bits[64]:{number}")?;
    let Ok(literal) = Literal::parse(alloc, &text) else {
        unreachable!()
    };
    literal.format(alloc, LiteralFormat::Hex)
}
