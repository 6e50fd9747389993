//! Literals.

ghost use Rattle.std.specs.Prelude.{◌≡◌, pos, codes, None, Some};
ghost use Rattle.vast_literal.specs.Tree.{LiteralTree};
ghost use Rattle.vast_literal.specs.Pattern.{pattern};
ghost use Rattle.vast_core.specs.Growth.{Builds, next_expr, with_expr, decimal_literal};
ghost use Rattle.xlsynth_vast.specs.Refusals.{MayBuild};
ghost use Rattle.xlsynth_vast.specs.Keeps.{Keeps};
ghost use Rattle.xlsynth_vast.specs.Literals.{known_value, literal_in, pattern_literal, string_literal};

use crate::file::VastFile;
use std::alloc::AllocError;
use vast_core::{Expr, ExprNode};
use vast_literal::{Literal, LiteralFormat, VastFault, pattern_text, quoted_text};
use vast_names::Word;

/// The value of a literal, where it is known: where an `i64` can be it.
fn known_value(value: u128) -> Option<i64>
    ensures { result ≡ known_value value }
{
    i64::try_from(value).ok()
}

impl VastFile {
    /// The literal `bits[N]:value`, written in a format. `N` is 1 to 1,048,576; the value may have a sign, a radix mark
    /// (`0x`, `0b`, `0o` in either case) and underscores between its digits.
    ///
    /// # Errors
    /// `Refused` where the text is no literal, and then where the format doesn't take its number: the unsized formats
    /// have limits. `Memory` where a growth was refused. The file is unchanged.
    pub fn make_literal(&mut self, text: &str, format: &LiteralFormat) -> Result<Expr, VastFault>
        ensures built { MayBuild self.old self.new result
            (λ _. literal_in format.now text.now) next_expr
            with_expr }
        ensures kept { Keeps self.old self.new }
    {
        let alloc = self.ast.allocator();
        let literal = Literal::parse(alloc, text)?;
        literal.validate_format(alloc, *format)?;
        let text = Word::from_string(alloc, literal.format(alloc, *format)?)?;
        let node = ExprNode::Literal(text, known_value(literal.value()));
        Ok(self.push_expr(node)?)
    }

    /// The binary pattern of these digits `0`, `1` and `?`, the most significant first, as wide as they are many.
    ///
    /// # Errors
    /// `Refused` where there are no digits, more than 1,048,576, or others. `Memory` where a growth was refused. The
    /// file is unchanged.
    pub fn make_binary_pattern(&mut self, bits_msb: &str) -> Result<Expr, VastFault>
        ensures built { MayBuild self.old self.new result (λ _. pattern bits_msb.now) next_expr
            (λ text. with_expr (pattern_literal text)) }
        ensures kept { Keeps self.old self.new }
    {
        let alloc = self.ast.allocator();
        let text = Word::from_string(alloc, pattern_text(alloc, bits_msb)?)?;
        Ok(self.push_expr(ExprNode::Literal(text, None))?)
    }

    /// The string of this content: it stands between quotes, with escapes where they are needed.
    ///
    /// # Errors
    /// `AllocError` where a growth was refused; the file is unchanged.
    pub fn make_string_literal(&mut self, value: &str) -> Result<Expr, AllocError>
        ensures built { Builds self.old self.new result next_expr
            (with_expr (string_literal value.now)) }
        ensures kept { Keeps self.old self.new }
    {
        let text = quoted_text(self.ast.allocator(), value)?;
        self.push_expr(ExprNode::StringText(text))
    }

    /// The number in decimal, without a width; a negative one has its minus.
    ///
    /// # Errors
    /// `AllocError` where a growth was refused; the file is unchanged.
    #[tactic(auto, using(vast_literal::proofs::NumberLaws::signed_text))]
    pub fn make_unsized_decimal_literal(&mut self, value: i32) -> Result<Expr, AllocError>
        ensures built { Builds self.old self.new result next_expr
            (with_expr (decimal_literal value)) }
        ensures kept { Keeps self.old self.new }
    {
        let alloc = self.ast.allocator();
        let text = Word::from_string(alloc, format!(in alloc; "{value}")?)?;
        self.push_expr(ExprNode::Literal(text, Some(i64::from(value))))
    }

    /// All ones, `'1`.
    ///
    /// # Errors
    /// `AllocError` where a growth was refused; the file is unchanged.
    pub fn make_unsized_one_literal(&mut self) -> Result<Expr, AllocError>
        ensures built { Builds self.old self.new result next_expr
            (with_expr (LiteralTree (codes "'1") (Some (pos 1)))) }
        ensures kept { Keeps self.old self.new }
    {
        let text = Word::new(self.ast.allocator(), "'1")?;
        self.push_expr(ExprNode::Literal(text, Some(1)))
    }

    /// All zeros, `'0`.
    ///
    /// # Errors
    /// `AllocError` where a growth was refused; the file is unchanged.
    pub fn make_unsized_zero_literal(&mut self) -> Result<Expr, AllocError>
        ensures built { Builds self.old self.new result next_expr
            (with_expr (LiteralTree (codes "'0") (Some (pos 0)))) }
        ensures kept { Keeps self.old self.new }
    {
        let text = Word::new(self.ast.allocator(), "'0")?;
        self.push_expr(ExprNode::Literal(text, Some(0)))
    }

    /// All bits unknown, `'X`.
    ///
    /// # Errors
    /// `AllocError` where a growth was refused; the file is unchanged.
    pub fn make_unsized_x_literal(&mut self) -> Result<Expr, AllocError>
        ensures built { Builds self.old self.new result next_expr
            (with_expr (LiteralTree (codes "'X") None)) }
        ensures kept { Keeps self.old self.new }
    {
        let text = Word::new(self.ast.allocator(), "'X")?;
        self.push_expr(ExprNode::Literal(text, None))
    }
}
