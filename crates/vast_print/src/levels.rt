//! Operators, their precedence, and where parentheses stand.

ghost use Rattle.std.specs.Prelude.{◌≡◌};
ghost use Rattle.vast_literal.specs.Shape.{binary_precedence, is_negative_literal, is_reduction, is_reduction_operator, is_scalar_name, is_scalar_type, is_width_cast, is_zero, left_child_wraps, highest_index_wraps, precedence, right_child_wraps, select_wraps, ternary_wraps, unary_wraps};
ghost use Rattle.vast_core.specs.Bench.{OwnsExpr, OwnsType, tree_of, type_of};
ghost use Rattle.vast_core.specs.View.{bench};
ghost use Rattle.vast_print.specs.Internal.Bare.{is_bare_head};
ghost use Rattle.vast_print.specs.Levels.{unary_operator_text, binary_operator_text};

use crate::bare::is_bare;
use vast_core::{Ast, BinaryOperator, Expr, ExprNode, TypeNode, UnaryOperator, VastDataType};

/// The operator before an operand.
#[tactic(auto, unfolding(vast_literal::specs::NormalExpr::unary_operator_token))]
pub(crate) fn unary_operator_text(operator: UnaryOperator) -> &'static str
    ensures { result.now ≡ unary_operator_text operator }
{
    match operator {
        UnaryOperator::Negate => "-",
        UnaryOperator::BitwiseNot => "~",
        UnaryOperator::LogicalNot => "!",
        UnaryOperator::AndReduce => "&",
        UnaryOperator::OrReduce => "|",
        UnaryOperator::XorReduce => "^",
    }
}

/// The operator between two operands, with its spaces.
#[tactic(auto, unfolding(vast_literal::specs::NormalExpr::binary_operator_token))]
pub(crate) fn binary_operator_text(operator: BinaryOperator) -> &'static str
    ensures { result.now ≡ binary_operator_text operator }
{
    match operator {
        BinaryOperator::Add => " + ",
        BinaryOperator::Sub => " - ",
        BinaryOperator::Mul => " * ",
        BinaryOperator::Div => " / ",
        BinaryOperator::Mod => " % ",
        BinaryOperator::Power => " ** ",
        BinaryOperator::BitwiseAnd => " & ",
        BinaryOperator::BitwiseOr => " | ",
        BinaryOperator::BitwiseXor => " ^ ",
        BinaryOperator::Shll => " << ",
        BinaryOperator::Shra => " >>> ",
        BinaryOperator::Shrl => " >> ",
        BinaryOperator::Ne => " != ",
        BinaryOperator::CaseNe | BinaryOperator::NeX => " !== ",
        BinaryOperator::Eq => " == ",
        BinaryOperator::CaseEq | BinaryOperator::EqX => " === ",
        BinaryOperator::Ge => " >= ",
        BinaryOperator::Gt => " > ",
        BinaryOperator::Le => " <= ",
        BinaryOperator::Lt => " < ",
        BinaryOperator::LogicalAnd => " && ",
        BinaryOperator::LogicalOr => " || ",
    }
}

fn binary_precedence(operator: BinaryOperator) -> u8
    ensures { result ≡ binary_precedence operator }
{
    match operator {
        BinaryOperator::LogicalOr => 1,
        BinaryOperator::LogicalAnd => 2,
        BinaryOperator::BitwiseOr => 3,
        BinaryOperator::BitwiseXor => 4,
        BinaryOperator::BitwiseAnd => 5,
        BinaryOperator::Ne | BinaryOperator::CaseNe | BinaryOperator::NeX => 6,
        BinaryOperator::Eq | BinaryOperator::CaseEq | BinaryOperator::EqX => 6,
        BinaryOperator::Ge | BinaryOperator::Gt | BinaryOperator::Le | BinaryOperator::Lt => 7,
        BinaryOperator::Shll | BinaryOperator::Shra | BinaryOperator::Shrl => 8,
        BinaryOperator::Add | BinaryOperator::Sub => 9,
        BinaryOperator::Mul | BinaryOperator::Div | BinaryOperator::Mod => 10,
        BinaryOperator::Power => 11,
    }
}

fn precedence(ast: &Ast, e: Expr) -> u8
    requires { OwnsExpr (bench ast.now) e }
    ensures { result ≡ precedence (tree_of (bench ast.now) e) }
{
    match ast.expr(e) {
        ExprNode::Ternary(_, _, _) => 0,
        ExprNode::Binary(operator, _, _) => binary_precedence(*operator),
        ExprNode::Unary(_, _) => 12,
        _ => 13,
    }
}

fn is_reduction_operator(operator: UnaryOperator) -> bool
    ensures { result ≡ is_reduction_operator operator }
{
    match operator {
        UnaryOperator::Negate | UnaryOperator::BitwiseNot | UnaryOperator::LogicalNot => false,
        UnaryOperator::AndReduce | UnaryOperator::OrReduce | UnaryOperator::XorReduce => true,
    }
}

fn is_reduction(ast: &Ast, e: Expr) -> bool
    requires { OwnsExpr (bench ast.now) e }
    ensures { result ≡ is_reduction (tree_of (bench ast.now) e) }
{
    match ast.expr(e) {
        ExprNode::Unary(operator, _) => is_reduction_operator(*operator),
        _ => false,
    }
}

fn is_width_cast(ast: &Ast, e: Expr) -> bool
    requires { OwnsExpr (bench ast.now) e }
    ensures { result ≡ is_width_cast (tree_of (bench ast.now) e) }
{
    match ast.expr(e) {
        ExprNode::WidthCast(_, _) => true,
        _ => false,
    }
}

fn is_negative_literal(ast: &Ast, e: Expr) -> bool
    requires { OwnsExpr (bench ast.now) e }
    ensures { result ≡ is_negative_literal (tree_of (bench ast.now) e) }
{
    match ast.expr(e) {
        ExprNode::Literal(text, _) => match text.as_str().as_bytes().first() {
            Some(first) => *first == b'-',
            None => false,
        },
        _ => false,
    }
}

fn is_scalar_type(ast: &Ast, t: VastDataType) -> bool
    requires { OwnsType (bench ast.now) t }
    ensures { result ≡ is_scalar_type (type_of (bench ast.now) t) }
{
    match ast.data_type(t) {
        TypeNode::Scalar(_) => true,
        _ => false,
    }
}

/// Whether an expression is a name that carries a scalar type.
pub(crate) fn is_scalar_name(ast: &Ast, e: Expr) -> bool
    requires { OwnsExpr (bench ast.now) e }
    ensures { result ≡ is_scalar_name (tree_of (bench ast.now) e) }
{
    match ast.expr(e) {
        ExprNode::Name(_, Some(t)) => is_scalar_type(ast, *t),
        _ => false,
    }
}

/// Whether an expression is a literal of value zero.
pub(crate) fn is_zero(ast: &Ast, e: Expr) -> bool
    requires { OwnsExpr (bench ast.now) e }
    ensures { result ≡ is_zero (tree_of (bench ast.now) e) }
{
    match ast.expr(e) {
        ExprNode::Literal(_, Some(value)) => *value == 0,
        _ => false,
    }
}

/// Whether an expression's text is a number or a word.
#[tactic(auto, unfolding(crate::specs::Internal::Bare::is_bare_head))]
pub(crate) fn is_bare_expr(ast: &Ast, e: Expr) -> bool
    requires { OwnsExpr (bench ast.now) e }
    ensures { result ≡ is_bare_head (tree_of (bench ast.now) e) }
{
    match ast.expr(e) {
        ExprNode::Name(text, _) => is_bare(text.as_str()),
        ExprNode::Literal(text, _) => is_bare(text.as_str()),
        ExprNode::StringText(text) => is_bare(text),
        ExprNode::Index(subject, _) => is_scalar_name(ast, *subject) && is_bare_expr(ast, *subject),
        ExprNode::Slice(subject, _, _) => is_scalar_name(ast, *subject)
            && is_bare_expr(ast, *subject),
        _ => false,
    }
}

/// Whether an operand needs parentheses under a unary operator.
pub(crate) fn unary_wraps(ast: &Ast, e: Expr) -> bool
    requires { OwnsExpr (bench ast.now) e }
    ensures { result ≡ unary_wraps (tree_of (bench ast.now) e) }
{
    precedence(ast, e) <= 12 || is_width_cast(ast, e) || is_negative_literal(ast, e)
}

/// Whether an operand needs parentheses to the left of a binary operator.
pub(crate) fn left_wraps(ast: &Ast, operator: BinaryOperator, e: Expr) -> bool
    requires { OwnsExpr (bench ast.now) e }
    ensures { result ≡ left_child_wraps operator (tree_of (bench ast.now) e) }
{
    precedence(ast, e) < binary_precedence(operator) || is_reduction(ast, e)
}

/// Whether an operand needs parentheses to the right of a binary operator.
pub(crate) fn right_wraps(ast: &Ast, operator: BinaryOperator, e: Expr) -> bool
    requires { OwnsExpr (bench ast.now) e }
    ensures { result ≡ right_child_wraps operator (tree_of (bench ast.now) e) }
{
    precedence(ast, e) <= binary_precedence(operator) || is_reduction(ast, e)
}

/// Whether an operand of a ternary needs parentheses.
pub(crate) fn ternary_wraps(ast: &Ast, e: Expr) -> bool
    requires { OwnsExpr (bench ast.now) e }
    ensures { result ≡ ternary_wraps (tree_of (bench ast.now) e) }
{
    precedence(ast, e) == 0
}

/// Whether the subject of a select needs parentheses.
pub(crate) fn select_wraps(ast: &Ast, e: Expr) -> bool
    requires { OwnsExpr (bench ast.now) e }
    ensures { result ≡ select_wraps (tree_of (bench ast.now) e) }
{
    precedence(ast, e) < 13 || is_negative_literal(ast, e)
}

/// Whether a width needs parentheses before ` - 1`.
pub(crate) fn highest_index_wraps(ast: &Ast, e: Expr) -> bool
    requires { OwnsExpr (bench ast.now) e }
    ensures { result ≡ highest_index_wraps (tree_of (bench ast.now) e) }
{
    precedence(ast, e) < 9
}
