//! Why a type has no width and no bit count, in words.

ghost use Rattle.std.specs.Prelude.{◌≡◌, MatchResult, IsTrue, codes, string_bytes};
ghost use Rattle.vast_literal.specs.Fault.{HasText};
ghost use Rattle.vast_core.specs.Bench.{OwnsExpr, OwnsType, tree_of, type_of};
ghost use Rattle.vast_literal.specs.Shape.{is_external};
ghost use Rattle.vast_core.specs.View.{bench};
ghost use Rattle.vast_print.specs.Text.{expr_text};
ghost use Rattle.xlsynth_vast.specs.Widths.{no_literal, uncounted};

use std::alloc::AllocError;
use vast_core::{Ast, Expr, TypeNode, VastDataType};
use vast_literal::{VastError, VastFault};
use vast_print::print_expr;

/// The refusal of this text, or out of memory where the text could not be made.
pub(crate) fn refusal(text: Result<String, AllocError>) -> VastFault
    ensures { MatchResult text (λ t. HasText result (string_bytes t))
        (λ error. result ≡ VastFault.Memory error) }
{
    match text {
        Ok(text) => VastFault::Refused(VastError(text)),
        Err(error) => VastFault::Memory(error),
    }
}

/// A vector's width is no literal with a value: the refusal has the width's text, or is that of its printing.
pub(crate) fn no_literal(ast: &Ast, width: Expr) -> VastFault
    requires { OwnsExpr (bench ast.now) width }
    ensures { HasText result (no_literal (expr_text (tree_of (bench ast.now) width))) }
{
    match print_expr(ast, width) {
        Ok(text) => refusal(format!(in ast.allocator(); "Width is not a literal: {text}")),
        Err(fault) => fault,
    }
}

/// A type is neither a scalar nor a vector.
pub(crate) fn no_declared_width(ast: &Ast) -> VastFault
    ensures { HasText result (codes "data type does not have a declared bit-vector width") }
{
    let words = "data type does not have a declared bit-vector width";
    refusal(String::from_str(ast.allocator(), words))
}

/// A type is declared elsewhere.
pub(crate) fn no_known_width(ast: &Ast, data_type: VastDataType) -> VastFault
    requires owned { OwnsType (bench ast.now) data_type }
    requires external { IsTrue (is_external (type_of (bench ast.now) data_type)) }
    ensures { HasText result (uncounted (type_of (bench ast.now) data_type)) }
{
    let alloc = ast.allocator();
    match ast.data_type(data_type) {
        TypeNode::External(name) => refusal(format!(in alloc;
            "external type `{name}` has no known bit width"
        )),
        TypeNode::Package(package) => refusal(format!(in alloc;
            "external type `{}::{}` has no known bit width",
            package.package_name, package.name
        )),
        _ => unreachable!(),
    }
}

/// A count is above `i64::MAX`.
pub(crate) fn count_exceeds(ast: &Ast) -> VastFault
    ensures { HasText result (codes "array bit count exceeds i64") }
{
    refusal(String::from_str(ast.allocator(), "array bit count exceeds i64"))
}
