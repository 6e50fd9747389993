//! Concatenations, patterns, macros, and calls with arguments.

ghost use Rattle.std.specs.Prelude.{All, IfSome};
ghost use Rattle.vast_literal.specs.Tree.{ConcatTree, PatternTree, MacroTree, CallTree, NoArguments, SomeArguments};
ghost use Rattle.vast_core.specs.Bench.{OwnsExpr, maybe_tree_of, trees_of};
ghost use Rattle.vast_core.specs.View.{bench};
ghost use Rattle.vast_print.specs.Internal.Output.{WritesText};
ghost use Rattle.vast_print.specs.Text.{expr_text};
ghost use Rattle.vast_print.specs.Internal.Pieces.{PiecesOwned, BeginsExpr};

use crate::pieces::{Piece, push_list, push_part, push_plain};
use crate::refusal::PrintFault;
use crate::writer::Writer;
use vast_core::{Ast, Expr};

/// With a count, the parts stand in braces of their own.
#[tactic(auto, using(crate::proofs::PieceLaws::lists), unfolding(crate::specs::Text::expr_text, crate::specs::Text::replicated, crate::specs::Text::arguments_text))]
pub(crate) fn begin_concat(
    ast: &Ast,
    count: Option<Expr>,
    parts: &[Expr],
    out: &mut Writer,
    work: &mut Vec<Piece<'_>>,
) -> Result<(), PrintFault>
    requires count { IfSome count (OwnsExpr (bench ast.now)) }
    requires parts { All (OwnsExpr (bench ast.now)) parts.now }
    requires owned { PiecesOwned (bench ast.now) work.old.items }
    ensures { BeginsExpr (bench ast.now) out.old out.new work.old.items work.new.items result
        (ConcatTree (maybe_tree_of (bench ast.now) count) (trees_of (bench ast.now) parts.now)) }
{
    out.word("{")?;
    push_plain(ast, "}", work)?;
    match count {
        Some(count) => {
            push_plain(ast, "}", work)?;
            push_list(ast, parts, work)?;
            push_plain(ast, "{", work)?;
            push_part(ast, count, false, work)?;
        }
        None => push_list(ast, parts, work)?,
    }
    Ok(())
}

#[tactic(auto, using(crate::proofs::PieceLaws::lists), unfolding(crate::specs::Text::expr_text, crate::specs::Text::replicated, crate::specs::Text::arguments_text))]
pub(crate) fn begin_pattern(
    ast: &Ast,
    parts: &[Expr],
    out: &mut Writer,
    work: &mut Vec<Piece<'_>>,
) -> Result<(), PrintFault>
    requires parts { All (OwnsExpr (bench ast.now)) parts.now }
    requires owned { PiecesOwned (bench ast.now) work.old.items }
    ensures { BeginsExpr (bench ast.now) out.old out.new work.old.items work.new.items result
        (PatternTree (trees_of (bench ast.now) parts.now)) }
{
    out.word("'{")?;
    push_plain(ast, "}", work)?;
    push_list(ast, parts, work)?;
    Ok(())
}

#[tactic(auto, using(crate::proofs::PieceLaws::lists), unfolding(crate::specs::Text::expr_text, crate::specs::Text::replicated, crate::specs::Text::arguments_text))]
pub(crate) fn print_macro(name: &str, out: &mut Writer) -> Result<(), PrintFault>
    ensures { WritesText out.old out.new result (expr_text (MacroTree name.now NoArguments)) }
{
    out.word("`")?;
    out.written(name)?;
    Ok(())
}

#[tactic(auto, using(crate::proofs::PieceLaws::lists), unfolding(crate::specs::Text::expr_text, crate::specs::Text::replicated, crate::specs::Text::arguments_text))]
pub(crate) fn begin_macro_call(
    ast: &Ast,
    name: &str,
    arguments: &[Expr],
    out: &mut Writer,
    work: &mut Vec<Piece<'_>>,
) -> Result<(), PrintFault>
    requires arguments { All (OwnsExpr (bench ast.now)) arguments.now }
    requires owned { PiecesOwned (bench ast.now) work.old.items }
    ensures { BeginsExpr (bench ast.now) out.old out.new work.old.items work.new.items result
        (MacroTree name.now (SomeArguments (trees_of (bench ast.now) arguments.now))) }
{
    out.word("`")?;
    out.written(name)?;
    out.word("(")?;
    push_plain(ast, ")", work)?;
    push_list(ast, arguments, work)?;
    Ok(())
}

#[tactic(auto, using(crate::proofs::PieceLaws::lists), unfolding(crate::specs::Text::expr_text, crate::specs::Text::replicated, crate::specs::Text::arguments_text))]
pub(crate) fn begin_call(
    ast: &Ast,
    name: &str,
    arguments: &[Expr],
    out: &mut Writer,
    work: &mut Vec<Piece<'_>>,
) -> Result<(), PrintFault>
    requires arguments { All (OwnsExpr (bench ast.now)) arguments.now }
    requires owned { PiecesOwned (bench ast.now) work.old.items }
    ensures { BeginsExpr (bench ast.now) out.old out.new work.old.items work.new.items result
        (CallTree name.now (trees_of (bench ast.now) arguments.now)) }
{
    out.written(name)?;
    out.word("(")?;
    push_plain(ast, ")", work)?;
    push_list(ast, arguments, work)?;
    Ok(())
}
