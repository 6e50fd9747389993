//! Whole files, and single expressions.

ghost use Rattle.std.specs.Prelude.{IfOk, string_bytes};
ghost use Rattle.vast_core.specs.Bench.{OwnsExpr, tree_of};
ghost use Rattle.vast_core.specs.Sound.{EntrySound};
ghost use Rattle.vast_core.specs.FileTree.{tree, item_tree};
ghost use Rattle.vast_core.specs.View.{bench};
ghost use Rattle.vast_literal.specs.Tree.{IncludeItem};
ghost use Rattle.vast_print.specs.Derived.{DerivesIfPlain, FileDerivesIfPlain};
ghost use Rattle.vast_print.specs.Emits.{Emits, EmitsText};
ghost use Rattle.vast_print.specs.Internal.Emits.{Faults};
ghost use Rattle.vast_print.specs.Output.{Unstopped, inline, next};
ghost use Rattle.vast_print.specs.Internal.Output.{Writes, WritesLines};
ghost use Rattle.vast_print.specs.Page.{written};
ghost use Rattle.vast_print.specs.Text.{expr_text};
ghost use Rattle.vast_print.specs.Layout.{item_page, layout};

use crate::expression::print_expression;
use crate::imports::print_import;
use crate::module::print_module;
use crate::refusal::PrintFault;
use crate::typedefs::print_typedef;
use crate::writer::Writer;
use std::alloc::Global;
use vast_core::{Ast, Expr, FileItem};
use vast_literal::{VastError, VastFault};

/// Writes the inclusion of a file.
#[tactic(auto, using(crate::proofs::ArenaLaws::items))]
fn print_include(ast: &Ast, path: &str, out: &mut Writer) -> Result<(), PrintFault>
    ensures { WritesLines out.old out.new result
        (item_page (bench ast.now).file_type (IncludeItem path.now)) }
{
    out.next()?;
    out.word("`include \"")?;
    out.written(path)?;
    out.word("\"")?;
    Ok(())
}

/// Writes an item of the file on lines of its own.
#[tactic(auto, using(crate::proofs::ArenaLaws::items))]
fn print_item(ast: &Ast, item: &FileItem, out: &mut Writer) -> Result<(), PrintFault>
    requires { EntrySound (bench ast.now) item.now }
    ensures { WritesLines out.old out.new result
        (item_page (bench ast.now).file_type (item_tree (bench ast.now) item.now)) }
{
    match item {
        FileItem::Module(m) => print_module(ast, *m, out),
        FileItem::Include(path) => print_include(ast, path.as_str(), out),
        FileItem::Import(package) => print_import(package.as_str(), out),
        FileItem::Typedef(typedef) => print_typedef(ast, typedef, out),
        FileItem::Comment(text) => Ok(out.comment(text.as_str())?),
        FileItem::BlankLine => Ok(out.next()?),
    }
}

#[tactic(auto, using(crate::proofs::ArenaLaws::listed))]
fn print_items(ast: &Ast, out: &mut Writer) -> Result<(), PrintFault>
    ensures { WritesLines out.old out.new result (layout (tree (bench ast.now))) }
{
    for item in ast.items() {
        print_item(ast, item, out)?;
    }
    Ok(())
}

/// The fault with the refusal's words.
fn fault_of(alloc: Global, fault: PrintFault) -> VastFault
    ensures { Faults fault result }
{
    match fault {
        PrintFault::Refused(refusal) => match String::from_str(alloc, refusal.text()) {
            Ok(text) => VastFault::Refused(VastError(text)),
            Err(error) => VastFault::Memory(error),
        },
        PrintFault::Memory(error) => VastFault::Memory(error),
    }
}

/// The text of a file: the printed layout of its tree. Where the file is plain, the grammar derives its normal form from
/// the text, and no other tree.
///
/// # Errors
/// The first refusal in the order of the text, a wrong select of a named scalar; or out of memory.
pub fn print_file(ast: &Ast) -> Result<String, VastFault>
    ensures text { Emits (layout (tree (bench ast.now))) result }
    ensures derived { IfOk result
        (λ text. FileDerivesIfPlain (string_bytes text) (tree (bench ast.now))) }
{
    ast.file_is_well_formed();
    let alloc = ast.allocator();
    let mut out = Writer::new(alloc);
    match print_items(ast, &mut out) {
        Ok(()) => Ok(out.finish()?),
        Err(fault) => Err(fault_of(alloc, fault)),
    }
}

/// The text of one expression. Where its printed names are plain and it has no edges, the grammar derives its normal form
/// from the text, and no other tree.
///
/// # Errors
/// As [`print_file`].
pub fn print_expr(ast: &Ast, e: Expr) -> Result<String, VastFault>
    requires { OwnsExpr (bench ast.now) e }
    ensures text { EmitsText (expr_text (tree_of (bench ast.now) e)) result }
    ensures derived { IfOk result
        (λ text. DerivesIfPlain (string_bytes text) (tree_of (bench ast.now) e)) }
{
    ast.trees_are_well_formed();
    let alloc = ast.allocator();
    let mut out = Writer::new(alloc);
    match print_line(ast, e, &mut out) {
        Ok(()) => Ok(out.finish_line()),
        Err(fault) => Err(fault_of(alloc, fault)),
    }
}

fn print_line(ast: &Ast, e: Expr, out: &mut Writer) -> Result<(), PrintFault>
    requires { OwnsExpr (bench ast.now) e }
    ensures { Writes out.old out.new result
        (inline out.old.margin (next out.old.margin (Unstopped out.old.draft))
        (written (expr_text (tree_of (bench ast.now) e)))) }
{
    out.next()?;
    print_expression(ast, e, out)
}
