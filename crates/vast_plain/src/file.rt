//! Whole files.

ghost use Rattle.std.specs.Prelude.{◌≡◌, [], ◌∷◌, IfOk};
ghost use Rattle.vast_literal.specs.PlainFile.{are_plain_items, is_plain_file};
ghost use Rattle.vast_core.specs.Sound.{EntrySound};
ghost use Rattle.vast_core.specs.FileTree.{tree, item_tree};
ghost use Rattle.vast_core.specs.View.{bench};
ghost use Rattle.vast_plain.specs.Internal.Values.{Answers};

use crate::module::is_plain_module;
use crate::names::{is_plain_name, is_plain_path};
use crate::typedefs::is_plain_typedef;
use std::alloc::AllocError;
use vast_core::{Ast, FileItem};

/// Whether an item of the file is plain.
#[tactic(auto, using(crate::proofs::Lists::bytes))]
fn is_plain_item(ast: &Ast, item: &FileItem) -> Result<bool, AllocError>
    requires { EntrySound (bench ast.now) item.now }
    ensures { Answers (are_plain_items (item_tree (bench ast.now) item.now ∷ [])) result }
{
    match item {
        FileItem::Module(m) => is_plain_module(ast, ast.module(*m)),
        FileItem::Include(path) => Ok(is_plain_path(path.as_str())),
        FileItem::Import(package) => Ok(is_plain_name(package.as_str())),
        FileItem::Typedef(typedef) => is_plain_typedef(ast, typedef),
        FileItem::Comment(_) => Ok(true),
        FileItem::BlankLine => Ok(true),
    }
}

/// Whether the file is plain: each printed name is an identifier and no keyword, edges stand only in lists of events,
/// left sides are names, selects, members or concatenations, an include's path has no quote, backslash or line break,
/// and there is no inline text. Where it is, the grammar derives the normal form of the file's tree from its text.
///
/// It takes memory for the parts of an expression that wait to be looked at, and stack in proportion to how deep
/// statements and loops are nested.
///
/// # Errors
/// `AllocError` where memory was refused.
#[tactic(auto, using(crate::proofs::Lists::items))]
pub fn is_plain_file(ast: &Ast) -> Result<bool, AllocError>
    ensures { IfOk result (λ is_plain. is_plain ≡ is_plain_file (tree (bench ast.now))) }
{
    for item in ast.items() {
        if !is_plain_item(ast, item)? {
            return Ok(false);
        }
    }
    Ok(true)
}
