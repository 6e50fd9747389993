//! The file itself: its making, its dialect, its handles, its text.

ghost use Rattle.std.specs.Prelude.{◌≡◌, ◌+◌, ◌↔◌, IsTrue, IsErr, IfOk, OnOk, OnErr, string_bytes};
ghost use Rattle.vast_core.specs.Bench.{start, tree_of, OwnsExpr};
ghost use Rattle.vast_core.specs.FileTree.{tree};
ghost use Rattle.vast_literal.specs.PlainFile.{is_plain_file};
ghost use Rattle.vast_print.specs.Derived.{DerivesIfPlain, FileDerivesIfPlain};
ghost use Rattle.vast_print.specs.Emits.{Emits, EmitsText};
ghost use Rattle.vast_print.specs.Text.{expr_text};
ghost use Rattle.vast_print.specs.Layout.{layout};

use std::alloc::{AllocError, Global};
use std::marker::Model;
use vast_core::{Ast, Expr, FileIds, Handle, IdsSpent, VastFileType};
use vast_literal::VastFault;
use vast_plain::is_plain_file;
use vast_print::{print_expr, print_file};

/// A file of Verilog or SystemVerilog: every node is made by a call on it and lives as long as it.
///
/// Expressions and types never change once made; containers grow at their ends. A call that is refused, for memory
/// too, leaves the file as it was.
#[derive(Drop)]
pub struct VastFile {
    pub(crate) ast: Ast,
}

impl Model for VastFile {
    ghost use Rattle.std.specs.Coded.{codes};
    ghost use Rattle.vast_core.specs.Bench.{Bench};
    ghost use Rattle.vast_core.specs.View.{bench};
    ghost use Rattle.xlsynth_vast.specs.Internal.TreeCode.{expr_code, type_code};

    ghost Value = { Bench };

    ghost coded = { Prim.hlevel (codes, expr_code, type_code) };

    ghost view = { λ f. bench f.ast };
}

impl VastFile {
    /// An empty file, with the next id. It takes no memory.
    ///
    /// # Errors
    /// [`IdsSpent`] exactly where the ids are spent; `ids` is then unchanged.
    pub fn new(
        alloc: Global,
        file_type: VastFileType,
        ids: &mut FileIds,
    ) -> Result<VastFile, IdsSpent>
        ensures file { IfOk result (λ file. file ≡ start file_type (ids.old + 1)) }
        ensures given { OnOk result (ids.new ≡ ids.old + 1) }
        ensures spent { IsErr result ↔ (ids.old ≡ u64.MAX) }
        ensures unchanged { OnErr result (ids.new ≡ ids.old) }
    {
        let id = ids.take()?;
        Ok(VastFile {
            ast: Ast::new(alloc, file_type, id),
        })
    }

    /// The dialect of the file.
    pub fn file_type(&self) -> VastFileType
        ensures { result ≡ self.now.file_type }
    {
        self.ast.file_type()
    }

    /// The allocator that was handed to [`VastFile::new`].
    pub fn allocator(&self) -> Global {
        self.ast.allocator()
    }

    /// Whether the handle belongs to the file: the condition of every call that takes it.
    pub fn owns<H: Handle>(&self, handle: &H) -> bool
        ensures { IsTrue result ↔ H.owned self.now handle.now }
    {
        handle.belongs_to(&self.ast)
    }

    /// The text of one expression. Where its printed names are plain and it has no edges, the grammar derives its normal
    /// form from the text, and no other tree.
    ///
    /// # Errors
    /// As [`VastFile::emit`].
    pub fn emit_expression(&self, e: &Expr) -> Result<String, VastFault>
        requires { OwnsExpr self.now e.now }
        ensures text { EmitsText (expr_text (tree_of self.now e.now)) result }
        ensures derived { IfOk result
            (λ text. DerivesIfPlain (string_bytes text) (tree_of self.now e.now)) }
    {
        print_expr(&self.ast, *e)
    }

    /// The text of the file: the printed layout of its tree. Where the file is plain, the grammar derives its normal form
    /// from the text, and no other tree.
    ///
    /// # Errors
    /// `Refused` exactly where the tree has no text, with the first refusal in the order of the text: a printed index
    /// or slice of a named scalar with a bound that is no literal of value zero. `Memory` where a growth was refused.
    pub fn emit(&self) -> Result<String, VastFault>
        ensures text { Emits (layout (tree self.now)) result }
        ensures derived { IfOk result
            (λ text. FileDerivesIfPlain (string_bytes text) (tree self.now)) }
    {
        print_file(&self.ast)
    }

    /// Whether the file is plain, the condition under which the grammar derives the normal form of its tree from the
    /// text that [`VastFile::emit`] returns: each printed name is an identifier and no keyword, left sides are names,
    /// selects, members or concatenations, edges stand only in lists of events, statements by themselves are calls, what a
    /// module declares has a kind's word or a type's name, enumerations are over bits, vectors and integers, an include's
    /// path has no quote, backslash or line break, and there is no inline text.
    ///
    /// # Errors
    /// `AllocError` where memory was refused.
    pub fn is_plain(&self) -> Result<bool, AllocError>
        ensures { IfOk result (λ is_plain. is_plain ≡ is_plain_file (tree self.now)) }
    {
        is_plain_file(&self.ast)
    }
}
