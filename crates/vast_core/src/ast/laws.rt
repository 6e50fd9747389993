//! Laws of every file: what its type keeps. The functions compute nothing.

ghost use Rattle.std.specs.Prelude.{◌≡◌, true};
ghost use Rattle.vast_core.specs.Bench.{AreWellFormed};
ghost use Rattle.vast_core.specs.FileTree.{tree};
ghost use Rattle.vast_core.specs.Sound.{FileSound};
ghost use Rattle.vast_core.specs.View.{bench};
ghost use Rattle.vast_literal.specs.WellFormedFile.{is_well_formed_file};

use crate::ast::Ast;

impl Ast {
    /// Each expression and each type of the file is well formed in all its parts: a law, which computes nothing.
    pub fn trees_are_well_formed(&self)
        ensures { AreWellFormed (bench self.now) }
    {
        let _ = &self.terms;
    }

    /// Each handle in a record or a list is the file's own, what a container holds is newer than it, each has one parent,
    /// the names that a module declares are distinct, and kinds stand where the grammar has them: a law, which computes
    /// nothing.
    pub fn file_is_sound(&self)
        ensures { FileSound (bench self.now) }
    {
        let _ = &self.nests;
    }

    /// The file's tree is well formed: its expressions are, what declares is a wire, reg or logic, locals are regs and
    /// logics, events edges and names, and each parameter of an instance has a value: a law, which computes nothing.
    pub fn file_is_well_formed(&self)
        ensures { is_well_formed_file (tree (bench self.now)) ≡ true }
    {
        self.trees_are_well_formed();
        self.file_is_sound();
    }
}
