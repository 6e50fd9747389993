//! Modules, and the items of the file.

ghost use Rattle.std.specs.Prelude.{◌≡◌, ◌↔◌, IsTrue, All, length, slice_get};
ghost use Rattle.vast_core.specs.Records.{module_record, IsFree, IncludeEntry, FileImportEntry, FileCommentEntry, FileBlankEntry};
ghost use Rattle.vast_core.specs.Bench.{OwnsModule, OwnsPort};
ghost use Rattle.vast_core.specs.Sound.{MemberSound, ParameterPortSound, EntrySound};
ghost use Rattle.vast_core.specs.Growth.{Grows, GrowsBy, next_module, with_module, with_item};
ghost use Rattle.vast_core.specs.Hoisting.{members_of};
ghost use Rattle.vast_core.specs.View.{bench};

use crate::ast::Ast;
use crate::ast::arrivals::{Node, Terms};
use crate::ast::growth::Place;
use crate::handle::VastModule;
use crate::node::{FileItem, Module};
use std::alloc::AllocError;
use vast_names::{NameTable, Text};

impl Module {
    /// Whether no port, wire, variable or function of the module has this name.
    pub fn name_is_free(&self, name: &str) -> bool
        ensures { IsTrue result ↔ IsFree name.now (module_record self.now).names }
    {
        !self.names.contains(name)
    }
}

impl Ast {
    /// Adds an empty module as the last item of the file.
    ///
    /// # Errors
    /// `AllocError` where a growth was refused; nothing changed.
    pub fn push_module(&mut self, name: &str) -> Result<VastModule, AllocError>
        ensures { Grows self.old self.new result next_module (with_module name.now) }
    {
        let name = String::from_str(self.alloc, name)?;
        let handle = VastModule {
            id: self.next_module(),
        };
        self.grow(
            Place::File(FileItem::Module(handle)),
            Terms::Nothing,
            Node::Module(Module {
                name,
                parameters: Vec::new(self.alloc),
                ports: Vec::new(self.alloc),
                members: Vec::new(self.alloc),
                names: NameTable::new(self.alloc),
            }),
            false,
        )?;
        Ok(handle)
    }

    #[tactic(auto, using(crate::proofs::EntersRecords::enters_records))]
    fn push_item(&mut self, item: FileItem) -> Result<(), AllocError>
        requires { EntrySound (bench self.old) item }
        ensures { GrowsBy self.old self.new result (with_item item) }
    {
        self.grow(Place::File(item), Terms::Nothing, Node::Nothing, false)
    }

    /// Adds the inclusion of a file as the last item.
    ///
    /// # Errors
    /// `AllocError` where a growth was refused; nothing changed.
    pub fn append_include(&mut self, path: &str) -> Result<(), AllocError>
        ensures { GrowsBy self.old self.new result (with_item (IncludeEntry path.now)) }
    {
        let path = Text::new(self.alloc, path)?;
        self.push_item(FileItem::Include(path))
    }

    /// Adds the import of a package as the last item.
    ///
    /// # Errors
    /// `AllocError` where a growth was refused; nothing changed.
    pub fn append_file_import(&mut self, package: &str) -> Result<(), AllocError>
        ensures { GrowsBy self.old self.new result (with_item (FileImportEntry «package».now)) }
    {
        let package = Text::new(self.alloc, package)?;
        self.push_item(FileItem::Import(package))
    }

    /// Adds a comment as the last item of the file.
    ///
    /// # Errors
    /// `AllocError` where a growth was refused; nothing changed.
    pub fn append_file_comment(&mut self, text: &str) -> Result<(), AllocError>
        ensures { GrowsBy self.old self.new result (with_item (FileCommentEntry text.now)) }
    {
        let text = Text::new(self.alloc, text)?;
        self.push_item(FileItem::Comment(text))
    }

    /// Adds a blank line as the last item of the file.
    ///
    /// # Errors
    /// `AllocError` where a growth was refused; nothing changed.
    pub fn append_file_blank_line(&mut self) -> Result<(), AllocError>
        ensures { GrowsBy self.old self.new result (with_item FileBlankEntry) }
    {
        self.push_item(FileItem::BlankLine)
    }

    /// A module's name, lists and names. Its ports and what its members are made of are the file's.
    pub fn module(&self, m: VastModule) -> &Module
        requires { OwnsModule (bench self.now) m }
        ensures there { slice_get (bench self.now).modules m.id.index
            ≡ Some (module_record result.now) }
        ensures parameters { All
            (ParameterPortSound (bench self.now))
            result.now.parameters.items }
        ensures ports { All (OwnsPort (bench self.now)) result.now.ports.items }
        ensures members { All (MemberSound (bench self.now))
            result.now.members.items }
    {
        &self.modules[m.id.index]
    }

    /// How many members a module has.
    pub fn member_count(&self, m: VastModule) -> usize
        requires { OwnsModule (bench self.now) m }
        ensures { result
            ≡ length (members_of (slice_get (bench self.now).modules m.id.index)) }
    {
        self.module(m).members.len()
    }

    /// The items of the file, in order. Its modules are the file's.
    pub fn items(&self) -> &[FileItem]
        ensures items { (bench self.now).items ≡ result.now }
        ensures owned { All (EntrySound (bench self.now)) result.now }
    {
        &self.items
    }
}
