//! Imports of all that a package declares (IEEE 1800-2017, 26.3), in a module and in a file. The crate `xlsynth-vast` has
//! none.

ghost use Rattle.vast_core.specs.Bench.{OwnsModule};
ghost use Rattle.vast_core.specs.declared.node.FileItem.TheVariants.{Import as FileImportEntry};
ghost use Rattle.vast_core.specs.declared.node.Member.TheVariants.{Import as ImportEntry};
ghost use Rattle.vast_core.specs.Growth.{Leaves, with_item, with_member};
ghost use Rattle.xlsynth_vast.specs.Keeps.{Keeps};

use crate::file::VastFile;
use std::alloc::AllocError;
use vast_core::{Member, Scope, VastModule};
use vast_names::Text;

impl VastFile {
    /// `import PACKAGE::*;`, as the module's last member.
    ///
    /// # Errors
    /// `AllocError` where a growth was refused; the file is unchanged.
    pub fn add_import(&mut self, owner: VastModule, package: &str) -> Result<(), AllocError>
        requires { OwnsModule self.old owner }
        ensures built { Leaves self.old self.new result
            (with_member owner (ImportEntry «package».now)) }
        ensures kept { Keeps self.old self.new }
    {
        let package = Text::new(self.ast.allocator(), package)?;
        self.append_member(Scope::Module(owner), Member::Import(package))
    }

    /// `import PACKAGE::*;`, as the last item of the file.
    ///
    /// # Errors
    /// `AllocError` where a growth was refused; the file is unchanged.
    pub fn add_file_import(&mut self, package: &str) -> Result<(), AllocError>
        ensures built { Leaves self.old self.new result (with_item (FileImportEntry «package».now)) }
        ensures kept { Keeps self.old self.new }
    {
        self.ast.append_file_import(package)
    }
}
