//! Modules: their making and their names.

ghost use Rattle.std.specs.Prelude.{◌≡◌, ◌↔◌, IsTrue, IfOk, string_bytes};
ghost use Rattle.vast_core.specs.Bench.{OwnsModule, NameIsFree};
ghost use Rattle.vast_core.specs.Growth.{Builds, next_module, with_module};
ghost use Rattle.xlsynth_vast.specs.Keeps.{Keeps};
ghost use Rattle.xlsynth_vast.specs.Conditions.{is_free};
ghost use Rattle.xlsynth_vast.specs.Equations.{name_of};

use crate::file::VastFile;
use std::alloc::AllocError;
use vast_core::VastModule;

impl VastFile {
    /// An empty module, as the last item of the file.
    ///
    /// # Errors
    /// `AllocError` where a growth was refused; the file is unchanged.
    pub fn add_module(&mut self, name: &str) -> Result<VastModule, AllocError>
        ensures built { Builds self.old self.new result next_module (with_module name.now) }
        ensures kept { Keeps self.old self.new }
    {
        self.ast.push_module(name)
    }

    /// The module's name.
    ///
    /// # Errors
    /// `AllocError` where memory for the name was refused.
    pub fn module_name(&self, owner: VastModule) -> Result<String, AllocError>
        requires { OwnsModule self.now owner }
        ensures { IfOk result (λ name. string_bytes name ≡ name_of self.now owner) }
    {
        let module = self.ast.module(owner);
        String::from_str(self.ast.allocator(), &module.name)
    }

    /// Whether no port, wire, variable or function of the module has this name: the condition of the calls that
    /// declare one.
    pub fn name_is_free(&self, owner: VastModule, name: &str) -> bool
        requires { OwnsModule self.now owner }
        ensures free { IsTrue result ↔ NameIsFree self.now owner name.now }
        ensures test { result ≡ is_free self.now owner name.now }
    {
        let module = self.ast.module(owner);
        module.name_is_free(name)
    }
}
