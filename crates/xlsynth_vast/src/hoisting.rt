//! Hoisting of declarations, as in the crate `xlsynth-vast`.

ghost use Rattle.std.specs.Prelude.{◌≤◌, length};
ghost use Rattle.vast_core.specs.Bench.{OwnsModule};
ghost use Rattle.vast_core.specs.Growth.{Leaves};
ghost use Rattle.vast_core.specs.Hoisting.{with_hoisted};
ghost use Rattle.xlsynth_vast.specs.Keeps.{Keeps};
ghost use Rattle.xlsynth_vast.specs.Inspections.{members_in};

use crate::file::VastFile;
use std::alloc::AllocError;
use vast_core::VastModule;

impl VastFile {
    /// Puts the module's wires, regs, logics and variables from the member `start` on before the other members from there
    /// on. Declarations keep their order, and so do the others; the members before `start` stay. `start` is at most
    /// [`VastFile::module_member_count`].
    ///
    /// Hoisting again from the same start changes nothing ([`crate::laws::hoisting_again`]).
    ///
    /// # Errors
    /// `AllocError` where memory was refused; the file is unchanged.
    pub fn hoist_module_declarations(
        &mut self,
        owner: VastModule,
        start: usize,
    ) -> Result<(), AllocError>
        requires owner { OwnsModule self.old owner }
        requires start { start ≤ length (members_in self.old owner) }
        ensures built { Leaves self.old self.new result (with_hoisted owner start) }
        ensures kept { Keeps self.old self.new }
    {
        self.ast.hoist_declarations(owner, start)
    }
}
