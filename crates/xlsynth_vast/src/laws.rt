//! Laws. The functions compute nothing; the contract of each is a law over all files, or over the file at hand.

ghost use Rattle.vast_core.specs.Bench.{OwnsFunction, OwnsModule};
ghost use Rattle.vast_core.specs.Parents.{HasOneParent};
ghost use Rattle.xlsynth_vast.specs.Laws.{ContainersUnfold, HoistingAgain, ModuleNamesAreDistinct, FunctionNamesAreDistinct};
ghost use Rattle.xlsynth_vast.specs.Presence.{NothingIsMissing};
ghost use Rattle.xlsynth_vast.specs.Registers.{RegistersTakeTheirValues};

use crate::file::VastFile;
use vast_core::{VastFunction, VastModule};

/// Hoisting a module's declarations again, from the same member, changes nothing.
pub fn hoisting_again()
    ensures { HoistingAgain }
{}

/// In every file each block, conditional, case statement and loop stands in at most one place: a container has one
/// parent. So does each function and each always block. Nothing holds what the file does not have.
pub fn containers_have_one_parent(file: &VastFile)
    ensures { HasOneParent file.now }
{
    file.ast.file_is_sound();
}

/// The names that a module declares, of its ports, wires, regs, logics, variables and functions, are pairwise distinct in
/// every file, and they are the names that are taken in it.
pub fn module_names_are_distinct(file: &VastFile, owner: VastModule)
    requires { OwnsModule file.now owner }
    ensures { ModuleNamesAreDistinct file.now owner }
{
    file.ast.file_is_sound();
}

/// The names that a function declares, of its result, inputs and locals, are pairwise distinct in every file, and they
/// are the names that are taken in it.
pub fn function_names_are_distinct(file: &VastFile, function: VastFunction)
    requires { OwnsFunction file.now function }
    ensures { FunctionNamesAreDistinct file.now function }
{
    let _declared = file.ast.function(function);
}

/// By the block of [`crate::helpers::add_registers`] each register takes its value, whatever signals hold: its reset
/// value where the reset is active and it has one, else its next value where it has no enable or the enable holds, else
/// its own.
pub fn registers_take_their_values()
    ensures { RegistersTakeTheirValues }
{}

/// In every file a container's tree is made of the trees of what it holds, however deep containers are nested: none is cut
/// off.
pub fn containers_unfold(file: &VastFile)
    ensures { ContainersUnfold file.now }
{
    file.ast.file_is_sound();
}

/// In every file what its lists name is there: only a blank line is a blank line in the tree, a block's tree has the
/// statements that the file has for it, and each port of a module is one of the file's.
pub fn nothing_is_missing(file: &VastFile)
    ensures { NothingIsMissing file.now }
{
    file.ast.file_is_sound();
}
