//! Imports of packages.

ghost use Rattle.vast_print.specs.Internal.Output.{WritesLines};
ghost use Rattle.vast_print.specs.Members.{import_text};
ghost use Rattle.vast_print.specs.Page.{written};

use crate::refusal::PrintFault;
use crate::writer::Writer;

/// Writes the import of all that a package declares on a line of its own.
#[tactic(auto, using(crate::proofs::ArenaLaws::imports))]
pub(crate) fn print_import(package: &str, out: &mut Writer) -> Result<(), PrintFault>
    ensures { WritesLines out.old out.new result (written (import_text «package».now)) }
{
    out.next()?;
    out.word("import ")?;
    out.written(package)?;
    out.word("::*;")?;
    Ok(())
}
