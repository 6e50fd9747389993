//! What a file prints is read back.

ghost use Rattle.vast_core.specs.FileTree.{tree};
ghost use Rattle.vast_demo.specs.Internal.ReadBack.{ReadsBack};

use vast_read::{NormalFile, read_normal};
use xlsynth_vast::{VastFault, VastFile};

/// The tree that the reader finds in what the file prints: where the file is plain, the normal form of its own tree.
///
/// # Errors
/// Those of [`VastFile::emit`], and out of memory.
pub(crate) fn read_back(file: &VastFile) -> Result<Option<NormalFile>, VastFault>
    ensures { ReadsBack (tree file.now) result }
{
    let text = file.emit()?;
    Ok(read_normal(file.allocator(), &text)?)
}
