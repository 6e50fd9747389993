//! What stands between a file's modules: inclusions (IEEE 1800-2017, 22.4), comments (5.4) and blank lines, as in the
//! crate `xlsynth-vast`.

ghost use Rattle.vast_core.specs.Bench.{OwnsBlankLine};
ghost use Rattle.vast_core.specs.declared.node.FileItem.TheVariants.{Include as IncludeEntry, Comment as FileCommentEntry, BlankLine as FileBlankEntry};
ghost use Rattle.vast_core.specs.Growth.{Leaves, with_item};
ghost use Rattle.xlsynth_vast.specs.Keeps.{Keeps};

use crate::file::VastFile;
use std::alloc::AllocError;
use vast_core::BlankLine;

impl VastFile {
    /// The inclusion of the file at this path, as the last item of the file.
    ///
    /// # Errors
    /// `AllocError` where a growth was refused; the file is unchanged.
    pub fn add_include(&mut self, include: &str) -> Result<(), AllocError>
        ensures built { Leaves self.old self.new result (with_item (IncludeEntry include.now)) }
        ensures kept { Keeps self.old self.new }
    {
        self.ast.append_include(include)
    }

    /// A blank line, as the last item of the file.
    ///
    /// # Errors
    /// `AllocError` where a growth was refused; the file is unchanged.
    pub fn add_blank_line(&mut self, blank_line: BlankLine) -> Result<(), AllocError>
        requires { OwnsBlankLine self.old blank_line }
        ensures built { Leaves self.old self.new result (with_item FileBlankEntry) }
        ensures kept { Keeps self.old self.new }
    {
        let _ = blank_line;
        self.ast.append_file_blank_line()
    }

    /// A comment, as the last item of the file; each line of the text becomes a line of its own.
    ///
    /// # Errors
    /// `AllocError` where a growth was refused; the file is unchanged.
    pub fn add_comment_text(&mut self, text: &str) -> Result<(), AllocError>
        ensures built { Leaves self.old self.new result (with_item (FileCommentEntry text.now)) }
        ensures kept { Keeps self.old self.new }
    {
        self.ast.append_file_comment(text)
    }
}
