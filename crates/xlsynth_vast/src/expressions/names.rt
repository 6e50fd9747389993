//! Names.

ghost use Rattle.vast_literal.specs.Tree.{NameTree, Untyped};
ghost use Rattle.vast_core.specs.Growth.{Builds, next_expr, with_expr};
ghost use Rattle.xlsynth_vast.specs.Keeps.{Keeps};

use crate::file::VastFile;
use std::alloc::AllocError;
use vast_core::{Expr, ExprNode};
use vast_names::Word;

impl VastFile {
    /// The bare name, which prints as it is and has no type: what inline text, an include or another file declares can
    /// be named by it. It enters no name, so a later declaration may have it.
    ///
    /// # Errors
    /// `AllocError` where a growth was refused; the file is unchanged.
    pub fn make_name(&mut self, name: &str) -> Result<Expr, AllocError>
        ensures built { Builds self.old self.new result next_expr
            (with_expr (NameTree name.now Untyped)) }
        ensures kept { Keeps self.old self.new }
    {
        let name = Word::new(self.ast.allocator(), name)?;
        self.push_expr(ExprNode::Name(name, None))
    }
}
