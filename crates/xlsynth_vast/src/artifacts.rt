//! Reusable parts of members and statements: definitions, blank lines, comments, inline text, macros and assignments,
//! as in the crate `xlsynth-vast`. A part that was made stands nowhere until it is added.

ghost use Rattle.std.specs.Prelude.{true, false};
ghost use Rattle.vast_core.specs.Bench.{OwnsExpr, OwnsType, OwnsMacroRef};
ghost use Rattle.vast_core.specs.declared.node.Artifact.TheVariants.{BlankLine as BlankArtifact, Comment as CommentArtifact, Inline as InlineArtifact, MacroStatement as MacroArtifact};
ghost use Rattle.vast_core.specs.Growth.{Builds, next_continuous, with_assignment};
ghost use Rattle.vast_core.specs.Artifacts.{next_def, with_definition, next_artifact, with_artifact, next_statement};
ghost use Rattle.xlsynth_vast.specs.Keeps.{Keeps};

use crate::file::VastFile;
use std::alloc::AllocError;
use vast_core::{
    BlankLine, Comment, ContinuousAssignment, DataKind, Def, Expr, InlineVerilogStatement,
    MacroRef, MacroStatement, VastDataType, VastStatement,
};

impl VastFile {
    /// A declaration's kind, type and name, which parameters can be made with.
    ///
    /// # Errors
    /// `AllocError` where a growth was refused; the file is unchanged.
    pub fn make_def(
        &mut self,
        name: &str,
        kind: DataKind,
        data_type: &VastDataType,
    ) -> Result<Def, AllocError>
        requires { OwnsType self.old data_type.now }
        ensures built { Builds self.old self.new result next_def
            (with_definition (record { name = name.now; kind = kind; data_type = data_type.now })) }
        ensures kept { Keeps self.old self.new }
    {
        self.ast.push_def(name, kind, *data_type)
    }

    /// A blank line.
    ///
    /// # Errors
    /// `AllocError` where a growth was refused; the file is unchanged.
    pub fn make_blank_line(&mut self) -> Result<BlankLine, AllocError>
        ensures built { Builds self.old self.new result (λ b. record { id = next_artifact b })
            (with_artifact BlankArtifact) }
        ensures kept { Keeps self.old self.new }
    {
        self.ast.push_blank_line()
    }

    /// A comment; each line of the text becomes a line `// ..` (IEEE 1800-2017, 5.4).
    ///
    /// # Errors
    /// `AllocError` where a growth was refused; the file is unchanged.
    pub fn make_comment(&mut self, text: &str) -> Result<Comment, AllocError>
        ensures built { Builds self.old self.new result (λ b. record { id = next_artifact b })
            (with_artifact (CommentArtifact text.now)) }
        ensures kept { Keeps self.old self.new }
    {
        self.ast.push_comment(text)
    }

    /// A text that is written as it is, with the depth of the place before each of its lines.
    ///
    /// # Errors
    /// `AllocError` where a growth was refused; the file is unchanged.
    pub fn make_inline_verilog_statement(
        &mut self,
        text: &str,
    ) -> Result<InlineVerilogStatement, AllocError>
        ensures built { Builds self.old self.new result (λ b. record { id = next_artifact b })
            (with_artifact (InlineArtifact text.now)) }
        ensures kept { Keeps self.old self.new }
    {
        self.ast.push_inline(text)
    }

    /// The use of a macro as a member, with a semicolon or without (IEEE 1800-2017, 22.5.1).
    ///
    /// # Errors
    /// `AllocError` where a growth was refused; the file is unchanged.
    pub fn make_macro_statement(
        &mut self,
        macro_ref: &MacroRef,
        semicolon: bool,
    ) -> Result<MacroStatement, AllocError>
        requires { OwnsMacroRef self.old macro_ref.now }
        ensures built { Builds self.old self.new result (λ b. record { id = next_artifact b })
            (with_artifact (MacroArtifact macro_ref.now semicolon)) }
        ensures kept { Keeps self.old self.new }
    {
        self.ast.push_macro_statement(*macro_ref, semicolon)
    }

    /// The assignment `assign lhs = rhs` (IEEE 1800-2017, 10.3.2).
    ///
    /// # Errors
    /// `AllocError` where a growth was refused; the file is unchanged.
    pub fn make_continuous_assignment(
        &mut self,
        lhs: &Expr,
        rhs: &Expr,
    ) -> Result<ContinuousAssignment, AllocError>
        requires lhs { OwnsExpr self.old lhs.now }
        requires rhs { OwnsExpr self.old rhs.now }
        ensures built { Builds self.old self.new result next_continuous
            (with_assignment (record { lhs = lhs.now; rhs = rhs.now; nonblocking = false })) }
        ensures kept { Keeps self.old self.new }
    {
        self.ast.push_continuous(*lhs, *rhs)
    }

    /// The procedural assignment `lhs <= rhs` (IEEE 1800-2017, 10.4.2).
    ///
    /// # Errors
    /// `AllocError` where a growth was refused; the file is unchanged.
    pub fn make_nonblocking_assignment(
        &mut self,
        lhs: &Expr,
        rhs: &Expr,
    ) -> Result<VastStatement, AllocError>
        requires lhs { OwnsExpr self.old lhs.now }
        requires rhs { OwnsExpr self.old rhs.now }
        ensures built { Builds self.old self.new result next_statement
            (with_assignment (record { lhs = lhs.now; rhs = rhs.now; nonblocking = true })) }
        ensures kept { Keeps self.old self.new }
    {
        self.ast.push_assignment(*lhs, *rhs, true)
    }

    /// The procedural assignment `lhs = rhs` (IEEE 1800-2017, 10.4.1).
    ///
    /// # Errors
    /// `AllocError` where a growth was refused; the file is unchanged.
    pub fn make_blocking_assignment(
        &mut self,
        lhs: &Expr,
        rhs: &Expr,
    ) -> Result<VastStatement, AllocError>
        requires lhs { OwnsExpr self.old lhs.now }
        requires rhs { OwnsExpr self.old rhs.now }
        ensures built { Builds self.old self.new result next_statement
            (with_assignment (record { lhs = lhs.now; rhs = rhs.now; nonblocking = false })) }
        ensures kept { Keeps self.old self.new }
    {
        self.ast.push_assignment(*lhs, *rhs, false)
    }
}
