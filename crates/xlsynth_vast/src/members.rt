//! Members of modules that are made beforehand, as in the crate `xlsynth-vast`. One part may be added more than once.

ghost use Rattle.vast_core.specs.Bench.{OwnsModule, OwnsContinuous, OwnsBlankLine, OwnsComment, OwnsInline, OwnsMacroStatement, OwnsInstantiation};
ghost use Rattle.vast_core.specs.declared.node.Member.TheVariants.{ContinuousAssignment as AssignmentEntry, BlankLine as BlankEntry, Comment as CommentEntry, Inline as InlineEntry, Macro as MacroEntry, Instantiation as InstanceEntry};
ghost use Rattle.vast_core.specs.Growth.{Leaves, with_member};
ghost use Rattle.xlsynth_vast.specs.Keeps.{Keeps};

use crate::file::VastFile;
use std::alloc::AllocError;
use vast_core::{
    BlankLine, Comment, ContinuousAssignment, InlineVerilogStatement, Instantiation,
    MacroStatement, Member, Scope, VastModule,
};

impl VastFile {
    /// The instantiation, as the module's last member.
    ///
    /// # Errors
    /// `AllocError` where a growth was refused; the file is unchanged.
    pub fn add_member_instantiation(
        &mut self,
        owner: VastModule,
        instantiation: Instantiation,
    ) -> Result<(), AllocError>
        requires owner { OwnsModule self.old owner }
        requires instantiation { OwnsInstantiation self.old instantiation }
        ensures built { Leaves self.old self.new result
            (with_member owner (InstanceEntry instantiation)) }
        ensures kept { Keeps self.old self.new }
    {
        self.append_member(Scope::Module(owner), Member::Instantiation(instantiation))
    }

    /// The assignment, as the module's last member.
    ///
    /// # Errors
    /// `AllocError` where a growth was refused; the file is unchanged.
    pub fn add_member_continuous_assignment(
        &mut self,
        owner: VastModule,
        assignment: ContinuousAssignment,
    ) -> Result<(), AllocError>
        requires owner { OwnsModule self.old owner }
        requires assignment { OwnsContinuous self.old assignment }
        ensures built { Leaves self.old self.new result
            (with_member owner (AssignmentEntry assignment)) }
        ensures kept { Keeps self.old self.new }
    {
        self.append_member(
            Scope::Module(owner),
            Member::ContinuousAssignment(assignment),
        )
    }

    /// A blank line, as the module's last member.
    ///
    /// # Errors
    /// `AllocError` where a growth was refused; the file is unchanged.
    pub fn add_member_blank_line(
        &mut self,
        owner: VastModule,
        blank: BlankLine,
    ) -> Result<(), AllocError>
        requires owner { OwnsModule self.old owner }
        requires blank { OwnsBlankLine self.old blank }
        ensures built { Leaves self.old self.new result (with_member owner BlankEntry) }
        ensures kept { Keeps self.old self.new }
    {
        self.append_member(Scope::Module(owner), Member::BlankLine)
    }

    /// The comment, as the module's last member.
    ///
    /// # Errors
    /// `AllocError` where a growth was refused; the file is unchanged.
    pub fn add_member_comment(
        &mut self,
        owner: VastModule,
        comment: Comment,
    ) -> Result<(), AllocError>
        requires owner { OwnsModule self.old owner }
        requires comment { OwnsComment self.old comment }
        ensures built { Leaves self.old self.new result (with_member owner (CommentEntry comment)) }
        ensures kept { Keeps self.old self.new }
    {
        self.append_member(Scope::Module(owner), Member::Comment(comment))
    }

    /// The text, as the module's last member.
    ///
    /// # Errors
    /// `AllocError` where a growth was refused; the file is unchanged.
    pub fn add_member_inline_statement(
        &mut self,
        owner: VastModule,
        statement: InlineVerilogStatement,
    ) -> Result<(), AllocError>
        requires owner { OwnsModule self.old owner }
        requires statement { OwnsInline self.old statement }
        ensures built { Leaves self.old self.new result
            (with_member owner (InlineEntry statement)) }
        ensures kept { Keeps self.old self.new }
    {
        self.append_member(Scope::Module(owner), Member::Inline(statement))
    }

    /// The use of a macro, as the module's last member.
    ///
    /// # Errors
    /// `AllocError` where a growth was refused; the file is unchanged.
    pub fn add_member_macro_statement(
        &mut self,
        owner: VastModule,
        statement: MacroStatement,
    ) -> Result<(), AllocError>
        requires owner { OwnsModule self.old owner }
        requires statement { OwnsMacroStatement self.old statement }
        ensures built { Leaves self.old self.new result (with_member owner (MacroEntry statement)) }
        ensures kept { Keeps self.old self.new }
    {
        self.append_member(Scope::Module(owner), Member::Macro(statement))
    }
}
