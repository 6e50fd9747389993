//! Generate loops and their members (IEEE 1800-2017, 27.4), as in the crate `xlsynth-vast`. Their always blocks stand
//! with those of modules.

ghost use Rattle.std.specs.Prelude.{◌≡◌, true, false, Some, IfOk, option_copied};
ghost use Rattle.vast_core.specs.declared.ast.scope.Scope.TheVariants.{Loop as ScopeLoop};
ghost use Rattle.vast_core.specs.declared.node.ParameterForm.TheVariants.{Plain as PlainForm, Defined as DefinedForm};
ghost use Rattle.vast_core.specs.Scopes.{with_scope_parameter};
ghost use Rattle.vast_core.specs.Bench.{OwnsModule, OwnsLoop, OwnsExpr, OwnsLogicRef, OwnsDef, OwnsComment, OwnsInline, OwnsMacroStatement, OwnsInstantiation};
ghost use Rattle.vast_core.specs.declared.node.Member.TheVariants.{ContinuousAssignment as AssignmentEntry, BlankLine as BlankEntry, Comment as CommentEntry, Inline as InlineEntry, Macro as MacroEntry, Instantiation as InstanceEntry, Conditional as ConditionalEntry, Loop as LoopEntry};
ghost use Rattle.vast_core.specs.Nests.{label_bytes};
ghost use Rattle.vast_core.specs.Growth.{next_node, Builds, Leaves, with_member, with_assignment, next_continuous};
ghost use Rattle.vast_core.specs.Artifacts.{next_statement};
ghost use Rattle.vast_core.specs.Containers.{next_conditional, with_conditional};
ghost use Rattle.vast_core.specs.Loops.{next_loop, with_loop, with_loop_member};
ghost use Rattle.xlsynth_vast.specs.Keeps.{Keeps};
ghost use Rattle.xlsynth_vast.specs.Inspections.{genvar_at};

use crate::file::VastFile;
use std::alloc::{AllocError, Global};
use vast_core::{
    AssignmentForm, Comment, Conditional, Def, Expr, GenerateLoop, InlineVerilogStatement,
    InsertionPoint, Instantiation, LocalparamRef, LogicRef, MacroStatement, Member, ParameterForm,
    Scope, VastModule, VastStatement,
};
use vast_names::Word;

/// The label as a text of its own, if there is one.
fn own_label(alloc: Global, label: Option<&str>) -> Result<Option<String>, AllocError>
    ensures { IfOk result (λ own. label_bytes own ≡ option_copied label.entry) }
{
    match label {
        Some(text) => Ok(Some(String::from_str(alloc, text)?)),
        None => Ok(None),
    }
}

impl VastFile {
    /// A generate loop without members, as the module's last member: its variable runs from `start` on while it is
    /// below `end`. The variable's name is an expression without a type ([`VastFile::generate_genvar`]).
    ///
    /// # Errors
    /// `AllocError` where a growth was refused; the file is unchanged.
    pub fn add_generate_loop(
        &mut self,
        owner: VastModule,
        name: &str,
        start: &Expr,
        end: &Expr,
        label: Option<&str>,
    ) -> Result<GenerateLoop, AllocError>
        requires owner { OwnsModule self.old owner }
        requires start { OwnsExpr self.old start.now }
        requires end { OwnsExpr self.old end.now }
        ensures built { Builds self.old self.new result next_loop
            (λ b. with_member owner (LoopEntry (next_loop b))
            (with_loop name.now start.now end.now (option_copied label.entry) b)) }
        ensures kept { Keeps self.old self.new }
    {
        let label = own_label(self.ast.allocator(), label)?;
        self.ast
            .push_loop(Scope::Module(owner), name, *start, *end, label)
    }

    /// A generate loop without members, as the last member of the loop `parent`; otherwise as
    /// [`VastFile::add_generate_loop`].
    ///
    /// # Errors
    /// `AllocError` where a growth was refused; the file is unchanged.
    pub fn generate_add_generate_loop(
        &mut self,
        parent: GenerateLoop,
        name: &str,
        start: &Expr,
        end: &Expr,
        label: Option<&str>,
    ) -> Result<GenerateLoop, AllocError>
        requires parent { OwnsLoop self.old parent }
        requires start { OwnsExpr self.old start.now }
        requires end { OwnsExpr self.old end.now }
        ensures built { Builds self.old self.new result next_loop
            (λ b. with_loop_member parent (LoopEntry (next_loop b))
            (with_loop name.now start.now end.now (option_copied label.entry) b)) }
        ensures kept { Keeps self.old self.new }
    {
        let label = own_label(self.ast.allocator(), label)?;
        self.ast
            .push_loop(Scope::Loop(parent), name, *start, *end, label)
    }

    /// The loop's variable as an expression, which is the file's.
    pub fn generate_genvar(&self, generate: GenerateLoop) -> LogicRef
        requires { OwnsLoop self.now generate }
        ensures genvar { genvar_at self.now generate ≡ Some result }
        ensures owned { OwnsLogicRef self.now result }
    {
        self.ast.generate_loop(generate).genvar
    }

    /// `localparam NAME = VALUE`, as the loop's last member; returns its name.
    ///
    /// # Errors
    /// `AllocError` where a growth was refused; the file is unchanged.
    pub fn generate_add_localparam(
        &mut self,
        generate: GenerateLoop,
        name: &str,
        rhs: &Expr,
    ) -> Result<LocalparamRef, AllocError>
        requires generate { OwnsLoop self.old generate }
        requires rhs { OwnsExpr self.old rhs.now }
        ensures built { Builds self.old self.new result (λ b. record { id = next_node b })
            (with_scope_parameter (ScopeLoop generate) true (PlainForm name.now) rhs.now) }
        ensures kept { Keeps self.old self.new }
    {
        let form = ParameterForm::Plain(Word::new(self.ast.allocator(), name)?);
        self.ast.push_localparam(Scope::Loop(generate), form, *rhs)
    }

    /// A local parameter with the definition's kind, type and name, as the loop's last member; returns its name.
    ///
    /// # Errors
    /// `AllocError` where a growth was refused; the file is unchanged.
    pub fn generate_add_typed_localparam(
        &mut self,
        generate: GenerateLoop,
        definition: &Def,
        rhs: &Expr,
    ) -> Result<LocalparamRef, AllocError>
        requires generate { OwnsLoop self.old generate }
        requires definition { OwnsDef self.old definition.now }
        requires rhs { OwnsExpr self.old rhs.now }
        ensures built { Builds self.old self.new result (λ b. record { id = next_node b })
            (with_scope_parameter (ScopeLoop generate) true (DefinedForm definition.now) rhs.now) }
        ensures kept { Keeps self.old self.new }
    {
        let form = ParameterForm::Defined(*definition);
        self.ast.push_localparam(Scope::Loop(generate), form, *rhs)
    }

    /// The assignment `assign lhs = rhs`, as the loop's last member.
    ///
    /// # Errors
    /// `AllocError` where a growth was refused; the file is unchanged.
    pub fn generate_add_continuous_assignment(
        &mut self,
        generate: GenerateLoop,
        lhs: &Expr,
        rhs: &Expr,
    ) -> Result<VastStatement, AllocError>
        requires generate { OwnsLoop self.old generate }
        requires lhs { OwnsExpr self.old lhs.now }
        requires rhs { OwnsExpr self.old rhs.now }
        ensures built { Builds self.old self.new result next_statement
            (λ b. with_loop_member generate (AssignmentEntry (next_continuous b))
            (with_assignment (record { lhs = lhs.now; rhs = rhs.now; nonblocking = false })
            b)) }
        ensures kept { Keeps self.old self.new }
    {
        let point = InsertionPoint::Scope(Scope::Loop(generate));
        self.ast
            .append_assignment(point, AssignmentForm::Continuous, *lhs, *rhs)
    }

    /// A conditional with an empty block, as the loop's last member.
    ///
    /// # Errors
    /// `AllocError` where a growth was refused; the file is unchanged.
    pub fn generate_add_conditional(
        &mut self,
        generate: GenerateLoop,
        condition: &Expr,
    ) -> Result<Conditional, AllocError>
        requires generate { OwnsLoop self.old generate }
        requires condition { OwnsExpr self.old condition.now }
        ensures built { Builds self.old self.new result next_conditional
            (λ b. with_loop_member generate (ConditionalEntry (next_conditional b))
            (with_conditional condition.now b)) }
        ensures kept { Keeps self.old self.new }
    {
        self.ast
            .push_conditional(InsertionPoint::Scope(Scope::Loop(generate)), *condition)
    }

    /// A blank line, as the loop's last member.
    ///
    /// # Errors
    /// `AllocError` where a growth was refused; the file is unchanged.
    pub fn generate_add_blank_line(&mut self, generate: GenerateLoop) -> Result<(), AllocError>
        requires { OwnsLoop self.old generate }
        ensures built { Leaves self.old self.new result (with_loop_member generate BlankEntry) }
        ensures kept { Keeps self.old self.new }
    {
        self.append_member(Scope::Loop(generate), Member::BlankLine)
    }

    /// The comment, as the loop's last member.
    ///
    /// # Errors
    /// `AllocError` where a growth was refused; the file is unchanged.
    pub fn generate_add_comment(
        &mut self,
        generate: GenerateLoop,
        comment: &Comment,
    ) -> Result<(), AllocError>
        requires generate { OwnsLoop self.old generate }
        requires comment { OwnsComment self.old comment.now }
        ensures built { Leaves self.old self.new result
            (with_loop_member generate (CommentEntry comment.now)) }
        ensures kept { Keeps self.old self.new }
    {
        self.append_member(Scope::Loop(generate), Member::Comment(*comment))
    }

    /// The instantiation, as the loop's last member.
    ///
    /// # Errors
    /// `AllocError` where a growth was refused; the file is unchanged.
    pub fn generate_add_instantiation(
        &mut self,
        generate: GenerateLoop,
        instantiation: &Instantiation,
    ) -> Result<(), AllocError>
        requires generate { OwnsLoop self.old generate }
        requires instantiation { OwnsInstantiation self.old instantiation.now }
        ensures built { Leaves self.old self.new result
            (with_loop_member generate (InstanceEntry instantiation.now)) }
        ensures kept { Keeps self.old self.new }
    {
        self.append_member(Scope::Loop(generate), Member::Instantiation(*instantiation))
    }

    /// The text, as the loop's last member.
    ///
    /// # Errors
    /// `AllocError` where a growth was refused; the file is unchanged.
    pub fn generate_add_inline_statement(
        &mut self,
        generate: GenerateLoop,
        statement: &InlineVerilogStatement,
    ) -> Result<(), AllocError>
        requires generate { OwnsLoop self.old generate }
        requires statement { OwnsInline self.old statement.now }
        ensures built { Leaves self.old self.new result
            (with_loop_member generate (InlineEntry statement.now)) }
        ensures kept { Keeps self.old self.new }
    {
        self.append_member(Scope::Loop(generate), Member::Inline(*statement))
    }

    /// The use of a macro, as the loop's last member.
    ///
    /// # Errors
    /// `AllocError` where a growth was refused; the file is unchanged.
    pub fn generate_add_macro_statement(
        &mut self,
        generate: GenerateLoop,
        statement: &MacroStatement,
    ) -> Result<(), AllocError>
        requires generate { OwnsLoop self.old generate }
        requires statement { OwnsMacroStatement self.old statement.now }
        ensures built { Leaves self.old self.new result
            (with_loop_member generate (MacroEntry statement.now)) }
        ensures kept { Keeps self.old self.new }
    {
        self.append_member(Scope::Loop(generate), Member::Macro(*statement))
    }
}
