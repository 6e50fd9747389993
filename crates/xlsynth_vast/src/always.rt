//! Always and initial blocks (IEEE 1800-2017, 9.2), among the members of modules and of generate loops. The crate
//! `xlsynth-vast` has `always_ff`, `always @` and `always_comb`.

ghost use Rattle.std.specs.Prelude.{◌≡◌, Ok, All, [], IfOk, IfErr, Some, map, string_bytes, codes};
ghost use Rattle.vast_literal.specs.Fault.{RefusedBy};
ghost use Rattle.vast_literal.specs.declared.kind.AlwaysKind.TheVariants.{AlwaysFF, AlwaysAt, AlwaysComb, AlwaysStar, AlwaysLatch, Initial};
ghost use Rattle.vast_core.specs.declared.ast.scope.Scope.TheVariants.{Module as ScopeModule, Loop as ScopeLoop};
ghost use Rattle.vast_core.specs.Bench.{OwnsModule, OwnsLoop, OwnsExpr, OwnsBlock, OwnsAlways};
ghost use Rattle.vast_core.specs.Sound.{EventSound};
ghost use Rattle.vast_core.specs.Loops.{next_always};
ghost use Rattle.xlsynth_vast.specs.Refusals.{MayBuild, no_refusal};
ghost use Rattle.xlsynth_vast.specs.Keeps.{Keeps};
ghost use Rattle.xlsynth_vast.specs.AlwaysBlocks.{wrong_event, unless_wrong_event, with_scope_always};
ghost use Rattle.xlsynth_vast.specs.Inspections.{block_at};

use crate::file::VastFile;
use std::alloc::{AllocError, Global};
use vast_core::{
    AlwaysKind, Expr, GenerateLoop, Scope, VastAlwaysBase, VastModule, VastStatementBlock,
};
use vast_literal::{VastError, VastFault};

/// The words that refuse the event at this place of a list, for an always block that begins with the word.
#[tactic(auto, unfolding(crate::specs::AlwaysBlocks::wrong_event))]
fn wrong_event(alloc: Global, word: &str, index: usize) -> Result<String, AllocError>
    ensures { IfOk result (λ text. string_bytes text ≡ wrong_event word.now index) }
{
    format!(in alloc;
        "Unsupported expression type passed to sensitivity list for {word} at index {index}. Only posedge, negedge, or logic-reference expressions are supported."
    )
}

impl VastFile {
    /// The events behind the references, or the refusal of the first that is no edge and no name.
    fn events(&self, word: &str, expressions: &[&Expr]) -> Result<Vec<Expr>, VastFault>
        requires { All (λ e. OwnsExpr self.now e.now) expressions.now }
        ensures items { IfOk result (λ events. events.items ≡ map (λ e. e.now) expressions.now) }
        ensures sound { IfOk result (λ events. All (EventSound self.now) events.items) }
        ensures allowed { IfOk result
            (λ events. unless_wrong_event word.now self.now
            (map (λ e. e.now) expressions.now) ≡ Ok tt) }
        ensures refused { IfErr result
            (λ fault. RefusedBy
            (unless_wrong_event word.now self.now (map (λ e. e.now) expressions.now))
            fault) }
    {
        let events = self.handles(expressions)?;
        if let Some(index) = self.ast.first_wrong_event(&events) {
            let text = wrong_event(self.ast.allocator(), word, index)?;
            return Err(VastFault::Refused(VastError(text)));
        }
        Ok(events)
    }

    /// An `always_ff` with these events and an empty block, as the module's last member.
    ///
    /// # Errors
    /// `Refused` at the first event that is no edge and no name: `Unsupported expression type passed to sensitivity
    /// list for always_ff at index {index}. Only posedge, negedge, or logic-reference expressions are supported.`
    /// `Memory` where a growth was refused. The file is unchanged.
    pub fn add_always_ff(
        &mut self,
        owner: VastModule,
        sensitivity_list: &[&Expr],
    ) -> Result<VastAlwaysBase, VastFault>
        requires owner { OwnsModule self.old owner }
        requires events { All (λ e. OwnsExpr self.old e.now) sensitivity_list.now }
        ensures built { MayBuild self.old self.new result
            (λ b. unless_wrong_event (codes "always_ff") b (map (λ e. e.now) sensitivity_list.now))
            next_always
            (λ _. with_scope_always (ScopeModule owner) AlwaysFF
            (map (λ e. e.now) sensitivity_list.now)) }
        ensures kept { Keeps self.old self.new }
    {
        let events = self.events("always_ff", sensitivity_list)?;
        Ok(
            self.ast
                .push_always(Scope::Module(owner), AlwaysKind::AlwaysFF, events)?,
        )
    }

    /// An `always @` with these events and an empty block, as the module's last member; there may be no events.
    ///
    /// # Errors
    /// As [`VastFile::add_always_ff`], with `always @` in the place of `always_ff`.
    pub fn add_always_at(
        &mut self,
        owner: VastModule,
        sensitivity_list: &[&Expr],
    ) -> Result<VastAlwaysBase, VastFault>
        requires owner { OwnsModule self.old owner }
        requires events { All (λ e. OwnsExpr self.old e.now) sensitivity_list.now }
        ensures built { MayBuild self.old self.new result
            (λ b. unless_wrong_event (codes "always @") b (map (λ e. e.now) sensitivity_list.now))
            next_always
            (λ _. with_scope_always (ScopeModule owner) AlwaysAt
            (map (λ e. e.now) sensitivity_list.now)) }
        ensures kept { Keeps self.old self.new }
    {
        let events = self.events("always @", sensitivity_list)?;
        Ok(
            self.ast
                .push_always(Scope::Module(owner), AlwaysKind::AlwaysAt, events)?,
        )
    }

    /// An `always_comb` with an empty block, as the module's last member.
    ///
    /// # Errors
    /// `Memory` where a growth was refused; the file is unchanged. It is never `Refused`.
    pub fn add_always_comb(&mut self, owner: VastModule) -> Result<VastAlwaysBase, VastFault>
        requires { OwnsModule self.old owner }
        ensures built { MayBuild self.old self.new result no_refusal next_always
            (λ _. with_scope_always (ScopeModule owner) AlwaysComb []) }
        ensures kept { Keeps self.old self.new }
    {
        Ok(
            self.ast
                .push_unclocked(Scope::Module(owner), AlwaysKind::AlwaysComb)?,
        )
    }

    /// An `always @*` with an empty block, as the module's last member.
    ///
    /// # Errors
    /// As [`VastFile::add_always_comb`].
    pub fn add_always_star(&mut self, owner: VastModule) -> Result<VastAlwaysBase, VastFault>
        requires { OwnsModule self.old owner }
        ensures built { MayBuild self.old self.new result no_refusal next_always
            (λ _. with_scope_always (ScopeModule owner) AlwaysStar []) }
        ensures kept { Keeps self.old self.new }
    {
        Ok(
            self.ast
                .push_unclocked(Scope::Module(owner), AlwaysKind::AlwaysStar)?,
        )
    }

    /// An `always_latch` with an empty block, as the module's last member.
    ///
    /// # Errors
    /// As [`VastFile::add_always_comb`].
    pub fn add_always_latch(&mut self, owner: VastModule) -> Result<VastAlwaysBase, VastFault>
        requires { OwnsModule self.old owner }
        ensures built { MayBuild self.old self.new result no_refusal next_always
            (λ _. with_scope_always (ScopeModule owner) AlwaysLatch []) }
        ensures kept { Keeps self.old self.new }
    {
        Ok(
            self.ast
                .push_unclocked(Scope::Module(owner), AlwaysKind::AlwaysLatch)?,
        )
    }

    /// An `initial` block with an empty block, as the module's last member.
    ///
    /// # Errors
    /// As [`VastFile::add_always_comb`].
    pub fn add_initial(&mut self, owner: VastModule) -> Result<VastAlwaysBase, VastFault>
        requires { OwnsModule self.old owner }
        ensures built { MayBuild self.old self.new result no_refusal next_always
            (λ _. with_scope_always (ScopeModule owner) Initial []) }
        ensures kept { Keeps self.old self.new }
    {
        Ok(
            self.ast
                .push_unclocked(Scope::Module(owner), AlwaysKind::Initial)?,
        )
    }

    /// The block of the always block, which is the file's.
    pub fn statement_block(&self, always: VastAlwaysBase) -> VastStatementBlock
        requires { OwnsAlways self.now always }
        ensures block { block_at self.now always ≡ Some result }
        ensures owned { OwnsBlock self.now result }
    {
        self.ast.always_block(always).block
    }

    /// An `always_ff` with these events and an empty block, as the loop's last member.
    ///
    /// # Errors
    /// As [`VastFile::add_always_ff`].
    pub fn generate_add_always_ff(
        &mut self,
        generate: GenerateLoop,
        sensitivity_list: &[&Expr],
    ) -> Result<VastAlwaysBase, VastFault>
        requires generate { OwnsLoop self.old generate }
        requires events { All (λ e. OwnsExpr self.old e.now) sensitivity_list.now }
        ensures built { MayBuild self.old self.new result
            (λ b. unless_wrong_event (codes "always_ff") b (map (λ e. e.now) sensitivity_list.now))
            next_always
            (λ _. with_scope_always (ScopeLoop generate) AlwaysFF
            (map (λ e. e.now) sensitivity_list.now)) }
        ensures kept { Keeps self.old self.new }
    {
        let events = self.events("always_ff", sensitivity_list)?;
        Ok(
            self.ast
                .push_always(Scope::Loop(generate), AlwaysKind::AlwaysFF, events)?,
        )
    }

    /// An `always @` with these events and an empty block, as the loop's last member; there may be no events.
    ///
    /// # Errors
    /// As [`VastFile::add_always_at`].
    pub fn generate_add_always_at(
        &mut self,
        generate: GenerateLoop,
        sensitivity_list: &[&Expr],
    ) -> Result<VastAlwaysBase, VastFault>
        requires generate { OwnsLoop self.old generate }
        requires events { All (λ e. OwnsExpr self.old e.now) sensitivity_list.now }
        ensures built { MayBuild self.old self.new result
            (λ b. unless_wrong_event (codes "always @") b (map (λ e. e.now) sensitivity_list.now))
            next_always
            (λ _. with_scope_always (ScopeLoop generate) AlwaysAt
            (map (λ e. e.now) sensitivity_list.now)) }
        ensures kept { Keeps self.old self.new }
    {
        let events = self.events("always @", sensitivity_list)?;
        Ok(
            self.ast
                .push_always(Scope::Loop(generate), AlwaysKind::AlwaysAt, events)?,
        )
    }

    /// An `always_comb` with an empty block, as the loop's last member.
    ///
    /// # Errors
    /// As [`VastFile::add_always_comb`].
    pub fn generate_add_always_comb(
        &mut self,
        generate: GenerateLoop,
    ) -> Result<VastAlwaysBase, VastFault>
        requires { OwnsLoop self.old generate }
        ensures built { MayBuild self.old self.new result no_refusal next_always
            (λ _. with_scope_always (ScopeLoop generate) AlwaysComb []) }
        ensures kept { Keeps self.old self.new }
    {
        Ok(
            self.ast
                .push_unclocked(Scope::Loop(generate), AlwaysKind::AlwaysComb)?,
        )
    }

    /// An `always @*` with an empty block, as the loop's last member.
    ///
    /// # Errors
    /// As [`VastFile::add_always_comb`].
    pub fn generate_add_always_star(
        &mut self,
        generate: GenerateLoop,
    ) -> Result<VastAlwaysBase, VastFault>
        requires { OwnsLoop self.old generate }
        ensures built { MayBuild self.old self.new result no_refusal next_always
            (λ _. with_scope_always (ScopeLoop generate) AlwaysStar []) }
        ensures kept { Keeps self.old self.new }
    {
        Ok(
            self.ast
                .push_unclocked(Scope::Loop(generate), AlwaysKind::AlwaysStar)?,
        )
    }

    /// An `always_latch` with an empty block, as the loop's last member.
    ///
    /// # Errors
    /// As [`VastFile::add_always_comb`].
    pub fn generate_add_always_latch(
        &mut self,
        generate: GenerateLoop,
    ) -> Result<VastAlwaysBase, VastFault>
        requires { OwnsLoop self.old generate }
        ensures built { MayBuild self.old self.new result no_refusal next_always
            (λ _. with_scope_always (ScopeLoop generate) AlwaysLatch []) }
        ensures kept { Keeps self.old self.new }
    {
        Ok(
            self.ast
                .push_unclocked(Scope::Loop(generate), AlwaysKind::AlwaysLatch)?,
        )
    }

    /// An `initial` block with an empty block, as the loop's last member.
    ///
    /// # Errors
    /// As [`VastFile::add_always_comb`].
    pub fn generate_add_initial(
        &mut self,
        generate: GenerateLoop,
    ) -> Result<VastAlwaysBase, VastFault>
        requires { OwnsLoop self.old generate }
        ensures built { MayBuild self.old self.new result no_refusal next_always
            (λ _. with_scope_always (ScopeLoop generate) Initial []) }
        ensures kept { Keeps self.old self.new }
    {
        Ok(
            self.ast
                .push_unclocked(Scope::Loop(generate), AlwaysKind::Initial)?,
        )
    }
}
