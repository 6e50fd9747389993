//! What kind of node an index names.

ghost use Rattle.std.specs.Prelude.{◌≡◌, ◌<◌, ◌^◌, ◌↔◌, IsTrue, IfNone, IfSome, None, Some, length, nat_lt, slice_get};
ghost use Rattle.std.specs.Option.{option_copied};
ghost use Rattle.vast_core.specs.Nodes.{is_expr_root, is_type_root, is_name, is_index, is_slice, is_macro};
ghost use Rattle.vast_core.specs.Bench.{has_root, is_continuous, is_blank_line, is_comment, is_inline, is_macro_statement};
ghost use Rattle.vast_core.specs.Nests.{nest_kind, is_kind, BlockKind, ConditionalKind, CaseStatementKind, LoopKind, nest_record};
ghost use Rattle.vast_core.specs.Sound.{ArtifactSound, NestSound};
ghost use Rattle.vast_core.specs.FileTree.{family, families};
ghost use Rattle.vast_core.specs.View.{bench};

use crate::ast::Ast;
use crate::handle::Id;
use crate::node::{Artifact, Assignment, ExprNode, Nest};

impl Ast {
    pub(crate) fn made_id(&self, id: Id) -> bool
        ensures { IsTrue result ↔ (id.file_id ≡ (bench self.now).nodes.id) }
    {
        id.file_id == self.id()
    }

    pub(crate) fn is_expr_at(&self, index: usize) -> bool
        ensures { result ≡ is_expr_root (slice_get (bench self.now).nodes.roots index) }
    {
        match self.node(index) {
            Some(ExprNode::DataType(_)) => false,
            Some(_) => true,
            None => false,
        }
    }

    pub(crate) fn is_type_at(&self, index: usize) -> bool
        ensures { result ≡ is_type_root (slice_get (bench self.now).nodes.roots index) }
    {
        match self.node(index) {
            Some(ExprNode::DataType(_)) => true,
            Some(_) => false,
            None => false,
        }
    }

    pub(crate) fn is_name_at(&self, index: usize) -> bool
        ensures { result ≡ has_root is_name (bench self.now) index }
    {
        match self.node(index) {
            Some(node) => node.is_name(),
            None => false,
        }
    }

    pub(crate) fn is_index_at(&self, index: usize) -> bool
        ensures { result ≡ has_root is_index (bench self.now) index }
    {
        match self.node(index) {
            Some(node) => node.is_index(),
            None => false,
        }
    }

    pub(crate) fn is_slice_at(&self, index: usize) -> bool
        ensures { result ≡ has_root is_slice (bench self.now) index }
    {
        match self.node(index) {
            Some(node) => node.is_slice(),
            None => false,
        }
    }

    pub(crate) fn is_macro_at(&self, index: usize) -> bool
        ensures { result ≡ has_root is_macro (bench self.now) index }
    {
        match self.node(index) {
            Some(node) => node.is_macro(),
            None => false,
        }
    }

    #[tactic(auto, unfolding(crate::specs::View::bench))]
    pub(crate) fn is_module_at(&self, index: usize) -> bool
        ensures { result ≡ nat_lt index (length (bench self.now).modules) }
    {
        index < self.modules.len()
    }

    #[tactic(auto, unfolding(crate::specs::View::bench))]
    pub(crate) fn is_port_at(&self, index: usize) -> bool
        ensures { result ≡ nat_lt index (length (bench self.now).ports) }
    {
        index < self.ports.len()
    }

    #[tactic(auto, unfolding(crate::specs::View::bench))]
    pub(crate) fn is_function_at(&self, index: usize) -> bool
        ensures { result ≡ nat_lt index (length (bench self.now).functions) }
    {
        index < self.functions.len()
    }

    #[tactic(auto, unfolding(crate::specs::View::bench))]
    pub(crate) fn is_instance_at(&self, index: usize) -> bool
        ensures { result ≡ nat_lt index (length (bench self.now).instances) }
    {
        index < self.instances.len()
    }

    #[tactic(auto, unfolding(crate::specs::View::bench))]
    pub(crate) fn is_always_block_at(&self, index: usize) -> bool
        ensures { result ≡ nat_lt index (length (bench self.now).always_blocks) }
    {
        index < self.always_blocks.len()
    }

    #[tactic(auto, unfolding(crate::specs::View::bench))]
    pub(crate) fn is_definition_at(&self, index: usize) -> bool
        ensures { result ≡ nat_lt index (length (bench self.now).definitions) }
    {
        index < self.definitions.len()
    }

    #[tactic(auto, unfolding(crate::specs::View::bench))]
    pub(crate) fn is_assignment_at(&self, index: usize) -> bool
        ensures { result ≡ nat_lt index (length (bench self.now).assignments) }
    {
        index < self.assignments.len()
    }
}

impl Ast {
    pub(crate) fn artifact_at(&self, index: usize) -> Option<&Artifact>
        ensures none { IfNone result (slice_get (bench self.now).artifacts index ≡ None) }
        ensures some { IfSome result
            (λ a. slice_get (bench self.now).artifacts index ≡ Some a.now) }
        ensures owned { IfSome result
            (λ a. ArtifactSound (bench self.now) a.now) }
    {
        if index < self.artifacts.len() {
            Some(&self.artifacts[index])
        } else {
            None
        }
    }

    pub(crate) fn is_blank_line_at(&self, index: usize) -> bool
        ensures { result ≡ is_blank_line (slice_get (bench self.now).artifacts index) }
    {
        match self.artifact_at(index) {
            Some(Artifact::BlankLine) => true,
            _ => false,
        }
    }

    pub(crate) fn is_comment_at(&self, index: usize) -> bool
        ensures { result ≡ is_comment (slice_get (bench self.now).artifacts index) }
    {
        match self.artifact_at(index) {
            Some(Artifact::BlankLine) => false,
            Some(Artifact::Comment(_)) => true,
            _ => false,
        }
    }

    pub(crate) fn is_inline_at(&self, index: usize) -> bool
        ensures { result ≡ is_inline (slice_get (bench self.now).artifacts index) }
    {
        match self.artifact_at(index) {
            Some(Artifact::BlankLine) => false,
            Some(Artifact::Comment(_)) => false,
            Some(Artifact::Inline(_)) => true,
            Some(Artifact::MacroStatement(_, _)) => false,
            None => false,
        }
    }

    pub(crate) fn is_macro_statement_at(&self, index: usize) -> bool
        ensures { result ≡ is_macro_statement (slice_get (bench self.now).artifacts index) }
    {
        match self.artifact_at(index) {
            Some(Artifact::BlankLine) => false,
            Some(Artifact::Comment(_)) => false,
            Some(Artifact::Inline(_)) => false,
            Some(Artifact::MacroStatement(_, _)) => true,
            None => false,
        }
    }

    /// The container of this index. What it holds is the file's, and newer.
    pub(crate) fn nest_at(&self, index: usize) -> Option<&Nest>
        ensures none { IfNone result (slice_get (bench self.now).nests index ≡ None) }
        ensures some { IfSome result
            (λ n. slice_get (bench self.now).nests index ≡ Some (nest_record n.now)) }
        ensures owned { IfSome result (λ n. NestSound (bench self.now) index (nest_record n.now)) }
        ensures unfolded { IfSome result
            (λ n. families (bench self.now) index
            ≡ family (bench self.now) (families (bench self.now)) (Some (nest_record n.now))) }
        ensures small { IfSome result (λ n. index < 2 ^ 63) }
    {
        if index < self.nests.len() {
            Some(&self.nests[index])
        } else {
            None
        }
    }

    pub(crate) fn is_block_at(&self, index: usize) -> bool
        ensures { result
            ≡ is_kind BlockKind (nest_kind (slice_get (bench self.now).nests index)) }
    {
        match self.nest_at(index) {
            Some(Nest::Block(_)) => true,
            _ => false,
        }
    }

    pub(crate) fn is_conditional_at(&self, index: usize) -> bool
        ensures { result
            ≡ is_kind ConditionalKind (nest_kind (slice_get (bench self.now).nests index)) }
    {
        match self.nest_at(index) {
            Some(Nest::Block(_)) => false,
            Some(Nest::Conditional(_)) => true,
            _ => false,
        }
    }

    pub(crate) fn is_case_at(&self, index: usize) -> bool
        ensures { result
            ≡ is_kind CaseStatementKind (nest_kind (slice_get (bench self.now).nests index)) }
    {
        match self.nest_at(index) {
            Some(Nest::Block(_)) => false,
            Some(Nest::Conditional(_)) => false,
            Some(Nest::Case(_)) => true,
            Some(Nest::Loop(_)) => false,
            None => false,
        }
    }

    pub(crate) fn is_loop_at(&self, index: usize) -> bool
        ensures { result
            ≡ is_kind LoopKind (nest_kind (slice_get (bench self.now).nests index)) }
    {
        match self.nest_at(index) {
            Some(Nest::Block(_)) => false,
            Some(Nest::Conditional(_)) => false,
            Some(Nest::Case(_)) => false,
            Some(Nest::Loop(_)) => true,
            None => false,
        }
    }

    #[tactic(auto, unfolding(crate::specs::View::bench))]
    fn assignment_at(&self, index: usize) -> Option<&Assignment>
        ensures { slice_get (bench self.now).assignments index ≡ option_copied result }
    {
        self.assignments.get(index)
    }

    pub(crate) fn is_continuous_at(&self, index: usize) -> bool
        ensures { result ≡ is_continuous (slice_get (bench self.now).assignments index) }
    {
        match self.assignment_at(index) {
            Some(assignment) => !assignment.nonblocking,
            None => false,
        }
    }
}
