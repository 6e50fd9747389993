//! Generate loops.

ghost use Rattle.std.specs.Prelude.{◌≡◌, ◌<◌, ◌^◌, All, Some, slice_get, string_bytes};
ghost use Rattle.vast_core.specs.Records.{LoopEntry};
ghost use Rattle.vast_core.specs.Nests.{label_bytes, loop_record, LoopNestRecord};
ghost use Rattle.vast_core.specs.Bench.{OwnsLoop, OwnsExpr, OwnsLogicRef, tree_of};
ghost use Rattle.vast_core.specs.Sound.{LoopMemberSound};
ghost use Rattle.vast_core.specs.FileTree.{LoopFamily, families, members_tree};
ghost use Rattle.vast_literal.specs.Tree.{LoopMember};
ghost use Rattle.vast_core.specs.Growth.{Grows};
ghost use Rattle.vast_core.specs.Loops.{next_loop, with_loop};
ghost use Rattle.vast_core.specs.Scopes.{OwnsScope, with_scope_member};
ghost use Rattle.vast_core.specs.View.{bench};

use crate::ast::Ast;
use crate::ast::arrivals::{Node, Terms};
use crate::ast::scope::Scope;
use crate::handle::{Expr, GenerateLoop, LogicRef};
use crate::node::{ExprNode, LoopNode, Member, Nest};
use std::alloc::AllocError;
use vast_names::Word;

impl Ast {
    /// Adds a generate loop without members as the scope's last member. Its variable's name is an expression without
    /// a type.
    ///
    /// # Errors
    /// `AllocError` where a growth was refused; nothing changed.
    #[tactic(auto, using(crate::proofs::EntersScopes::enters_scopes))]
    pub fn push_loop(
        &mut self,
        scope: Scope,
        name: &str,
        start: Expr,
        end: Expr,
        label: Option<String>,
    ) -> Result<GenerateLoop, AllocError>
        requires scope { OwnsScope (bench self.old) scope }
        requires start { OwnsExpr (bench self.old) start }
        requires end { OwnsExpr (bench self.old) end }
        ensures { Grows self.old self.new result next_loop
            (λ b. with_scope_member scope (LoopEntry (next_loop b))
            (with_loop name.now start end (label_bytes label) b)) }
    {
        let variable = Word::new(self.alloc, name)?;
        let name = String::from_str(self.alloc, name)?;
        let generate_loop = GenerateLoop {
            id: self.next_nest(),
        };
        let genvar = LogicRef {
            id: self.next_term(),
        };
        let node = LoopNode {
            genvar,
            name,
            start,
            end,
            label,
            members: Vec::new(self.alloc),
        };
        let node = Box::new(self.alloc, node)?;
        self.grow_in(
            scope,
            Member::Loop(generate_loop),
            Terms::One(ExprNode::Name(variable, None)),
            Node::Container(Nest::Loop(node)),
            false,
        )?;
        Ok(generate_loop)
    }

    /// The parts of a loop. They are the file's, and the containers in its members are newer than it.
    pub fn generate_loop(&self, l: GenerateLoop) -> &LoopNode
        requires { OwnsLoop (bench self.now) l }
        ensures there { slice_get (bench self.now).nests l.id.index
            ≡ Some (LoopNestRecord (loop_record result.now)) }
        ensures tree { families (bench self.now) l.id.index
            ≡ LoopFamily
            (LoopMember (string_bytes result.now.name) (tree_of (bench self.now) result.now.start)
            (tree_of (bench self.now) result.now.end) (label_bytes result.now.label)
            (members_tree (bench self.now) result.now.members.items)) }
        ensures genvar { OwnsLogicRef (bench self.now) result.now.genvar }
        ensures start { OwnsExpr (bench self.now) result.now.start }
        ensures end { OwnsExpr (bench self.now) result.now.end }
        ensures members { All
            (λ m. LoopMemberSound (bench self.now) l.id.index m)
            result.now.members.items }
        ensures small { l.id.index < 2 ^ 63 }
    {
        match self.nest_at(l.id.index) {
            Some(Nest::Loop(node)) => node,
            _ => unreachable!(),
        }
    }
}
