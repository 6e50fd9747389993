//! Functions of modules.

ghost use Rattle.std.specs.Prelude.{◌≡◌, Some, slice_get};
ghost use Rattle.vast_core.specs.Records.{FunctionEntry};
ghost use Rattle.vast_core.specs.Nests.{function_record};
ghost use Rattle.vast_core.specs.Bench.{NameIsFree, OwnsModule, OwnsType, OwnsFunction};
ghost use Rattle.vast_core.specs.Sound.{FunctionSound};
ghost use Rattle.vast_core.specs.Growth.{Grows, with_named_member};
ghost use Rattle.vast_core.specs.Loops.{next_function, with_function};
ghost use Rattle.vast_core.specs.View.{bench};

use crate::ast::Ast;
use crate::ast::arrivals::{Node, Terms};
use crate::ast::growth::{ModuleEntry, Place};
use crate::handle::{LogicRef, VastDataType, VastFunction, VastModule, VastStatementBlock};
use crate::node::{ExprNode, Function, Member};
use std::alloc::AllocError;
use vast_names::{NameTable, Word};

impl Ast {
    /// Adds a function without inputs and locals as the module's last member, with an empty body. The module's name
    /// set gains its name; whether it was free is the caller's to know ([`crate::Module::name_is_free`]).
    ///
    /// # Errors
    /// `AllocError` where a growth was refused; nothing changed.
    #[tactic(auto, using(crate::proofs::EntersMembers::enters_members))]
    pub fn push_function(
        &mut self,
        owner: VastModule,
        name: &str,
        result_type: VastDataType,
    ) -> Result<VastFunction, AllocError>
        requires owner { OwnsModule (bench self.old) owner }
        requires result_type { OwnsType (bench self.old) result_type }
        requires free { NameIsFree (bench self.old) owner name.now }
        ensures { Grows self.old self.new result next_function
            (λ b. with_named_member owner (FunctionEntry (next_function b)) name.now
            (with_function name.now result_type b)) }
    {
        let variable = Word::new(self.alloc, name)?;
        let own_name = String::from_str(self.alloc, name)?;
        let mut names = NameTable::new(self.alloc);
        names.enter(name)?;
        let function = VastFunction {
            id: self.next_function(),
        };
        let node = Function {
            name: own_name,
            result_type,
            result: LogicRef {
                id: self.next_term(),
            },
            inputs: Vec::new(self.alloc),
            locals: Vec::new(self.alloc),
            body: VastStatementBlock {
                id: self.next_nest(),
            },
            names,
        };
        self.grow(
            Place::Module(
                owner,
                ModuleEntry::Member(Member::Function(function), Some(name)),
            ),
            Terms::One(ExprNode::Name(variable, Some(result_type))),
            Node::Function(node),
            true,
        )?;
        Ok(function)
    }

    /// A function. Its types, its result's name and its body are the file's.
    pub fn function(&self, f: VastFunction) -> &Function
        requires { OwnsFunction (bench self.now) f }
        ensures there { slice_get (bench self.now).functions f.id.index
            ≡ Some (function_record result.now) }
        ensures sound { FunctionSound (bench self.now) (function_record result.now) }
    {
        &self.functions[f.id.index]
    }
}
