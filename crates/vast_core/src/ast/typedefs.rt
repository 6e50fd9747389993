//! Types that modules and files declare by name.

ghost use Rattle.vast_core.specs.Bench.{OwnsModule};
ghost use Rattle.vast_core.specs.Sound.{TypedefSound};
ghost use Rattle.vast_core.specs.Growth.{Grows, next_type, with_typedef, with_file_typedef};
ghost use Rattle.vast_core.specs.View.{bench};

use crate::ast::Ast;
use crate::ast::arrivals::{Node, Terms};
use crate::ast::growth::Place;
use crate::ast::scope::Scope;
use crate::handle::{VastDataType, VastModule};
use crate::node::{ExprNode, FileItem, Member, TypeNode};
use crate::typedef::Typedef;
use std::alloc::AllocError;

impl Ast {
    /// Adds a type that is declared by name as the module's last member, and returns the type of that name.
    ///
    /// # Errors
    /// `AllocError` where a growth was refused; nothing changed.
    #[tactic(auto, using(crate::proofs::EntersScopes::enters_scopes))]
    pub fn push_typedef(
        &mut self,
        owner: VastModule,
        typedef: Typedef,
    ) -> Result<VastDataType, AllocError>
        requires owner { OwnsModule (bench self.old) owner }
        requires typedef { TypedefSound (bench self.old) typedef }
        ensures { Grows self.old self.new result next_type (with_typedef owner typedef) }
    {
        let name = String::from_str(self.alloc, typedef.name())?;
        let data_type = VastDataType {
            id: self.next_term(),
        };
        self.grow_in(
            Scope::Module(owner),
            Member::Typedef(typedef),
            Terms::One(ExprNode::DataType(TypeNode::External(name))),
            Node::Nothing,
            false,
        )?;
        Ok(data_type)
    }

    /// Adds a type that is declared by name as the last item of the file, and returns the type of that name.
    ///
    /// # Errors
    /// `AllocError` where a growth was refused; nothing changed.
    #[tactic(auto, using(crate::proofs::EntersRecords::enters_records))]
    pub fn push_file_typedef(&mut self, typedef: Typedef) -> Result<VastDataType, AllocError>
        requires { TypedefSound (bench self.old) typedef }
        ensures { Grows self.old self.new result next_type (with_file_typedef typedef) }
    {
        let name = String::from_str(self.alloc, typedef.name())?;
        let data_type = VastDataType {
            id: self.next_term(),
        };
        self.grow(
            Place::File(FileItem::Typedef(typedef)),
            Terms::One(ExprNode::DataType(TypeNode::External(name))),
            Node::Nothing,
            false,
        )?;
        Ok(data_type)
    }
}
