//! Declarations among the members of modules.

ghost use Rattle.vast_core.specs.WrittenKinds.{IsOwnKind};
ghost use Rattle.vast_core.specs.Bench.{NameIsFree, OwnsModule, OwnsType};
ghost use Rattle.vast_core.specs.Growth.{Grows, with_declaration, next_logic_ref};
ghost use Rattle.vast_core.specs.View.{bench};

use crate::ast::Ast;
use crate::handle::{LogicRef, VastDataType, VastModule};
use crate::node::{ExprNode, Member};
use std::alloc::AllocError;
use vast_literal::DataKind;
use vast_names::Word;

impl Ast {
    /// Adds a wire, reg, logic or variable without a kind as the module's last member, and returns its name as an
    /// expression. The name is free ([`Module::name_is_free`]), and is taken from then on.
    ///
    /// # Errors
    /// `AllocError` where a growth was refused; nothing changed.
    #[tactic(auto, using(crate::proofs::EntersRecords::enters_records))]
    pub fn push_declaration(
        &mut self,
        owner: VastModule,
        kind: DataKind,
        name: &str,
        data_type: VastDataType,
    ) -> Result<LogicRef, AllocError>
        requires owner { OwnsModule (bench self.old) owner }
        requires kind { IsOwnKind kind }
        requires data_type { OwnsType (bench self.old) data_type }
        requires free { NameIsFree (bench self.old) owner name.now }
        ensures { Grows self.old self.new result next_logic_ref
            (with_declaration owner kind name.now data_type) }
    {
        let node_name = Word::new(self.alloc, name)?;
        let member_name = Word::new(self.alloc, name)?;
        let logic_ref = LogicRef {
            id: self.next_term(),
        };
        self.grow_named(
            owner,
            Member::Declaration(kind, member_name, data_type),
            name,
            ExprNode::Name(node_name, Some(data_type)),
        )?;
        Ok(logic_ref)
    }
}
