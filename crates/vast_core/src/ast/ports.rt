//! Ports of modules.

ghost use Rattle.std.specs.Prelude.{◌≡◌, slice_get};
ghost use Rattle.vast_core.specs.Bench.{NameIsFree, OwnsModule, OwnsPort, OwnsType, OwnsLogicRef};
ghost use Rattle.vast_core.specs.Growth.{Grows, next_logic_ref, with_port};
ghost use Rattle.vast_core.specs.View.{bench};

use crate::ast::Ast;
use crate::ast::arrivals::{Node, Terms};
use crate::ast::growth::{ModuleEntry, Place};
use crate::handle::{LogicRef, ModulePort, VastDataType, VastModule};
use crate::node::{ExprNode, Port};
use std::alloc::AllocError;
use vast_literal::{DataKind, ModulePortDirection};
use vast_names::Word;

impl Ast {
    /// Adds a port to the end of the module's ports, and returns its name as an expression. The name is free
    /// ([`Module::name_is_free`]), and is taken from then on.
    ///
    /// # Errors
    /// `AllocError` where a growth was refused; nothing changed.
    pub fn push_port(
        &mut self,
        owner: VastModule,
        direction: ModulePortDirection,
        kind: DataKind,
        name: &str,
        data_type: VastDataType,
    ) -> Result<LogicRef, AllocError>
        requires owner { OwnsModule (bench self.old) owner }
        requires data_type { OwnsType (bench self.old) data_type }
        requires free { NameIsFree (bench self.old) owner name.now }
        ensures { Grows self.old self.new result next_logic_ref
            (with_port owner direction kind name.now data_type) }
    {
        let node_name = Word::new(self.alloc, name)?;
        let port_name = Word::new(self.alloc, name)?;
        let logic_ref = LogicRef {
            id: self.next_term(),
        };
        let port = ModulePort {
            id: self.next_port(),
        };
        self.grow(
            Place::Module(owner, ModuleEntry::Port(port, name)),
            Terms::One(ExprNode::Name(node_name, Some(data_type))),
            Node::Port(Port {
                direction,
                kind,
                name: port_name,
                data_type,
                logic_ref,
            }),
            false,
        )?;
        Ok(logic_ref)
    }

    /// A port of a module. Its type and its name are the file's.
    pub fn port(&self, p: ModulePort) -> &Port
        requires { OwnsPort (bench self.now) p }
        ensures there { slice_get (bench self.now).ports p.id.index
            ≡ Some result.now }
        ensures data_type { OwnsType (bench self.now) result.now.data_type }
        ensures logic_ref { OwnsLogicRef (bench self.now) result.now.logic_ref }
    {
        &self.ports[p.id.index]
    }
}
