//! Types that modules and files declare by name.

ghost use Rattle.std.specs.Prelude.{◌≡◌, IfOk};
ghost use Rattle.vast_core.specs.Records.{EnumType, StructType, declared_name};

use crate::handle::{Def, VastDataType};
use crate::node::Connection;
use std::alloc::{AllocError, Global};
use std::marker::Model;
use vast_names::Text;

/// A list that a node holds. In contracts it is the list of what it holds.
#[derive(Drop)]
pub struct NodeList<T> {
    items: Vec<T>,
}

impl<T> Model for NodeList<T> {
    ghost use Rattle.std.specs.Prelude.{List};
    ghost use Rattle.std.specs.Coded.{coded_list};

    ghost Value = { List T };

    ghost coded = { coded_list T.code };

    ghost view = { λ it. it.items.items };
}

impl<T> NodeList<T> {
    fn new(items: Vec<T>) -> NodeList<T>
        ensures { result ≡ items.items }
    {
        NodeList { items }
    }

    /// What it holds, first to last.
    pub fn as_slice(&self) -> &[T]
        ensures { result.now ≡ self.now }
    {
        self.items.as_slice()
    }
}

/// What is declared by name.
#[derive(Drop)]
pub enum DeclaredType {
    /// An enumeration: its type, its name, and its entries, whose values are counted where they have no expression.
    Enum(VastDataType, Text, NodeList<Connection>),
    /// A packed structure: its name and its fields.
    Struct(Text, NodeList<Def>),
}

/// A type that is declared by name. In contracts it is what is declared. It is boxed, since a module has many members, and
/// each would else take as much memory.
#[derive(Drop)]
pub struct Typedef {
    declared: Box<DeclaredType>,
}

impl Model for Typedef {
    ghost use Rattle.vast_core.specs.declared.typedef.DeclaredType.{DeclaredType};

    ghost Value = { DeclaredType };

    ghost view = { λ t. t.declared.value };
}

impl Typedef {
    fn new(alloc: Global, declared: DeclaredType) -> Result<Typedef, AllocError>
        ensures { IfOk result (λ t. t ≡ declared) }
    {
        let declared = Box::new(alloc, declared)?;
        Ok(Typedef { declared })
    }

    /// An enumeration over the type.
    ///
    /// # Errors
    /// Out of memory.
    pub fn enumeration(
        alloc: Global,
        data_type: VastDataType,
        name: &str,
        entries: Vec<Connection>,
    ) -> Result<Typedef, AllocError>
        ensures { IfOk result (λ t. t ≡ EnumType data_type name.now entries.items) }
    {
        let name = Text::new(alloc, name)?;
        let entries = NodeList::new(entries);
        Typedef::new(alloc, DeclaredType::Enum(data_type, name, entries))
    }

    /// A packed structure of the fields that these definitions declare.
    ///
    /// # Errors
    /// Out of memory.
    pub fn structure(alloc: Global, name: &str, fields: Vec<Def>) -> Result<Typedef, AllocError>
        ensures { IfOk result (λ t. t ≡ StructType name.now fields.items) }
    {
        let name = Text::new(alloc, name)?;
        let fields = NodeList::new(fields);
        Typedef::new(alloc, DeclaredType::Struct(name, fields))
    }

    /// What is declared.
    pub fn declared(&self) -> &DeclaredType
        ensures { result.now ≡ self.now }
    {
        &self.declared
    }

    /// The type's name.
    pub fn name(&self) -> &str
        ensures { result.now ≡ declared_name self.now }
    {
        match self.declared() {
            DeclaredType::Enum(_, name, _) => name.as_str(),
            DeclaredType::Struct(name, _) => name.as_str(),
        }
    }
}
