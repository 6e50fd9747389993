//! What comes into the arenas at once: expressions and types, another node, an empty block.

ghost use Rattle.std.specs.Prelude.{◌≡◌, ◌+◌, ◌-◌, ◌++◌, ◌≤◌, OnOk, length, map, vec_capacity, vec_len};
ghost use Rattle.vast_core.specs.Records.{instance_record, module_record};
ghost use Rattle.vast_core.specs.Nests.{always_record, function_record, nest_record};
ghost use Rattle.vast_core.specs.Internal.Containers.{added, with_empty_block, count_of, block_count, HasRoom};
ghost use Rattle.vast_core.specs.Internal.Arrivals.{fresh_of, fresh_node, terms_of};
ghost use Rattle.vast_core.specs.View.{bench};

use crate::ast::Ast;
use crate::node::{
    AlwaysBlock, Artifact, Assignment, Definition, ExprNode, Function, Instance, Module, Nest, Port,
};
use std::alloc::{AllocError, Global};

/// The expressions and types that come, the older first.
#[derive(Drop)]
pub(crate) enum Terms {
    Nothing,
    One(ExprNode),
    Two(ExprNode, ExprNode),
    Three(ExprNode, ExprNode, ExprNode),
}

/// The node of another arena that comes.
#[derive(Drop)]
pub(crate) enum Node {
    Nothing,
    Assignment(Assignment),
    Container(Nest),
    Port(Port),
    Module(Module),
    Function(Function),
    Definition(Definition),
    Artifact(Artifact),
    Instance(Instance),
    Always(AlwaysBlock),
    /// An always block over the file's detached block.
    AlwaysOverDetached(AlwaysBlock),
}

impl Terms {
    #[inline(always)]
    fn count(&self) -> usize
        ensures { result ≡ length (terms_of self.now) }
    {
        match self {
            Terms::Nothing => 0,
            Terms::One(_) => 1,
            Terms::Two(_, _) => 2,
            Terms::Three(_, _, _) => 3,
        }
    }
}

impl Node {
    /// Whether it is over the detached block.
    #[inline(always)]
    pub(crate) fn takes_detached(&self) -> bool
        ensures { result ≡ (fresh_node self.now).takes_detached }
    {
        match self {
            Node::AlwaysOverDetached(_) => true,
            _ => false,
        }
    }

    /// How many containers come.
    #[inline(always)]
    fn container_count(&self) -> usize
        ensures { result ≡ count_of (fresh_node self.now).container }
    {
        match self {
            Node::Container(_) => 1,
            _ => 0,
        }
    }
}

/// Adds the expressions and types, for which there is room.
#[inline(always)]
pub(crate) fn settle_terms(items: &mut Vec<ExprNode>, terms: Terms)
    requires { length (terms_of terms) ≤ vec_capacity items.old - vec_len items.old }
    ensures { items.new.items ≡ items.old.items ++ terms_of terms }
{
    match terms {
        Terms::Nothing => (),
        Terms::One(first) => items.push(first).unwrap(),
        Terms::Two(first, second) => {
            items.push(first).unwrap();
            items.push(second).unwrap();
        }
        Terms::Three(first, second, third) => {
            items.push(first).unwrap();
            items.push(second).unwrap();
            items.push(third).unwrap();
        }
    }
}

/// Adds the node to its arena, where there is room for it.
#[inline(always)]
pub(crate) fn settle_node(
    assignments: &mut Vec<Assignment>,
    nests: &mut Vec<Nest>,
    ports: &mut Vec<Port>,
    modules: &mut Vec<Module>,
    functions: &mut Vec<Function>,
    definitions: &mut Vec<Definition>,
    artifacts: &mut Vec<Artifact>,
    instances: &mut Vec<Instance>,
    always_blocks: &mut Vec<AlwaysBlock>,
    node: Node,
)
    requires assignments { count_of (fresh_node node).assignment ≤ vec_capacity assignments.old
        - vec_len assignments.old }
    requires nests { count_of (fresh_node node).container ≤ vec_capacity nests.old
        - vec_len nests.old }
    requires ports { count_of (fresh_node node).port ≤ vec_capacity ports.old - vec_len ports.old }
    requires modules { count_of (fresh_node node).fresh_module ≤ vec_capacity modules.old
        - vec_len modules.old }
    requires functions { count_of (fresh_node node).function ≤ vec_capacity functions.old
        - vec_len functions.old }
    requires definitions { count_of (fresh_node node).definition ≤ vec_capacity definitions.old
        - vec_len definitions.old }
    requires artifacts { count_of (fresh_node node).artifact ≤ vec_capacity artifacts.old
        - vec_len artifacts.old }
    requires instances { count_of (fresh_node node).instance ≤ vec_capacity instances.old
        - vec_len instances.old }
    requires always_blocks { count_of (fresh_node node).always_block
        ≤ vec_capacity always_blocks.old - vec_len always_blocks.old }
    ensures assignments { assignments.new.items
        ≡ added assignments.old.items (fresh_node node).assignment }
    ensures nests { map nest_record nests.new.items
        ≡ added (map nest_record nests.old.items) (fresh_node node).container }
    ensures ports { ports.new.items
        ≡ added ports.old.items (fresh_node node).port }
    ensures modules { map module_record modules.new.items
        ≡ added (map module_record modules.old.items) (fresh_node node).fresh_module }
    ensures functions { map function_record functions.new.items
        ≡ added (map function_record functions.old.items) (fresh_node node).function }
    ensures definitions { definitions.new.items
        ≡ added definitions.old.items (fresh_node node).definition }
    ensures artifacts { artifacts.new.items
        ≡ added artifacts.old.items (fresh_node node).artifact }
    ensures instances { map instance_record instances.new.items
        ≡ added (map instance_record instances.old.items) (fresh_node node).instance }
    ensures always_blocks { map always_record always_blocks.new.items
        ≡ added (map always_record always_blocks.old.items) (fresh_node node).always_block }
    ensures room { vec_capacity nests.old - vec_len nests.old
        ≤ (vec_capacity nests.new - vec_len nests.new) + count_of (fresh_node node).container }
{
    match node {
        Node::Nothing => (),
        Node::Assignment(assignment) => assignments.push(assignment).unwrap(),
        Node::Container(container) => nests.push(container).unwrap(),
        Node::Port(port) => ports.push(port).unwrap(),
        Node::Module(module) => modules.push(module).unwrap(),
        Node::Function(function) => functions.push(function).unwrap(),
        Node::Definition(definition) => definitions.push(definition).unwrap(),
        Node::Artifact(artifact) => artifacts.push(artifact).unwrap(),
        Node::Instance(instance) => instances.push(instance).unwrap(),
        Node::Always(always_block) | Node::AlwaysOverDetached(always_block) => {
            always_blocks.push(always_block).unwrap();
        }
    }
}

/// Adds the empty block, if it comes; there is room for it.
#[inline(always)]
pub(crate) fn settle_block(nests: &mut Vec<Nest>, block: bool, alloc: Global)
    requires { block_count block ≤ vec_capacity nests.old - vec_len nests.old }
    ensures { map nest_record nests.new.items
        ≡ with_empty_block block (map nest_record nests.old.items) }
{
    if block {
        nests.push(Nest::Block(Vec::new(alloc))).unwrap();
    }
}

impl Ast {
    /// Makes room for what comes.
    #[inline(always)]
    #[tactic(auto, unfolding(crate::specs::View::bench))]
    pub(crate) fn make_room(
        &mut self,
        terms: &Terms,
        node: &Node,
        block: bool,
    ) -> Result<(), AllocError>
        ensures unchanged { bench self.new ≡ bench self.old }
        ensures room { OnOk result (HasRoom self.new (fresh_of terms.now node.now block)) }
    {
        self.terms.reserve(terms.count())?;
        let blocks = if block { 1 } else { 0 };
        self.nests.reserve(node.container_count() + blocks)?;
        match node {
            Node::Nothing | Node::Container(_) => Ok(()),
            Node::Assignment(_) => self.assignments.reserve(1),
            Node::Port(_) => self.ports.reserve(1),
            Node::Module(_) => self.modules.reserve(1),
            Node::Function(_) => self.functions.reserve(1),
            Node::Definition(_) => self.definitions.reserve(1),
            Node::Artifact(_) => self.artifacts.reserve(1),
            Node::Instance(_) => self.instances.reserve(1),
            Node::Always(_) | Node::AlwaysOverDetached(_) => self.always_blocks.reserve(1),
        }
    }
}
