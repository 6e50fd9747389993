//! The arenas of one file.

ghost use Rattle.std.specs.Prelude.{◌≡◌};
ghost use Rattle.vast_core.specs.Bench.{start};
ghost use Rattle.vast_core.specs.View.{bench};

use crate::handle::VastStatementBlock;
use crate::node::{
    AlwaysBlock, Artifact, Assignment, Definition, ExprNode, FileItem, Function, Instance, Module,
    Nest, Port,
};
use std::alloc::Global;
use std::marker::Model;
use vast_literal::VastFileType;

mod always;
mod arrivals;
mod artifacts;
mod assignments;
mod bit_count;
mod blocks;
mod branches;
mod decimal;
mod detached;
mod events;
mod expressions;
mod functions;
mod growth;
mod hoisting;
pub(crate) mod insertion_point;
mod inspect;
mod laws;
mod loops;
mod members;
mod modules;
mod named;
mod next;
pub(crate) mod owns;
mod parameters;
mod places;
mod ports;
pub(crate) mod scope;
mod terms;
mod typedefs;
mod types;
mod variables;

/// The nodes of one file, in arenas. Handles name nodes by their index.
///
/// In contracts it is its bench (`specs/Bench.antt`): the trees of its expressions and types, its records and lists.
/// Children of an expression or type are older than it, each expression and type is well formed
/// (`specs/Types.antt`), and every handle in a record or a list is the file's own.
pub struct Ast {
    alloc: Global,
    file_type: VastFileType,
    id: u64,
    terms: Vec<ExprNode>,
    nests: Vec<Nest>,
    ports: Vec<Port>,
    assignments: Vec<Assignment>,
    modules: Vec<Module>,
    functions: Vec<Function>,
    definitions: Vec<Definition>,
    artifacts: Vec<Artifact>,
    instances: Vec<Instance>,
    always_blocks: Vec<AlwaysBlock>,
    items: Vec<FileItem>,
    /// A block that nothing holds yet, for an always block to take.
    detached: Option<VastStatementBlock>,
}

impl Model for Ast {
    ghost use Rattle.vast_core.specs.ArenaState.{ArenaState};

    ghost Value = { ArenaState };

    ghost use Rattle.vast_core.specs.Internal.Arenas.{arenas};
    ghost use Rattle.vast_core.specs.Internal.Sound.{IsSound};

    ghost view = { arenas };

    ghost invariant = { λ a. IsSound (arenas a) };
}

/// Written out, so that a crate that lets a file go proves nothing of the nodes in it: the proof is here.
impl Drop for Ast {
    fn drop(self) {
        let Ast {
            alloc: _,
            file_type: _,
            id: _,
            terms: _terms,
            nests: _nests,
            ports: _ports,
            assignments: _assignments,
            modules: _modules,
            functions: _functions,
            definitions: _definitions,
            artifacts: _artifacts,
            instances: _instances,
            always_blocks: _always_blocks,
            items: _items,
            detached: _,
        } = self;
    }
}

impl Ast {
    /// Arenas without nodes. They take no memory.
    pub fn new(alloc: Global, file_type: VastFileType, id: u64) -> Ast
        ensures { bench result ≡ start file_type id }
    {
        Ast {
            alloc,
            file_type,
            id,
            terms: Vec::new(alloc),
            nests: Vec::new(alloc),
            ports: Vec::new(alloc),
            assignments: Vec::new(alloc),
            modules: Vec::new(alloc),
            functions: Vec::new(alloc),
            definitions: Vec::new(alloc),
            artifacts: Vec::new(alloc),
            instances: Vec::new(alloc),
            always_blocks: Vec::new(alloc),
            items: Vec::new(alloc),
            detached: None,
        }
    }

    /// The allocator that every growth of the file takes its memory from.
    pub fn allocator(&self) -> Global {
        self.alloc
    }

    /// The dialect of the file.
    pub fn file_type(&self) -> VastFileType
        ensures { result ≡ (bench self.now).file_type }
    {
        self.file_type
    }

    /// The file's id, which its handles carry.
    pub fn id(&self) -> u64
        ensures { result ≡ (bench self.now).nodes.id }
    {
        self.id
    }
}
