//! The ids of the nodes that come next.

ghost use Rattle.std.specs.Prelude.{◌≡◌, ◌+◌, ◌<◌, ◌^◌, length, suc};
ghost use Rattle.vast_core.specs.Growth.{next_id};
ghost use Rattle.vast_core.specs.View.{bench};

use crate::ast::Ast;
use crate::handle::Id;

#[tactic(auto, using(crate::proofs::Lengths::lengths), unfolding(crate::specs::View::bench))]
impl Ast {
    fn id_at(&self, index: usize) -> Id
        ensures { result ≡ next_id (bench self.now) index }
    {
        Id {
            file_id: self.id(),
            index,
        }
    }

    /// The id of the next container.
    pub(crate) fn next_nest(&self) -> Id
        ensures id { result ≡ next_id (bench self.now) (length (bench self.now).nests) }
        ensures small { length (bench self.now).nests < 2 ^ 63 }
    {
        self.id_at(self.nests.len())
    }

    /// The id of the container after the next one.
    pub(crate) fn second_nest(&self) -> Id
        ensures { result ≡ next_id (bench self.now) (suc (length (bench self.now).nests)) }
    {
        self.id_at(self.nests.len() + 1)
    }

    pub(crate) fn next_assignment(&self) -> Id
        ensures { result ≡ next_id (bench self.now) (length (bench self.now).assignments) }
    {
        self.id_at(self.assignments.len())
    }

    pub(crate) fn next_function(&self) -> Id
        ensures { result ≡ next_id (bench self.now) (length (bench self.now).functions) }
    {
        self.id_at(self.functions.len())
    }

    pub(crate) fn next_always_block(&self) -> Id
        ensures { result ≡ next_id (bench self.now) (length (bench self.now).always_blocks) }
    {
        self.id_at(self.always_blocks.len())
    }

    pub(crate) fn next_term(&self) -> Id
        ensures { result ≡ next_id (bench self.now) (length (bench self.now).nodes.roots) }
    {
        self.id_at(self.terms.len())
    }

    /// The id of the expression or type after the next one.
    pub(crate) fn second_term(&self) -> Id
        ensures { result ≡ next_id (bench self.now) (length (bench self.now).nodes.roots + 1) }
    {
        self.id_at(self.terms.len() + 1)
    }

    /// The id of the one after these two.
    pub(crate) fn third_term(&self) -> Id
        ensures { result ≡ next_id (bench self.now) (length (bench self.now).nodes.roots + 2) }
    {
        self.id_at(self.terms.len() + 2)
    }

    pub(crate) fn next_port(&self) -> Id
        ensures { result ≡ next_id (bench self.now) (length (bench self.now).ports) }
    {
        self.id_at(self.ports.len())
    }

    pub(crate) fn next_module(&self) -> Id
        ensures { result ≡ next_id (bench self.now) (length (bench self.now).modules) }
    {
        self.id_at(self.modules.len())
    }

    pub(crate) fn next_definition(&self) -> Id
        ensures { result ≡ next_id (bench self.now) (length (bench self.now).definitions) }
    {
        self.id_at(self.definitions.len())
    }

    pub(crate) fn next_artifact(&self) -> Id
        ensures { result ≡ next_id (bench self.now) (length (bench self.now).artifacts) }
    {
        self.id_at(self.artifacts.len())
    }

    pub(crate) fn next_instance(&self) -> Id
        ensures { result ≡ next_id (bench self.now) (length (bench self.now).instances) }
    {
        self.id_at(self.instances.len())
    }
}
