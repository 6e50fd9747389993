//! Trees.

ghost use Rattle.std.specs.Prelude.{◌≡◌, [], MatchOption, None};
ghost use Rattle.vast_expressions.specs.Internal.Values.{Grown, grown, take_tree};
ghost use Rattle.vast_read.specs.Internal.Values.{first_tree, denoted};
ghost use Rattle.vast_read.specs.View.{view};

use crate::build::make::hear;
use crate::build::value::{Values, pop_tree};
use crate::build::{Build, read_told};
use crate::reader::Reader;
use crate::tree::NormalExpr;
use std::alloc::{AllocError, Global};
use vast_expressions::{Event, Sink};
use vast_rows::Stack;

/// The tree of an expression is made.
pub(crate) struct Trees;

/// What was made so far of an expression.
#[derive(Drop)]
pub(crate) struct Growing<'t> {
    alloc: Global,
    pub(crate) values: Values<'t>,
}

impl<'t> Sink<'t> for Growing<'t> {
    ghost hears = { λ a e b. Grown (grown e (denoted a.values)) (denoted b.values) };

    fn tell(&mut self, event: Event<'t>) -> Result<(), AllocError> {
        hear(self.alloc, event, &mut self.values)
    }
}

impl<'t> Growing<'t> {
    /// Nothing.
    pub(crate) fn new(alloc: Global) -> Growing<'t>
        ensures { result.values ≡ [] }
    {
        Growing {
            alloc,
            values: Stack::new(alloc),
        }
    }

    /// The tree that was made last.
    pub(crate) fn tree(self) -> Option<Box<NormalExpr>>
        ensures { MatchOption result
            (take_tree (denoted self.entry.values) ≡ None)
            (λ x. first_tree (denoted self.entry.values) ≡ view x.value) }
    {
        let Growing {
            alloc: _,
            mut values,
        } = self;
        pop_tree(&mut values)
    }
}

impl<'t> Build<'t> for Trees {
    type Expr = Box<NormalExpr>;

    ghost denotes = { λ x. view x.value };

    fn read(
        reader: &mut Reader<'t>,
        is_target: bool,
    ) -> Result<Option<Box<NormalExpr>>, AllocError> {
        let mut growing = Growing::new(reader.alloc);
        if read_told(reader, is_target, &mut growing)? {
            Ok(growing.tree())
        } else {
            Ok(None)
        }
    }

    #[tactic(auto, using(crate::proofs::Conditions::conditions))]
    fn bound(reader: &mut Reader<'t>, name: &str) -> Result<Option<Box<NormalExpr>>, AllocError> {
        match Trees::read(reader, false)? {
            None => Ok(None),
            Some(condition) => Ok(Box::into_inner(condition).bound(name)),
        }
    }
}
