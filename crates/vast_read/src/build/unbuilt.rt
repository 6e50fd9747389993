//! Nothing, where no tree is wanted.

ghost use Rattle.vast_expressions.specs.Internal.Values.{Grown, grown};
ghost use Rattle.vast_read.specs.Internal.Values.{first_tree, told};

use crate::build::{Build, Trees, read_told};
use crate::reader::Reader;
use crate::tree::NormalExpr;
use std::alloc::AllocError;
use std::mem::size_of;
use std::snapshot::Snapshot;
use vast_expressions::{Event, Sink};

// What hears an expression takes no bytes.
const _: () = prove!(size_of::<Shaded<'static>>() == 0);

/// Nothing is made of an expression: what stands for it takes no bytes, and only clauses see its
/// tree.
pub(crate) struct Unbuilt;

/// What clauses see of an expression of which nothing is made.
#[derive(Drop)]
pub(crate) enum Shadow<'t> {
    /// Nothing was told yet.
    Nothing,
    /// A tree that was made and let go.
    Tree(Snapshot<NormalExpr>),
    /// One more event was told.
    More(Snapshot<Shadow<'t>>, Event<'t>),
}

/// Who hears an expression, and keeps nothing.
#[derive(Drop)]
pub(crate) struct Shaded<'t> {
    told: Snapshot<Shadow<'t>>,
}

impl<'t> Sink<'t> for Shaded<'t> {
    ghost hears = { λ a e b. Grown (grown e (told a.told.value)) (told b.told.value) };

    fn tell(&mut self, event: Event<'t>) -> Result<(), AllocError> {
        let before = std::mem::replace(&mut self.told, Snapshot::of(&Shadow::Nothing));
        self.told = Snapshot::of(&Shadow::More(before, event));
        Ok(())
    }
}

impl<'t> Build<'t> for Unbuilt {
    type Expr = Snapshot<Shadow<'t>>;

    ghost denotes = { λ x. first_tree (told x.value) };

    fn read(
        reader: &mut Reader<'t>,
        is_target: bool,
    ) -> Result<Option<Snapshot<Shadow<'t>>>, AllocError> {
        let mut shaded = Shaded {
            told: Snapshot::of(&Shadow::Nothing),
        };
        if read_told(reader, is_target, &mut shaded)? {
            Ok(Some(shaded.told))
        } else {
            Ok(None)
        }
    }

    fn bound(
        reader: &mut Reader<'t>,
        name: &str,
    ) -> Result<Option<Snapshot<Shadow<'t>>>, AllocError> {
        match Trees::bound(reader, name)? {
            None => Ok(None),
            Some(end) => Ok(Some(Snapshot::of(&Shadow::Tree(Snapshot::of(&*end))))),
        }
    }
}
