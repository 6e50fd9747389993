//! Where two files begin to differ.

ghost use Rattle.std.specs.Prelude.{IfOk, IfSome, MatchOption, ⊤};
ghost use Rattle.vast_read.specs.Compared.{Compares, IsOneFile, IsPiece, IsPlace};
ghost use Rattle.vast_read.specs.declared.same.Comparison.TheVariants.{Different};

use crate::build::Unbuilt;
use crate::phrase::Phrases;
use crate::place::place_of_left;
use crate::same::{Comparison, compared};
use std::alloc::{AllocError, Global};
use vast_rows::{Action, Sink, Source, read_file};

/// A piece of a text, by the places of its bytes.
#[derive(Clone, Copy, Debug, PartialEq, Eq)]
pub struct Piece {
    /// Where it begins.
    pub start: usize,
    /// Behind its last token, or before the token by which it tells what follows.
    pub end: usize,
}

/// The first pieces of two texts that tell something else of their files.
#[derive(Clone, Copy, Debug, PartialEq, Eq)]
pub struct Difference {
    /// That of the old text.
    pub old: Piece,
    /// That of the new text.
    pub new: Piece,
}

/// Where the files that two texts derive begin to differ; nothing, where they are the same or one text derives none.
///
/// Before both pieces the same is told of both files. A piece holds one name, one path, one expression or the header of
/// one loop, or ends at the token that says what follows. That those are the first that differ is tested, not proved. It
/// takes time and memory as [`are_same`](crate::are_same) does.
pub fn first_difference(
    alloc: Global,
    old: &str,
    new: &str,
) -> Result<Option<Difference>, AllocError>
    ensures found { IfOk result (λ o. MatchOption o
        (IsOneFile old.now new.now) (λ _. Compares Different old.now new.now)) }
    ensures pieces { IfOk result (λ o. IfSome o (λ d.
        IsPiece old.now d.old × IsPiece new.now d.new)) }
{
    let mut count = 0;
    match compared(alloc, old, new, &mut count)? {
        Comparison::Different => Ok(Some(Difference {
            old: piece_of(alloc, old, count)?,
            new: piece_of(alloc, new, count)?,
        })),
        Comparison::Same => Ok(None),
        Comparison::OldUnderived | Comparison::NewUnderived => Ok(None),
    }
}

/// The piece of which a text tells after so many others.
fn piece_of(alloc: Global, text: &str, count: usize) -> Result<Piece, AllocError>
    ensures { IfOk result (IsPiece text.now) }
{
    Ok(Piece {
        start: place_after(alloc, text, count.saturating_sub(1))?,
        end: place_after(alloc, text, count)?,
    })
}

/// Where the reader stands as it tells of a piece after so many others.
fn place_after(alloc: Global, text: &str, count: usize) -> Result<usize, AllocError>
    ensures { IfOk result (IsPlace text.now) }
{
    let mut source: Phrases<'_, Unbuilt> = Phrases::new(alloc, text);
    let mut counter = Counter { left: Some(count) };
    match read_file(alloc, &mut source, &mut counter) {
        Err(error) if counter.left.is_some() => Err(error),
        _ => Ok(place_of_left(alloc, text, source.reader)),
    }
}

/// Who lets a reader tell of so many pieces, and at the next one stops it, as want of memory would.
#[derive(Clone, Copy)]
struct Counter {
    /// None, once it stopped the reader.
    left: Option<usize>,
}

impl Counter {
    /// One more piece.
    fn count(&mut self) -> Result<(), AllocError> {
        self.left = self.left.and_then(|left| left.checked_sub(1));
        if self.left.is_some() {
            Ok(())
        } else {
            Err(AllocError)
        }
    }
}

impl<S: Source> Sink<S> for Counter {
    ghost after = { λ s events t. ⊤ };

    ghost nothing = { λ s. tt };

    ghost joined = { λ s t u first second a b. tt };

    fn makes(&mut self, _action: Action) -> Result<(), AllocError> {
        self.count()
    }

    fn reads(&mut self, _made: S::Made) -> Result<(), AllocError> {
        self.count()
    }

    fn names(&mut self, _name: S::Name) -> Result<(), AllocError> {
        self.count()
    }
}
