//! What is told of a text, in its order: notes, and apart from them the texts of those that have one.

ghost use Rattle.std.specs.Prelude.{◌≡◌, [], ◌∷◌, IfOk};
ghost use Rattle.vast_read.specs.Internal.Transcripts.{Adds, Says, joined, nothing_written, piece_view, written_in};

mod hearer;
mod note;
mod piece;

pub(crate) use hearer::{Hearer, Telling};
pub(crate) use note::{Note, Role};
pub(crate) use piece::{Followed, Piece};
use std::alloc::{AllocError, Global};

/// What is told of a text, in its order: notes, and the texts of those that have one.
#[derive(Drop)]
pub(crate) struct Transcript<'t> {
    pub(crate) notes: Vec<Note>,
    pub(crate) texts: Vec<&'t str>,
}

impl<'t> Transcript<'t> {
    /// Nothing.
    pub(crate) fn new(alloc: Global) -> Transcript<'t>
        ensures { written_in result ≡ nothing_written }
    {
        Transcript {
            notes: Vec::new(alloc),
            texts: Vec::new(alloc),
        }
    }

    /// All of it.
    pub(crate) fn whole(&self) -> Piece<'_, 't>
        ensures { piece_view result ≡ written_in self.now }
    {
        Piece {
            notes: self.notes.as_slice(),
            texts: self.texts.as_slice(),
        }
    }

    /// Adds a piece at the end.
    pub(crate) fn add(&mut self, piece: Piece<'_, 't>) -> Result<(), AllocError>
        ensures { IfOk result (λ _. written_in self.new
            ≡ joined (written_in self.old) (piece_view piece.entry)) }
    {
        self.notes.extend_from_slice(piece.notes)?;
        self.texts.extend_from_slice(piece.texts)
    }

    /// Adds a text and what it is.
    pub(crate) fn say(&mut self, role: Role, text: &'t str) -> Result<(), AllocError>
        ensures { IfOk result (λ _. Adds self.old (Says role text.now ∷ []) self.new) }
    {
        self.add(Piece {
            notes: &[Note::Says(role)],
            texts: &[text],
        })
    }
}
