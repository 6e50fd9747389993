//! Pieces of transcripts, and whether a text tells what another told.

ghost use Rattle.std.specs.Prelude.{◌≡◌, ◌≢◌, ℕ, List, ◌∷◌, ◌++◌, MatchOption, Some, option_map};
ghost use Rattle.std.specs.Bool.{MatchBool};
ghost use Rattle.vast_read.specs.Internal.Comparison.{Tells};
ghost use Rattle.vast_read.specs.Internal.Transcripts.{Follows, Written, between, joined, left_in, nothing_written, piece_view, spelled};

use crate::transcript::Note;

/// A piece of a transcript.
#[derive(Clone, Copy)]
pub(crate) struct Piece<'a, 't> {
    pub(crate) notes: &'a [Note],
    pub(crate) texts: &'a [&'t str],
}

impl<'a, 't> Piece<'a, 't> {
    /// What is after this front; none, where the piece does not begin with it.
    fn after(self, front: Piece<'_, '_>) -> Option<Piece<'a, 't>>
        ensures { MatchOption result
            ((w : Written) → piece_view self.entry ≢ joined (piece_view front.entry) w)
            (λ p. piece_view self.entry ≡ joined (piece_view front.entry) (piece_view p)) }
    {
        let notes = notes_after(self.notes, front.notes)?;
        let texts = texts_after(self.texts, front.texts)?;
        Some(Piece { notes, texts })
    }

    /// What stands between the first note, with its text, and the last note.
    pub(crate) fn inner(self) -> Option<Piece<'a, 't>>
        ensures { (first last : Note) (text : List ℕ) (v : Written) →
            piece_view self.entry ≡ between first text v last →
            option_map piece_view result ≡ Some v }
    {
        let (_, behind) = self.notes.split_first()?;
        let (_, notes) = behind.split_last()?;
        let (_, texts) = self.texts.split_first()?;
        Some(Piece { notes, texts })
    }
}

/// The notes after this front; none, where they do not begin with it.
fn notes_after<'a>(notes: &'a [Note], front: &[Note]) -> Option<&'a [Note]>
    ensures { MatchOption result
        ((ns : List Note) → notes.now ≢ front.now ++ ns)
        (λ ns. notes.now ≡ front.now ++ ns.now) }
{
    let mut rest = notes;
    for note in front {
        rest = note_after(rest, *note)?;
    }
    Some(rest)
}

/// The notes after this one; none, where it is not the first.
fn note_after<'a>(notes: &'a [Note], wanted: Note) -> Option<&'a [Note]>
    ensures { MatchOption result
        ((ns : List Note) → notes.now ≢ wanted ∷ ns)
        (λ ns. notes.now ≡ wanted ∷ ns.now) }
{
    let (first, rest) = notes.split_first()?;
    if first.is(wanted) { Some(rest) } else { None }
}

/// The same of texts.
fn texts_after<'a, 't>(texts: &'a [&'t str], front: &[&str]) -> Option<&'a [&'t str]>
    ensures { MatchOption result
        ((ws : List (List ℕ)) → spelled texts.now ≢ spelled front.now ++ ws)
        (λ ws. spelled texts.now ≡ spelled front.now ++ spelled ws.now) }
{
    if texts.len() < front.len() {
        return None;
    }
    let (start, rest) = texts.split_at(front.len());
    if same_texts(start, front) {
        Some(rest)
    } else {
        None
    }
}

/// Whether texts are these.
fn same_texts(texts: &[&str], others: &[&str]) -> bool
    ensures { Tells result (spelled texts.now) (spelled others.now) }
{
    texts == others
}

/// What is still to be told where a text tells what another told; none, once it told something else.
#[derive(Drop)]
pub(crate) struct Followed<'a, 't> {
    pub(crate) left: Option<Piece<'a, 't>>,
    /// How many pieces the text told as the other did.
    pub(crate) count: usize,
}

impl<'a, 't> Followed<'a, 't> {
    /// Whether the text told all that the other told, and nothing else.
    pub(crate) fn is_over(&self) -> bool
        ensures { MatchBool result
            (left_in self.now ≡ Some nothing_written)
            (left_in self.now ≢ Some nothing_written) }
    {
        match self.left {
            None => false,
            Some(piece) => piece.notes.is_empty() && piece.texts.is_empty(),
        }
    }

    /// Goes on by a piece of what the text tells.
    pub(crate) fn follow(&mut self, piece: Piece<'_, '_>)
        ensures { Follows (left_in self.old) (piece_view piece.entry) (left_in self.new) }
    {
        self.left = match self.left {
            None => None,
            Some(left) => left.after(piece),
        };
        if self.left.is_some() {
            self.count = self.count.saturating_add(1);
        }
    }
}
