//! Who hears a text piece by piece.

ghost use Rattle.std.specs.Prelude.{◌≡◌, [], ◌∷◌, IfOk};
ghost use Rattle.std.proofs.Common.{subst, sym};
ghost use Rattle.vast_read.specs.Internal.TranscriptLaws.{adds_nothing, adds_joined, follows_nothing, follows_joined, written_joined};
ghost use Rattle.vast_read.specs.Internal.Transcripts.{Follows, Says, Written, entries, joined, left_in, nothing_written, piece_view, written, written_in};
ghost use Rattle.vast_read.specs.Internal.Transcribed.{tree_of};
ghost use Rattle.vast_rows.specs.Events.{Reads};
ghost use Rattle.vast_rows.specs.Phrases.{IsExpression, IsLoop};

use crate::build::{Events, Spoken};
use crate::phrase::{Made, Phrases};
use crate::transcript::{Followed, Note, Piece, Role, Transcript};
use std::alloc::AllocError;
use vast_rows::{Action, Sink};

/// Hears a text piece by piece, in its order.
///
/// `hears` says what was heard between two states.
pub(crate) trait Hearer<'t>: Drop {
    ghost hears: { Self → Written → Self → Type 0 };

    /// Hears a piece.
    fn hear(&mut self, piece: Piece<'_, 't>) -> Result<(), AllocError>
        ensures { IfOk result (λ _. hears self.old (piece_view piece.entry) self.new) };

    ghost nothing: { (s : Self) → hears s nothing_written s };

    ghost both: { (s t u : Self) (first second : Written) →
        hears s first t → hears t second u → hears s (joined first second) u };
}

/// A transcript keeps what it hears.
impl<'t> Hearer<'t> for Transcript<'t> {
    ghost hears = { λ s heard t. written_in t ≡ joined (written_in s) heard };

    fn hear(&mut self, piece: Piece<'_, 't>) -> Result<(), AllocError> {
        self.add(piece)
    }

    ghost nothing = { λ s. adds_nothing (written_in s) };

    ghost both = { λ s t u first second a b.
        adds_joined (written_in s) (written_in t) (written_in u) first second a b };
}

/// Who compares keeps nothing.
impl<'a, 'o, 't> Hearer<'t> for Followed<'a, 'o> {
    ghost hears = { λ s heard t. Follows (left_in s) heard (left_in t) };

    fn hear(&mut self, piece: Piece<'_, 't>) -> Result<(), AllocError> {
        self.follow(piece);
        Ok(())
    }

    ghost nothing = { λ s. follows_nothing (left_in s) };

    ghost both = { λ s t u first second a b.
        follows_joined (left_in s) (left_in t) (left_in u) first second a b };
}

/// What the machine tells, told to a hearer.
#[derive(Drop)]
pub(crate) struct Telling<H> {
    pub(crate) hearer: H,
}

impl<'t, H: Hearer<'t>> Telling<H> {
    /// Tells a text that is this.
    fn text(&mut self, role: Role, text: &'t str) -> Result<(), AllocError>
        ensures { IfOk result (λ _. H.hears self.old.hearer
            (written (Says role text.now ∷ [])) self.new.hearer) }
    {
        self.hearer.hear(Piece {
            notes: &[Note::Says(role)],
            texts: &[text],
        })
    }

    /// Tells an expression.
    fn expression(&mut self, spoken: Spoken<'t>) -> Result<(), AllocError>
        ensures { IfOk result (λ _. H.hears self.old.hearer (written (entries
            (Reads (IsExpression (tree_of (written_in spoken.entry.told))) ∷ [])))
            self.new.hearer) }
    {
        self.hearer.hear(spoken.whole())
    }

    /// Tells the header of a loop.
    fn range(
        &mut self,
        variable: &'t str,
        start: Spoken<'t>,
        end: Spoken<'t>,
    ) -> Result<(), AllocError>
        ensures { IfOk result (λ _. H.hears self.old.hearer (written (entries
            (Reads (IsLoop variable.now (tree_of (written_in start.entry.told))
            (tree_of (written_in end.entry.told))) ∷ []))) self.new.hearer) }
    {
        let Spoken { mut told } = start;
        told.add(end.whole())?;
        told.say(Role::Variable, variable)?;
        self.hearer.hear(told.whole())
    }
}

impl<'t, H: Hearer<'t>> Sink<Phrases<'t, Events>> for Telling<H> {
    ghost after = { λ s es t. H.hears s.hearer (written (entries es)) t.hearer };

    fn makes(&mut self, action: Action) -> Result<(), AllocError> {
        self.hearer.hear(Piece {
            notes: &[Note::Makes(action)],
            texts: &[],
        })
    }

    fn reads(&mut self, made: Made<'t, Spoken<'t>>) -> Result<(), AllocError> {
        match made {
            Made::Expression(spoken) => self.expression(spoken),
            Made::Loop(variable, start, end) => self.range(variable, start, end),
            Made::Path(path) => self.text(Role::Path, path),
        }
    }

    fn names(&mut self, name: &'t str) -> Result<(), AllocError> {
        self.text(Role::Named, name)
    }

    ghost nothing = { λ s. H.nothing s.hearer };

    ghost joined = { λ s t u first second a b.
        subst (λ v. H.hears s.hearer v u.hearer) (sym (written_joined first second))
        (H.both s.hearer t.hearer u.hearer (written (entries first)) (written (entries second)) a b) };
}
