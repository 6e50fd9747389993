//! Transcripts of expressions, where no tree is wanted.

ghost use Rattle.std.specs.Prelude.{◌≡◌, ℕ, List, [], ◌∷◌, IfOk, MatchOption, Some, None};
ghost use Rattle.vast_expressions.specs.Internal.Values.{Grown, Tree, grown};
ghost use Rattle.vast_literal.specs.NormalExpr.{NormalExpr as Normal};
ghost use Rattle.vast_read.specs.Internal.Bounds.{bound_of};
ghost use Rattle.vast_read.specs.Internal.Readings.{less_than};
ghost use Rattle.vast_read.specs.Internal.Transcripts.{Adds, IsOf, entry_of, piece_view, written_in};
ghost use Rattle.vast_read.specs.Internal.Transcribed.{IsWhole, tree_of};
ghost use Rattle.vast_read.specs.Internal.Values.{denoted};

use crate::build::trees::Growing;
use crate::build::{Build, read_told};
use crate::reader::Reader;
use crate::transcript::{Note, Piece, Role, Transcript};
use std::alloc::{AllocError, Global};
use vast_expressions::{Event, Sink};

/// The events of an expression are kept.
pub(crate) struct Events;

/// The transcript of an expression.
#[derive(Drop)]
pub(crate) struct Spoken<'t> {
    pub(crate) told: Transcript<'t>,
    ghost whole: { IsWhole (written_in told) },
}

impl<'t> Spoken<'t> {
    /// All of it.
    pub(crate) fn whole(&self) -> Piece<'_, 't>
        ensures { IsOf (tree_of (written_in self.now.told)) (piece_view result) }
    {
        self.told.whole()
    }
}

impl<'t> Sink<'t> for Transcript<'t> {
    ghost hears = { λ a e b. Adds a (entry_of e ∷ []) b };

    fn tell(&mut self, event: Event<'t>) -> Result<(), AllocError> {
        match event {
            Event::Name(text) => self.say(Role::Name, text),
            Event::Literal(text) => self.say(Role::Literal, text),
            Event::Text(text) => self.say(Role::Text, text),
            Event::MacroAlone(text) => self.say(Role::MacroAlone, text),
            Event::Word(text) => self.say(Role::Word, text),
            Event::PartSelect(text) => self.say(Role::Width, text),
            Event::MemberOf(text) => self.say(Role::Member, text),
            Event::Made(told) => self.add(Piece {
                notes: &[Note::Tells(told)],
                texts: &[],
            }),
        }
    }
}

/// What is heard of the condition of a loop: its transcript, and its tree.
#[derive(Drop)]
struct Condition<'t> {
    told: Transcript<'t>,
    growing: Growing<'t>,
}

impl<'t> Sink<'t> for Condition<'t> {
    ghost hears = { λ a e b.
        Grown (grown e (denoted a.growing.values)) (denoted b.growing.values)
        × Adds a.told (entry_of e ∷ []) b.told };

    fn tell(&mut self, event: Event<'t>) -> Result<(), AllocError> {
        self.growing.tell(event)?;
        self.told.tell(event)
    }
}

impl<'t> Condition<'t> {
    /// What this name is less than, where the condition says so of it.
    fn end(self, alloc: Global, name: &str) -> Result<Option<Spoken<'t>>, AllocError>
        requires { (x : Normal) × (denoted self.growing.values ≡ (Tree x ∷ []))
            × IsOf x (written_in self.told) }
        ensures { IfOk result (λ o. (x : Normal) →
            denoted self.entry.growing.values ≡ (Tree x ∷ []) → MatchOption o
            (bound_of name.now x ≡ None)
            (λ e. bound_of name.now x ≡ Some (tree_of (written_in e.told)))) }
    {
        let Condition { told, growing } = self;
        let Some(tree) = growing.tree() else {
            return Ok(None);
        };
        match Box::into_inner(tree).bound(name) {
            None => Ok(None),
            Some(_end) => end_of(alloc, told),
        }
    }
}

/// What a name is less than, of the transcript of an expression that says so of it.
fn end_of<'t>(alloc: Global, condition: Transcript<'t>) -> Result<Option<Spoken<'t>>, AllocError>
    requires { (i : List ℕ) × (e : Normal) × IsOf (less_than i e) (written_in condition) }
    ensures { IfOk result (λ o. (i : List ℕ) (e : Normal) →
        IsOf (less_than i e) (written_in condition.entry) →
        MatchOption o ⊥ (λ s. tree_of (written_in s.told) ≡ e)) }
{
    let Some(inner) = condition.whole().inner() else {
        return Ok(None);
    };
    let mut told = Transcript::new(alloc);
    told.add(inner)?;
    Ok(Some(Spoken { told }))
}

impl<'t> Build<'t> for Events {
    type Expr = Spoken<'t>;

    ghost denotes = { λ x. tree_of (written_in x.told) };

    fn read(reader: &mut Reader<'t>, is_target: bool) -> Result<Option<Spoken<'t>>, AllocError> {
        let mut told = Transcript::new(reader.alloc);
        if read_told(reader, is_target, &mut told)? {
            Ok(Some(Spoken { told }))
        } else {
            Ok(None)
        }
    }

    fn bound(reader: &mut Reader<'t>, name: &str) -> Result<Option<Spoken<'t>>, AllocError> {
        let alloc = reader.alloc;
        let mut condition = Condition {
            told: Transcript::new(alloc),
            growing: Growing::new(alloc),
        };
        if read_told(reader, false, &mut condition)? {
            condition.end(alloc, name)
        } else {
            Ok(None)
        }
    }
}
