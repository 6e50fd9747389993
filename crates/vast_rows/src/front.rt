//! How far tokens begin a file, and what could stand next, read off the machine's stack.

ghost use Rattle.std.specs.Prelude.{◌≡◌, ◌↔◌, ℕ, List, true, IfOk, MatchResult};
ghost use Rattle.vast_literal.specs.Tokens.{Token};
ghost use Rattle.vast_rows.specs.Fronts.{LongestFront, SpellsFile};
ghost use Rattle.vast_rows.specs.Internal.Sources.{SpellsPhrase};
ghost use Rattle.vast_rows.specs.Internal.Reaches.{IsQuiet, Reaches, SpellsRule, are_plain};
ghost use Rattle.vast_rows.specs.Internal.Firsts.{firsts_in, first_kinds, is_empty, own_kinds};
ghost use Rattle.vast_rows.specs.Internal.PhraseKinds.{firsts};
ghost use Rattle.vast_rows.specs.Internal.Predictive.{may_be_empty};
ghost use Rattle.vast_rows.specs.Internal.Sets.{only};
ghost use Rattle.vast_rows.specs.Kinds.{has, number};
ghost use Rattle.vast_rows.specs.Tables.{facts_of, rows_of};

use crate::grammar::{Item, Phrase, Table};
use crate::kind::Kind;
use crate::machine::{Due, is_in, open};
use crate::reach::{Reach, reach_phrase};
use crate::rule::Rule;
use crate::sink::Nothing;
use crate::source::{Fronts, Source};
use crate::stack::Stack;
use crate::table::files;
use std::alloc::{AllocError, Global};
use std::convert::Infallible;

/// What could stand next: tokens of some kinds, and perhaps nothing more.
///
/// Bit `n` of `kinds` is set for the kind whose number is `n`.
#[derive(Clone, Copy, Debug, PartialEq, Eq)]
pub struct Next {
    /// The kinds.
    pub kinds: u128,
    /// Whether nothing more may stand there.
    pub ends: bool,
}

impl Next {
    /// Whether a token of the kind could stand next.
    pub fn has(self, kind: Kind) -> bool
        ensures { result ≡ has self.kinds (number kind) }
    {
        is_in(self.kinds, kind.number())
    }
}

/// The set of one kind.
pub(crate) fn one_kind(kind: Kind) -> u128
    ensures { result ≡ only (number kind) }
{
    1 << kind.number()
}

/// The kinds with which a phrase begins.
pub(crate) fn phrase_kinds(phrase: Phrase) -> u128
    ensures { result ≡ firsts phrase }
{
    match phrase {
        Phrase::Expression => 0x1b_8003_0800_7200_23fa,
        Phrase::Target => 0x1b_8000_0000_0200_23fa,
        Phrase::LoopHead => 0x2,
        Phrase::Path => 0x100,
    }
}

/// The kinds with which an item begins where it is not empty.
pub(crate) fn kinds_of(table: &Table, item: Item) -> u128
    ensures { result ≡ own_kinds (firsts_in table.now.firsts.now) item }
{
    match item {
        Item::Token(kind) if kind < 128 => 1 << kind,
        Item::Token(_) => 0,
        Item::Rule(rule) => match table.firsts.get(rule as usize) {
            Some(kinds) => *kinds,
            None => 0,
        },
        Item::Phrase(phrase) => phrase_kinds(phrase),
    }
}

/// Whether an item may be empty.
fn may_be_empty(table: &Table, item: Item) -> bool
    ensures { result ≡ is_empty (facts_of table.now) item }
{
    match item {
        Item::Rule(rule) => match table.facts.get(rule as usize) {
            Some(fact) => fact.empty,
            None => false,
        },
        Item::Token(_) | Item::Phrase(_) => false,
    }
}

/// What the items of a stack begin with.
fn next_of(table: &Table, stack: &Stack<Item>) -> Next
    ensures kinds { (kind : ℕ) → (has result.kinds kind ≡ true) ↔ (has
        (first_kinds (firsts_in table.now.firsts.now) (facts_of table.now) stack.now) kind ≡ true) }
    ensures ends { result.ends ≡ may_be_empty (facts_of table.now) stack.now }
{
    let items = stack.items();
    let mut kinds = 0;
    let mut at = items.len();
    'items: while at > 0 {
        at -= 1;
        let item = items[at];
        kinds |= kinds_of(table, item);
        if !may_be_empty(table, item) {
            return Next { kinds, ends: false };
        }
    }
    Next { kinds, ends: true }
}

/// Who reads the phrases of a table, or says that it doesn't.
pub(crate) trait Phrases<S: Source> {
    /// What is said of a phrase that isn't read.
    type Unread: Drop;

    /// Reads a phrase as far as some phrase goes on with what stands there.
    fn reach(
        &mut self,
        source: &mut S,
        phrase: Phrase,
    ) -> Result<Result<Reach, Self::Unread>, AllocError>
        ensures { IfOk result (λ reached. IfOk reached (Reaches (SpellsPhrase phrase)
            (S.left source.old) (S.left source.new))) };
}

/// A reader of all phrases.
#[derive(Clone, Copy)]
struct AllPhrases {
    alloc: Global,
}

impl<S: Fronts> Phrases<S> for AllPhrases {
    type Unread = Infallible;

    fn reach(
        &mut self,
        source: &mut S,
        phrase: Phrase,
    ) -> Result<Result<Reach, Infallible>, AllocError> {
        Ok(Ok(reach_phrase(self.alloc, source, phrase)?))
    }
}

/// Nobody, where the table has no phrases.
#[derive(Clone, Copy)]
pub(crate) struct NoPhrases;

impl<S: Source> Phrases<S> for NoPhrases {
    type Unread = ();

    fn reach(&mut self, _source: &mut S, _phrase: Phrase) -> Result<Result<Reach, ()>, AllocError> {
        Ok(Err(()))
    }
}

/// How far the tokens of the source begin what the rule spells, and what could stand next; not where
/// a phrase isn't read.
pub(crate) fn front<S: Source, P: Phrases<S>>(
    alloc: Global,
    table: &Table,
    start: u8,
    source: &mut S,
    phrases: &mut P,
) -> Result<Result<Next, P::Unread>, AllocError>
    requires stands_last { has (facts_of table.now start).follow 0 ≡ true }
    requires spells { (ts : List Token) × SpellsRule (rows_of table.now) start ts }
    ensures told { IfOk result (λ told. IfOk told (λ next.
        LongestFront (SpellsRule (rows_of table.now) start)
        (S.left source.old) (S.left source.new) next.kinds next.ends)) }
    ensures plain { IfOk result (λ told. are_plain (rows_of table.now) ≡ true →
        MatchResult told (λ next. IsQuiet (S.left source.new) next.kinds) (λ _. ⊥)) }
{
    let mut stack = Stack::new(alloc);
    stack.push(Item::Rule(start))?;
    let mut more = 0;
    'tokens: loop {
        let own = next_of(table, &stack);
        let next = Next {
            kinds: more | own.kinds,
            ends: own.ends,
        };
        let kind = source.kind().number();
        if !is_in(next.kinds, kind) {
            return Ok(Ok(next));
        }
        match open::<S, Nothing>(table, kind, &mut stack, &mut Nothing)? {
            // A rule that begins with the kind has a row for it.
            Due::Wrong | Due::Nothing => return Ok(Ok(next)),
            Due::Token(_) => {
                source.take();
                more = 0;
            }
            Due::Phrase(phrase) => match phrases.reach(source, phrase)? {
                Ok(Reach::Nowhere) => return Ok(Ok(next)),
                Ok(Reach::Part(kinds)) => return Ok(Ok(Next { kinds, ends: false })),
                Ok(Reach::Whole(kinds)) => more = kinds,
                Err(unread) => return Ok(Err(unread)),
            },
        }
    }
}

/// How far the tokens of the source begin a file, and what could stand next.
///
/// Files go on after what was read with tokens of these kinds and with no others, and with none as
/// the one that is left.
pub fn file_front<S: Fronts>(alloc: Global, source: &mut S) -> Result<Next, AllocError>
    ensures { IfOk result (λ next. LongestFront SpellsFile
        (S.left source.old) (S.left source.new) next.kinds next.ends) }
{
    let mut phrases = AllPhrases { alloc };
    match front(alloc, &files(), Rule::File.number(), source, &mut phrases)? {
        Ok(next) => Ok(next),
        Err(never) => match never {},
    }
}
