//! Where a text is no longer one that the grammar derives.

ghost use Rattle.std.specs.Prelude.{◌≡◌, ◌-◌, ℕ, List, ◌++◌, Bool, drop, length, IfOk, IfSome};
ghost use Rattle.std.specs.Prelude.{IsCharBoundary, MatchOption};
ghost use Rattle.vast_literal.specs.FileGrammar.{DerivesFile};
ghost use Rattle.vast_literal.specs.NormalFile as normal;
ghost use Rattle.vast_literal.specs.Scan.{Gap};
ghost use Rattle.vast_read.specs.Lexed.{lex};
ghost use Rattle.vast_read.specs.Places.{BeginsWithoutGap, EndsFront, IsBehindFirst, IsBetweenTokens};
ghost use Rattle.vast_rows.specs.Fronts.{LongestFront, SpellsFile};

use crate::build::Unbuilt;
use crate::phrase::Phrases;
use crate::read::is_derived;
use crate::reader::Reader;
use crate::scanner::{Position, first_of};
use std::alloc::{AllocError, Global};
use vast_rows::{Next, file_front};

/// The place of the token at which no rule of the grammar goes on, where it derives no file from this text.
///
/// It is the place of a byte: where that token begins, or the text's length, where it ends too soon. That token is the
/// first one that no file goes on with, as [`longest_front`] says, which tells what could stand there too. It takes time
/// and memory as [`is_derived`] does.
pub fn underived_at(alloc: Global, text: &str) -> Result<Option<usize>, AllocError>
    ensures derived { IfOk result (λ o. MatchOption o
        ((t : normal.NormalFile) × DerivesFile text.now t)
        (λ _. (t : normal.NormalFile) → DerivesFile text.now t → ⊥)) }
    ensures between { IfOk result (λ o. IfSome o (IsBetweenTokens text.now)) }
    ensures boundary { IfOk result (λ o. IfSome o (IsCharBoundary text.now)) }
    ensures longest { IfOk result (λ o. IfSome o (EndsFront text.now)) }
    ensures front { IfOk result (λ o. IfSome o (λ p. BeginsWithoutGap (drop p text.now))) }
{
    if is_derived(alloc, text)? {
        Ok(None)
    } else {
        Ok(Some(longest_front(alloc, text)?.place))
    }
}

/// How far a text begins a file.
#[derive(Clone, Copy, Debug)]
pub struct Front {
    /// The place of the first token that no file goes on with: of its first byte, or the text's length, where it has
    /// no such token.
    pub place: usize,
    /// What could stand there.
    pub next: Next,
}

/// How far a text begins a file, and what could stand next.
///
/// # Errors
/// Out of memory.
pub fn longest_front(alloc: Global, text: &str) -> Result<Front, AllocError>
    ensures longest { IfOk result (λ f. LongestFront SpellsFile
        (lex Gap text.now) (lex Gap (drop f.place text.now)) f.next.kinds f.next.ends) }
    ensures boundary { IfOk result (λ f. IsCharBoundary text.now f.place) }
    ensures between { IfOk result (λ f. IsBetweenTokens text.now f.place) }
    ensures front { IfOk result (λ f. BeginsWithoutGap (drop f.place text.now)) }
{
    let mut source: Phrases<'_, Unbuilt> = Phrases::new(alloc, text);
    let next = file_front(alloc, &mut source)?;
    let place = place_of_left(alloc, text, source.reader);
    Ok(Front { place, next })
}

/// The place in a text of the tokens that are left of it.
pub(crate) fn place_of_left(alloc: Global, text: &str, left: Reader<'_>) -> usize
    ensures left { (kinds : ℕ) (ends : Bool) →
        LongestFront SpellsFile (lex Gap text.now) left.entry kinds ends →
        lex Gap (drop result text.now) ≡ left.entry }
    ensures between { IsBetweenTokens text.now result }
    ensures front { BeginsWithoutGap (drop result text.now) }
    ensures boundary { IsCharBoundary text.now result }
{
    let mut ahead = tokens_before(alloc, text, left);
    let mut rest = text;
    while ahead.first().is_some() {
        let (from, next) = first_of(rest);
        match next {
            Position::Token(_, behind) => rest = behind,
            // No file has what no token fits.
            Position::Unspelled | Position::End => return place_of(text, from),
        }
        ahead.leave_first();
    }
    place_of(text, first_of(rest).0)
}

/// As many tokens of a text as stand before those that are left of it.
fn tokens_before<'t>(alloc: Global, text: &'t str, left: Reader<'_>) -> Reader<'t>
    ensures { length result ≡ length (lex Gap text.now) - length left.entry }
{
    let mut ahead = Reader::new(alloc, text);
    let mut rest = left;
    while rest.first().is_some() {
        rest.leave_first();
        ahead.leave_first();
    }
    ahead
}

/// The place from which on this is the rest of the text.
fn place_of(text: &str, rest: &str) -> usize
    requires { (before : List ℕ) × (text.now ≡ before ++ rest.now) }
    ensures rest { drop result text.now ≡ rest.now }
    ensures boundary { IsCharBoundary text.now result }
{
    match text.strip_suffix(rest) {
        Some(before) => before.len(),
        // There is no other rest.
        None => text.len(),
    }
}

/// The first token of a text, as it is written, with what stands before it; all of it, where no token fits.
pub fn first_token(text: &str) -> &str
    ensures { (rest : List ℕ) × (text.now ≡ result.now ++ rest) × IsBehindFirst text.now rest }
{
    let (token, _) = text.split_at(place_of(text, behind_first_token(text)));
    token
}

/// The text from its first token on; nothing, where it has none.
pub fn from_first_token(text: &str) -> &str
    ensures tokens { lex Gap result.now ≡ lex Gap text.now }
    ensures front { BeginsWithoutGap result.now }
{
    first_of(text).0
}

/// What is after the first token of a text; nothing, where it has none, or no token fits.
pub fn behind_first_token(text: &str) -> &str
    ensures behind { IsBehindFirst text.now result.now }
    ensures rest { (before : List ℕ) × (text.now ≡ before ++ result.now) }
{
    match first_of(text).1 {
        Position::Token(_, behind) => behind,
        Position::Unspelled | Position::End => "",
    }
}
