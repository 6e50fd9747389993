//! The arguments of a line, from the first to the last.

ghost use Rattle.std.specs.Prelude.{◌≡◌, List, [], ◌∷◌, IfOk, OnOk, IsTrue, false, string_bytes};
ghost use Rattle.vast_calls.specs.CallArguments.{End, Group, Piece, Text, Word};
ghost use Rattle.vast_calls.specs.Written.{IsPlaceOf, meaning};
ghost use Rattle.vast_calls.specs.Internal.Written.{Begins, Goes, GoesNumber, GoesText, Reads, is_packed, rest_left, sign_of};
ghost use Rattle.vast_calls.specs.Lines.{left};

mod made;

use crate::names::{Named, Names};
use crate::packed::{Choice, number_front};
use crate::problem::{Misfit, Problem};
use crate::texts::unquoted;
use std::alloc::Global;
use std::str;

/// What the reading of a line knows: the names so far, and which steps were passed over.
#[derive(Clone, Copy)]
pub struct Known<'a> {
    /// Where the texts and lists of calls are allocated.
    pub alloc: Global,
    /// What names stand for so far.
    pub names: &'a Names,
    /// The numbers of steps and helpers that were passed over, from the least to the greatest.
    pub skipped: &'a [usize],
}

/// What is left of a call after its name.
#[derive(Clone, Copy)]
pub(crate) struct Arguments<'a> {
    known: Known<'a>,
    rest: Rest<'a>,
}

/// Arguments in one of the forms of lists.
#[derive(Clone, Copy)]
pub(crate) enum Rest<'a> {
    /// Of a line: a space between two.
    Words(Option<&'a str>),
    /// Of a packed call.
    Packed(&'a [u8]),
}

/// What stands as one or more arguments.
pub(crate) trait FromArguments: Sized + Drop {
    /// How it is written.
    ghost pieces: { Self → List Piece };

    /// Takes it from the front.
    ///
    /// # Errors
    /// Where something else stands there, and out of memory.
    fn take(arguments: &mut Arguments<'_>) -> Result<Self, Misfit>
        ensures { IfOk result (λ value. Reads arguments.old arguments.new (pieces value)) };
}

/// The place among the answers of a step that was passed over: no answer has it.
pub const SKIPPED: usize = usize::MAX;

/// The place among the answers of the step of this number.
#[inline(always)]
pub fn place_of(skipped: &[usize], number: usize) -> usize
    ensures { IsPlaceOf skipped.now number result }
{
    match skipped.binary_search(&number) {
        Ok(_) => SKIPPED,
        Err(before) => number.saturating_sub(before).min(SKIPPED - 1),
    }
}

impl<'a> Arguments<'a> {
    /// These arguments.
    #[inline(always)]
    pub(crate) fn new(known: Known<'a>, rest: Rest<'a>) -> Self
        ensures known { result.known ≡ known.entry }
        ensures rest { result.rest ≡ rest.entry }
    {
        Arguments { known, rest }
    }

    /// The allocator of what is taken.
    pub(crate) fn allocator(&self) -> Global {
        self.known.alloc
    }

    /// The bytes that are left.
    pub(crate) fn bytes_left(&self) -> usize {
        match self.rest {
            Rest::Words(rest) => rest.map_or(0, |rest| rest.len()),
            Rest::Packed(bytes) => bytes.len(),
        }
    }

    /// Whether they are those of a packed call.
    #[inline(always)]
    pub(crate) fn is_packed(&self) -> bool
        ensures { result ≡ is_packed self.now.rest }
    {
        match self.rest {
            Rest::Words(_) => false,
            Rest::Packed(_) => true,
        }
    }

    /// The problem, at what is next.
    pub(crate) fn misfit(&self, problem: Problem) -> Misfit {
        let left = self.bytes_left();
        Misfit { left, problem }
    }

    /// The next word of a line, and how many bytes stand from its first on.
    pub(crate) fn word_at(&mut self) -> Result<(usize, &'a str), Misfit>
        ensures { IfOk result (λ read. Goes self.old self.new read.1.now) }
    {
        let left = self.bytes_left();
        Ok((left, self.word()?))
    }

    /// What a name stands for.
    pub(crate) fn named(&self, name: &str) -> Option<Named>
        ensures { result ≡ meaning self.now.known.names.now name.now }
    {
        self.known.names.get(name)
    }

    /// The place among the answers of the step of this number.
    #[inline(always)]
    pub(crate) fn place(&self, number: usize) -> usize
        ensures { IsPlaceOf self.now.known.skipped.now number result }
    {
        place_of(self.known.skipped, number)
    }

    /// The next word of a line, which goes to the next space.
    #[tactic(auto, using(crate::proofs::Words::words))]
    pub(crate) fn word(&mut self) -> Result<&'a str, Misfit>
        ensures { IfOk result (λ word. Goes self.old self.new word.now) }
    {
        let Rest::Words(Some(rest)) = self.rest else {
            return Err(self.misfit(Problem::Missing));
        };
        match rest.split_once(' ') {
            Some((word, rest)) => {
                self.rest = Rest::Words(Some(rest));
                Ok(word)
            }
            None => {
                self.rest = Rest::Words(None);
                Ok(rest)
            }
        }
    }

    /// The next word of a line, or an empty one for the next text; `None` where there is none.
    pub(crate) fn word_or_text(&mut self) -> Option<&'a str> {
        match self.rest {
            Rest::Words(Some(rest)) if rest.starts_with('"') => match self.text() {
                Ok(_) => Some(""),
                Err(_) => None,
            },
            _ => self.word().ok(),
        }
    }

    /// Takes the word if it is next in a line, and returns whether it was.
    #[tactic(auto, using(crate::proofs::Words::words))]
    pub(crate) fn skip(&mut self, sign: &str) -> bool
        ensures taken { IsTrue result → Goes self.old self.new sign.now }
        ensures not { result ≡ false → self.new ≡ self.old }
    {
        let Rest::Words(Some(rest)) = self.rest else {
            return false;
        };
        let Some(behind) = rest.strip_prefix(sign) else {
            return false;
        };
        if behind.is_empty() {
            self.rest = Rest::Words(None);
            return true;
        }
        match behind.strip_prefix(' ') {
            Some(rest) => {
                self.rest = Rest::Words(Some(rest));
                true
            }
            None => false,
        }
    }

    /// The next number of a packed call.
    #[inline(always)]
    #[tactic(auto, using(crate::proofs::PackedWords::numbers))]
    pub(crate) fn number(&mut self) -> Result<usize, Misfit>
        ensures { IfOk result (λ number. GoesNumber self.old self.new number) }
    {
        if let Rest::Packed(bytes) = &mut self.rest {
            if let Some((number, behind)) = number_front(bytes) {
                *bytes = behind;
                return Ok(number);
            }
        }
        Err(self.no_number())
    }

    /// Why no number stands next in a packed call.
    #[cold]
    #[inline(never)]
    fn no_number(&self) -> Misfit {
        match self.rest {
            Rest::Packed(bytes) if !bytes.is_empty() => self.misfit(Problem::NoPacked),
            _ => self.misfit(Problem::Missing),
        }
    }

    /// The next word, one of these, and how many bytes stand from its first on.
    #[tactic(auto, using(crate::proofs::PackedWords::choices))]
    pub(crate) fn choice_at(&mut self, choice: Choice) -> Result<(usize, &'a str), Misfit>
        ensures { IfOk result (λ read. Reads self.old self.new (Word read.1.now ∷ [])) }
    {
        if !self.is_packed() {
            return self.word_at();
        }
        let left = self.bytes_left();
        let number = self.number()?;
        let words = choice.words();
        match words.get(number) {
            Some(word) => Ok((left, *word)),
            None => Err(Misfit {
                left,
                problem: choice.problem(),
            }),
        }
    }

    /// The next text, without what it is written with.
    #[tactic(auto, using(crate::proofs::Words::pieces))]
    pub(crate) fn text(&mut self) -> Result<String, Misfit>
        ensures { IfOk result (λ text. Reads self.old self.new (Text (string_bytes text) ∷ [])) }
    {
        match self.rest {
            Rest::Words(_) => Ok(self.quoted()?),
            Rest::Packed(_) => Ok(self.packed_text()?),
        }
    }

    /// The next text of a line, without its quotes and escapes.
    #[tactic(auto, using(crate::proofs::Words::goes_text))]
    fn quoted(&mut self) -> Result<String, Misfit>
        ensures { IfOk result (λ text. GoesText self.old self.new (string_bytes text)) }
    {
        let Rest::Words(Some(rest)) = self.rest else {
            return Err(self.misfit(Problem::Missing));
        };
        let Some(quoted) = rest.strip_prefix('"') else {
            let is_space = rest.is_empty() || rest.starts_with(' ');
            return Err(self.misfit(if is_space {
                Problem::Space
            } else {
                Problem::NoText
            }));
        };
        let (text, rest) = unquoted(self.known.alloc, quoted)?;
        self.rest = Rest::Words(behind_text(rest)?);
        Ok(text)
    }

    /// The next text of a packed call, which stands after its length.
    #[tactic(auto, using(crate::proofs::PackedWords::texts))]
    fn packed_text(&mut self) -> Result<String, Misfit>
        ensures { IfOk result (λ text. Reads self.old self.new (Text (string_bytes text) ∷ [])) }
    {
        let length = self.number()?;
        let Rest::Packed(bytes) = self.rest else {
            return Err(self.misfit(Problem::Missing));
        };
        let Some((content, behind)) = bytes.split_at_checked(length) else {
            return Err(self.misfit(Problem::OpenText));
        };
        let Ok(text) = str::from_utf8(content) else {
            return Err(self.misfit(Problem::NotUtf8));
        };
        let text = String::from_str(self.known.alloc, text)?;
        self.rest = Rest::Packed(behind);
        Ok(text)
    }

    /// Whether a value stands next, of which this takes the sign.
    #[tactic(auto, using(crate::proofs::Words::signs))]
    pub(crate) fn sign(&mut self) -> Result<bool, Misfit>
        ensures { IfOk result (λ some. Reads self.old self.new (Word (sign_of some) ∷ [])) }
    {
        if self.is_packed() {
            let (left, word) = self.choice_at(Choice::Sign)?;
            return match word {
                "-" => Ok(false),
                "+" => Ok(true),
                _ => Err(Misfit {
                    left,
                    problem: Problem::NoOption,
                }),
            };
        }
        if self.skip("-") {
            return Ok(false);
        }
        if self.skip("+") {
            return Ok(true);
        }
        Err(self.misfit(self.or_missing(Problem::NoOption)))
    }

    /// Goes into a list, and returns of a packed one how many items it has.
    #[tactic(auto, using(crate::proofs::Words::brackets))]
    pub(crate) fn items(&mut self) -> Result<Option<usize>, Misfit>
        ensures { IfOk result (Begins self.old self.new) }
    {
        if self.is_packed() {
            return Ok(Some(self.number()?));
        }
        if self.skip("[") {
            Ok(None)
        } else {
            Err(self.misfit(self.or_missing(Problem::NoList)))
        }
    }

    /// Goes into a group.
    #[tactic(auto, using(crate::proofs::Words::brackets))]
    pub(crate) fn open(&mut self) -> Result<(), Misfit>
        ensures { OnOk result (Reads self.old self.new (Group ∷ [])) }
    {
        if self.is_packed() {
            return Ok(());
        }
        if self.skip("[") {
            Ok(())
        } else {
            Err(self.misfit(self.or_missing(Problem::NoList)))
        }
    }

    /// Leaves a list or a group.
    #[tactic(auto, using(crate::proofs::Words::brackets))]
    pub(crate) fn close(&mut self) -> Result<(), Misfit>
        ensures { OnOk result (Reads self.old self.new (End ∷ [])) }
    {
        if self.is_packed() {
            return Ok(());
        }
        if self.skip("]") {
            Ok(())
        } else {
            Err(self.misfit(Problem::OpenList))
        }
    }

    /// The problem, or that an argument is missing where nothing is left.
    pub(crate) fn or_missing(&self, problem: Problem) -> Problem {
        match self.rest {
            Rest::Words(None) => Problem::Missing,
            _ => problem,
        }
    }

    /// Nothing is left.
    #[inline(always)]
    fn end(&self) -> Result<(), Misfit>
        ensures { OnOk result (rest_left self.now.rest ≡ []) }
    {
        match self.rest {
            Rest::Words(None) => Ok(()),
            Rest::Words(Some("")) => Err(self.misfit(Problem::Space)),
            Rest::Packed(bytes) if bytes.is_empty() => Ok(()),
            _ => Err(self.misfit(Problem::TooMany)),
        }
    }
}

/// What stands after a text and the space after it.
#[tactic(auto, using(crate::proofs::Words::behind_space))]
fn behind_text(rest: &str) -> Result<Option<&str>, Misfit>
    ensures { IfOk result (λ behind. left behind ≡ rest.now) }
{
    if rest.is_empty() {
        return Ok(None);
    }
    match rest.strip_prefix(' ') {
        Some(rest) => Ok(Some(rest)),
        None => Err(Misfit {
            left: rest.len(),
            problem: Problem::NoSpace,
        }),
    }
}
