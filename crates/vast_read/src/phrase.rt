//! Phrases: what the machine of rows asks of the reader.

ghost use Rattle.std.specs.Prelude.{◌≡◌, ◌≢◌, ℕ, List, [], ◌∷◌, ◌++◌, IfOk, MatchOption};
ghost use Rattle.vast_literal.specs.Scan.{Gap};
ghost use Rattle.vast_read.specs.Lexed.{lex};
ghost use Rattle.vast_read.specs.Internal.PhraseReadings.{ReadsPhrase, meaning_of, phrase_of};
ghost use Rattle.vast_rows.specs.declared.grammar.Phrase.TheVariants.{Path};

use crate::build::Build;
use crate::reader::Reader;
use crate::token::kind_of;
use std::alloc::{AllocError, Global};
use std::marker::PhantomData;
use vast_expressions::Token;
use vast_rows::{Fronts, Kind, Phrase, Source};

/// What is made of a phrase.
///
/// An `E` is what is made of an expression.
#[derive(Drop)]
pub(crate) enum Made<'t, E> {
    /// An expression, or what a value is assigned to.
    Expression(E),
    /// The variable of a loop, its start, and the end that it stays below.
    Loop(&'t str, E, E),
    /// The path of an include.
    Path(&'t str),
}

impl<'t> Reader<'t> {
    /// Reads a phrase.
    pub(crate) fn made<B: Build<'t>>(
        &mut self,
        phrase: Phrase,
    ) -> Result<Option<Made<'t, B::Expr>>, AllocError>
        ensures { IfOk result (λ o. ReadsPhrase B.denotes phrase o self.old self.new) }
    {
        match phrase {
            Phrase::Expression => self.tree::<B>(false),
            Phrase::Target => self.tree::<B>(true),
            Phrase::LoopHead => self.loop_head::<B>(),
            Phrase::Path => Ok(self.path::<B>()),
        }
    }

    /// Reads an expression, or what is assigned to.
    #[tactic(auto, using(crate::proofs::Phrases::trees))]
    fn tree<B: Build<'t>>(
        &mut self,
        is_target: bool,
    ) -> Result<Option<Made<'t, B::Expr>>, AllocError>
        ensures { IfOk result (λ o. ReadsPhrase B.denotes (phrase_of is_target) o
            self.old self.new) }
    {
        match B::read(self, is_target)? {
            None => Ok(None),
            Some(made) => Ok(Some(Made::Expression(made))),
        }
    }

    /// Reads a string as the path between its quotes.
    #[tactic(auto, using(crate::proofs::Phrases::paths))]
    fn path<B: Build<'t>>(&mut self) -> Option<Made<'t, B::Expr>>
        ensures { ReadsPhrase B.denotes Path result self.old self.new }
    {
        match self.first() {
            Some(Token::Quoted(text)) => match path_of(text) {
                None => None,
                Some(path) => {
                    self.leave_first();
                    Some(Made::Path(path))
                }
            },
            _ => None,
        }
    }
}

/// The reader as a source whose phrases are made by `B`.
#[derive(Drop)]
pub(crate) struct Phrases<'t, B> {
    pub(crate) reader: Reader<'t>,
    made: PhantomData<B>,
}

impl<'t, B> Phrases<'t, B> {
    /// The phrases of this text.
    pub(crate) fn new(alloc: Global, text: &'t str) -> Phrases<'t, B>
        ensures { result.reader ≡ lex Gap text.now }
    {
        Phrases {
            reader: Reader::new(alloc, text),
            made: PhantomData,
        }
    }
}

impl<'t, B: Build<'t>> Source for Phrases<'t, B> {
    type Made = Made<'t, B::Expr>;

    type Name = &'t str;

    ghost left = { λ s. s.reader };

    ghost denotes = { meaning_of B.denotes };

    ghost text = { λ w. w.now };

    fn kind(&self) -> Kind {
        match self.reader.first() {
            None => Kind::End,
            Some(token) => kind_of(token),
        }
    }

    fn take(&mut self) -> Option<&'t str> {
        let first = self.reader.first();
        self.reader.leave_first();
        match first {
            Some(Token::Word(name) | Token::MacroWord(name)) => Some(name),
            _ => None,
        }
    }

    fn phrase(&mut self, phrase: Phrase) -> Result<Option<Made<'t, B::Expr>>, AllocError> {
        self.reader.made::<B>(phrase)
    }
}

/// The reader sees whole tokens.
impl<'t, B: Build<'t>> Fronts for Phrases<'t, B> {
    fn is_name(&self, name: &&'t str) -> bool {
        self.reader.is_first(Token::Word(*name))
    }

    fn is_path(&self) -> bool {
        match self.reader.first() {
            Some(Token::Quoted(text)) => path_of(text).is_some(),
            _ => false,
        }
    }

    fn is_one(&self) -> bool {
        self.reader.is_first(Token::Number("1"))
    }
}

/// The path between the quotes of a string.
fn path_of(text: &str) -> Option<&str>
    ensures { MatchOption result
        ((p : List ℕ) → text.now ≢ (34 ∷ (p ++ (34 ∷ []))))
        (λ p. text.now ≡ (34 ∷ (p.now ++ (34 ∷ [])))) }
{
    match text.strip_prefix('"') {
        None => None,
        Some(rest) => rest.strip_suffix('"'),
    }
}
