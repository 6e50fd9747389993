//! From where the machine takes tokens.

ghost use Rattle.std.specs.Prelude.{◌≡◌, ℕ, List, IfOk, MatchBool, MatchOption, Some, None};
ghost use Rattle.vast_literal.specs.Tokens.{Token};
ghost use Rattle.vast_rows.specs.Phrases.{Meaning};
ghost use Rattle.vast_rows.specs.Internal.Sources.{tail, HasRead, HasNone, first_name, kind_of_first, IsNameNext, IsOneNext, IsPathNext};

use crate::grammar::Phrase;
use crate::kind::Kind;
use std::alloc::AllocError;

/// Tokens that are left to read, and a reader of the phrases of the grammar of files.
///
/// `left` is the list of those tokens, `denotes` what was made of a phrase, and `text` that of a name.
pub trait Source {
    /// What is made of a phrase.
    type Made: Drop;
    /// A token that is a name.
    type Name: Drop;

    ghost left: { Self → List Token };

    ghost denotes: { Self.Made → Meaning };

    ghost text: { Self.Name → List ℕ };

    /// The kind of the next token.
    fn kind(&self) -> Kind
        ensures { result ≡ kind_of_first (left self.now) };

    /// Leaves the next token behind, and hands it over where it is a name.
    fn take(&mut self) -> Option<Self::Name>
        ensures left { left self.new ≡ tail (left self.old) }
        ensures name { MatchOption result (first_name (left self.old) ≡ None)
            (λ name. first_name (left self.old) ≡ Some (text name)) };

    /// Reads a phrase. Where none stands before a token that may follow, it may read one or none.
    fn phrase(&mut self, phrase: Phrase) -> Result<Option<Self::Made>, AllocError>
        ensures { IfOk result (λ made. MatchOption made
            (HasNone phrase (left self.old))
            (λ m. HasRead phrase (left self.old) (denotes m) (left self.new))) };
}

/// A source that sees more of the next token than its kind.
pub trait Fronts: Source {
    /// Whether the next token is this name.
    fn is_name(&self, name: &Self::Name) -> bool
        ensures { MatchBool result
            (IsNameNext (Self.text name.now) (Self.left self.now))
            (IsNameNext (Self.text name.now) (Self.left self.now) → ⊥) };

    /// Whether the next token is the path of an include.
    fn is_path(&self) -> bool
        ensures { MatchBool result
            (IsPathNext (Self.left self.now)) (IsPathNext (Self.left self.now) → ⊥) };

    /// Whether the next token is the number 1.
    fn is_one(&self) -> bool
        ensures { MatchBool result
            (IsOneNext (Self.left self.now)) (IsOneNext (Self.left self.now) → ⊥) };
}
