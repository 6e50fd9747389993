//! From where tokens are taken.

ghost use Rattle.std.specs.Prelude.{◌≡◌, [], ◌∷◌, List, MatchOption};
ghost use Rattle.vast_expressions.specs.Internal.Views.{token_view, tail};
ghost use Rattle.vast_literal.specs.Tokens.{Token as SpecToken};

use crate::token::Token;

/// Tokens that are left to read. `left` is the list of them.
pub trait Source<'t> {
    ghost left: { Self → List SpecToken };

    /// The next token, which stays.
    fn peek(&self) -> Option<Token<'t>>
        ensures { MatchOption result
            (left self.now ≡ []) (λ t. left self.now ≡ (token_view t ∷ tail (left self.now))) };

    /// Leaves the next token behind.
    fn skip(&mut self)
        ensures { left self.new ≡ tail (left self.old) };
}
