//! The head of a loop.

ghost use Rattle.std.specs.Prelude.{◌≡◌, ◌≢◌, ℕ, List, IfOk, MatchOption};
ghost use Rattle.std.specs.Bool.{MatchBool};
ghost use Rattle.vast_literal.specs.Tokens.{Token as SpecToken};
ghost use Rattle.vast_read.specs.Internal.LoopHeads.{ReadsClosed, ReadsClosedBound, start_of, step_of};
ghost use Rattle.vast_read.specs.Internal.PhraseReadings.{ReadsPhrase};
ghost use Rattle.vast_rows.specs.declared.grammar.Phrase.TheVariants.{LoopHead};

use crate::build::Build;
use crate::phrase::Made;
use crate::reader::Reader;
use std::alloc::AllocError;
use vast_expressions::Token;
use vast_literal::{Mark, Sign};

impl<'t> Reader<'t> {
    /// Reads the variable of a loop, its start, its end and its step, up to the parenthesis behind them.
    #[tactic(auto, using(crate::proofs::LoopHeads::heads))]
    pub(crate) fn loop_head<B: Build<'t>>(
        &mut self,
    ) -> Result<Option<Made<'t, B::Expr>>, AllocError>
        ensures { IfOk result (λ o. ReadsPhrase B.denotes LoopHead o self.old self.new) }
    {
        let Some(variable) = self.loop_variable() else {
            return Ok(None);
        };
        let Some(start) = self.closed::<B>()? else {
            return Ok(None);
        };
        let Some(end) = self.closed_bound::<B>(variable)? else {
            return Ok(None);
        };
        if self.eat_step(variable) {
            Ok(Some(Made::Loop(variable, start, end)))
        } else {
            Ok(None)
        }
    }

    /// Reads the variable of a loop, up to its start.
    fn loop_variable(&mut self) -> Option<&'t str>
        ensures { MatchOption result
            ((i : List ℕ) (us : List SpecToken) → self.old ≢ start_of i us)
            (λ i. self.old ≡ start_of i.now self.new) }
    {
        match self.first() {
            Some(Token::Word(variable)) => {
                self.leave_first();
                if self.eat(Token::Mark(Mark::Assign)) {
                    Some(variable)
                } else {
                    None
                }
            }
            _ => None,
        }
    }

    /// Reads an expression and the semicolon after it.
    fn closed<B: Build<'t>>(&mut self) -> Result<Option<B::Expr>, AllocError>
        ensures { IfOk result (λ o. ReadsClosed B.denotes o self.old self.new) }
    {
        match B::read(self, false)? {
            None => Ok(None),
            Some(made) => {
                if self.eat(Token::Mark(Mark::Semicolon)) {
                    Ok(Some(made))
                } else {
                    Ok(None)
                }
            }
        }
    }

    /// The same of the condition of a loop: of its end something is made.
    fn closed_bound<B: Build<'t>>(&mut self, name: &str) -> Result<Option<B::Expr>, AllocError>
        ensures { IfOk result (λ o. ReadsClosedBound B.denotes name.now o self.old self.new) }
    {
        match B::bound(self, name)? {
            None => Ok(None),
            Some(made) => {
                if self.eat(Token::Mark(Mark::Semicolon)) {
                    Ok(Some(made))
                } else {
                    Ok(None)
                }
            }
        }
    }

    /// Whether the step of a loop stands next, which adds one to its variable and is then read.
    fn eat_step(&mut self, variable: &str) -> bool
        ensures { MatchBool result
            (self.old ≡ step_of variable.now self.new)
            ((us : List SpecToken) → self.old ≢ step_of variable.now us) }
    {
        self.eat_all(&[
            Token::Word(variable),
            Token::Mark(Mark::Assign),
            Token::Word(variable),
            Token::Operator(Sign::Plus),
            Token::Number("1"),
            Token::Mark(Mark::CloseParen),
        ])
    }
}
