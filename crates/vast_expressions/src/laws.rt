//! Laws over the grammar of expressions and its rows. The functions compute nothing.

ghost use Rattle.vast_expressions.specs.Phrases.{RunsAreDerived};
ghost use Rattle.vast_literal.specs.Grammar.{OneExpression};

/// Each token list spells at most one expression.
#[tactic(auto, using(crate::proofs::Uniqueness::one_expression))]
pub fn one_expression()
    ensures { OneExpression }
{}

/// What the rows run is what the grammar derives.
#[tactic(auto, using(crate::proofs::Phrases::runs_are_derived))]
pub fn runs_are_derived()
    ensures { RunsAreDerived }
{}
