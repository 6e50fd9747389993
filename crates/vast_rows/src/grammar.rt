//! Grammars as rows.

ghost use Rattle.std.specs.Prelude.{IsTrue};
ghost use Rattle.vast_rows.specs.Facts.{fact_in, facts_view};
ghost use Rattle.vast_rows.specs.Internal.Firsts.{is_exact};
ghost use Rattle.vast_rows.specs.Internal.Predictive.{is_predictive};
ghost use Rattle.vast_rows.specs.Rows.{rows_view};

use crate::action::Action;

/// A part of a text that has a reader of its own.
#[derive(Clone, Copy, Debug, PartialEq, Eq)]
pub enum Phrase {
    /// An expression.
    Expression,
    /// What a value is assigned to: an expression with no sign outside of parentheses.
    Target,
    /// What a generate loop says of its variable, in parentheses.
    LoopHead,
    /// A string that is the path of an include.
    Path,
}

/// What a row has next: a token of a kind, a rule, or a phrase. Kinds and rules are numbers here.
#[derive(Clone, Copy)]
pub(crate) enum Item {
    Token(u8),
    Rule(u8),
    Phrase(Phrase),
}

/// One way to spell a rule: its items, the kinds of token at which it is taken, and what it makes of
/// what the items make.
#[derive(Clone, Copy)]
pub(crate) struct Row {
    pub(crate) rule: u8,
    pub(crate) action: Option<Action>,
    pub(crate) looks: u128,
    pub(crate) items: usize,
    pub(crate) items_end: usize,
}

/// What is known of a rule: what begins it, or what follows it if it is empty; what may follow it;
/// whether it may be empty; a rank above that of the rules that begin it; and its first row, after
/// which the others stand.
#[derive(Clone, Copy)]
pub(crate) struct Fact {
    pub(crate) begins: u128,
    pub(crate) follow: u128,
    pub(crate) empty: bool,
    pub(crate) rank: u8,
    pub(crate) first_row: u8,
}

/// Rows, and what is known of each rule, in which the next token tells the row.
#[derive(Clone, Copy)]
pub struct Table {
    pub(crate) items: &'static [Item],
    pub(crate) rows: &'static [Row],
    pub(crate) facts: &'static [Fact],
    /// The kinds with which each rule begins where it is not empty.
    pub(crate) firsts: &'static [u128],
    ghost checked: { IsTrue (is_predictive (fact_in (facts_view facts.now))
        (rows_view items.now rows.now)) },
    ghost exact: { IsTrue (is_exact firsts.now (facts_view facts.now)
        (rows_view items.now rows.now)) },
}
