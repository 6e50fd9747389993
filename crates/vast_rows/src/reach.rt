//! How far phrases go.

ghost use Rattle.std.specs.Prelude.{◌≡◌, List, true, IfOk};
ghost use Rattle.vast_literal.specs.Tokens.{Token};
ghost use Rattle.vast_rows.specs.Internal.Sources.{SpellsPhrase};
ghost use Rattle.vast_rows.specs.Internal.Headers.{IsAt};
ghost use Rattle.vast_rows.specs.Internal.Reaches.{Reaches, SpellsRule, are_plain};
ghost use Rattle.vast_rows.specs.Kinds.{has};
ghost use Rattle.vast_rows.specs.Tables.{facts_of, rows_of};
ghost use Rattle.vast_rows.specs.declared.grammar.Phrase.TheVariants.{Expression, Path, Target};

use crate::expression_table::expressions;
use crate::front::{NoPhrases, front, kinds_of};
use crate::grammar::{Item, Phrase, Table};
use crate::header::reach_loop_head;
use crate::machine::is_in;
use crate::source::{Fronts, Source};
use std::alloc::{AllocError, Global};

/// How far something was read.
#[derive(Clone, Copy)]
pub(crate) enum Reach {
    /// Not at all: none begins with the next token.
    Nowhere,
    /// As far as some go on, and no whole one: they go on with tokens of these kinds.
    Part(u128),
    /// A whole one, as far as some go on: others go on with tokens of these kinds.
    Whole(u128),
}

/// The rules of expressions, of what values are assigned to, and of bounds, in the table of
/// expressions.
const EXPRESSION: u8 = 0;

const TARGET: u8 = 1;

const BOUND: u8 = 19;

/// Reads what a rule of a table without phrases spells as far as something goes on with what stands
/// there.
fn reach_by<S: Source>(
    alloc: Global,
    table: &Table,
    start: u8,
    source: &mut S,
) -> Result<Reach, AllocError>
    requires stands_last { has (facts_of table.now start).follow 0 ≡ true }
    requires plain { are_plain (rows_of table.now) ≡ true }
    requires spells { (ts : List Token) × SpellsRule (rows_of table.now) start ts }
    ensures { IfOk result (Reaches (SpellsRule (rows_of table.now) start)
        (S.left source.old) (S.left source.new)) }
{
    if !is_in(kinds_of(table, Item::Rule(start)), source.kind().number()) {
        return Ok(Reach::Nowhere);
    }
    match front(alloc, table, start, source, &mut NoPhrases)? {
        // No phrase is due.
        Err(()) => Ok(Reach::Nowhere),
        Ok(next) => {
            if next.ends {
                Ok(Reach::Whole(next.kinds))
            } else {
                Ok(Reach::Part(next.kinds))
            }
        }
    }
}

/// Reads an expression as far as some expression goes on with what stands there.
pub(crate) fn reach_expression<S: Source>(
    alloc: Global,
    source: &mut S,
) -> Result<Reach, AllocError>
    ensures { IfOk result
        (Reaches (SpellsPhrase Expression) (S.left source.old) (S.left source.new)) }
{
    reach_by(alloc, &expressions(), EXPRESSION, source)
}

/// The same of what a value is assigned to.
fn reach_target<S: Source>(alloc: Global, source: &mut S) -> Result<Reach, AllocError>
    ensures { IfOk result
        (Reaches (SpellsPhrase Target) (S.left source.old) (S.left source.new)) }
{
    reach_by(alloc, &expressions(), TARGET, source)
}

/// The same of what the variable of a loop stays below.
pub(crate) fn reach_bound<S: Source>(alloc: Global, source: &mut S) -> Result<Reach, AllocError>
    ensures { IfOk result (Reaches (IsAt 8) (S.left source.old) (S.left source.new)) }
{
    reach_by(alloc, &expressions(), BOUND, source)
}

/// The same of the path of an include.
fn reach_path<S: Fronts>(source: &mut S) -> Reach
    ensures { Reaches (SpellsPhrase Path) (S.left source.old) (S.left source.new) result }
{
    if source.is_path() {
        source.take();
        Reach::Whole(0)
    } else {
        Reach::Nowhere
    }
}

/// Reads a phrase as far as some phrase goes on with what stands there.
pub(crate) fn reach_phrase<S: Fronts>(
    alloc: Global,
    source: &mut S,
    phrase: Phrase,
) -> Result<Reach, AllocError>
    ensures { IfOk result (Reaches (SpellsPhrase phrase) (S.left source.old) (S.left source.new)) }
{
    match phrase {
        Phrase::Expression => reach_expression(alloc, source),
        Phrase::Target => reach_target(alloc, source),
        Phrase::LoopHead => reach_loop_head(alloc, source),
        Phrase::Path => Ok(reach_path(source)),
    }
}
