//! The machine: a stack of items that are still to be read. It neither recurs nor makes a tree.

ghost use Rattle.std.specs.Prelude.{◌≡◌, ◌<◌, List, [], true, None};
ghost use Rattle.std.specs.Prelude.{IfOk, MatchBool, MatchOption};
ghost use Rattle.vast_literal.specs.FileGrammar.{IsFile};
ghost use Rattle.vast_literal.specs.NormalFile.{NormalFile};
ghost use Rattle.vast_literal.specs.Tokens.{Token};
ghost use Rattle.vast_rows.specs.Events.{made_by, named_by};
ghost use Rattle.vast_rows.specs.Internal.Sources.{head_kind, tail, first_name};
ghost use Rattle.vast_rows.specs.Internal.Reading.{IsTaken, LeadsTo};
ghost use Rattle.vast_rows.specs.Kinds.{has};
ghost use Rattle.vast_rows.specs.Laws.{IsRead, IsUnspelled};
ghost use Rattle.vast_rows.specs.Numbers.{rule_number};
ghost use Rattle.vast_rows.specs.Internal.Predictive.{row_at};
ghost use Rattle.vast_rows.specs.Rows.{span_of};
ghost use Rattle.vast_rows.specs.Tables.{facts_of, rows_of};
ghost use Rattle.vast_rows.specs.Trace.{trace};

use crate::action::Action;
use crate::grammar::{Item, Phrase, Table};
use crate::kind::Kind;
use crate::rule::Rule;
use crate::sink::{Nothing, Sink};
use crate::source::Source;
use crate::stack::Stack;
use crate::table::files;
use std::alloc::{AllocError, Global};

/// Whether the kind is in the set.
pub(crate) fn is_in(set: u128, kind: u8) -> bool
    requires { kind < 128 }
    ensures { result ≡ has set kind }
{
    (set >> kind) & 1 == 1
}

/// The items from one place up to another, as far as there are any.
fn items_between(list: &'static [Item], from: usize, end: usize) -> &'static [Item]
    ensures { result.now ≡ span_of list.now from end }
{
    if from >= list.len() {
        return &[];
    }
    let behind = &list[from..];
    let count = end.saturating_sub(from);
    if count < behind.len() {
        &behind[..count]
    } else {
        behind
    }
}

/// A row that is taken: what it makes, and its items.
#[derive(Clone, Copy)]
pub(crate) struct Choice {
    pub(crate) number: usize,
    pub(crate) action: Option<Action>,
    pub(crate) items: &'static [Item],
}

/// The first row of a rule.
fn first_row(table: &Table, rule: u8) -> usize
    ensures { result ≡ (facts_of table.now rule).first_row }
{
    match table.facts.get(rule as usize) {
        Some(fact) => fact.first_row as usize,
        None => 0,
    }
}

/// The row of the rule that is taken at the kind of token.
#[tactic(auto, using(crate::proofs::Taken::starts_there))]
pub(crate) fn taken(table: &Table, rule: u8, kind: u8) -> Option<Choice>
    requires { kind < 128 }
    ensures { MatchOption result
        (row_at (facts_of table.now) (rows_of table.now) rule kind ≡ None)
        (λ t. IsTaken (facts_of table.now) (rows_of table.now) rule kind
        t.number t.items.now t.action) }
{
    let mut at = first_row(table, rule);
    'rows: while at < table.rows.len() {
        let row = &table.rows[at];
        if row.rule != rule {
            return None;
        }
        if is_in(row.looks, kind) {
            return Some(Choice {
                number: at,
                action: row.action,
                items: items_between(table.items, row.items, row.items_end),
            });
        }
        at += 1;
    }
    None
}

/// What is due.
#[derive(Clone, Copy)]
pub(crate) enum Due {
    /// A token of the kind, which has left the stack.
    Token(u8),
    /// A phrase, which has left the stack.
    Phrase(Phrase),
    /// Nothing more.
    Nothing,
    /// A rule that no row begins with the token that is there.
    Wrong,
}

/// Tells what a row makes, if it makes something.
fn tell<S: Source, K: Sink<S>>(sink: &mut K, action: Option<Action>) -> Result<(), AllocError>
    ensures { IfOk result (λ _. K.after sink.old (made_by action []) sink.new) }
{
    match action {
        None => Ok(()),
        Some(action) => sink.makes(action),
    }
}

/// Leaves the next token behind, and tells it if it is a name.
fn take<S: Source, K: Sink<S>>(source: &mut S, sink: &mut K) -> Result<(), AllocError>
    ensures left { IfOk result (λ _. S.left source.new ≡ tail (S.left source.old)) }
    ensures told { IfOk result (λ _. K.after sink.old
        (named_by (first_name (S.left source.old)) []) sink.new) }
{
    match source.take() {
        None => Ok(()),
        Some(name) => sink.names(name),
    }
}

/// Opens rules until a token or a phrase is due, where a token of this kind stands next.
pub(crate) fn open<S: Source, K: Sink<S>>(
    table: &Table,
    kind: u8,
    stack: &mut Stack<Item>,
    sink: &mut K,
) -> Result<Due, AllocError>
    requires { kind < 128 }
    ensures { IfOk result (λ due. (rest : List Token) → kind ≡ head_kind rest →
        LeadsTo K.after (rows_of table.now) (facts_of table.now)
        rest stack.old sink.old stack.new sink.new due) }
{
    'rules: loop {
        match stack.pop() {
            None => return Ok(Due::Nothing),
            Some(Item::Token(due)) => return Ok(Due::Token(due)),
            Some(Item::Phrase(phrase)) => return Ok(Due::Phrase(phrase)),
            Some(Item::Rule(rule)) => match taken(table, rule, kind) {
                None => return Ok(Due::Wrong),
                Some(row) => {
                    tell(sink, row.action)?;
                    stack.push_all(row.items)?;
                }
            },
        }
    }
}

/// Whether the rule spells the tokens of the source; a sink hears what is told of them.
///
/// Where it does not spell them, the sink heard of a front of them, and no clause says how far the
/// source was read.
pub fn read<S: Source, K: Sink<S>>(
    alloc: Global,
    table: &Table,
    start: Rule,
    source: &mut S,
    sink: &mut K,
) -> Result<bool, AllocError>
    requires { has (facts_of table.now (rule_number start)).follow 0 ≡ true }
    ensures { IfOk result (λ spelled. MatchBool spelled
        (IsRead K.after (rows_of table.now) (rule_number start) (S.left source.old)
        sink.old sink.new)
        (IsUnspelled (rows_of table.now) (rule_number start) (S.left source.old))) }
{
    let mut stack = Stack::new(alloc);
    stack.push(Item::Rule(start.number()))?;
    'tokens: loop {
        let kind = source.kind().number();
        match open::<S, K>(table, kind, &mut stack, sink)? {
            Due::Wrong => return Ok(false),
            Due::Nothing => return Ok(kind == 0),
            Due::Token(due) => {
                if kind != due {
                    return Ok(false);
                }
                take(source, sink)?;
            }
            Due::Phrase(phrase) => match source.phrase(phrase)? {
                None => return Ok(false),
                Some(made) => sink.reads(made)?,
            },
        }
    }
}

/// Whether the tokens of the source are those of a file; a sink hears the file's trace.
pub fn read_file<S: Source, K: Sink<S>>(
    alloc: Global,
    source: &mut S,
    sink: &mut K,
) -> Result<bool, AllocError>
    ensures { IfOk result (λ spelled. MatchBool spelled
        ((t : NormalFile) × IsFile (S.left source.old) t
        × K.after sink.old (trace t []) sink.new)
        ((t : NormalFile) → IsFile (S.left source.old) t → ⊥)) }
{
    read(alloc, &files(), Rule::File, source, sink)
}

/// Whether the tokens of the source are those of a file.
pub fn is_file<S: Source>(alloc: Global, source: &mut S) -> Result<bool, AllocError>
    ensures { IfOk result (λ spelled. MatchBool spelled
        ((t : NormalFile) × IsFile (S.left source.old) t)
        ((t : NormalFile) → IsFile (S.left source.old) t → ⊥)) }
{
    read_file(alloc, source, &mut Nothing)
}
