//! How far the header of a loop goes.

ghost use Rattle.std.specs.Prelude.{◌≡◌, ◌∷◌, ℕ, List, Option, true, IfOk, MatchBool, cond};
ghost use Rattle.std.specs.Prelude.{nat_lt, option_map};
ghost use Rattle.vast_literal.specs.Tokens.{Token};
ghost use Rattle.vast_rows.specs.Internal.Headers.{Eaten, HasKind, IsOne, Leads, MayBe, header};
ghost use Rattle.vast_rows.specs.Internal.Headers.{are_good, closing_kinds, part_kinds};
ghost use Rattle.vast_rows.specs.Internal.Reaches.{Reaches};
ghost use Rattle.vast_rows.specs.Internal.Sources.{first_name, SpellsPhrase};
ghost use Rattle.vast_rows.specs.Kinds.{number};
ghost use Rattle.vast_rows.specs.declared.grammar.Phrase.TheVariants.{LoopHead};
ghost use Rattle.vast_rows.specs.declared.header.Part.TheVariants.{Closing, Comparison, Condition};
ghost use Rattle.vast_rows.specs.declared.reach.Reach.TheVariants.{Nowhere, Whole};

use crate::front::{one_kind, phrase_kinds};
use crate::grammar::Phrase;
use crate::kind::Kind;
use crate::reach::{Reach, reach_bound, reach_expression};
use crate::source::{Fronts, Source};
use crate::stack::Stack;
use std::alloc::{AllocError, Global};
use vast_literal::{Mark, Sign};

/// What is due of a header.
#[derive(Clone, Copy)]
pub(crate) enum Part {
    /// A token of the kind.
    Token(Kind),
    /// The variable; the first name is its name.
    Variable,
    /// The number 1.
    One,
    /// An expression.
    Expression,
    /// The condition.
    Condition,
    /// The condition behind its variable.
    Comparison,
    /// What the variable stays below.
    Bound,
    /// What closes a parenthesis of the condition.
    Closing,
}

const OPEN: Kind = Kind::Mark(Mark::OpenParen);

const CLOSE: Kind = Kind::Mark(Mark::CloseParen);

const LESS: Kind = Kind::Operator(Sign::Less);

/// A header behind the variable that it begins with.
static HEADER: [Part; 11] = [
    Part::Token(Kind::Mark(Mark::Assign)),
    Part::Expression,
    Part::Token(Kind::Mark(Mark::Semicolon)),
    Part::Condition,
    Part::Token(Kind::Mark(Mark::Semicolon)),
    Part::Variable,
    Part::Token(Kind::Mark(Mark::Assign)),
    Part::Variable,
    Part::Token(Kind::Operator(Sign::Plus)),
    Part::One,
    Part::Token(CLOSE),
];

/// The parts of a header behind the variable that it begins with.
fn header() -> &'static [Part]
    ensures { result.now ≡ header }
{
    &HEADER
}

/// Whether what closes a parenthesis of the condition is due.
fn is_closing_due(stack: &Stack<Part>) -> bool
    ensures { MatchBool result
        ((s : List Part) × (stack.now ≡ Closing ∷ s))
        ((s : List Part) → stack.now ≡ Closing ∷ s → ⊥) }
{
    matches!(stack.top(), Some(Part::Closing))
}

/// The kinds of what closes a parenthesis of the condition, where it is due.
fn closing_kinds(stack: &Stack<Part>) -> u128
    ensures { result ≡ closing_kinds stack.now }
{
    if is_closing_due(stack) {
        one_kind(CLOSE)
    } else {
        0
    }
}

/// The kinds with which a part begins, above those that are due after it.
fn kinds_of(part: Part, after: &Stack<Part>) -> u128
    ensures { result ≡ part_kinds (part ∷ after.now) }
{
    match part {
        Part::Token(kind) => one_kind(kind),
        Part::Variable => one_kind(Kind::Word),
        Part::One => one_kind(Kind::Number),
        Part::Expression | Part::Bound => phrase_kinds(Phrase::Expression),
        Part::Condition => one_kind(Kind::Word) | one_kind(OPEN),
        Part::Comparison => one_kind(LESS) | closing_kinds(after),
        Part::Closing => one_kind(CLOSE),
    }
}

/// Leaves the next token behind where it has the kind; whether it has.
fn eat<S: Source>(source: &mut S, kind: Kind) -> bool
    requires { nat_lt 0 (number kind) ≡ true }
    ensures { Eaten (HasKind kind) (S.left source.old) (S.left source.new) result }
{
    if source.kind().number() == kind.number() {
        source.take();
        true
    } else {
        false
    }
}

/// The same of the number 1.
fn eat_one<S: Fronts>(source: &mut S) -> bool
    ensures { Eaten IsOne (S.left source.old) (S.left source.new) result }
{
    if source.is_one() {
        source.take();
        true
    } else {
        false
    }
}

/// Whether the next token may be the variable.
fn is_variable<S: Fronts>(source: &S, variable: &Option<S::Name>) -> bool
    ensures { MatchBool result
        ((t : Token) × (us : List Token) × (S.left source.now ≡ t ∷ us)
        × MayBe (option_map S.text variable.now) t)
        ((t : Token) (us : List Token) → S.left source.now ≡ t ∷ us →
        MayBe (option_map S.text variable.now) t → ⊥) }
{
    match variable {
        None => source.kind().number() == Kind::Word.number(),
        Some(name) => source.is_name(name),
    }
}

/// Leaves the variable behind where it stands next; whether it does.
fn eat_variable<S: Fronts>(source: &mut S, variable: &mut Option<S::Name>) -> bool
    ensures read { Eaten (MayBe (option_map S.text variable.old))
        (S.left source.old) (S.left source.new) result }
    ensures named { option_map S.text variable.new ≡
        cond result (first_name (S.left source.old)) (option_map S.text variable.old) }
{
    if is_variable(source, variable) {
        *variable = source.take();
        true
    } else {
        false
    }
}

/// How far a part of one token was read.
fn reached(whole: bool) -> Reach
    ensures { result ≡ cond whole (Whole 0) Nowhere }
{
    if whole {
        Reach::Whole(0)
    } else {
        Reach::Nowhere
    }
}

/// Reads what a condition begins with: a parenthesis, or the variable.
fn reach_condition<S: Fronts>(
    source: &mut S,
    stack: &mut Stack<Part>,
    variable: &mut Option<S::Name>,
) -> Result<Reach, AllocError>
    ensures { IfOk result (Leads
        (option_map S.text variable.old) (Condition ∷ stack.old) (S.left source.old)
        (option_map S.text variable.new) stack.new (S.left source.new)) }
{
    if eat(source, OPEN) {
        stack.push(Part::Closing)?;
        stack.push(Part::Condition)?;
        return Ok(Reach::Whole(0));
    }
    if eat_variable(source, variable) {
        stack.push(Part::Comparison)?;
        return Ok(Reach::Whole(0));
    }
    Ok(Reach::Nowhere)
}

/// Reads what follows the variable of a condition: what closes a parenthesis, or `<`.
fn reach_comparison<S: Source>(source: &mut S, stack: &mut Stack<Part>) -> Result<Reach, AllocError>
    ensures { IfOk result (λ reach. (v : Option (List ℕ)) → Leads
        v (Comparison ∷ stack.old) (S.left source.old) v stack.new (S.left source.new) reach) }
{
    if eat(source, LESS) {
        stack.push(Part::Bound)?;
        return Ok(Reach::Whole(0));
    }
    if is_closing_due(stack) && eat(source, CLOSE) {
        stack.pop();
        stack.push(Part::Comparison)?;
        return Ok(Reach::Whole(0));
    }
    Ok(Reach::Nowhere)
}

/// Reads a part as far as some go on with what stands there, and puts on the stack what follows of
/// it.
fn reach_part<S: Fronts>(
    alloc: Global,
    source: &mut S,
    part: Part,
    stack: &mut Stack<Part>,
    variable: &mut Option<S::Name>,
) -> Result<Reach, AllocError>
    requires { are_good (part ∷ stack.old) ≡ true }
    ensures { IfOk result (Leads
        (option_map S.text variable.old) (part ∷ stack.old) (S.left source.old)
        (option_map S.text variable.new) stack.new (S.left source.new)) }
{
    match part {
        Part::Token(kind) => Ok(reached(eat(source, kind))),
        Part::Variable => Ok(reached(eat_variable(source, variable))),
        Part::One => Ok(reached(eat_one(source))),
        Part::Expression => reach_expression(alloc, source),
        Part::Condition => reach_condition(source, stack, variable),
        Part::Comparison => reach_comparison(source, stack),
        Part::Bound => reach_bound(alloc, source),
        Part::Closing => Ok(reached(eat(source, CLOSE))),
    }
}

/// Reads a header as far as some header goes on with what stands there.
pub(crate) fn reach_loop_head<S: Fronts>(alloc: Global, source: &mut S) -> Result<Reach, AllocError>
    ensures { IfOk result
        (Reaches (SpellsPhrase LoopHead) (S.left source.old) (S.left source.new)) }
{
    let mut variable = None;
    if !eat_variable(source, &mut variable) {
        return Ok(Reach::Nowhere);
    }
    let mut stack = Stack::new(alloc);
    stack.push_all(header())?;
    let mut more = 0;
    'parts: loop {
        let Some(part) = stack.pop() else {
            return Ok(Reach::Whole(more));
        };
        let begins = more | kinds_of(part, &stack);
        match reach_part(alloc, source, part, &mut stack, &mut variable)? {
            Reach::Nowhere => return Ok(Reach::Part(begins)),
            Reach::Part(kinds) => return Ok(Reach::Part(kinds)),
            Reach::Whole(kinds) => more = kinds,
        }
    }
}
