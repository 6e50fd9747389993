//! Statements of procedural blocks.

ghost use Rattle.std.specs.Prelude.{◌≡◌, ◌<◌, ◌≤◌, ◌+◌, ⊤, MatchOption, map};
ghost use Rattle.vast_read.specs.Internal.StatementRelease.{of_block, statement_rounds, arm_rounds, label_rounds, statement_left, statement_alone, statement_beside, block_alone, block_beside, choice_alone};
ghost use Rattle.vast_read.specs.StatementView.{statement_view};
ghost use Rattle.vast_rows.specs.Built.{unique_case};

use crate::children::Children;
use crate::tree::expression::NormalExpr;
use std::alloc::Global;
use vast_names::Word;

/// A procedural statement (IEEE Std 1800-2017, clauses 10.4, 12 and 13.5).
///
/// To let one go takes no memory, and no stack that grows with its depth. `==` calls itself for each part in turn until two
/// differ, so it takes stack for each level that the two have in common.
#[cycle(statements)]
#[derive(PartialEq)]
pub enum NormalStatement {
    /// A blocking assignment, `left = right;`.
    Blocking(Box<NormalExpr>, Box<NormalExpr>),
    /// A nonblocking assignment, `left <= right;`.
    Nonblocking(Box<NormalExpr>, Box<NormalExpr>),
    /// A procedural continuous assignment, `assign left = right;`.
    Assign(Box<NormalExpr>, Box<NormalExpr>),
    /// A call of a task or of a system task, or the use of a macro, `call;`.
    Task(Box<NormalExpr>),
    /// A conditional: `if` and each `else if`, first to last, then the block of the last `else`.
    Choice(Children<Arm>, Option<Children<NormalStatement>>),
    /// A case: whether it is unique, its word (`case`, `casez` or `casex`), its selector, its arms.
    Case(bool, Word, Box<NormalExpr>, Children<CaseArm>),
    /// A loop: its index, what that starts from and what it stays below, and what is done each time.
    For(Word, Box<NormalExpr>, Box<NormalExpr>, Children<NormalStatement>),
}

/// An arm of a conditional.
#[cycle(statements)]
#[derive(PartialEq, Drop)]
pub struct Arm {
    /// What is tested.
    pub condition: Box<NormalExpr>,
    /// What is done where it holds.
    pub block: Children<NormalStatement>,
}

/// An arm of a case.
#[cycle(statements)]
#[derive(PartialEq, Drop)]
pub struct CaseArm {
    /// None for `default`.
    pub label: Option<Box<NormalExpr>>,
    /// What is done there.
    pub block: Children<NormalStatement>,
}

impl Drop for NormalStatement {
    /// Goes down the blocks in a loop, however deep they are: it takes no memory, and no stack that grows with the depth.
    fn drop(mut self) {
        let mut waiting = None;
        loop {
            let left = match waiting {
                None => self.shed(),
                Some(block) => self.turn(block),
            };
            match left {
                None => return,
                Some((next, rest)) => {
                    self = next;
                    waiting = rest;
                }
            }
        }
    }
}

impl NormalStatement {
    /// The same, and unique if it is a case.
    pub(crate) fn into_unique(self) -> NormalStatement
        ensures { statement_view result ≡ unique_case (statement_view self) }
    {
        match self {
            NormalStatement::Case(_, word, selector, arms) => {
                NormalStatement::Case(true, word, selector, arms)
            }
            other => other,
        }
    }

    /// What is left of it without its outermost level: a statement to go on with, and a block that waits; none, where it
    /// has no blocks.
    fn shed(self) -> Option<(NormalStatement, Option<Children<NormalStatement>>)>
        ensures { MatchOption result ⊤ (λ r. statement_left r.0 r.1 < statement_alone self) }
    {
        match self {
            NormalStatement::Blocking(_left, _right)
            | NormalStatement::Nonblocking(_left, _right)
            | NormalStatement::Assign(_left, _right) => None,
            NormalStatement::Task(_call) => None,
            NormalStatement::Choice(arms, last) => shed_arms(arms, last),
            NormalStatement::For(_, _start, _end, block) => taken(block),
            NormalStatement::Case(is_unique, word, selector, arms) => match arms.split_last() {
                None => None,
                Some((arm, before)) => match before {
                    None => taken(arm.into_block()),
                    Some(before) => {
                        let rest = NormalStatement::Case(is_unique, word, selector, before);
                        Some(ahead(arm.into_block(), rest))
                    }
                },
            },
        }
    }

    /// The same while a block waits: that goes into the place of one of its own, after the others.
    fn turn(
        self,
        block: Children<NormalStatement>,
    ) -> Option<(NormalStatement, Option<Children<NormalStatement>>)>
        ensures { MatchOption result ⊤ (λ r. statement_left r.0 r.1
            < statement_beside self + block_alone block) }
    {
        match self {
            NormalStatement::Blocking(_left, _right)
            | NormalStatement::Nonblocking(_left, _right)
            | NormalStatement::Assign(_left, _right) => taken(block),
            NormalStatement::Task(_call) => taken(block),
            NormalStatement::Choice(arms, last) => {
                let rest = NormalStatement::Choice(arms, Some(block));
                match last {
                    None => Some((rest, None)),
                    Some(last) => Some(ahead(last, rest)),
                }
            }
            NormalStatement::For(index, start, end, own) => {
                let rest = NormalStatement::For(index, start, end, block);
                Some(ahead(own, rest))
            }
            NormalStatement::Case(is_unique, word, selector, arms) => {
                match arms.exchange_first(CaseArm { label: None, block }) {
                    Err(arm) => taken(arm.into_block()),
                    Ok((arm, arms)) => {
                        let rest = NormalStatement::Case(is_unique, word, selector, arms);
                        Some(ahead(arm.into_block(), rest))
                    }
                }
            }
        }
    }
}

/// The last statement of a block, and those before it where there are any.
fn taken(
    block: Children<NormalStatement>,
) -> Option<(NormalStatement, Option<Children<NormalStatement>>)>
    ensures { MatchOption result ⊤ (λ r. statement_left r.0 r.1 < block_alone block) }
{
    block.split_last()
}

/// The first statement of a block, and the block with the rest in its place; where the block is empty, the rest.
fn ahead(
    block: Children<NormalStatement>,
    rest: NormalStatement,
) -> (NormalStatement, Option<Children<NormalStatement>>)
    ensures { statement_left result.0 result.1 ≤ block_beside block + statement_alone rest }
{
    match block.exchange_first(rest) {
        Err(rest) => (rest, None),
        Ok((first, block)) => (first, Some(block)),
    }
}

/// What is left of a conditional of these arms without the last of them, or without its last block where it has no arm.
fn shed_arms(
    arms: Children<Arm>,
    last: Option<Children<NormalStatement>>,
) -> Option<(NormalStatement, Option<Children<NormalStatement>>)>
    ensures { MatchOption result ⊤ (λ r. statement_left r.0 r.1 < choice_alone arms last) }
{
    match arms.pop_last() {
        None => match last {
            None => None,
            Some(block) => taken(block),
        },
        Some((arm, arms)) => {
            let rest = NormalStatement::Choice(arms, last);
            Some(ahead(arm.into_block(), rest))
        }
    }
}

impl Arm {
    /// What is done there.
    fn into_block(self) -> Children<NormalStatement>
        ensures { arm_rounds self ≡ of_block (map statement_rounds result) }
    {
        let Arm {
            condition: _,
            block,
        } = self;
        block
    }
}

impl CaseArm {
    /// What is done there.
    fn into_block(self) -> Children<NormalStatement>
        ensures { label_rounds self ≡ of_block (map statement_rounds result) }
    {
        let CaseArm { label: _, block } = self;
        block
    }
}
