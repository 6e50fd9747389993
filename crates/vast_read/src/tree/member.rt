//! Members of modules and of generate loops.

ghost use Rattle.std.specs.Prelude.{◌<◌, ◌≤◌, ◌+◌, ⊤, MatchOption};
ghost use Rattle.vast_read.specs.Internal.MemberRelease.{member_left, member_alone, members_beside, members_alone, waiting_alone};

use crate::children::Children;
use crate::tree::boxed::{Always, EnumType, Function, Instance, LoopRange, MacroUse, StructType};
use crate::tree::declaration::NormalDeclaration;
use crate::tree::expression::NormalExpr;
use crate::tree::statement::NormalStatement;
use vast_names::Word;

/// What an always block waits for: an edge of an expression, or a change of a name.
#[derive(PartialEq, Drop)]
pub struct Event {
    /// `posedge` or `negedge`.
    pub edge: Option<Word>,
    /// What has the edge, or the name.
    pub expression: Box<NormalExpr>,
}

/// What an instantiation gives by name to a parameter or a port; an open port has no value. An
/// entry of an enumeration.
#[derive(PartialEq, Drop)]
pub struct Connection {
    /// The parameter or the port, or the entry.
    pub name: Word,
    /// What is given; none for an open port, and for an entry that counts on.
    pub value: Option<Box<NormalExpr>>,
}

/// A member of a module or of a generate loop (IEEE Std 1800-2017, clauses 23.2 and 27).
///
/// To let one go takes no memory, and no stack that grows with its depth. `==` calls itself for each part in turn until two
/// differ, so it takes stack for each level that the two have in common.
///
/// A flat module has very many of them in one list, so the large ones lie in boxes.
#[derive(PartialEq)]
pub enum NormalMember {
    /// A declaration of a net or a variable.
    Declaration(Box<NormalDeclaration>),
    /// A continuous assignment.
    Assign(Box<NormalExpr>, Box<NormalExpr>),
    /// `parameter` or `localparam`, what it declares, and its value.
    Parameter(Word, Box<NormalDeclaration>, Box<NormalExpr>),
    /// The package of an import (IEEE Std 1800-2017, clause 26.3).
    Import(Word),
    /// A declaration of an enumeration (IEEE Std 1800-2017, clause 6.19).
    Enum(Box<EnumType>),
    /// A declaration of a packed structure (IEEE Std 1800-2017, clause 7.2.1).
    Struct(Box<StructType>),
    /// The use of a macro.
    Macro(Box<MacroUse>),
    /// An instantiation.
    Instance(Box<Instance>),
    /// An always block.
    Always(Box<Always>),
    /// A conditional generate construct, which is a `Choice`.
    Conditional(Box<NormalStatement>),
    /// A function.
    Function(Box<Function>),
    /// A loop generate construct, and its members.
    Loop(Box<LoopRange>, Children<NormalMember>),
}

impl Drop for NormalMember {
    /// Goes down the loops in a loop, however deep they are: it takes no memory, and no stack that grows with the depth.
    fn drop(mut self) {
        let mut waiting = None;
        loop {
            match self.shed(waiting) {
                None => return,
                Some((next, rest)) => {
                    self = next;
                    waiting = rest;
                }
            }
        }
    }
}

/// The last of these members, and those before it where there are any.
fn taken(members: Children<NormalMember>) -> Option<(NormalMember, Option<Children<NormalMember>>)>
    ensures { MatchOption result ⊤ (λ r. member_left r.0 r.1 < members_alone members) }
{
    members.split_last()
}

/// The same of members where there are any.
fn next_of(
    waiting: Option<Children<NormalMember>>,
) -> Option<(NormalMember, Option<Children<NormalMember>>)>
    ensures { MatchOption result ⊤ (λ r. member_left r.0 r.1 < waiting_alone waiting) }
{
    match waiting {
        None => None,
        Some(members) => taken(members),
    }
}

/// The first of these members, and the list with the rest in its place; where there are none, the rest.
fn ahead(
    members: Children<NormalMember>,
    rest: NormalMember,
) -> (NormalMember, Option<Children<NormalMember>>)
    ensures { member_left result.0 result.1 ≤ members_beside members + member_alone rest }
{
    match members.exchange_first(rest) {
        Err(rest) => (rest, None),
        Ok((first, members)) => (first, Some(members)),
    }
}

impl NormalMember {
    /// What is left of it, and of members that wait, without its outermost level: a member to go on with, and members that
    /// wait.
    fn shed(
        self,
        waiting: Option<Children<NormalMember>>,
    ) -> Option<(NormalMember, Option<Children<NormalMember>>)>
        ensures { MatchOption result ⊤ (λ r. member_left r.0 r.1 < member_left self waiting) }
    {
        match self {
            NormalMember::Declaration(_declared) => next_of(waiting),
            NormalMember::Assign(_left, _right) => next_of(waiting),
            NormalMember::Parameter(_, _declared, _value) => next_of(waiting),
            NormalMember::Conditional(_choice) => next_of(waiting),
            NormalMember::Import(_package) => next_of(waiting),
            NormalMember::Enum(_declared) => next_of(waiting),
            NormalMember::Struct(_declared) => next_of(waiting),
            NormalMember::Macro(_macro) => next_of(waiting),
            NormalMember::Instance(_instance) => next_of(waiting),
            NormalMember::Always(_always) => next_of(waiting),
            NormalMember::Function(_function) => next_of(waiting),
            NormalMember::Loop(range, members) => match waiting {
                None => taken(members),
                Some(waiting) => {
                    let rest = NormalMember::Loop(range, waiting);
                    Some(ahead(members, rest))
                }
            },
        }
    }
}
