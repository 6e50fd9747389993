//! The parts of an expression, and what is left of it as it is let go.

ghost use Rattle.std.specs.Prelude.{◌<◌, ◌≤◌, ◌+◌, ⊤, MatchOption};
ghost use Rattle.vast_read.specs.Internal.Release.{rounds_beside, rounds_alone, rounds_left, list_beside, list_alone};

use crate::children::Children;
use crate::tree::expression::NormalExpr;

/// The parts of an expression, first to last, without its words.
pub(crate) enum Parts {
    Nothing,
    One(Box<NormalExpr>),
    Two(Box<NormalExpr>, Box<NormalExpr>),
    Three(Box<NormalExpr>, Box<NormalExpr>, Box<NormalExpr>),
    Many(Children<NormalExpr>),
    Counted(Box<NormalExpr>, Children<NormalExpr>),
}

impl NormalExpr {
    /// What is left of it without its outermost level: a tree to go on with, and another that waits; none, where it has no
    /// parts.
    pub(crate) fn shed(self) -> Option<(NormalExpr, Option<NormalExpr>)>
        ensures { MatchOption result ⊤ (λ r. rounds_left r.0 r.1 < rounds_alone self) }
    {
        match self.into_parts() {
            Parts::Nothing => None,
            Parts::One(part) => Some((Box::into_inner(part), None)),
            Parts::Two(first, second) => {
                Some((Box::into_inner(first), Some(Box::into_inner(second))))
            }
            Parts::Three(first, second, third) => {
                Some((
                    Box::into_inner(first),
                    Some(NormalExpr::Index(second, third)),
                ))
            }
            Parts::Many(parts) => shed_list(parts),
            Parts::Counted(count, parts) => Some(shed_counted(count, parts)),
        }
    }

    /// The same while another waits: that goes into the place of the first part, after the others.
    pub(crate) fn turn(self, other: NormalExpr) -> (NormalExpr, Option<NormalExpr>)
        ensures { rounds_left result.0 result.1 < rounds_beside self + rounds_alone other }
    {
        match self.into_parts() {
            Parts::Nothing => (other, None),
            Parts::One(part) => (Box::into_inner(part), Some(other)),
            Parts::Two(mut first, second) => {
                let next = Box::replace(&mut first, other);
                (next, Some(NormalExpr::Index(second, first)))
            }
            Parts::Three(mut first, second, third) => {
                let next = Box::replace(&mut first, other);
                (next, Some(NormalExpr::Slice(second, third, first)))
            }
            Parts::Many(parts) => turn_list(parts, other),
            Parts::Counted(mut count, parts) => {
                let next = Box::replace(&mut count, other);
                (next, Some(NormalExpr::Replicated(count, parts)))
            }
        }
    }
}

/// The last of these parts, and the others where there are any.
fn shed_list(parts: Children<NormalExpr>) -> Option<(NormalExpr, Option<NormalExpr>)>
    ensures { MatchOption result ⊤ (λ r. rounds_left r.0 r.1 ≤ list_alone parts) }
{
    match parts.split_last() {
        None => None,
        Some((last, before)) => match before {
            None => Some((last, None)),
            Some(before) => Some((last, Some(NormalExpr::Concat(before)))),
        },
    }
}

/// The last of these parts, and the others with the part before them; where there are none, that part alone.
fn shed_counted(
    count: Box<NormalExpr>,
    parts: Children<NormalExpr>,
) -> (NormalExpr, Option<NormalExpr>)
    ensures { rounds_left result.0 result.1 < rounds_alone count.value + list_beside parts + 2 }
{
    match parts.split_last() {
        None => (Box::into_inner(count), None),
        Some((last, before)) => match before {
            None => (last, Some(Box::into_inner(count))),
            Some(before) => (last, Some(NormalExpr::Replicated(count, before))),
        },
    }
}

/// The first of these parts, and the list with the other in its place.
fn turn_list(parts: Children<NormalExpr>, other: NormalExpr) -> (NormalExpr, Option<NormalExpr>)
    ensures { rounds_left result.0 result.1 < list_beside parts + 2 + rounds_alone other }
{
    match parts.exchange_first(other) {
        Err(other) => (other, None),
        Ok((first, parts)) => (first, Some(NormalExpr::Concat(parts))),
    }
}
