//! Deep trees are let go: 100,000 levels, whichever part of a level holds the next.

use std::alloc::Global;
use std::test::Fail;
use vast_read::{
    Arm, CaseArm, Children, LoopRange, NormalExpr, NormalMember, NormalStatement, Word,
};

const LEVELS: u32 = 100_000;

/// Which part of a level holds the next.
#[derive(Clone, Copy)]
enum Part {
    Operand,
    Left,
    Right,
    Condition,
    Alternate,
    Subject,
    Index,
    High,
    Value,
    First,
    Last,
    Argument,
    Count,
    Counted,
}

/// Which part of a statement holds the next.
#[derive(Clone, Copy)]
enum Block {
    Arm,
    Else,
    CaseArm,
    For,
}

/// A word.
fn word(alloc: Global) -> Result<Word, Fail> {
    Ok(Word::new(alloc, "a")?)
}

/// A name.
fn leaf(alloc: Global) -> Result<Box<NormalExpr>, Fail> {
    let word = word(alloc)?;
    Ok(Box::new(alloc, NormalExpr::Name(word))?)
}

/// A name, the part, and a name.
fn listed(alloc: Global, part: NormalExpr) -> Result<Children<NormalExpr>, Fail> {
    let mut parts = Children::new(alloc);
    let before = word(alloc)?;
    parts.push(NormalExpr::Name(before))?;
    parts.push(part)?;
    let behind = word(alloc)?;
    parts.push(NormalExpr::Name(behind))?;
    Ok(parts)
}

/// The part alone.
fn single(alloc: Global, part: NormalExpr) -> Result<Children<NormalExpr>, Fail> {
    let mut parts = Children::new(alloc);
    parts.push(part)?;
    Ok(parts)
}

/// A level that holds the next in a box.
fn around(alloc: Global, part: Part, next: NormalExpr) -> Result<NormalExpr, Fail> {
    let next = Box::new(alloc, next)?;
    let (one, other, word) = (leaf(alloc)?, leaf(alloc)?, word(alloc)?);
    Ok(match part {
        Part::Left => NormalExpr::Binary(word, next, one),
        Part::Right => NormalExpr::Binary(word, one, next),
        Part::Condition => NormalExpr::Ternary(next, one, other),
        Part::Alternate => NormalExpr::Ternary(one, other, next),
        Part::Subject => NormalExpr::Index(next, one),
        Part::Index => NormalExpr::Index(one, next),
        Part::High => NormalExpr::Slice(one, next, other),
        Part::Value => NormalExpr::MemberOf(next, word),
        Part::Count => NormalExpr::Replicated(next, Children::new(alloc)),
        _ => NormalExpr::Unary(word, next),
    })
}

/// A level that holds the next.
fn level(alloc: Global, part: Part, next: NormalExpr) -> Result<NormalExpr, Fail> {
    Ok(match part {
        Part::First => NormalExpr::Concat(single(alloc, next)?),
        Part::Last => NormalExpr::Pattern(listed(alloc, next)?),
        Part::Argument => {
            NormalExpr::MacroCall(Box::new(alloc, word(alloc)?)?, listed(alloc, next)?)
        }
        Part::Counted => NormalExpr::Replicated(leaf(alloc)?, listed(alloc, next)?),
        _ => around(alloc, part, next)?,
    })
}

/// A tree whose levels are these two in turn.
fn deep(alloc: Global, one: Part, other: Part) -> Result<NormalExpr, Fail> {
    let mut tree = NormalExpr::Name(word(alloc)?);
    for _ in 0..LEVELS / 2 {
        tree = level(alloc, one, tree)?;
        tree = level(alloc, other, tree)?;
    }
    Ok(tree)
}

/// An assignment, the statement, an assignment and a call.
fn framed(alloc: Global, inner: NormalStatement) -> Result<Children<NormalStatement>, Fail> {
    let mut statements = Children::new(alloc);
    statements.push(NormalStatement::Blocking(leaf(alloc)?, leaf(alloc)?))?;
    statements.push(inner)?;
    statements.push(NormalStatement::Assign(leaf(alloc)?, leaf(alloc)?))?;
    statements.push(NormalStatement::Task(leaf(alloc)?))?;
    Ok(statements)
}

/// A statement that holds another.
fn nest(alloc: Global, part: Block, inner: NormalStatement) -> Result<NormalStatement, Fail> {
    let inner = framed(alloc, inner)?;
    Ok(match part {
        Block::Arm => {
            let mut arms = Children::new(alloc);
            arms.push(Arm {
                condition: leaf(alloc)?,
                block: inner,
            })?;
            NormalStatement::Choice(arms, None)
        }
        Block::Else => {
            let mut arms = Children::new(alloc);
            arms.push(Arm {
                condition: leaf(alloc)?,
                block: Children::new(alloc),
            })?;
            NormalStatement::Choice(arms, Some(inner))
        }
        Block::CaseArm => {
            let mut arms = Children::new(alloc);
            arms.push(CaseArm {
                label: Some(leaf(alloc)?),
                block: inner,
            })?;
            arms.push(CaseArm {
                label: None,
                block: Children::new(alloc),
            })?;
            NormalStatement::Case(false, word(alloc)?, leaf(alloc)?, arms)
        }
        Block::For => NormalStatement::For(word(alloc)?, leaf(alloc)?, leaf(alloc)?, inner),
    })
}

/// Statements of these two kinds in turn.
fn nested(alloc: Global, one: Block, other: Block) -> Result<NormalStatement, Fail> {
    let mut statement = NormalStatement::Blocking(leaf(alloc)?, leaf(alloc)?);
    for _ in 0..LEVELS / 2 {
        statement = nest(alloc, one, statement)?;
        statement = nest(alloc, other, statement)?;
    }
    Ok(statement)
}

/// A loop round a member, and one more in it.
fn round(alloc: Global, inner: NormalMember) -> Result<NormalMember, Fail> {
    let mut members = Children::new(alloc);
    members.push(NormalMember::Assign(leaf(alloc)?, leaf(alloc)?))?;
    members.push(inner)?;
    let range = LoopRange {
        variable: word(alloc)?,
        start: leaf(alloc)?,
        end: leaf(alloc)?,
        label: None,
    };
    Ok(NormalMember::Loop(Box::new(alloc, range)?, members))
}

#[test]
fn chains(rt: HostRuntime) -> Result<(), Fail> {
    let alloc = rt.alloc();
    for part in [
        Part::Operand,
        Part::Left,
        Part::Right,
        Part::Condition,
        Part::Alternate,
        Part::Subject,
        Part::Index,
        Part::High,
        Part::Value,
        Part::First,
        Part::Last,
        Part::Argument,
        Part::Count,
        Part::Counted,
    ] {
        drop(deep(alloc, part, part)?);
        drop(deep(alloc, part, Part::Left)?);
        drop(deep(alloc, part, Part::Last)?);
    }
    Ok(())
}

#[test]
fn both_sides(rt: HostRuntime) -> Result<(), Fail> {
    let alloc = rt.alloc();
    let left = Box::new(alloc, deep(alloc, Part::Left, Part::Right)?)?;
    let right = Box::new(alloc, deep(alloc, Part::Right, Part::Last)?)?;
    drop(NormalExpr::Binary(word(alloc)?, left, right));
    Ok(())
}

#[test]
fn statements(rt: HostRuntime) -> Result<(), Fail> {
    let alloc = rt.alloc();
    for part in [Block::Arm, Block::Else, Block::CaseArm, Block::For] {
        drop(nested(alloc, part, Block::Arm)?);
        drop(nested(alloc, part, Block::Else)?);
        drop(nested(alloc, part, Block::CaseArm)?);
        drop(nested(alloc, part, Block::For)?);
    }
    Ok(())
}

#[test]
fn loops(rt: HostRuntime) -> Result<(), Fail> {
    let alloc = rt.alloc();
    let mut member = NormalMember::Assign(leaf(alloc)?, leaf(alloc)?);
    for _ in 0..LEVELS {
        member = round(alloc, member)?;
    }
    drop(member);
    Ok(())
}
