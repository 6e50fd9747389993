//! Whether two texts derive the same file.

ghost use Rattle.std.specs.Prelude.{IfOk};
ghost use Rattle.vast_read.specs.Compared.{Compares};
ghost use Rattle.vast_read.specs.Internal.Compared.{IsFollowed, IsToldOf};

use crate::build::Events;
use crate::phrase::Phrases;
use crate::transcript::{Followed, Telling, Transcript};
use std::alloc::{AllocError, Global};
use vast_rows::read_file;

/// What is found of two texts.
#[derive(Clone, Copy, Debug, PartialEq, Eq)]
pub enum Comparison {
    /// Both are derived, as one tree.
    Same,
    /// Both are derived, and from no tree are both.
    Different,
    /// The old text is not derived.
    OldUnderived,
    /// The new text is not derived.
    NewUnderived,
}

/// Whether two texts derive the same file, whatever their spaces, comments and redundant parentheses.
///
/// The grammar is `DerivesFile`, and the tree of a text is what [`read_normal`](crate::read_normal) returns. It takes
/// time in proportion to the texts, memory for what the old one tells, and no stack that grows with them.
pub fn are_same(alloc: Global, old: &str, new: &str) -> Result<Comparison, AllocError>
    ensures { IfOk result (λ c. Compares c old.now new.now) }
{
    compared(alloc, old, new, &mut 0)
}

/// The same. Where both are derived, `count` becomes how many pieces both tell alike before one that they don't.
pub(crate) fn compared(
    alloc: Global,
    old: &str,
    new: &str,
    count: &mut usize,
) -> Result<Comparison, AllocError>
    ensures { IfOk result (λ c. Compares c old.now new.now) }
{
    let Some(told) = told_of(alloc, old)? else {
        return Ok(Comparison::OldUnderived);
    };
    match tells(alloc, new, &told, count)? {
        None => Ok(Comparison::NewUnderived),
        Some(true) => Ok(Comparison::Same),
        Some(false) => Ok(Comparison::Different),
    }
}

/// What is told of the file that the tokens of this text spell; nothing, where they spell none.
fn told_of<'t>(alloc: Global, text: &'t str) -> Result<Option<Transcript<'t>>, AllocError>
    ensures { IfOk result (IsToldOf text.now) }
{
    let mut source: Phrases<'t, Events> = Phrases::new(alloc, text);
    let mut telling = Telling {
        hearer: Transcript::new(alloc),
    };
    if read_file(alloc, &mut source, &mut telling)? {
        Ok(Some(telling.hearer))
    } else {
        Ok(None)
    }
}

/// Whether this is told of the file that the tokens of a text spell; nothing, where they spell none. `count` becomes how
/// many pieces of it are.
fn tells(
    alloc: Global,
    text: &str,
    told: &Transcript<'_>,
    count: &mut usize,
) -> Result<Option<bool>, AllocError>
    ensures { IfOk result (IsFollowed text.now told.now) }
{
    let mut source: Phrases<'_, Events> = Phrases::new(alloc, text);
    let mut telling = Telling {
        hearer: Followed {
            left: Some(told.whole()),
            count: 0,
        },
    };
    if read_file(alloc, &mut source, &mut telling)? {
        *count = telling.hearer.count;
        Ok(Some(telling.hearer.is_over()))
    } else {
        Ok(None)
    }
}
