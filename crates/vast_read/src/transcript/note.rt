//! Notes: what is told, without its text.

ghost use Rattle.vast_read.specs.Internal.Comparison.{Tells};

use crate::macros::same;
use vast_expressions::Told;
use vast_rows::Action;

/// What a text is: a part of an expression, or of what stands above expressions.
#[derive(Clone, Copy, PartialEq, Eq)]
pub(crate) enum Role {
    /// A name in an expression.
    Name,
    /// A literal.
    Literal,
    /// A string.
    Text,
    /// A macro with no list.
    MacroAlone,
    /// A name that waits for its list or its operand.
    Word,
    /// The width of a part select.
    Width,
    /// The name of a member.
    Member,
    /// A name above expressions.
    Named,
    /// The path of an include.
    Path,
    /// The variable of a loop, whose start and end were told before it.
    Variable,
}

/// What is told, without its text.
#[derive(Clone, Copy)]
pub(crate) enum Note {
    /// Something is made of what is told after it.
    Makes(Action),
    /// An expression is made of what was told before it.
    Tells(Told),
    /// A text that is this.
    Says(Role),
}

impl Note {
    /// Whether it is this one.
    pub(crate) fn is(self, other: Note) -> bool
        ensures { Tells result self other }
    {
        match self {
            Note::Makes(action) => match other {
                Note::Makes(same) => action.is(same),
                _ => false,
            },
            Note::Tells(told) => match other {
                Note::Tells(same) => is_told(told, same),
                _ => false,
            },
            Note::Says(role) => same!(other, Note::Says, role),
        }
    }
}

/// Whether the same is made of an expression's parts.
fn is_told(one: Told, other: Told) -> bool
    ensures { Tells result one other }
{
    match one {
        Told::Unary(sign) => same!(other, Told::Unary, sign),
        Told::Binary(sign) => same!(other, Told::Binary, sign),
        Told::WordCast(key) => same!(other, Told::WordCast, key),
        Told::Ternary => matches!(other, Told::Ternary),
        Told::Index => matches!(other, Told::Index),
        Told::Slice => matches!(other, Told::Slice),
        Told::NoneYet => matches!(other, Told::NoneYet),
        Told::One => matches!(other, Told::One),
        Told::Push => matches!(other, Told::Push),
        Told::Concat => matches!(other, Told::Concat),
        Told::Pattern => matches!(other, Told::Pattern),
        Told::Replicated => matches!(other, Told::Replicated),
        Told::Call => matches!(other, Told::Call),
        Told::MacroCall => matches!(other, Told::MacroCall),
        Told::Cast => matches!(other, Told::Cast),
        Told::PackageCast => matches!(other, Told::PackageCast),
    }
}
