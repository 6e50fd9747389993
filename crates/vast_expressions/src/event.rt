//! What is told of an expression.

use vast_literal::{Key, Sign};

/// What is told with no bytes of the text.
#[derive(Clone, Copy, PartialEq, Eq)]
pub enum Told {
    /// A sign before what was told last.
    Unary(Sign),
    /// A sign between the last two.
    Binary(Sign),
    /// A choice of the last three.
    Ternary,
    /// An index of what was told before it.
    Index,
    /// A slice, of a subject and two bounds.
    Slice,
    /// A list begins, with nothing in it.
    NoneYet,
    /// A list begins with what was told last.
    One,
    /// What was told last stands at the end of the list before it.
    Push,
    /// A concatenation of the list.
    Concat,
    /// An array pattern of the list.
    Pattern,
    /// The list with its count before it.
    Replicated,
    /// A call of the name before the list.
    Call,
    /// The use of the macro of that name, with the list.
    MacroCall,
    /// A cast by what was told before its operand.
    Cast,
    /// A cast by a package's type.
    PackageCast,
    /// A cast by a keyword.
    WordCast(Key),
}

/// What is told: bytes of a token, or what is made of what was told before.
#[derive(Clone, Copy)]
pub enum Event<'t> {
    /// A name.
    Name(&'t str),
    /// A literal.
    Literal(&'t str),
    /// A string.
    Text(&'t str),
    /// The use of a macro with no list.
    MacroAlone(&'t str),
    /// A name that waits for its list or its operand.
    Word(&'t str),
    /// A part select of this width.
    PartSelect(&'t str),
    /// The member of this name.
    MemberOf(&'t str),
    /// What is made of what was told before.
    Made(Told),
}
