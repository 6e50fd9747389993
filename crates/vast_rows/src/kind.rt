//! Kinds of tokens.

ghost use Rattle.std.specs.Prelude.{◌≡◌, ◌<◌};
ghost use Rattle.vast_rows.specs.Kinds.{number};

use vast_literal::{Key, Mark, Sign};

/// What a rule sees of a token.
#[derive(Clone, Copy)]
pub enum Kind {
    /// After the last token.
    End,
    /// A name.
    Word,
    /// A keyword that the grammar does not use.
    Keyword,
    /// A name that begins with `$`.
    SystemWord,
    /// A macro.
    MacroWord,
    /// The macro that includes a file.
    IncludeWord,
    /// A number.
    Number,
    /// A literal with its base.
    Based,
    /// A string.
    Quoted,
    /// A mark of punctuation.
    Mark(Mark),
    /// The sign of an operator.
    Operator(Sign),
    /// A keyword that the grammar uses.
    Reserved(Key),
}

impl Kind {
    /// Its number, by which tables of rows name it.
    pub(crate) fn number(self) -> u8
        ensures number { result ≡ number self }
        ensures small { result < 128 }
    {
        match self {
            Kind::End => 0,
            Kind::Word => 1,
            Kind::Keyword => 2,
            Kind::SystemWord => 3,
            Kind::MacroWord => 4,
            Kind::IncludeWord => 5,
            Kind::Number => 6,
            Kind::Based => 7,
            Kind::Quoted => 8,
            Kind::Mark(mark) => 9 + mark as u8,
            Kind::Operator(sign) => 26 + sign as u8,
            Kind::Reserved(key) => 50 + key as u8,
        }
    }
}
