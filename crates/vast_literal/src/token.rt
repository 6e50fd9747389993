//! The tokens that the grammar knows by name: the signs of operators, marks of punctuation and keywords. A reader and the
//! grammar (`specs/Tokens.antt`) share them.

ghost use Rattle.std.specs.Prelude.{◌≡◌, ◌≤◌};
ghost use Rattle.vast_literal.specs.Grammar.{is_cast_word};
ghost use Rattle.vast_literal.specs.Tokens.{is_unary, level, op_text};

/// The sign of an operator; some stand between two operands, some before one, some in both places.
#[derive(Clone, Copy, Debug, PartialEq, Eq, Hash)]
pub enum Sign {
    LogicOr,
    LogicAnd,
    BitOr,
    BitXor,
    BitAnd,
    NotEqual,
    CaseNotEqual,
    Equal,
    CaseEqual,
    GreaterEqual,
    Greater,
    LessEqual,
    Less,
    ShiftLeft,
    ShiftRightSigned,
    ShiftRight,
    Plus,
    Minus,
    Times,
    Divide,
    Modulo,
    Power,
    BitNot,
    LogicNot,
}

/// A mark of punctuation.
#[derive(Clone, Copy, Debug, PartialEq, Eq, Hash)]
pub enum Mark {
    OpenParen,
    CloseParen,
    OpenBracket,
    CloseBracket,
    OpenBrace,
    CloseBrace,
    Comma,
    Colon,
    Semicolon,
    Dot,
    Hash,
    At,
    Question,
    DoubleColon,
    PlusColon,
    Assign,
    Apostrophe,
}

/// A keyword that the grammar uses.
#[derive(Clone, Copy, Debug, PartialEq, Eq, Hash)]
pub enum Key {
    If,
    Else,
    Case,
    Casez,
    Casex,
    EndCase,
    Default,
    Unique,
    Begin,
    End,
    Assign,
    Wire,
    Reg,
    Logic,
    Integer,
    Int,
    Genvar,
    Signed,
    Unsigned,
    Module,
    EndModule,
    Parameter,
    Localparam,
    AlwaysComb,
    AlwaysFF,
    Always,
    Posedge,
    Negedge,
    Or,
    Function,
    Automatic,
    EndFunction,
    Input,
    Output,
    InOut,
    For,
    AlwaysLatch,
    Initial,
    Import,
    Typedef,
    Enum,
    Struct,
    Packed,
}

impl Sign {
    /// How it is written.
    pub fn as_str(&self) -> &'static str
        ensures { result.now ≡ op_text self.now }
    {
        match self {
            Sign::LogicOr => "||",
            Sign::LogicAnd => "&&",
            Sign::BitOr => "|",
            Sign::BitXor => "^",
            Sign::BitAnd => "&",
            Sign::NotEqual => "!=",
            Sign::CaseNotEqual => "!==",
            Sign::Equal => "==",
            Sign::CaseEqual => "===",
            Sign::GreaterEqual => ">=",
            Sign::Greater => ">",
            Sign::LessEqual => "<=",
            Sign::Less => "<",
            Sign::ShiftLeft => "<<",
            Sign::ShiftRightSigned => ">>>",
            Sign::ShiftRight => ">>",
            Sign::Plus => "+",
            Sign::Minus => "-",
            Sign::Times => "*",
            Sign::Divide => "/",
            Sign::Modulo => "%",
            Sign::Power => "**",
            Sign::BitNot => "~",
            Sign::LogicNot => "!",
        }
    }

    /// How tightly it binds two operands, 0 where it only stands before one.
    #[tactic(auto, unfolding(crate::specs::Tokens::level))]
    pub fn level(self) -> u8
        ensures level { result ≡ level self }
        ensures small { result ≤ 11 }
    {
        match self {
            Sign::BitNot | Sign::LogicNot => 0,
            Sign::LogicOr => 1,
            Sign::LogicAnd => 2,
            Sign::BitOr => 3,
            Sign::BitXor => 4,
            Sign::BitAnd => 5,
            Sign::NotEqual | Sign::CaseNotEqual | Sign::Equal | Sign::CaseEqual => 6,
            Sign::GreaterEqual | Sign::Greater | Sign::LessEqual | Sign::Less => 7,
            Sign::ShiftLeft | Sign::ShiftRightSigned | Sign::ShiftRight => 8,
            Sign::Plus | Sign::Minus => 9,
            Sign::Times | Sign::Divide | Sign::Modulo => 10,
            Sign::Power => 11,
        }
    }

    /// Whether it may stand before an operand.
    #[tactic(auto, unfolding(crate::specs::Tokens::is_unary))]
    pub fn is_unary(self) -> bool
        ensures { result ≡ is_unary self }
    {
        matches!(
            self,
            Sign::Minus | Sign::BitNot | Sign::LogicNot | Sign::BitAnd | Sign::BitOr | Sign::BitXor
        )
    }
}

impl Key {
    /// Whether it heads a cast.
    #[tactic(auto, unfolding(crate::specs::Grammar::is_cast_word))]
    pub fn is_cast_word(self) -> bool
        ensures { result ≡ is_cast_word self }
    {
        matches!(
            self,
            Key::Logic | Key::Signed | Key::Unsigned | Key::Integer | Key::Int
        )
    }
}
