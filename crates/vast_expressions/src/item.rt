//! What is still to be read: one byte for each item.

ghost use Rattle.std.specs.Prelude.{◌≡◌, ◌<◌, true, false, MatchOption};
ghost use Rattle.vast_expressions.specs.Events.{UnaryT, WordCastT};
ghost use Rattle.vast_expressions.specs.Internal.Items.{item_view};
ghost use Rattle.vast_expressions.specs.Rows.{Emit, Right};
ghost use Rattle.vast_literal.specs.Grammar.{is_cast_word};
ghost use Rattle.vast_literal.specs.Tokens.{is_unary, level};

use std::mem::size_of;
use vast_literal::{Key, Sign};

// What an open parenthesis leaves to be read takes four bytes.
const _: () = prove!(size_of::<Item>() <= 1);

/// What is still to be read. `specs/Internal/Items.antt` says which item of the grammar each one is.
///
/// A `Take` is a mark; a `Right` what binds more tightly than its operator, which is then told; a
/// `Make` is told at once.
#[derive(Clone, Copy, PartialEq, Eq)]
pub(crate) enum Item {
    /// An expression.
    Expression,
    /// What is assigned to: a primary expression with its selects.
    Target,
    /// An operand.
    Operand,
    /// Selects after a primary expression.
    Selects,
    /// What follows the first bound of a select.
    SelectEnd,
    /// The name of a member, and the selects after it.
    MemberName,
    /// Perhaps what makes a cast of what stands before.
    MaybeCast,
    /// The name of a package's type.
    TypeName,
    /// What follows an open brace.
    Braces,
    /// What follows an open brace and an expression.
    BraceNext,
    /// Expressions, perhaps none, and a closing parenthesis.
    ArgumentsParen,
    /// Expressions, perhaps none, and a closing brace.
    ArgumentsBrace,
    /// Further expressions, and a closing parenthesis.
    MoreParen,
    /// Further expressions, and a closing brace.
    MoreBrace,
    /// The rest of an expression: operators, and perhaps a choice.
    Rest,
    TakeOpenParen,
    TakeCloseParen,
    TakeCloseBracket,
    TakeOpenBrace,
    TakeCloseBrace,
    TakeColon,
    TakeApostrophe,
    MakeTernary,
    MakeIndex,
    MakeSlice,
    MakeNone,
    MakeOne,
    MakePush,
    MakeConcat,
    MakePattern,
    MakeReplicated,
    MakeCall,
    MakeMacroCall,
    MakeCast,
    MakePackageCast,
    MakeUnaryMinus,
    MakeUnaryBitNot,
    MakeUnaryLogicNot,
    MakeUnaryBitAnd,
    MakeUnaryBitOr,
    MakeUnaryBitXor,
    RightLogicOr,
    RightLogicAnd,
    RightBitOr,
    RightBitXor,
    RightBitAnd,
    RightNotEqual,
    RightCaseNotEqual,
    RightEqual,
    RightCaseEqual,
    RightGreaterEqual,
    RightGreater,
    RightLessEqual,
    RightLess,
    RightShiftLeft,
    RightShiftRightSigned,
    RightShiftRight,
    RightPlus,
    RightMinus,
    RightTimes,
    RightDivide,
    RightModulo,
    RightPower,
    MakeLogicCast,
    MakeSignedCast,
    MakeUnsignedCast,
    MakeIntegerCast,
    MakeIntCast,
}

impl Item {
    /// The item that tells a sign before an operand, where it may stand there.
    #[tactic(auto, unfolding(vast_literal::specs::Tokens::is_unary))]
    pub(crate) fn unary(sign: Sign) -> Option<Item>
        ensures { MatchOption result
            (is_unary sign ≡ false)
            (λ i. (is_unary sign ≡ true) × (item_view i ≡ Emit (UnaryT sign))) }
    {
        match sign {
            Sign::Minus => Some(Item::MakeUnaryMinus),
            Sign::BitNot => Some(Item::MakeUnaryBitNot),
            Sign::LogicNot => Some(Item::MakeUnaryLogicNot),
            Sign::BitAnd => Some(Item::MakeUnaryBitAnd),
            Sign::BitOr => Some(Item::MakeUnaryBitOr),
            Sign::BitXor => Some(Item::MakeUnaryBitXor),
            _ => None,
        }
    }

    /// The item of the right side of a sign between two operands.
    #[tactic(auto, unfolding(vast_literal::specs::Tokens::level))]
    pub(crate) fn right(sign: Sign) -> Option<Item>
        ensures { MatchOption result
            (level sign ≡ 0)
            (λ i. (0 < level sign) × (item_view i ≡ Right sign)) }
    {
        match sign {
            Sign::LogicOr => Some(Item::RightLogicOr),
            Sign::LogicAnd => Some(Item::RightLogicAnd),
            Sign::BitOr => Some(Item::RightBitOr),
            Sign::BitXor => Some(Item::RightBitXor),
            Sign::BitAnd => Some(Item::RightBitAnd),
            Sign::NotEqual => Some(Item::RightNotEqual),
            Sign::CaseNotEqual => Some(Item::RightCaseNotEqual),
            Sign::Equal => Some(Item::RightEqual),
            Sign::CaseEqual => Some(Item::RightCaseEqual),
            Sign::GreaterEqual => Some(Item::RightGreaterEqual),
            Sign::Greater => Some(Item::RightGreater),
            Sign::LessEqual => Some(Item::RightLessEqual),
            Sign::Less => Some(Item::RightLess),
            Sign::ShiftLeft => Some(Item::RightShiftLeft),
            Sign::ShiftRightSigned => Some(Item::RightShiftRightSigned),
            Sign::ShiftRight => Some(Item::RightShiftRight),
            Sign::Plus => Some(Item::RightPlus),
            Sign::Minus => Some(Item::RightMinus),
            Sign::Times => Some(Item::RightTimes),
            Sign::Divide => Some(Item::RightDivide),
            Sign::Modulo => Some(Item::RightModulo),
            Sign::Power => Some(Item::RightPower),
            Sign::BitNot | Sign::LogicNot => None,
        }
    }

    /// The item that tells a cast by a keyword, where it heads one.
    #[tactic(auto, unfolding(vast_literal::specs::Grammar::is_cast_word))]
    pub(crate) fn cast(key: Key) -> Option<Item>
        ensures { MatchOption result
            (is_cast_word key ≡ false)
            (λ i. (is_cast_word key ≡ true) × (item_view i ≡ Emit (WordCastT key))) }
    {
        match key {
            Key::Logic => Some(Item::MakeLogicCast),
            Key::Signed => Some(Item::MakeSignedCast),
            Key::Unsigned => Some(Item::MakeUnsignedCast),
            Key::Integer => Some(Item::MakeIntegerCast),
            Key::Int => Some(Item::MakeIntCast),
            _ => None,
        }
    }
}
