//! Operators and marks.

ghost use Rattle.std.specs.Prelude.{◌≡◌, ◌<◌, true, cond, eqb, Some, None, option_map, IfSome};
ghost use Rattle.vast_literal.specs.Scan.{InComment, Pending, keep, whole_signs, find_sign, start_sign, grown};
ghost use Rattle.vast_literal.specs.Tokens.{Operator};
ghost use Rattle.vast_literal.specs.declared.token.Sign.TheVariants.{Divide};
ghost use Rattle.vast_literal.specs.Tokens as spec;
ghost use Rattle.vast_expressions.specs.Internal.Views.{token_view};
ghost use Rattle.vast_read.specs.Internal.Scanner.{byte_at, Fronts, IsGap, growth_step, growth_or_fail, starts_sign, Reaches};

use crate::scanner::class::Class;
use crate::scanner::front::Front;
use crate::scanner::run::{byte_at, run_end};
use vast_expressions::Token;
use vast_literal::{Mark, Sign};

/// What a further byte makes of a sign.
#[derive(Clone, Copy)]
pub(crate) enum Growth<'t> {
    /// A sign that may grow.
    Open(Token<'t>),
    /// A sign that no byte makes longer.
    Closed(Token<'t>),
    /// The beginning of a comment.
    Comment,
}

/// The sign that a byte begins.
fn first_sign<'t>(byte: u8) -> Option<Growth<'t>>
    ensures growth { growth_or_fail result ≡ start_sign (find_sign whole_signs byte) byte }
    ensures byte { IfSome result (λ _. byte < 128) }
{
    match byte {
        b'(' => Some(Growth::Closed(Token::Mark(Mark::OpenParen))),
        b')' => Some(Growth::Closed(Token::Mark(Mark::CloseParen))),
        b'[' => Some(Growth::Closed(Token::Mark(Mark::OpenBracket))),
        b']' => Some(Growth::Closed(Token::Mark(Mark::CloseBracket))),
        b'{' => Some(Growth::Closed(Token::Mark(Mark::OpenBrace))),
        b'}' => Some(Growth::Closed(Token::Mark(Mark::CloseBrace))),
        b',' => Some(Growth::Closed(Token::Mark(Mark::Comma))),
        b';' => Some(Growth::Closed(Token::Mark(Mark::Semicolon))),
        b'.' => Some(Growth::Closed(Token::Mark(Mark::Dot))),
        b'#' => Some(Growth::Closed(Token::Mark(Mark::Hash))),
        b'@' => Some(Growth::Closed(Token::Mark(Mark::At))),
        b'?' => Some(Growth::Closed(Token::Mark(Mark::Question))),
        b'^' => Some(Growth::Closed(Token::Operator(Sign::BitXor))),
        b'-' => Some(Growth::Closed(Token::Operator(Sign::Minus))),
        b'%' => Some(Growth::Closed(Token::Operator(Sign::Modulo))),
        b'~' => Some(Growth::Closed(Token::Operator(Sign::BitNot))),
        b':' => Some(Growth::Open(Token::Mark(Mark::Colon))),
        b'=' => Some(Growth::Open(Token::Mark(Mark::Assign))),
        b'!' => Some(Growth::Open(Token::Operator(Sign::LogicNot))),
        b'<' => Some(Growth::Open(Token::Operator(Sign::Less))),
        b'>' => Some(Growth::Open(Token::Operator(Sign::Greater))),
        b'&' => Some(Growth::Open(Token::Operator(Sign::BitAnd))),
        b'|' => Some(Growth::Open(Token::Operator(Sign::BitOr))),
        b'+' => Some(Growth::Open(Token::Operator(Sign::Plus))),
        b'*' => Some(Growth::Open(Token::Operator(Sign::Times))),
        b'/' => Some(Growth::Open(Token::Operator(Sign::Divide))),
        _ => None,
    }
}

/// What one byte, and it alone, makes of a sign.
fn longer_by<'t>(wanted: u8, longer: Growth<'t>, byte: u8) -> Option<Growth<'t>>
    requires { (32 < wanted) × (wanted < 128) }
    ensures growth { option_map growth_step result
        ≡ cond (eqb byte wanted) (Some (growth_step longer.entry)) None }
    ensures byte { IfSome result (λ _. (32 < byte) × (byte < 128)) }
{
    if byte == wanted { Some(longer) } else { None }
}

/// What a byte makes of an operator.
fn grown_operator<'t>(sign: Sign, byte: u8) -> Option<Growth<'t>>
    ensures growth { option_map growth_step result ≡ grown (Operator sign) byte }
    ensures byte { IfSome result (λ _. (32 < byte) × (byte < 128)) }
{
    match sign {
        Sign::BitOr => longer_by(b'|', Growth::Closed(Token::Operator(Sign::LogicOr)), byte),
        Sign::BitAnd => longer_by(b'&', Growth::Closed(Token::Operator(Sign::LogicAnd)), byte),
        Sign::NotEqual => longer_by(
            b'=',
            Growth::Closed(Token::Operator(Sign::CaseNotEqual)),
            byte,
        ),
        Sign::Equal => longer_by(b'=', Growth::Closed(Token::Operator(Sign::CaseEqual)), byte),
        Sign::Greater => {
            if byte == b'=' {
                Some(Growth::Closed(Token::Operator(Sign::GreaterEqual)))
            } else {
                longer_by(b'>', Growth::Open(Token::Operator(Sign::ShiftRight)), byte)
            }
        }
        Sign::Less => {
            if byte == b'=' {
                Some(Growth::Closed(Token::Operator(Sign::LessEqual)))
            } else {
                longer_by(b'<', Growth::Closed(Token::Operator(Sign::ShiftLeft)), byte)
            }
        }
        Sign::ShiftRight => {
            longer_by(
                b'>',
                Growth::Closed(Token::Operator(Sign::ShiftRightSigned)),
                byte,
            )
        }
        Sign::Plus => longer_by(b':', Growth::Closed(Token::Mark(Mark::PlusColon)), byte),
        Sign::Times => longer_by(b'*', Growth::Closed(Token::Operator(Sign::Power)), byte),
        Sign::Divide => longer_by(b'/', Growth::Comment, byte),
        Sign::LogicNot => longer_by(b'=', Growth::Open(Token::Operator(Sign::NotEqual)), byte),
        _ => None,
    }
}

/// What a byte makes of a mark.
fn grown_mark<'t>(mark: Mark, byte: u8) -> Option<Growth<'t>>
    ensures growth { option_map growth_step result ≡ grown (spec.Mark mark) byte }
    ensures byte { IfSome result (λ _. (32 < byte) × (byte < 128)) }
{
    match mark {
        Mark::Colon => longer_by(b':', Growth::Closed(Token::Mark(Mark::DoubleColon)), byte),
        Mark::Assign => longer_by(b'=', Growth::Open(Token::Operator(Sign::Equal)), byte),
        _ => None,
    }
}

/// What a byte makes of a sign.
fn grown<'t>(sign: Token<'t>, byte: u8) -> Option<Growth<'t>>
    ensures growth { option_map growth_step result ≡ grown (token_view sign.entry) byte }
    ensures byte { IfSome result (λ _. (32 < byte) × (byte < 128)) }
{
    match sign {
        Token::Operator(operator) => grown_operator(operator, byte),
        Token::Mark(mark) => grown_mark(mark, byte),
        _ => None,
    }
}

/// A comment, whose two slashes end at a place.
fn comment<'t>(text: &'t str, place: usize) -> Front<'t>
    requires { Reaches text.now place (keep InComment) }
    ensures front { Fronts result text.now }
    ensures gap { IsGap result }
{
    let end = run_end(text, place, Class::Line);
    Front::Gap(&text[end..])
}

/// The sign, or the comment, that the bytes before a place lead to.
fn sign_from<'t>(text: &'t str, place: usize, growth: Growth<'t>) -> Front<'t>
    requires { Reaches text.now place (growth_step growth) }
    ensures front { Fronts result text.now }
    ensures comment { growth_step growth.entry ≡ keep InComment → IsGap result }
    ensures slashes { growth_step growth.entry ≡ keep (Pending (Operator Divide)) →
        byte_at text.now place ≡ 47 → IsGap result }
{
    match growth {
        Growth::Closed(token) => Front::Token(token, &text[place..]),
        Growth::Comment => comment(text, place),
        Growth::Open(token) => match grown(token, byte_at(text, place)) {
            Some(longer) => sign_from(text, place + 1, longer),
            None => Front::Token(token, &text[place..]),
        },
    }
}

/// A sign or a comment.
pub(crate) fn sign<'t>(text: &'t str) -> Front<'t>
    requires { starts_sign (byte_at text.now 0) ≡ true }
    ensures front { Fronts result text.now }
    ensures comment { byte_at text.now 0 ≡ 47 → byte_at text.now 1 ≡ 47 → IsGap result }
{
    match first_sign(byte_at(text, 0)) {
        Some(growth) => sign_from(text, 1, growth),
        None => Front::Unspelled,
    }
}
