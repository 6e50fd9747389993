//! Rows: what an item becomes by the next tokens, by as many rows at once as need no look at
//! what is to be read after it.

ghost use Rattle.std.specs.Prelude.{◌≡◌, true, IfOk};
ghost use Rattle.vast_expressions.specs.Events.{Made};
ghost use Rattle.vast_expressions.specs.Internal.Fused.{front};
ghost use Rattle.vast_expressions.specs.Internal.Items.{item_view, IsSign, IsEmit};
ghost use Rattle.vast_expressions.specs.Internal.Steps.{DoesAll};

mod list;
mod mark;
mod operator;
mod primary;
mod select;

use crate::event::{Event, Told};
use crate::item::Item;
use crate::sink::Sink;
use crate::source::Source;
use crate::stack::Stack;
use list::{arguments, brace_next, braces, more};
use mark::take;
use operator::{expression, operand, rest, right};
use primary::{maybe_cast, target, type_name};
use select::{member_name, select_end, selects};
use std::alloc::AllocError;
use vast_literal::{Key, Mark, Sign};

/// What is told with no bytes.
fn make<'t, S: Sink<'t>>(told: Told, sink: &mut S) -> Result<bool, AllocError>
    ensures { IfOk result (λ b. (b ≡ true) × S.hears sink.old (Made told) sink.new) }
{
    sink.tell(Event::Made(told))?;
    Ok(true)
}

/// An item that tells at once.
fn told<'t, R: Source<'t>, S: Sink<'t>>(
    item: Item,
    source: &mut R,
    stack: &mut Stack<Item>,
    sink: &mut S,
) -> Result<bool, AllocError>
    requires { IsEmit (item_view item) }
    ensures { IfOk result (λ b. DoesAll S.hears (front (item_view item)) b (R.left source.old)
        stack.old stack.new (R.left source.new) sink.old sink.new) }
{
    match item {
        Item::MakeTernary => make(Told::Ternary, sink),
        Item::MakeIndex => make(Told::Index, sink),
        Item::MakeSlice => make(Told::Slice, sink),
        Item::MakeNone => make(Told::NoneYet, sink),
        Item::MakeOne => make(Told::One, sink),
        Item::MakePush => make(Told::Push, sink),
        Item::MakeConcat => make(Told::Concat, sink),
        Item::MakePattern => make(Told::Pattern, sink),
        Item::MakeReplicated => make(Told::Replicated, sink),
        Item::MakeCall => make(Told::Call, sink),
        Item::MakeMacroCall => make(Told::MacroCall, sink),
        Item::MakeCast => make(Told::Cast, sink),
        Item::MakePackageCast => make(Told::PackageCast, sink),
        Item::MakeUnaryMinus => make(Told::Unary(Sign::Minus), sink),
        Item::MakeUnaryBitNot => make(Told::Unary(Sign::BitNot), sink),
        Item::MakeUnaryLogicNot => make(Told::Unary(Sign::LogicNot), sink),
        Item::MakeUnaryBitAnd => make(Told::Unary(Sign::BitAnd), sink),
        Item::MakeUnaryBitOr => make(Told::Unary(Sign::BitOr), sink),
        Item::MakeUnaryBitXor => make(Told::Unary(Sign::BitXor), sink),
        Item::MakeLogicCast => make(Told::WordCast(Key::Logic), sink),
        Item::MakeSignedCast => make(Told::WordCast(Key::Signed), sink),
        Item::MakeUnsignedCast => make(Told::WordCast(Key::Unsigned), sink),
        Item::MakeIntegerCast => make(Told::WordCast(Key::Integer), sink),
        Item::MakeIntCast => make(Told::WordCast(Key::Int), sink),
        _ => Ok(false),
    }
}

/// An item that tells, at once or after its right side.
fn sign<'t, R: Source<'t>, S: Sink<'t>>(
    item: Item,
    source: &mut R,
    stack: &mut Stack<Item>,
    sink: &mut S,
) -> Result<bool, AllocError>
    requires { IsSign (item_view item) }
    ensures { IfOk result (λ b. DoesAll S.hears (front (item_view item)) b (R.left source.old)
        stack.old stack.new (R.left source.new) sink.old sink.new) }
{
    match item {
        Item::RightLogicOr => right(Sign::LogicOr, item, source, stack, sink),
        Item::RightLogicAnd => right(Sign::LogicAnd, item, source, stack, sink),
        Item::RightBitOr => right(Sign::BitOr, item, source, stack, sink),
        Item::RightBitXor => right(Sign::BitXor, item, source, stack, sink),
        Item::RightBitAnd => right(Sign::BitAnd, item, source, stack, sink),
        Item::RightNotEqual => right(Sign::NotEqual, item, source, stack, sink),
        Item::RightCaseNotEqual => right(Sign::CaseNotEqual, item, source, stack, sink),
        Item::RightEqual => right(Sign::Equal, item, source, stack, sink),
        Item::RightCaseEqual => right(Sign::CaseEqual, item, source, stack, sink),
        Item::RightGreaterEqual => right(Sign::GreaterEqual, item, source, stack, sink),
        Item::RightGreater => right(Sign::Greater, item, source, stack, sink),
        Item::RightLessEqual => right(Sign::LessEqual, item, source, stack, sink),
        Item::RightLess => right(Sign::Less, item, source, stack, sink),
        Item::RightShiftLeft => right(Sign::ShiftLeft, item, source, stack, sink),
        Item::RightShiftRightSigned => right(Sign::ShiftRightSigned, item, source, stack, sink),
        Item::RightShiftRight => right(Sign::ShiftRight, item, source, stack, sink),
        Item::RightPlus => right(Sign::Plus, item, source, stack, sink),
        Item::RightMinus => right(Sign::Minus, item, source, stack, sink),
        Item::RightTimes => right(Sign::Times, item, source, stack, sink),
        Item::RightDivide => right(Sign::Divide, item, source, stack, sink),
        Item::RightModulo => right(Sign::Modulo, item, source, stack, sink),
        Item::RightPower => right(Sign::Power, item, source, stack, sink),
        _ => told(item, source, stack, sink),
    }
}

/// The rows of an item.
pub(crate) fn row<'t, R: Source<'t>, S: Sink<'t>>(
    item: Item,
    source: &mut R,
    stack: &mut Stack<Item>,
    sink: &mut S,
) -> Result<bool, AllocError>
    ensures { IfOk result (λ b. DoesAll S.hears (front (item_view item)) b (R.left source.old)
        stack.old stack.new (R.left source.new) sink.old sink.new) }
{
    match item {
        Item::Expression => expression(source, stack, sink),
        Item::Target => target(source, stack, sink),
        Item::Operand => operand(source, stack, sink),
        Item::Selects => selects(source, stack, sink),
        Item::SelectEnd => select_end(source, stack, sink),
        Item::MemberName => member_name(source, stack, sink),
        Item::MaybeCast => maybe_cast(source, stack, sink),
        Item::TypeName => type_name(source, stack, sink),
        Item::Braces => braces(source, stack, sink),
        Item::BraceNext => brace_next(source, stack, sink),
        Item::ArgumentsParen => arguments(Mark::CloseParen, Item::MoreParen, source, stack, sink),
        Item::ArgumentsBrace => arguments(Mark::CloseBrace, Item::MoreBrace, source, stack, sink),
        Item::MoreParen => more(Mark::CloseParen, Item::MoreParen, source, stack, sink),
        Item::MoreBrace => more(Mark::CloseBrace, Item::MoreBrace, source, stack, sink),
        Item::Rest => rest(source, stack, sink),
        Item::TakeOpenParen => take(Mark::OpenParen, source, stack, sink),
        Item::TakeCloseParen => take(Mark::CloseParen, source, stack, sink),
        Item::TakeCloseBracket => take(Mark::CloseBracket, source, stack, sink),
        Item::TakeOpenBrace => take(Mark::OpenBrace, source, stack, sink),
        Item::TakeCloseBrace => take(Mark::CloseBrace, source, stack, sink),
        Item::TakeColon => take(Mark::Colon, source, stack, sink),
        Item::TakeApostrophe => take(Mark::Apostrophe, source, stack, sink),
        _ => sign(item, source, stack, sink),
    }
}
