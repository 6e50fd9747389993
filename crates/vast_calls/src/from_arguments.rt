//! What may stand as an argument.

ghost use Rattle.std.specs.Prelude.{◌≡◌, ◌≢◌, [], ◌∷◌, ◌++◌, Ok, IfOk, IsTrue, slice_index, length};
ghost use Rattle.std.specs.List.{flat_map};
ghost use Rattle.vast_calls.specs.CallArguments.{End, count, format, kind, listed, number, optional, place, text, truth};
ghost use Rattle.vast_calls.specs.Internal.Written.{IsAnswered, IsCountWord, IsHandleWord, IsIntegerWord, Reads};

use crate::arguments::{Arguments, FromArguments, SKIPPED};
use crate::names::{Named, is_name};
use crate::packed::{Choice, unfolded};
use crate::problem::{Misfit, Problem};
use std::str::FromStr;
use vast_literal::{DataKind, LiteralFormat};

/// A plain number that is no handle and has no sign.
#[derive(Clone, Copy)]
pub(crate) struct Count(pub(crate) usize);

fn is_digits(word: &str) -> bool
    ensures { IsTrue result → slice_index word.now 0 ≢ 43 }
{
    !word.is_empty() && word.bytes().all(|byte| byte.is_ascii_digit())
}

/// An optional minus and digits.
#[tactic(auto, using(crate::proofs::Words::numerals))]
fn is_signed(word: &str) -> bool
    ensures { IsTrue result → slice_index word.now 0 ≢ 43 }
{
    match word.strip_prefix('-') {
        Some(digits) => is_digits(digits),
        None => is_digits(word),
    }
}

/// Why this is no number: an empty word is a space too many.
fn no_number(word: &str, other: Problem) -> Problem {
    if word.is_empty() {
        Problem::Space
    } else if is_name(word) {
        Problem::NameForNumber
    } else {
        other
    }
}

fn parsed<N: FromStr>(word: &str) -> Result<N, Problem>
where
    N::Err: Drop,
    ensures { IfOk result (λ number. N.from_str_gives word.now (Ok number)) }
{
    match word.parse::<N>() {
        Ok(number) => Ok(number),
        Err(_) => Err(Problem::OutOfRange),
    }
}

/// The number that the answer of the question of this name is.
fn answered(arguments: &Arguments<'_>, name: &str) -> Result<i64, Problem>
    ensures { IfOk result (IsAnswered arguments.now name.now) }
{
    match arguments.named(name) {
        Some(Named::Number(number)) => Ok(number),
        Some(Named::Other) => Err(Problem::AnswerNoNumber),
        Some(Named::Handle(_)) => Err(Problem::NameOfHandle),
        Some(Named::Skipped) => Err(Problem::Skipped),
        None => Err(Problem::NameUnknown),
    }
}

/// A number that may have a sign, or the answer of a question that has a name.
#[tactic(auto, using(crate::proofs::Words::numerals))]
fn signed(arguments: &Arguments<'_>, word: &str) -> Result<i64, Problem>
    ensures { IfOk result (IsIntegerWord arguments.now word.now) }
{
    match word.strip_prefix('?') {
        Some(name) => answered(arguments, name),
        None if is_signed(word) => parsed(word),
        None => Err(no_number(word, Problem::NoNumber)),
    }
}

/// The same within 32 bits.
fn narrow(arguments: &Arguments<'_>, word: &str) -> Result<i32, Problem>
    ensures { IfOk result (IsIntegerWord arguments.now word.now) }
{
    match i32::try_from(signed(arguments, word)?) {
        Ok(number) => Ok(number),
        Err(_) => Err(Problem::OutOfRange),
    }
}

/// A number without a sign, or the answer of a question that has a name.
#[tactic(auto, using(crate::proofs::Words::numerals))]
fn unsigned(arguments: &Arguments<'_>, word: &str) -> Result<usize, Problem>
    ensures { IfOk result (IsCountWord arguments.now word.now) }
{
    match word.strip_prefix('?') {
        Some(name) => match usize::try_from(answered(arguments, name)?) {
            Ok(number) => Ok(number),
            Err(_) => Err(Problem::OutOfRange),
        },
        None if is_digits(word) => parsed(word),
        None => Err(no_number(word, Problem::NoNumber)),
    }
}

/// The place among the answers that a name or the number of a step stands for.
#[tactic(auto, using(crate::proofs::Words::numerals))]
pub(crate) fn handle(arguments: &Arguments<'_>, word: &str) -> Result<usize, Problem>
    ensures { IfOk result (IsHandleWord arguments.now word.now) }
{
    if is_digits(word) {
        return Ok(arguments.place(parsed(word)?));
    }
    if !is_name(word) {
        return Err(no_number(word, Problem::NoHandle));
    }
    match arguments.named(word) {
        Some(Named::Handle(place)) => Ok(place),
        Some(Named::Skipped) => Ok(SKIPPED),
        Some(Named::Number(_)) => Err(Problem::NameOfQuestion),
        Some(Named::Other) => Err(Problem::NameOfQuestion),
        None => Err(Problem::NameUnknown),
    }
}

/// The number of a step, or the name of one.
impl FromArguments for usize {
    ghost pieces = { place };

    #[inline(always)]
    #[tactic(auto, using(crate::proofs::Words::pieces))]
    fn take(arguments: &mut Arguments<'_>) -> Result<usize, Misfit> {
        if arguments.is_packed() {
            let number = arguments.number()?;
            return Ok(arguments.place(number));
        }
        written_place(arguments)
    }
}

/// The next handle of a line.
#[inline(never)]
#[tactic(auto, using(crate::proofs::Words::pieces))]
fn written_place(arguments: &mut Arguments<'_>) -> Result<usize, Misfit>
    ensures { IfOk result (λ at. Reads arguments.old arguments.new (place at)) }
{
    let (left, word) = arguments.word_at()?;
    handle(arguments, word).map_err(|problem| Misfit { left, problem })
}

impl FromArguments for Count {
    ghost pieces = { λ n. count n.0 };

    #[tactic(auto, using(crate::proofs::Words::pieces))]
    fn take(arguments: &mut Arguments<'_>) -> Result<Count, Misfit> {
        if arguments.is_packed() {
            return Ok(Count(arguments.number()?));
        }
        let (left, word) = arguments.word_at()?;
        match unsigned(arguments, word) {
            Ok(number) => Ok(Count(number)),
            Err(problem) => Err(Misfit { left, problem }),
        }
    }
}

impl FromArguments for i64 {
    ghost pieces = { number };

    #[tactic(auto, using(crate::proofs::Words::pieces))]
    fn take(arguments: &mut Arguments<'_>) -> Result<i64, Misfit> {
        if arguments.is_packed() {
            return packed_integer(arguments);
        }
        let (left, word) = arguments.word_at()?;
        signed(arguments, word).map_err(|problem| Misfit { left, problem })
    }
}

/// The next number with a sign of a packed call.
#[tactic(auto, using(crate::proofs::PackedWords::numbers))]
fn packed_integer(arguments: &mut Arguments<'_>) -> Result<i64, Misfit>
    ensures { IfOk result (λ z. Reads arguments.old arguments.new (number z)) }
{
    Ok(unfolded(arguments.number()?))
}

impl FromArguments for i32 {
    ghost pieces = { number };

    #[tactic(auto, using(crate::proofs::Words::pieces))]
    fn take(arguments: &mut Arguments<'_>) -> Result<i32, Misfit> {
        if arguments.is_packed() {
            let left = arguments.bytes_left();
            return match i32::try_from(packed_integer(arguments)?) {
                Ok(number) => Ok(number),
                Err(_) => Err(Misfit {
                    left,
                    problem: Problem::OutOfRange,
                }),
            };
        }
        let (left, word) = arguments.word_at()?;
        narrow(arguments, word).map_err(|problem| Misfit { left, problem })
    }
}

impl FromArguments for bool {
    ghost pieces = { truth };

    #[tactic(auto, using(crate::proofs::Words::pieces))]
    fn take(arguments: &mut Arguments<'_>) -> Result<bool, Misfit> {
        let (left, word) = arguments.choice_at(Choice::Truth)?;
        match word {
            "true" => Ok(true),
            "false" => Ok(false),
            _ => Err(Misfit {
                left,
                problem: Problem::NoTruth,
            }),
        }
    }
}

impl FromArguments for String {
    ghost pieces = { text };

    #[tactic(auto, using(crate::proofs::Words::pieces))]
    fn take(arguments: &mut Arguments<'_>) -> Result<String, Misfit> {
        arguments.text()
    }
}

/// Two values, one after the other.
impl<A: FromArguments, B: FromArguments> FromArguments for (A, B) {
    ghost pieces = { λ pair. A.pieces pair.0 ++ B.pieces pair.1 };

    #[inline(always)]
    #[tactic(auto, using(crate::proofs::Words::reads_then))]
    fn take(arguments: &mut Arguments<'_>) -> Result<(A, B), Misfit> {
        let first = A::take(arguments)?;
        let second = B::take(arguments)?;
        Ok((first, second))
    }
}

impl<T: FromArguments> FromArguments for Vec<T> {
    ghost pieces = { λ items. listed T.pieces items.items };

    #[tactic(auto, using(crate::proofs::Words::lists))]
    fn take(arguments: &mut Arguments<'_>) -> Result<Vec<T>, Misfit> {
        match arguments.items()? {
            None => Ok(items_up_to_end(arguments)?),
            Some(count) => Ok(counted_items(arguments, count)?),
        }
    }
}

/// The items of a list in a line, up to its end.
#[tactic(auto, using(crate::proofs::Words::lists))]
fn items_up_to_end<T: FromArguments>(arguments: &mut Arguments<'_>) -> Result<Vec<T>, Misfit>
    ensures { IfOk result (λ items. Reads arguments.old arguments.new
        (flat_map T.pieces items.items ++ End ∷ [])) }
{
    let mut items = Vec::new(arguments.allocator());
    // An item takes a word at least.
    for _ in 0..arguments.bytes_left() {
        if arguments.skip("]") {
            return Ok(items);
        }
        if arguments.bytes_left() == 0 {
            break;
        }
        items.push(T::take(arguments)?)?;
    }
    Err(arguments.misfit(Problem::OpenList))
}

/// So many items, and the end of a list.
#[tactic(auto, using(crate::proofs::Words::lists))]
fn counted_items<T: FromArguments>(
    arguments: &mut Arguments<'_>,
    count: usize,
) -> Result<Vec<T>, Misfit>
    ensures count { IfOk result (λ items. length items.items ≡ count) }
    ensures read { IfOk result (λ items. Reads arguments.old arguments.new
        (flat_map T.pieces items.items ++ End ∷ [])) }
{
    let mut items = Vec::new(arguments.allocator());
    for _ in 0..count {
        items.push(T::take(arguments)?)?;
    }
    arguments.close()?;
    Ok(items)
}

impl<T: FromArguments> FromArguments for Option<T> {
    ghost pieces = { optional T.pieces };

    #[tactic(auto, using(crate::proofs::Words::pieces))]
    fn take(arguments: &mut Arguments<'_>) -> Result<Option<T>, Misfit> {
        if arguments.sign()? {
            Ok(Some(T::take(arguments)?))
        } else {
            Ok(None)
        }
    }
}

impl FromArguments for LiteralFormat {
    ghost pieces = { format };

    #[tactic(auto, using(crate::proofs::Words::pieces))]
    fn take(arguments: &mut Arguments<'_>) -> Result<LiteralFormat, Misfit> {
        let (left, word) = arguments.choice_at(Choice::Format)?;
        match word {
            "Binary" => Ok(LiteralFormat::Binary),
            "Hex" => Ok(LiteralFormat::Hex),
            "SignedDecimal" => Ok(LiteralFormat::SignedDecimal),
            "UnsignedDecimal" => Ok(LiteralFormat::UnsignedDecimal),
            "UnsizedBinary" => Ok(LiteralFormat::UnsizedBinary),
            "UnsizedDecimal" => Ok(LiteralFormat::UnsizedDecimal),
            "UnsizedHex" => Ok(LiteralFormat::UnsizedHex),
            _ => Err(Misfit {
                left,
                problem: Problem::NoFormat,
            }),
        }
    }
}

impl FromArguments for DataKind {
    ghost pieces = { kind };

    #[tactic(auto, using(crate::proofs::Words::pieces))]
    fn take(arguments: &mut Arguments<'_>) -> Result<DataKind, Misfit> {
        let (left, word) = arguments.choice_at(Choice::Kind)?;
        match word {
            "Reg" => Ok(DataKind::Reg),
            "Wire" => Ok(DataKind::Wire),
            "Logic" => Ok(DataKind::Logic),
            "Integer" => Ok(DataKind::Integer),
            "Int" => Ok(DataKind::Int),
            "User" => Ok(DataKind::User),
            "UntypedEnum" => Ok(DataKind::UntypedEnum),
            "Genvar" => Ok(DataKind::Genvar),
            _ => Err(Misfit {
                left,
                problem: Problem::NoKind,
            }),
        }
    }
}
