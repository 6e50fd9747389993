//! A line of a list as a packed call.

use crate::arguments::{Arguments, FromArguments, Known, Rest};
use crate::from_arguments::Count;
use crate::line::{split_line, text_of};
use crate::packed::{Choice, folded, push_number};
use crate::problem::{Misfit, Problem};
use crate::table::numbered::{number_of, row_of};
use crate::table::{Item, Kind, Range};

/// Appends the line's call to the bytes, without how many it has.
///
/// # Errors
/// Where the line is not in the form, and out of memory.
pub fn pack_line(known: Known<'_>, line: &[u8], bytes: &mut Vec<u8>) -> Result<(), Misfit> {
    let text = text_of(line)?;
    let (_, call, rest) = split_line(text);
    let (Some(place), Some(row)) = (number_of(call), row_of(call)) else {
        return Err(Misfit {
            left: text.len(),
            problem: Problem::UnknownCall,
        });
    };
    push_number(bytes, place)?;
    let mut arguments = Arguments::new(known, Rest::Words(rest));
    for parameter in row.parameters() {
        pack(&mut arguments, parameter.kind(), bytes)?;
    }
    arguments.none(())
}

/// Appends the next argument to the bytes.
fn pack(arguments: &mut Arguments<'_>, kind: Kind, bytes: &mut Vec<u8>) -> Result<(), Misfit> {
    match kind {
        Kind::One(item) => pack_item(arguments, item, bytes),
        Kind::Optional(item) => pack_optional(arguments, item, bytes),
        Kind::List(item) => pack_items(arguments, item, false, bytes),
        Kind::ListOfOptional(item) => pack_items(arguments, item, true, bytes),
        Kind::Nothing => Ok(()),
    }
}

fn pack_optional(
    arguments: &mut Arguments<'_>,
    item: Item,
    bytes: &mut Vec<u8>,
) -> Result<(), Misfit> {
    let is_some = arguments.sign()?;
    bytes.push(u8::from(is_some))?;
    if is_some {
        pack_item(arguments, item, bytes)
    } else {
        Ok(())
    }
}

/// Appends how many items there are, and each.
fn pack_items(
    arguments: &mut Arguments<'_>,
    item: Item,
    is_optional: bool,
    bytes: &mut Vec<u8>,
) -> Result<(), Misfit> {
    arguments.items()?;
    let mut items = Vec::new(arguments.allocator());
    let mut count: usize = 0;
    for _ in 0..arguments.bytes_left() {
        if arguments.skip("]") {
            push_number(bytes, count)?;
            bytes.extend_from_slice(&items)?;
            return Ok(());
        }
        if is_optional {
            pack_optional(arguments, item, &mut items)?;
        } else {
            pack_item(arguments, item, &mut items)?;
        }
        count = count.saturating_add(1);
    }
    Err(arguments.misfit(Problem::OpenList))
}

fn pack_item(arguments: &mut Arguments<'_>, item: Item, bytes: &mut Vec<u8>) -> Result<(), Misfit> {
    match item {
        Item::Handle(_) => pack_handle(arguments, bytes),
        Item::Text => {
            let text = arguments.text()?;
            push_number(bytes, text.len())?;
            bytes.extend_from_slice(text.as_bytes())?;
            Ok(())
        }
        Item::Truth => pack_word(arguments, Choice::Truth, bytes),
        Item::Integer(range) => pack_integer(arguments, range, bytes),
        Item::Word(words) => pack_word(arguments, words.choice(), bytes),
        Item::Reset => {
            arguments.open()?;
            pack_handle(arguments, bytes)?;
            pack_word(arguments, Choice::Truth, bytes)?;
            arguments.close()
        }
        Item::Register => pack_register(arguments, bytes),
        Item::Port => Ok(()),
    }
}

fn pack_register(arguments: &mut Arguments<'_>, bytes: &mut Vec<u8>) -> Result<(), Misfit> {
    arguments.open()?;
    pack_handle(arguments, bytes)?;
    pack_handle(arguments, bytes)?;
    for _ in 0..2 {
        let is_some = arguments.sign()?;
        bytes.push(u8::from(is_some))?;
        if is_some {
            pack_handle(arguments, bytes)?;
        }
    }
    arguments.close()
}

/// Where no line was passed over, the place among the answers is the step's number.
fn pack_handle(arguments: &mut Arguments<'_>, bytes: &mut Vec<u8>) -> Result<(), Misfit> {
    let place = usize::take(arguments)?;
    push_number(bytes, place)?;
    Ok(())
}

fn pack_integer(
    arguments: &mut Arguments<'_>,
    range: Range,
    bytes: &mut Vec<u8>,
) -> Result<(), Misfit> {
    let number = match range {
        Range::I32 => folded(i64::from(i32::take(arguments)?)),
        Range::I64 => folded(i64::take(arguments)?),
        Range::Usize => Count::take(arguments)?.0,
    };
    push_number(bytes, number)?;
    Ok(())
}

/// Appends the place of the next word among those that may stand there.
fn pack_word(
    arguments: &mut Arguments<'_>,
    choice: Choice,
    bytes: &mut Vec<u8>,
) -> Result<(), Misfit> {
    let (left, word) = arguments.choice_at(choice)?;
    match choice.words().iter().position(|known| *known == word) {
        Some(place) => {
            push_number(bytes, place)?;
            Ok(())
        }
        None => {
            let problem = choice.problem();
            Err(Misfit { left, problem })
        }
    }
}
