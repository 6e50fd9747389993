//! The table as JSON, from which bindings can be made.

use super::described::HANDLES;
use super::numbered::GROUPS;
use super::{CallRow, Group, Handle, Item, Kind, Parameter, Range, Words, groups};
use std::alloc::{AllocError, Global};
use std::fmt::Write;

/// The kinds of handles and all calls as one value of JSON, a line for each.
///
/// All names are ASCII without quotes and backslashes, so they are written as they are.
pub fn calls_json(alloc: Global) -> Result<String, AllocError> {
    let mut text = String::from_str(alloc, "{\"kinds\":[")?;
    push_handles(&mut text)?;
    text.push_str("],\n\"calls\":[")?;
    for (place, group) in groups().iter().enumerate() {
        push_group(place, group, &mut text)?;
    }
    text.push_str("]}\n")?;
    Ok(text)
}

fn push_handles(text: &mut String) -> Result<(), AllocError> {
    for handle in HANDLES {
        separate(text)?;
        text.push('\n')?;
        push_handle(handle, text)?;
    }
    Ok(())
}

fn push_handle(handle: Handle, text: &mut String) -> Result<(), AllocError> {
    write!(
        text,
        "{{\"kind\":\"{}\",\"rust\":\"{}\",\"takes\":[",
        handle.word(),
        handle.rust()
    )?;
    if handle.is_answer() {
        push_word(handle.word(), text)?;
    }
    for other in handle.others() {
        push_word(other.word(), text)?;
    }
    text.push_str("]}")
}

/// A comma, but for the first of a list.
fn separate(text: &mut String) -> Result<(), AllocError> {
    if text.ends_with('[') {
        Ok(())
    } else {
        text.push(',')
    }
}

/// One word more of a list.
fn push_word(word: &str, text: &mut String) -> Result<(), AllocError> {
    separate(text)?;
    text.push('"')?;
    text.push_str(word)?;
    text.push('"')
}

/// The calls of the group of this place, with their numbers.
fn push_group(place: usize, group: &Group, text: &mut String) -> Result<(), AllocError> {
    let mut number = place;
    for call in group.calls {
        separate(text)?;
        text.push('\n')?;
        push_call(number, group.name, call, text)?;
        number = number.saturating_add(GROUPS);
    }
    Ok(())
}

fn push_call(
    number: usize,
    group: &str,
    call: &CallRow,
    text: &mut String,
) -> Result<(), AllocError> {
    write!(
        text,
        "{{\"call\":\"{}\",\"number\":{number},\"group\":\"{group}\",\"method\":\"",
        call.name()
    )?;
    push_method(call.name(), text)?;
    text.push_str("\",\"parameters\":[")?;
    push_parameters(call.parameters(), text)?;
    text.push_str("],\"answer\":")?;
    push_kind(call.answer(), text)?;
    text.push('}')
}

/// The name of the method: `AddInput` is `add_input`, a sign before it is left out.
fn push_method(name: &str, text: &mut String) -> Result<(), AllocError> {
    let mut is_inside = false;
    for c in name.chars() {
        if c.is_ascii_uppercase() && is_inside {
            text.push('_')?;
        }
        if c.is_ascii_alphanumeric() {
            text.push(c.to_ascii_lowercase())?;
            is_inside = true;
        }
    }
    Ok(())
}

fn push_parameters(parameters: &[Parameter], text: &mut String) -> Result<(), AllocError> {
    for parameter in parameters {
        separate(text)?;
        write!(text, "{{\"name\":\"{}\",\"type\":", parameter.name())?;
        push_kind(parameter.kind(), text)?;
        text.push('}')?;
    }
    Ok(())
}

fn push_kind(kind: Kind, text: &mut String) -> Result<(), AllocError> {
    match kind {
        Kind::One(item) => push_item(item, text),
        Kind::List(item) => {
            text.push_str("{\"form\":\"list\",\"of\":")?;
            push_item(item, text)?;
            text.push('}')
        }
        Kind::Optional(item) => {
            text.push_str("{\"form\":\"optional\",\"of\":")?;
            push_item(item, text)?;
            text.push('}')
        }
        Kind::ListOfOptional(item) => {
            text.push_str("{\"form\":\"list\",\"of\":{\"form\":\"optional\",\"of\":")?;
            push_item(item, text)?;
            text.push_str("}}")
        }
        Kind::Nothing => text.push_str("{\"form\":\"nothing\"}"),
    }
}

fn push_item(item: Item, text: &mut String) -> Result<(), AllocError> {
    match item {
        Item::Handle(handle) => {
            text.push_str("{\"form\":\"handle\",\"of\":\"")?;
            text.push_str(handle.word())?;
            text.push_str("\"}")
        }
        Item::Text => text.push_str("{\"form\":\"text\"}"),
        Item::Truth => text.push_str("{\"form\":\"truth\"}"),
        Item::Integer(range) => text.push_str(range_json(range)),
        Item::Word(words) => push_words(words, text),
        Item::Reset => text.push_str(RESET),
        Item::Register => text.push_str(REGISTER),
        Item::Port => text.push_str(PORT),
    }
}

fn range_json(range: Range) -> &'static str {
    match range {
        Range::I32 => "{\"form\":\"integer\",\"min\":-2147483648,\"max\":2147483647}",
        Range::I64 => {
            "{\"form\":\"integer\",\"min\":-9223372036854775808,\"max\":9223372036854775807}"
        }
        Range::Usize => "{\"form\":\"integer\",\"min\":0,\"max\":18446744073709551615}",
    }
}

fn push_words(words: Words, text: &mut String) -> Result<(), AllocError> {
    let name = match words {
        Words::Format => "LiteralFormat",
        Words::DataKind => "DataKind",
    };
    write!(text, "{{\"form\":\"word\",\"of\":\"{name}\",\"words\":[")?;
    for word in words.choice().words() {
        push_word(word, text)?;
    }
    text.push_str("]}")
}

const RESET: &str =
    r#"{"form":"group","of":"Reset","fields":[{"name":"signal","type":{"form":"handle","of":"expression"}},{"name":"active_low","type":{"form":"truth"}}]}"#;

const REGISTER: &str =
    r#"{"form":"group","of":"RegisterDefinition","fields":[{"name":"reg","type":{"form":"handle","of":"expression"}},{"name":"next","type":{"form":"handle","of":"expression"}},{"name":"reset_value","type":{"form":"optional","of":{"form":"handle","of":"expression"}}},{"name":"enable","type":{"form":"optional","of":{"form":"handle","of":"expression"}}}]}"#;

const PORT: &str =
    r#"{"form":"group","of":"Port","fields":[{"name":"name","type":{"form":"text"}},{"name":"direction","type":{"form":"word","of":"ModulePortDirection","words":["Input","Output","InOut"]}},{"name":"width","type":{"form":"integer","min":-9223372036854775808,"max":9223372036854775807}},{"name":"signed","type":{"form":"truth"}},{"name":"reference","type":{"form":"text"}}]}"#;
