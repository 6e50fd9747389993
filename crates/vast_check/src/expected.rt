//! What could stand after the beginning of a file.

use std::alloc::{AllocError, Global};
use vast_literal::{Key, Mark, Sign};
use vast_rows::{Kind, Next};

/// A kind of token, how what it stands for is told, and by which other words it is told too.
type Word = (Kind, &'static str, &'static [&'static str]);

/// The kinds that are looked for, in the order in which they are told.
static WORDS: [Word; 55] = [
    (Kind::Reserved(Key::AlwaysComb), "a member", &[]),
    (Kind::Reserved(Key::Case), "a statement", &[]),
    (Kind::SystemWord, "a value", &["a statement"]),
    (Kind::Operator(Sign::Divide), "an operator", &[]),
    (Kind::Mark(Mark::Semicolon), "';'", &[]),
    (
        Kind::Word,
        "a name",
        &["a member", "a statement", "a value"],
    ),
    (Kind::Reserved(Key::EndModule), "endmodule", &[]),
    (Kind::Reserved(Key::End), "end", &[]),
    (Kind::Mark(Mark::CloseParen), "')'", &[]),
    (Kind::Mark(Mark::CloseBracket), "']'", &[]),
    (Kind::Mark(Mark::CloseBrace), "'}'", &[]),
    (Kind::Mark(Mark::Comma), "','", &[]),
    (Kind::Mark(Mark::Colon), "':'", &[]),
    (Kind::Mark(Mark::Assign), "'='", &[]),
    (Kind::Operator(Sign::LessEqual), "'<='", &["an operator"]),
    (Kind::Mark(Mark::OpenBracket), "'['", &[]),
    (
        Kind::Mark(Mark::OpenParen),
        "'('",
        &["a statement", "a value"],
    ),
    (
        Kind::Mark(Mark::OpenBrace),
        "'{'",
        &["a statement", "a value"],
    ),
    (
        Kind::Mark(Mark::Apostrophe),
        "an apostrophe",
        &["an operator", "a statement", "a value"],
    ),
    (Kind::Number, "a number", &["a statement", "a value"]),
    (Kind::Quoted, "a string", &["a statement", "a value"]),
    (Kind::Reserved(Key::Module), "module", &[]),
    (
        Kind::IncludeWord,
        "`include",
        &["a member", "a statement", "a value"],
    ),
    (Kind::Reserved(Key::Import), "import", &["a member"]),
    (Kind::Reserved(Key::Typedef), "typedef", &["a member"]),
    (Kind::Reserved(Key::Begin), "begin", &[]),
    (Kind::Reserved(Key::Else), "else", &[]),
    (Kind::Reserved(Key::If), "if", &["a member", "a statement"]),
    (Kind::Reserved(Key::Default), "default", &[]),
    (Kind::Reserved(Key::EndCase), "endcase", &[]),
    (Kind::Reserved(Key::EndFunction), "endfunction", &[]),
    (Kind::Reserved(Key::Output), "a port", &[]),
    (Kind::Reserved(Key::Input), "an input", &["a port"]),
    (Kind::Reserved(Key::Reg), "a kind", &["a member"]),
    (
        Kind::Reserved(Key::Signed),
        "signed",
        &["a statement", "a value"],
    ),
    (Kind::Reserved(Key::Parameter), "parameter", &["a member"]),
    (Kind::Reserved(Key::Posedge), "an edge", &[]),
    (Kind::Reserved(Key::Casez), "casez", &["a statement"]),
    (Kind::Reserved(Key::Unique), "unique", &["a statement"]),
    (Kind::Reserved(Key::Genvar), "genvar", &["a kind"]),
    (
        Kind::Reserved(Key::Int),
        "int",
        &["a kind", "a statement", "a value"],
    ),
    (Kind::Reserved(Key::Automatic), "automatic", &[]),
    (Kind::Reserved(Key::Enum), "enum", &[]),
    (Kind::Reserved(Key::Struct), "struct", &[]),
    (Kind::Reserved(Key::Packed), "packed", &[]),
    (Kind::Reserved(Key::Or), "or", &[]),
    (Kind::Mark(Mark::Dot), "'.'", &["an operator"]),
    (Kind::Mark(Mark::Hash), "'#'", &[]),
    (Kind::Mark(Mark::At), "'@'", &[]),
    (Kind::Mark(Mark::PlusColon), "'+:'", &[]),
    (Kind::Mark(Mark::DoubleColon), "'::'", &["an operator"]),
    (Kind::Operator(Sign::Times), "'*'", &["an operator"]),
    (Kind::Operator(Sign::Less), "'<'", &["an operator"]),
    (Kind::Operator(Sign::Plus), "'+'", &["an operator"]),
    (Kind::End, "end of file", &[]),
];

/// So many words are told at most.
const MOST_TOLD: usize = 6;

/// What could stand next.
#[derive(Drop)]
pub(crate) struct Expected {
    /// Words for the kinds, at most six.
    pub(crate) words: Vec<&'static str>,
    /// Whether that is all that could stand there.
    pub(crate) is_all: bool,
}

/// The words for what could stand next.
pub(crate) fn expected_of(alloc: Global, next: Next) -> Result<Expected, AllocError> {
    let mut words = Vec::new(alloc);
    for (kind, told, within) in &WORDS {
        if goes_on(next, *kind) && !is_told(&words, within) {
            if words.len() == MOST_TOLD {
                return Ok(Expected {
                    words,
                    is_all: false,
                });
            }
            words.push(*told)?;
        }
    }
    Ok(Expected {
        words,
        is_all: true,
    })
}

/// Whether a token of the kind could stand next, or nothing more where it is the end.
fn goes_on(next: Next, kind: Kind) -> bool {
    match kind {
        Kind::End => next.ends,
        _ => next.has(kind),
    }
}

fn is_told(words: &[&'static str], within: &[&'static str]) -> bool {
    within.iter().any(|word| words.contains(word))
}
