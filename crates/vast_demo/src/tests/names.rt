//! Texts and words are what they were made of; names are found where they were entered, and stand for what was said last.

use std::alloc::{AllocError, Global};
use vast_names::{NameMap, NameTable, Text, Word};

const MANY: usize = 10_000;

#[test]
fn a_text_is_what_was_given(rt: HostRuntime) {
    let given = "// first line\n  and a second, longer than a word's own bytes";
    let Ok(text) = Text::new(rt.alloc(), given) else {
        assert!(rt; false);
        return;
    };
    assert_eq!(rt; text.as_str(), given);
}

#[test]
fn a_short_word_is_its_text(rt: HostRuntime) {
    let Ok(word) = Word::new(rt.alloc(), "clk") else {
        assert!(rt; false);
        return;
    };
    assert_eq!(rt; word.as_str(), "clk");
}

#[test]
fn a_long_word_is_its_text(rt: HostRuntime) {
    let Ok(text) = String::from_str(rt.alloc(), "input_data_of_the_queue") else {
        assert!(rt; false);
        return;
    };
    let Ok(word) = Word::from_string(rt.alloc(), text) else {
        assert!(rt; false);
        return;
    };
    assert_eq!(rt; word.as_str(), "input_data_of_the_queue");
}

#[test]
fn names_stand_for_what_was_said_last(rt: HostRuntime) {
    let mut map = NameMap::new(rt.alloc());
    assert_eq!(rt; map.get("a"), None);
    assert!(rt; map.insert("a", 1u8).is_ok());
    assert!(rt; map.insert("b", 2u8).is_ok());
    assert!(rt; map.insert("a", 3u8).is_ok());
    assert_eq!(rt; map.get("a"), Some(3));
    assert_eq!(rt; map.get("b"), Some(2));
    map.remove("a");
    map.remove("c");
    assert_eq!(rt; map.get("a"), None);
    assert_eq!(rt; map.get("b"), Some(2));
    assert!(rt; map.insert("a", 4u8).is_ok());
    assert_eq!(rt; map.get("a"), Some(4));
}

/// A table of the names `n0`, `n1` and so on.
fn numbered(alloc: Global) -> Result<NameTable, AllocError> {
    let mut table = NameTable::new(alloc);
    for number in 0..MANY {
        table.enter(&format!(in alloc; "n{number}")?)?;
    }
    Ok(table)
}

/// Whether each name is found where it stands.
fn is_whole(table: &NameTable) -> bool {
    let mut whole = true;
    for index in 0..table.len() {
        let name = table.name(index);
        whole = whole && table.contains(name) && table.find(name) == Some(index);
    }
    whole
}

#[test]
fn many_names_are_found(rt: HostRuntime) {
    let Ok(table) = numbered(rt.alloc()) else {
        assert!(rt; false);
        return;
    };
    assert_eq!(rt; table.len(), MANY);
    assert!(rt; is_whole(&table));
    assert_eq!(rt; table.find("n4711"), Some(4711));
    assert_eq!(rt; table.name(12), "n12");
    assert!(rt; !table.contains("n10000"));
    assert_eq!(rt; table.find(""), None);
}
