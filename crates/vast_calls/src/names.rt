//! The names of a list.

ghost use Rattle.std.specs.Prelude.{◌≡◌, ℕ, List, IfSome, None, OnErr, OnOk, Some, option_copied};
ghost use Rattle.std.specs.Map.{update};
ghost use Rattle.std.specs.Str.{bytes_eq};
ghost use Rattle.std.specs.List.{list_all};
ghost use Rattle.vast_calls.specs.Names.{entered, is_name, is_name_byte, forgotten};
ghost use Rattle.vast_calls.specs.Written.{meaning};

use std::alloc::{AllocError, Global};
use vast_names::NameMap;

/// What a name of a list stands for.
#[derive(Clone, Copy)]
pub enum Named {
    /// The answer of a step or a helper, by its place among the answers.
    Handle(usize),
    /// A step or a helper that was passed over.
    Skipped,
    /// The answer of a question, where that is a number.
    Number(i64),
    /// The answer of a question that is no number.
    Other,
}

/// The names so far. Nearly all stand for a place among the answers, for which four bytes are kept.
#[derive(Drop)]
pub struct Names {
    places: NameMap<u32>,
    /// What those stand for that stand for no place, or for one above 32 bits.
    others: NameMap<Named>,
}

/// The place that the name stands for, where four bytes can hold it.
fn short_place(meant: Named) -> Option<u32>
    ensures { IfSome result (λ place. meant ≡ Named.Handle place) }
{
    match meant {
        Named::Handle(place) => u32::try_from(place).ok(),
        _ => None,
    }
}

impl Names {
    /// No name stands for anything. It takes no memory.
    pub fn new(alloc: Global) -> Names
        ensures { meaning result ≡ (λ (name : List ℕ). None) }
    {
        Names {
            places: NameMap::new(alloc),
            others: NameMap::new(alloc),
        }
    }

    /// What the name stands for.
    pub fn get(&self, name: &str) -> Option<Named>
        ensures { result ≡ meaning self.now name.now }
    {
        match self.places.get(name) {
            Some(place) => Some(Named::Handle(place as usize)),
            None => self.others.get(name),
        }
    }

    /// The name stands for this from now on.
    ///
    /// # Errors
    /// Out of memory; nothing changed.
    pub fn insert(&mut self, name: &str, meant: Named) -> Result<(), AllocError>
        ensures ok { OnOk result
            (meaning self.new ≡ update bytes_eq (meaning self.old) name.now (Some meant)) }
        ensures err { OnErr result (self.new ≡ self.old) }
    {
        match short_place(meant) {
            Some(place) => self.places.insert(name, place),
            None => {
                self.others.insert(name, meant)?;
                self.places.remove(name);
                Ok(())
            }
        }
    }

    /// The name stands for nothing from now on.
    pub fn remove(&mut self, name: &str)
        ensures { meaning self.new ≡ update bytes_eq (meaning self.old) name.now None }
    {
        self.places.remove(name);
        self.others.remove(name);
    }

    /// The name, where there is one, stands for this from now on.
    ///
    /// # Errors
    /// Out of memory; nothing changed.
    pub fn enter(&mut self, name: Option<&str>, stands_for: Named) -> Result<(), AllocError>
        ensures entered { OnOk result
            (meaning self.new ≡ entered (meaning self.old) (option_copied name.entry) stands_for) }
        ensures left { OnErr result (meaning self.new ≡ meaning self.old) }
    {
        if let Some(name) = name {
            self.insert(name, stands_for)?;
        }
        Ok(())
    }

    /// The name, where there is one, stands for nothing from now on.
    pub fn forget(&mut self, name: Option<&str>)
        ensures { meaning self.new ≡ forgotten (meaning self.old) (option_copied name.entry) }
    {
        if let Some(name) = name {
            self.remove(name);
        }
    }
}

/// A name begins with a letter or `_`, and goes on with those and digits.
pub fn is_name(word: &str) -> bool
    ensures { result ≡ is_name word.now }
{
    let bytes = word.as_bytes();
    match bytes.first() {
        Some(first) => !first.is_ascii_digit() && are_name_bytes(bytes),
        None => false,
    }
}

fn are_name_bytes(bytes: &[u8]) -> bool
    ensures { result ≡ list_all is_name_byte bytes.now }
{
    bytes.iter().all(|byte| is_name_byte(*byte))
}

/// A letter, a digit or `_`.
fn is_name_byte(byte: u8) -> bool
    ensures { result ≡ is_name_byte byte }
{
    byte.is_ascii_alphanumeric() || byte == b'_'
}
