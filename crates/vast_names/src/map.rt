//! What names stand for.

ghost use Rattle.std.specs.Prelude.{◌≡◌, OnOk, OnErr, Some, None};
ghost use Rattle.std.specs.Map.{update};
ghost use Rattle.std.specs.Str.{bytes_eq};
ghost use Rattle.vast_names.specs.Map.{meaning};

use crate::table::NameTable;
use std::alloc::{AllocError, Global};
use std::marker::Model;

/// Names, each with what it stands for, if anything.
///
/// In contracts `meaning` says of each text what it stands for.
#[derive(Drop)]
pub struct NameMap<V> {
    names: NameTable,
    values: Vec<Option<V>>,
}

impl<V> Model for NameMap<V> {
    ghost use Rattle.std.specs.Prelude.{ℕ, List, Option};

    ghost Value = { List (List ℕ) × List (Option V) };

    ghost use Rattle.vast_names.specs.Internal.Map.{IsMap};

    ghost view = { λ m. (m.names, m.values.items) };

    ghost invariant = { λ m. IsMap m.names m.values.items };
}

impl<V: Copy + Drop> NameMap<V> {
    /// No name stands for anything. It takes no memory.
    pub fn new(alloc: Global) -> Self
        ensures { meaning result ≡ (λ name. None) }
    {
        NameMap {
            names: NameTable::new(alloc),
            values: Vec::new(alloc),
        }
    }

    /// What the name stands for.
    pub fn get(&self, name: &str) -> Option<V>
        ensures { result ≡ meaning self.now name.now }
    {
        match self.names.find(name) {
            Some(place) => self.values[place],
            None => None,
        }
    }

    /// The name stands for this from now on.
    ///
    /// # Errors
    /// `AllocError` where a growth was refused, or for more names than a [`NameTable`] takes; nothing changed.
    pub fn insert(&mut self, name: &str, value: V) -> Result<(), AllocError>
        ensures ok { OnOk result
            (meaning self.new ≡ update bytes_eq (meaning self.old) name.now (Some value)) }
        ensures err { OnErr result (self.new ≡ self.old) }
    {
        if let Some(place) = self.names.find(name) {
            self.values[place] = Some(value);
            return Ok(());
        }
        self.values.reserve(1)?;
        self.names.enter(name)?;
        self.values.push(Some(value)).unwrap();
        Ok(())
    }

    /// The name stands for nothing from now on.
    pub fn remove(&mut self, name: &str)
        ensures { meaning self.new ≡ update bytes_eq (meaning self.old) name.now None }
    {
        if let Some(place) = self.names.find(name) {
            self.values[place] = None;
        }
    }
}
