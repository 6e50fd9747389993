//! The table of names.

ghost use Rattle.std.specs.Prelude.{◌≡◌, ◌≢◌, ◌<◌, ◌↔◌, ◌∷◌, [], ◌++◌, Some, length, All, Contains, IsTrue, OnOk, OnErr, MatchOption, slice_get};

use crate::index::Index;
use crate::texts::Texts;
use std::alloc::{AllocError, Global};
use std::marker::Model;

/// Names in the order in which they were entered. Contracts see the list of their bytes.
#[derive(Drop)]
pub struct NameTable {
    texts: Texts,
    index: Index,
    alloc: Global,
}

impl Model for NameTable {
    ghost use Rattle.std.specs.Prelude.{ℕ, List};
    ghost use Rattle.vast_names.specs.Internal.Table.{names_of, IsTable};

    ghost Value = { List (List ℕ) };

    ghost view = { names_of };

    ghost invariant = { IsTable };
}

impl NameTable {
    /// No names. It takes no memory.
    pub fn new(alloc: Global) -> Self
        ensures { result ≡ [] }
    {
        NameTable {
            texts: Texts::new(alloc),
            index: Index::new(alloc),
            alloc,
        }
    }

    /// How many names there are.
    pub fn len(&self) -> usize
        ensures { result ≡ length self.now }
    {
        self.texts.len()
    }

    /// The name that was entered as this one, from 0.
    pub fn name(&self, index: usize) -> &str
        requires { index < length self.now }
        ensures { slice_get self.now index ≡ Some result.now }
    {
        match str::from_utf8(self.texts.get(index)) {
            Ok(name) => name,
            Err(_) => "",
        }
    }

    /// The place of this name among the names, from 0.
    pub fn find(&self, name: &str) -> Option<usize>
        ensures { MatchOption result (All (λ taken. taken ≢ name.now) self.now)
            (λ index. slice_get self.now index ≡ Some name.now) }
    {
        match self.index.find_in_chain(&self.texts, name.as_bytes()) {
            Some(index) => Some(index),
            None => self.index.find_in_tree(name),
        }
    }

    /// Whether this name was entered.
    pub fn contains(&self, name: &str) -> bool
        ensures { IsTrue result ↔ Contains self.now name.now }
    {
        self.find(name).is_some()
    }

    /// Enters a name, as the last one. [`NameTable::contains`] tells whether it was entered before.
    ///
    /// # Errors
    /// `AllocError` where a growth was refused, or for more than 4,294,967,294 names, or for more than 4,294,967,295 bytes
    /// of names; nothing changed.
    pub fn enter(&mut self, name: &str) -> Result<(), AllocError>
        ensures ok { OnOk result (self.new ≡ self.old ++ name.now ∷ []) }
        ensures err { OnErr result (self.new ≡ self.old) }
    {
        let name = name.as_bytes();
        let end = self.texts.make_room(name.len())?;
        self.index.make_slots(self.alloc, &self.texts)?;
        self.index.file(self.alloc, name)?;
        self.texts.push(name, end);
        Ok(())
    }
}
