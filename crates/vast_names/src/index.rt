//! Where names are filed: chains of names in slots, and a tree for the names of slots that are crowded.

ghost use Rattle.std.specs.Prelude.{◌≡◌, ◌<◌, ◌≤◌, ◌≢◌, ℕ, List, Some, [], length, slice_index, slice_index_or, slice_get, IsNone, IfSome, All, IfOk, OnOk, OnErr};
ghost use Rattle.std.specs.BTreeMap.{get_by_text};
ghost use Rattle.std.specs.Str.{IsUtf8};
ghost use Rattle.vast_names.specs.Internal.Hash.{slot_among};
ghost use Rattle.vast_names.specs.Internal.Texts.{texts_of, IsCut};
ghost use Rattle.vast_names.specs.Internal.Index.{Reaches, IsSound, Files, FilesNoLess, FilesOneMore};

use crate::hash::slot_among;
use crate::texts::Texts;
use std::alloc::{AllocError, Global};
use std::collections::BTreeMap;

/// No more names than this are in one chain.
const MOST_IN_CHAIN: usize = 16;

const FIRST_SLOTS: usize = 8;

/// A cursor is the index and one of a name, or 0 for none.
#[derive(Drop)]
pub(crate) struct Index {
    /// The cursor of each slot's newest name.
    pub(crate) heads: Vec<u32>,
    /// The cursor of the next older name in the chain of each.
    pub(crate) links: Vec<u32>,
    /// The names that found their chains full, with their indices.
    pub(crate) crowded: BTreeMap<String, u32>,
}

impl Index {
    pub(crate) fn new(alloc: Global) -> Self
        ensures { Files result [] }
    {
        Index {
            heads: Vec::new(alloc),
            links: Vec::new(alloc),
            crowded: BTreeMap::new(alloc),
        }
    }

    fn with_slots(alloc: Global, slots: usize) -> Result<Self, AllocError>
        ensures files { IfOk result (λ index. Files index []) }
        ensures slots { IfOk result (λ index. length index.heads.items ≡ slots) }
    {
        Ok(Index {
            heads: vec![in alloc; 0; slots]?,
            links: Vec::with_capacity(alloc, slots)?,
            crowded: BTreeMap::new(alloc),
        })
    }

    /// Whether the chain from this cursor is full.
    fn is_full(&self, mut cursor: u32) -> bool
        requires sound { IsSound self.now.heads.items self.now.links.items }
        requires cursor { cursor ≤ length self.now.links.items }
    {
        for _ in 0..MOST_IN_CHAIN {
            if cursor == 0 {
                return false;
            }
            cursor = self.links[cursor as usize - 1];
        }
        true
    }

    /// Files the next name, which is of this slot, at the head of the slot's chain, or changes nothing.
    fn file_in_chain(&mut self, slot: usize) -> Result<(), AllocError>
        requires slot { slot < length self.old.heads.items }
        requires few { length self.old.links.items < 4294967294 }
        ensures ok { OnOk result ((name : List ℕ)
            → slot ≡ slot_among (length self.old.heads.items) name
            → FilesOneMore name self.old self.new) }
        ensures err { OnErr result (FilesNoLess self.old self.new) }
        ensures slots { length self.new.heads.items ≡ length self.old.heads.items }
    {
        self.links.push(self.heads[slot])?;
        self.heads[slot] = self.links.len() as u32;
        Ok(())
    }

    /// Files the next name in the tree, or changes nothing.
    fn file_in_tree(&mut self, alloc: Global, name: &str) -> Result<(), AllocError>
        requires few { length self.old.links.items < 4294967294 }
        ensures ok { OnOk result (FilesOneMore name.now self.old self.new) }
        ensures err { OnErr result (FilesNoLess self.old self.new) }
        ensures slots { length self.new.heads.items ≡ length self.old.heads.items }
    {
        let key = String::from_str(alloc, name)?;
        self.links.reserve(1)?;
        self.crowded.insert(key, self.links.len() as u32)?;
        self.links.push(0).unwrap();
        Ok(())
    }

    /// Files the next name, or changes nothing.
    pub(crate) fn file(&mut self, alloc: Global, name: &[u8]) -> Result<(), AllocError>
        requires sound { IsSound self.old.heads.items self.old.links.items }
        requires slots { 0 < length self.old.heads.items }
        requires few { length self.old.links.items < 4294967294 }
        requires text { IsUtf8 name.now }
        ensures ok { OnOk result (FilesOneMore name.now self.old self.new) }
        ensures err { OnErr result (FilesNoLess self.old self.new) }
        ensures slots { length self.new.heads.items ≡ length self.old.heads.items }
    {
        let slot = slot_among(self.heads.len(), name);
        if self.is_full(self.heads[slot]) {
            match str::from_utf8(name) {
                Ok(text) => self.file_in_tree(alloc, text),
                Err(_) => Err(AllocError),
            }
        } else {
            self.file_in_chain(slot)
        }
    }

    /// A name of the chain of this name's slot that is this name.
    pub(crate) fn find_in_chain(&self, texts: &Texts, name: &[u8]) -> Option<usize>
        requires cut { IsCut texts.now }
        requires files { Files self.now (texts_of texts.now) }
        ensures none { IsNone result → (k : ℕ)
            → Reaches self.now.links.items (slice_index self.now.heads.items
            (slot_among (length self.now.heads.items) name.now)) k
            → k < length (texts_of texts.now) → slice_index_or (texts_of texts.now) k [] ≢ name.now }
        ensures some { IfSome result (λ k. slice_get (texts_of texts.now) k ≡ Some name.now) }
    {
        if self.heads.is_empty() {
            return None;
        }
        let mut cursor = self.heads[slot_among(self.heads.len(), name)];
        while cursor != 0 {
            let at = cursor as usize - 1;
            if texts.get(at) == name {
                return Some(at);
            }
            cursor = self.links[at];
        }
        None
    }

    /// The place of this name where it lies in the tree.
    pub(crate) fn find_in_tree(&self, name: &str) -> Option<usize>
        ensures { result ≡ get_by_text self.now.crowded name.now }
    {
        match self.crowded.get(name) {
            Some(index) => Some(*index as usize),
            None => None,
        }
    }

    /// The texts, filed anew among that many slots.
    fn filed(alloc: Global, texts: &Texts, slots: usize) -> Result<Self, AllocError>
        requires cut { IsCut texts.now }
        requires text { All IsUtf8 (texts_of texts.now) }
        requires few { length (texts_of texts.now) ≤ 4294967294 }
        requires slots { 0 < slots }
        ensures files { IfOk result (λ index. Files index (texts_of texts.now)) }
        ensures slots { IfOk result (λ index. length index.heads.items ≡ slots) }
    {
        let mut index = Index::with_slots(alloc, slots)?;
        for i in 0..texts.len() {
            index.file(alloc, texts.get(i))?;
        }
        Ok(index)
    }

    /// Makes sure that there are as many slots as one more name asks for, or changes nothing.
    pub(crate) fn make_slots(&mut self, alloc: Global, texts: &Texts) -> Result<(), AllocError>
        requires cut { IsCut texts.now }
        requires text { All IsUtf8 (texts_of texts.now) }
        requires few { length (texts_of texts.now) ≤ 4294967294 }
        requires files { Files self.old (texts_of texts.now) }
        ensures files { Files self.new (texts_of texts.now) }
        ensures slots { OnOk result (0 < length self.new.heads.items) }
    {
        if self.heads.len() <= texts.len() {
            let slots = (4 * texts.len()).max(FIRST_SLOTS);
            *self = Index::filed(alloc, texts, slots)?;
        }
        Ok(())
    }
}
