//! Texts that lie after one another in one buffer.

ghost use Rattle.std.specs.Prelude.{◌≡◌, ◌+◌, ◌<◌, ◌≤◌, ◌∷◌, [], ◌++◌, length, IfOk, OnOk, slice_index, slice_index_or, vec_len, vec_capacity};
ghost use Rattle.vast_names.specs.Internal.Texts.{texts_of, IsCut};

use std::alloc::{AllocError, Global};

/// No more texts than this.
const MOST_TEXTS: usize = u32::MAX as usize - 1;

/// Where each text ends in the bytes; it starts where the one before it ends.
#[derive(Drop)]
pub(crate) struct Texts {
    pub(crate) bytes: Vec<u8>,
    pub(crate) ends: Vec<u32>,
}

impl Texts {
    pub(crate) fn new(alloc: Global) -> Self
        ensures cut { IsCut result }
        ensures none { texts_of result ≡ [] }
    {
        Texts {
            bytes: Vec::new(alloc),
            ends: Vec::new(alloc),
        }
    }

    #[tactic(auto, using(crate::proofs::Cut::cuts))]
    pub(crate) fn len(&self) -> usize
        ensures { result ≡ length (texts_of self.now) }
    {
        self.ends.len()
    }

    /// Where a text starts.
    fn start(&self, index: usize) -> usize
        requires { index < vec_len self.now.ends }
        ensures { result ≡ slice_index (0 ∷ self.now.ends.items) index }
    {
        if index == 0 {
            return 0;
        }
        self.ends[index - 1] as usize
    }

    #[tactic(auto, using(crate::proofs::Cut::cuts))]
    pub(crate) fn get(&self, index: usize) -> &[u8]
        requires index { index < length (texts_of self.now) }
        requires cut { IsCut self.now }
        ensures { result.now ≡ slice_index_or (texts_of self.now) index [] }
    {
        let start = self.start(index);
        let end = self.ends[index] as usize;
        &self.bytes[start..end]
    }

    /// Makes room for one more text of that many bytes, and returns where it will end.
    #[tactic(auto, using(crate::proofs::Cut::cuts))]
    pub(crate) fn make_room(&mut self, count: usize) -> Result<u32, AllocError>
        requires { IsCut self.old }
        ensures cut { IsCut self.new }
        ensures texts { texts_of self.new ≡ texts_of self.old }
        ensures end { IfOk result (λ end. end ≡ vec_len self.new.bytes + count) }
        ensures few { OnOk result (length (texts_of self.old) < 4294967294) }
        ensures bytes_room { OnOk result
            (vec_len self.new.bytes + count ≤ vec_capacity self.new.bytes) }
        ensures ends_room { OnOk result (vec_len self.new.ends < vec_capacity self.new.ends) }
    {
        let end = self.bytes.len().saturating_add(count);
        if self.ends.len() >= MOST_TEXTS || end > u32::MAX as usize {
            return Err(AllocError);
        }
        self.bytes.reserve(count)?;
        self.ends.reserve(1)?;
        Ok(end as u32)
    }

    /// Puts a text after the others, where room was made for it.
    pub(crate) fn push(&mut self, text: &[u8], end: u32)
        requires cut { IsCut self.old }
        requires end { end ≡ vec_len self.old.bytes + length text.now }
        requires bytes_room { vec_len self.old.bytes + length text.now
            ≤ vec_capacity self.old.bytes }
        requires ends_room { vec_len self.old.ends < vec_capacity self.old.ends }
        ensures cut { IsCut self.new }
        ensures texts { texts_of self.new ≡ texts_of self.old ++ text.now ∷ [] }
    {
        self.bytes.extend_from_slice(text).unwrap();
        self.ends.push(end).unwrap();
    }
}
