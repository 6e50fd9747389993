//! The numbers by which files tell their handles from those of other files.

ghost use Rattle.std.specs.Prelude.{◌≡◌, ◌+◌, ◌<◌, ◌↔◌, ℕ, IsTrue, IsErr, IfOk, OnOk, OnErr};

use std::marker::Model;
use thiserror::Error;

/// Every id that a [`FileIds`] can give was handed out.
#[derive(Clone, Copy, Debug, PartialEq, Eq, Error)]
#[error("file ids are spent")]
pub struct IdsSpent;

/// Hands out the ids of files, upwards from 1. It stands for the global counter of the Rust crate.
///
/// Each id is above all that the same `FileIds` gave before, so they are distinct. Two `FileIds` may give equal
/// ids, and a file would then take another's handles for its own: keep one.
///
/// In contracts a `FileIds` is the last id that it gave, 0 at first.
#[derive(Debug, Drop)]
pub struct FileIds {
    last: u64,
}

impl Model for FileIds {
    ghost Value = { ℕ };

    ghost view = { λ ids. ids.last };
}

impl FileIds {
    /// Ids from 1 on.
    pub fn new() -> FileIds
        ensures { result ≡ 0 }
    {
        FileIds { last: 0 }
    }

    /// Ids from `last + 1` on; none where `last` is `u64::MAX`.
    pub fn after(last: u64) -> FileIds
        ensures { result ≡ last }
    {
        FileIds { last }
    }

    /// Whether `u64::MAX` was handed out, so that no id is left.
    pub fn is_spent(&self) -> bool
        ensures { IsTrue result ↔ (self.now ≡ u64.MAX) }
    {
        self.last == u64::MAX
    }

    /// The next id.
    ///
    /// # Errors
    /// [`IdsSpent`] exactly where the ids are spent; they stay so.
    pub fn take(&mut self) -> Result<u64, IdsSpent>
        ensures next { IfOk result (λ id. id ≡ self.old + 1) }
        ensures above { IfOk result (λ id. self.old < id) }
        ensures given { OnOk result (self.new ≡ self.old + 1) }
        ensures spent { IsErr result ↔ (self.old ≡ u64.MAX) }
        ensures unchanged { OnErr result (self.new ≡ self.old) }
    {
        if self.is_spent() {
            return Err(IdsSpent);
        }
        self.last += 1;
        Ok(self.last)
    }
}
