//! Short texts, which take no memory.

ghost use Rattle.std.specs.Prelude.{◌≡◌, ◌<◌, MatchOption, length};

use std::marker::Model;
use std::str;

/// How many bytes a short text has at most: with these a word is as large as two pointers. All signs and keywords are short.
const ROOM: usize = 14;

/// A short text, whose bytes lie in the value itself. In contracts it is its bytes.
#[derive(Drop)]
pub(crate) struct Short {
    length: u8,
    bytes: [u8; ROOM],
}

impl Model for Short {
    ghost use Rattle.std.specs.Prelude.{List, ℕ, ◌≤◌, take, IsUtf8};

    ghost Value = { List ℕ };

    ghost view = { λ s. take s.length s.bytes };

    ghost invariant = { λ s. (s.length ≤ 14) × ∥ IsUtf8 (take s.length s.bytes) ∥₁ };
}

impl Short {
    /// This text; none, where it is too long.
    pub(crate) fn new(text: &str) -> Option<Short>
        ensures { MatchOption result (14 < length text.now) (λ s. s ≡ text.now) }
    {
        let length = text.len();
        if length > ROOM {
            return None;
        }
        let mut bytes = [0; ROOM];
        bytes[..length].copy_from_slice(text.as_bytes());
        Some(Short {
            length: length as u8,
            bytes,
        })
    }

    /// Its bytes.
    pub(crate) fn as_bytes(&self) -> &[u8]
        ensures { result.now ≡ self.now }
    {
        &self.bytes[..self.length as usize]
    }

    /// Its text.
    pub(crate) fn as_str(&self) -> &str
        ensures { result.now ≡ self.now }
    {
        // They are a text's by the invariant; to test that again would be a third of what writing a word takes.
        unsafe { str::from_utf8_unchecked(&self.bytes[..self.length as usize]) }
    }
}
