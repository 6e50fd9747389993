//! The words after a program's name.

ghost use Rattle.std.specs.Prelude.{◌≡◌, IfOk, map, string_bytes};

use std::alloc::{AllocError, AllocFailed, Global};
use std::env::Env;
use std::{env, io};
use thiserror::Error;

/// What `answer` makes of the words after the program's name.
///
/// # Errors
/// A word that is not UTF-8, and out of memory.
pub fn with_words<R: Env + AllocGlobal, T, F: FnOnce(&[&str]) -> T>(
    rt: &R,
    answer: F,
) -> io::Result<T>
    requires { F.IsAlwaysCallable answer }
    ensures { IfOk result (λ t. (words : _) × F.post answer words t) }
{
    let mut words = Vec::new(rt.alloc());
    for word in env::args(rt)?.skip(1) {
        words.push(word)?;
    }
    let slices = slices(rt.alloc(), &words)?;
    Ok(answer(&slices))
}

fn slices(alloc: Global, words: &[String]) -> Result<Vec<&str>, AllocError>
    ensures { IfOk result (λ slices. map (λ s. s.now) slices.items ≡ map string_bytes words.now) }
{
    words.iter().map(|word| word.as_str()).collect(alloc)
}

/// Why words ask for nothing.
#[derive(Debug, Drop, Error)]
pub enum WordFault<'a> {
    #[error("unknown word {0}")]
    Unknown(&'a str),
    #[error("{0} and {1} exclude each other")]
    Together(&'static str, &'static str),
    /// Not so many files as the word takes.
    #[error("{0} takes {1}")]
    Takes(&'static str, &'static str),
    #[error("out of memory")]
    Memory,
}

impl From<AllocFailed<&str>> for WordFault<'_> {
    fn from(_failed: AllocFailed<&str>) -> Self {
        WordFault::Memory
    }
}
