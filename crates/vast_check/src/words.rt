//! The words after the program's name.

use std::alloc::Global;
use vast_shell::WordFault;

/// What the words ask for.
#[derive(Drop)]
pub(crate) enum Request<'a> {
    /// How the program is called.
    Help,
    /// Which program it is.
    Version,
    /// Whether the grammar derives these files; standard input where there are none.
    Files(Vec<&'a str>),
    /// Whether the two files are the same.
    Same { old: &'a str, new: &'a str },
}

/// The words so far.
#[derive(Drop)]
struct Seen<'a> {
    help: bool,
    version: bool,
    same: bool,
    /// Whether `--` was there, after which each word is a file.
    only_files: bool,
    files: Vec<&'a str>,
}

/// What the words ask for, in any order: `--help` whatever else there is, else one thing.
///
/// # Errors
/// An unknown word, a file where none is taken, and out of memory.
pub(crate) fn requested<'a>(
    alloc: Global,
    words: &[&'a str],
) -> Result<Request<'a>, WordFault<'a>> {
    let mut seen = Seen {
        help: false,
        version: false,
        same: false,
        only_files: false,
        files: Vec::new(alloc),
    };
    for word in words {
        seen.take(word)?;
    }
    seen.request()
}

impl<'a> Seen<'a> {
    fn take(&mut self, word: &'a str) -> Result<(), WordFault<'a>> {
        if self.only_files || word == "-" || !word.starts_with('-') {
            self.files.push(word)?;
            return Ok(());
        }
        match word {
            "--" => self.only_files = true,
            "--help" | "-h" => self.help = true,
            "--version" | "-V" => self.version = true,
            "--same" => self.same = true,
            _ => return Err(WordFault::Unknown(word)),
        }
        Ok(())
    }

    fn request(self) -> Result<Request<'a>, WordFault<'a>> {
        if self.help {
            Ok(Request::Help)
        } else if self.version && self.files.is_empty() && !self.same {
            Ok(Request::Version)
        } else if self.version {
            Err(WordFault::Takes("--version", "no file"))
        } else if self.same {
            match self.files.as_slice() {
                [old, new] => Ok(Request::Same { old, new }),
                _ => Err(WordFault::Takes("--same", "two files")),
            }
        } else {
            Ok(Request::Files(self.files))
        }
    }
}
