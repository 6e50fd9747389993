//! The words after the program's name.

use crate::program::Manner;
use std::alloc::Global;
use vast_list::Tries;
use vast_shell::WordFault;

/// What the words ask for.
#[derive(Drop)]
pub(crate) enum Request<'a> {
    /// How the program is called.
    Help,
    /// Which program it is.
    Version,
    /// The table of calls.
    Calls,
    /// The table of calls as JSON.
    CallsJson,
    /// To answer each line of standard input at once.
    Session {
        /// Whether what its call prints is told too.
        lint: bool,
    },
    /// Lists of files; of standard input where there are none.
    Lists {
        /// How they are answered.
        manner: Manner<'static>,
        /// The files' names, where `-` is standard input.
        files: Vec<&'a str>,
    },
}

/// What is printed of a list.
#[derive(Clone, Copy)]
pub(crate) enum Form {
    /// The file's text; after a header the answers before it.
    Text,
    /// Faults alone.
    Faults,
    /// A line of JSON.
    Json,
    /// Whether the file is plain.
    Plain,
    /// The list in packed form.
    Packed,
}

/// Whether forms that are no SystemVerilog, or that a tool refuses, are told.
#[derive(Clone, Copy, PartialEq)]
pub enum Linting {
    /// None is.
    Off,
    /// Each is, and the status is what it is without.
    Told,
    /// Each is, and the status is that of a refused list where one was.
    Strict,
}

/// What is asked for but for files, `--again`, `--map` and `--lint`.
#[derive(Clone, Copy, PartialEq, Eq)]
enum Mode {
    Help,
    Version,
    Calls,
    CallsJson,
    Session,
    Check,
    Json,
    Plain,
    Pack,
}

/// The words so far.
#[derive(Drop)]
struct Seen<'a> {
    /// With its word.
    mode: Option<(Mode, &'static str)>,
    again: bool,
    map: bool,
    lint: Linting,
    /// Whether `--` was there, after which each word is a file.
    only_files: bool,
    files: Vec<&'a str>,
}

/// What the words ask for, in any order: `--help` whatever else there is, else one thing.
///
/// # Errors
/// An unknown word, words that exclude each other, a file where none is taken, and out of memory.
pub(crate) fn requested<'a>(
    alloc: Global,
    words: &[&'a str],
) -> Result<Request<'a>, WordFault<'a>> {
    let mut seen = Seen {
        mode: None,
        again: false,
        map: false,
        lint: Linting::Off,
        only_files: false,
        files: Vec::new(alloc),
    };
    for word in words {
        seen.take(word)?;
    }
    seen.request()
}

impl<'a> Seen<'a> {
    fn take(&mut self, word: &'a str) -> Result<(), WordFault<'a>> {
        if self.only_files || word == "-" || !word.starts_with('-') {
            self.files.push(word)?;
            return Ok(());
        }
        match word {
            "--" => self.only_files = true,
            "--again" => self.again = true,
            "--map" => self.map = true,
            "--lint" if self.lint == Linting::Off => self.lint = Linting::Told,
            "--lint" => {}
            "--strict" => self.lint = Linting::Strict,
            "--help" | "-h" => self.choose(Mode::Help, "--help")?,
            "--version" | "-V" => self.choose(Mode::Version, "--version")?,
            "--calls" => self.choose(Mode::Calls, "--calls")?,
            "--session" => self.choose(Mode::Session, "--session")?,
            "--check" => self.choose(Mode::Check, "--check")?,
            "--json" => self.choose(Mode::Json, "--json")?,
            "--plain" => self.choose(Mode::Plain, "--plain")?,
            "--pack" => self.choose(Mode::Pack, "--pack")?,
            _ => return Err(WordFault::Unknown(word)),
        }
        Ok(())
    }

    fn choose(&mut self, mode: Mode, word: &'static str) -> Result<(), WordFault<'a>> {
        self.mode = Some(match (self.mode, mode) {
            (None, _) => (mode, word),
            (Some((Mode::Help, _)), _) | (_, Mode::Help) => (Mode::Help, "--help"),
            (Some((Mode::Calls | Mode::CallsJson, _)), Mode::Json)
            | (Some((Mode::Json | Mode::CallsJson, _)), Mode::Calls) => (
                Mode::CallsJson,
                "--calls",
            ),
            (Some((earlier, _)), _) if earlier == mode => (mode, word),
            (Some((_, earlier)), _) => return Err(WordFault::Together(earlier, word)),
        });
        Ok(())
    }

    fn request(self) -> Result<Request<'a>, WordFault<'a>> {
        let Some((mode, word)) = self.mode else {
            return Ok(self.lists(Form::Text));
        };
        match mode {
            Mode::Help => Ok(Request::Help),
            Mode::Json => Ok(self.lists(Form::Json)),
            _ if self.again => Err(WordFault::Together("--again", word)),
            _ if self.map => Err(WordFault::Together("--map", word)),
            Mode::Check => Ok(self.lists(Form::Faults)),
            Mode::Plain => Ok(self.lists(Form::Plain)),
            _ if self.lint == Linting::Strict => Err(WordFault::Together("--strict", word)),
            Mode::Pack if self.lint == Linting::Off => Ok(self.lists(Form::Packed)),
            _ if !self.files.is_empty() => Err(WordFault::Takes(word, "no file")),
            Mode::Session => Ok(Request::Session {
                lint: self.lint == Linting::Told,
            }),
            _ if self.lint != Linting::Off => Err(WordFault::Together("--lint", word)),
            Mode::Version => Ok(Request::Version),
            Mode::Calls => Ok(Request::Calls),
            Mode::CallsJson => Ok(Request::CallsJson),
            Mode::Pack => Err(WordFault::Together("--lint", word)),
        }
    }

    fn lists(self, form: Form) -> Request<'a> {
        Request::Lists {
            manner: Manner {
                alloc: *self.files.allocator(),
                form,
                map: self.map,
                lint: self.lint,
                tries: if self.again {
                    Tries::Again
                } else {
                    Tries::Once
                },
                source: "<stdin>",
            },
            files: self.files,
        }
    }
}
