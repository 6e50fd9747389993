//! Why a line is not in the form.

ghost use Rattle.std.specs.Prelude.{◌≡◌};
ghost use Rattle.vast_calls.specs.declared.problem.Problem.TheVariants.{Memory};

use std::alloc::{AllocError, AllocFailed};
use std::fmt;

/// Why a line is not in the form, or that memory was refused.
#[derive(Clone, Copy)]
pub enum Problem {
    NotUtf8,
    NoDialect,
    Indented,
    UnknownCall,
    NoCall,
    NoLength,
    NoVersion,
    OtherFile,
    NotAName,
    NameTaken,
    NameUnknown,
    NameOfQuestion,
    Skipped,
    NameOfHandle,
    AnswerNoNumber,
    Missing,
    TooMany,
    Space,
    NoHandle,
    NoNumber,
    NoPacked,
    NameForNumber,
    OutOfRange,
    NoTruth,
    NoText,
    OpenText,
    UnknownEscape,
    LoneSurrogate,
    NoSpace,
    NoList,
    OpenList,
    NoOption,
    NoFormat,
    NoKind,
    Memory,
}

impl Problem {
    fn words(self) -> &'static str {
        match self {
            Problem::NotUtf8 => "not UTF-8",
            Problem::NoDialect => "`verilog` or `systemverilog` expected",
            Problem::Indented => "a call expected, not a space",
            Problem::UnknownCall => "unknown call",
            Problem::NoCall => "the number of a call expected",
            Problem::NoLength => "a call expected, after how many bytes it has",
            Problem::NoVersion => "a packed list expected, of version 2 and of a dialect",
            Problem::OtherFile => "the packed list would build another file",
            Problem::NotAName =>
                "a name expected before `=`: letters, digits and `_`, no digit first",
            Problem::NameTaken => "an earlier line has the name",
            Problem::NameUnknown => "no earlier line has the name",
            Problem::NameOfQuestion =>
                "the name is a question's, and stands for no handle; as a number it is written with `?`",
            Problem::Skipped => "the line that has the name is at fault",
            Problem::NameOfHandle => "the name is no question's",
            Problem::AnswerNoNumber => "the answer of the question is no number",
            Problem::Missing => "missing",
            Problem::TooMany => "an argument too many",
            Problem::Space => "a space too many",
            Problem::NoHandle => "a handle expected: the number of an earlier step, or a name",
            Problem::NoNumber =>
                "a number expected, in decimal digits, or `?` and a question's name",
            Problem::NoPacked => "a number expected that ends, and is below 2^64",
            Problem::NameForNumber => "a name stands for a handle, and a number is expected",
            Problem::OutOfRange => "number out of range",
            Problem::NoTruth => "`true` or `false` expected",
            Problem::NoText => "a text expected, between quotes",
            Problem::OpenText => "text without its end",
            Problem::UnknownEscape =>
                "unknown escape in a text: they are \\\" \\\\ \\/ \\n \\t \\r \\b \\f \\uXXXX",
            Problem::LoneSurrogate => "half of a surrogate pair in a text",
            Problem::NoSpace => "a space expected behind the text",
            Problem::NoList => "a list expected: `[`, and a space behind it",
            Problem::OpenList => "a list without its end, ` ]`",
            Problem::NoOption => "`-` or `+` expected: `-` for none, `+ ` before a value",
            Problem::NoFormat =>
                "one of Binary, Hex, SignedDecimal, UnsignedDecimal, UnsizedBinary, UnsizedDecimal, UnsizedHex expected",
            Problem::NoKind =>
                "one of Reg, Wire, Logic, Integer, Int, User, UntypedEnum, Genvar expected",
            Problem::Memory => "out of memory",
        }
    }
}

impl fmt::Display for Problem {
    fn fmt<W: fmt::Write>(&self, f: &mut fmt::Formatter<W>) -> fmt::Result {
        f.write_str(self.words())
    }
}

/// A problem, and where it is.
#[derive(Clone, Copy)]
pub struct Misfit {
    /// How many bytes of the line stand from there on.
    pub left: usize,
    /// Why.
    pub problem: Problem,
}

impl From<AllocError> for Misfit {
    ghost from_gives = { λ _ misfit. misfit ≡ record { left = 0; problem = Memory } };

    fn from(_error: AllocError) -> Misfit {
        Misfit {
            left: 0,
            problem: Problem::Memory,
        }
    }
}

impl<T: Drop> From<AllocFailed<T>> for Misfit {
    ghost from_gives = { λ _ misfit. misfit ≡ record { left = 0; problem = Memory } };

    fn from(_failed: AllocFailed<T>) -> Misfit {
        Misfit {
            left: 0,
            problem: Problem::Memory,
        }
    }
}
