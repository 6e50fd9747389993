//! Kinds of bytes.

ghost use Rattle.std.specs.Prelude.{◌≡◌};
ghost use Rattle.vast_literal.specs.Scan.{is_letter, is_digit, is_word_byte, is_based_digit, is_radix, is_filler, is_space};
ghost use Rattle.vast_read.specs.Internal.Scanner.{opens_mark, passes};

/// An ASCII letter or `_`.
pub(crate) fn is_letter(byte: u8) -> bool
    ensures { result ≡ is_letter byte }
{
    byte.is_ascii_alphabetic() || byte == b'_'
}

/// An ASCII digit.
pub(crate) fn is_digit(byte: u8) -> bool
    ensures { result ≡ is_digit byte }
{
    byte.is_ascii_digit()
}

/// For each byte `1` where it stands in words, or `0`.
static WORD_BYTES: [u8; 256] = *b"\
    0000000000000000000000000000000000001000000000001111111111000000\
    0111111111111111111111111110000101111111111111111111111111100000\
    0000000000000000000000000000000000000000000000000000000000000000\
    0000000000000000000000000000000000000000000000000000000000000000";

/// A letter, a digit, `_` or `$`.
pub(crate) fn is_word_byte(byte: u8) -> bool
    ensures { result ≡ is_word_byte byte }
{
    WORD_BYTES[byte as usize] == b'1'
}

/// A digit of a based literal.
pub(crate) fn is_based_digit(byte: u8) -> bool
    ensures { result ≡ is_based_digit byte }
{
    is_digit(byte) || (byte >= b'a' && byte <= b'f') || byte == b'_' || byte == b'?'
}

/// The radix of a based literal: `b`, `d` or `h`.
pub(crate) fn is_radix(byte: u8) -> bool
    ensures { result ≡ is_radix byte }
{
    byte == b'b' || byte == b'd' || byte == b'h'
}

/// What fills all bits after an apostrophe: `0`, `1` or `X`.
pub(crate) fn is_filler(byte: u8) -> bool
    ensures { result ≡ is_filler byte }
{
    byte == b'0' || byte == b'1' || byte == b'X'
}

/// What stands after the apostrophe of a cast or a pattern: `(` or `{`.
pub(crate) fn opens_mark(byte: u8) -> bool
    ensures { result ≡ opens_mark byte }
{
    byte == b'(' || byte == b'{'
}

/// A space, a line feed, a tab or a carriage return.
pub(crate) fn is_space(byte: u8) -> bool
    ensures { result ≡ is_space byte }
{
    byte == b' ' || byte == b'\n' || byte == b'\t' || byte == b'\r'
}

/// The bytes that may stand in a run.
#[derive(Clone, Copy)]
pub(crate) enum Class {
    /// White space.
    Space,
    /// Bytes of a word after its first letter.
    Word,
    /// Decimal digits.
    Digit,
    /// Digits of a based literal.
    BasedDigit,
    /// Bytes within one line.
    Line,
}

impl Class {
    /// Whether the byte may stand in the run.
    pub(crate) fn passes(self, byte: u8) -> bool
        ensures { result ≡ passes self byte }
    {
        match self {
            Class::Space => is_space(byte),
            Class::Word => is_word_byte(byte),
            Class::Digit => is_digit(byte),
            Class::BasedDigit => is_based_digit(byte),
            Class::Line => byte != b'\n',
        }
    }
}
