//! Places of a text as compilers tell them.

ghost use Rattle.std.specs.Prelude.{◌≡◌, ◌≤◌, ◌+◌, length};
ghost use Rattle.std.specs.List.{count_by, suffix_len};
ghost use Rattle.std.specs.Fmt.{is_char_start};
ghost use Rattle.vast_check.specs.Internal.Places.{is_break, is_no_break, last_line, line_at, column_at};

/// A line and a column, both from one.
#[derive(Clone, Copy)]
pub(crate) struct Place {
    pub(crate) line: usize,
    /// It counts characters.
    pub(crate) column: usize,
}

/// The place of this byte of a text, or of its end.
pub(crate) fn place_of(bytes: &[u8], at: usize) -> Place
    requires { at ≤ length bytes.now }
    ensures line { result.line ≡ line_at bytes.now at }
    ensures column { result.column ≡ column_at bytes.now at }
{
    let (before, _) = bytes.split_at(at);
    Place {
        line: breaks(before) + 1,
        column: characters(last_line(before)) + 1,
    }
}

/// How many line breaks there are.
fn breaks(bytes: &[u8]) -> usize
    ensures { result ≡ count_by is_break bytes.now }
{
    bytes.iter().filter(|byte| **byte == b'\n').count()
}

/// What stands after the last line break.
fn last_line(bytes: &[u8]) -> &[u8]
    ensures { result.now ≡ last_line bytes.now }
{
    &bytes[line_start(bytes)..]
}

/// Where the last line begins.
fn line_start(bytes: &[u8]) -> usize
    ensures { result + suffix_len is_no_break bytes.now ≡ length bytes.now }
{
    let mut start = bytes.len();
    while start > 0 && bytes[start - 1] != b'\n' {
        start -= 1;
    }
    start
}

/// How many characters begin there.
fn characters(bytes: &[u8]) -> usize
    ensures { result ≡ count_by is_char_start bytes.now }
{
    bytes.iter().filter(|byte| is_char_start(**byte)).count()
}

/// Whether the byte is the first of a character.
fn is_char_start(byte: u8) -> bool
    ensures { result ≡ is_char_start byte }
{
    byte < 128 || 192 <= byte
}
