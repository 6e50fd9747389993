//! Where a run of bytes ends.

ghost use Rattle.std.specs.Prelude.{◌≡◌, ◌+◌, ◌≤◌, length, drop};
ghost use Rattle.std.specs.List.{prefix_len};
ghost use Rattle.vast_read.specs.Internal.Scanner.{byte_at, passes};

use crate::scanner::class::Class;

/// The byte at a place; after the end a line feed, which goes into no lexeme.
pub(crate) fn byte_at(text: &str, place: usize) -> u8
    ensures { result ≡ byte_at text.now place }
{
    let bytes = text.as_bytes();
    if place < bytes.len() {
        bytes[place]
    } else {
        b'\n'
    }
}

/// The first place from `from` on whose byte is not of the class, or the end.
pub(crate) fn run_end(text: &str, from: usize, class: Class) -> usize
    requires { from ≤ length text.now }
    ensures place { result ≡ from + prefix_len (passes class) (drop from text.now) }
    ensures within { result ≤ length text.now }
{
    let mut end = from;
    while end < text.len() && class.passes(byte_at(text, end)) {
        end += 1;
    }
    end
}
