//! The lines of a list, and of a text.

ghost use Rattle.std.specs.Prelude.{◌≡◌, IfSome, IsNone};
ghost use Rattle.std.specs.List.{position_or_len};
ghost use Rattle.vast_calls.specs.Lines.{HasNoFeed, IsEnded, is_line_feed};

/// What begins the line before a list.
pub const HEADER: &[u8] = b"== ";

/// The lines of one list.
#[derive(Drop)]
pub struct ListLines<'a> {
    /// What stands after `== ` in the line before the list.
    pub title: Option<&'a [u8]>,
    /// The number of that line, from 1; 1 where there is none.
    pub number: usize,
    /// Each with its number in the input.
    pub lines: Vec<(usize, &'a [u8])>,
}

/// The first line of the bytes, where a line feed ends it, and what stands after that; `None` where there is none.
pub fn ended_line(bytes: &[u8]) -> Option<(&[u8], &[u8])>
    ensures some { IfSome result (λ cut. IsEnded bytes.now cut.0.now cut.1.now) }
    ensures none { IsNone result → HasNoFeed bytes.now }
{
    let end = line_end(bytes);
    if end < bytes.len() {
        Some((&bytes[..end], &bytes[end + 1..]))
    } else {
        None
    }
}

/// Where the first line feed stands, or after the last byte.
fn line_end(bytes: &[u8]) -> usize
    ensures { result ≡ position_or_len is_line_feed bytes.now }
{
    let mut end = 0;
    while end < bytes.len() {
        if bytes[end] == b'\n' {
            return end;
        }
        end += 1;
    }
    end
}
