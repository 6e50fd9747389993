//! The lines of a text.

ghost use Rattle.std.specs.Prelude.{◌≡◌, ◌<◌, ◌∷◌, length};
ghost use Rattle.vast_calls.specs.Lines.{lines_of};

use vast_session::ended_line;

/// The first line of the bytes, which are not none, without its line feed, and what stands after that.
#[tactic(auto, using(vast_session::proofs::EndedLines::first_lines))]
pub(crate) fn first_line(bytes: &[u8]) -> (&[u8], &[u8])
    requires { 0 < length bytes.now }
    ensures lines { lines_of bytes.now ≡ result.0.now ∷ lines_of result.1.now }
    ensures shorter { length result.1.now < length bytes.now }
{
    match ended_line(bytes) {
        Some(cut) => cut,
        None => (bytes, &[]),
    }
}
