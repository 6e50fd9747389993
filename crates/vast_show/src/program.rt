//! What the program does with its words.

ghost use Rattle.std.specs.Prelude.{◌≡◌, ◌≤◌, length};
ghost use Rattle.vast_show.specs.Shown.{ShowsFile, ShowsFiles};

use std::alloc::Global;
use std::io::Write;
use vast_examples::example;
use vast_shell::print;

/// Prints the example that each word names, in their order, and returns the status: 0, or 1 at the first word that
/// names none, at a refusal or a fault, whose words go to `err`.
pub(crate) fn run<W: Write, E: Write>(alloc: Global, words: &[&str], out: &mut W, err: &mut E) -> u8
    ensures status { result ≤ 1 }
    ensures shown { result ≡ 0 →
        ShowsFiles (W.contents out.old) (length words.now) (W.contents out.new) }
    ensures silent { result ≡ 0 → E.contents err.new ≡ E.contents err.old }
{
    for word in words {
        if show(alloc, word, out, err) != 0 {
            return 1;
        }
    }
    0
}

/// Prints one example.
#[tactic(auto, using(crate::proofs::Shown::shown))]
fn show<W: Write, E: Write>(alloc: Global, word: &str, out: &mut W, err: &mut E) -> u8
    ensures status { result ≤ 1 }
    ensures shown { result ≡ 0 → ShowsFile (W.contents out.old) (W.contents out.new) }
    ensures silent { result ≡ 0 → E.contents err.new ≡ E.contents err.old }
{
    print(example(alloc, word), out, err)
}
