//! What the program does with its words and its streams.

ghost use Rattle.std.specs.Prelude.{◌≡◌, ◌≤◌, true, false, IsNone, IsSome, IfSome};
ghost use Rattle.std.specs.Io.KnownBytes.{Appends};
ghost use Rattle.vast_demo.specs.Check.{CheckEnds, answer_line};
ghost use Rattle.vast_demo.specs.Words.{text_of, design_text, is_check};

use crate::check::check;
use std::alloc::Global;
use std::io::{Read, Write};
use vast_designs::{cases, passthrough, registers};
use vast_shell::{Failure, InputFault, WriteFault, print, tell, write_whole};

/// The line that tells of other words.
const UNKNOWN: &str = "unknown design\n";

/// Prints the design that the one word names to `out`, or checks `input`, and returns the status.
///
/// `passthrough`, `cases` and `registers` are printed with status 0. A fault or out of memory prints its text to
/// `err`, status 1; a failed write prints `write fault` there, status 1. No word, another word or more than one prints
/// `unknown design` there, status 2. Every text on `err` has a line break after it; a failed write there changes no
/// status. No design reads `input`.
///
/// `check` reads `input` to its end and prints `derived`, status 0, where that is the UTF-8 of a text that the grammar
/// derives, and `not derived`, status 1, where it isn't; where a write failed, a front of that line. A failed read, more
/// than 16,777,216 bytes or no end after 16,777,217 reads prints `read fault` to `err`, status 1, and out of memory its
/// text: no more than 16,777,217 bytes are read then, and nothing is written to `out`. An interrupted read or write is
/// tried again; such a read counts as one. A text on `err` may lack its end where a write to it failed.
pub fn run<R: Read, W: Write, E: Write>(
    alloc: Global,
    words: &[&str],
    input: &mut R,
    out: &mut W,
    err: &mut E,
) -> u8
    ensures unknown { IsNone (design_text words.now) → is_check words.now ≡ false → result ≡ 2 }
    ensures known { IsSome (design_text words.now) → result ≤ 1 }
    ensures printed { IfSome (design_text words.now) (λ text. result ≡ 0 →
        Appends (W.contents out.old) (W.contents out.new) text) }
    ensures checked { is_check words.now ≡ true →
        CheckEnds (R.remaining input.old) (R.remaining input.new)
        (W.contents out.old) (W.contents out.new) (E.contents err.old) (E.contents err.new) result }
    ensures unread { is_check words.now ≡ false → R.remaining input.new ≡ R.remaining input.old }
    ensures unwritten { result ≡ 2 → W.contents out.new ≡ W.contents out.old }
    ensures silent { result ≡ 0 → E.contents err.new ≡ E.contents err.old }
{
    match words {
        [word] => {
            if *word == "check" {
                print_answer(alloc, input, out, err)
            } else {
                print_named(alloc, word, out, err)
            }
        }
        _ => tell(UNKNOWN, 2, err),
    }
}

fn print_named<W: Write, E: Write>(alloc: Global, name: &str, out: &mut W, err: &mut E) -> u8
    ensures unknown { IsNone (text_of name.now) → result ≡ 2 }
    ensures known { IsSome (text_of name.now) → result ≤ 1 }
    ensures unwritten { result ≡ 2 → W.contents out.new ≡ W.contents out.old }
    ensures printed { IfSome (text_of name.now) (λ text. result ≡ 0 →
        Appends (W.contents out.old) (W.contents out.new) text) }
    ensures silent { result ≡ 0 → E.contents err.new ≡ E.contents err.old }
{
    if name == "passthrough" {
        print(passthrough(alloc), out, err)
    } else if name == "cases" {
        print(cases(alloc), out, err)
    } else if name == "registers" {
        print(registers(alloc), out, err)
    } else {
        tell(UNKNOWN, 2, err)
    }
}

fn print_answer<R: Read, W: Write, E: Write>(
    alloc: Global,
    input: &mut R,
    out: &mut W,
    err: &mut E,
) -> u8
    ensures status { result ≤ 1 }
    ensures ends { CheckEnds (R.remaining input.old) (R.remaining input.new)
        (W.contents out.old) (W.contents out.new) (E.contents err.old) (E.contents err.new) result }
    ensures silent { result ≡ 0 → E.contents err.new ≡ E.contents err.old }
{
    match check(alloc, input) {
        Ok(is_derived) => match write_whole(answer_line(is_derived).as_bytes(), out) {
            Ok(()) => u8::from(!is_derived),
            Err(WriteFault) => tell(Failure::Write.line(), 1, err),
        },
        Err(InputFault::Memory) => tell(Failure::Memory.line(), 1, err),
        Err(_) => tell(Failure::Read.line(), 1, err),
    }
}

/// The line that is written.
fn answer_line(is_derived: bool) -> &'static str
    ensures { result.now ≡ answer_line is_derived }
{
    if is_derived {
        "derived\n"
    } else {
        "not derived\n"
    }
}

#[cfg(test)]
mod tests {
    use super::run;
    use std::io;
    use std::io::Write;

    #[derive(Drop)]
    struct Closed;

    impl Write for Closed {
        fn write(&mut self, _buf: &[u8]) -> io::Result<usize> {
            Err(io::Error::from(io::ErrorKind::BrokenPipe))
        }

        fn flush(&mut self) -> io::Result<()> {
            Ok(())
        }
    }

    #[test]
    fn prints_the_designs(rt: HostRuntime) {
        let alloc = rt.alloc();
        for (word, text) in [
            (
                "passthrough",
                "module passthrough(\n  input wire [7:0] input_data,\n  output wire [7:0] output_data\n);\n  assign output_data = input_data;\nendmodule\n",
            ),
            (
                "cases",
                "module encoder(\n  input wire [3:0] s,\n  output wire [1:0] y\n);\n  function automatic logic [1:0] f (input reg [3:0] s);\n    unique casez (s)\n      4'b1???: f = 2;\n      default: begin\n        // none\n        f = 0;\n      end\n    endcase\n  endfunction\n  assign y = f(s);\nendmodule\n",
            ),
            (
                "registers",
                "module regs_rst_en(\n  input wire clk,\n  input wire rst,\n  input wire en\n);\n  logic [7:0] r;\n  logic [7:0] r_next;\n  logic [7:0] r2;\n  logic [7:0] r2_next;\n  always_ff @ (posedge clk) begin\n    if (!rst) begin\n      r <= 8'haa;\n      r2 <= 8'h55;\n    end else begin\n      r <= en ? r_next : r;\n      r2 <= r2_next;\n    end\n  end\nendmodule\n",
            ),
        ] {
            let mut out: Vec<u8> = Vec::new(alloc);
            let mut err: Vec<u8> = Vec::new(alloc);
            assert_eq!(rt;
                run(alloc, &[word], &mut io::empty(), &mut out, &mut err),
                0
            );
            assert!(rt; err.is_empty());
            assert!(rt; out.as_slice() == text.as_bytes());
        }
    }

    #[test]
    fn knows_no_other_design(rt: HostRuntime) {
        let alloc = rt.alloc();
        let mut out: Vec<u8> = Vec::new(alloc);
        let mut err: Vec<u8> = Vec::new(alloc);
        assert_eq!(rt; run(alloc, &[], &mut io::empty(), &mut out, &mut err), 2);
        assert_eq!(rt; run(alloc, &["x"], &mut io::empty(), &mut out, &mut err), 2);
        let twice = ["passthrough", "passthrough"];
        assert_eq!(rt; run(alloc, &twice, &mut io::empty(), &mut out, &mut err), 2);
        assert!(rt; out.is_empty());
        let said = "unknown design\nunknown design\nunknown design\n";
        assert!(rt; err.as_slice() == said.as_bytes());
    }

    #[test]
    fn says_that_a_write_failed(rt: HostRuntime) {
        let alloc = rt.alloc();
        let mut err: Vec<u8> = Vec::new(alloc);
        let status = run(
            alloc,
            &["passthrough"],
            &mut io::empty(),
            &mut Closed,
            &mut err,
        );
        assert_eq!(rt; status, 1);
        assert!(rt; err.as_slice() == "write fault\n".as_bytes());
        let status = run(
            alloc,
            &["passthrough"],
            &mut io::empty(),
            &mut Closed,
            &mut Closed,
        );
        assert_eq!(rt; status, 1);
    }
}
