//! The word `check`, run on texts and on readers. `tools/hostile/inputs` has more texts, for the built program.

mod deep;
mod designs;
mod fronts;

use crate::program::run;
use std::alloc::Global;
use std::io;
use std::io::{Read, Write};
use std::test::Fail;

/// The status, the output and the errors of `check` on this input.
fn checked<R: Read>(alloc: Global, input: &mut R) -> (u8, Vec<u8>, Vec<u8>) {
    let mut out = Vec::new(alloc);
    let mut err = Vec::new(alloc);
    let status = run(alloc, &["check"], input, &mut out, &mut err);
    (status, out, err)
}

#[test]
fn texts(rt: HostRuntime) {
    for (text, status, answer) in [
        ("", 0, "derived\n"),
        ("module m; endmodule", 0, "derived\n"),
        ("module m; assign a=((b)); endmodule", 0, "derived\n"),
        (
            "module m; for (genvar i = 0; i < b; i = i + 1) begin : g end endmodule",
            0,
            "derived\n",
        ),
        (
            "module m; initial begin for (int i = 0; i < b; i = i + 1) begin end end endmodule",
            0,
            "derived\n",
        ),
        ("// x", 0, "derived\n"),
        ("module m;", 1, "not derived\n"),
        ("module m; assign a = &&b; endmodule", 1, "not derived\n"),
        (
            "module m; for (genvar i = 0; i < a || b; i = i + 1) begin end endmodule",
            1,
            "not derived\n",
        ),
        (
            "module m; for (int i = 0; i < b; i = i + 1) begin end endmodule",
            1,
            "not derived\n",
        ),
        ("module m; endmodule x", 1, "not derived\n"),
        ("\"a", 1, "not derived\n"),
        ("\u{e9}", 1, "not derived\n"),
    ] {
        let (got, out, err) = checked(rt.alloc(), &mut text.as_bytes());
        assert_eq!(rt; got, status, "{text}");
        assert!(rt; out.as_slice() == answer.as_bytes());
        assert!(rt; err.is_empty());
    }
}

#[test]
fn derived_without_a_tree(rt: HostRuntime) -> Result<(), Fail> {
    for (text, is_derived) in [
        ("module m; assign a=((b)); endmodule", true),
        ("module m; endmodule x", false),
    ] {
        assert!(rt; vast_read::is_derived(rt.alloc(), text)? == is_derived);
    }
    Ok(())
}

#[test]
fn first_difference(rt: HostRuntime) -> Result<(), Fail> {
    let old = "module m; assign a = b - c - d; endmodule";
    for (new, pieces) in [
        // From the sign before the value up to the semicolon.
        (
            "module m; assign a = b - (c - d); endmodule",
            Some(((19, 30), (19, 32))),
        ),
        // At the word that tells which member it is.
        ("module m; wire a; endmodule", Some(((10, 10), (10, 10)))),
        ("module m; assign a = (b - c) - d; endmodule", None),
        ("module m; assign a = ; endmodule", None),
    ] {
        let found = vast_read::first_difference(rt.alloc(), old, new)?;
        let found = found.map(|it| ((it.old.start, it.old.end), (it.new.start, it.new.end)));
        assert!(rt; found == pieces, "{new}");
    }
    Ok(())
}

#[test]
fn no_utf8(rt: HostRuntime) {
    let (status, out, err) = checked(rt.alloc(), &mut [255].as_slice());
    assert_eq!(rt; status, 1);
    assert!(rt; out.as_slice() == "not derived\n".as_bytes());
    assert!(rt; err.is_empty());
}

#[test]
fn designs_are_derived(rt: HostRuntime) {
    let alloc = rt.alloc();
    for word in ["passthrough", "cases", "registers"] {
        let mut text = Vec::new(alloc);
        let mut err = Vec::new(alloc);
        let _ = run(alloc, &[word], &mut "".as_bytes(), &mut text, &mut err);
        let (status, out, err) = checked(alloc, &mut text.as_slice());
        assert_eq!(rt; status, 0, "{word}");
        assert!(rt; out.as_slice() == "derived\n".as_bytes());
        assert!(rt; err.is_empty());
    }
}

#[test]
fn longest_input(rt: HostRuntime) {
    let (status, out, err) = checked(rt.alloc(), &mut io::repeat(b' ').take(16_777_216));
    assert_eq!(rt; status, 0);
    assert!(rt; out.as_slice() == "derived\n".as_bytes());
    assert!(rt; err.is_empty());
}

/// Gives one space at a read, and then fails.
#[derive(Drop)]
struct Torn {
    is_read: bool,
}

impl Read for Torn {
    fn read(&mut self, buf: &mut [u8]) -> io::Result<usize> {
        if self.is_read {
            return Err(io::Error::from(io::ErrorKind::ConnectionReset));
        }
        self.is_read = true;
        io::repeat(b' ').take(1).read(buf)
    }
}

#[test]
fn read_faults(rt: HostRuntime) {
    let alloc = rt.alloc();
    for (status, out, err) in [
        checked(alloc, &mut io::repeat(b' ').take(16_777_217)),
        checked(alloc, &mut io::repeat(b' ')),
        checked(alloc, &mut Torn { is_read: false }),
    ] {
        assert_eq!(rt; status, 1);
        assert!(rt; out.is_empty());
        assert!(rt; err.as_slice() == "read fault\n".as_bytes());
    }
}

/// Gives one space at a read, has no end, and counts the reads.
#[derive(Drop)]
struct Spaces {
    reads: u32,
}

impl Read for Spaces {
    fn read(&mut self, buf: &mut [u8]) -> io::Result<usize> {
        self.reads = self.reads.wrapping_add(1);
        match buf.first_mut() {
            Some(byte) => {
                *byte = b' ';
                Ok(1)
            }
            None => Ok(0),
        }
    }
}

#[test]
fn last_read(rt: HostRuntime) {
    let mut input = Spaces { reads: 0 };
    let (status, out, err) = checked(rt.alloc(), &mut input);
    assert_eq!(rt; status, 1);
    assert!(rt; out.is_empty());
    assert!(rt; err.as_slice() == "read fault\n".as_bytes());
    assert_eq!(rt; input.reads, 16_777_217);
}

/// Is interrupted at every other read, and gives one byte of the text at the others.
#[derive(Drop)]
struct Interrupted<'t> {
    text: &'t [u8],
    is_next: bool,
}

impl Read for Interrupted<'_> {
    fn read(&mut self, buf: &mut [u8]) -> io::Result<usize> {
        self.is_next = !self.is_next;
        if self.is_next {
            return Err(io::Error::from(io::ErrorKind::Interrupted));
        }
        let room = buf.len().min(1);
        self.text.read(&mut buf[..room])
    }
}

#[test]
fn interrupted_reads(rt: HostRuntime) {
    let text = "module m; assign a = b; endmodule".as_bytes();
    let mut input = Interrupted {
        text,
        is_next: false,
    };
    let (status, out, err) = checked(rt.alloc(), &mut input);
    assert_eq!(rt; status, 0);
    assert!(rt; out.as_slice() == "derived\n".as_bytes());
    assert!(rt; err.is_empty());
}

/// Is interrupted at every read, and counts them.
#[derive(Drop)]
struct Busy {
    reads: u32,
}

impl Read for Busy {
    fn read(&mut self, _buf: &mut [u8]) -> io::Result<usize> {
        self.reads = self.reads.wrapping_add(1);
        Err(io::Error::from(io::ErrorKind::Interrupted))
    }
}

#[test]
fn interrupted_reads_count(rt: HostRuntime) {
    let mut input = Busy { reads: 0 };
    let (status, out, err) = checked(rt.alloc(), &mut input);
    assert_eq!(rt; status, 1);
    assert!(rt; out.is_empty());
    assert!(rt; err.as_slice() == "read fault\n".as_bytes());
    assert_eq!(rt; input.reads, 16_777_217);
}

/// Is interrupted at every other write, and counts the bytes that it takes at the others, one at a time.
#[derive(Drop)]
struct Slow {
    is_next: bool,
    bytes: usize,
}

impl Write for Slow {
    fn write(&mut self, buf: &[u8]) -> io::Result<usize> {
        self.is_next = !self.is_next;
        if self.is_next {
            return Err(io::Error::from(io::ErrorKind::Interrupted));
        }
        let count = buf.len().min(1);
        self.bytes = self.bytes.wrapping_add(count);
        Ok(count)
    }

    fn flush(&mut self) -> io::Result<()> {
        Ok(())
    }
}

#[test]
fn interrupted_writes(rt: HostRuntime) {
    let alloc = rt.alloc();
    let mut err = Vec::new(alloc);
    let mut out = Slow {
        is_next: false,
        bytes: 0,
    };
    let status = run(alloc, &["check"], &mut "".as_bytes(), &mut out, &mut err);
    assert_eq!(rt; status, 0);
    assert_eq!(rt; out.bytes, "derived\n".len());
    assert!(rt; err.is_empty());
}

/// Takes one byte, and then fails.
#[derive(Drop)]
struct Narrow {
    is_full: bool,
}

impl Write for Narrow {
    fn write(&mut self, buf: &[u8]) -> io::Result<usize> {
        if self.is_full {
            return Err(io::Error::from(io::ErrorKind::BrokenPipe));
        }
        self.is_full = true;
        Ok(buf.len().min(1))
    }

    fn flush(&mut self) -> io::Result<()> {
        Ok(())
    }
}

#[test]
fn write_faults(rt: HostRuntime) {
    let alloc = rt.alloc();
    let mut err = Vec::new(alloc);
    let mut out = Narrow { is_full: false };
    let status = run(alloc, &["check"], &mut "".as_bytes(), &mut out, &mut err);
    assert_eq!(rt; status, 1);
    assert!(rt; err.as_slice() == "write fault\n".as_bytes());
}
