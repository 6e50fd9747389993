//! What the lint tells of lines.

use std::alloc::{AllocError, Global};
use std::fmt::Write;
use vast_session::ListLines;
use vast_talk::{LineWarning, list_warnings};
use xlsynth_vast::VastFileType;

/// What the calls of these lines print that is no SystemVerilog or Verilog, or that a tool refuses: a line for each, in
/// the form of [`LineWarning`]. Lines are counted from 1.
pub(crate) fn warned_text(
    alloc: Global,
    dialect: VastFileType,
    lines: &[u8],
) -> Result<String, AllocError> {
    let list = list_of(alloc, dialect, lines)?;
    let warnings = list_warnings(alloc, &list)?;
    written(alloc, &warnings)
}

/// The list of these lines, after one that names the dialect, which is not counted.
fn list_of(
    alloc: Global,
    dialect: VastFileType,
    bytes: &[u8],
) -> Result<ListLines<'_>, AllocError> {
    let mut lines = Vec::new(alloc);
    lines.push((0, dialect_line(dialect)))?;
    let bytes = bytes.strip_suffix(b"\n").unwrap_or(bytes);
    for (number, line) in (1usize..).zip(bytes.split(|byte| *byte == b'\n')) {
        lines.push((number, line))?;
    }
    Ok(ListLines {
        title: None,
        number: 0,
        lines,
    })
}

fn dialect_line(dialect: VastFileType) -> &'static [u8] {
    match dialect {
        VastFileType::Verilog => b"verilog",
        VastFileType::SystemVerilog => b"systemverilog",
    }
}

fn written(alloc: Global, warnings: &[LineWarning]) -> Result<String, AllocError> {
    let mut text = String::new(alloc);
    for warning in warnings {
        writeln!(text, "{warning}")?;
    }
    Ok(text)
}
