//! Designs of any size, which are built and printed so that it can be measured: `vast_show measure flat 10000 5`.
//!
//! They are written as a user's are: by one set of lemmas, `callers`, and no proof of their own but the one line that says
//! what the loop of `sum` keeps.

mod assign;
mod cases;
mod fault;
mod flat;
mod nests;
mod sum;

use cases::build_cases;
pub(crate) use fault::MeasureFault;
use flat::build_flat;
use nests::build_nests;
use std::alloc::Global;
use std::io::Write;
use sum::build_sum;
use vast_shell::write_whole;
use xlsynth_vast::{FileIds, VastFile, VastFileType};

/// Builds a design for each three words, `DESIGN SIZE TIMES`, prints it so many times, and writes a line with the length
/// of its text to `out`; where the word `text` stands for the times, the text itself.
///
/// # Errors
/// The first fault, which ends the run.
pub(crate) fn measure_all<W: Write>(
    alloc: Global,
    words: &[&str],
    out: &mut W,
) -> Result<(), MeasureFault> {
    if words.is_empty() {
        return Err(MeasureFault::Words);
    }
    for three in words.chunks(3) {
        measure(alloc, three, out)?;
    }
    Ok(())
}

fn measure<W: Write>(alloc: Global, words: &[&str], out: &mut W) -> Result<(), MeasureFault> {
    let [design, digits, times] = words else {
        return Err(MeasureFault::Words);
    };
    let size = number(digits)?;
    let mut ids = FileIds::new();
    let mut file = VastFile::new(alloc, VastFileType::SystemVerilog, &mut ids).unwrap();
    build(design, size, &mut file)?;
    if *times == "text" {
        let text = file.emit()?;
        return Ok(write_whole(text.as_bytes(), out)?);
    }
    let times = number(times)?;
    let length = print_times(&file, times)?;
    let line = format!(in alloc; "{design} {size}: {length} bytes, {times} times\n")?;
    Ok(write_whole(line.as_bytes(), out)?)
}

fn number(digits: &str) -> Result<usize, MeasureFault> {
    match digits.parse::<usize>() {
        Ok(number) => Ok(number),
        Err(_) => Err(MeasureFault::Number),
    }
}

/// Builds the design of this name.
fn build(design: &str, size: usize, file: &mut VastFile) -> Result<(), MeasureFault> {
    if design == "flat" {
        build_flat(size, file)
    } else if design == "deep" {
        build_nests(1, size, file)
    } else if design == "many-deep" {
        build_nests(1000, size, file)
    } else if design == "sum" {
        build_sum(size, file)
    } else if design == "cases" {
        build_cases(size, file)
    } else {
        Err(MeasureFault::Unknown)
    }
}

/// The length of the text, which is printed so many times; 0 where it isn't printed.
fn print_times(file: &VastFile, times: usize) -> Result<usize, MeasureFault> {
    let mut length = 0;
    for _ in 0..times {
        let text = file.emit()?;
        length = text.len();
    }
    Ok(length)
}
