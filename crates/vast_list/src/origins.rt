//! Which calls the lines of a text come from.

ghost use Rattle.std.specs.Prelude.{◌≡◌, ◌⊎◌, ◌++◌, ◌<◌, ◌≤◌, ◌-◌, [], All, IfOk, IfSome, OnErr, OnOk, length, take, drop};
ghost use Rattle.vast_list.specs.Origins.{EndsNumbered, numbered, text_of};
ghost use Rattle.vast_list.specs.Internal.Origins.{ComesFrom, Follows, IsOriginIn};

use std::alloc::{AllocError, Global};
use std::fmt::Write;

/// A line of a text, its break included.
#[derive(Drop)]
pub(crate) struct TextLine {
    bytes: Vec<u8>,
    /// The number of the line of the list whose call wrote it.
    origin: usize,
}

/// The first line, its break included, and what stands after it.
fn next_line(text: &[u8]) -> (&[u8], &[u8])
    ensures whole { text.now ≡ result.0.now ++ result.1.now }
    ensures shorter { 0 < length text.now → length result.1.now < length text.now }
{
    match text.iter().position(|byte| *byte == b'\n') {
        Some(place) => text.split_at(place + 1),
        None => text.split_at(text.len()),
    }
}

/// How many of the lines the text begins with, and what stands after them.
fn shared_begin<'t>(lines: &[TextLine], text: &'t [u8]) -> (usize, &'t [u8])
    ensures count { result.0 ≤ length lines.now }
    ensures text { text.now ≡ text_of (take result.0 lines.now) ++ result.1.now }
{
    let mut rest = text;
    for (place, line) in lines.iter().enumerate() {
        match rest.strip_prefix(line.bytes.as_slice()) {
            Some(more) => rest = more,
            None => return (place, rest),
        }
    }
    (lines.len(), rest)
}

/// From which of the lines on, at least from this one, the text ends with them, and what stands before that.
fn shared_end<'t>(lines: &[TextLine], least: usize, text: &'t [u8]) -> (usize, &'t [u8])
    requires { least ≤ length lines.now }
    ensures least { least ≤ result.0 }
    ensures count { result.0 ≤ length lines.now }
    ensures text { text.now ≡ result.1.now ++ text_of (drop result.0 lines.now) }
{
    let mut rest = text;
    let mut place = lines.len();
    while place > least {
        match rest.strip_suffix(lines[place - 1].bytes.as_slice()) {
            Some(before) if before.is_empty() || before.ends_with(b"\n") => rest = before,
            _ => return (place, rest),
        }
        place -= 1;
    }
    (place, rest)
}

/// Up to which of the lines, from this one on, the text has others, and the text of those. A header's end that is another
/// goes on from the one in whose place it stands.
fn between<'t>(lines: &[TextLine], begin: usize, text: &'t [u8]) -> (usize, &'t [u8])
    requires { begin ≤ length lines.now }
    ensures begin { begin ≤ result.0 }
    ensures count { result.0 ≤ length lines.now }
    ensures text { text.now ≡ result.1.now ++ text_of (drop result.0 lines.now) }
{
    let (end, made) = shared_end(lines, begin, text);
    if end == begin && end < lines.len() && made.starts_with(b")") {
        shared_end(lines, begin + 1, text)
    } else {
        (end, made)
    }
}

/// A line without its indentation and its break.
fn words(line: &[u8]) -> &[u8] {
    line.trim_ascii_start().trim_ascii_end()
}

/// Whether the line goes on from the one in whose place it stands, as `if (a) begin` from `if (a) begin end`.
fn goes_on(old: &[u8], new: &[u8], is_first: bool) -> bool {
    let (old, new) = (words(old), words(new));
    if old.is_empty() || new.is_empty() {
        return false;
    }
    let is_begun = is_first && (old.first() == new.first() || new.ends_with(old));
    is_begun || new.starts_with(b")") || old.ends_with(new)
}

/// The origin of the first of the lines with the same words that is not used.
fn moved_from(kept: &[TextLine], used: &mut Vec<bool>, line: &[u8]) -> Option<usize>
    ensures { IfSome result (IsOriginIn kept.now) }
{
    for (place, old) in kept.iter().enumerate() {
        if let Some(is_used) = used.get_mut(place) {
            if !*is_used && words(&old.bytes) == words(line) {
                *is_used = true;
                return Some(old.origin);
            }
        }
    }
    None
}

/// The origin of a line that stands in the place of these.
fn origin_of(
    call: usize,
    kept: &[TextLine],
    used: &mut Vec<bool>,
    line: &[u8],
    is_first: bool,
) -> usize
    ensures { (result ≡ call) ⊎ IsOriginIn kept.now result }
{
    match kept {
        [only] => {
            if goes_on(&only.bytes, line, is_first) {
                only.origin
            } else {
                call
            }
        }
        _ => moved_from(kept, used, line).unwrap_or(call),
    }
}

/// The lines of the text, which stands in the place of these.
fn made_lines(
    alloc: Global,
    call: usize,
    kept: &[TextLine],
    text: &[u8],
) -> Result<Vec<TextLine>, AllocError>
    ensures { IfOk result (λ made.
        (text_of made.items ≡ text.now) × All (ComesFrom call kept.now) made.items) }
{
    let mut used = Vec::new(alloc);
    used.resize(kept.len(), false)?;
    let mut made = Vec::new(alloc);
    let mut rest = text;
    while !rest.is_empty() {
        let (line, more) = next_line(rest);
        let origin = origin_of(call, kept, &mut used, line, made.is_empty());
        let mut bytes = Vec::new(alloc);
        bytes.extend_from_slice(line)?;
        made.push(TextLine { bytes, origin })?;
        rest = more;
    }
    Ok(made)
}

/// Puts these lines in the place of those from `begin` to `end`.
fn replace(
    lines: &mut Vec<TextLine>,
    begin: usize,
    end: usize,
    made: Vec<TextLine>,
) -> Result<(), AllocError>
    requires order { begin ≤ end }
    requires bound { end ≤ length lines.old.items }
    ensures replaced { OnOk result
        (lines.new.items ≡ take begin lines.old.items ++ (made.items ++ drop end lines.old.items)) }
    ensures unchanged { OnErr result (lines.new.items ≡ lines.old.items) }
{
    lines.splice(begin..end, made)?;
    Ok(())
}

/// A text's lines, each with the number of the line of the list whose call wrote it.
#[derive(Drop)]
pub struct Origins {
    alloc: Global,
    lines: Vec<TextLine>,
}

impl Origins {
    /// Of an empty text. It takes no memory.
    pub(crate) fn new(alloc: Global) -> Origins
        ensures { result.lines.items ≡ [] }
    {
        Origins {
            alloc,
            lines: Vec::new(alloc),
        }
    }

    /// The call of this line has made the text another.
    ///
    /// # Errors
    /// Out of memory; the lines are then as before.
    pub(crate) fn follow(&mut self, call: usize, text: &[u8]) -> Result<(), AllocError>
        ensures text { OnOk result (text_of self.new.lines.items ≡ text.now) }
        ensures origins { OnOk result (Follows call self.old.lines.items self.new.lines.items) }
        ensures unchanged { OnErr result (self.new.lines.items ≡ self.old.lines.items) }
    {
        let (begin, rest) = shared_begin(&self.lines, text);
        let (end, text) = between(&self.lines, begin, rest);
        let made = made_lines(self.alloc, call, &self.lines[begin..end], text)?;
        replace(&mut self.lines, begin, end, made)?;
        Ok(())
    }
}

/// How many bytes stand before the lines in an output that ends with them.
fn begin_in(lines: &[TextLine], output: &[u8]) -> usize
    ensures { result ≡ length output.now - length (text_of lines.now) }
{
    let mut begin = output.len();
    for line in lines {
        begin = begin.saturating_sub(line.bytes.len());
    }
    begin
}

/// Appends the lines, each after its number and a tab.
fn push_numbered(alloc: Global, lines: &[TextLine], mapped: &mut Vec<u8>) -> Result<(), AllocError>
    ensures { OnOk result (mapped.new.items ≡ mapped.old.items ++ numbered lines.now) }
{
    for line in lines {
        let number = format!(in alloc; "{}\t", line.origin)?;
        mapped.extend_from_slice(number.as_bytes())?;
        mapped.extend_from_slice(&line.bytes)?;
    }
    Ok(())
}

impl Origins {
    /// The output, whose end is the text: each line of the text stands after its number and a tab.
    pub fn mapped(&self, output: &[u8]) -> Result<Vec<u8>, AllocError>
        ensures { IfOk result (λ mapped.
            EndsNumbered self.now.lines.items output.now mapped.items) }
    {
        let mut mapped = Vec::new(self.alloc);
        mapped.extend_from_slice(&output[..begin_in(&self.lines, output)])?;
        push_numbered(self.alloc, &self.lines, &mut mapped)?;
        Ok(mapped)
    }

    /// Appends the numbers as a list of JSON.
    pub(crate) fn push_json(&self, text: &mut String) -> Result<(), AllocError> {
        text.push('[')?;
        let mut is_first = true;
        for line in &self.lines {
            if !is_first {
                text.push(',')?;
            }
            is_first = false;
            write!(text, "{}", line.origin)?;
        }
        text.push(']')
    }
}
