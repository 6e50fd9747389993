//! Writes lines with depths into one growing text.

ghost use Rattle.std.specs.Prelude.{◌≡◌, ◌++◌, ◌+◌, ◌-◌, ◌*◌, ◌<◌, [], replicate, OnOk, IfOk, string_bytes};
ghost use Rattle.std.specs.Fmt.{decimal, signed_decimal};
ghost use Rattle.vast_print.specs.Printed.{plain_text};
ghost use Rattle.vast_print.specs.Page.{line, written, commented};
ghost use Rattle.vast_print.specs.Draft.{blank, whole};
ghost use Rattle.vast_print.specs.Output.{Unstopped, append_word, word, next, indented, inline};

use std::alloc::{AllocError, Global};
use std::fmt::Write;
use std::marker::Model;

/// A text that grows line by line. A line break stands before each line but the first, and the
/// spaces of a line come with its first word, so an empty line has none. Lines begin at the margin.
#[derive(Drop)]
pub struct Writer {
    text: String,
    /// At which depth lines begin; a depth is two spaces.
    margin: usize,
    /// At which depth the last line began.
    depth: usize,
    fresh: bool,
    begun: bool,
}

impl Model for Writer {
    ghost use Rattle.std.specs.Prelude.{string_bytes};
    ghost use Rattle.vast_print.specs.Draft.{Writing};

    ghost Value = { Writing };

    ghost view = { λ w. record { draft = record { text = string_bytes w.text; depth = w.depth; fresh = w.fresh; begun = w.begun }; margin = w.margin } };
}

impl Writer {
    /// A writer of an empty text, at no margin.
    pub fn new(alloc: Global) -> Writer
        ensures { result ≡ blank }
    {
        Writer {
            text: String::new(alloc),
            margin: 0,
            depth: 0,
            fresh: true,
            begun: false,
        }
    }

    /// Lets the lines that are begun from here on stand one deeper.
    ///
    /// # Errors
    /// `AllocError` where no memory could hold as many spaces.
    pub fn deeper(&mut self) -> Result<(), AllocError>
        ensures draft { self.new.draft ≡ self.old.draft }
        ensures margin { OnOk result (self.new.margin ≡ self.old.margin + 1) }
    {
        self.margin = one_deeper(self.margin)?;
        Ok(())
    }

    /// Lets the lines that are begun from here on stand one less deep.
    pub fn shallower(&mut self)
        ensures draft { self.new.draft ≡ self.old.draft }
        ensures margin { self.new.margin ≡ self.old.margin - 1 }
    {
        self.margin = self.margin.saturating_sub(1);
    }

    /// Begins a line at the margin.
    ///
    /// # Errors
    /// `AllocError` where the text's growth was refused.
    pub fn next(&mut self) -> Result<(), AllocError>
        ensures text { OnOk result
            (next self.old.margin (Unstopped self.old.draft) ≡ Unstopped self.new.draft) }
        ensures margin { self.new.margin ≡ self.old.margin }
    {
        self.begin_line(self.margin)
    }

    /// Begins a line one deeper than the margin; the margin stays.
    ///
    /// # Errors
    /// As [`Writer::next`] and [`Writer::deeper`].
    pub fn next_inner(&mut self) -> Result<(), AllocError>
        ensures text { OnOk result
            (next (self.old.margin + 1) (Unstopped self.old.draft) ≡ Unstopped self.new.draft) }
        ensures margin { self.new.margin ≡ self.old.margin }
    {
        let depth = one_deeper(self.margin)?;
        self.begin_line(depth)
    }

    #[tactic(auto, unfolding(crate::specs::Output::next))]
    fn begin_line(&mut self, depth: usize) -> Result<(), AllocError>
        ensures text { OnOk result (next depth (Unstopped self.old.draft) ≡ Unstopped self.new.draft) }
        ensures margin { self.new.margin ≡ self.old.margin }
    {
        if self.begun {
            self.text.push('\n')?;
        }
        self.depth = depth;
        self.fresh = true;
        self.begun = true;
        Ok(())
    }

    /// Writes a text without line breaks on the last line.
    ///
    /// # Errors
    /// `AllocError` where the text's growth was refused.
    #[inline(always)]
    #[tactic(auto, unfolding(crate::specs::Output::word))]
    pub fn word(&mut self, text: &str) -> Result<(), AllocError>
        ensures text { OnOk result (word (Unstopped self.old.draft) text.now ≡ Unstopped self.new.draft) }
        ensures margin { self.new.margin ≡ self.old.margin }
    {
        if text.is_empty() {
            return Ok(());
        }
        self.begin_word()?;
        self.text.push_str(text)
    }

    #[inline(always)]
    fn begin_word(&mut self) -> Result<(), AllocError>
        ensures text { OnOk result (self.new.draft ≡ append_word self.old.draft []) }
        ensures margin { self.new.margin ≡ self.old.margin }
    {
        if self.fresh {
            indent(self.depth, &mut self.text)?;
        }
        self.fresh = false;
        Ok(())
    }

    /// Writes a number in decimal on the last line.
    ///
    /// # Errors
    /// `AllocError` where the text's growth was refused.
    pub fn number(&mut self, number: i64) -> Result<(), AllocError>
        ensures text { OnOk result
            (word (Unstopped self.old.draft) (signed_decimal number) ≡ Unstopped self.new.draft) }
        ensures margin { self.new.margin ≡ self.old.margin }
    {
        self.begin_word()?;
        push_number(number, &mut self.text)?;
        Ok(())
    }

    /// Writes a text after the last line; what stands after its line breaks goes on at the margin.
    ///
    /// # Errors
    /// `AllocError` where the text's growth was refused.
    pub fn written(&mut self, text: &str) -> Result<(), AllocError>
        ensures text { OnOk result
            (inline self.old.margin (Unstopped self.old.draft) (written (plain_text text.now))
            ≡ Unstopped self.new.draft) }
        ensures margin { self.new.margin ≡ self.old.margin }
    {
        if text.as_bytes().contains(&b'\n') {
            self.lines(text)
        } else {
            self.word(text)
        }
    }

    /// Writes a text line by line.
    fn lines(&mut self, text: &str) -> Result<(), AllocError>
        ensures text { OnOk result
            (inline self.old.margin (Unstopped self.old.draft) (written (plain_text text.now))
            ≡ Unstopped self.new.draft) }
        ensures margin { self.new.margin ≡ self.old.margin }
    {
        let mut rest = text;
        while let Some((line, more)) = rest.split_once('\n') {
            self.word(line)?;
            self.next()?;
            rest = more;
        }
        self.word(rest)
    }

    #[tactic(auto, using(crate::proofs::OutputLaws::comments))]
    fn comment_line(&mut self, text: &str) -> Result<(), AllocError>
        ensures text { OnOk result
            (indented self.old.margin (Unstopped self.old.draft) (commented (line text.now))
            ≡ Unstopped self.new.draft) }
        ensures margin { self.new.margin ≡ self.old.margin }
    {
        self.next()?;
        if text.is_empty() {
            self.word("//")
        } else {
            self.word("// ")?;
            self.word(text)
        }
    }

    /// Writes a text as a comment, on lines of its own.
    ///
    /// # Errors
    /// `AllocError` where the text's growth was refused.
    pub fn comment(&mut self, text: &str) -> Result<(), AllocError>
        ensures text { OnOk result
            (indented self.old.margin (Unstopped self.old.draft) (commented (written (plain_text text.now)))
            ≡ Unstopped self.new.draft) }
        ensures margin { self.new.margin ≡ self.old.margin }
    {
        let mut rest = text;
        while let Some((line, more)) = rest.split_once('\n') {
            self.comment_line(line)?;
            rest = more;
        }
        self.comment_line(rest)
    }

    /// The whole text, each line with a line break after it.
    ///
    /// # Errors
    /// `AllocError` where the text's growth was refused.
    #[tactic(auto, unfolding(crate::specs::Draft::whole))]
    pub fn finish(self) -> Result<String, AllocError>
        ensures { IfOk result (λ text. string_bytes text ≡ whole self.draft) }
    {
        let mut whole = self.text;
        if self.begun {
            whole.push('\n')?;
        }
        Ok(whole)
    }

    /// The text without the line break after its last line.
    pub fn finish_line(self) -> String
        ensures { string_bytes result ≡ self.draft.text }
    {
        self.text
    }
}

/// The depth below a depth.
fn one_deeper(depth: usize) -> Result<usize, AllocError>
    ensures { IfOk result (λ deeper. deeper ≡ depth + 1) }
{
    depth.checked_add(1).ok_or(AllocError)
}

fn indent(depth: usize, text: &mut String) -> Result<(), AllocError>
    ensures { OnOk result
        (string_bytes text.new ≡ string_bytes text.old ++ replicate (2 * depth) 32) }
{
    for _ in 0..depth {
        text.push_str("  ")?;
    }
    Ok(())
}

/// Writes a number in decimal after a text.
fn push_number(number: i64, text: &mut String) -> Result<(), AllocError>
    ensures { OnOk result (string_bytes text.new ≡ string_bytes text.old ++ signed_decimal number) }
{
    match u64::try_from(number) {
        Ok(natural) => push_natural(natural, text),
        Err(_) => {
            write!(text, "{number}")?;
            Ok(())
        }
    }
}

/// Writes a number of one or two digits without a formatter, which takes ten times as long: most
/// indices are as short.
#[tactic(auto, using(crate::proofs::NumberLaws::short_numbers))]
fn push_natural(number: u64, text: &mut String) -> Result<(), AllocError>
    ensures { OnOk result (string_bytes text.new ≡ string_bytes text.old ++ decimal number) }
{
    if number < 10 {
        push_digit(number, text)
    } else if number < 100 {
        push_digit(number / 10, text)?;
        push_digit(number % 10, text)
    } else {
        write!(text, "{number}")?;
        Ok(())
    }
}

#[inline(always)]
#[tactic(auto, using(crate::proofs::NumberLaws::short_numbers))]
fn push_digit(digit: u64, text: &mut String) -> Result<(), AllocError>
    requires { digit < 10 }
    ensures { OnOk result (string_bytes text.new ≡ string_bytes text.old ++ decimal digit) }
{
    text.push((b'0' + digit as u8) as char)
}
