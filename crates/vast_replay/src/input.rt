//! An input, by its lists or by its lines.

ghost use Rattle.std.specs.Prelude.{◌≡◌, ◌<◌, ◌∷◌, ◌++◌, [], IfOk, OnOk, length};
ghost use Rattle.std.specs.Io.KnownBytes.{Consumes, IsAtEnd};
ghost use Rattle.vast_calls.specs.Lines.{HasNoFeed};
ghost use Rattle.vast_list.specs.Output.{IsPrinted};
ghost use Rattle.vast_list.specs.Untitled.{GoesOnTo};
ghost use Rattle.vast_replay.specs.Input.{GivesTaken, unmarked};
ghost use Rattle.vast_replay.specs.Internal.Input.{GivesTextOf, HasRead, ReadsInput, ReadsOn};

use std::alloc::{AllocError, Global};
use std::io;
use std::io::{Error, ErrorKind, Read};
use vast_list::{ListOutput, UntitledList, is_packed_list, packed_output};
use vast_session::{HEADER, ListLines, ended_line};

/// What is read of an input.
#[derive(Drop)]
pub(crate) enum ReadInput {
    /// All its bytes.
    Bytes(Vec<u8>),
    /// What its one list gives, which is packed, or has no header, and whose lines were not kept.
    List(ListOutput),
}

/// A byte order mark.
const MARK: &[u8] = b"\xef\xbb\xbf";

/// A header after a byte order mark is seen in as many bytes.
const FRONT_BYTES: usize = 6;

const BUFFER_BYTES: usize = 1 << 16;

/// The lists of the input, in order: where the first line is a header each header begins one, else there is one list
/// without a header. The last line's break may be left out, and a byte order mark before the first is passed over.
pub(crate) fn split_lists(alloc: Global, input: &[u8]) -> Result<Vec<ListLines<'_>>, AllocError> {
    let mut lists = Vec::new(alloc);
    let input = without_mark(input);
    let has_headers = input.starts_with(HEADER);
    if !has_headers {
        lists.push(ListLines {
            title: None,
            number: 1,
            lines: Vec::new(alloc),
        })?;
    }
    let lines = input.strip_suffix(b"\n").unwrap_or(input);
    for (number, line) in (1usize..).zip(lines.split(|byte| *byte == b'\n')) {
        match line.strip_prefix(HEADER) {
            Some(title) if has_headers => lists.push(ListLines {
                title: Some(title.strip_suffix(b"\r").unwrap_or(title)),
                number,
                lines: Vec::new(alloc),
            })?,
            _ => {
                if let Some(list) = lists.last_mut() {
                    list.lines.push((number, line))?;
                }
            }
        }
    }
    Ok(lists)
}

fn without_mark(input: &[u8]) -> &[u8]
    ensures { result.now ≡ unmarked input.now }
{
    if input.starts_with(MARK) {
        &input[MARK.len()..]
    } else {
        input
    }
}

/// Reads the input to its end. The lines of a list without a header are taken as they come, and no more than the longest
/// is kept; where the first line is a header, or the list is packed, all bytes are.
///
/// # Errors
/// A failed read, and out of memory.
pub(crate) fn take_input<R: Read>(alloc: Global, input: &mut R) -> io::Result<ReadInput>
    ensures end { OnOk result (IsAtEnd (R.remaining input.new)) }
    ensures taken { IfOk result (GivesTaken (R.remaining input.old) (R.remaining input.new)) }
{
    let mut front = read_front(alloc, input)?;
    if is_packed_list(&front) {
        input.read_to_end(&mut front)?;
        return Ok(ReadInput::List(packed_output(alloc, &front)?));
    }
    let lines = without_mark(&front);
    if lines.starts_with(HEADER) {
        input.read_to_end(&mut front)?;
        return Ok(ReadInput::Bytes(front));
    }
    let mut list = InputLines::empty(alloc);
    list.take_bytes(lines)?;
    if front.len() >= FRONT_BYTES {
        list.take_rest(input)?;
    }
    Ok(ReadInput::List(list.finish()?))
}

/// The first bytes of the input, as many as show whether it begins with a header, or all.
fn read_front<R: Read>(alloc: Global, input: &mut R) -> io::Result<Vec<u8>>
    ensures bytes { IfOk result (λ front.
        Consumes (R.remaining input.old) (R.remaining input.new) front.items) }
    ensures end { IfOk result (λ front.
        length front.items < 6 → IsAtEnd (R.remaining input.new)) }
{
    let mut front = Vec::new(alloc);
    let mut buffer = [0; BUFFER_BYTES];
    for _ in 0..u64::MAX {
        match input.read(&mut buffer) {
            Ok(0) => return Ok(front),
            Ok(count) => front.extend_from_slice(&buffer[..count])?,
            Err(error) if error.kind() == ErrorKind::Interrupted => {}
            Err(error) => return Err(error),
        }
        if front.len() >= FRONT_BYTES {
            return Ok(front);
        }
    }
    Err(Error::from(ErrorKind::Other))
}

/// A list without a header whose bytes come in pieces.
#[derive(Drop)]
struct InputLines {
    list: UntitledList,
    /// How many lines were taken.
    number: usize,
    /// What came after the last line feed.
    left: Vec<u8>,
}

impl InputLines {
    fn empty(alloc: Global) -> InputLines
        ensures { HasRead result [] }
    {
        InputLines {
            list: UntitledList::new(alloc),
            number: 0,
            left: Vec::new(alloc),
        }
    }

    /// Takes the lines of the input, to its end.
    fn take_rest<R: Read>(&mut self, input: &mut R) -> io::Result<()>
        ensures end { OnOk result (IsAtEnd (R.remaining input.new)) }
        ensures read { OnOk result
            (ReadsInput self.old self.new (R.remaining input.old) (R.remaining input.new)) }
    {
        let mut buffer = [0; BUFFER_BYTES];
        for _ in 0..u64::MAX {
            match input.read(&mut buffer) {
                Ok(0) => return Ok(()),
                Ok(count) => self.take_bytes(&buffer[..count])?,
                Err(error) if error.kind() == ErrorKind::Interrupted => {}
                Err(error) => return Err(error),
            }
        }
        Err(Error::from(ErrorKind::Other))
    }

    /// Takes each line that ends in these bytes.
    fn take_bytes(&mut self, bytes: &[u8]) -> Result<(), AllocError>
        ensures { OnOk result (ReadsOn self.old self.new bytes.now) }
    {
        let mut rest = bytes;
        while let Some((piece, behind)) = ended_line(rest) {
            self.take_piece(piece)?;
            rest = behind;
        }
        self.left.extend_from_slice(rest)
    }

    /// Takes the line that ends with this piece.
    fn take_piece(&mut self, piece: &[u8]) -> Result<(), AllocError>
        ensures { OnOk result (HasNoFeed piece.now
            → ReadsOn self.old self.new (piece.now ++ 10 ∷ [])) }
    {
        if self.left.is_empty() {
            return self.take_line(piece);
        }
        self.left.extend_from_slice(piece)?;
        self.take_left()
    }

    fn take_line(&mut self, line: &[u8]) -> Result<(), AllocError>
        ensures taken { OnOk result (GoesOnTo self.old.list self.new.list line.now) }
        ensures left { self.new.left ≡ self.old.left }
    {
        self.number = self.number.saturating_add(1);
        self.list.take(self.number, line)
    }

    /// What was left is a line.
    fn take_left(&mut self) -> Result<(), AllocError>
        ensures taken { OnOk result
            (GoesOnTo self.old.list self.new.list self.old.left.items) }
        ensures left { OnOk result (self.new.left.items ≡ []) }
    {
        self.number = self.number.saturating_add(1);
        self.list.take(self.number, &self.left)?;
        self.left.clear();
        Ok(())
    }

    /// What the list gives: there are no more bytes.
    fn finish(mut self) -> Result<ListOutput, AllocError>
        ensures printed { IfOk result IsPrinted }
        ensures text { IfOk result (GivesTextOf self) }
    {
        if !self.left.is_empty() {
            self.take_left()?;
        }
        self.list.finish()
    }
}
