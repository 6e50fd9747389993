//! Lines that are taken once more where memory was refused, on a file that must be as it was.
//!
//! With one request refused, such a run gives what it gives without a refusal: that is how refused memory is tried.

ghost use Rattle.std.specs.Prelude.{OnOk, true};
ghost use Rattle.vast_list.specs.Internal.Built.{TakesLine};

use crate::tried;
use crate::tries::Tries;
use std::alloc::{AllocError, Global};
use std::str;
use vast_literal::VastFault;
use vast_script::Answer;
use vast_session::{Fault, LineResult, Session};
use xlsynth_vast::{VastFile, VastFileType, VastModule};

/// What can be seen of a file.
#[derive(PartialEq, Drop)]
struct Sight {
    text: String,
    /// How many members each module has.
    counts: Vec<usize>,
    /// Whether each text of the list is a free name in each module.
    free: Vec<bool>,
}

/// What a list's file is held against.
#[derive(Drop)]
pub(crate) struct Rerun<'a> {
    /// The texts of the list, which may be names.
    names: Vec<&'a str>,
    /// The text that a first run left which was refused memory; `None` where none was.
    stopped: Option<String>,
    /// Whether the file had that text after some of its lines.
    is_prefix: bool,
    /// Whether a call that was refused memory has changed the file since that was asked.
    is_changed: bool,
}

impl<'a> Rerun<'a> {
    /// A trial of the lines after the dialect's.
    ///
    /// # Errors
    /// Out of memory, where it was refused twice.
    pub(crate) fn new(
        alloc: Global,
        dialect: VastFileType,
        lines: &[(usize, &'a [u8])],
    ) -> Result<Rerun<'a>, AllocError> {
        let stopped = stopped_text(alloc, dialect, lines)?;
        Ok(Rerun {
            names: tried!(Tries::Again, names_of(alloc, lines))?,
            stopped,
            is_prefix: false,
            is_changed: false,
        })
    }

    /// Takes the line; where memory was refused, once more.
    #[tactic(auto, using(crate::proofs::Built::taking))]
    pub(crate) fn take<'l>(
        &mut self,
        session: &mut Session,
        number: usize,
        line: &'l [u8],
    ) -> Result<LineResult<'l>, Fault>
        ensures { OnOk result (TakesLine true session.old session.new line.now) }
    {
        let before = self.sight(session)?;
        self.is_prefix = self.is_prefix || is_left(&self.stopped, &before.text);
        match session.line(number, line) {
            Ok(given) => Ok(given),
            Err(Fault::Line(fault)) => Err(Fault::Line(fault)),
            Err(Fault::Memory) => {
                if self.sight(session)? != before {
                    self.is_changed = true;
                }
                session.line(number, line)
            }
        }
    }

    /// Whether a call that was refused memory has changed the file since this was asked.
    pub(crate) fn take_change(&mut self) -> bool {
        let is_changed = self.is_changed;
        self.is_changed = false;
        is_changed
    }

    /// Whether the first run left the text of some of the first lines.
    ///
    /// # Errors
    /// Out of memory, where it was refused twice.
    pub(crate) fn is_prefix(&self, session: &Session) -> Result<bool, AllocError> {
        let last = self.sight(session)?;
        Ok(self.is_prefix || is_left(&self.stopped, &last.text))
    }

    fn sight(&self, session: &Session) -> Result<Sight, AllocError> {
        tried!(Tries::Again, self.look(session))
    }

    fn look(&self, session: &Session) -> Result<Sight, AllocError> {
        let file = session.file();
        let alloc = file.allocator();
        let mut sight = Sight {
            text: text_of(file)?,
            counts: Vec::new(alloc),
            free: Vec::new(alloc),
        };
        for answer in session.answers() {
            if let Answer::VastModule(module) = answer {
                self.look_at(file, *module, &mut sight)?;
            }
        }
        Ok(sight)
    }

    fn look_at(
        &self,
        file: &VastFile,
        module: VastModule,
        sight: &mut Sight,
    ) -> Result<(), AllocError> {
        if !file.owns(&module) {
            return Ok(());
        }
        sight.counts.push(file.module_member_count(module))?;
        for name in &self.names {
            sight.free.push(file.name_is_free(module, name))?;
        }
        Ok(())
    }
}

/// The file's text, or its refusal.
fn text_of(file: &VastFile) -> Result<String, AllocError> {
    match file.emit() {
        Ok(text) => Ok(text),
        Err(VastFault::Refused(refusal)) => format!(in file.allocator(); "refused: {refusal}\n"),
        Err(VastFault::Memory(error)) => Err(error),
    }
}

/// The text of the file of a run that was refused memory; `None` where it was not.
fn stopped_text(
    alloc: Global,
    dialect: VastFileType,
    lines: &[(usize, &[u8])],
) -> Result<Option<String>, AllocError> {
    let mut session = Session::new(alloc, dialect);
    let text = if is_refused_memory(&mut session, lines) {
        text_of(session.file()).map(Some)
    } else {
        Ok(None)
    };
    drop(session);
    text
}

/// Makes the calls of the lines up to the first that is refused; whether that is for lack of memory.
fn is_refused_memory(session: &mut Session, lines: &[(usize, &[u8])]) -> bool {
    for (number, line) in lines {
        let taken = session.line(*number, line);
        let is_made = taken.is_ok();
        let is_memory = matches!(taken, Err(Fault::Memory));
        drop(taken);
        if !is_made {
            return is_memory;
        }
    }
    false
}

fn names_of<'a>(alloc: Global, lines: &[(usize, &'a [u8])]) -> Result<Vec<&'a str>, AllocError> {
    let mut names = Vec::new(alloc);
    for (_, line) in lines {
        add_names(line, &mut names)?;
    }
    Ok(names)
}

/// Adds what stands between quotes in the line.
fn add_names<'a>(line: &'a [u8], names: &mut Vec<&'a str>) -> Result<(), AllocError> {
    let line = str::from_utf8(line).unwrap_or("");
    for name in line.split('"').skip(1).step_by(2) {
        names.push(name)?;
    }
    Ok(())
}

/// Whether a run that stopped left this text; true where none did.
fn is_left(stopped: &Option<String>, text: &str) -> bool {
    match stopped {
        None => true,
        Some(stopped) => stopped.as_str() == text,
    }
}
