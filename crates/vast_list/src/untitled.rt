//! A list without a title, taken line by line.

ghost use Rattle.std.specs.Prelude.{[], IfOk, OnOk};
ghost use Rattle.vast_calls.specs.Lines.{HasKind, Passed};
ghost use Rattle.vast_list.specs.Output.{IsPrinted};
ghost use Rattle.vast_list.specs.Untitled.{GoesOnTo, HasTaken, IsPrintedOf};
ghost use Rattle.vast_list.specs.Internal.Untitled.{LeadsTo};

use crate::answering::ListRun;
use crate::output::{ListOutput, at_fault, finished};
use crate::tries::Tries;
use std::alloc::{AllocError, Global};
use vast_calls::{Problem, is_empty_line};
use vast_session::{Fault, LineFault, dialect_of, problem_fault};

/// A list without a title whose lines are taken as they come, and not kept: what is printed and told of it in the end is
/// what [`list_output`](crate::list_output) prints and tells of all of them, with `Tries::Once`.
#[derive(Drop)]
pub struct UntitledList {
    alloc: Global,
    stage: Stage,
}

/// What the lines so far have led to.
#[derive(Drop)]
enum Stage {
    /// All are blank or comments.
    Before,
    /// One named the dialect.
    Behind(ListRun<'static>),
    /// The first that is neither blank nor a comment names no dialect.
    Astray(LineFault),
}

impl UntitledList {
    /// A list of no line. It takes no memory.
    pub fn new(alloc: Global) -> UntitledList
        ensures { HasTaken [] result }
    {
        UntitledList {
            alloc,
            stage: Stage::Before,
        }
    }

    /// Takes the next line, without its line feed; its number in the input is `number`.
    ///
    /// # Errors
    /// Out of memory. The list is then of no more use.
    #[tactic(auto, using(crate::proofs::UntitledLists::untitled))]
    pub fn take(&mut self, number: usize, line: &[u8]) -> Result<(), AllocError>
        ensures { OnOk result (GoesOnTo self.old self.new line.now) }
    {
        match &mut self.stage {
            Stage::Behind(answering) => return answering.take(number, line),
            Stage::Astray(_) => return Ok(()),
            Stage::Before => {}
        }
        if !is_empty_line(line) {
            self.stage = first_stage(self.alloc, number, line)?;
        }
        Ok(())
    }

    /// What is printed of the list, and told of its faults.
    #[tactic(auto, using(crate::proofs::UntitledLists::untitled))]
    pub fn finish(self) -> Result<ListOutput, AllocError>
        ensures text { IfOk result (IsPrintedOf self) }
        ensures printed { IfOk result IsPrinted }
    {
        let UntitledList { alloc, stage } = self;
        match stage {
            Stage::Before => match problem_fault(alloc, 1, Problem::NoDialect) {
                Fault::Memory => Err(AllocError),
                Fault::Line(fault) => at_fault(alloc, Tries::Once, fault),
            },
            Stage::Behind(answering) => finished(alloc, Tries::Once, None, answering),
            Stage::Astray(fault) => at_fault(alloc, Tries::Once, fault),
        }
    }
}

/// What the first line leads to that is neither blank nor a comment.
#[tactic(auto, using(crate::proofs::UntitledLists::untitled))]
fn first_stage(alloc: Global, number: usize, line: &[u8]) -> Result<Stage, AllocError>
    ensures { (HasKind line.now Passed → ⊥) → IfOk result (LeadsTo line.now) }
{
    match dialect_of(alloc, number, line) {
        Ok(dialect) => Ok(Stage::Behind(ListRun::new(alloc, dialect, None, None))),
        Err(Fault::Memory) => Err(AllocError),
        Err(Fault::Line(fault)) => Ok(Stage::Astray(fault)),
    }
}
