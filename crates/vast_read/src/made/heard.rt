//! What is heard of a file, and what is built of that.

ghost use Rattle.std.specs.Prelude.{◌≡◌, [], ◌∷◌, ◌++◌, IfOk, Some, option_map};
ghost use Rattle.std.proofs.Common.{sym, ap, ◌∙◌, append-nil, append_assoc};
ghost use Rattle.vast_literal.specs.NormalFile as normal;
ghost use Rattle.vast_read.specs.FileView.{file_view};
ghost use Rattle.vast_read.specs.Internal.Made.{Grown, events_heard, denoted, told_event};
ghost use Rattle.vast_rows.specs.Built.{SeenFile, happens};
ghost use Rattle.vast_rows.specs.Trace.{trace};

use crate::build::Trees;
use crate::children::Children;
use crate::made::make::make;
use crate::made::part::first;
use crate::made::value::{Path, Range, Value, Values};
use crate::phrase::{Made, Phrases};
use crate::pile::Pile;
use crate::tree::{NormalExpr, NormalFile, NormalItem};
use std::alloc::{AllocError, Global};
use vast_rows::{Action, Sink, Stack};

/// What was heard. Most of it is expressions and names, so what is larger lies in a box.
#[derive(Drop)]
pub(crate) enum Told<'t> {
    /// Something is made of what is told after it.
    Makes(Action),
    /// An expression, or what a value is assigned to.
    Expression(Box<NormalExpr>),
    /// The header of a loop.
    Loop(Box<Range<'t>>),
    /// The path of an include.
    Path(&'t str),
    /// A name.
    Names(&'t str),
}

/// All that was heard. In contracts it is the list of it, the last first.
#[derive(Drop)]
pub(crate) struct Heard<'t> {
    alloc: Global,
    pub(crate) events: Pile<Told<'t>>,
}

impl<'t> Sink<Phrases<'t, Trees>> for Heard<'t> {
    ghost after = { λ before events now.
        events_heard now.events ≡ events_heard before.events ++ events };

    #[tactic(auto, using(crate::proofs::Making::hears))]
    fn makes(&mut self, action: Action) -> Result<(), AllocError> {
        self.events.push(Told::Makes(action))
    }

    #[tactic(auto, using(crate::proofs::Making::hears))]
    fn reads(&mut self, made: Made<'t, Box<NormalExpr>>) -> Result<(), AllocError> {
        match made {
            Made::Expression(tree) => self.events.push(Told::Expression(tree)),
            Made::Loop(variable, start, end) => {
                let range = Range {
                    variable,
                    start,
                    end,
                };
                self.events.push(Told::Loop(Box::new(self.alloc, range)?))
            }
            Made::Path(path) => self.events.push(Told::Path(path)),
        }
    }

    #[tactic(auto, using(crate::proofs::Making::hears))]
    fn names(&mut self, name: &'t str) -> Result<(), AllocError> {
        self.events.push(Told::Names(name))
    }

    ghost nothing = { λ s. sym (append-nil (events_heard s.events)) };

    ghost joined = { λ s t u first second a b.
        b ∙ (ap (λ v. v ++ second) a ∙ append_assoc (events_heard s.events) first second) };
}

impl<'t> Heard<'t> {
    /// Nothing.
    pub(crate) fn new(alloc: Global) -> Heard<'t>
        ensures { result.events ≡ [] }
    {
        Heard {
            alloc,
            events: Pile::new(alloc),
        }
    }

    /// The file of which this was heard.
    pub(crate) fn file(self) -> Result<Option<NormalFile>, AllocError>
        ensures { IfOk result (λ o. (t : normal.NormalFile) →
            events_heard self.entry.events ≡ trace t [] → option_map file_view o ≡ Some t) }
    {
        let mut values = built(self.alloc, self.events)?;
        match first::<Children<NormalItem>>(&mut values) {
            Some(items) => Ok(Some(NormalFile {
                items: items.reversed(),
            })),
            None => Ok(None),
        }
    }
}

/// What the events make, from the last to the first.
fn built<'t>(alloc: Global, events: Pile<Told<'t>>) -> Result<Values<'t>, AllocError>
    ensures { IfOk result (λ values. (t : normal.NormalFile) →
        events_heard events.entry ≡ trace t [] → denoted values ≡ (SeenFile t ∷ [])) }
{
    let mut events = events;
    let mut values: Values<'t> = Stack::new(alloc);
    'events: while let Some(event) = events.pop() {
        happens(alloc, event, &mut values)?;
    }
    Ok(values)
}

/// Puts what the event makes in the place of what it makes it of.
fn happens<'t>(alloc: Global, event: Told<'t>, values: &mut Values<'t>) -> Result<(), AllocError>
    ensures { IfOk result (λ _. Grown (happens (told_event event.entry) (denoted values.old))
        values.new) }
{
    match event {
        Told::Makes(action) => make(alloc, action, values),
        Told::Expression(tree) => values.push(Value::Expression(tree)),
        Told::Loop(range) => values.push(Value::Loop(Box::into_inner(range))),
        Told::Path(text) => values.push(Value::Path(Path { text })),
        Told::Names(name) => values.push(Value::Name(name)),
    }
}
