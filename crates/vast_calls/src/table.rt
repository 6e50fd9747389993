//! The table of calls: each by its name in lists, with what its arguments are and what it returns.

ghost use Rattle.std.specs.Prelude.{◌≡◌};

pub(crate) mod artifacts;
mod by_name;
mod described;
pub(crate) mod expressions;
pub(crate) mod helpers;
pub(crate) mod json;
mod kinds;
pub(crate) mod loops;
pub(crate) mod modules;
pub(crate) mod numbered;
pub(crate) mod operators;
pub(crate) mod questions;
pub(crate) mod statements;
pub(crate) mod text;
pub(crate) mod types;
pub(crate) mod usage;

use crate::packed::Choice;

/// A call as lists name it: a row of the table, with its name, its parameters in order, and what it returns.
#[derive(Clone, Copy)]
pub(crate) struct CallRow(&'static str, &'static [Parameter], Kind);

impl CallRow {
    /// Its name, the sign of a question or a helper included.
    pub(crate) fn name(&self) -> &'static str
        ensures { result.now ≡ self.now.0.now }
    {
        self.0
    }

    /// Its parameters in order.
    pub(crate) fn parameters(&self) -> &'static [Parameter] {
        self.1
    }

    /// What it returns.
    pub(crate) fn answer(&self) -> Kind {
        self.2
    }
}

/// A parameter of a call: its name, as the method of `VastFile` or the helper has it, and what stands for it.
#[derive(Clone, Copy)]
pub(crate) struct Parameter(&'static str, Kind);

impl Parameter {
    /// Its name.
    pub(crate) fn name(&self) -> &'static str {
        self.0
    }

    /// What stands for it.
    pub(crate) fn kind(&self) -> Kind {
        self.1
    }
}

/// What stands in the place of an argument, or what a call returns.
#[derive(Clone, Copy)]
pub(crate) enum Kind {
    /// One of these.
    One(Item),
    /// `[ a b ]`, or an answer of several.
    List(Item),
    /// `-`, or `+ a`.
    Optional(Item),
    /// `[ + a - ]`.
    ListOfOptional(Item),
    /// Of answers alone.
    Nothing,
}

impl Kind {
    /// What each word of it stands for, where that is a handle.
    pub(crate) fn handle(self) -> Option<Handle> {
        match self {
            Kind::One(item)
            | Kind::List(item)
            | Kind::Optional(item)
            | Kind::ListOfOptional(item) => { item.handle() }
            Kind::Nothing => None,
        }
    }
}

/// What stands once.
#[derive(Clone, Copy)]
pub(crate) enum Item {
    /// The number or the name of a step or a helper.
    Handle(Handle),
    /// A text between quotes.
    Text,
    /// `true` or `false`.
    Truth,
    /// A number.
    Integer(Range),
    /// One of these words.
    Word(Words),
    /// `[ signal active_low ]`.
    Reset,
    /// `[ reg next reset_value enable ]`.
    Register,
    /// A port as a question answers it.
    Port,
}

impl Item {
    fn handle(self) -> Option<Handle> {
        match self {
            Item::Handle(handle) => Some(handle),
            Item::Reset | Item::Register => Some(Handle::Expression),
            _ => None,
        }
    }
}

/// Which handle.
#[derive(Clone, Copy, PartialEq, Eq)]
pub enum Handle {
    Module,
    Function,
    Port,
    Type,
    Signal,
    Expression,
    Indexable,
    Slice,
    Index,
    Instantiation,
    BlankLine,
    InlineStatement,
    Comment,
    Macro,
    MacroStatement,
    Assignment,
    Always,
    Block,
    Statement,
    Conditional,
    Case,
    Loop,
    Parameter,
    Localparam,
    Definition,
    /// A module or a loop.
    Scope,
}

/// Which numbers.
#[derive(Clone, Copy)]
pub(crate) enum Range {
    /// From -2^31 on, below 2^31.
    I32,
    /// From -2^63 on, below 2^63.
    I64,
    /// From 0 on, below 2^64.
    Usize,
}

/// Which words.
#[derive(Clone, Copy)]
pub(crate) enum Words {
    /// Those of `LiteralFormat`.
    Format,
    /// Those of `DataKind`.
    DataKind,
}

impl Words {
    /// These, among all words that may stand in one place.
    pub(crate) fn choice(self) -> Choice {
        match self {
            Words::Format => Choice::Format,
            Words::DataKind => Choice::Kind,
        }
    }
}

/// Calls of one group.
#[derive(Clone, Copy)]
pub(crate) struct Group {
    /// The group's name.
    pub(crate) name: &'static str,
    /// Its calls, those of steps in the order of `Step`.
    pub(crate) calls: &'static [CallRow],
}

/// All calls, by their groups.
pub(crate) fn groups() -> [Group; 9] {
    [
        group_of("operators", &operators::CALLS),
        group_of("expressions", &expressions::CALLS),
        group_of("types", &types::CALLS),
        group_of("modules", &modules::CALLS),
        group_of("loops", &loops::CALLS),
        group_of("statements", &statements::CALLS),
        group_of("artifacts", &artifacts::CALLS),
        group_of("questions", &questions::CALLS),
        group_of("helpers", &helpers::CALLS),
    ]
}

fn group_of(name: &'static str, calls: &'static [CallRow]) -> Group {
    Group { name, calls }
}
