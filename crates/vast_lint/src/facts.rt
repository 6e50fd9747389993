//! What the lint keeps of each answer.

use crate::forms::{Form, TypeForm};
use crate::notes::Note;
use std::alloc::Global;
use xlsynth_vast::{DataKind, VastFileType};

/// What is kept of an answer.
#[derive(Drop)]
pub(crate) struct Kept {
    pub(crate) fact: Fact,
    pub(crate) note: Note,
}

/// What an answer is, as far as a rule asks.
#[derive(Drop)]
pub(crate) enum Fact {
    Expression(Form),
    Type(TypeForm),
    /// What a parameter is declared by.
    Definition(DataKind, TypeForm, String),
    /// A block, a conditional, a case or an always block, and whether it stands in a module's
    /// conditional.
    Statements(bool),
    /// An instance that stands nowhere yet, by its name.
    Instance(String),
    /// Anything else.
    Other,
}

/// What is known after the steps so far.
#[derive(Clone, Copy)]
pub(crate) struct Known<'a> {
    pub(crate) alloc: Global,
    pub(crate) dialect: VastFileType,
    pub(crate) answers: &'a [Kept],
}

impl<'a> Known<'a> {
    pub(crate) fn is_verilog(self) -> bool {
        self.dialect == VastFileType::Verilog
    }

    /// What the answer of this number is.
    pub(crate) fn fact(self, number: usize) -> Option<&'a Fact> {
        match self.answers.get(number) {
            Some(answer) => Some(&answer.fact),
            None => None,
        }
    }

    /// What the expression of this number is.
    pub(crate) fn form(self, number: usize) -> Form {
        match self.fact(number) {
            Some(Fact::Expression(form)) => *form,
            _ => Form::Other,
        }
    }

    /// What the type of this number is, if it is one.
    pub(crate) fn type_form(self, number: usize) -> Option<TypeForm> {
        match self.fact(number) {
            Some(Fact::Type(form)) => Some(*form),
            _ => None,
        }
    }

    /// A net or a variable of the type of this number.
    pub(crate) fn signal(self, data_type: usize) -> Fact {
        match self.type_form(data_type) {
            Some(form) => Fact::Expression(form.signal()),
            None => Fact::Expression(Form::Signal(None)),
        }
    }

    /// Whether the block, the conditional or the case of this number stands in a module's conditional.
    pub(crate) fn is_generate(self, number: usize) -> bool {
        match self.fact(number) {
            Some(Fact::Statements(is_generate)) => *is_generate,
            _ => false,
        }
    }
}
