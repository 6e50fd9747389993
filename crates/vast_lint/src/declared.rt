//! The names that modules and loops declare, and the defaults of cases.

use crate::facts::Known;
use crate::rule::Rule;
use crate::warning::StepFindings;
use crate::words::name_rule;
use std::alloc::{AllocError, Global};
use std::collections::BTreeSet;

/// The file, in the place of a module's number: no answer has it.
pub(crate) const FILE: usize = usize::MAX;

/// The names so far, each with the number of the module or the loop that declares it, and `default`
/// with that of a case.
#[derive(Drop)]
pub(crate) struct Declared {
    alloc: Global,
    names: BTreeSet<String>,
}

impl Declared {
    pub(crate) fn new(alloc: Global) -> Declared {
        Declared {
            alloc,
            names: BTreeSet::new(alloc),
        }
    }

    /// Declares the name in the module, the loop or the case of this number; whether it wasn't there
    /// before.
    fn enter(&mut self, owner: usize, name: &str) -> Result<bool, AllocError> {
        let entry = format!(in self.alloc; "{owner} {name}")?;
        Ok(self.names.insert(entry)?)
    }

    /// Declares the name of a module; whether it wasn't there before.
    fn enter_module(&mut self, name: &str) -> Result<bool, AllocError> {
        let entry = format!(in self.alloc; "module {name}")?;
        Ok(self.names.insert(entry)?)
    }
}

/// A module of this name.
pub(crate) fn declare_module(
    known: Known<'_>,
    declared: &mut Declared,
    name: &str,
    told: &mut StepFindings,
) -> Result<(), AllocError> {
    told.tell_any(name_rule(known.dialect, name))?;
    let is_new = declared.enter_module(name)?;
    told.tell_if(!is_new, Rule::ModuleTwice)
}

/// The module or the loop of this number declares the name.
pub(crate) fn declare(
    known: Known<'_>,
    declared: &mut Declared,
    owner: usize,
    name: &str,
    told: &mut StepFindings,
) -> Result<(), AllocError> {
    told.tell_any(name_rule(known.dialect, name))?;
    let is_new = declared.enter(owner, name)?;
    told.tell_if(!is_new, Rule::DeclaredTwice)
}

/// An instance of the name stands in the module or the loop of this number.
pub(crate) fn declare_instance(
    declared: &mut Declared,
    owner: usize,
    name: &str,
    told: &mut StepFindings,
) -> Result<(), AllocError> {
    let is_new = declared.enter(owner, name)?;
    told.tell_if(!is_new, Rule::InstanceTwice)
}

/// The case of this number has a default.
pub(crate) fn declare_default(
    declared: &mut Declared,
    owner: usize,
    told: &mut StepFindings,
) -> Result<(), AllocError> {
    let is_new = declared.enter(owner, "default")?;
    told.tell_if(!is_new, Rule::TwoDefaults)
}
