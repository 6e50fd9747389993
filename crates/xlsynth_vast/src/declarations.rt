//! Wires, regs, logics and variables of modules (IEEE 1800-2017, 6.7 and 6.8), as in the crate `xlsynth-vast`.
//!
//! A module's ports, wires, variables and functions share one set of names; no name is declared twice.

ghost use Rattle.std.specs.Prelude.{◌≡◌, Ok, IfOk, MatchResult, OnOk, codes, map, string_bytes};
ghost use Rattle.vast_literal.specs.Fault.{OnlyRefusedBy};
ghost use Rattle.vast_core.specs.Records.{in_byte_order};
ghost use Rattle.vast_core.specs.Bench.{OwnsModule, OwnsType, NameIsFree};
ghost use Rattle.vast_core.specs.Growth.{Builds, next_logic_ref, with_declaration};
ghost use Rattle.xlsynth_vast.specs.Refusals.{MayBuild};
ghost use Rattle.xlsynth_vast.specs.Keeps.{Keeps};
ghost use Rattle.xlsynth_vast.specs.Declarations.{names_in, listed_names, already_declared, unless_taken};

use crate::file::VastFile;
use std::alloc::{AllocError, Global};
use std::collections::BTreeSet;
use vast_core::{DataKind, LogicRef, VastDataType, VastModule};
use vast_literal::{VastError, VastFault};
use vast_names::NameTable;

/// The names in the order of their bytes.
fn in_byte_order(alloc: Global, names: &NameTable) -> Result<BTreeSet<&str>, AllocError>
    ensures { IfOk result (λ sorted. map (λ name. name.now) sorted.keys
        ≡ in_byte_order names.now) }
{
    let mut sorted = BTreeSet::new(alloc);
    for index in 0..names.len() {
        sorted.insert(names.name(index))?;
    }
    Ok(sorted)
}

/// The names in the order of their bytes, with a comma and a space between each two.
pub(crate) fn listed_names(alloc: Global, names: &NameTable) -> Result<String, AllocError>
    ensures { IfOk result
        (λ list. string_bytes list ≡ listed_names (in_byte_order names.now)) }
{
    let sorted = in_byte_order(alloc, names)?;
    let taken: Vec<&str> = sorted.iter().map(|name| *name).collect(alloc)?;
    taken.join(alloc, ", ")
}

/// The words that refuse a name which the module has already: they list all its names in the order of their bytes.
fn already_declared(
    alloc: Global,
    kind: &str,
    name: &str,
    names: &NameTable,
) -> Result<String, AllocError>
    ensures { IfOk result
        (λ text. string_bytes text
        ≡ already_declared kind.now name.now (in_byte_order names.now)) }
{
    let list = listed_names(alloc, names)?;
    format!(in alloc;
        "FAILED_PRECONDITION: Attempted to declare {kind} with name '{name}' multiple times in the same module. Already defined: [{list}]"
    )
}

impl VastFile {
    /// Refuses a name that the module has already, with the word for what was to be declared.
    pub(crate) fn refuse_taken(
        &self,
        owner: VastModule,
        kind: &str,
        name: &str,
    ) -> Result<(), VastFault>
        requires { OwnsModule self.now owner }
        ensures answer { MatchResult result
            (λ _. unless_taken kind.now name.now (names_in self.now owner) ≡ Ok tt)
            (OnlyRefusedBy (unless_taken kind.now name.now (names_in self.now owner))) }
        ensures free { OnOk result (NameIsFree self.now owner name.now) }
    {
        let module = self.ast.module(owner);
        if module.name_is_free(name) {
            return Ok(());
        }
        let text = already_declared(self.ast.allocator(), kind, name, &module.names)?;
        Err(VastFault::Refused(VastError(text)))
    }

    /// A wire, as the module's last member; returns its name as an expression. That the name is free is the caller's
    /// to know; [`VastFile::name_is_free`] is the test.
    ///
    /// # Errors
    /// `AllocError` where a growth was refused; the file is unchanged.
    pub fn add_wire(
        &mut self,
        owner: VastModule,
        name: &str,
        data_type: &VastDataType,
    ) -> Result<LogicRef, AllocError>
        requires owner { OwnsModule self.old owner }
        requires data_type { OwnsType self.old data_type.now }
        requires free { NameIsFree self.old owner name.now }
        ensures built { Builds self.old self.new result next_logic_ref
            (with_declaration owner DataKind.Wire name.now data_type.now) }
        ensures kept { Keeps self.old self.new }
    {
        self.ast
            .push_declaration(owner, DataKind::Wire, name, *data_type)
    }

    /// A reg, as the module's last member; returns its name as an expression.
    ///
    /// # Errors
    /// `Refused` where the module has the name already: `FAILED_PRECONDITION: Attempted to declare reg with name
    /// '{name}' multiple times in the same module. Already defined: [{names}]`, with the names in the order of their
    /// bytes. `Memory` where a growth was refused. The file is unchanged.
    pub fn add_reg(
        &mut self,
        owner: VastModule,
        name: &str,
        data_type: &VastDataType,
    ) -> Result<LogicRef, VastFault>
        requires owner { OwnsModule self.old owner }
        requires data_type { OwnsType self.old data_type.now }
        ensures built { MayBuild self.old self.new result
            (λ b. unless_taken (codes "reg") name.now (names_in b owner)) next_logic_ref
            (λ _. with_declaration owner DataKind.Reg name.now data_type.now) }
        ensures kept { Keeps self.old self.new }
    {
        self.refuse_taken(owner, "reg", name)?;
        Ok(
            self.ast
                .push_declaration(owner, DataKind::Reg, name, *data_type)?,
        )
    }

    /// A logic, as the module's last member; returns its name as an expression.
    ///
    /// # Errors
    /// As [`VastFile::add_reg`], with `logic` in the place of `reg`.
    pub fn add_logic(
        &mut self,
        owner: VastModule,
        name: &str,
        data_type: &VastDataType,
    ) -> Result<LogicRef, VastFault>
        requires owner { OwnsModule self.old owner }
        requires data_type { OwnsType self.old data_type.now }
        ensures built { MayBuild self.old self.new result
            (λ b. unless_taken (codes "logic") name.now (names_in b owner)) next_logic_ref
            (λ _. with_declaration owner DataKind.Logic name.now data_type.now) }
        ensures kept { Keeps self.old self.new }
    {
        self.refuse_taken(owner, "logic", name)?;
        Ok(
            self.ast
                .push_declaration(owner, DataKind::Logic, name, *data_type)?,
        )
    }

    /// A variable of a type that is declared elsewhere, as the module's last member; returns its name as an expression.
    ///
    /// No kind's word is written before the type, `state_t s;`. Of any other type only its ranges and the name are, and
    /// the file isn't plain.
    ///
    /// # Errors
    /// As [`VastFile::add_reg`], with `variable` in the place of `reg`.
    pub fn add_variable(
        &mut self,
        owner: VastModule,
        name: &str,
        data_type: &VastDataType,
    ) -> Result<LogicRef, VastFault>
        requires owner { OwnsModule self.old owner }
        requires data_type { OwnsType self.old data_type.now }
        ensures built { MayBuild self.old self.new result
            (λ b. unless_taken (codes "variable") name.now (names_in b owner)) next_logic_ref
            (λ _. with_declaration owner DataKind.User name.now data_type.now) }
        ensures kept { Keeps self.old self.new }
    {
        self.refuse_taken(owner, "variable", name)?;
        Ok(
            self.ast
                .push_declaration(owner, DataKind::User, name, *data_type)?,
        )
    }
}
