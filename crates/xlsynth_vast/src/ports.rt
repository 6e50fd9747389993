//! Ports of modules (IEEE 1800-2017, 23.2.2), as in the crate `xlsynth-vast`.
//!
//! A module's ports, wires, variables and functions share one set of names. That a port's name is free is the caller's
//! to know; [`VastFile::name_is_free`] is the test.

ghost use Rattle.vast_core.specs.Bench.{OwnsModule, OwnsType, NameIsFree};
ghost use Rattle.vast_core.specs.Growth.{Builds, next_logic_ref, with_port};
ghost use Rattle.xlsynth_vast.specs.Keeps.{Keeps};

use crate::file::VastFile;
use std::alloc::AllocError;
use vast_core::{DataKind, LogicRef, ModulePortDirection, VastDataType, VastModule};

impl VastFile {
    fn wire_port(
        &mut self,
        owner: VastModule,
        direction: ModulePortDirection,
        name: &str,
        data_type: VastDataType,
    ) -> Result<LogicRef, AllocError>
        requires owner { OwnsModule self.old owner }
        requires data_type { OwnsType self.old data_type }
        requires free { NameIsFree self.old owner name.now }
        ensures built { Builds self.old self.new result next_logic_ref
            (with_port owner direction DataKind.Wire name.now data_type) }
        ensures kept { Keeps self.old self.new }
    {
        self.ast
            .push_port(owner, direction, DataKind::Wire, name, data_type)
    }

    fn logic_port(
        &mut self,
        owner: VastModule,
        direction: ModulePortDirection,
        name: &str,
        data_type: VastDataType,
    ) -> Result<LogicRef, AllocError>
        requires owner { OwnsModule self.old owner }
        requires data_type { OwnsType self.old data_type }
        requires free { NameIsFree self.old owner name.now }
        ensures built { Builds self.old self.new result next_logic_ref
            (with_port owner direction DataKind.Logic name.now data_type) }
        ensures kept { Keeps self.old self.new }
    {
        self.ast
            .push_port(owner, direction, DataKind::Logic, name, data_type)
    }

    /// An input, as the module's last port; returns its name as an expression.
    ///
    /// # Errors
    /// `AllocError` where a growth was refused; the file is unchanged.
    pub fn add_input(
        &mut self,
        owner: VastModule,
        name: &str,
        data_type: &VastDataType,
    ) -> Result<LogicRef, AllocError>
        requires owner { OwnsModule self.old owner }
        requires data_type { OwnsType self.old data_type.now }
        requires free { NameIsFree self.old owner name.now }
        ensures built { Builds self.old self.new result next_logic_ref
            (with_port owner ModulePortDirection.Input DataKind.Wire name.now data_type.now) }
        ensures kept { Keeps self.old self.new }
    {
        self.wire_port(owner, ModulePortDirection::Input, name, *data_type)
    }

    /// An output, as the module's last port; returns its name as an expression.
    ///
    /// # Errors
    /// `AllocError` where a growth was refused; the file is unchanged.
    pub fn add_output(
        &mut self,
        owner: VastModule,
        name: &str,
        data_type: &VastDataType,
    ) -> Result<LogicRef, AllocError>
        requires owner { OwnsModule self.old owner }
        requires data_type { OwnsType self.old data_type.now }
        requires free { NameIsFree self.old owner name.now }
        ensures built { Builds self.old self.new result next_logic_ref
            (with_port owner ModulePortDirection.Output DataKind.Wire name.now data_type.now) }
        ensures kept { Keeps self.old self.new }
    {
        self.wire_port(owner, ModulePortDirection::Output, name, *data_type)
    }

    /// A port of both directions, as the module's last port; returns its name as an expression.
    ///
    /// # Errors
    /// `AllocError` where a growth was refused; the file is unchanged.
    pub fn add_inout(
        &mut self,
        owner: VastModule,
        name: &str,
        data_type: &VastDataType,
    ) -> Result<LogicRef, AllocError>
        requires owner { OwnsModule self.old owner }
        requires data_type { OwnsType self.old data_type.now }
        requires free { NameIsFree self.old owner name.now }
        ensures built { Builds self.old self.new result next_logic_ref
            (with_port owner ModulePortDirection.InOut DataKind.Wire name.now data_type.now) }
        ensures kept { Keeps self.old self.new }
    {
        self.wire_port(owner, ModulePortDirection::InOut, name, *data_type)
    }

    /// An input that is declared with the word `logic`, as the module's last port; returns its name as an expression.
    ///
    /// # Errors
    /// `AllocError` where a growth was refused; the file is unchanged.
    pub fn add_logic_input(
        &mut self,
        owner: VastModule,
        name: &str,
        data_type: &VastDataType,
    ) -> Result<LogicRef, AllocError>
        requires owner { OwnsModule self.old owner }
        requires data_type { OwnsType self.old data_type.now }
        requires free { NameIsFree self.old owner name.now }
        ensures built { Builds self.old self.new result next_logic_ref
            (with_port owner ModulePortDirection.Input DataKind.Logic name.now data_type.now) }
        ensures kept { Keeps self.old self.new }
    {
        self.logic_port(owner, ModulePortDirection::Input, name, *data_type)
    }

    /// An output that is declared with the word `logic`, as the module's last port; returns its name as an expression.
    ///
    /// # Errors
    /// `AllocError` where a growth was refused; the file is unchanged.
    pub fn add_logic_output(
        &mut self,
        owner: VastModule,
        name: &str,
        data_type: &VastDataType,
    ) -> Result<LogicRef, AllocError>
        requires owner { OwnsModule self.old owner }
        requires data_type { OwnsType self.old data_type.now }
        requires free { NameIsFree self.old owner name.now }
        ensures built { Builds self.old self.new result next_logic_ref
            (with_port owner ModulePortDirection.Output DataKind.Logic name.now data_type.now) }
        ensures kept { Keeps self.old self.new }
    {
        self.logic_port(owner, ModulePortDirection::Output, name, *data_type)
    }
}
