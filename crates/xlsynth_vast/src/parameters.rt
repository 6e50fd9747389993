//! Parameters of modules, in headers and among members (IEEE 1800-2017, 6.20), as in the crate `xlsynth-vast`.
//!
//! The names of parameters aren't among those that a module keeps distinct.

ghost use Rattle.std.specs.Prelude.{true, false, None, Some};
ghost use Rattle.vast_core.specs.declared.ast.scope.Scope.TheVariants.{Module as ScopeModule};
ghost use Rattle.vast_core.specs.declared.node.ParameterForm.TheVariants.{Plain as PlainForm, Int as IntForm, Defined as DefinedForm};
ghost use Rattle.vast_core.specs.Scopes.{with_scope_parameter};
ghost use Rattle.vast_core.specs.Bench.{OwnsModule, OwnsExpr, OwnsType, OwnsDef};
ghost use Rattle.vast_core.specs.Growth.{next_node, Builds, next_logic_ref};
ghost use Rattle.vast_core.specs.Parameters.{with_parameter_port};
ghost use Rattle.xlsynth_vast.specs.Keeps.{Keeps};

use crate::file::VastFile;
use std::alloc::AllocError;
use vast_core::{
    Def, Expr, LocalparamRef, LogicRef, ParameterForm, ParameterRef, Scope, VastDataType,
    VastModule,
};
use vast_names::Word;

impl VastFile {
    /// A parameter without a type, as the last of the module's header; returns its name as an expression.
    ///
    /// # Errors
    /// `AllocError` where a growth was refused; the file is unchanged.
    pub fn add_parameter_port(
        &mut self,
        owner: VastModule,
        name: &str,
        value: &Expr,
    ) -> Result<LogicRef, AllocError>
        requires owner { OwnsModule self.old owner }
        requires value { OwnsExpr self.old value.now }
        ensures built { Builds self.old self.new result next_logic_ref
            (with_parameter_port owner name.now None value.now) }
        ensures kept { Keeps self.old self.new }
    {
        self.ast.push_parameter_port(owner, name, None, *value)
    }

    /// A parameter of this type, as the last of the module's header; returns its name as an expression.
    ///
    /// # Errors
    /// `AllocError` where a growth was refused; the file is unchanged.
    pub fn add_typed_parameter_port(
        &mut self,
        owner: VastModule,
        name: &str,
        data_type: &VastDataType,
        value: &Expr,
    ) -> Result<LogicRef, AllocError>
        requires owner { OwnsModule self.old owner }
        requires data_type { OwnsType self.old data_type.now }
        requires value { OwnsExpr self.old value.now }
        ensures built { Builds self.old self.new result next_logic_ref
            (with_parameter_port owner name.now (Some data_type.now) value.now) }
        ensures kept { Keeps self.old self.new }
    {
        self.ast
            .push_parameter_port(owner, name, Some(*data_type), *value)
    }

    /// `parameter NAME = VALUE`, as the module's last member; returns its name.
    ///
    /// # Errors
    /// `AllocError` where a growth was refused; the file is unchanged.
    pub fn add_parameter(
        &mut self,
        owner: VastModule,
        name: &str,
        rhs: &Expr,
    ) -> Result<ParameterRef, AllocError>
        requires owner { OwnsModule self.old owner }
        requires rhs { OwnsExpr self.old rhs.now }
        ensures built { Builds self.old self.new result (λ b. record { id = next_node b })
            (with_scope_parameter (ScopeModule owner) false (PlainForm name.now) rhs.now) }
        ensures kept { Keeps self.old self.new }
    {
        let form = ParameterForm::Plain(Word::new(self.ast.allocator(), name)?);
        self.ast.push_parameter(owner, form, *rhs)
    }

    /// A parameter with the definition's kind, type and name, as the module's last member; returns its name.
    ///
    /// # Errors
    /// `AllocError` where a growth was refused; the file is unchanged.
    pub fn add_parameter_with_def(
        &mut self,
        owner: VastModule,
        definition: &Def,
        rhs: &Expr,
    ) -> Result<ParameterRef, AllocError>
        requires owner { OwnsModule self.old owner }
        requires definition { OwnsDef self.old definition.now }
        requires rhs { OwnsExpr self.old rhs.now }
        ensures built { Builds self.old self.new result (λ b. record { id = next_node b })
            (with_scope_parameter (ScopeModule owner) false (DefinedForm definition.now) rhs.now) }
        ensures kept { Keeps self.old self.new }
    {
        let defined = ParameterForm::Defined(*definition);
        self.ast.push_parameter(owner, defined, *rhs)
    }

    /// `localparam NAME = VALUE`, as the module's last member; returns its name.
    ///
    /// # Errors
    /// `AllocError` where a growth was refused; the file is unchanged.
    pub fn add_localparam(
        &mut self,
        owner: VastModule,
        name: &str,
        rhs: &Expr,
    ) -> Result<LocalparamRef, AllocError>
        requires owner { OwnsModule self.old owner }
        requires rhs { OwnsExpr self.old rhs.now }
        ensures built { Builds self.old self.new result (λ b. record { id = next_node b })
            (with_scope_parameter (ScopeModule owner) true (PlainForm name.now) rhs.now) }
        ensures kept { Keeps self.old self.new }
    {
        let form = ParameterForm::Plain(Word::new(self.ast.allocator(), name)?);
        self.ast.push_localparam(Scope::Module(owner), form, *rhs)
    }

    /// `localparam int NAME = VALUE`, as the module's last member; returns its name.
    ///
    /// # Errors
    /// `AllocError` where a growth was refused; the file is unchanged.
    pub fn add_int_localparam(
        &mut self,
        owner: VastModule,
        name: &str,
        rhs: &Expr,
    ) -> Result<LocalparamRef, AllocError>
        requires owner { OwnsModule self.old owner }
        requires rhs { OwnsExpr self.old rhs.now }
        ensures built { Builds self.old self.new result (λ b. record { id = next_node b })
            (with_scope_parameter (ScopeModule owner) true (IntForm name.now) rhs.now) }
        ensures kept { Keeps self.old self.new }
    {
        let int_form = ParameterForm::Int(Word::new(self.ast.allocator(), name)?);
        self.ast
            .push_localparam(Scope::Module(owner), int_form, *rhs)
    }

    /// A local parameter with the definition's kind, type and name, as the module's last member; returns its name.
    ///
    /// # Errors
    /// `AllocError` where a growth was refused; the file is unchanged.
    pub fn add_typed_localparam(
        &mut self,
        owner: VastModule,
        definition: &Def,
        rhs: &Expr,
    ) -> Result<LocalparamRef, AllocError>
        requires owner { OwnsModule self.old owner }
        requires definition { OwnsDef self.old definition.now }
        requires rhs { OwnsExpr self.old rhs.now }
        ensures built { Builds self.old self.new result (λ b. record { id = next_node b })
            (with_scope_parameter (ScopeModule owner) true (DefinedForm definition.now) rhs.now) }
        ensures kept { Keeps self.old self.new }
    {
        let defined = ParameterForm::Defined(*definition);
        self.ast
            .push_localparam(Scope::Module(owner), defined, *rhs)
    }
}
