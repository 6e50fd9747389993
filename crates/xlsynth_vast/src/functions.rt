//! Functions of modules, their inputs and locals (IEEE 1800-2017, 13.4), as in the crate `xlsynth-vast`.
//!
//! A function's result, inputs and locals share one set of names; no name is declared twice. The function's own name is
//! among those of its module, too.

ghost use Rattle.std.specs.Prelude.{◌≡◌, Ok, true, false, Some, IfOk, MatchResult, OnOk, codes, string_bytes};
ghost use Rattle.vast_literal.specs.Fault.{OnlyRefusedBy};
ghost use Rattle.vast_core.specs.Records.{in_byte_order};
ghost use Rattle.vast_core.specs.Bench.{OwnsModule, OwnsType, OwnsFunction, OwnsBlock, OwnsLogicRef, IsFreeInFunction, type_of};
ghost use Rattle.vast_core.specs.Growth.{next_logic_ref};
ghost use Rattle.vast_core.specs.Functions.{with_variable};
ghost use Rattle.vast_core.specs.Loops.{next_function};
ghost use Rattle.xlsynth_vast.specs.Refusals.{MayBuild};
ghost use Rattle.xlsynth_vast.specs.Keeps.{Keeps};
ghost use Rattle.xlsynth_vast.specs.Declarations.{names_in};
ghost use Rattle.xlsynth_vast.specs.Functions.{is_unpacked, unless_unpacked, may_be_function, with_function_member, declared_in_function, unless_taken_in_function};
ghost use Rattle.xlsynth_vast.specs.Inspections.{body_at, result_at};

use crate::declarations::listed_names;
use crate::file::VastFile;
use std::alloc::{AllocError, Global};
use vast_core::{
    DataKind, Function, LogicRef, TypeNode, VastDataType, VastFunction, VastModule,
    VastStatementBlock,
};
use vast_literal::{VastError, VastFault};

/// The words that refuse a name which the function has already: they list all its names in the order of their bytes.
#[tactic(auto, unfolding(crate::specs::Functions::declared_in_function))]
fn declared_in_function(
    alloc: Global,
    kind: &str,
    name: &str,
    owner: &Function,
) -> Result<String, AllocError>
    ensures { IfOk result
        (λ text. string_bytes text
        ≡ declared_in_function kind.now name.now (string_bytes owner.now.name)
        (in_byte_order owner.now.names)) }
{
    let list = listed_names(alloc, &owner.names)?;
    let function = owner.name.as_str();
    format!(in alloc;
        "FAILED_PRECONDITION: Attempted to declare {kind} with name '{name}' multiple times in function '{function}'. Already defined: [{list}]"
    )
}

impl VastFile {
    fn is_unpacked(&self, data_type: VastDataType) -> bool
        requires { OwnsType self.now data_type }
        ensures { result ≡ is_unpacked (type_of self.now data_type) }
    {
        match self.ast.data_type(data_type) {
            TypeNode::Unpacked(_, _) => true,
            _ => false,
        }
    }

    /// Refuses an unpacked array as the type of a function's result.
    fn refuse_unpacked(&self, result_type: VastDataType) -> Result<(), VastFault>
        requires { OwnsType self.now result_type }
        ensures { MatchResult result
            (λ _. unless_unpacked (type_of self.now result_type) ≡ Ok tt)
            (OnlyRefusedBy (unless_unpacked (type_of self.now result_type))) }
    {
        if !self.is_unpacked(result_type) {
            return Ok(());
        }
        let words =
            "FAILED_PRECONDITION: function result type must not be an anonymous unpacked array; use a named typedef";
        let text = String::from_str(self.ast.allocator(), words)?;
        Err(VastFault::Refused(VastError(text)))
    }

    /// A function without inputs and locals and with an empty body, as the module's last member.
    ///
    /// # Errors
    /// `Refused` where the result's type is an unpacked array, first of all: `FAILED_PRECONDITION: function result type
    /// must not be an anonymous unpacked array; use a named typedef`; then where the module has the name already, as
    /// in [`VastFile::add_reg`], with `function` in the place of `reg`. `Memory` where a growth was refused. The file
    /// is unchanged.
    pub fn add_function(
        &mut self,
        owner: VastModule,
        name: &str,
        result_type: &VastDataType,
    ) -> Result<VastFunction, VastFault>
        requires owner { OwnsModule self.old owner }
        requires result_type { OwnsType self.old result_type.now }
        ensures built { MayBuild self.old self.new result
            (λ b. may_be_function (type_of b result_type.now) name.now (names_in b owner))
            next_function (λ _. with_function_member owner name.now result_type.now) }
        ensures kept { Keeps self.old self.new }
    {
        self.refuse_unpacked(*result_type)?;
        self.refuse_taken(owner, "function", name)?;
        Ok(self.ast.push_function(owner, name, *result_type)?)
    }

    /// Refuses a name that the function has already, with the word for what was to be declared.
    fn refuse_taken_in_function(
        &self,
        function: VastFunction,
        kind: &str,
        name: &str,
    ) -> Result<(), VastFault>
        requires { OwnsFunction self.now function }
        ensures answer { MatchResult result
            (λ _. unless_taken_in_function kind.now name.now self.now function ≡ Ok tt)
            (OnlyRefusedBy (unless_taken_in_function kind.now name.now self.now function)) }
        ensures free { OnOk result (IsFreeInFunction self.now function name.now) }
    {
        let owner = self.ast.function(function);
        if owner.name_is_free(name) {
            return Ok(());
        }
        let text = declared_in_function(self.ast.allocator(), kind, name, owner)?;
        Err(VastFault::Refused(VastError(text)))
    }

    /// An input of this type with the kind word `reg`, as the function's last; returns its name as an expression.
    ///
    /// # Errors
    /// `Refused` where the function's result, an input or a local has the name already: `FAILED_PRECONDITION: Attempted
    /// to declare input with name '{name}' multiple times in function '{function}'. Already defined: [{names}]`, with
    /// the names in the order of their bytes. `Memory` where a growth was refused. The file is unchanged.
    pub fn function_add_input(
        &mut self,
        function: VastFunction,
        name: &str,
        data_type: &VastDataType,
    ) -> Result<LogicRef, VastFault>
        requires function { OwnsFunction self.old function }
        requires data_type { OwnsType self.old data_type.now }
        ensures built { MayBuild self.old self.new result
            (λ b. unless_taken_in_function (codes "input") name.now b function) next_logic_ref
            (λ _. with_variable function false
            (record { kind = DataKind.Reg; name = name.now; data_type = data_type.now })) }
        ensures kept { Keeps self.old self.new }
    {
        self.refuse_taken_in_function(function, "input", name)?;
        Ok(
            self.ast
                .function_add_variable(function, false, DataKind::Reg, name, *data_type)?,
        )
    }

    /// An input of this type with the kind word `logic`, as the function's last; returns its name as an expression.
    ///
    /// # Errors
    /// As [`VastFile::function_add_input`].
    pub fn function_add_logic_input(
        &mut self,
        function: VastFunction,
        name: &str,
        data_type: &VastDataType,
    ) -> Result<LogicRef, VastFault>
        requires function { OwnsFunction self.old function }
        requires data_type { OwnsType self.old data_type.now }
        ensures built { MayBuild self.old self.new result
            (λ b. unless_taken_in_function (codes "input") name.now b function) next_logic_ref
            (λ _. with_variable function false
            (record { kind = DataKind.Logic; name = name.now; data_type = data_type.now })) }
        ensures kept { Keeps self.old self.new }
    {
        self.refuse_taken_in_function(function, "input", name)?;
        Ok(
            self.ast
                .function_add_variable(function, false, DataKind::Logic, name, *data_type)?,
        )
    }

    /// A reg, as the function's last local; returns its name as an expression.
    ///
    /// # Errors
    /// As [`VastFile::function_add_input`], with `reg` in the place of `input`.
    pub fn function_add_reg(
        &mut self,
        function: VastFunction,
        name: &str,
        data_type: &VastDataType,
    ) -> Result<LogicRef, VastFault>
        requires function { OwnsFunction self.old function }
        requires data_type { OwnsType self.old data_type.now }
        ensures built { MayBuild self.old self.new result
            (λ b. unless_taken_in_function (codes "reg") name.now b function) next_logic_ref
            (λ _. with_variable function true
            (record { kind = DataKind.Reg; name = name.now; data_type = data_type.now })) }
        ensures kept { Keeps self.old self.new }
    {
        self.refuse_taken_in_function(function, "reg", name)?;
        Ok(
            self.ast
                .function_add_variable(function, true, DataKind::Reg, name, *data_type)?,
        )
    }

    /// A logic, as the function's last local; returns its name as an expression.
    ///
    /// # Errors
    /// As [`VastFile::function_add_input`], with `logic` in the place of `input`.
    pub fn function_add_logic(
        &mut self,
        function: VastFunction,
        name: &str,
        data_type: &VastDataType,
    ) -> Result<LogicRef, VastFault>
        requires function { OwnsFunction self.old function }
        requires data_type { OwnsType self.old data_type.now }
        ensures built { MayBuild self.old self.new result
            (λ b. unless_taken_in_function (codes "logic") name.now b function) next_logic_ref
            (λ _. with_variable function true
            (record { kind = DataKind.Logic; name = name.now; data_type = data_type.now })) }
        ensures kept { Keeps self.old self.new }
    {
        self.refuse_taken_in_function(function, "logic", name)?;
        Ok(
            self.ast
                .function_add_variable(function, true, DataKind::Logic, name, *data_type)?,
        )
    }

    /// The function's body, which is the file's.
    pub fn function_body(&self, function: VastFunction) -> VastStatementBlock
        requires { OwnsFunction self.now function }
        ensures body { body_at self.now function ≡ Some result }
        ensures owned { OwnsBlock self.now result }
    {
        self.ast.function(function).body
    }

    /// The name to which the body assigns the function's result, as an expression, which is the file's.
    pub fn function_result(&self, function: VastFunction) -> LogicRef
        requires { OwnsFunction self.now function }
        ensures name { result_at self.now function ≡ Some result }
        ensures owned { OwnsLogicRef self.now result }
    {
        self.ast.function(function).result
    }
}
