//! Inputs and locals of functions.

ghost use Rattle.std.specs.Prelude.{◌≡◌, ◌↔◌, IsTrue, OnOk, OnErr, false, true};
ghost use Rattle.vast_core.specs.Records.{IsFree};
ghost use Rattle.vast_core.specs.Nests.{function_record};
ghost use Rattle.vast_core.specs.Bench.{OwnsFunction, OwnsType, IsFreeInFunction};
ghost use Rattle.vast_core.specs.Growth.{Grows, next_logic_ref};
ghost use Rattle.vast_core.specs.WrittenKinds.{IsVariableKind};
ghost use Rattle.vast_core.specs.Functions.{with_listed_variable, with_variable};
ghost use Rattle.vast_core.specs.View.{bench};

use crate::ast::Ast;
use crate::ast::arrivals::{Node, Terms};
use crate::ast::growth::Place;
use crate::handle::{LogicRef, VastDataType, VastFunction};
use crate::node::{ExprNode, Function, FunctionVariable};
use std::alloc::AllocError;
use vast_literal::DataKind;
use vast_names::Word;

impl Function {
    /// Whether the function's result, inputs and locals have other names.
    pub fn name_is_free(&self, name: &str) -> bool
        ensures { IsTrue result ↔ IsFree name.now (function_record self.now).names }
    {
        !self.names.contains(name)
    }

    fn enter_input(&mut self, variable: FunctionVariable) -> Result<(), AllocError>
        ensures ok { OnOk result
            (function_record self.new
            ≡ with_listed_variable false variable
            (function_record self.old)) }
        ensures err { OnErr result (function_record self.new ≡ function_record self.old) }
    {
        self.inputs.reserve(1)?;
        self.names.enter(variable.name.as_str())?;
        self.inputs.push(variable).unwrap();
        Ok(())
    }

    fn enter_local(&mut self, variable: FunctionVariable) -> Result<(), AllocError>
        ensures ok { OnOk result
            (function_record self.new
            ≡ with_listed_variable true variable (function_record self.old)) }
        ensures err { OnErr result (function_record self.new ≡ function_record self.old) }
    {
        self.locals.reserve(1)?;
        self.names.enter(variable.name.as_str())?;
        self.locals.push(variable).unwrap();
        Ok(())
    }

    /// Lists the variable and takes its name, or changes nothing.
    pub(crate) fn enter_variable(
        &mut self,
        local: bool,
        variable: FunctionVariable,
    ) -> Result<(), AllocError>
        ensures ok { OnOk result
            (function_record self.new
            ≡ with_listed_variable local variable
            (function_record self.old)) }
        ensures err { OnErr result (function_record self.new ≡ function_record self.old) }
    {
        if local {
            self.enter_local(variable)
        } else {
            self.enter_input(variable)
        }
    }
}

impl Ast {
    /// Adds an input, or a local, at the end of the function's, and returns its name as an expression. A local is a reg or
    /// logic. The name is free ([`Function::name_is_free`]), and is taken from then on.
    ///
    /// # Errors
    /// `AllocError` where a growth was refused; nothing changed.
    #[tactic(auto, using(crate::proofs::EntersRecords::enters_records))]
    pub fn function_add_variable(
        &mut self,
        owner: VastFunction,
        local: bool,
        kind: DataKind,
        name: &str,
        data_type: VastDataType,
    ) -> Result<LogicRef, AllocError>
        requires owner { OwnsFunction (bench self.old) owner }
        requires kind { IsVariableKind local kind }
        requires data_type { OwnsType (bench self.old) data_type }
        requires free { IsFreeInFunction (bench self.old) owner name.now }
        ensures { Grows self.old self.new result next_logic_ref
            (with_variable owner local
            (record { kind = kind; name = name.now; data_type = data_type })) }
    {
        let node_name = Word::new(self.alloc, name)?;
        let own_name = Word::new(self.alloc, name)?;
        let logic_ref = LogicRef {
            id: self.next_term(),
        };
        self.grow(
            Place::Function(
                owner,
                local,
                FunctionVariable {
                    kind,
                    name: own_name,
                    data_type,
                },
            ),
            Terms::One(ExprNode::Name(node_name, Some(data_type))),
            Node::Nothing,
            false,
        )?;
        Ok(logic_ref)
    }
}
