//! Parameters of modules and generate loops, in headers and among members.

ghost use Rattle.std.specs.Prelude.{IfOk, false, true, IfSome};
ghost use Rattle.vast_core.specs.declared.ast.scope.Scope.TheVariants.{Module as ScopeModule};
ghost use Rattle.vast_core.specs.Bench.{OwnsModule, OwnsExpr, OwnsType};
ghost use Rattle.vast_core.specs.Sound.{FormSound};
ghost use Rattle.vast_core.specs.Growth.{next_node, Grows, next_expr, next_logic_ref};
ghost use Rattle.vast_core.specs.Parameters.{with_parameter_port};
ghost use Rattle.vast_core.specs.Internal.Parameters.{IsDeclaredBy};
ghost use Rattle.vast_core.specs.Scopes.{OwnsScope, with_scope_parameter};
ghost use Rattle.vast_core.specs.View.{bench};

use crate::ast::Ast;
use crate::ast::arrivals::{Node, Terms};
use crate::ast::growth::{ModuleEntry, Place};
use crate::ast::scope::Scope;
use crate::handle::{Expr, LocalparamRef, LogicRef, ParameterRef, VastDataType, VastModule};
use crate::node::{ExprNode, Member, ParameterForm, ParameterPort};
use std::alloc::AllocError;
use vast_names::{Text, Word};

impl Ast {
    /// Adds a parameter to the end of the module's header, and returns its name as an expression. Its name isn't
    /// among those that the module has taken.
    ///
    /// # Errors
    /// `AllocError` where a growth was refused; nothing changed.
    #[tactic(auto, using(crate::proofs::EntersRecords::enters_records))]
    pub fn push_parameter_port(
        &mut self,
        owner: VastModule,
        name: &str,
        data_type: Option<VastDataType>,
        value: Expr,
    ) -> Result<LogicRef, AllocError>
        requires owner { OwnsModule (bench self.old) owner }
        requires data_type { IfSome data_type (OwnsType (bench self.old)) }
        requires value { OwnsExpr (bench self.old) value }
        ensures { Grows self.old self.new result next_logic_ref
            (with_parameter_port owner name.now data_type value) }
    {
        let node_name = Word::new(self.alloc, name)?;
        let port_name = Text::new(self.alloc, name)?;
        let port = ParameterPort {
            name: port_name,
            data_type,
            value,
        };
        let logic_ref = LogicRef {
            id: self.next_term(),
        };
        self.grow(
            Place::Module(owner, ModuleEntry::Parameter(port)),
            Terms::One(ExprNode::Name(node_name, data_type)),
            Node::Nothing,
            false,
        )?;
        Ok(logic_ref)
    }

    /// The name of what the form declares, with its type where it has one.
    fn declared_by(&self, form: &ParameterForm) -> Result<(Word, Option<VastDataType>), AllocError>
        requires { FormSound (bench self.now) form.now }
        ensures { IfOk result (IsDeclaredBy (bench self.now) form.now) }
    {
        match form {
            ParameterForm::Plain(name) => Ok((Word::new(self.alloc, name.as_str())?, None)),
            ParameterForm::Int(name) => Ok((Word::new(self.alloc, name.as_str())?, None)),
            ParameterForm::Defined(d) => {
                let definition = self.definition(*d);
                let name = Word::new(self.alloc, definition.name.as_str())?;
                Ok((name, Some(definition.data_type)))
            }
        }
    }

    /// Adds a parameter as the scope's last member, and returns its name.
    fn push_parameter_member(
        &mut self,
        scope: Scope,
        local: bool,
        form: ParameterForm,
        value: Expr,
    ) -> Result<Expr, AllocError>
        requires scope { OwnsScope (bench self.old) scope }
        requires form { FormSound (bench self.old) form }
        requires value { OwnsExpr (bench self.old) value }
        ensures { Grows self.old self.new result next_expr
            (with_scope_parameter scope local form value) }
    {
        let (name, data_type) = self.declared_by(&form)?;
        let expr = Expr {
            id: self.next_term(),
        };
        self.grow_in(
            scope,
            Member::Parameter(local, form, value),
            Terms::One(ExprNode::Name(name, data_type)),
            Node::Nothing,
            false,
        )?;
        Ok(expr)
    }

    /// Adds a parameter as the module's last member, and returns its name. Its name isn't among those that the module has
    /// taken.
    ///
    /// # Errors
    /// `AllocError` where a growth was refused; nothing changed.
    pub fn push_parameter(
        &mut self,
        owner: VastModule,
        form: ParameterForm,
        value: Expr,
    ) -> Result<ParameterRef, AllocError>
        requires owner { OwnsModule (bench self.old) owner }
        requires form { FormSound (bench self.old) form }
        requires value { OwnsExpr (bench self.old) value }
        ensures { Grows self.old self.new result (λ b. record { id = next_node b })
            (with_scope_parameter (ScopeModule owner) false form value) }
    {
        let expr = self.push_parameter_member(Scope::Module(owner), false, form, value)?;
        Ok(ParameterRef { id: expr.id })
    }

    /// Adds a local parameter as the scope's last member, and returns its name. Its name isn't among those that a module
    /// has taken.
    ///
    /// # Errors
    /// `AllocError` where a growth was refused; nothing changed.
    pub fn push_localparam(
        &mut self,
        scope: Scope,
        form: ParameterForm,
        value: Expr,
    ) -> Result<LocalparamRef, AllocError>
        requires scope { OwnsScope (bench self.old) scope }
        requires form { FormSound (bench self.old) form }
        requires value { OwnsExpr (bench self.old) value }
        ensures { Grows self.old self.new result (λ b. record { id = next_node b })
            (with_scope_parameter scope true form value) }
    {
        let expr = self.push_parameter_member(scope, true, form, value)?;
        Ok(LocalparamRef { id: expr.id })
    }
}
