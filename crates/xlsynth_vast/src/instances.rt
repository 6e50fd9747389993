//! Instantiations of modules (IEEE 1800-2017, 23.3.2), as in the crate `xlsynth-vast`.

ghost use Rattle.std.specs.Prelude.{◌≡◌, All, Some, IfOk, IfSome, length, map, option_copied};
ghost use Rattle.vast_core.specs.Bench.{OwnsExpr};
ghost use Rattle.vast_core.specs.Growth.{Builds};
ghost use Rattle.vast_core.specs.Artifacts.{next_instantiation, with_instance};
ghost use Rattle.xlsynth_vast.specs.Keeps.{Keeps};
ghost use Rattle.xlsynth_vast.specs.Instances.{connected};

use crate::file::VastFile;
use std::alloc::{AllocError, Global};
use vast_core::{Connection, Expr, Instantiation};
use vast_names::Text;

/// An expression that is given to a parameter or a port by its name; an open port has none.
fn connection(alloc: Global, name: &str, value: Option<Expr>) -> Result<Connection, AllocError>
    ensures { IfOk result
        (λ made. made ≡ record { name = name.now; value = value }) }
{
    let name = Text::new(alloc, name)?;
    Ok(Connection { name, value })
}

/// The parameters of these names, each with its expression.
fn parameters(
    alloc: Global,
    names: &[&str],
    values: &[&Expr],
) -> Result<Vec<Connection>, AllocError>
    requires { length names.now ≡ length values.now }
    ensures { IfOk result
        (λ made. made.items
        ≡ connected (map (λ n. n.now) names.now) (map (λ e. Some e.now) values.now)) }
{
    let mut made = Vec::new(alloc);
    for i in 0..names.len() {
        made.push(connection(alloc, names[i], Some(*values[i]))?)?;
    }
    Ok(made)
}

/// The ports of these names, each with its expression, or open. The entries of an enumeration, each with its value, or none.
pub(crate) fn connections(
    alloc: Global,
    names: &[&str],
    values: &[Option<&Expr>],
) -> Result<Vec<Connection>, AllocError>
    requires { length names.now ≡ length values.now }
    ensures { IfOk result
        (λ made. made.items
        ≡ connected (map (λ n. n.now) names.now) (map option_copied values.now)) }
{
    let mut made = Vec::new(alloc);
    for i in 0..names.len() {
        made.push(connection(alloc, names[i], values[i].copied())?)?;
    }
    Ok(made)
}

impl VastFile {
    /// An instance of a module, with an expression for each named parameter, and for each named port an expression or
    /// none, which leaves it open. It stands nowhere until it is added. The module need not be one of the file.
    ///
    /// # Errors
    /// `AllocError` where a growth was refused; the file is unchanged.
    pub fn make_instantiation(
        &mut self,
        module_name: &str,
        instance_name: &str,
        parameter_names: &[&str],
        parameter_expressions: &[&Expr],
        connection_names: &[&str],
        connection_expressions: &[Option<&Expr>],
    ) -> Result<Instantiation, AllocError>
        requires parameters { length parameter_names.now ≡ length parameter_expressions.now }
        requires connections { length connection_names.now ≡ length connection_expressions.now }
        requires parameter_expressions { All (λ e. OwnsExpr self.old e.now)
            parameter_expressions.now }
        requires connection_expressions { All (λ e. IfSome e (λ x. OwnsExpr self.old x.now))
            connection_expressions.now }
        ensures built { Builds self.old self.new result next_instantiation
            (with_instance
            (record {
              module_name = module_name.now;
              instance_name = instance_name.now;
              parameters = connected (map (λ n. n.now) parameter_names.now)
                  (map (λ e. Some e.now) parameter_expressions.now);
              connections = connected
                  (map (λ n. n.now) connection_names.now)
                  (map option_copied connection_expressions.now);
            })) }
        ensures kept { Keeps self.old self.new }
    {
        let alloc = self.ast.allocator();
        let parameters = parameters(alloc, parameter_names, parameter_expressions)?;
        let connections = connections(alloc, connection_names, connection_expressions)?;
        self.ast
            .push_instantiation(module_name, instance_name, parameters, connections)
    }
}
