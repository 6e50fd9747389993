//! Lists.
#![tactic(auto, using(crate::proofs::Making::lists), unfolding(vast_rows::specs::Built::make_more, vast_rows::specs::Built::of_one, vast_rows::specs::Built::of_two))]

ghost use Rattle.std.specs.Prelude.{◌≡◌, IfOk};
ghost use Rattle.vast_read.specs.Internal.Made.{Grown, denoted, value_view};
ghost use Rattle.vast_rows.specs.Built.{make_more, make_none};
ghost use Rattle.vast_rows.specs.declared.action.Listed.TheVariants as listed;

use crate::children::Children;
use crate::macros::wanted;
use crate::made::part::first;
use crate::made::value::{Value, Values};
use crate::tree::{
    Connection, Event, Group, NormalDeclaration, NormalExpr, NormalItem, NormalMember,
    NormalStatement, Parameter, Port,
};
use std::alloc::{AllocError, Global};
use vast_rows::Listed;

/// Puts a list with one more part in the place of the part and the list behind it.
macro_rules! one_more {
    ($values:ident, $part:ty, $list:ident) => {{
        let part = wanted!(first::<$part>($values));
        let mut list = wanted!(first::<Children<$part>>($values));
        list.push(part)?;
        $values.push(Value::$list(list))
    }};
}

/// An empty list.
#[tactic(auto, unfolding(vast_rows::specs::Built::make_none))]
pub(crate) fn none_of<'t>(alloc: Global, what: Listed) -> Value<'t>
    ensures { value_view result ≡ make_none what }
{
    match what {
        Listed::Item => Value::Items(Children::new(alloc)),
        Listed::Parameter => Value::Parameters(Children::new(alloc)),
        Listed::Port => Value::Ports(Children::new(alloc)),
        Listed::Member => Value::Members(Children::new(alloc)),
        Listed::Group => Value::Groups(Children::new(alloc)),
        Listed::Declaration => Value::Declarations(Children::new(alloc)),
        Listed::Expression => Value::Expressions(Children::new(alloc)),
        Listed::Connection => Value::Connections(Children::new(alloc)),
        Listed::Event => Value::Events(Children::new(alloc)),
        Listed::Statement => Value::Statements(Children::new(alloc)),
    }
}

/// One more part in front of a list.
pub(crate) fn one_more(what: Listed, values: &mut Values<'_>) -> Result<(), AllocError>
    ensures { IfOk result (λ _. Grown (make_more what (denoted values.old)) values.new) }
{
    match what {
        Listed::Item => one_more_item(values),
        Listed::Parameter => one_more_parameter(values),
        Listed::Port => one_more_port(values),
        Listed::Member => one_more_member(values),
        Listed::Group => one_more_group(values),
        Listed::Declaration => one_more_declaration(values),
        Listed::Expression => one_more_expression(values),
        Listed::Connection => one_more_connection(values),
        Listed::Event => one_more_event(values),
        Listed::Statement => one_more_statement(values),
    }
}

fn one_more_item(values: &mut Values<'_>) -> Result<(), AllocError>
    ensures { IfOk result (λ _. Grown (make_more listed.Item (denoted values.old)) values.new) }
{
    one_more!(values, NormalItem, Items)
}

fn one_more_parameter(values: &mut Values<'_>) -> Result<(), AllocError>
    ensures { IfOk result (λ _. Grown (make_more listed.Parameter (denoted values.old))
        values.new) }
{
    one_more!(values, Parameter, Parameters)
}

fn one_more_port(values: &mut Values<'_>) -> Result<(), AllocError>
    ensures { IfOk result (λ _. Grown (make_more listed.Port (denoted values.old)) values.new) }
{
    one_more!(values, Port, Ports)
}

fn one_more_member(values: &mut Values<'_>) -> Result<(), AllocError>
    ensures { IfOk result (λ _. Grown (make_more listed.Member (denoted values.old)) values.new) }
{
    one_more!(values, NormalMember, Members)
}

fn one_more_group(values: &mut Values<'_>) -> Result<(), AllocError>
    ensures { IfOk result (λ _. Grown (make_more listed.Group (denoted values.old)) values.new) }
{
    one_more!(values, Group, Groups)
}

fn one_more_declaration(values: &mut Values<'_>) -> Result<(), AllocError>
    ensures { IfOk result (λ _. Grown (make_more listed.Declaration (denoted values.old))
        values.new) }
{
    one_more!(values, NormalDeclaration, Declarations)
}

fn one_more_connection(values: &mut Values<'_>) -> Result<(), AllocError>
    ensures { IfOk result (λ _. Grown (make_more listed.Connection (denoted values.old))
        values.new) }
{
    one_more!(values, Connection, Connections)
}

fn one_more_event(values: &mut Values<'_>) -> Result<(), AllocError>
    ensures { IfOk result (λ _. Grown (make_more listed.Event (denoted values.old)) values.new) }
{
    one_more!(values, Event, Events)
}

fn one_more_statement(values: &mut Values<'_>) -> Result<(), AllocError>
    ensures { IfOk result (λ _. Grown (make_more listed.Statement (denoted values.old))
        values.new) }
{
    one_more!(values, NormalStatement, Statements)
}

fn one_more_expression(values: &mut Values<'_>) -> Result<(), AllocError>
    ensures { IfOk result (λ _. Grown (make_more listed.Expression (denoted values.old))
        values.new) }
{
    let part = wanted!(first::<Box<NormalExpr>>(values));
    let mut list = wanted!(first::<Children<NormalExpr>>(values));
    list.push(Box::into_inner(part))?;
    values.push(Value::Expressions(list))
}
