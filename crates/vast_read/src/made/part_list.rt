//! Lists by their kinds.

ghost use Rattle.std.specs.Prelude.{List, reverse};
ghost use Rattle.vast_literal.specs.NormalExpr as normal_expr;
ghost use Rattle.vast_literal.specs.NormalFile as normal;
ghost use Rattle.vast_read.specs.DeclarationView.{groups_view, declarations_view};
ghost use Rattle.vast_read.specs.FileView.{parameters_view, ports_view, items_view};
ghost use Rattle.vast_read.specs.Internal.StatementView.{labels_view};
ghost use Rattle.vast_read.specs.MemberView.{events_view, connections_view, members_view};
ghost use Rattle.vast_read.specs.StatementView.{block_view};
ghost use Rattle.vast_read.specs.View.{listed};
ghost use Rattle.vast_rows.specs.Built.{as_expressions, as_groups, as_declarations, as_connections, as_events, as_statements, as_labels, as_members, as_parameters, as_ports, as_file};

use crate::children::Children;
use crate::made::part::{Part, held, no_part};
use crate::made::value::Value;
use crate::tree::{
    CaseArm, Connection, Event, Group, NormalDeclaration, NormalExpr, NormalItem, NormalMember,
    NormalStatement, Parameter, Port,
};

impl<'t> Part<'t> for Children<NormalExpr> {
    ghost Normal = { normal_expr.NormalExprs };

    ghost kind = { as_expressions };

    ghost denotes = { λ xs. listed (reverse xs) };

    fn of(value: Value<'t>) -> Option<Children<NormalExpr>> {
        held!(value, Expressions)
    }
}

impl<'t> Part<'t> for Children<Group> {
    ghost Normal = { List normal.Group };

    ghost kind = { as_groups };

    ghost denotes = { λ gs. groups_view (reverse gs) };

    fn of(value: Value<'t>) -> Option<Children<Group>> {
        held!(value, Groups)
    }
}

impl<'t> Part<'t> for Children<NormalDeclaration> {
    ghost Normal = { List normal.NormalDeclaration };

    ghost kind = { as_declarations };

    ghost denotes = { λ ds. declarations_view (reverse ds) };

    fn of(value: Value<'t>) -> Option<Children<NormalDeclaration>> {
        held!(value, Declarations)
    }
}

impl<'t> Part<'t> for Children<Connection> {
    ghost Normal = { List normal.NormalConnection };

    ghost kind = { as_connections };

    ghost denotes = { λ cs. connections_view (reverse cs) };

    fn of(value: Value<'t>) -> Option<Children<Connection>> {
        held!(value, Connections)
    }
}

impl<'t> Part<'t> for Children<Event> {
    ghost Normal = { List normal.Event };

    ghost kind = { as_events };

    ghost denotes = { λ es. events_view (reverse es) };

    fn of(value: Value<'t>) -> Option<Children<Event>> {
        held!(value, Events)
    }
}

impl<'t> Part<'t> for Children<NormalStatement> {
    ghost Normal = { normal.NormalStatements };

    ghost kind = { as_statements };

    ghost denotes = { λ ss. block_view (reverse ss) };

    fn of(value: Value<'t>) -> Option<Children<NormalStatement>> {
        held!(value, Statements)
    }
}

impl<'t> Part<'t> for Children<CaseArm> {
    ghost Normal = { normal.Labels };

    ghost kind = { as_labels };

    ghost denotes = { λ ls. labels_view (reverse ls) };

    fn of(value: Value<'t>) -> Option<Children<CaseArm>> {
        held!(value, Labels)
    }
}

impl<'t> Part<'t> for Children<NormalMember> {
    ghost Normal = { normal.NormalMembers };

    ghost kind = { as_members };

    ghost denotes = { λ ms. members_view (reverse ms) };

    fn of(value: Value<'t>) -> Option<Children<NormalMember>> {
        held!(value, Members)
    }
}

impl<'t> Part<'t> for Children<Parameter> {
    ghost Normal = { List normal.NormalParameter };

    ghost kind = { as_parameters };

    ghost denotes = { λ ps. parameters_view (reverse ps) };

    fn of(value: Value<'t>) -> Option<Children<Parameter>> {
        held!(value, Parameters)
    }
}

impl<'t> Part<'t> for Children<Port> {
    ghost Normal = { List normal.NormalPort };

    ghost kind = { as_ports };

    ghost denotes = { λ ps. ports_view (reverse ps) };

    fn of(value: Value<'t>) -> Option<Children<Port>> {
        held!(value, Ports)
    }
}

impl<'t> Part<'t> for Children<NormalItem> {
    ghost Normal = { normal.NormalFile };

    ghost kind = { as_file };

    ghost denotes = { λ is. record { items = items_view (reverse is) } };

    fn of(value: Value<'t>) -> Option<Children<NormalItem>> {
        held!(value, Items)
    }
}
