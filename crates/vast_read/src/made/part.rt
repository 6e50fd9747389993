//! Parts by their kinds.

ghost use Rattle.std.specs.Prelude.{◌≡◌, ℕ, List, Bool, Option, Some, None, MatchOption, option_map};
ghost use Rattle.vast_literal.specs.NormalExpr as normal_expr;
ghost use Rattle.vast_literal.specs.NormalFile as normal;
ghost use Rattle.vast_read.specs.DeclarationView.{group_view, declaration_view};
ghost use Rattle.vast_read.specs.FileView.{parameter_view, port_view, item_view};
ghost use Rattle.vast_read.specs.Internal.Made.{arms_denoted, denoted, value_view};
ghost use Rattle.vast_read.specs.MemberView.{event_view, connection_view, member_view};
ghost use Rattle.vast_read.specs.StatementView.{statement_view};
ghost use Rattle.vast_read.specs.View.{view};
ghost use Rattle.vast_rows.specs.Built.{Seen, first, maybe, as_answer, as_name, as_path, as_expression, as_loop, as_group, as_declaration, as_connection, as_event, as_statement, as_arms, as_member, as_parameter, as_port, as_item};

use crate::made::value::{Alternatives, Path, Range, Value, Values};
use crate::tree::{
    Connection, Event, Group, NormalDeclaration, NormalExpr, NormalItem, NormalMember,
    NormalStatement, Parameter, Port,
};

/// A part that may stand first among values.
pub(crate) trait Part<'t>: Sized {
    ghost Normal: { Type 0 };

    ghost kind: { Seen → Option Normal };

    ghost denotes: { Self → Normal };

    /// The value, if it is such a part.
    fn of(value: Value<'t>) -> Option<Self>
        ensures { MatchOption result (kind (value_view value.entry) ≡ None)
            (λ x. kind (value_view value.entry) ≡ Some (denotes x)) };
}

/// No part: the value is none of the kind. It is let go by a call, since where it went out of scope, the check of each
/// caller would hold how every kind of value is let go.
pub(crate) fn no_part<T>(value: Value<'_>) -> Option<T>
    ensures { result ≡ None }
{
    drop(value);
    None
}

/// The first of these values, if it is such a part. Whatever it is, it leaves.
pub(crate) fn first<'t, P: Part<'t>>(values: &mut Values<'t>) -> Option<P>
    ensures { MatchOption result (first P.kind (denoted values.old) ≡ None)
        (λ x. first P.kind (denoted values.old) ≡ Some (P.denotes x, denoted values.new)) }
{
    match values.pop() {
        None => None,
        Some(value) => P::of(value),
    }
}

/// The same, or the mark of a part that is left out.
pub(crate) fn maybe<'t, P: Part<'t>>(values: &mut Values<'t>) -> Option<Option<P>>
    ensures { MatchOption result (first (maybe P.kind) (denoted values.old) ≡ None)
        (λ x. first (maybe P.kind) (denoted values.old)
        ≡ Some (option_map P.denotes x, denoted values.new)) }
{
    match values.pop() {
        None => None,
        Some(Value::Nothing) => Some(None),
        Some(value) => match P::of(value) {
            None => None,
            Some(part) => Some(Some(part)),
        },
    }
}

/// The part that a value holds, if it is of the kind.
macro_rules! held {
    ($value:expr, $kind:ident) => {
        match $value {
            Value::$kind(part) => Some(part),
            other => no_part(other),
        }
    };
}

pub(crate) use held;

impl<'t> Part<'t> for bool {
    ghost Normal = { Bool };

    ghost kind = { as_answer };

    ghost denotes = { λ b. b };

    fn of(value: Value<'t>) -> Option<bool> {
        held!(value, Answer)
    }
}

impl<'t> Part<'t> for &'t str {
    ghost Normal = { List ℕ };

    ghost kind = { as_name };

    ghost denotes = { λ w. w.now };

    fn of(value: Value<'t>) -> Option<&'t str> {
        held!(value, Name)
    }
}

impl<'t> Part<'t> for Path<'t> {
    ghost Normal = { List ℕ };

    ghost kind = { as_path };

    ghost denotes = { λ p. p.text.now };

    fn of(value: Value<'t>) -> Option<Path<'t>> {
        held!(value, Path)
    }
}

impl<'t> Part<'t> for Box<NormalExpr> {
    ghost Normal = { normal_expr.NormalExpr };

    ghost kind = { as_expression };

    ghost denotes = { λ x. view x.value };

    fn of(value: Value<'t>) -> Option<Box<NormalExpr>> {
        held!(value, Expression)
    }
}

impl<'t> Part<'t> for Range<'t> {
    ghost Normal = { List ℕ × normal_expr.NormalExpr × normal_expr.NormalExpr };

    ghost kind = { as_loop };

    ghost denotes = { λ r. (r.variable.now, view r.start.value, view r.end.value) };

    fn of(value: Value<'t>) -> Option<Range<'t>> {
        held!(value, Loop)
    }
}

impl<'t> Part<'t> for Group {
    ghost Normal = { normal.Group };

    ghost kind = { as_group };

    ghost denotes = { group_view };

    fn of(value: Value<'t>) -> Option<Group> {
        held!(value, Group)
    }
}

impl<'t> Part<'t> for NormalDeclaration {
    ghost Normal = { normal.NormalDeclaration };

    ghost kind = { as_declaration };

    ghost denotes = { declaration_view };

    fn of(value: Value<'t>) -> Option<NormalDeclaration> {
        held!(value, Declaration)
    }
}

impl<'t> Part<'t> for Connection {
    ghost Normal = { normal.NormalConnection };

    ghost kind = { as_connection };

    ghost denotes = { connection_view };

    fn of(value: Value<'t>) -> Option<Connection> {
        held!(value, Connection)
    }
}

impl<'t> Part<'t> for Event {
    ghost Normal = { normal.Event };

    ghost kind = { as_event };

    ghost denotes = { event_view };

    fn of(value: Value<'t>) -> Option<Event> {
        held!(value, Event)
    }
}

impl<'t> Part<'t> for NormalStatement {
    ghost Normal = { normal.NormalStatement };

    ghost kind = { as_statement };

    ghost denotes = { statement_view };

    fn of(value: Value<'t>) -> Option<NormalStatement> {
        held!(value, Statement)
    }
}

impl<'t> Part<'t> for Alternatives {
    ghost Normal = { normal.Arms };

    ghost kind = { as_arms };

    ghost denotes = { arms_denoted };

    fn of(value: Value<'t>) -> Option<Alternatives> {
        held!(value, Arms)
    }
}

impl<'t> Part<'t> for NormalMember {
    ghost Normal = { normal.NormalMember };

    ghost kind = { as_member };

    ghost denotes = { member_view };

    fn of(value: Value<'t>) -> Option<NormalMember> {
        held!(value, Member)
    }
}

impl<'t> Part<'t> for Parameter {
    ghost Normal = { normal.NormalParameter };

    ghost kind = { as_parameter };

    ghost denotes = { parameter_view };

    fn of(value: Value<'t>) -> Option<Parameter> {
        held!(value, Parameter)
    }
}

impl<'t> Part<'t> for Port {
    ghost Normal = { normal.NormalPort };

    ghost kind = { as_port };

    ghost denotes = { port_view };

    fn of(value: Value<'t>) -> Option<Port> {
        held!(value, Port)
    }
}

impl<'t> Part<'t> for NormalItem {
    ghost Normal = { normal.NormalItem };

    ghost kind = { as_item };

    ghost denotes = { item_view };

    fn of(value: Value<'t>) -> Option<NormalItem> {
        held!(value, Item)
    }
}
