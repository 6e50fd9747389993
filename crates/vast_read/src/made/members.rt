//! Members, modules and files.
#![tactic(auto, unfolding(vast_rows::specs::Built::make, vast_rows::specs::Built::of_one, vast_rows::specs::Built::of_two, vast_rows::specs::Built::of_three, vast_rows::specs::Built::of_four))]

ghost use Rattle.std.specs.Prelude.{◌∷◌, IfOk};
ghost use Rattle.vast_rows.specs.Built.{make, named_member};
ghost use Rattle.vast_rows.specs.declared.action.Action.TheVariants as action;
ghost use Rattle.vast_read.specs.Internal.Made.{Grown, denoted, value_view};

use crate::children::Children;
use crate::macros::wanted;
use crate::made::declarations::name_type;
use crate::made::part::{first, maybe};
use crate::made::value::{Alternatives, Path, Range, Value, Values};
use crate::tree::words::key_word;
use crate::tree::{
    Always, Connection, EnumType, Event, Function, Group, Instance, LoopRange, MacroUse,
    NormalDeclaration, NormalExpr, NormalItem, NormalMember, NormalModule, NormalStatement,
    Parameter, Port, StructType,
};
use std::alloc::{AllocError, Global};
use vast_literal::{AlwaysKind, Key};
use vast_names::Word;

/// A member of its declaration.
pub(crate) fn declaration_member(alloc: Global, values: &mut Values<'_>) -> Result<(), AllocError>
    ensures { IfOk result (λ _. Grown (make action.DeclarationMember (denoted values.old))
        values.new) }
{
    let declared = wanted!(first::<NormalDeclaration>(values));
    let declared = Box::new(alloc, declared)?;
    values.push(Value::Member(NormalMember::Declaration(declared)))
}

/// An assignment of its sides.
pub(crate) fn assign_member(values: &mut Values<'_>) -> Result<(), AllocError>
    ensures { IfOk result (λ _. Grown (make action.AssignMember (denoted values.old)) values.new) }
{
    let left = wanted!(first::<Box<NormalExpr>>(values));
    let right = wanted!(first::<Box<NormalExpr>>(values));
    values.push(Value::Member(NormalMember::Assign(left, right)))
}

/// A parameter by that word, of its declaration and value.
pub(crate) fn parameter_member(
    alloc: Global,
    key: Key,
    values: &mut Values<'_>,
) -> Result<(), AllocError>
    ensures { IfOk result (λ _. Grown (make (action.ParameterMember key) (denoted values.old))
        values.new) }
{
    let declared = wanted!(first::<NormalDeclaration>(values));
    let value = wanted!(first::<Box<NormalExpr>>(values));
    let word = key_word(alloc, key)?;
    let declared = Box::new(alloc, declared)?;
    values.push(Value::Member(NormalMember::Parameter(word, declared, value)))
}

/// The import of a package by its name.
pub(crate) fn import_member(alloc: Global, values: &mut Values<'_>) -> Result<(), AllocError>
    ensures { IfOk result (λ _. Grown (make action.ImportMember (denoted values.old)) values.new) }
{
    let package = wanted!(first::<&str>(values));
    let package = Word::new(alloc, package)?;
    values.push(Value::Member(NormalMember::Import(package)))
}

/// An enumeration of its type, its entries, its name and the groups after that.
pub(crate) fn enum_member(alloc: Global, values: &mut Values<'_>) -> Result<(), AllocError>
    ensures { IfOk result (λ _. Grown (make action.EnumMember (denoted values.old)) values.new) }
{
    let mut declared = wanted!(first::<NormalDeclaration>(values));
    let entries = wanted!(first::<Children<Connection>>(values));
    let name = wanted!(first::<&str>(values));
    let after = wanted!(first::<Children<Group>>(values));
    declared.name = Word::new(alloc, name)?;
    declared.after = after.reversed();
    let made = EnumType {
        declaration: Box::new(alloc, declared)?,
        entries: entries.reversed(),
    };
    values.push(Value::Member(NormalMember::Enum(Box::new(alloc, made)?)))
}

/// A packed structure of its fields and its name.
pub(crate) fn struct_member(alloc: Global, values: &mut Values<'_>) -> Result<(), AllocError>
    ensures { IfOk result (λ _. Grown (make action.StructMember (denoted values.old)) values.new) }
{
    let fields = wanted!(first::<Children<NormalDeclaration>>(values));
    let name = wanted!(first::<&str>(values));
    let made = StructType {
        name: Word::new(alloc, name)?,
        fields: fields.reversed(),
    };
    values.push(Value::Member(NormalMember::Struct(Box::new(alloc, made)?)))
}

/// A macro of its name, its arguments where it has any, and whether there is a semicolon.
pub(crate) fn macro_member(alloc: Global, values: &mut Values<'_>) -> Result<(), AllocError>
    ensures { IfOk result (λ _. Grown (make action.MacroMember (denoted values.old)) values.new) }
{
    let name = wanted!(first::<&str>(values));
    let arguments = wanted!(maybe::<Children<NormalExpr>>(values));
    let has_semicolon = wanted!(first::<bool>(values));
    let made = MacroUse {
        name: Word::new(alloc, name)?,
        arguments: match arguments {
            Some(arguments) => Some(arguments.reversed()),
            None => None,
        },
        has_semicolon,
    };
    values.push(Value::Member(NormalMember::Macro(Box::new(alloc, made)?)))
}

/// A variable of the type that a name is, or an instance of the module that it is.
#[tactic(auto, unfolding(vast_rows::specs::Built::named_member, vast_rows::specs::Built::make, vast_rows::specs::Built::of_one, vast_rows::specs::Built::of_two, vast_rows::specs::Built::of_three, vast_rows::specs::Built::of_four))]
pub(crate) fn named_member(alloc: Global, values: &mut Values<'_>) -> Result<(), AllocError>
    ensures { IfOk result (λ _. Grown (make action.NamedMember (denoted values.old)) values.new) }
{
    let name = wanted!(first::<&str>(values));
    match values.pop() {
        None => Ok(()),
        Some(value) => member_of(alloc, name, value, values),
    }
}

/// The same for a name and the value after it.
#[tactic(auto, unfolding(vast_rows::specs::Built::named_member, vast_rows::specs::Built::of_one, vast_rows::specs::Built::of_two))]
fn member_of<'t>(
    alloc: Global,
    name: &'t str,
    value: Value<'t>,
    values: &mut Values<'t>,
) -> Result<(), AllocError>
    ensures { IfOk result (λ _. Grown (named_member name.now
        (value_view value.entry ∷ denoted values.old)) values.new) }
{
    match value {
        Value::Declaration(mut declared) => {
            declared.typed = name_type(alloc, name, declared.typed)?;
            let declared = Box::new(alloc, declared)?;
            values.push(Value::Member(NormalMember::Declaration(declared)))
        }
        Value::Connections(parameters) => {
            let instance = wanted!(first::<&str>(values));
            let ports = wanted!(first::<Children<Connection>>(values));
            let made = Instance {
                definition: Word::new(alloc, name)?,
                parameters: parameters.reversed(),
                name: Word::new(alloc, instance)?,
                connections: ports.reversed(),
            };
            values.push(Value::Member(NormalMember::Instance(Box::new(alloc, made)?)))
        }
        other => {
            drop(other);
            Ok(())
        }
    }
}

/// A block of that kind, of what it waits for and its statements.
pub(crate) fn always_member(
    alloc: Global,
    kind: AlwaysKind,
    values: &mut Values<'_>,
) -> Result<(), AllocError>
    ensures { IfOk result (λ _. Grown (make (action.AlwaysMember kind) (denoted values.old))
        values.new) }
{
    let events = wanted!(first::<Children<Event>>(values));
    let body = wanted!(first::<Children<NormalStatement>>(values));
    let made = Always {
        kind,
        events: events.reversed(),
        body: body.reversed(),
    };
    values.push(Value::Member(NormalMember::Always(Box::new(alloc, made)?)))
}

/// A conditional of its arms.
pub(crate) fn conditional_member(alloc: Global, values: &mut Values<'_>) -> Result<(), AllocError>
    ensures { IfOk result (λ _. Grown (make action.ConditionalMember (denoted values.old))
        values.new) }
{
    let alternatives = wanted!(first::<Alternatives>(values));
    let (arms, last) = alternatives.in_order()?;
    let choice = Box::new(alloc, NormalStatement::Choice(arms, last))?;
    values.push(Value::Member(NormalMember::Conditional(choice)))
}

/// A function of its declaration, inputs, locals and statements.
pub(crate) fn function_member(alloc: Global, values: &mut Values<'_>) -> Result<(), AllocError>
    ensures { IfOk result (λ _. Grown (make action.FunctionMember (denoted values.old))
        values.new) }
{
    let declared = wanted!(first::<NormalDeclaration>(values));
    let inputs = wanted!(first::<Children<NormalDeclaration>>(values));
    let locals = wanted!(first::<Children<NormalDeclaration>>(values));
    let body = wanted!(first::<Children<NormalStatement>>(values));
    let made = Function {
        output: Box::new(alloc, declared)?,
        inputs: inputs.reversed(),
        locals: locals.reversed(),
        body: body.reversed(),
    };
    values.push(Value::Member(NormalMember::Function(Box::new(alloc, made)?)))
}

/// A loop of its head, its label where it has one, and its members.
pub(crate) fn loop_member(alloc: Global, values: &mut Values<'_>) -> Result<(), AllocError>
    ensures { IfOk result (λ _. Grown (make action.LoopMember (denoted values.old)) values.new) }
{
    let range = wanted!(first::<Range<'_>>(values));
    let label = wanted!(maybe::<&str>(values));
    let members = wanted!(first::<Children<NormalMember>>(values));
    let made = LoopRange {
        variable: Word::new(alloc, range.variable)?,
        start: range.start,
        end: range.end,
        label: Word::maybe(alloc, label)?,
    };
    let members = members.reversed();
    values.push(Value::Member(NormalMember::Loop(Box::new(alloc, made)?, members)))
}

/// A connection of its name, and of its value where it has one.
pub(crate) fn connects(alloc: Global, values: &mut Values<'_>) -> Result<(), AllocError>
    ensures { IfOk result (λ _. Grown (make action.Connects (denoted values.old)) values.new) }
{
    let name = wanted!(first::<&str>(values));
    let value = wanted!(maybe::<Box<NormalExpr>>(values));
    let name = Word::new(alloc, name)?;
    values.push(Value::Connection(Connection { name, value }))
}

/// That edge of an expression.
pub(crate) fn edge_of(alloc: Global, key: Key, values: &mut Values<'_>) -> Result<(), AllocError>
    ensures { IfOk result (λ _. Grown (make (action.EdgeOf key) (denoted values.old)) values.new) }
{
    let expression = wanted!(first::<Box<NormalExpr>>(values));
    let edge = Some(key_word(alloc, key)?);
    values.push(Value::Event(Event { edge, expression }))
}

/// Any change of a name.
pub(crate) fn change_of(alloc: Global, values: &mut Values<'_>) -> Result<(), AllocError>
    ensures { IfOk result (λ _. Grown (make action.ChangeOf (denoted values.old)) values.new) }
{
    let name = wanted!(first::<&str>(values));
    let name = NormalExpr::Name(Word::new(alloc, name)?);
    let expression = Box::new(alloc, name)?;
    values.push(Value::Event(Event {
        edge: None,
        expression,
    }))
}

/// A parameter of a header, of its declaration and value.
pub(crate) fn header_parameter(alloc: Global, values: &mut Values<'_>) -> Result<(), AllocError>
    ensures { IfOk result (λ _. Grown (make action.HeaderParameter (denoted values.old))
        values.new) }
{
    let declared = wanted!(first::<NormalDeclaration>(values));
    let value = wanted!(first::<Box<NormalExpr>>(values));
    let declaration = Box::new(alloc, declared)?;
    values.push(Value::Parameter(Parameter { declaration, value }))
}

/// A port of that direction, of its declaration.
pub(crate) fn port_of(alloc: Global, key: Key, values: &mut Values<'_>) -> Result<(), AllocError>
    ensures { IfOk result (λ _. Grown (make (action.PortOf key) (denoted values.old)) values.new) }
{
    let declared = wanted!(first::<NormalDeclaration>(values));
    let made = Port {
        direction: key_word(alloc, key)?,
        declaration: Box::new(alloc, declared)?,
    };
    values.push(Value::Port(made))
}

/// A module of its name, parameters, ports and members.
pub(crate) fn module_item(alloc: Global, values: &mut Values<'_>) -> Result<(), AllocError>
    ensures { IfOk result (λ _. Grown (make action.ModuleItem (denoted values.old)) values.new) }
{
    let name = wanted!(first::<&str>(values));
    let parameters = wanted!(first::<Children<Parameter>>(values));
    let ports = wanted!(first::<Children<Port>>(values));
    let members = wanted!(first::<Children<NormalMember>>(values));
    let made = NormalModule {
        name: Word::new(alloc, name)?,
        parameters: parameters.reversed(),
        ports: ports.reversed(),
        members: members.reversed(),
    };
    values.push(Value::Item(NormalItem::Module(made)))
}

/// An include of its path, after the macro's name.
pub(crate) fn include_item(alloc: Global, values: &mut Values<'_>) -> Result<(), AllocError>
    ensures { IfOk result (λ _. Grown (make action.IncludeItem (denoted values.old)) values.new) }
{
    let _macro = wanted!(first::<&str>(values));
    let path = wanted!(first::<Path<'_>>(values));
    let path = Word::new(alloc, path.text)?;
    values.push(Value::Item(NormalItem::Include(path)))
}

/// The import of a package by its name, as an item of a file.
pub(crate) fn import_item(alloc: Global, values: &mut Values<'_>) -> Result<(), AllocError>
    ensures { IfOk result (λ _. Grown (make action.ImportItem (denoted values.old)) values.new) }
{
    let package = wanted!(first::<&str>(values));
    let package = Word::new(alloc, package)?;
    values.push(Value::Item(NormalItem::Import(package)))
}

/// An item of a member.
pub(crate) fn member_item(values: &mut Values<'_>) -> Result<(), AllocError>
    ensures { IfOk result (λ _. Grown (make action.MemberItem (denoted values.old)) values.new) }
{
    let member = wanted!(first::<NormalMember>(values));
    values.push(Value::Item(NormalItem::Member(member)))
}
