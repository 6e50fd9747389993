//! Declarations.
#![tactic(auto, unfolding(vast_rows::specs::Built::make, vast_rows::specs::Built::of_one, vast_rows::specs::Built::of_two, vast_rows::specs::Built::of_three, vast_rows::specs::Built::of_four))]

ghost use Rattle.std.specs.Prelude.{◌≡◌, ◌∷◌, IfOk, option_map, reverse};
ghost use Rattle.vast_rows.specs.Built.{make, name_before, name_behind};
ghost use Rattle.vast_rows.specs.declared.action.Action.TheVariants as action;
ghost use Rattle.vast_read.specs.DeclarationView.{groups_view, package_of, sign_of, type_name_of};
ghost use Rattle.vast_read.specs.Internal.Made.{Grown, names_type, denoted, value_view};
ghost use Rattle.vast_read.specs.Texts.{key_of};

use crate::children::Children;
use crate::macros::wanted;
use crate::made::part::{first, maybe};
use crate::made::value::{Value, Values};
use crate::tree::words::key_word;
use crate::tree::{DeclaredType, Group, NormalDeclaration, NormalExpr};
use std::alloc::{AllocError, Global};
use vast_literal::Key;
use vast_names::Word;

/// A declaration of its groups, whose name is still to come.
pub(crate) fn unnamed(alloc: Global, values: &mut Values<'_>) -> Result<(), AllocError>
    ensures { IfOk result (λ _. Grown (make action.Unnamed (denoted values.old)) values.new) }
{
    let groups = wanted!(first::<Children<Group>>(values));
    let after = Children::new(alloc);
    let made = NormalDeclaration::plain(alloc, groups.reversed(), "", after)?;
    values.push(Value::Declaration(made))
}

/// A group of one expression or of two.
pub(crate) fn group_of(values: &mut Values<'_>) -> Result<(), AllocError>
    ensures { IfOk result (λ _. Grown (make action.GroupOf (denoted values.old)) values.new) }
{
    let first = wanted!(first::<Box<NormalExpr>>(values));
    let second = wanted!(maybe::<Box<NormalExpr>>(values));
    values.push(Value::Group(Group { first, second }))
}

/// A declaration of its groups, its name and the groups after that; groups alone where no name
/// follows.
#[tactic(auto, unfolding(vast_rows::specs::Built::name_behind, vast_rows::specs::Built::make, vast_rows::specs::Built::of_one, vast_rows::specs::Built::of_two, vast_rows::specs::Built::of_three, vast_rows::specs::Built::of_four))]
pub(crate) fn declares(alloc: Global, values: &mut Values<'_>) -> Result<(), AllocError>
    ensures { IfOk result (λ _. Grown (make action.Declares (denoted values.old)) values.new) }
{
    let groups = wanted!(first::<Children<Group>>(values));
    match values.pop() {
        None => Ok(()),
        Some(value) => name_behind(alloc, groups, value, values),
    }
}

/// A declaration of these groups, of a name that follows them and of the groups after that; the
/// groups alone before the mark that none follows.
#[tactic(auto, unfolding(vast_rows::specs::Built::name_behind, vast_rows::specs::Built::of_one))]
fn name_behind<'t>(
    alloc: Global,
    groups: Children<Group>,
    value: Value<'t>,
    values: &mut Values<'t>,
) -> Result<(), AllocError>
    ensures { IfOk result (λ _. Grown (name_behind (groups_view (reverse groups))
        (value_view value.entry ∷ denoted values.old)) values.new) }
{
    match value {
        Value::Nothing => values.push(Value::Groups(groups)),
        Value::Name(name) => {
            let after = wanted!(first::<Children<Group>>(values));
            let made = NormalDeclaration::plain(alloc, groups.reversed(), name, after.reversed())?;
            values.push(Value::Declaration(made))
        }
        other => {
            drop(other);
            Ok(())
        }
    }
}

/// A type and a sign, which may be none.
fn typed_parts(typed: Option<Box<DeclaredType>>) -> DeclaredType
    ensures package { result.«package» ≡ package_of typed }
    ensures name { result.type_name ≡ type_name_of typed }
    ensures sign { option_map key_of result.sign ≡ sign_of typed }
{
    match typed {
        None => DeclaredType {
            package: None,
            type_name: None,
            sign: None,
        },
        Some(typed) => Box::into_inner(typed),
    }
}

/// A name before what follows: a declaration's own before groups alone, else its type's, or its
/// package's where it has one. Before ports it is an instance's, whose parameters are given nothing.
#[tactic(auto, unfolding(vast_rows::specs::Built::name_before, vast_rows::specs::Built::make, vast_rows::specs::Built::of_one, vast_rows::specs::Built::of_two, vast_rows::specs::Built::of_three, vast_rows::specs::Built::of_four))]
pub(crate) fn name_before(alloc: Global, values: &mut Values<'_>) -> Result<(), AllocError>
    ensures { IfOk result (λ _. Grown (make action.NameBefore (denoted values.old)) values.new) }
{
    let name = wanted!(first::<&str>(values));
    match values.pop() {
        None => Ok(()),
        Some(value) => named(alloc, name, value, values),
    }
}

/// The same for a name and the value after it.
#[tactic(auto, unfolding(vast_rows::specs::Built::name_before))]
fn named<'t>(
    alloc: Global,
    name: &'t str,
    value: Value<'t>,
    values: &mut Values<'t>,
) -> Result<(), AllocError>
    ensures { IfOk result (λ _. Grown (name_before name.now
        (value_view value.entry ∷ denoted values.old)) values.new) }
{
    match value {
        Value::Groups(after) => {
            let none = Children::new(alloc);
            let made = NormalDeclaration::plain(alloc, none, name, after.reversed())?;
            values.push(Value::Declaration(made))
        }
        Value::Declaration(mut declared) => {
            declared.typed = name_type(alloc, name, declared.typed)?;
            values.push(Value::Declaration(declared))
        }
        Value::Connections(ports) => {
            values.push(Value::Connections(ports))?;
            values.push(Value::Name(name))?;
            values.push(Value::Connections(Children::new(alloc)))
        }
        other => {
            drop(other);
            Ok(())
        }
    }
}

/// A name before a type: that of its package, where this is still to come, else its own.
pub(crate) fn name_type(
    alloc: Global,
    name: &str,
    typed: Option<Box<DeclaredType>>,
) -> Result<Option<Box<DeclaredType>>, AllocError>
    ensures names { IfOk result (λ t. (package_of t, type_name_of t)
        ≡ names_type (package_of typed) (type_name_of typed) name.now) }
    ensures sign { IfOk result (λ t. sign_of t ≡ sign_of typed) }
{
    let name = Word::new(alloc, name)?;
    let mut typed = typed_parts(typed);
    match typed.package {
        None => typed.type_name = Some(name),
        Some(_) => typed.package = Some(name),
    }
    Ok(Some(Box::new(alloc, typed)?))
}

/// The declaration that follows, of a package whose name is still to come.
pub(crate) fn packaged(alloc: Global, values: &mut Values<'_>) -> Result<(), AllocError>
    ensures { IfOk result (λ _. Grown (make action.Packaged (denoted values.old)) values.new) }
{
    let mut declared = wanted!(first::<NormalDeclaration>(values));
    let mut typed = typed_parts(declared.typed);
    typed.package = Some(Word::new(alloc, "")?);
    declared.typed = Some(Box::new(alloc, typed)?);
    values.push(Value::Declaration(declared))
}

/// The declaration that follows, of that sign.
pub(crate) fn sign_of(alloc: Global, key: Key, values: &mut Values<'_>) -> Result<(), AllocError>
    ensures { IfOk result (λ _. Grown (make (action.SignOf key) (denoted values.old)) values.new) }
{
    let mut declared = wanted!(first::<NormalDeclaration>(values));
    let mut typed = typed_parts(declared.typed);
    typed.sign = Some(key_word(alloc, key)?);
    declared.typed = Some(Box::new(alloc, typed)?);
    values.push(Value::Declaration(declared))
}

/// The declaration that follows, of that kind.
pub(crate) fn kind_of(alloc: Global, key: Key, values: &mut Values<'_>) -> Result<(), AllocError>
    ensures { IfOk result (λ _. Grown (make (action.KindOf key) (denoted values.old)) values.new) }
{
    let mut declared = wanted!(first::<NormalDeclaration>(values));
    declared.kind = Some(key_word(alloc, key)?);
    values.push(Value::Declaration(declared))
}
