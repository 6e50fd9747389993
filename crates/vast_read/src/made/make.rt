//! What each action makes.

ghost use Rattle.std.specs.Prelude.{IfOk};
ghost use Rattle.vast_rows.specs.Built.{make};
ghost use Rattle.vast_read.specs.Internal.Made.{Grown, denoted};

use crate::children::Children;
use crate::made::declarations::{
    declares, group_of, kind_of, name_before, packaged, sign_of, unnamed,
};
use crate::made::lists::{none_of, one_more};
use crate::made::members::{
    always_member, assign_member, change_of, conditional_member, connects, declaration_member,
    edge_of, enum_member, function_member, header_parameter, import_item, import_member,
    include_item, loop_member, macro_member, member_item, module_item, named_member,
    parameter_member, port_of, struct_member,
};
use crate::made::statements::{
    arm, assigns, assigns_by_word, case_of, chooses, conditional, default_arm, repeats, unique_case,
};
use crate::made::value::{Value, Values};
use std::alloc::{AllocError, Global};
use vast_rows::Action;

/// Puts what the action makes of the first of these values in their place.
///
/// Where they are no such parts, some of them leave, and nothing is made.
#[tactic(auto, unfolding(vast_rows::specs::Built::make))]
pub(crate) fn make(alloc: Global, action: Action, values: &mut Values<'_>) -> Result<(), AllocError>
    ensures { IfOk result (λ _. Grown (make action (denoted values.old)) values.new) }
{
    match action {
        Action::Nothing => values.push(Value::Nothing),
        Action::Yes => values.push(Value::Answer(true)),
        Action::No => values.push(Value::Answer(false)),
        Action::NoMore(what) => values.push(none_of(alloc, what)),
        Action::NoArms => values.push(Value::Labels(Children::new(alloc))),
        Action::OneMore(what) => one_more(what, values),
        Action::ModuleItem => module_item(alloc, values),
        Action::IncludeItem => include_item(alloc, values),
        Action::ImportItem => import_item(alloc, values),
        Action::MemberItem => member_item(values),
        Action::HeaderParameter => header_parameter(alloc, values),
        Action::PortOf(key) => port_of(alloc, key, values),
        Action::DeclarationMember => declaration_member(alloc, values),
        Action::AssignMember => assign_member(values),
        Action::ParameterMember(key) => parameter_member(alloc, key, values),
        Action::ImportMember => import_member(alloc, values),
        Action::EnumMember => enum_member(alloc, values),
        Action::StructMember => struct_member(alloc, values),
        Action::MacroMember => macro_member(alloc, values),
        Action::NamedMember => named_member(alloc, values),
        Action::AlwaysMember(kind) => always_member(alloc, kind, values),
        Action::ConditionalMember => conditional_member(alloc, values),
        Action::FunctionMember => function_member(alloc, values),
        Action::LoopMember => loop_member(alloc, values),
        Action::KindOf(key) => kind_of(alloc, key, values),
        Action::SignOf(key) => sign_of(alloc, key, values),
        Action::NameBefore => name_before(alloc, values),
        Action::Packaged => packaged(alloc, values),
        Action::Declares => declares(alloc, values),
        Action::Unnamed => unnamed(alloc, values),
        Action::GroupOf => group_of(values),
        Action::Connects => connects(alloc, values),
        Action::EdgeOf(key) => edge_of(alloc, key, values),
        Action::ChangeOf => change_of(alloc, values),
        Action::Assigns => assigns(values),
        Action::AssignsByWord => assigns_by_word(values),
        Action::Chooses => chooses(values),
        Action::Repeats => repeats(alloc, values),
        Action::UniqueCase => unique_case(values),
        Action::CaseOf(key) => case_of(alloc, key, values),
        Action::Conditional => conditional(alloc, values),
        Action::Arm => arm(values),
        Action::DefaultArm => default_arm(values),
    }
}
