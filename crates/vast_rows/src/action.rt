//! What rows make of what their items made.

ghost use Rattle.std.specs.Prelude.{◌≡◌, MatchBool};
ghost use Rattle.vast_rows.specs.Internal.Actions.{action_number};

use vast_literal::{AlwaysKind, Key};

/// What stands in a list.
#[derive(Clone, Copy, Debug, PartialEq, Eq)]
pub enum Listed {
    /// An item of a file.
    Item,
    /// A parameter of a module's header.
    Parameter,
    /// A port of a module's header.
    Port,
    /// A member of a module or of a loop.
    Member,
    /// Brackets of a declaration.
    Group,
    /// An input or a local of a function.
    Declaration,
    /// An argument of a macro.
    Expression,
    /// What an instance gives to a parameter or a port.
    Connection,
    /// What an always block waits for.
    Event,
    /// A statement of a block.
    Statement,
}

/// What a row makes of what its items made. A row without one passes on what they made.
#[derive(Clone, Copy, Debug, PartialEq, Eq)]
pub enum Action {
    /// A mark where a part is left out.
    Nothing,
    /// A mark of a semicolon that is there, and of an assignment that blocks.
    Yes,
    /// A mark of a semicolon that isn't there, and of an assignment that doesn't block.
    No,
    /// An empty list.
    NoMore(Listed),
    /// A list with one more in front.
    OneMore(Listed),
    /// A module of its name, parameters, ports and members.
    ModuleItem,
    /// An include of its path, after the macro's name.
    IncludeItem,
    /// The import of a package by its name, as an item of a file.
    ImportItem,
    /// An item of a member.
    MemberItem,
    /// A parameter of a header, of its declaration and value.
    HeaderParameter,
    /// A port of that direction, of its declaration.
    PortOf(Key),
    /// A member of its declaration.
    DeclarationMember,
    /// An assignment of its sides.
    AssignMember,
    /// A parameter by that word, of its declaration and value.
    ParameterMember(Key),
    /// The import of a package by its name, as a member.
    ImportMember,
    /// An enumeration of its type, its entries, its name and the groups after that.
    EnumMember,
    /// A packed structure of its fields and its name.
    StructMember,
    /// A macro of its name, its arguments where it has any, and whether there is a semicolon.
    MacroMember,
    /// What a name begins: a variable of that type, of its declaration, or an instance of that
    /// module, of what is given to parameters, its name, and its ports.
    NamedMember,
    /// A block of that kind, of what it waits for and its statements.
    AlwaysMember(AlwaysKind),
    /// A conditional of its arms.
    ConditionalMember,
    /// A function of its declaration, inputs, locals and statements.
    FunctionMember,
    /// A loop of its head, its label where it has one, and its members.
    LoopMember,
    /// The declaration that follows, of that kind.
    KindOf(Key),
    /// The declaration that follows, of that sign.
    SignOf(Key),
    /// A name before what follows: a declaration's own before groups alone, else its type's, or its
    /// package's where it has one.
    NameBefore,
    /// The declaration that follows, of a package whose name is still to come.
    Packaged,
    /// A declaration of its groups, its name and the groups after that; groups alone where no name
    /// follows.
    Declares,
    /// A declaration of its groups, whose name is still to come.
    Unnamed,
    /// A group of one expression or of two.
    GroupOf,
    /// A connection of its name, and of its value where it has one.
    Connects,
    /// That edge of an expression.
    EdgeOf(Key),
    /// Any change of a name.
    ChangeOf,
    /// An assignment of its sides, with whether it blocks between them.
    Assigns,
    /// An assignment by its word, of its sides.
    AssignsByWord,
    /// A statement of the arms of a conditional.
    Chooses,
    /// A loop of its head and its statements.
    Repeats,
    /// The case that follows, which is unique.
    UniqueCase,
    /// A case by that word, of its selector and arms.
    CaseOf(Key),
    /// The arms of a conditional, of its condition, its block and what follows that.
    Conditional,
    /// No arms of a case.
    NoArms,
    /// An arm of its label and block, before others.
    Arm,
    /// An arm without a label, before others.
    DefaultArm,
}

impl Action {
    /// A number of its own.
    fn number(self) -> u16
        ensures { result ≡ action_number self }
    {
        match self {
            Action::Nothing => 0,
            Action::Yes => 1,
            Action::No => 2,
            Action::ModuleItem => 3,
            Action::IncludeItem => 4,
            Action::HeaderParameter => 5,
            Action::DeclarationMember => 6,
            Action::AssignMember => 7,
            Action::MacroMember => 8,
            Action::NamedMember => 9,
            Action::ConditionalMember => 10,
            Action::FunctionMember => 11,
            Action::LoopMember => 12,
            Action::NameBefore => 13,
            Action::Packaged => 14,
            Action::Declares => 15,
            Action::GroupOf => 16,
            Action::Connects => 17,
            Action::ChangeOf => 18,
            Action::Assigns => 19,
            Action::AssignsByWord => 20,
            Action::Chooses => 21,
            Action::UniqueCase => 22,
            Action::Conditional => 23,
            Action::NoArms => 24,
            Action::Arm => 25,
            Action::DefaultArm => 26,
            Action::ImportItem => 27,
            Action::ImportMember => 28,
            Action::Repeats => 29,
            Action::MemberItem => 30,
            Action::EnumMember => 31,
            Action::StructMember => 32,
            Action::Unnamed => 33,
            Action::NoMore(what) => 40 + what as u16,
            Action::OneMore(what) => 50 + what as u16,
            Action::PortOf(key) => 60 + key as u16,
            Action::ParameterMember(key) => 120 + key as u16,
            Action::AlwaysMember(kind) => 180 + kind as u16,
            Action::KindOf(key) => 200 + key as u16,
            Action::SignOf(key) => 260 + key as u16,
            Action::EdgeOf(key) => 320 + key as u16,
            Action::CaseOf(key) => 380 + key as u16,
        }
    }

    /// Whether it is the other one.
    #[tactic(auto, using(crate::proofs::Actions::decided))]
    pub fn is(self, other: Action) -> bool
        ensures { MatchBool result (self ≡ other) (self ≡ other → ⊥) }
    {
        self.number() == other.number()
    }
}
