//! What stands in the place of an argument, and what calls return.

use super::{Handle, Item, Kind, Range, Words};

pub(super) const ALWAYS: Kind = Kind::One(Item::Handle(Handle::Always));

pub(super) const ASSIGNMENT: Kind = Kind::One(Item::Handle(Handle::Assignment));

pub(super) const BLANK_LINE: Kind = Kind::One(Item::Handle(Handle::BlankLine));

pub(super) const BLOCK: Kind = Kind::One(Item::Handle(Handle::Block));

pub(super) const CASE: Kind = Kind::One(Item::Handle(Handle::Case));

pub(super) const COMMENT: Kind = Kind::One(Item::Handle(Handle::Comment));

pub(super) const CONDITIONAL: Kind = Kind::One(Item::Handle(Handle::Conditional));

pub(super) const COUNT: Kind = Kind::One(Item::Integer(Range::Usize));

pub(super) const DATA_KIND: Kind = Kind::One(Item::Word(Words::DataKind));

pub(super) const DEFINITION: Kind = Kind::One(Item::Handle(Handle::Definition));

pub(super) const DEFINITIONS: Kind = Kind::List(Item::Handle(Handle::Definition));

pub(super) const EXPRESSION: Kind = Kind::One(Item::Handle(Handle::Expression));

pub(super) const EXPRESSIONS: Kind = Kind::List(Item::Handle(Handle::Expression));

pub(super) const FORMAT: Kind = Kind::One(Item::Word(Words::Format));

pub(super) const FUNCTION: Kind = Kind::One(Item::Handle(Handle::Function));

pub(super) const INDEX: Kind = Kind::One(Item::Handle(Handle::Index));

pub(super) const INDEXABLE: Kind = Kind::One(Item::Handle(Handle::Indexable));

pub(super) const INLINE_STATEMENT: Kind = Kind::One(Item::Handle(Handle::InlineStatement));

pub(super) const INSTANTIATION: Kind = Kind::One(Item::Handle(Handle::Instantiation));

pub(super) const INTEGER: Kind = Kind::One(Item::Integer(Range::I64));

pub(super) const INTEGERS: Kind = Kind::List(Item::Integer(Range::I64));

pub(super) const LOCALPARAM: Kind = Kind::One(Item::Handle(Handle::Localparam));

pub(super) const LOOP: Kind = Kind::One(Item::Handle(Handle::Loop));

pub(super) const MACRO: Kind = Kind::One(Item::Handle(Handle::Macro));

pub(super) const MACRO_STATEMENT: Kind = Kind::One(Item::Handle(Handle::MacroStatement));

pub(super) const MODULE: Kind = Kind::One(Item::Handle(Handle::Module));

pub(super) const NOTHING: Kind = Kind::Nothing;

pub(super) const OPTIONAL_EXPRESSIONS: Kind = Kind::ListOfOptional(Item::Handle(
    Handle::Expression,
));

pub(super) const OPTIONAL_RESET: Kind = Kind::Optional(Item::Reset);

pub(super) const OPTIONAL_TEXT: Kind = Kind::Optional(Item::Text);

pub(super) const PARAMETER: Kind = Kind::One(Item::Handle(Handle::Parameter));

pub(super) const PORTS: Kind = Kind::List(Item::Port);

pub(super) const REGISTERS: Kind = Kind::List(Item::Register);

pub(super) const SCOPE: Kind = Kind::One(Item::Handle(Handle::Scope));

pub(super) const SIGNAL: Kind = Kind::One(Item::Handle(Handle::Signal));

pub(super) const SLICE: Kind = Kind::One(Item::Handle(Handle::Slice));

pub(super) const SMALL_INTEGER: Kind = Kind::One(Item::Integer(Range::I32));

pub(super) const STATEMENT: Kind = Kind::One(Item::Handle(Handle::Statement));

pub(super) const TEXT: Kind = Kind::One(Item::Text);

pub(super) const TEXTS: Kind = Kind::List(Item::Text);

pub(super) const TRUTH: Kind = Kind::One(Item::Truth);

pub(super) const TYPE: Kind = Kind::One(Item::Handle(Handle::Type));
