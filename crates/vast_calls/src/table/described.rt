//! The words for what stands in lists.

use super::{Handle, Item, Kind, Range};
use std::fmt;
use std::fmt::{Display, Formatter, Write};

/// Every kind of handle, in the order of the answers of steps; a scope last.
pub(super) const HANDLES: [Handle; 26] = [
    Handle::Module,
    Handle::Function,
    Handle::Port,
    Handle::Type,
    Handle::Signal,
    Handle::Expression,
    Handle::Indexable,
    Handle::Slice,
    Handle::Index,
    Handle::Instantiation,
    Handle::BlankLine,
    Handle::InlineStatement,
    Handle::Comment,
    Handle::Macro,
    Handle::MacroStatement,
    Handle::Assignment,
    Handle::Always,
    Handle::Block,
    Handle::Statement,
    Handle::Conditional,
    Handle::Case,
    Handle::Loop,
    Handle::Parameter,
    Handle::Localparam,
    Handle::Definition,
    Handle::Scope,
];

impl Handle {
    /// Its word.
    pub(crate) fn word(self) -> &'static str {
        match self {
            Handle::Module => "module",
            Handle::Function => "function",
            Handle::Port => "port",
            Handle::Type => "type",
            Handle::Signal => "signal",
            Handle::Expression => "expression",
            Handle::Indexable => "indexable",
            Handle::Slice => "slice",
            Handle::Index => "index",
            Handle::Instantiation => "instantiation",
            Handle::BlankLine => "blank_line",
            Handle::InlineStatement => "inline_statement",
            Handle::Comment => "comment",
            Handle::Macro => "macro",
            Handle::MacroStatement => "macro_statement",
            Handle::Assignment => "assignment",
            Handle::Always => "always",
            Handle::Block => "block",
            Handle::Statement => "statement",
            Handle::Conditional => "conditional",
            Handle::Case => "case",
            Handle::Loop => "loop",
            Handle::Parameter => "parameter",
            Handle::Localparam => "localparam",
            Handle::Definition => "definition",
            Handle::Scope => "scope",
        }
    }

    /// What it is, in words.
    pub fn words(self) -> &'static str {
        match self {
            Handle::Module => "a module",
            Handle::Function => "a function",
            Handle::Port => "a port",
            Handle::Type => "a type",
            Handle::Signal => "a signal",
            Handle::Expression => "an expression",
            Handle::Indexable => "an indexable expression",
            Handle::Slice => "a part select",
            Handle::Index => "a bit select",
            Handle::Instantiation => "an instance",
            Handle::BlankLine => "a blank line",
            Handle::InlineStatement => "an inline statement",
            Handle::Comment => "a comment",
            Handle::Macro => "a use of a macro",
            Handle::MacroStatement => "a macro statement",
            Handle::Assignment => "a continuous assignment",
            Handle::Always => "an always block",
            Handle::Block => "a block of statements",
            Handle::Statement => "an assignment",
            Handle::Conditional => "a conditional",
            Handle::Case => "a case statement",
            Handle::Loop => "a generate loop",
            Handle::Parameter => "a parameter",
            Handle::Localparam => "a local parameter",
            Handle::Definition => "a definition",
            Handle::Scope => "a module or a generate loop",
        }
    }

    /// Whether an answer of this kind stands for one.
    pub fn takes(self, answer: Handle) -> bool {
        (self == answer && self.is_answer()) || self.others().contains(&answer)
    }

    /// The type that it has in the Rust crate.
    pub(super) fn rust(self) -> &'static str {
        match self {
            Handle::Module => "VastModule",
            Handle::Function => "VastFunction",
            Handle::Port => "ModulePort",
            Handle::Type => "VastDataType",
            Handle::Signal => "LogicRef",
            Handle::Expression => "Expr",
            Handle::Indexable => "IndexableExpr",
            Handle::Slice => "Slice",
            Handle::Index => "Index",
            Handle::Instantiation => "Instantiation",
            Handle::BlankLine => "BlankLine",
            Handle::InlineStatement => "InlineVerilogStatement",
            Handle::Comment => "Comment",
            Handle::Macro => "MacroRef",
            Handle::MacroStatement => "MacroStatement",
            Handle::Assignment => "ContinuousAssignment",
            Handle::Always => "VastAlwaysBase",
            Handle::Block => "VastStatementBlock",
            Handle::Statement => "VastStatement",
            Handle::Conditional => "Conditional",
            Handle::Case => "CaseStatement",
            Handle::Loop => "GenerateLoop",
            Handle::Parameter => "ParameterRef",
            Handle::Localparam => "LocalparamRef",
            Handle::Definition => "Def",
            Handle::Scope => "RegisterScope",
        }
    }

    /// The other kinds whose answers may stand for one, since they convert to it.
    pub(crate) fn others(self) -> &'static [Handle] {
        match self {
            Handle::Expression => &[
                Handle::Signal,
                Handle::Indexable,
                Handle::Slice,
                Handle::Index,
                Handle::Macro,
                Handle::Parameter,
                Handle::Localparam,
            ],
            Handle::Indexable => &[Handle::Signal, Handle::Index, Handle::Parameter],
            Handle::Scope => &[Handle::Module, Handle::Loop],
            _ => &[],
        }
    }

    /// Whether an answer of its own kind stands for it: a scope is no answer.
    pub(crate) fn is_answer(self) -> bool {
        !matches!(self, Handle::Scope)
    }
}

impl Range {
    fn text(self) -> &'static str {
        match self {
            Range::I32 => "integer from -2^31 to 2^31-1",
            Range::I64 => "integer from -2^63 to 2^63-1",
            Range::Usize => "integer from 0 to 2^64-1",
        }
    }
}

impl Display for Item {
    fn fmt<W: Write>(&self, f: &mut Formatter<W>) -> fmt::Result {
        match self {
            Item::Handle(handle) => f.write_str(handle.word()),
            Item::Text => f.write_str("text"),
            Item::Truth => f.write_str("true/false"),
            Item::Integer(range) => f.write_str(range.text()),
            Item::Word(words) => write_words(words.choice().words(), f),
            Item::Reset => f.write_str("[ signal: expression, active_low: true/false ]"),
            Item::Register => f.write_str(
                "[ reg: expression, next: expression, reset_value: optional expression, enable: optional expression ]",
            ),
            Item::Port => f.write_str(
                "[ name: text, direction: Input|Output|InOut, width: integer, signed: true/false, reference: text ]",
            ),
        }
    }
}

/// Writes the words with a bar between two.
fn write_words<W: Write>(words: &[&str], f: &mut Formatter<W>) -> fmt::Result {
    for (place, word) in words.iter().enumerate() {
        if place > 0 {
            f.write_char('|')?;
        }
        f.write_str(word)?;
    }
    Ok(())
}

impl Display for Kind {
    fn fmt<W: Write>(&self, f: &mut Formatter<W>) -> fmt::Result {
        match self {
            Kind::One(item) => write!(f, "{item}"),
            Kind::List(item) => write!(f, "list of {item}"),
            Kind::Optional(item) => write!(f, "optional {item}"),
            Kind::ListOfOptional(item) => write!(f, "list of optional {item}"),
            Kind::Nothing => f.write_str("nothing"),
        }
    }
}
