//! The kinds of answers.

use vast_calls::Handle;
use vast_script::Answer;

/// Whether the answer may stand where the handle is wanted.
pub(crate) fn is_of(answer: Answer, wanted: Handle) -> bool {
    handle_of(answer).is_some_and(|given| wanted.takes(given))
}

/// What the answer is, in words.
pub(crate) fn kind_of(answer: Answer) -> &'static str {
    match handle_of(answer) {
        Some(handle) => handle.words(),
        None => "nothing: its call answers no handle",
    }
}

/// Which handle the answer is; `None` where it is nothing.
fn handle_of(answer: Answer) -> Option<Handle> {
    Some(match answer {
        Answer::VastModule(_) => Handle::Module,
        Answer::VastFunction(_) => Handle::Function,
        Answer::ModulePort(_) => Handle::Port,
        Answer::VastDataType(_) => Handle::Type,
        Answer::LogicRef(_) => Handle::Signal,
        Answer::Expr(_) => Handle::Expression,
        Answer::IndexableExpr(_) => Handle::Indexable,
        Answer::Slice(_) => Handle::Slice,
        Answer::Index(_) => Handle::Index,
        Answer::Instantiation(_) => Handle::Instantiation,
        Answer::BlankLine(_) => Handle::BlankLine,
        Answer::InlineVerilogStatement(_) => Handle::InlineStatement,
        Answer::Comment(_) => Handle::Comment,
        Answer::MacroRef(_) => Handle::Macro,
        Answer::MacroStatement(_) => Handle::MacroStatement,
        Answer::ContinuousAssignment(_) => Handle::Assignment,
        Answer::VastAlwaysBase(_) => Handle::Always,
        Answer::VastStatementBlock(_) => Handle::Block,
        Answer::VastStatement(_) => Handle::Statement,
        Answer::Conditional(_) => Handle::Conditional,
        Answer::CaseStatement(_) => Handle::Case,
        Answer::GenerateLoop(_) => Handle::Loop,
        Answer::ParameterRef(_) => Handle::Parameter,
        Answer::LocalparamRef(_) => Handle::Localparam,
        Answer::Def(_) => Handle::Definition,
        Answer::Nothing => return None,
    })
}
