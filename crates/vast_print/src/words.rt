//! The words that stand between the parts of a tree.

ghost use Rattle.std.specs.Prelude.{◌≡◌, codes};
ghost use Rattle.vast_print.specs.Internal.Words.{signed_opening, unsigned_opening, scalar_cast_opening, scalar_cast_closing, cast_sign_word, number_cast_opening, number_cast_closing, comma, separator, endfunction_word, function_opening, for_opening, int_opening, step_word, enum_opening, struct_opening};
ghost use Rattle.vast_print.specs.Members.{always_opening, parameter_word, semicolon_text};
ghost use Rattle.vast_print.specs.Statements.{assignment_operator, case_word, unique_word};
ghost use Rattle.vast_core.specs.FileTree.{form_of};

use vast_core::{AlwaysKind, CaseKind};

/// Before a signed scalar or vector.
pub(crate) fn signed(signed: bool) -> &'static str
    ensures { result.now ≡ signed_opening signed }
{
    if signed { "signed " } else { "" }
}

/// Before an unsigned integer or int.
pub(crate) fn unsigned(signed: bool) -> &'static str
    ensures { result.now ≡ unsigned_opening signed }
{
    if signed { "" } else { "unsigned " }
}

/// Before what is cast to a scalar.
pub(crate) fn scalar_cast(signed: bool) -> &'static str
    ensures { result.now ≡ scalar_cast_opening signed }
{
    if signed { "signed'(logic'(" } else { "logic'(" }
}

/// After what is cast to a scalar.
pub(crate) fn scalar_cast_end(signed: bool) -> &'static str
    ensures { result.now ≡ scalar_cast_closing signed }
{
    if signed { "))" } else { ")" }
}

/// Before the width of a cast to a vector.
pub(crate) fn vector_cast(signed: bool) -> &'static str
    ensures { result.now ≡ cast_sign_word signed }
{
    if signed { "signed'(" } else { "unsigned'(" }
}

/// Before what is cast to an integer.
pub(crate) fn integer_cast(signed: bool) -> &'static str
    ensures { result.now ≡ number_cast_opening (codes "integer") signed }
{
    if signed {
        "integer'("
    } else {
        "unsigned'(integer'("
    }
}

/// Before what is cast to an int.
pub(crate) fn int_cast(signed: bool) -> &'static str
    ensures { result.now ≡ number_cast_opening (codes "int") signed }
{
    if signed { "int'(" } else { "unsigned'(int'(" }
}

/// After what is cast to an integer or an int.
pub(crate) fn number_cast_end(signed: bool) -> &'static str
    ensures { result.now ≡ number_cast_closing signed }
{
    if signed { ")" } else { "))" }
}

/// After an entry of a list, where more follow.
pub(crate) fn comma_word(more: bool) -> &'static str
    ensures { result.now ≡ comma more }
{
    if more { "," } else { "" }
}

/// Before a parameter of a module's body.
pub(crate) fn parameter(local: bool) -> &'static str
    ensures { result.now ≡ parameter_word local }
{
    if local { "localparam " } else { "parameter " }
}

/// After a macro statement.
pub(crate) fn semicolon(stands: bool) -> &'static str
    ensures { result.now ≡ semicolon_text stands }
{
    if stands { ";" } else { "" }
}

/// Between the sides of an assignment of a block.
pub(crate) fn assignment_operator(nonblocking: bool) -> &'static str
    ensures { result.now ≡ assignment_operator (form_of nonblocking) }
{
    if nonblocking { " <= " } else { " = " }
}

/// Before the selector of a case.
pub(crate) fn case(kind: CaseKind) -> &'static str
    ensures { result.now ≡ case_word kind }
{
    match kind {
        CaseKind::Case => "case (",
        CaseKind::CaseZ => "casez (",
        CaseKind::CaseX => "casex (",
    }
}

/// Before the word of a case.
pub(crate) fn unique(is_unique: bool) -> &'static str
    ensures { result.now ≡ unique_word is_unique }
{
    if is_unique { "unique " } else { "" }
}

/// Between the expressions of a list, before the expression `i`.
pub(crate) fn comma_before(i: usize) -> &'static str
    ensures { result.now ≡ separator i (codes ", ") }
{
    if i > 0 { ", " } else { "" }
}

/// Between the events of a list, before the event `i`.
pub(crate) fn or_before(i: usize) -> &'static str
    ensures { result.now ≡ separator i (codes " or ") }
{
    if i > 0 { " or " } else { "" }
}

/// Before a function's result.
#[tactic(auto, unfolding(crate::specs::Internal::Words::function_opening))]
pub(crate) fn function() -> &'static str
    ensures { result.now ≡ function_opening }
{
    "function automatic "
}

/// Before a generate loop's variable.
#[tactic(auto, unfolding(crate::specs::Internal::Words::for_opening))]
pub(crate) fn for_genvar() -> &'static str
    ensures { result.now ≡ for_opening }
{
    "for (genvar "
}

/// Before the variable of a block's loop.
#[tactic(auto, unfolding(crate::specs::Internal::Words::int_opening))]
pub(crate) fn for_int() -> &'static str
    ensures { result.now ≡ int_opening }
{
    "for (int "
}

/// After a loop's header.
#[tactic(auto, unfolding(crate::specs::Internal::Words::step_word))]
pub(crate) fn step() -> &'static str
    ensures { result.now ≡ step_word }
{
    " + 1) "
}

/// Before an enumeration's type.
#[tactic(auto, unfolding(crate::specs::Internal::Words::enum_opening))]
pub(crate) fn enumeration() -> &'static str
    ensures { result.now ≡ enum_opening }
{
    "typedef enum "
}

/// Before a structure's fields.
#[tactic(auto, unfolding(crate::specs::Internal::Words::struct_opening))]
pub(crate) fn structure() -> &'static str
    ensures { result.now ≡ struct_opening }
{
    "typedef struct packed {"
}

/// Before the events of an always block, or before its block where it has none.
#[tactic(auto, unfolding(crate::specs::Members::always_opening))]
pub(crate) fn always(kind: AlwaysKind) -> &'static str
    ensures { result.now ≡ always_opening kind }
{
    match kind {
        AlwaysKind::AlwaysFF => "always_ff @ (",
        AlwaysKind::AlwaysAt => "always @ (",
        AlwaysKind::AlwaysComb => "always_comb ",
        AlwaysKind::AlwaysStar => "always @* ",
        AlwaysKind::AlwaysLatch => "always_latch ",
        AlwaysKind::Initial => "initial ",
    }
}

/// After a function's body.
#[tactic(auto, unfolding(crate::specs::Internal::Words::endfunction_word))]
pub(crate) fn endfunction() -> &'static str
    ensures { result.now ≡ endfunction_word }
{
    "endfunction"
}
