//! Literal texts and errors of Verilog syntax trees; `specs/` has the trees that all crates above speak of.
#![tactic(auto)]

mod error;
mod keyword;
mod kind;
pub mod laws;
mod literal;
mod operator;
mod pattern;
mod quoted;
mod refusal;
mod token;

pub use error::{VastError, VastFault};
pub use keyword::{is_system_verilog_keyword, system_verilog_keys, system_verilog_keywords};
pub use kind::{AlwaysKind, AssignmentForm, CaseKind, DataKind, ModulePortDirection, VastFileType};
pub use literal::{Literal, LiteralFormat};
pub use operator::{BinaryOperator, UnaryOperator};
pub use pattern::pattern_text;
pub use quoted::quoted_text;
pub use token::{Key, Mark, Sign};
