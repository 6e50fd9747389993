//! Lists of builder calls as values, and their replay on a file.
//!
//! A [`Step`] is one call, whose handles are the numbers of earlier steps. [`replay`] makes the calls in order and
//! stops at the first that is at fault.
#![tactic(auto)]

mod answer;
mod answers;
mod arguments;
mod artifacts;
mod conditions;
mod expression_lists;
mod expressions;
mod fault;
mod instances;
mod kinds;
pub mod laws;
mod lists;
mod loops;
mod modules;
mod open_lists;
mod operators;
mod script;
mod signal;
mod statements;
mod typedefs;
mod types;

pub use answer::Answer;
pub use arguments::{Argument, one};
pub use fault::{ScriptFault, StepFault};
pub use lists::many;
pub use script::{replay, replay_step};
pub use vast_steps::{
    ArtifactStep, ExpressionStep, LoopStep, ModuleStep, OperatorStep, StatementStep, Step, TypeStep,
};
