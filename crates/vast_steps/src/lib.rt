//! Builder calls as values: a [`Step`] is one call, whose handles are the numbers of earlier steps.
#![tactic(auto)]

mod step;

pub use step::{
    ArtifactStep, ExpressionStep, LoopStep, ModuleStep, OperatorStep, StatementStep, Step, TypeStep,
};
