//! Calls by their places in the table.

ghost use Rattle.std.specs.Prelude.{◌≡◌, IfOk, Some};
ghost use Rattle.vast_calls.specs.CallArguments.{step_pieces};
ghost use Rattle.vast_calls.specs.CallNames.{step_name};
ghost use Rattle.vast_calls.specs.Lines.{Stepped, word_kind};
ghost use Rattle.vast_calls.specs.CallNumbers.{name_at};
ghost use Rattle.vast_calls.specs.Internal.Written.{AreLeft};

mod artifacts;
mod expressions;
mod loops;
mod modules;
mod operators;
mod statements;
mod types;

use crate::arguments::Arguments;
use crate::problem::{Misfit, Problem};
use crate::table::numbered::Place;
use artifacts::artifact_step;
use expressions::expression_step;
use loops::generate_loop_step;
use modules::module_step;
use operators::operator_step;
use statements::statement_step;
use types::data_type_step;
use vast_steps::Step;

/// What was made as a step; `?` would copy a large one once more.
macro_rules! step {
    ($group:ident, $made:expr) => {
        match $made {
            Ok(step) => Ok(Step::$group(step)),
            Err(misfit) => Err(misfit),
        }
    };
}

/// The step of this place over the arguments.
///
/// # Errors
/// Where the place is no step's or the arguments are not those of the step, and out of memory.
#[inline(always)]
#[tactic(auto, using(crate::proofs::CallRows::steps))]
pub(crate) fn make_step(place: Place, arguments: &mut Arguments<'_>) -> Result<Step, Misfit>
    ensures named { IfOk result (λ step. name_at place ≡ Some (step_name step)) }
    ensures kind { IfOk result (λ step. word_kind (step_name step) ≡ Stepped) }
    ensures written { IfOk result (λ step. AreLeft arguments.old (step_pieces step)) }
{
    match place {
        Place::Operator(place) => Ok(Step::Operators(operator_step(place, arguments)?)),
        Place::Expression(place) => step!(Expressions, expression_step(place, arguments)),
        Place::DataType(place) => Ok(Step::Types(data_type_step(place, arguments)?)),
        Place::Module(place) => step!(Modules, module_step(place, arguments)),
        Place::Loop(place) => step!(Loops, generate_loop_step(place, arguments)),
        Place::Statement(place) => Ok(Step::Statements(statement_step(place, arguments)?)),
        Place::Artifact(place) => step!(Artifacts, artifact_step(place, arguments)),
        Place::Question(_) | Place::Helper(_) => Err(arguments.misfit(Problem::UnknownCall)),
    }
}
