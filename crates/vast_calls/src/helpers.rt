//! Helpers, which make expressions or registers, as values.

ghost use Rattle.std.specs.Prelude.{IfOk};
ghost use Rattle.vast_calls.specs.CallArguments.{helper_pieces, register_pieces, reset_pieces};
ghost use Rattle.vast_calls.specs.CallNames.{helper_name};
ghost use Rattle.vast_calls.specs.CallNumbers.{helper_names};
ghost use Rattle.vast_calls.specs.Internal.CallRows.{StandsAt};
ghost use Rattle.vast_calls.specs.Internal.Written.{AreLeft};

use crate::arguments::{Arguments, FromArguments};
use crate::problem::{Misfit, Problem};

/// A call of a helper, whose handles are places among the answers.
#[derive(Drop)]
pub enum Helper {
    AddRegisters(usize, Option<ResetNumbers>, Vec<RegisterNumbers>, usize),
    BitwiseOrReduce(Vec<usize>),
    BitwiseOrReduceArrayElements(usize, Vec<i64>),
    LogicalAndReduce(Vec<usize>, bool),
    LogicalOrReduce(Vec<usize>, bool),
}

/// A reset, `[ signal active_low ]`.
#[derive(Clone, Copy)]
pub struct ResetNumbers {
    /// The signal's place among the answers.
    pub signal: usize,
    /// Whether the signal resets where it is 0.
    pub active_low: bool,
}

/// A register, `[ reg next reset_value? enable? ]`, of expressions by their places among the answers.
#[derive(Clone, Copy)]
pub struct RegisterNumbers {
    pub reg: usize,
    pub next: usize,
    pub reset_value: Option<usize>,
    pub enable: Option<usize>,
}

impl FromArguments for ResetNumbers {
    ghost pieces = { reset_pieces };

    fn take(arguments: &mut Arguments<'_>) -> Result<ResetNumbers, Misfit> {
        arguments.open()?;
        let signal = usize::take(arguments)?;
        let active_low = bool::take(arguments)?;
        arguments.close()?;
        Ok(ResetNumbers { signal, active_low })
    }
}

impl FromArguments for RegisterNumbers {
    ghost pieces = { register_pieces };

    fn take(arguments: &mut Arguments<'_>) -> Result<RegisterNumbers, Misfit> {
        arguments.open()?;
        let reg = usize::take(arguments)?;
        let next = usize::take(arguments)?;
        let reset_value = <Option<usize> as FromArguments>::take(arguments)?;
        let enable = <Option<usize> as FromArguments>::take(arguments)?;
        arguments.close()?;
        Ok(RegisterNumbers {
            reg,
            next,
            reset_value,
            enable,
        })
    }
}

/// The helper of this place in the table, over the arguments.
///
/// # Errors
/// Where no helper has the place or the arguments are not those of the helper, and out of memory.
pub(crate) fn make_helper(place: usize, arguments: &mut Arguments<'_>) -> Result<Helper, Misfit>
    ensures named { IfOk result (λ helper. StandsAt helper_names place (helper_name helper)) }
    ensures written { IfOk result (λ helper. AreLeft arguments.old (helper_pieces helper)) }
{
    match place {
        0 => arguments.four(Helper::AddRegisters),
        1 => arguments.one(Helper::BitwiseOrReduce),
        2 => arguments.two(Helper::BitwiseOrReduceArrayElements),
        3 => arguments.two(Helper::LogicalAndReduce),
        4 => arguments.two(Helper::LogicalOrReduce),
        _ => Err(arguments.misfit(Problem::UnknownCall)),
    }
}
