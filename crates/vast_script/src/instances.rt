//! The call that makes an instance of a module.

ghost use Rattle.std.specs.Prelude.{◌≡◌, All, IfSome, length, map, string_bytes};
ghost use Rattle.vast_core.specs.Artifacts.{next_instantiation, with_instance};
ghost use Rattle.vast_core.specs.Bench.{OwnsExpr};
ghost use Rattle.vast_core.specs.Growth.{Builds};
ghost use Rattle.vast_script.specs.Outcome.{Replays};
ghost use Rattle.vast_script.specs.Artifacts.{instance, make_instantiation};

use crate::answer::Answer;
use crate::answers::instantiation;
use crate::fault::StepFault;
use crate::lists::references;
use crate::open_lists::{many_and_open, open_references, texts};
use std::alloc::AllocError;
use xlsynth_vast::{Expr, Instantiation, VastFile};

/// Makes an instance; an open port has no value.
fn instance(
    file: &mut VastFile,
    module_name: &str,
    instance_name: &str,
    parameters: &[String],
    values: &[Expr],
    ports: &[String],
    wires: &[Option<Expr>],
) -> Result<Instantiation, AllocError>
    requires parameters { length parameters.now ≡ length values.now }
    requires ports { length ports.now ≡ length wires.now }
    requires values { All (OwnsExpr file.old) values.now }
    requires wires { All (λ e. IfSome e (λ x. OwnsExpr file.old x)) wires.now }
    ensures { Builds file.old file.new result next_instantiation
        (with_instance (instance module_name.now instance_name.now (map string_bytes parameters.now)
        values.now (map string_bytes ports.now) wires.now)) }
{
    let parameters = texts(file.allocator(), parameters)?;
    let values = references(file, values)?;
    let ports = texts(file.allocator(), ports)?;
    let wires = open_references(file, wires)?;
    file.make_instantiation(
        module_name,
        instance_name,
        &parameters,
        &values,
        &ports,
        &wires,
    )
}

/// Makes the instance where each list of names is as long as its list of expressions.
pub(crate) fn make_instantiation(
    file: &mut VastFile,
    answers: &[Answer],
    module_name: &str,
    instance_name: &str,
    parameters: &[String],
    values: &[usize],
    ports: &[String],
    wires: &[Option<usize>],
) -> Result<Answer, StepFault>
    ensures { Replays file.old file.new answers.now result
        (make_instantiation module_name.now instance_name.now (map string_bytes parameters.now)
        values.now (map string_bytes ports.now) wires.now) }
{
    let (values, wires): (Vec<Expr>, Vec<Option<Expr>>) = many_and_open(
        file, answers, values, wires,
    )?;
    if parameters.len() != values.len() || ports.len() != wires.len() {
        return Err(StepFault::Condition);
    }
    instantiation(instance(
        file,
        module_name,
        instance_name,
        parameters,
        &values,
        ports,
        &wires,
    ))
}
