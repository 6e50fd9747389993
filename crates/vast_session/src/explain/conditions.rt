//! Conditions of calls in words, by asking for each again.

ghost use Rattle.vast_core.specs.Bench.{OwnsExpr};

use crate::explain::conditions::modules::{module_condition, statement_condition};
use std::alloc::AllocError;
use vast_script::{Answer, one};
use vast_steps::{ArtifactStep, ExpressionStep, Step, TypeStep};
use xlsynth_vast::{Expr, VastDataType, VastFile};

mod modules;

/// The condition of the step's call that is not met.
pub(crate) fn condition(
    file: &VastFile,
    answers: &[Answer],
    step: &Step,
) -> Result<String, AllocError> {
    match step {
        Step::Expressions(step) => expression_condition(file, step),
        Step::Types(step) => type_condition(file, answers, step),
        Step::Modules(step) => module_condition(file, answers, step),
        Step::Statements(step) => statement_condition(file, step),
        Step::Artifacts(step) => artifact_condition(file, step),
        Step::Operators(_) | Step::Loops(_) => unknown(file),
    }
}

fn words(file: &VastFile, words: &str) -> Result<String, AllocError> {
    String::from_str(file.allocator(), words)
}

fn unknown(file: &VastFile) -> Result<String, AllocError> {
    words(file, "condition not met")
}

fn expression_condition(file: &VastFile, step: &ExpressionStep) -> Result<String, AllocError> {
    let alloc = file.allocator();
    match step {
        ExpressionStep::MakeSlice(_, high, low) => {
            format!(in alloc; "a bound below 0: {high} and {low} are given")
        }
        ExpressionStep::MakeIndex(_, place) => {
            format!(in alloc; "an index below 0: {place} is given")
        }
        ExpressionStep::MakeIndexedPartSelect(_, _, width) => {
            format!(in alloc; "a width below 1: {width} is given")
        }
        ExpressionStep::MakeFunctionCall(_, _) => words(file, "the function's name is empty"),
        ExpressionStep::MakeTypeCast(_, _) => words(
            file,
            "the type is an array, and no expression is cast to one",
        ),
        _ => unknown(file),
    }
}

fn type_condition(
    file: &VastFile,
    answers: &[Answer],
    step: &TypeStep,
) -> Result<String, AllocError> {
    let alloc = file.allocator();
    match step {
        TypeStep::MakeBitVectorType(width, _) => {
            format!(in alloc; "a width below 1: {width} is given")
        }
        TypeStep::MakeBitVectorTypeExpr(width, _) => width_condition(file, answers, *width),
        TypeStep::MakePackedArrayType(element, dimensions) => {
            packed_condition(file, answers, *element, dimensions)
        }
        TypeStep::MakeUnpackedArrayType(_, dimensions) => dimensions_condition(file, dimensions),
        TypeStep::MakePackedArrayTypeExpr(element, dimensions) => {
            packed_sizes_condition(file, answers, *element, dimensions)
        }
        TypeStep::MakeUnpackedArrayTypeExpr(_, dimensions) => {
            sizes_condition(file, answers, dimensions)
        }
        _ => unknown(file),
    }
}

fn width_condition(
    file: &VastFile,
    answers: &[Answer],
    width: usize,
) -> Result<String, AllocError> {
    match one::<Expr>(file, answers, width) {
        Ok(width) => unusable(file, "width", &width),
        Err(_) => words(file, "the width cannot be used: it is a literal below 1"),
    }
}

/// The expression is printed where it has a text.
fn unusable(file: &VastFile, noun: &str, width: &Expr) -> Result<String, AllocError>
    requires { OwnsExpr file.now width.now }
{
    let alloc = file.allocator();
    match file.emit_expression(width) {
        Ok(text) => format!(in alloc;
            "the {noun} `{text}` cannot be used: it is a literal below 1"
        ),
        Err(_) => format!(in alloc; "the {noun} cannot be used: it is a literal below 1"),
    }
}

fn packed_condition(
    file: &VastFile,
    answers: &[Answer],
    element: usize,
    dimensions: &[i64],
) -> Result<String, AllocError> {
    if is_unpackable(file, answers, element) {
        return words(file, UNPACKABLE);
    }
    dimensions_condition(file, dimensions)
}

fn packed_sizes_condition(
    file: &VastFile,
    answers: &[Answer],
    element: usize,
    dimensions: &[usize],
) -> Result<String, AllocError> {
    if is_unpackable(file, answers, element) {
        return words(file, UNPACKABLE);
    }
    sizes_condition(file, answers, dimensions)
}

const UNPACKABLE: &str =
    "the element is an unpacked array, an `integer` or an `int`, which cannot be packed";

fn is_unpackable(file: &VastFile, answers: &[Answer], element: usize) -> bool {
    match one::<VastDataType>(file, answers, element) {
        Ok(element) => !file.type_can_be_packed(element),
        Err(_) => false,
    }
}

fn sizes_condition(
    file: &VastFile,
    answers: &[Answer],
    dimensions: &[usize],
) -> Result<String, AllocError> {
    for dimension in dimensions {
        if let Ok(size) = one::<Expr>(file, answers, *dimension) {
            if !file.width_is_usable(&size) {
                return unusable(file, "dimension", &size);
            }
        }
    }
    words(file, "no dimension is given")
}

fn dimensions_condition(file: &VastFile, dimensions: &[i64]) -> Result<String, AllocError> {
    let alloc = file.allocator();
    for dimension in dimensions {
        if *dimension < 1 {
            return format!(in alloc; "a dimension below 1: {dimension} is given");
        }
    }
    words(file, "no dimension is given")
}

fn artifact_condition(file: &VastFile, step: &ArtifactStep) -> Result<String, AllocError> {
    let alloc = file.allocator();
    match step {
        ArtifactStep::MakeInstantiation(_, _, parameters, values, ports, wires) => {
            if parameters.len() != values.len() {
                let names = parameters.len();
                let values = values.len();
                return format!(in alloc;
                    "parameters: {names} names, {values} values; each name has one"
                );
            }
            let names = ports.len();
            let values = wires.len();
            format!(in alloc; "ports: {names} names, {values} connections; each name has one")
        }
        _ => unknown(file),
    }
}
