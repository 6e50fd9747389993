//! Calls of types that are declared by name.

ghost use Rattle.std.specs.Prelude.{◌≡◌, All, IfSome, length, map, string_bytes};
ghost use Rattle.vast_core.specs.Bench.{OwnsExpr, OwnsModule, OwnsType};
ghost use Rattle.vast_core.specs.Growth.{Builds, next_type, with_typedef, with_file_typedef};
ghost use Rattle.vast_core.specs.declared.typedef.DeclaredType.TheVariants.{Enum as EnumType};
ghost use Rattle.xlsynth_vast.specs.Instances.{connected};
ghost use Rattle.vast_script.specs.Outcome.{Replays};
ghost use Rattle.vast_script.specs.Typedefs.{add_enum_typedef, add_struct_typedef, add_file_enum_typedef, add_file_struct_typedef};

use crate::answer::Answer;
use crate::answers::data_type;
use crate::fault::StepFault;
use crate::lists::{many, one_and_many};
use crate::open_lists::{one_and_open, open_references, texts, two_and_open};
use std::alloc::AllocError;
use xlsynth_vast::{Def, Expr, VastDataType, VastFile, VastModule};

/// Adds an enumeration to a module.
fn enumerate(
    file: &mut VastFile,
    owner: VastModule,
    name: &str,
    base: VastDataType,
    names: &[String],
    values: &[Option<Expr>],
) -> Result<VastDataType, AllocError>
    requires owner { OwnsModule file.old owner }
    requires base { OwnsType file.old base }
    requires entries { length names.now ≡ length values.now }
    requires values { All (λ e. IfSome e (λ x. OwnsExpr file.old x)) values.now }
    ensures { Builds file.old file.new result next_type
        (with_typedef owner (EnumType base name.now
        (connected (map string_bytes names.now) values.now))) }
{
    let names = texts(file.allocator(), names)?;
    let values = open_references(file, values)?;
    file.add_enum_typedef(owner, name, &base, &names, &values)
}

/// The same in the file.
fn enumerate_in_file(
    file: &mut VastFile,
    name: &str,
    base: VastDataType,
    names: &[String],
    values: &[Option<Expr>],
) -> Result<VastDataType, AllocError>
    requires base { OwnsType file.old base }
    requires entries { length names.now ≡ length values.now }
    requires values { All (λ e. IfSome e (λ x. OwnsExpr file.old x)) values.now }
    ensures { Builds file.old file.new result next_type
        (with_file_typedef (EnumType base name.now
        (connected (map string_bytes names.now) values.now))) }
{
    let names = texts(file.allocator(), names)?;
    let values = open_references(file, values)?;
    file.add_file_enum_typedef(name, &base, &names, &values)
}

/// Adds an enumeration to a module where there is a value, or none, for each name.
pub(crate) fn add_enum_typedef(
    file: &mut VastFile,
    answers: &[Answer],
    owner: usize,
    name: &str,
    base: usize,
    names: &[String],
    values: &[Option<usize>],
) -> Result<Answer, StepFault>
    ensures { Replays file.old file.new answers.now result
        (add_enum_typedef owner name.now base (map string_bytes names.now) values.now) }
{
    let ((owner, base), values): ((VastModule, VastDataType), Vec<Option<Expr>>) = two_and_open(
        file, answers, owner, base, values,
    )?;
    if names.len() != values.len() {
        return Err(StepFault::Condition);
    }
    data_type(enumerate(file, owner, name, base, names, &values))
}

/// The same in the file.
pub(crate) fn add_file_enum_typedef(
    file: &mut VastFile,
    answers: &[Answer],
    name: &str,
    base: usize,
    names: &[String],
    values: &[Option<usize>],
) -> Result<Answer, StepFault>
    ensures { Replays file.old file.new answers.now result
        (add_file_enum_typedef name.now base (map string_bytes names.now) values.now) }
{
    let (base, values): (VastDataType, Vec<Option<Expr>>) = one_and_open(
        file, answers, base, values,
    )?;
    if names.len() != values.len() {
        return Err(StepFault::Condition);
    }
    data_type(enumerate_in_file(file, name, base, names, &values))
}

/// Adds a structure to a module.
pub(crate) fn add_struct_typedef(
    file: &mut VastFile,
    answers: &[Answer],
    owner: usize,
    name: &str,
    fields: &[usize],
) -> Result<Answer, StepFault>
    ensures { Replays file.old file.new answers.now result
        (add_struct_typedef owner name.now fields.now) }
{
    let (owner, fields): (VastModule, Vec<Def>) = one_and_many(file, answers, owner, fields)?;
    data_type(file.add_struct_typedef(owner, name, &fields))
}

/// The same in the file.
pub(crate) fn add_file_struct_typedef(
    file: &mut VastFile,
    answers: &[Answer],
    name: &str,
    fields: &[usize],
) -> Result<Answer, StepFault>
    ensures { Replays file.old file.new answers.now result
        (add_file_struct_typedef name.now fields.now) }
{
    let fields: Vec<Def> = many(file, answers, fields)?;
    data_type(file.add_file_struct_typedef(name, &fields))
}
