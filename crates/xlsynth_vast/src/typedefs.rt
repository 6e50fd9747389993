//! Types that are declared by name (IEEE 1800-2017, 6.18, 6.19 and 7.2), in a module and in a file. The crate
//! `xlsynth-vast` has none.

ghost use Rattle.std.specs.Prelude.{◌≡◌, All, IfOk, IfSome, length, map, option_copied};
ghost use Rattle.vast_core.specs.Bench.{OwnsDef, OwnsExpr, OwnsModule, OwnsType};
ghost use Rattle.vast_core.specs.Growth.{Builds, next_type, with_typedef, with_file_typedef};
ghost use Rattle.vast_core.specs.declared.typedef.DeclaredType.TheVariants.{Enum as EnumType, Struct as StructType};
ghost use Rattle.vast_core.specs.Sound.{TypedefSound};
ghost use Rattle.xlsynth_vast.specs.Instances.{connected};
ghost use Rattle.xlsynth_vast.specs.Keeps.{Keeps};

use crate::file::VastFile;
use crate::instances::connections;
use std::alloc::AllocError;
use vast_core::{Def, Expr, Typedef, VastDataType, VastModule};

impl VastFile {
    /// An enumeration of these entries, which stands nowhere yet.
    #[tactic(auto, using(crate::proofs::Connected::enumerations))]
    fn enumeration(
        &self,
        name: &str,
        data_type: VastDataType,
        names: &[&str],
        values: &[Option<&Expr>],
    ) -> Result<Typedef, AllocError>
        requires entries { length names.now ≡ length values.now }
        requires data_type { OwnsType self.now data_type }
        requires values { All (λ e. IfSome e (λ x. OwnsExpr self.now x.now)) values.now }
        ensures is { IfOk result
            (λ t. t ≡ EnumType data_type name.now
            (connected (map (λ n. n.now) names.now) (map option_copied values.now))) }
        ensures sound { IfOk result (λ t. TypedefSound self.now t) }
    {
        let alloc = self.ast.allocator();
        let entries = connections(alloc, names, values)?;
        Typedef::enumeration(alloc, data_type, name, entries)
    }

    /// A packed structure of these fields, which stands nowhere yet.
    fn structure(&self, name: &str, fields: &[Def]) -> Result<Typedef, AllocError>
        requires { All (OwnsDef self.now) fields.now }
        ensures is { IfOk result (λ t. t ≡ StructType name.now fields.now) }
        ensures sound { IfOk result (λ t. TypedefSound self.now t) }
    {
        let alloc = self.ast.allocator();
        let fields: Vec<Def> = fields.iter().copied().collect(alloc)?;
        Typedef::structure(alloc, name, fields)
    }

    /// `typedef enum`, as the module's last member, and the type of its name: an enumeration over the type, with an entry for
    /// each name, each with a value or none. The names are not taken in the module.
    ///
    /// # Errors
    /// `AllocError` where a growth was refused; the file is unchanged.
    pub fn add_enum_typedef(
        &mut self,
        owner: VastModule,
        name: &str,
        data_type: &VastDataType,
        names: &[&str],
        values: &[Option<&Expr>],
    ) -> Result<VastDataType, AllocError>
        requires owner { OwnsModule self.old owner }
        requires entries { length names.now ≡ length values.now }
        requires data_type { OwnsType self.old data_type.now }
        requires values { All (λ e. IfSome e (λ x. OwnsExpr self.old x.now)) values.now }
        ensures built { Builds self.old self.new result next_type
            (with_typedef owner (EnumType data_type.now name.now
            (connected (map (λ n. n.now) names.now) (map option_copied values.now)))) }
        ensures kept { Keeps self.old self.new }
    {
        let typedef = self.enumeration(name, *data_type, names, values)?;
        self.ast.push_typedef(owner, typedef)
    }

    /// `typedef struct packed`, as the module's last member, and the type of its name: a field for each definition, with its
    /// kind, type and name. The type's name is not taken in the module.
    ///
    /// # Errors
    /// `AllocError` where a growth was refused; the file is unchanged.
    pub fn add_struct_typedef(
        &mut self,
        owner: VastModule,
        name: &str,
        fields: &[Def],
    ) -> Result<VastDataType, AllocError>
        requires owner { OwnsModule self.old owner }
        requires fields { All (OwnsDef self.old) fields.now }
        ensures built { Builds self.old self.new result next_type
            (with_typedef owner (StructType name.now fields.now)) }
        ensures kept { Keeps self.old self.new }
    {
        let typedef = self.structure(name, fields)?;
        self.ast.push_typedef(owner, typedef)
    }

    /// `typedef enum`, as the last item of the file, and the type of its name, as [`VastFile::add_enum_typedef`] in a module.
    ///
    /// # Errors
    /// `AllocError` where a growth was refused; the file is unchanged.
    pub fn add_file_enum_typedef(
        &mut self,
        name: &str,
        data_type: &VastDataType,
        names: &[&str],
        values: &[Option<&Expr>],
    ) -> Result<VastDataType, AllocError>
        requires entries { length names.now ≡ length values.now }
        requires data_type { OwnsType self.old data_type.now }
        requires values { All (λ e. IfSome e (λ x. OwnsExpr self.old x.now)) values.now }
        ensures built { Builds self.old self.new result next_type
            (with_file_typedef (EnumType data_type.now name.now
            (connected (map (λ n. n.now) names.now) (map option_copied values.now)))) }
        ensures kept { Keeps self.old self.new }
    {
        let typedef = self.enumeration(name, *data_type, names, values)?;
        self.ast.push_file_typedef(typedef)
    }

    /// `typedef struct packed`, as the last item of the file, and the type of its name, as [`VastFile::add_struct_typedef`] in
    /// a module.
    ///
    /// # Errors
    /// `AllocError` where a growth was refused; the file is unchanged.
    pub fn add_file_struct_typedef(
        &mut self,
        name: &str,
        fields: &[Def],
    ) -> Result<VastDataType, AllocError>
        requires { All (OwnsDef self.old) fields.now }
        ensures built { Builds self.old self.new result next_type
            (with_file_typedef (StructType name.now fields.now)) }
        ensures kept { Keeps self.old self.new }
    {
        let typedef = self.structure(name, fields)?;
        self.ast.push_file_typedef(typedef)
    }
}
