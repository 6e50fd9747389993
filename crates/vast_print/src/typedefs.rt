//! Types that are declared by name.

ghost use Rattle.std.specs.Prelude.{All, map};
ghost use Rattle.vast_literal.specs.Tree.{EnumTree, StructTree};
ghost use Rattle.vast_core.specs.Bench.{OwnsDef, OwnsType, type_of};
ghost use Rattle.vast_core.specs.Sound.{ConnectionSound, TypedefSound};
ghost use Rattle.vast_core.specs.FileTree.{connection_tree, field_tree, typedef_tree};
ghost use Rattle.vast_core.specs.View.{bench};
ghost use Rattle.vast_print.specs.Internal.Output.{WritesLines, WritesText};
ghost use Rattle.vast_print.specs.Members.{entries_page, entry_text, local_page, locals_page, typedef_page};

use crate::declaration::{kind_opening, print_declaration};
use crate::expression::print_expression;
use crate::parameter::base_kind;
use crate::refusal::PrintFault;
use crate::types::{print_dimensions, print_type};
use crate::words;
use crate::writer::Writer;
use vast_core::{Ast, Connection, DeclaredType, Def, Typedef, VastDataType};

/// Writes an entry of an enumeration after the last line, with its value where it has one.
#[tactic(auto, using(crate::proofs::ArenaLaws::typedefs))]
fn print_entry(ast: &Ast, entry: &Connection, out: &mut Writer) -> Result<(), PrintFault>
    requires { ConnectionSound (bench ast.now) entry.now }
    ensures { WritesText out.old out.new result
        (entry_text (connection_tree (bench ast.now) entry.now)) }
{
    out.written(entry.name.as_str())?;
    if let Some(value) = entry.value {
        out.word(" = ")?;
        print_expression(ast, value, out)?;
    }
    Ok(())
}

/// Writes the entries of an enumeration, each on a line one deeper.
#[tactic(auto, using(crate::proofs::ArenaLaws::entries))]
fn print_entries(ast: &Ast, entries: &[Connection], out: &mut Writer) -> Result<(), PrintFault>
    requires { All (ConnectionSound (bench ast.now)) entries.now }
    ensures { WritesLines out.old out.new result
        (entries_page (map entry_text (map (connection_tree (bench ast.now)) entries.now))) }
{
    for (i, entry) in entries.iter().enumerate() {
        out.next_inner()?;
        print_entry(ast, entry, out)?;
        out.word(words::comma_word(i + 1 < entries.len()))?;
    }
    Ok(())
}

/// Writes an enumeration on lines of its own.
#[tactic(auto, using(crate::proofs::ArenaLaws::typedefs))]
fn print_enum(
    ast: &Ast,
    t: VastDataType,
    name: &str,
    entries: &[Connection],
    out: &mut Writer,
) -> Result<(), PrintFault>
    requires data_type { OwnsType (bench ast.now) t }
    requires entries { All (ConnectionSound (bench ast.now)) entries.now }
    ensures { WritesLines out.old out.new result
        (typedef_page (bench ast.now).file_type
        (EnumTree (type_of (bench ast.now) t) name.now
        (map (connection_tree (bench ast.now)) entries.now))) }
{
    out.next()?;
    out.word(words::enumeration())?;
    out.word(kind_opening(base_kind(ast, t)))?;
    print_type(ast, t, out)?;
    out.word("{")?;
    print_entries(ast, entries, out)?;
    out.next()?;
    out.word("} ")?;
    out.written(name)?;
    print_dimensions(ast, t, out)?;
    out.word(";")?;
    Ok(())
}

/// Writes a field of a structure on a line of its own.
#[tactic(auto, using(crate::proofs::ArenaLaws::typedefs))]
fn print_field(ast: &Ast, field: Def, out: &mut Writer) -> Result<(), PrintFault>
    requires { OwnsDef (bench ast.now) field }
    ensures { WritesLines out.old out.new result
        (local_page (bench ast.now).file_type (field_tree (bench ast.now) field)) }
{
    let declared = ast.definition(field);
    out.next()?;
    print_declaration(
        ast,
        declared.kind,
        declared.data_type,
        declared.name.as_str(),
        out,
    )?;
    out.word(";")?;
    Ok(())
}

/// Writes the fields of a structure below each other.
#[tactic(auto, using(crate::proofs::ContainerLaws::locals))]
fn print_fields(ast: &Ast, fields: &[Def], out: &mut Writer) -> Result<(), PrintFault>
    requires { All (OwnsDef (bench ast.now)) fields.now }
    ensures { WritesLines out.old out.new result
        (locals_page (bench ast.now).file_type (map (field_tree (bench ast.now)) fields.now)) }
{
    for field in fields {
        print_field(ast, *field, out)?;
    }
    Ok(())
}

/// Writes a packed structure on lines of its own.
#[tactic(auto, using(crate::proofs::ArenaLaws::typedefs))]
fn print_struct(ast: &Ast, name: &str, fields: &[Def], out: &mut Writer) -> Result<(), PrintFault>
    requires { All (OwnsDef (bench ast.now)) fields.now }
    ensures { WritesLines out.old out.new result
        (typedef_page (bench ast.now).file_type
        (StructTree name.now (map (field_tree (bench ast.now)) fields.now))) }
{
    out.next()?;
    out.word(words::structure())?;
    out.deeper()?;
    print_fields(ast, fields, out)?;
    out.shallower();
    out.next()?;
    out.word("} ")?;
    out.written(name)?;
    out.word(";")?;
    Ok(())
}

/// Writes a type that is declared by name on lines of its own.
pub(crate) fn print_typedef(
    ast: &Ast,
    typedef: &Typedef,
    out: &mut Writer,
) -> Result<(), PrintFault>
    requires { TypedefSound (bench ast.now) typedef.now }
    ensures { WritesLines out.old out.new result
        (typedef_page (bench ast.now).file_type (typedef_tree (bench ast.now) typedef.now)) }
{
    match typedef.declared() {
        DeclaredType::Enum(t, name, entries) => {
            print_enum(ast, *t, name.as_str(), entries.as_slice(), out)
        }
        DeclaredType::Struct(name, fields) => {
            print_struct(ast, name.as_str(), fields.as_slice(), out)
        }
    }
}
