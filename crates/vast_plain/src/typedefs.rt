//! Types that are declared by name.

ghost use Rattle.std.specs.Prelude.{◌≡◌, All, map};
ghost use Rattle.vast_literal.specs.LiteralToken.{every};
ghost use Rattle.vast_literal.specs.PlainFile.{is_built_in, is_plain_declared, is_plain_typedef};
ghost use Rattle.vast_core.specs.Bench.{OwnsDef, OwnsType, type_of};
ghost use Rattle.vast_core.specs.FileTree.{field_tree, typedef_tree};
ghost use Rattle.vast_core.specs.Sound.{TypedefSound};
ghost use Rattle.vast_core.specs.View.{bench};
ghost use Rattle.vast_plain.specs.Internal.Values.{Answers};

use crate::names::is_plain_name;
use crate::parts::are_plain_connections;
use crate::types::is_plain_declaration;
use std::alloc::AllocError;
use vast_core::{Ast, DeclaredType, Def, TypeNode, Typedef, VastDataType};

/// Whether the type is a bit, a vector or an integer.
fn is_built_in(ast: &Ast, t: VastDataType) -> bool
    requires { OwnsType (bench ast.now) t }
    ensures { result ≡ is_built_in (type_of (bench ast.now) t) }
{
    match ast.data_type(t) {
        TypeNode::Scalar(_) => true,
        TypeNode::Vector(_, _, _) => true,
        TypeNode::Integer(_) => true,
        TypeNode::Int(_) => true,
        _ => false,
    }
}

/// Whether a field's name and type are plain.
fn is_plain_field(ast: &Ast, d: Def) -> Result<bool, AllocError>
    requires { OwnsDef (bench ast.now) d }
    ensures { Answers (is_plain_declared (field_tree (bench ast.now) d)) result }
{
    let declared = ast.definition(d);
    is_plain_declaration(ast, declared.data_type, declared.name.as_str())
}

/// Whether the fields of a structure are plain.
fn are_plain_fields(ast: &Ast, fields: &[Def]) -> Result<bool, AllocError>
    requires { All (OwnsDef (bench ast.now)) fields.now }
    ensures { Answers
        (every is_plain_declared (map (field_tree (bench ast.now)) fields.now)) result }
{
    for field in fields {
        if !is_plain_field(ast, *field)? {
            return Ok(false);
        }
    }
    Ok(true)
}

/// Whether all that is declared is plain: an enumeration is over a bit, a vector or an integer.
pub(crate) fn is_plain_typedef(ast: &Ast, typedef: &Typedef) -> Result<bool, AllocError>
    requires { TypedefSound (bench ast.now) typedef.now }
    ensures { Answers (is_plain_typedef (typedef_tree (bench ast.now) typedef.now)) result }
{
    match typedef.declared() {
        DeclaredType::Enum(t, name, entries) => Ok(
            is_plain_declaration(ast, *t, name.as_str())?
                && is_built_in(ast, *t)
                && are_plain_connections(ast, entries.as_slice())?,
        ),
        DeclaredType::Struct(name, fields) => {
            Ok(is_plain_name(name.as_str()) && are_plain_fields(ast, fields.as_slice())?)
        }
    }
}
