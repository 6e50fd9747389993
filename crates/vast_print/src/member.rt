//! Members of modules and loops.

ghost use Rattle.std.specs.Prelude.{All};
ghost use Rattle.vast_core.specs.Bench.{OwnsType, OwnsMacroRef, tree_of};
ghost use Rattle.vast_core.specs.Sound.{MemberSound};
ghost use Rattle.vast_core.specs.FileTree.{declared, member_tree, members_tree};
ghost use Rattle.vast_core.specs.View.{bench};
ghost use Rattle.vast_print.specs.Internal.Output.{WritesLines};
ghost use Rattle.vast_print.specs.Members.{member_page, members_page};
ghost use Rattle.vast_literal.specs.Tree.{DeclarationMember, MacroMember};

use crate::always::print_always;
use crate::assignment::print_continuous;
use crate::conditional::print_conditional;
use crate::declaration::print_declaration;
use crate::expression::print_expression;
use crate::function::print_function;
use crate::generate_loop::print_loop;
use crate::imports::print_import;
use crate::instance::print_instance;
use crate::parameter::print_parameter;
use crate::refusal::PrintFault;
use crate::statement::print_inline;
use crate::typedefs::print_typedef;
use crate::words;
use crate::writer::Writer;
use vast_core::{Ast, DataKind, MacroRef, Member, VastDataType};

/// Writes a wire, reg, logic or variable without a kind on a line of its own.
#[tactic(auto, using(crate::proofs::ArenaLaws::members))]
fn print_variable(
    ast: &Ast,
    kind: DataKind,
    name: &str,
    t: VastDataType,
    out: &mut Writer,
) -> Result<(), PrintFault>
    requires { OwnsType (bench ast.now) t }
    ensures { WritesLines out.old out.new result
        (member_page (bench ast.now).file_type
        (DeclarationMember (declared (bench ast.now) kind name.now t))) }
{
    out.next()?;
    print_declaration(ast, kind, t, name, out)?;
    out.word(";")?;
    Ok(())
}

/// Writes the use of a macro on a line of its own.
#[tactic(auto, using(crate::proofs::ArenaLaws::members, vast_core::proofs::Laws::conversions))]
fn print_macro(
    ast: &Ast,
    call: MacroRef,
    semicolon: bool,
    out: &mut Writer,
) -> Result<(), PrintFault>
    requires { OwnsMacroRef (bench ast.now) call }
    ensures { WritesLines out.old out.new result
        (member_page (bench ast.now).file_type
        (MacroMember (tree_of (bench ast.now) (record { id = call.id })) semicolon)) }
{
    out.next()?;
    print_expression(ast, call.to_expr(), out)?;
    out.word(words::semicolon(semicolon))?;
    Ok(())
}

/// Writes a member on lines of its own.
#[cycle(members)]
#[tactic(auto, using(crate::proofs::ContainerLaws::members))]
pub(crate) fn print_member(ast: &Ast, member: &Member, out: &mut Writer) -> Result<(), PrintFault>
    requires owned { MemberSound (bench ast.now) member.now }
    ensures { WritesLines out.old out.new result
        (member_page (bench ast.now).file_type (member_tree (bench ast.now) member.now)) }
{
    match member {
        Member::Declaration(kind, name, t) => { print_variable(ast, *kind, name.as_str(), *t, out) }
        Member::ContinuousAssignment(a) => print_continuous(ast, ast.continuous(*a), out),
        Member::Parameter(local, form, value) => { print_parameter(ast, *local, form, *value, out) }
        Member::BlankLine => Ok(out.next()?),
        Member::Comment(a) => Ok(out.comment(ast.comment_text(*a))?),
        Member::Import(package) => print_import(package.as_str(), out),
        Member::Typedef(typedef) => print_typedef(ast, typedef, out),
        Member::Inline(a) => print_inline(ast.inline_text(*a), out),
        Member::Macro(a) => {
            let (call, semicolon) = ast.macro_statement(*a);
            print_macro(ast, call, semicolon, out)
        }
        Member::Instantiation(i) => print_instance(ast, *i, out),
        Member::Function(f) => print_function(ast, *f, out),
        Member::Always(a) => print_always(ast, *a, out),
        Member::Conditional(c) => print_conditional(ast, *c, out),
        Member::Loop(l) => print_loop(ast, *l, out),
    }
}

/// Writes the members of a module below each other.
#[tactic(auto, using(crate::proofs::ArenaLaws::listed))]
pub(crate) fn print_members(
    ast: &Ast,
    members: &[Member],
    out: &mut Writer,
) -> Result<(), PrintFault>
    requires owned { All (MemberSound (bench ast.now)) members.now }
    ensures { WritesLines out.old out.new result
        (members_page (bench ast.now).file_type (members_tree (bench ast.now) members.now)) }
{
    for member in members {
        print_member(ast, member, out)?;
    }
    Ok(())
}
