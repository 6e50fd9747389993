//! Members of modules and loops.

ghost use Rattle.std.specs.Prelude.{◌&&◌, All, string_bytes};
ghost use Rattle.vast_literal.specs.Plain.{is_plain_name, is_plain};
ghost use Rattle.vast_literal.specs.PlainFile.{is_plain_label, is_plain_member, are_plain_members};
ghost use Rattle.vast_core.specs.Bench.{OwnsExpr, OwnsLoop, tree_of};
ghost use Rattle.vast_core.specs.Nests.{label_bytes};
ghost use Rattle.vast_core.specs.Sound.{MemberSound};
ghost use Rattle.vast_core.specs.FileTree.{families, loop_member, member_tree, members_tree};
ghost use Rattle.vast_core.specs.View.{bench};
ghost use Rattle.vast_plain.specs.Internal.Values.{Answers};

use crate::expression::is_plain_value;
use crate::names::{is_plain_label, is_plain_name};
use crate::parts::{is_plain_always, is_plain_function, is_plain_instance, is_plain_parameter};
use crate::statement::{is_plain_assignment, is_plain_conditional};
use crate::typedefs::is_plain_typedef;
use crate::types::is_plain_variable;
use std::alloc::AllocError;
use vast_core::{Ast, GenerateLoop, LoopNode, Member};

/// Whether the member is no inline text, and all that it holds is plain.
#[cycle(members)]
#[tactic(auto, using(crate::proofs::Members::members, vast_core::proofs::Laws::conversions))]
fn is_plain_member(ast: &Ast, member: &Member) -> Result<bool, AllocError>
    requires { MemberSound (bench ast.now) member.now }
    ensures { Answers
        (is_plain_member (member_tree (bench ast.now) member.now)) result }
{
    match member {
        Member::Declaration(kind, name, t) => is_plain_variable(ast, *kind, *t, name.as_str()),
        Member::ContinuousAssignment(a) => is_plain_assignment(ast, ast.continuous(*a)),
        Member::Parameter(_, form, value) => is_plain_parameter(ast, form, *value),
        Member::BlankLine => Ok(true),
        Member::Comment(_) => Ok(true),
        Member::Import(package) => Ok(is_plain_name(package.as_str())),
        Member::Typedef(typedef) => is_plain_typedef(ast, typedef),
        Member::Inline(_) => Ok(false),
        Member::Macro(a) => {
            let (call, _) = ast.macro_statement(*a);
            is_plain_value(ast, call.to_expr())
        }
        Member::Instantiation(i) => is_plain_instance(ast, *i),
        Member::Function(f) => is_plain_function(ast, *f),
        Member::Always(a) => is_plain_always(ast, *a),
        Member::Conditional(c) => is_plain_conditional(ast, *c),
        Member::Loop(l) => is_plain_loop(ast, *l),
    }
}

/// Whether the variable, the bounds, the label and the members of a loop are plain.
#[cycle(members)]
fn is_plain_loop(ast: &Ast, l: GenerateLoop) -> Result<bool, AllocError>
    requires { OwnsLoop (bench ast.now) l }
    ensures { Answers
        (is_plain_member (loop_member (families (bench ast.now) l.id.index))) result }
{
    let node = ast.generate_loop(l);
    if !is_plain_header(ast, node)? {
        return Ok(false);
    }
    for member in &node.members {
        if !is_plain_member(ast, member)? {
            return Ok(false);
        }
    }
    Ok(true)
}

/// Whether the variable, the bounds and the label of a loop are plain.
fn is_plain_header(ast: &Ast, node: &LoopNode) -> Result<bool, AllocError>
    requires start { OwnsExpr (bench ast.now) node.now.start }
    requires end { OwnsExpr (bench ast.now) node.now.end }
    ensures { Answers
        ((is_plain_name (string_bytes node.now.name) && is_plain_label (label_bytes node.now.label))
        && (is_plain (tree_of (bench ast.now) node.now.start)
        && is_plain (tree_of (bench ast.now) node.now.end))) result }
{
    Ok(
        is_plain_name(&node.name)
            && is_plain_label(&node.label)
            && is_plain_value(ast, node.start)?
            && is_plain_value(ast, node.end)?,
    )
}

/// Whether each member of a module is plain.
pub(crate) fn are_plain_members(ast: &Ast, members: &[Member]) -> Result<bool, AllocError>
    requires { All (MemberSound (bench ast.now)) members.now }
    ensures { Answers
        (are_plain_members (members_tree (bench ast.now) members.now))
        result }
{
    for member in members {
        if !is_plain_member(ast, member)? {
            return Ok(false);
        }
    }
    Ok(true)
}
