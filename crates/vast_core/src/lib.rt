//! Handles, nodes and arenas of Verilog syntax trees.
//!
//! An [`Ast`] owns every node of one file; a handle is a file's number and an index, so it is `Copy` and stays good
//! as long as the file lives. `specs/Bench.antt` says what a file holds, without vectors and strings.
#![tactic(auto)]

mod ast;
mod bits;
mod file_ids;
mod handle;
mod node;
mod shape;
mod typedef;

pub use ast::Ast;
pub use ast::insertion_point::InsertionPoint;
pub use ast::owns::Handle;
pub use ast::scope::Scope;
pub use bits::{BitCountFault, WidthFault};
pub use file_ids::{FileIds, IdsSpent};
pub use handle::{
    BlankLine, CaseStatement, Comment, Conditional, ContinuousAssignment, Def, Expr, GenerateLoop,
    Index, IndexableExpr, InlineVerilogStatement, Instantiation, LocalparamRef, LogicRef, MacroRef,
    MacroStatement, ModulePort, ParameterRef, Slice, VastAlwaysBase, VastDataType, VastFunction,
    VastModule, VastStatement, VastStatementBlock,
};
pub use node::{
    AlwaysBlock, Artifact, Assignment, CaseArm, CaseNode, ConditionalNode, Connection, Definition,
    Dimension, ElseIf, ExprNode, FileItem, ForLoop, ForParts, Function, FunctionVariable, Instance,
    LoopNode, Member, Module, PackageName, ParameterForm, ParameterPort, Port, Statement, TypeNode,
};
pub use typedef::{DeclaredType, NodeList, Typedef};
pub use vast_literal::{
    AlwaysKind, AssignmentForm, BinaryOperator, CaseKind, DataKind, ModulePortDirection,
    UnaryOperator, VastFileType, is_system_verilog_keyword,
};
