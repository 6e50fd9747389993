//! Verilog and SystemVerilog syntax trees and their emitter.
//!
//! A [`VastFile`] owns every node of one file, and returns small copyable handles. [`VastFile::emit`] prints the
//! file; the text is the written layout of the tree that the calls built, byte for byte.
#![tactic(auto, using(crate::proofs::KeptLists::kept))]

mod always;
mod artifacts;
mod blocks;
mod cases;
mod conditionals;
mod declarations;
mod expressions;
mod file;
mod functions;
mod generate_loops;
mod growth;
pub mod helpers;
mod hoisting;
mod imports;
mod inspect;
mod instances;
mod items;
pub mod laws;
mod members;
mod modules;
mod parameters;
mod ports;
mod refusals;
mod typedefs;
mod types;

pub use file::VastFile;
pub use vast_core::{
    AlwaysKind, BlankLine, CaseStatement, Comment, Conditional, ContinuousAssignment, DataKind,
    Def, Expr, FileIds, GenerateLoop, IdsSpent, Index, IndexableExpr, InlineVerilogStatement,
    Instantiation, LocalparamRef, LogicRef, MacroRef, MacroStatement, ModulePort,
    ModulePortDirection, ParameterRef, Slice, VastAlwaysBase, VastDataType, VastFileType,
    VastFunction, VastModule, VastStatement, VastStatementBlock, is_system_verilog_keyword,
};
pub use vast_literal::{LiteralFormat, VastError, VastFault};
