//! Which handles are a file's own.

ghost use Rattle.std.specs.Prelude.{◌↔◌, IsTrue};
ghost use Rattle.vast_core.specs.View.{bench};

use crate::ast::Ast;
use crate::handle::{
    BlankLine, CaseStatement, Comment, Conditional, ContinuousAssignment, Def, Expr, GenerateLoop,
    Index, IndexableExpr, InlineVerilogStatement, Instantiation, LocalparamRef, LogicRef, MacroRef,
    MacroStatement, ModulePort, ParameterRef, Slice, VastAlwaysBase, VastDataType, VastFunction,
    VastModule, VastStatement, VastStatementBlock,
};

/// A handle of a file's node. A handle belongs to a file where its id is the file's and its index names a node of
/// the handle's kind; a handle of another file, or of another kind's node, doesn't.
pub trait Handle {
    ghost use Rattle.vast_core.specs.Bench.{Bench};

    /// That the handle belongs to the file.
    ghost owned: { Bench → Self → Type 0 };

    /// Whether the handle belongs to the file.
    fn belongs_to(&self, ast: &Ast) -> bool
        ensures { IsTrue result ↔ owned (bench ast.now) self.now };
}

impl Handle for LogicRef {
    ghost use Rattle.vast_core.specs.Bench.{OwnsLogicRef};

    ghost owned = { OwnsLogicRef };

    fn belongs_to(&self, ast: &Ast) -> bool {
        ast.made_id(self.id) && ast.is_name_at(self.id.index)
    }
}

impl Handle for ParameterRef {
    ghost use Rattle.vast_core.specs.Bench.{OwnsParameterRef};

    ghost owned = { OwnsParameterRef };

    fn belongs_to(&self, ast: &Ast) -> bool {
        ast.made_id(self.id) && ast.is_name_at(self.id.index)
    }
}

impl Handle for LocalparamRef {
    ghost use Rattle.vast_core.specs.Bench.{OwnsLocalparamRef};

    ghost owned = { OwnsLocalparamRef };

    fn belongs_to(&self, ast: &Ast) -> bool {
        ast.made_id(self.id) && ast.is_name_at(self.id.index)
    }
}

impl Handle for Index {
    ghost use Rattle.vast_core.specs.Bench.{OwnsIndex};

    ghost owned = { OwnsIndex };

    fn belongs_to(&self, ast: &Ast) -> bool {
        ast.made_id(self.id) && ast.is_index_at(self.id.index)
    }
}

impl Handle for Slice {
    ghost use Rattle.vast_core.specs.Bench.{OwnsSlice};

    ghost owned = { OwnsSlice };

    fn belongs_to(&self, ast: &Ast) -> bool {
        ast.made_id(self.id) && ast.is_slice_at(self.id.index)
    }
}

impl Handle for MacroRef {
    ghost use Rattle.vast_core.specs.Bench.{OwnsMacroRef};

    ghost owned = { OwnsMacroRef };

    fn belongs_to(&self, ast: &Ast) -> bool {
        ast.made_id(self.id) && ast.is_macro_at(self.id.index)
    }
}

impl Handle for Expr {
    ghost use Rattle.vast_core.specs.Bench.{OwnsExpr};

    ghost owned = { OwnsExpr };

    fn belongs_to(&self, ast: &Ast) -> bool {
        ast.made_id(self.id) && ast.is_expr_at(self.id.index)
    }
}

impl Handle for IndexableExpr {
    ghost use Rattle.vast_core.specs.Bench.{OwnsIndexable};

    ghost owned = { OwnsIndexable };

    fn belongs_to(&self, ast: &Ast) -> bool {
        ast.made_id(self.id) && ast.is_expr_at(self.id.index)
    }
}

impl Handle for VastDataType {
    ghost use Rattle.vast_core.specs.Bench.{OwnsType};

    ghost owned = { OwnsType };

    fn belongs_to(&self, ast: &Ast) -> bool {
        ast.made_id(self.id) && ast.is_type_at(self.id.index)
    }
}

impl Handle for VastModule {
    ghost use Rattle.vast_core.specs.Bench.{OwnsModule};

    ghost owned = { OwnsModule };

    fn belongs_to(&self, ast: &Ast) -> bool {
        ast.made_id(self.id) && ast.is_module_at(self.id.index)
    }
}

impl Handle for ModulePort {
    ghost use Rattle.vast_core.specs.Bench.{OwnsPort};

    ghost owned = { OwnsPort };

    fn belongs_to(&self, ast: &Ast) -> bool {
        ast.made_id(self.id) && ast.is_port_at(self.id.index)
    }
}

impl Handle for VastFunction {
    ghost use Rattle.vast_core.specs.Bench.{OwnsFunction};

    ghost owned = { OwnsFunction };

    fn belongs_to(&self, ast: &Ast) -> bool {
        ast.made_id(self.id) && ast.is_function_at(self.id.index)
    }
}

impl Handle for Instantiation {
    ghost use Rattle.vast_core.specs.Bench.{OwnsInstantiation};

    ghost owned = { OwnsInstantiation };

    fn belongs_to(&self, ast: &Ast) -> bool {
        ast.made_id(self.id) && ast.is_instance_at(self.id.index)
    }
}

impl Handle for VastAlwaysBase {
    ghost use Rattle.vast_core.specs.Bench.{OwnsAlways};

    ghost owned = { OwnsAlways };

    fn belongs_to(&self, ast: &Ast) -> bool {
        ast.made_id(self.id) && ast.is_always_block_at(self.id.index)
    }
}

impl Handle for Def {
    ghost use Rattle.vast_core.specs.Bench.{OwnsDef};

    ghost owned = { OwnsDef };

    fn belongs_to(&self, ast: &Ast) -> bool {
        ast.made_id(self.id) && ast.is_definition_at(self.id.index)
    }
}

impl Handle for VastStatement {
    ghost use Rattle.vast_core.specs.Bench.{OwnsStatement};

    ghost owned = { OwnsStatement };

    fn belongs_to(&self, ast: &Ast) -> bool {
        ast.made_id(self.id) && ast.is_assignment_at(self.id.index)
    }
}

impl Handle for ContinuousAssignment {
    ghost use Rattle.vast_core.specs.Bench.{OwnsContinuous};

    ghost owned = { OwnsContinuous };

    fn belongs_to(&self, ast: &Ast) -> bool {
        ast.made_id(self.id) && ast.is_continuous_at(self.id.index)
    }
}

impl Handle for BlankLine {
    ghost use Rattle.vast_core.specs.Bench.{OwnsBlankLine};

    ghost owned = { OwnsBlankLine };

    fn belongs_to(&self, ast: &Ast) -> bool {
        ast.made_id(self.id) && ast.is_blank_line_at(self.id.index)
    }
}

impl Handle for Comment {
    ghost use Rattle.vast_core.specs.Bench.{OwnsComment};

    ghost owned = { OwnsComment };

    fn belongs_to(&self, ast: &Ast) -> bool {
        ast.made_id(self.id) && ast.is_comment_at(self.id.index)
    }
}

impl Handle for InlineVerilogStatement {
    ghost use Rattle.vast_core.specs.Bench.{OwnsInline};

    ghost owned = { OwnsInline };

    fn belongs_to(&self, ast: &Ast) -> bool {
        ast.made_id(self.id) && ast.is_inline_at(self.id.index)
    }
}

impl Handle for MacroStatement {
    ghost use Rattle.vast_core.specs.Bench.{OwnsMacroStatement};

    ghost owned = { OwnsMacroStatement };

    fn belongs_to(&self, ast: &Ast) -> bool {
        ast.made_id(self.id) && ast.is_macro_statement_at(self.id.index)
    }
}

impl Handle for VastStatementBlock {
    ghost use Rattle.vast_core.specs.Bench.{OwnsBlock};

    ghost owned = { OwnsBlock };

    fn belongs_to(&self, ast: &Ast) -> bool {
        ast.made_id(self.id) && ast.is_block_at(self.id.index)
    }
}

impl Handle for Conditional {
    ghost use Rattle.vast_core.specs.Bench.{OwnsConditional};

    ghost owned = { OwnsConditional };

    fn belongs_to(&self, ast: &Ast) -> bool {
        ast.made_id(self.id) && ast.is_conditional_at(self.id.index)
    }
}

impl Handle for CaseStatement {
    ghost use Rattle.vast_core.specs.Bench.{OwnsCase};

    ghost owned = { OwnsCase };

    fn belongs_to(&self, ast: &Ast) -> bool {
        ast.made_id(self.id) && ast.is_case_at(self.id.index)
    }
}

impl Handle for GenerateLoop {
    ghost use Rattle.vast_core.specs.Bench.{OwnsLoop};

    ghost owned = { OwnsLoop };

    fn belongs_to(&self, ast: &Ast) -> bool {
        ast.made_id(self.id) && ast.is_loop_at(self.id.index)
    }
}
