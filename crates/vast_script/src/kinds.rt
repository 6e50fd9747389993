//! The kinds of handles that calls take.

use crate::answer::Answer;
use crate::arguments::Argument;
use xlsynth_vast::{
    BlankLine, CaseStatement, Comment, Conditional, ContinuousAssignment, Def, Expr, GenerateLoop,
    IndexableExpr, InlineVerilogStatement, Instantiation, LogicRef, MacroRef, MacroStatement,
    VastAlwaysBase, VastDataType, VastFunction, VastModule, VastStatementBlock,
};

impl Argument for VastModule {
    ghost use Rattle.vast_script.specs.Kinds.{a_module};
    ghost use Rattle.vast_script.specs.Internal.Owned.{owned_where};

    ghost kind = { a_module };

    ghost is_own = { λ b handle. owned_where b handle.id _ };

    fn of(answer: Answer) -> Option<VastModule> {
        match answer {
            Answer::VastModule(handle) => Some(handle),
            _ => None,
        }
    }
}

impl Argument for VastFunction {
    ghost use Rattle.vast_script.specs.Kinds.{a_function};
    ghost use Rattle.vast_script.specs.Internal.Owned.{owned_where};

    ghost kind = { a_function };

    ghost is_own = { λ b handle. owned_where b handle.id _ };

    fn of(answer: Answer) -> Option<VastFunction> {
        match answer {
            Answer::VastFunction(handle) => Some(handle),
            _ => None,
        }
    }
}

impl Argument for VastDataType {
    ghost use Rattle.vast_script.specs.Kinds.{a_type};
    ghost use Rattle.vast_script.specs.Internal.Owned.{owned_where};

    ghost kind = { a_type };

    ghost is_own = { λ b handle. owned_where b handle.id _ };

    fn of(answer: Answer) -> Option<VastDataType> {
        match answer {
            Answer::VastDataType(handle) => Some(handle),
            _ => None,
        }
    }
}

impl Argument for Expr {
    ghost use Rattle.vast_script.specs.Kinds.{an_expr};
    ghost use Rattle.vast_script.specs.Internal.Owned.{owned_where};

    ghost kind = { an_expr };

    ghost is_own = { λ b handle. owned_where b handle.id _ };

    fn of(answer: Answer) -> Option<Expr> {
        match answer {
            Answer::Expr(handle) => Some(handle),
            Answer::LogicRef(handle) => Some(handle.to_expr()),
            Answer::IndexableExpr(handle) => Some(handle.to_expr()),
            Answer::Slice(handle) => Some(handle.to_expr()),
            Answer::Index(handle) => Some(handle.to_expr()),
            Answer::ParameterRef(handle) => Some(handle.to_expr()),
            Answer::LocalparamRef(handle) => Some(handle.to_expr()),
            Answer::MacroRef(handle) => Some(handle.to_expr()),
            _ => None,
        }
    }
}

impl Argument for IndexableExpr {
    ghost use Rattle.vast_script.specs.Kinds.{an_indexable};
    ghost use Rattle.vast_script.specs.Internal.Owned.{owned_where};

    ghost kind = { an_indexable };

    ghost is_own = { λ b handle. owned_where b handle.id _ };

    fn of(answer: Answer) -> Option<IndexableExpr> {
        match answer {
            Answer::IndexableExpr(handle) => Some(handle),
            Answer::LogicRef(handle) => Some(handle.to_indexable_expr()),
            Answer::Index(handle) => Some(handle.to_indexable_expr()),
            Answer::ParameterRef(handle) => Some(handle.to_indexable_expr()),
            _ => None,
        }
    }
}

impl Argument for LogicRef {
    ghost use Rattle.vast_script.specs.Kinds.{a_logic_ref};
    ghost use Rattle.vast_script.specs.Internal.Owned.{owned_where};

    ghost kind = { a_logic_ref };

    ghost is_own = { λ b handle. owned_where b handle.id _ };

    fn of(answer: Answer) -> Option<LogicRef> {
        match answer {
            Answer::LogicRef(handle) => Some(handle),
            _ => None,
        }
    }
}

impl Argument for MacroRef {
    ghost use Rattle.vast_script.specs.Kinds.{a_macro_ref};
    ghost use Rattle.vast_script.specs.Internal.Owned.{owned_where};

    ghost kind = { a_macro_ref };

    ghost is_own = { λ b handle. owned_where b handle.id _ };

    fn of(answer: Answer) -> Option<MacroRef> {
        match answer {
            Answer::MacroRef(handle) => Some(handle),
            _ => None,
        }
    }
}

impl Argument for Def {
    ghost use Rattle.vast_script.specs.Kinds.{a_definition};
    ghost use Rattle.vast_script.specs.Internal.Owned.{owned_where};

    ghost kind = { a_definition };

    ghost is_own = { λ b handle. owned_where b handle.id _ };

    fn of(answer: Answer) -> Option<Def> {
        match answer {
            Answer::Def(handle) => Some(handle),
            _ => None,
        }
    }
}

impl Argument for BlankLine {
    ghost use Rattle.vast_script.specs.Kinds.{a_blank_line};
    ghost use Rattle.vast_script.specs.Internal.Owned.{owned_where};

    ghost kind = { a_blank_line };

    ghost is_own = { λ b handle. owned_where b handle.id _ };

    fn of(answer: Answer) -> Option<BlankLine> {
        match answer {
            Answer::BlankLine(handle) => Some(handle),
            _ => None,
        }
    }
}

impl Argument for Comment {
    ghost use Rattle.vast_script.specs.Kinds.{a_comment};
    ghost use Rattle.vast_script.specs.Internal.Owned.{owned_where};

    ghost kind = { a_comment };

    ghost is_own = { λ b handle. owned_where b handle.id _ };

    fn of(answer: Answer) -> Option<Comment> {
        match answer {
            Answer::Comment(handle) => Some(handle),
            _ => None,
        }
    }
}

impl Argument for InlineVerilogStatement {
    ghost use Rattle.vast_script.specs.Kinds.{an_inline};
    ghost use Rattle.vast_script.specs.Internal.Owned.{owned_where};

    ghost kind = { an_inline };

    ghost is_own = { λ b handle. owned_where b handle.id _ };

    fn of(answer: Answer) -> Option<InlineVerilogStatement> {
        match answer {
            Answer::InlineVerilogStatement(handle) => Some(handle),
            _ => None,
        }
    }
}

impl Argument for MacroStatement {
    ghost use Rattle.vast_script.specs.Kinds.{a_macro_statement};
    ghost use Rattle.vast_script.specs.Internal.Owned.{owned_where};

    ghost kind = { a_macro_statement };

    ghost is_own = { λ b handle. owned_where b handle.id _ };

    fn of(answer: Answer) -> Option<MacroStatement> {
        match answer {
            Answer::MacroStatement(handle) => Some(handle),
            _ => None,
        }
    }
}

impl Argument for Instantiation {
    ghost use Rattle.vast_script.specs.Kinds.{an_instantiation};
    ghost use Rattle.vast_script.specs.Internal.Owned.{owned_where};

    ghost kind = { an_instantiation };

    ghost is_own = { λ b handle. owned_where b handle.id _ };

    fn of(answer: Answer) -> Option<Instantiation> {
        match answer {
            Answer::Instantiation(handle) => Some(handle),
            _ => None,
        }
    }
}

impl Argument for ContinuousAssignment {
    ghost use Rattle.vast_script.specs.Kinds.{a_continuous};
    ghost use Rattle.vast_script.specs.Internal.Owned.{owned_where};

    ghost kind = { a_continuous };

    ghost is_own = { λ b handle. owned_where b handle.id _ };

    fn of(answer: Answer) -> Option<ContinuousAssignment> {
        match answer {
            Answer::ContinuousAssignment(handle) => Some(handle),
            _ => None,
        }
    }
}

impl Argument for VastAlwaysBase {
    ghost use Rattle.vast_script.specs.Kinds.{an_always};
    ghost use Rattle.vast_script.specs.Internal.Owned.{owned_where};

    ghost kind = { an_always };

    ghost is_own = { λ b handle. owned_where b handle.id _ };

    fn of(answer: Answer) -> Option<VastAlwaysBase> {
        match answer {
            Answer::VastAlwaysBase(handle) => Some(handle),
            _ => None,
        }
    }
}

impl Argument for VastStatementBlock {
    ghost use Rattle.vast_script.specs.Kinds.{a_block};
    ghost use Rattle.vast_script.specs.Internal.Owned.{owned_where};

    ghost kind = { a_block };

    ghost is_own = { λ b handle. owned_where b handle.id _ };

    fn of(answer: Answer) -> Option<VastStatementBlock> {
        match answer {
            Answer::VastStatementBlock(handle) => Some(handle),
            _ => None,
        }
    }
}

impl Argument for Conditional {
    ghost use Rattle.vast_script.specs.Kinds.{a_conditional};
    ghost use Rattle.vast_script.specs.Internal.Owned.{owned_where};

    ghost kind = { a_conditional };

    ghost is_own = { λ b handle. owned_where b handle.id _ };

    fn of(answer: Answer) -> Option<Conditional> {
        match answer {
            Answer::Conditional(handle) => Some(handle),
            _ => None,
        }
    }
}

impl Argument for CaseStatement {
    ghost use Rattle.vast_script.specs.Kinds.{a_case};
    ghost use Rattle.vast_script.specs.Internal.Owned.{owned_where};

    ghost kind = { a_case };

    ghost is_own = { λ b handle. owned_where b handle.id _ };

    fn of(answer: Answer) -> Option<CaseStatement> {
        match answer {
            Answer::CaseStatement(handle) => Some(handle),
            _ => None,
        }
    }
}

impl Argument for GenerateLoop {
    ghost use Rattle.vast_script.specs.Kinds.{a_loop};
    ghost use Rattle.vast_script.specs.Internal.Owned.{owned_where};

    ghost kind = { a_loop };

    ghost is_own = { λ b handle. owned_where b handle.id _ };

    fn of(answer: Answer) -> Option<GenerateLoop> {
        match answer {
            Answer::GenerateLoop(handle) => Some(handle),
            _ => None,
        }
    }
}
