//! Case statements (IEEE 1800-2017, 12.5), as in the crate `xlsynth-vast`, and `casex`, which that crate has not.

ghost use Rattle.std.specs.Prelude.{None, Some};
ghost use Rattle.vast_core.specs.Bench.{OwnsBlock, OwnsExpr, OwnsCase};
ghost use Rattle.vast_core.specs.declared.node.Statement.TheVariants.{Case as CasesStatement};
ghost use Rattle.vast_core.specs.Growth.{Builds};
ghost use Rattle.vast_core.specs.Containers.{next_block, next_case, with_case, with_statement, with_case_arm, with_case_unique};
ghost use Rattle.xlsynth_vast.specs.Keeps.{Keeps};
ghost use Rattle.xlsynth_vast.specs.Refusals.{MayChange};
ghost use Rattle.xlsynth_vast.specs.Cases.{may_be_unique};

use crate::file::VastFile;
use std::alloc::AllocError;
use vast_core::{CaseKind, CaseStatement, Expr, VastFileType, VastStatementBlock};
use vast_literal::{VastError, VastFault};

impl VastFile {
    /// A `case` statement without arms, as the block's last statement.
    ///
    /// # Errors
    /// `AllocError` where a growth was refused; the file is unchanged.
    pub fn block_add_case(
        &mut self,
        block: VastStatementBlock,
        selector: &Expr,
    ) -> Result<CaseStatement, AllocError>
        requires block { OwnsBlock self.old block }
        requires selector { OwnsExpr self.old selector.now }
        ensures built { Builds self.old self.new result next_case
            (λ b. with_statement block (CasesStatement (next_case b))
            (with_case CaseKind.Case selector.now b)) }
        ensures kept { Keeps self.old self.new }
    {
        self.ast.append_block_case(block, CaseKind::Case, *selector)
    }

    /// A `casez` statement without arms, as the block's last statement.
    ///
    /// # Errors
    /// `AllocError` where a growth was refused; the file is unchanged.
    pub fn block_add_casez(
        &mut self,
        block: VastStatementBlock,
        selector: &Expr,
    ) -> Result<CaseStatement, AllocError>
        requires block { OwnsBlock self.old block }
        requires selector { OwnsExpr self.old selector.now }
        ensures built { Builds self.old self.new result next_case
            (λ b. with_statement block (CasesStatement (next_case b))
            (with_case CaseKind.CaseZ selector.now b)) }
        ensures kept { Keeps self.old self.new }
    {
        self.ast
            .append_block_case(block, CaseKind::CaseZ, *selector)
    }

    /// A `casex` statement without arms, as the block's last statement.
    ///
    /// # Errors
    /// `AllocError` where a growth was refused; the file is unchanged.
    pub fn block_add_casex(
        &mut self,
        block: VastStatementBlock,
        selector: &Expr,
    ) -> Result<CaseStatement, AllocError>
        requires block { OwnsBlock self.old block }
        requires selector { OwnsExpr self.old selector.now }
        ensures built { Builds self.old self.new result next_case
            (λ b. with_statement block (CasesStatement (next_case b))
            (with_case CaseKind.CaseX selector.now b)) }
        ensures kept { Keeps self.old self.new }
    {
        self.ast
            .append_block_case(block, CaseKind::CaseX, *selector)
    }

    /// An arm with this label and an empty block, as the case statement's last; returns the block.
    ///
    /// # Errors
    /// `AllocError` where a growth was refused; the file is unchanged.
    pub fn case_add_item(
        &mut self,
        case: CaseStatement,
        pattern: &Expr,
    ) -> Result<VastStatementBlock, AllocError>
        requires case { OwnsCase self.old case }
        requires pattern { OwnsExpr self.old pattern.now }
        ensures built { Builds self.old self.new result next_block
            (with_case_arm case (Some pattern.now)) }
        ensures kept { Keeps self.old self.new }
    {
        self.ast.case_add_arm(case, Some(*pattern))
    }

    /// A `default` arm with an empty block, as the case statement's last; returns the block. There may be more than
    /// one.
    ///
    /// # Errors
    /// `AllocError` where a growth was refused; the file is unchanged.
    pub fn case_add_default(
        &mut self,
        case: CaseStatement,
    ) -> Result<VastStatementBlock, AllocError>
        requires case { OwnsCase self.old case }
        ensures built { Builds self.old self.new result next_block (with_case_arm case None) }
        ensures kept { Keeps self.old self.new }
    {
        self.ast.case_add_arm(case, None)
    }

    /// Makes the case statement `unique`, or not. It takes no memory.
    ///
    /// # Errors
    /// `Refused` where it is to be `unique` in a file of Verilog: `unique case requires SystemVerilog`. `Memory` where
    /// memory for these words was refused. The file is unchanged.
    pub fn case_set_unique(&mut self, case: CaseStatement, unique: bool) -> Result<(), VastFault>
        requires { OwnsCase self.old case }
        ensures built { MayChange self.old self.new result (λ b. may_be_unique b.file_type unique)
            (with_case_unique case unique) }
        ensures kept { Keeps self.old self.new }
    {
        if unique && self.ast.file_type() == VastFileType::Verilog {
            let words = "unique case requires SystemVerilog";
            let text = String::from_str(self.ast.allocator(), words)?;
            return Err(VastFault::Refused(VastError(text)));
        }
        self.ast.case_set_unique(case, unique);
        Ok(())
    }
}
