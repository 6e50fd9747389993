//! Builder calls as values: each variant is the call of `VastFile` that has its name, with its arguments
//! in order, where a `usize` that stands for a handle is the number of an earlier step, counted from 0.

use vast_literal::{DataKind, LiteralFormat};

/// One call.
#[derive(Drop)]
pub enum Step {
    /// Calls that make an expression of one or two operands.
    Operators(OperatorStep),
    /// Calls that make any other expression.
    Expressions(ExpressionStep),
    /// Calls that make a type.
    Types(TypeStep),
    /// Calls of the file's items, and of modules with their ports, declarations and parameters.
    Modules(ModuleStep),
    /// Calls of generate loops and their members.
    Loops(LoopStep),
    /// Calls of functions, always blocks, conditionals and statements.
    Statements(StatementStep),
    /// Calls of parts that are made beforehand, and that add them to modules.
    Artifacts(ArtifactStep),
}

/// Calls that make an expression of one or two operands.
#[derive(Drop)]
pub enum OperatorStep {
    MakeNot(usize),
    MakeBitwiseNot(usize),
    MakeNegate(usize),
    MakeLogicalNot(usize),
    MakeAndReduce(usize),
    MakeOrReduce(usize),
    MakeXorReduce(usize),
    MakeAdd(usize, usize),
    MakeSub(usize, usize),
    MakeMul(usize, usize),
    MakeDiv(usize, usize),
    MakeMod(usize, usize),
    MakePower(usize, usize),
    MakeBitwiseAnd(usize, usize),
    MakeBitwiseOr(usize, usize),
    MakeBitwiseXor(usize, usize),
    MakeShll(usize, usize),
    MakeShra(usize, usize),
    MakeShrl(usize, usize),
    MakeNe(usize, usize),
    MakeCaseNe(usize, usize),
    MakeEq(usize, usize),
    MakeCaseEq(usize, usize),
    MakeGe(usize, usize),
    MakeGt(usize, usize),
    MakeLe(usize, usize),
    MakeLt(usize, usize),
    MakeLogicalAnd(usize, usize),
    MakeLogicalOr(usize, usize),
    MakeNeX(usize, usize),
    MakeEqX(usize, usize),
}

/// Calls that make any other expression.
#[derive(Drop)]
pub enum ExpressionStep {
    MakeLiteral(String, LiteralFormat),
    MakeBinaryPattern(String),
    MakeUnsizedDecimalLiteral(i32),
    MakeStringLiteral(String),
    MakeUnsizedOneLiteral,
    MakeUnsizedZeroLiteral,
    MakeUnsizedXLiteral,
    MakeName(String),
    MakeIndexableExpression(usize),
    MakeSlice(usize, i64, i64),
    MakeIndex(usize, i64),
    MakeSliceExpr(usize, usize, usize),
    MakeIndexExpr(usize, usize),
    MakeIndexedPartSelect(usize, usize, i64),
    MakeFunctionCall(String, Vec<usize>),
    MakeConcat(Vec<usize>),
    MakeReplicatedConcat(usize, Vec<usize>),
    MakeReplicatedConcatI64(i64, Vec<usize>),
    MakeArrayAssignmentPattern(Vec<usize>),
    MakeTernary(usize, usize, usize),
    MakeWidthCast(usize, usize),
    MakeTypeCast(usize, usize),
    MakePosEdge(usize),
    MakeNegEdge(usize),
    MakeMacroRef(String),
    MakeMacroRefWithArgs(String, Vec<usize>),
    MakeMember(usize, String),
}

/// Calls that make a type.
#[derive(Drop)]
pub enum TypeStep {
    MakeScalarType,
    MakeIntegerType(bool),
    MakeIntType(bool),
    MakeExternType(String),
    MakeExternPackageType(String, String),
    MakeBitVectorType(i64, bool),
    MakeBitVectorTypeExpr(usize, bool),
    MakePackedArrayType(usize, Vec<i64>),
    MakeUnpackedArrayType(usize, Vec<i64>),
    MakePackedArrayTypeExpr(usize, Vec<usize>),
    MakeUnpackedArrayTypeExpr(usize, Vec<usize>),
}

/// Calls of the file's items, and of modules with their ports, declarations and parameters.
#[derive(Drop)]
pub enum ModuleStep {
    AddInclude(String),
    AddBlankLine(usize),
    AddCommentText(String),
    AddModule(String),
    AddInput(usize, String, usize),
    AddOutput(usize, String, usize),
    AddInout(usize, String, usize),
    AddLogicInput(usize, String, usize),
    AddLogicOutput(usize, String, usize),
    AddWire(usize, String, usize),
    AddReg(usize, String, usize),
    AddLogic(usize, String, usize),
    AddParameterPort(usize, String, usize),
    AddTypedParameterPort(usize, String, usize, usize),
    AddParameter(usize, String, usize),
    AddParameterWithDef(usize, usize, usize),
    AddLocalparam(usize, String, usize),
    AddIntLocalparam(usize, String, usize),
    AddTypedLocalparam(usize, usize, usize),
    HoistModuleDeclarations(usize, usize),
    AddImport(usize, String),
    AddFileImport(String),
    AddEnumTypedef(usize, String, usize, Vec<String>, Vec<Option<usize>>),
    AddStructTypedef(usize, String, Vec<usize>),
    AddFileEnumTypedef(String, usize, Vec<String>, Vec<Option<usize>>),
    AddFileStructTypedef(String, Vec<usize>),
    AddVariable(usize, String, usize),
}

/// Calls of generate loops and their members.
#[derive(Drop)]
pub enum LoopStep {
    AddGenerateLoop(usize, String, usize, usize, Option<String>),
    GenerateAddGenerateLoop(usize, String, usize, usize, Option<String>),
    GenerateGenvar(usize),
    GenerateAddAlwaysComb(usize),
    GenerateAddAlwaysFf(usize, Vec<usize>),
    GenerateAddAlwaysAt(usize, Vec<usize>),
    GenerateAddLocalparam(usize, String, usize),
    GenerateAddTypedLocalparam(usize, usize, usize),
    GenerateAddContinuousAssignment(usize, usize, usize),
    GenerateAddConditional(usize, usize),
    GenerateAddBlankLine(usize),
    GenerateAddComment(usize, usize),
    GenerateAddInstantiation(usize, usize),
    GenerateAddInlineStatement(usize, usize),
    GenerateAddMacroStatement(usize, usize),
    GenerateAddAlwaysStar(usize),
    GenerateAddAlwaysLatch(usize),
    GenerateAddInitial(usize),
}

/// Calls of functions, always blocks, conditionals and statements.
#[derive(Drop)]
pub enum StatementStep {
    AddFunction(usize, String, usize),
    FunctionAddInput(usize, String, usize),
    FunctionAddLogicInput(usize, String, usize),
    FunctionAddReg(usize, String, usize),
    FunctionAddLogic(usize, String, usize),
    FunctionBody(usize),
    FunctionResult(usize),
    AddAlwaysFf(usize, Vec<usize>),
    AddAlwaysAt(usize, Vec<usize>),
    AddAlwaysComb(usize),
    StatementBlock(usize),
    BlockAddBlockingAssignment(usize, usize, usize),
    BlockAddNonblockingAssignment(usize, usize, usize),
    BlockAddContinuousAssignment(usize, usize, usize),
    BlockAddCommentText(usize, String),
    BlockAddInlineText(usize, String),
    BlockAddBlankLine(usize),
    AddConditional(usize, usize),
    BlockAddCond(usize, usize),
    ConditionalThenBlock(usize),
    ConditionalAddElseIf(usize, usize),
    ConditionalAddElse(usize),
    BlockAddCase(usize, usize),
    BlockAddCasez(usize, usize),
    BlockAddCasex(usize, usize),
    CaseAddItem(usize, usize),
    CaseAddDefault(usize),
    CaseSetUnique(usize, bool),
    AddAlwaysStar(usize),
    AddAlwaysLatch(usize),
    AddInitial(usize),
    BlockAddTaskCall(usize, usize),
    BlockAddFor(usize, String, usize, usize),
}

/// Calls of parts that are made beforehand, and that add them to modules.
#[derive(Drop)]
pub enum ArtifactStep {
    MakeDef(String, DataKind, usize),
    MakeBlankLine,
    MakeComment(String),
    MakeInlineVerilogStatement(String),
    MakeMacroStatement(usize, bool),
    MakeContinuousAssignment(usize, usize),
    MakeNonblockingAssignment(usize, usize),
    MakeBlockingAssignment(usize, usize),
    MakeInstantiation(String, String, Vec<String>, Vec<usize>, Vec<String>, Vec<Option<usize>>),
    AddMemberInstantiation(usize, usize),
    AddMemberContinuousAssignment(usize, usize),
    AddMemberBlankLine(usize, usize),
    AddMemberComment(usize, usize),
    AddMemberInlineStatement(usize, usize),
    AddMemberMacroStatement(usize, usize),
}
