//! Whose handles are whose, for each kind of handle.

use std::alloc::{AllocError, Global};
use std::process::Abort;
use std::test::Fail;
use vast_script::{
    Answer, ArtifactStep, ExpressionStep, LoopStep, ModuleStep, StatementStep, Step, TypeStep,
    replay,
};
use xlsynth_vast::{DataKind, FileIds, VastFile, VastFileType};

/// Two files with ids of one source.
fn two_files<R: Abort>(rt: &R, alloc: Global) -> (VastFile, VastFile) {
    let mut ids = FileIds::new();
    let one = VastFile::new(alloc, VastFileType::SystemVerilog, &mut ids).expect(rt, "an id");
    let other = VastFile::new(alloc, VastFileType::SystemVerilog, &mut ids).expect(rt, "an id");
    (one, other)
}

/// A module, a type, a port's name, a literal and what is made of it: the answers 0 to 6.
fn add_expressions(alloc: Global, steps: &mut Vec<Step>) -> Result<(), AllocError> {
    let (module, port) = (String::from_str(alloc, "m")?, String::from_str(alloc, "a")?);
    steps.push(Step::Modules(ModuleStep::AddModule(module)))?;
    steps.push(Step::Types(TypeStep::MakeScalarType))?;
    steps.push(Step::Modules(ModuleStep::AddInput(0, port, 1)))?;
    steps.push(Step::Expressions(ExpressionStep::MakeUnsizedOneLiteral))?;
    steps.push(Step::Expressions(ExpressionStep::MakeIndexableExpression(3)))?;
    steps.push(Step::Expressions(ExpressionStep::MakeIndex(4, 0)))?;
    steps.push(Step::Expressions(ExpressionStep::MakeSlice(4, 1, 0)))?;
    Ok(())
}

/// Parts that stand alone: the answers 7 to 12.
fn add_artifacts(alloc: Global, steps: &mut Vec<Step>) -> Result<(), AllocError> {
    let (inline, comment) = (
        String::from_str(alloc, "text")?,
        String::from_str(alloc, "note")?,
    );
    steps.push(Step::Artifacts(ArtifactStep::MakeBlankLine))?;
    steps.push(Step::Artifacts(ArtifactStep::MakeInlineVerilogStatement(inline)))?;
    steps.push(Step::Artifacts(ArtifactStep::MakeComment(comment)))?;
    steps.push(Step::Artifacts(ArtifactStep::MakeContinuousAssignment(3, 3)))?;
    steps.push(Step::Artifacts(ArtifactStep::MakeBlockingAssignment(3, 3)))?;
    let name = String::from_str(alloc, "D")?;
    steps.push(Step::Artifacts(ArtifactStep::MakeDef(name, DataKind::Logic, 1)))?;
    Ok(())
}

/// An instance, a macro and its statement: the answers 13 to 15.
fn add_calls(alloc: Global, steps: &mut Vec<Step>) -> Result<(), AllocError> {
    let (module, instance) = (
        String::from_str(alloc, "sub")?,
        String::from_str(alloc, "u0")?,
    );
    steps.push(Step::Artifacts(ArtifactStep::MakeInstantiation(
        module,
        instance,
        Vec::new(alloc),
        Vec::new(alloc),
        Vec::new(alloc),
        Vec::new(alloc),
    )))?;
    let name = String::from_str(alloc, "M")?;
    steps.push(Step::Expressions(ExpressionStep::MakeMacroRef(name)))?;
    steps.push(Step::Artifacts(ArtifactStep::MakeMacroStatement(14, true)))?;
    Ok(())
}

/// An always block, its statements, a loop, parameters and a function: the answers 16 to 23.
fn add_members(alloc: Global, steps: &mut Vec<Step>) -> Result<(), AllocError> {
    steps.push(Step::Statements(StatementStep::AddAlwaysComb(0)))?;
    steps.push(Step::Statements(StatementStep::StatementBlock(16)))?;
    steps.push(Step::Statements(StatementStep::BlockAddCond(17, 3)))?;
    steps.push(Step::Statements(StatementStep::BlockAddCase(17, 3)))?;
    let (genvar, function) = (String::from_str(alloc, "i")?, String::from_str(alloc, "f")?);
    steps.push(Step::Loops(LoopStep::AddGenerateLoop(0, genvar, 3, 3, None)))?;
    steps.push(Step::Statements(StatementStep::AddFunction(0, function, 1)))?;
    let (open, local) = (String::from_str(alloc, "P")?, String::from_str(alloc, "L")?);
    steps.push(Step::Modules(ModuleStep::AddParameter(0, open, 3)))?;
    steps.push(Step::Modules(ModuleStep::AddLocalparam(0, local, 3)))?;
    Ok(())
}

/// Whether the answer is a handle of the file.
fn owns(file: &VastFile, answer: &Answer) -> bool {
    match answer {
        Answer::VastModule(handle) => file.owns(handle),
        Answer::VastFunction(handle) => file.owns(handle),
        Answer::ModulePort(handle) => file.owns(handle),
        Answer::VastDataType(handle) => file.owns(handle),
        Answer::LogicRef(handle) => file.owns(handle),
        Answer::Expr(handle) => file.owns(handle),
        Answer::IndexableExpr(handle) => file.owns(handle),
        Answer::Slice(handle) => file.owns(handle),
        Answer::Index(handle) => file.owns(handle),
        Answer::Instantiation(handle) => file.owns(handle),
        Answer::BlankLine(handle) => file.owns(handle),
        Answer::InlineVerilogStatement(handle) => file.owns(handle),
        Answer::Comment(handle) => file.owns(handle),
        Answer::MacroRef(handle) => file.owns(handle),
        Answer::MacroStatement(handle) => file.owns(handle),
        Answer::ContinuousAssignment(handle) => file.owns(handle),
        Answer::VastAlwaysBase(handle) => file.owns(handle),
        Answer::VastStatementBlock(handle) => file.owns(handle),
        Answer::VastStatement(handle) => file.owns(handle),
        Answer::Conditional(handle) => file.owns(handle),
        Answer::CaseStatement(handle) => file.owns(handle),
        Answer::GenerateLoop(handle) => file.owns(handle),
        Answer::ParameterRef(handle) => file.owns(handle),
        Answer::LocalparamRef(handle) => file.owns(handle),
        Answer::Def(handle) => file.owns(handle),
        Answer::Nothing => false,
    }
}

/// Steps whose answers are handles, one of each kind but a port's.
fn handle_steps(alloc: Global) -> Result<Vec<Step>, AllocError> {
    let mut steps = Vec::new(alloc);
    add_expressions(alloc, &mut steps)?;
    add_artifacts(alloc, &mut steps)?;
    add_calls(alloc, &mut steps)?;
    add_members(alloc, &mut steps)?;
    Ok(steps)
}

#[test]
fn handles_are_the_files_that_made_them(rt: HostRuntime) -> Result<(), Fail> {
    let (mut one, other) = two_files(&rt, rt.alloc());
    let steps = handle_steps(rt.alloc())?;
    let answers = replay(&mut one, &steps).unwrap_or(Vec::new(rt.alloc()));
    assert_eq!(rt; answers.len(), 24);
    for answer in &answers {
        assert!(rt; owns(&one, answer), "{answer:?}");
        assert!(rt; !owns(&other, answer), "{answer:?}");
    }
    Ok(())
}

#[test]
fn ports_are_the_files_that_made_them(rt: HostRuntime) -> Result<(), Fail> {
    let (mut one, other) = two_files(&rt, rt.alloc());
    let m = one.add_module("m")?;
    let bit = one.make_scalar_type()?;
    assert!(rt; one.owns(&m));
    assert!(rt; one.owns(&bit));
    assert!(rt; one.name_is_free(m, "a"));
    one.add_input(m, "a", &bit)?;
    assert!(rt; one.owns(&m));
    for port in one.module_ports(m)? {
        assert!(rt; one.owns(&port) && !other.owns(&port));
    }
    Ok(())
}

#[test]
fn handles_of_equal_ids_are_told_by_what_the_files_hold(rt: HostRuntime) -> Result<(), Fail> {
    let (mut one, _) = two_files(&rt, rt.alloc());
    let (mut other, _) = two_files(&rt, rt.alloc());
    let m = one.add_module("m")?;
    assert!(rt; !other.owns(&m));
    other.add_module("n")?;
    assert!(rt; other.owns(&m));
    let comment = one.make_comment("note")?;
    let blank = other.make_blank_line()?;
    assert!(rt; other.owns(&blank));
    assert!(rt; !other.owns(&comment));
    Ok(())
}
