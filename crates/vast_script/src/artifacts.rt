//! Calls of parts that are made beforehand, and that add them to modules.

ghost use Rattle.vast_script.specs.Outcome.{Replays};
ghost use Rattle.vast_script.specs.Artifacts.{artifact_call};

use crate::answer::Answer;
use crate::answers::{
    blank_line, comment, continuous, definition, inline, macro_statement, nothing, statement,
};
use crate::arguments::{one, two};
use crate::fault::StepFault;
use crate::instances::make_instantiation;
use vast_steps::ArtifactStep;
use xlsynth_vast::{
    BlankLine, Comment, ContinuousAssignment, Expr, InlineVerilogStatement, Instantiation,
    MacroRef, MacroStatement, VastDataType, VastFile, VastModule,
};

/// Makes the call, over the answers so far.
pub(crate) fn replay_artifact(
    file: &mut VastFile,
    answers: &[Answer],
    step: &ArtifactStep,
) -> Result<Answer, StepFault>
    ensures { Replays file.old file.new answers.now result (artifact_call step.now) }
{
    match step {
        ArtifactStep::MakeDef(name, kind, data_type) => {
            let data_type: VastDataType = one(file, answers, *data_type)?;
            definition(file.make_def(name, *kind, &data_type))
        }
        ArtifactStep::MakeBlankLine => blank_line(file.make_blank_line()),
        ArtifactStep::MakeComment(text) => comment(file.make_comment(text)),
        ArtifactStep::MakeInlineVerilogStatement(text) => {
            inline(file.make_inline_verilog_statement(text))
        }
        ArtifactStep::MakeMacroStatement(macro_ref, semicolon) => {
            let macro_ref: MacroRef = one(file, answers, *macro_ref)?;
            macro_statement(file.make_macro_statement(&macro_ref, *semicolon))
        }
        ArtifactStep::MakeContinuousAssignment(left, right) => {
            let (left, right): (Expr, Expr) = two(file, answers, *left, *right)?;
            continuous(file.make_continuous_assignment(&left, &right))
        }
        ArtifactStep::MakeNonblockingAssignment(left, right) => {
            let (left, right): (Expr, Expr) = two(file, answers, *left, *right)?;
            statement(file.make_nonblocking_assignment(&left, &right))
        }
        ArtifactStep::MakeBlockingAssignment(left, right) => {
            let (left, right): (Expr, Expr) = two(file, answers, *left, *right)?;
            statement(file.make_blocking_assignment(&left, &right))
        }
        ArtifactStep::MakeInstantiation(
            module_name,
            instance_name,
            parameters,
            values,
            ports,
            wires,
        ) => make_instantiation(
            file,
            answers,
            module_name,
            instance_name,
            parameters,
            values,
            ports,
            wires,
        ),
        ArtifactStep::AddMemberInstantiation(owner, part) => {
            let (owner, part): (VastModule, Instantiation) = two(file, answers, *owner, *part)?;
            nothing(file.add_member_instantiation(owner, part))
        }
        ArtifactStep::AddMemberContinuousAssignment(owner, part) => {
            let (owner, part): (VastModule, ContinuousAssignment) = two(
                file, answers, *owner, *part,
            )?;
            nothing(file.add_member_continuous_assignment(owner, part))
        }
        ArtifactStep::AddMemberBlankLine(owner, part) => {
            let (owner, part): (VastModule, BlankLine) = two(file, answers, *owner, *part)?;
            nothing(file.add_member_blank_line(owner, part))
        }
        ArtifactStep::AddMemberComment(owner, part) => {
            let (owner, part): (VastModule, Comment) = two(file, answers, *owner, *part)?;
            nothing(file.add_member_comment(owner, part))
        }
        ArtifactStep::AddMemberInlineStatement(owner, part) => {
            let (owner, part): (VastModule, InlineVerilogStatement) = two(
                file, answers, *owner, *part,
            )?;
            nothing(file.add_member_inline_statement(owner, part))
        }
        ArtifactStep::AddMemberMacroStatement(owner, part) => {
            let (owner, part): (VastModule, MacroStatement) = two(file, answers, *owner, *part)?;
            nothing(file.add_member_macro_statement(owner, part))
        }
    }
}
