//! Calls of generate loops and their members.

ghost use Rattle.std.specs.Prelude.{◌≡◌, codes, cond, option_copied};
ghost use Rattle.vast_literal.specs.declared.kind.AlwaysKind.TheVariants.{AlwaysFF, AlwaysAt};
ghost use Rattle.vast_script.specs.Kinds.{a_loop};
ghost use Rattle.vast_script.specs.Statements.{add_always};
ghost use Rattle.vast_core.specs.declared.ast.scope.Scope.TheVariants.{Loop as ScopeLoop};
ghost use Rattle.vast_core.specs.Nests.{label_bytes};
ghost use Rattle.vast_script.specs.Outcome.{Replays};
ghost use Rattle.vast_script.specs.Loops.{loop_call};

use crate::answer::Answer;
use crate::answers::{
    conditional, generate_loop, localparam, nothing, refusable_always, statement,
};
use crate::arguments::{one, three, two};
use crate::fault::StepFault;
use crate::lists::{one_and_many, references};
use vast_steps::LoopStep;
use xlsynth_vast::{
    Comment, Def, Expr, GenerateLoop, InlineVerilogStatement, Instantiation, MacroStatement,
    VastFile, VastModule,
};

/// The label as a text, if there is one.
fn label_text(label: &Option<String>) -> Option<&str>
    ensures { option_copied result ≡ label_bytes label.now }
{
    match label {
        Some(text) => Some(text.as_str()),
        None => None,
    }
}

/// An `always_ff` of these events, or an `always @`.
fn generate_add_always(
    file: &mut VastFile,
    answers: &[Answer],
    is_ff: bool,
    owner: usize,
    events: &[usize],
) -> Result<Answer, StepFault>
    ensures { Replays file.old file.new answers.now result
        (add_always a_loop ScopeLoop (cond is_ff AlwaysFF AlwaysAt)
        (cond is_ff (codes "always_ff") (codes "always @")) owner events.now) }
{
    let (owner, events): (GenerateLoop, Vec<Expr>) = one_and_many(file, answers, owner, events)?;
    let events = references(file, &events)?;
    if is_ff {
        refusable_always(file.generate_add_always_ff(owner, &events))
    } else {
        refusable_always(file.generate_add_always_at(owner, &events))
    }
}

/// Makes the call, over the answers so far.
pub(crate) fn replay_loop(
    file: &mut VastFile,
    answers: &[Answer],
    step: &LoopStep,
) -> Result<Answer, StepFault>
    ensures { Replays file.old file.new answers.now result (loop_call step.now) }
{
    match step {
        LoopStep::AddGenerateLoop(owner, name, start, end, label) => {
            let (owner, start, end): (VastModule, Expr, Expr) = three(
                file, answers, *owner, *start, *end,
            )?;
            let label = label_text(label);
            generate_loop(file.add_generate_loop(owner, name, &start, &end, label))
        }
        LoopStep::GenerateAddGenerateLoop(owner, name, start, end, label) => {
            let (owner, start, end): (GenerateLoop, Expr, Expr) = three(
                file, answers, *owner, *start, *end,
            )?;
            let label = label_text(label);
            generate_loop(file.generate_add_generate_loop(owner, name, &start, &end, label))
        }
        LoopStep::GenerateGenvar(owner) => {
            let owner: GenerateLoop = one(file, answers, *owner)?;
            Ok(Answer::LogicRef(file.generate_genvar(owner)))
        }
        LoopStep::GenerateAddAlwaysComb(owner) => {
            let owner: GenerateLoop = one(file, answers, *owner)?;
            refusable_always(file.generate_add_always_comb(owner))
        }
        LoopStep::GenerateAddAlwaysStar(owner) => {
            let owner: GenerateLoop = one(file, answers, *owner)?;
            refusable_always(file.generate_add_always_star(owner))
        }
        LoopStep::GenerateAddAlwaysLatch(owner) => {
            let owner: GenerateLoop = one(file, answers, *owner)?;
            refusable_always(file.generate_add_always_latch(owner))
        }
        LoopStep::GenerateAddInitial(owner) => {
            let owner: GenerateLoop = one(file, answers, *owner)?;
            refusable_always(file.generate_add_initial(owner))
        }
        LoopStep::GenerateAddAlwaysFf(owner, events) => {
            generate_add_always(file, answers, true, *owner, events)
        }
        LoopStep::GenerateAddAlwaysAt(owner, events) => {
            generate_add_always(file, answers, false, *owner, events)
        }
        LoopStep::GenerateAddLocalparam(owner, name, value) => {
            let (owner, value): (GenerateLoop, Expr) = two(file, answers, *owner, *value)?;
            localparam(file.generate_add_localparam(owner, name, &value))
        }
        LoopStep::GenerateAddTypedLocalparam(owner, definition, value) => {
            let (owner, definition, value): (GenerateLoop, Def, Expr) = three(
                file,
                answers,
                *owner,
                *definition,
                *value,
            )?;
            localparam(file.generate_add_typed_localparam(owner, &definition, &value))
        }
        LoopStep::GenerateAddContinuousAssignment(owner, left, right) => {
            let (owner, left, right): (GenerateLoop, Expr, Expr) = three(
                file, answers, *owner, *left, *right,
            )?;
            statement(file.generate_add_continuous_assignment(owner, &left, &right))
        }
        LoopStep::GenerateAddConditional(owner, condition) => {
            let (owner, condition): (GenerateLoop, Expr) = two(file, answers, *owner, *condition)?;
            conditional(file.generate_add_conditional(owner, &condition))
        }
        LoopStep::GenerateAddBlankLine(owner) => {
            let owner: GenerateLoop = one(file, answers, *owner)?;
            nothing(file.generate_add_blank_line(owner))
        }
        LoopStep::GenerateAddComment(owner, part) => {
            let (owner, part): (GenerateLoop, Comment) = two(file, answers, *owner, *part)?;
            nothing(file.generate_add_comment(owner, &part))
        }
        LoopStep::GenerateAddInstantiation(owner, part) => {
            let (owner, part): (GenerateLoop, Instantiation) = two(file, answers, *owner, *part)?;
            nothing(file.generate_add_instantiation(owner, &part))
        }
        LoopStep::GenerateAddInlineStatement(owner, part) => {
            let (owner, part): (GenerateLoop, InlineVerilogStatement) = two(
                file, answers, *owner, *part,
            )?;
            nothing(file.generate_add_inline_statement(owner, &part))
        }
        LoopStep::GenerateAddMacroStatement(owner, part) => {
            let (owner, part): (GenerateLoop, MacroStatement) = two(file, answers, *owner, *part)?;
            nothing(file.generate_add_macro_statement(owner, &part))
        }
    }
}
