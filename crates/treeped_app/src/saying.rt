//! The results for a page: the answers, and the traces that a mode asks for.
ghost use Rattle.std.specs.Prelude.{◌≡◌, All, length, map, option_map, IfOk, IfErr};
ghost use Rattle.css_read.specs.Places.{ArePlaced};
ghost use Rattle.usage_report.specs.Answers.{spent};
ghost use Rattle.usage_report.specs.Views.{answer_of, trace_of};
ghost use Rattle.dead_script.specs.Asked.{AreAsked, InOrder, by_number};
ghost use Rattle.jq_exact.specs.Room.{HasRoom};
ghost use Rattle.jq_exact.specs.Settling.{AreSettled, IsUnfolded};
ghost use Rattle.run_trace.specs.Traces.{AreTracked};
ghost use Rattle.judge.specs.Outcomes.{system_in};
ghost use Rattle.treeped_app.specs.Inputs as spec;
ghost use Rattle.treeped_app.specs.Inputs.{AreInputs, IsUnanswered, IsSaying};
ghost use Rattle.treeped_app.specs.MeansParts.{MeansSaid};
ghost use Rattle.treeped_app.specs.Modes.{AreJudgedOf, AreTracesIn, extra_in};
ghost use Rattle.treeped_app.specs.Runs.{Fit};
ghost use Rattle.treeped_app.specs.Views.{inputs_of, said_of, texts_of};

use crate::reading::{Inputs, Texts, read_all};
use crate::settling::settle_all;
use crate::tasks::Request;
use command_words::Mode;
use dead_script::{Asked, ask};
use judge::{Both, JudgeFault, judge_more};
use run_ends::{JudgeRefusal, Stop};
use run_trace::trace_answers;
use std::alloc::Global;
use tp_base::NoMemory;
use usage_report::{Answer, RunTrace};

/// The results for a page. They are its inputs, an answer for each item of its sheet, and an answer for each further guard. For each
/// further goal they have the number of its answer among the latter. For whole runs each item that shows steps has a trace.
#[derive(Drop)]
pub(crate) struct Said {
    pub(crate) inputs: Inputs,
    pub(crate) items: Vec<Answer>,
    pub(crate) by_guard: Vec<Answer>,
    pub(crate) numbers: Vec<usize>,
    pub(crate) traces: Vec<Option<RunTrace>>,
}

// The guards of a mode's further goals, besides the sheet's selectors, and for each goal the number of its guard.
fn extra_guards(alloc: Global, mode: Mode, inputs: &Inputs) -> Result<Asked, NoMemory>
    ensures { IfOk result (λ a. AreAsked (extra_in mode (inputs_of inputs.now)) a.guards.items a.numbers.items) }
{
    match mode {
        Mode::Dead => ask(alloc, &inputs.script.stmts),
        _ => Ok(Asked {
            guards: Vec::new(alloc),
            numbers: Vec::new(alloc),
        }),
    }
}

// The reason to stop where there are no answers.
fn judging_stop(fault: JudgeFault) -> Stop
    ensures { result ≡ spec.judging_stop fault }
{
    match fault {
        JudgeFault::TooManyAtoms => Stop::Judging(JudgeRefusal::TooManyAtoms),
        JudgeFault::TooManyVisible => Stop::Judging(JudgeRefusal::TooManyVisible),
        JudgeFault::Memory => Stop::NoMemory,
    }
}

// The answers for the items of a sheet and for the further guards, and for each further goal the number of its answer among the
// latter.
#[derive(Drop)]
struct Answered {
    both: Both,
    numbers: Vec<usize>,
}

// The answers by the statements that are judged. The cost is that of `judge_more`.
fn answers_of(alloc: Global, request: &Request<'_>, inputs: &Inputs) -> Result<Answered, Stop>
    requires given { AreInputs (inputs_of inputs.now) }
    ensures answers { IfOk result (λ a. AreJudgedOf request.now.mode request.now.limits.now (inputs_of inputs.now) (map answer_of a.both.items) (by_number spent (map answer_of a.both.extra) a.numbers.items)) }
    ensures in_order { IfOk result (λ a. InOrder 0 a.numbers.items (length a.both.extra)) }
    ensures system { IfOk result (λ a. a.both.system ≡ system_in (inputs_of inputs.now).stmts (inputs_of inputs.now).sheet.items (extra_in request.now.mode (inputs_of inputs.now)) (length (inputs_of inputs.now).names)) }
    ensures stop { IfErr result (λ e. IsUnanswered request.now.mode (inputs_of inputs.now) e) }
{
    let asked = extra_guards(alloc, request.mode, inputs)?;
    let numbers = asked.numbers;
    match judge_more(
        alloc,
        &inputs.page,
        &inputs.sheet,
        &inputs.script.stmts,
        asked.guards,
        &inputs.atoms,
        request.limits,
    ) {
        Ok(both) => Ok(Answered { both, numbers }),
        Err(fault) => Err(judging_stop(fault)),
    }
}

// The traces of whole runs, where a mode asks for them.
fn traces_of(
    alloc: Global,
    mode: Mode,
    inputs: &Inputs,
    answers: &[Answer],
) -> Result<Vec<Option<RunTrace>>, NoMemory>
    requires tracked { AreTracked (inputs_of inputs.now).tree (inputs_of inputs.now).stmts (inputs_of inputs.now).sheet.items (map answer_of answers.now) }
    ensures { IfOk result (λ v. AreTracesIn mode (inputs_of inputs.now) (map answer_of answers.now) (map (option_map trace_of) v.items)) }
{
    let items = inputs.sheet.items.items();
    match mode {
        Mode::Runs => trace_answers(alloc, &inputs.page, &inputs.script.stmts, items, answers),
        _ => Ok(Vec::new(alloc)),
    }
}

// The results for a page by its answers, without traces.
fn said_by(alloc: Global, inputs: Inputs, answered: Answered) -> Result<Said, NoMemory>
    requires room { HasRoom (inputs_of inputs).tree (inputs_of inputs).exact }
    requires unfolded { All (λ a. IsUnfolded (inputs_of inputs).tree answered.both.system (answer_of a)) answered.both.items }
    ensures inputs { IfOk result (λ s. inputs_of s.inputs ≡ inputs_of inputs) }
    ensures sheet { IfOk result (λ s. s.inputs.sheet ≡ inputs.sheet) }
    ensures settled { IfOk result (λ s. AreSettled (inputs_of inputs).tree (inputs_of inputs).exact answered.both.system (map answer_of answered.both.items) (map answer_of s.items.items)) }
    ensures by_guard { IfOk result (λ s. s.by_guard.items ≡ answered.both.extra) }
    ensures numbers { IfOk result (λ s. s.numbers.items ≡ answered.numbers.items) }
{
    let both = answered.both;
    let numbers = answered.numbers;
    let items = both.items.into_items();
    let script = inputs.script;
    let settled = settle_all(alloc, &inputs.page, script, &both.system, items)?;
    let inputs = Inputs {
        page: inputs.page,
        sheet: inputs.sheet,
        script: settled.script,
        atoms: inputs.atoms,
    };
    Ok(Said {
        inputs,
        items: settled.items,
        by_guard: both.extra.into_items(),
        numbers,
        traces: Vec::new(alloc),
    })
}

/// Reads a page's texts, and judges the sheet's selectors and the further goals of the mode. `page` is the page's number where there
/// are several pages.
pub(crate) fn say(
    alloc: Global,
    request: &Request<'_>,
    number: Option<u32>,
    texts: &Texts<'_>,
) -> Result<Said, Stop>
    requires fit { Fit (texts_of texts.now) }
    ensures means { IfOk result (λ s. MeansSaid request.now.mode (said_of (texts_of texts.now) s)) }
    ensures said { IsSaying request.now.mode request.now.limits.now number (texts_of texts.now) result }
    ensures placed { IfOk result (λ s. ArePlaced (length (texts_of texts.now).sheet) s.inputs.sheet.items) }
    ensures in_order { IfOk result (λ s. InOrder 0 s.numbers.items (length s.by_guard.items)) }
{
    let inputs = read_all(alloc, request.mode, number, texts)?;
    let answered = answers_of(alloc, request, &inputs)?;
    let mut said = said_by(alloc, inputs, answered)?;
    let traces = traces_of(alloc, request.mode, &said.inputs, &said.items)?;
    said.traces = traces;
    Ok(said)
}
