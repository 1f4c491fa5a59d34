//! The steps that answers list.
ghost use Rattle.std.specs.Prelude.{◌≡◌, ℕ, List, ◌++◌, IsTrue, IfSome};
ghost use Rattle.css_read.specs.Views.{outcome_of};
ghost use Rattle.jq_sem.specs.WholeRuns.{runs_of};
ghost use Rattle.sel_text.specs.Views.{selector_of};
ghost use Rattle.run_trace.specs.Known.{IsShownTo};
ghost use Rattle.run_trace.specs.Shown.{IsShownIn};
ghost use Rattle.run_trace.specs.Traces.{shown_in};
ghost use Rattle.usage_report.specs.Views.{answer_of};

use css_read::{Outcome, SheetItem};
use jq_stmts::Stmt;
use sel_text::Selector;
use tree_sem::{Step, Tree};
use usage_report::Answer;

/// What traces are made for.
#[derive(Drop)]
pub(crate) struct Task<'a> {
    pub page: &'a Tree,
    pub stmts: &'a [Stmt],
    pub items: &'a [SheetItem],
    pub answers: &'a [Answer],
}

/// A selector, and the steps that its answer shows.
#[derive(Drop)]
pub(crate) struct Shown<'a> {
    pub selector: &'a Selector,
    pub steps: &'a [Step],
}

/// What the answer of an item shows.
pub(crate) fn shown_at<'a>(task: &Task<'a>, item: usize) -> Option<Shown<'a>>
    ensures { IfSome result (IsShownTo task.now item) }
{
    let entry = task.items.get(item)?;
    let answer = task.answers.get(item)?;
    shown_by(&entry.outcome, answer)
}

fn shown_by<'a>(outcome: &'a Outcome, answer: &'a Answer) -> Option<Shown<'a>>
    ensures { IfSome result (λ s. IsShownIn (shown_in (outcome_of outcome.now) (answer_of answer.now)) (selector_of s.selector.now) s.steps.now) }
{
    match (outcome, answer) {
        (
            Outcome::Judged(selector),
            Answer::Used {
                shown: Some(unfolded),
                ..
            },
        ) => Some(Shown {
            selector,
            steps: unfolded.steps.items(),
        }),
        _ => None,
    }
}

/// Whether the statements of the first steps are those of these numbers.
pub(crate) fn begins_with(steps: &[Step], runs: &[u32]) -> bool
    ensures { IsTrue result → (rest : List ℕ) × (runs_of steps.now ≡ runs.now ++ rest) }
{
    if steps.len() < runs.len() {
        return false;
    }
    'runs: for i in 0..runs.len() {
        if steps[i].stmt != runs[i] {
            return false;
        }
    }
    true
}

/// Whether the statements of the steps are those of these numbers.
pub(crate) fn has_runs(steps: &[Step], runs: &[u32]) -> bool
    ensures { IsTrue result → runs_of steps.now ≡ runs.now }
{
    steps.len() <= runs.len() && begins_with(steps, runs)
}

/// How many of the first steps have the same statements. Time alone rests on it.
pub(crate) fn shared_length(steps: &[Step], others: &[Step]) -> usize {
    let most = steps.len().min(others.len());
    'steps: for i in 0..most {
        if steps[i].stmt != others[i].stmt {
            return i;
        }
    }
    most
}
