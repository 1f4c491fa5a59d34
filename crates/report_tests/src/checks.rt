//! Whether answers can be written: there is one for each item or probe, and the statements of the steps that they show are there.
ghost use Rattle.std.specs.Prelude.{◌≡◌, ◌<◌, ◌↔◌, length, map, All, IsTrue};
ghost use Rattle.css_read.specs.Views.{outcome_of, item_of};
ghost use Rattle.usage_report.specs.Views.{answer_of};
ghost use Rattle.usage_report.specs.Reportable.{IsReportable, AreReportable};
ghost use Rattle.dead_script.specs.Verdicts.{IsProbed};

use css_read::{Outcome, SheetItem};
use tp_base::Place;
use tree_sem::Step;
use usage_report::Answer;

fn is_there(step: &Step, count: usize) -> bool
    ensures { IsTrue result ↔ step.now.stmt < count }
{
    (step.stmt as usize) < count
}

fn are_there(steps: &[Step], count: usize) -> bool
    ensures { IsTrue result → All (λ s. s.stmt < count) steps.now }
{
    steps.iter().all(|step| is_there(step, count))
}

/// Whether the answer can be one on a probe.
pub fn is_probed(answer: &Answer, places: &[Place]) -> bool
    ensures { IsTrue result → IsProbed places.now (answer_of answer.now) }
{
    match answer {
        Answer::Used {
            shown: Some(unfolded),
            ..
        } => are_there(unfolded.steps.items(), places.len()),
        // No test has an answer that may be one.
        Answer::Maybe { .. } | Answer::Skipped(..) => false,
        _ => true,
    }
}

pub fn are_probed(answers: &[Answer], places: &[Place]) -> bool
    ensures { IsTrue result → All (λ a. IsProbed places.now (answer_of a)) answers.now }
{
    let mut rest = answers;
    'answers: while let Some((answer, later)) = rest.split_first() {
        if !is_probed(answer, places) {
            return false;
        }
        rest = later;
    }
    true
}

// No test has an item that is skipped.
#[tactic(auto, using(crate::proofs::AnswerLemmas::reportable))]
fn is_reportable(outcome: &Outcome, answer: &Answer, places: &[Place]) -> bool
    ensures { IsTrue result → IsReportable places.now (outcome_of outcome.now) (answer_of answer.now) }
{
    match outcome {
        Outcome::Judged(_) => is_probed(answer, places),
        Outcome::Skipped(..) => false,
    }
}

/// Whether there is an answer for each item, and no other.
pub fn are_reportable(items: &[SheetItem], answers: &[Answer], places: &[Place]) -> bool
    ensures { IsTrue result → AreReportable places.now (map item_of items.now) (map answer_of answers.now) }
{
    match (items.split_first(), answers.split_first()) {
        (None, None) => true,
        (Some((item, others)), Some((answer, later))) => {
            is_reportable(&item.outcome, answer, places) && are_reportable(others, later, places)
        }
        _ => false,
    }
}
