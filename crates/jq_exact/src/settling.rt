//! Answers for the judged statements, settled by an exact replay of their steps.
ghost use Rattle.std.specs.Prelude.{◌≡◌, ◌≤◌, All, length, map, IfOk, IfSome};
ghost use Rattle.limits.specs.declared.budgets.TheConstants.{MOST_LIST};
ghost use Rattle.jq_stmts.specs.Sharp.{is_sharp_statement};
ghost use Rattle.jq_stmts.specs.SharpViews.{exacts_of};
ghost use Rattle.proof_check.specs.declared.proofs.Proof as check;
ghost use Rattle.usage_report.specs.Answers.{used};
ghost use Rattle.usage_report.specs.Views.{answer_of};
ghost use Rattle.jq_exact.specs.Room.{HasRoom};
ghost use Rattle.jq_exact.specs.Settling.{AreSettled, IsSettled, IsReplayed, IsOutcome, IsUnfolded, broken_by, settled_by};

use crate::replays::replay_exact;
use crate::sharp_proofs::has_sharp_step;
use crate::sharp_statements::sharp_statements;
use jq_stmts::ExactStmt;
use proof_check::Unfolded;
use simple_core::System;
use std::alloc::Global;
use tp_base::NoMemory;
use tree_sem::{ReplayFault, Step, Tree};
use usage_report::Answer;

/// What a replay of an answer's steps came to.
#[derive(Drop)]
pub(crate) enum Outcome {
    /// There was none to be made, or each step is legal exactly.
    Kept,
    /// The step of this number, counted from 0, is the first that isn't.
    Broken(usize),
    /// The steps aren't shown.
    NotShown,
}

/// Settles answers, where some statements have sharp calls. A `used` answer has steps of the judged statements. Where one of
/// these is of a statement with a sharp call, the answer stays if all steps are shown and each is legal exactly. Else it
/// becomes `maybe`. All other answers stay. Shown steps cost a copy of the page and what `replay_exact` costs; each other
/// answer costs one pass over its proof.
pub fn settle(
    alloc: Global,
    page: &Tree,
    stmts: &[ExactStmt],
    system: &System,
    answers: Vec<Answer>,
) -> Result<Vec<Answer>, NoMemory>
    requires room { HasRoom page.now (exacts_of stmts.now) }
    requires unfolded { All (λ a. IsUnfolded page.now system.now (answer_of a)) answers.items }
    ensures { IfOk result (λ v. AreSettled page.now (exacts_of stmts.now) system.now (map answer_of answers.items) (map answer_of v.items)) }
{
    let sharp = sharp_statements(alloc, stmts)?;
    let mut settled = Vec::new(alloc);
    let mut left = answers.into_iter();
    'answers: while let Some(answer) = left.next() {
        let outcome = outcome_of(alloc, page, stmts, system, &sharp, &answer)?;
        settled.push(settled_answer(answer, outcome))?;
    }
    Ok(settled)
}

// What is said by the outcome.
fn settled_answer(answer: Answer, outcome: Outcome) -> Answer
    ensures { answer_of result ≡ settled_by (answer_of answer) outcome }
{
    match outcome {
        Outcome::Kept => answer,
        Outcome::Broken(step) => broken_answer(answer, Some(step)),
        Outcome::NotShown => broken_answer(answer, None),
    }
}

// What is said where the steps aren't legal exactly, or weren't replayed.
fn broken_answer(answer: Answer, broken: Option<usize>) -> Answer
    ensures { answer_of result ≡ broken_by (answer_of answer) broken }
{
    match answer {
        Answer::Used {
            proof,
            steps,
            shown,
        } => Answer::Maybe {
            proof,
            steps,
            shown,
            broken,
        },
        other => other,
    }
}

// What a replay of the answer's steps comes to, where one of them is of a statement with a sharp call.
fn outcome_of(
    alloc: Global,
    page: &Tree,
    stmts: &[ExactStmt],
    system: &System,
    sharp: &[bool],
    answer: &Answer,
) -> Result<Outcome, NoMemory>
    requires room { HasRoom page.now (exacts_of stmts.now) }
    requires sharp { sharp.now ≡ map is_sharp_statement (exacts_of stmts.now) }
    requires unfolded { IsUnfolded page.now system.now (answer_of answer.now) }
    ensures { IfOk result (λ o. IsSettled page.now (exacts_of stmts.now) system.now (answer_of answer.now) (settled_by (answer_of answer.now) o)) }
{
    match answer {
        Answer::Used { proof, shown, .. } => {
            if !has_sharp_step(alloc, proof, system, sharp)? {
                return Ok(Outcome::Kept);
            }
            shown_outcome(alloc, page, stmts, shown)
        }
        _ => Ok(Outcome::Kept),
    }
}

// The same of steps of which one is of such a statement.
fn shown_outcome(
    alloc: Global,
    page: &Tree,
    stmts: &[ExactStmt],
    shown: &Option<Unfolded>,
) -> Result<Outcome, NoMemory>
    requires room { HasRoom page.now (exacts_of stmts.now) }
    requires few { IfSome shown.now (λ u. length u.steps ≤ MOST_LIST) }
    ensures { IfOk result (λ o. (proof : check.Proof) (steps : _) → IsReplayed page.now (exacts_of stmts.now) proof steps shown.now (settled_by (used proof steps shown.now) o)) }
{
    match shown {
        None => Ok(Outcome::NotShown),
        Some(unfolded) => replay_outcome(alloc, page, stmts, unfolded.steps.items()),
    }
}

// What a replay of these steps comes to. No list of so many steps makes too many nodes.
fn replay_outcome(
    alloc: Global,
    page: &Tree,
    stmts: &[ExactStmt],
    steps: &[Step],
) -> Result<Outcome, NoMemory>
    requires room { HasRoom page.now (exacts_of stmts.now) }
    requires few { length steps.now ≤ MOST_LIST }
    ensures { IfOk result (λ o. IsOutcome page.now (exacts_of stmts.now) steps.now o) }
{
    let mut tree = page.copy()?;
    match replay_exact(alloc, stmts, &mut tree, steps) {
        Ok(()) => Ok(Outcome::Kept),
        Err(ReplayFault::IllegalStep(step)) => Ok(Outcome::Broken(step)),
        Err(ReplayFault::TooManyNodes(_)) => unreachable!(),
        Err(ReplayFault::Memory(_)) => Err(NoMemory),
    }
}
