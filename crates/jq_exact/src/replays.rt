//! The replay of exact steps, one after another.
ghost use Rattle.std.specs.Prelude.{◌≡◌, ◌⊎◌, ℕ, ◌<◌, length, take, OnOk, IfErr, IsErrOf};
ghost use Rattle.tree_sem.specs.Replays.{step_of};
ghost use Rattle.tree_sem.specs.Series.{CanTake, IsIllegalAt, IsFullAt};
ghost use Rattle.jq_sem.specs.Reachability.{end_of};
ghost use Rattle.jq_stmts.specs.Sharp.{wides};
ghost use Rattle.jq_stmts.specs.SharpViews.{exacts_of};
ghost use Rattle.jq_exact.specs.Exact.{IsLegalExactly, after_exact_step, AreLegalExactly};
ghost use Rattle.jq_exact.specs.Replays.{IsReplay, IsStep};

use crate::selection::selects_exact;
use jq_sem::act;
use jq_stmts::ExactStmt;
use std::alloc::Global;
use tp_base::NoMemory;
use tree_sem::{ReplayFault, Step, Tree, TreeFault};

/// Takes the steps one after another. It stops at the first one whose statement doesn't select its node exactly, or
/// that would make too many nodes, and leaves the tree as it was before that step. Each step costs what
/// `selects_exact` and `act` cost.
pub fn replay_exact(
    alloc: Global,
    stmts: &[ExactStmt],
    tree: &mut Tree,
    steps: &[Step],
) -> Result<(), ReplayFault>
    ensures legal { OnOk result (AreLegalExactly tree.old (exacts_of stmts.now) steps.now) }
    ensures taken { OnOk result (CanTake IsLegalExactly after_exact_step tree.old (exacts_of stmts.now) steps.now) }
    ensures ok { OnOk result (tree.new ≡ end_of tree.old (wides (exacts_of stmts.now)) steps.now) }
    ensures illegal_step { (i : ℕ) → IsErrOf result (ReplayFault.IllegalStep i)
        → IsIllegalAt IsLegalExactly after_exact_step tree.old (exacts_of stmts.now) steps.now i }
    ensures illegal_refused { (i : ℕ) → IsIllegalAt IsLegalExactly after_exact_step tree.old (exacts_of stmts.now) steps.now i
        → IsErrOf result (ReplayFault.IllegalStep i) ⊎ ((j : ℕ) × IsErrOf result (ReplayFault.Memory j)) }
    ensures too_many_nodes { (i : ℕ) → IsErrOf result (ReplayFault.TooManyNodes i)
        → IsFullAt IsLegalExactly after_exact_step tree.old (exacts_of stmts.now) steps.now i }
    ensures full_refused { (i : ℕ) → IsFullAt IsLegalExactly after_exact_step tree.old (exacts_of stmts.now) steps.now i
        → IsErrOf result (ReplayFault.TooManyNodes i) ⊎ ((j : ℕ) × IsErrOf result (ReplayFault.Memory j)) }
    ensures memory { (i : ℕ) → IsErrOf result (ReplayFault.Memory i) → i < length steps.now }
    ensures before_memory { (i : ℕ) → IsErrOf result (ReplayFault.Memory i)
        → CanTake IsLegalExactly after_exact_step tree.old (exacts_of stmts.now) (take i steps.now) }
    ensures err { IfErr result (λ e.
        tree.new ≡ end_of tree.old (wides (exacts_of stmts.now)) (take (step_of e) steps.now)) }
{
    take_steps(alloc, stmts, tree, steps)
}

// The same, said by one clause.
fn take_steps(
    alloc: Global,
    stmts: &[ExactStmt],
    tree: &mut Tree,
    steps: &[Step],
) -> Result<(), ReplayFault>
    ensures { IsReplay tree.old (exacts_of stmts.now) steps.now tree.new result }
{
    for (number, step) in steps.iter().enumerate() {
        take_step(alloc, stmts, tree, step, number)?;
    }
    Ok(())
}

// Takes the step of this number.
fn take_step(
    alloc: Global,
    stmts: &[ExactStmt],
    tree: &mut Tree,
    step: &Step,
    number: usize,
) -> Result<(), ReplayFault>
    ensures { IsStep tree.old (exacts_of stmts.now) step.now number tree.new result }
{
    let Some(stmt) = stmts.get(step.stmt as usize) else {
        return Err(ReplayFault::IllegalStep(number));
    };
    match selects_exact(alloc, stmt, tree, &step.at) {
        Ok(true) => {}
        Ok(false) => return Err(ReplayFault::IllegalStep(number)),
        Err(NoMemory) => return Err(ReplayFault::Memory(number)),
    }
    match act(alloc, &stmt.wide, tree, &step.at) {
        Ok(()) => Ok(()),
        Err(TreeFault::TooManyNodes) => Err(ReplayFault::TooManyNodes(number)),
        Err(TreeFault::Memory) => Err(ReplayFault::Memory(number)),
        // What is selected is a node.
        Err(TreeFault::NoSuchNode) => unreachable!(),
    }
}
