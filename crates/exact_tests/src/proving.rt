//! Proofs over one system, and the answers that show them.
ghost use Rattle.std.specs.Prelude.{◌≡◌, ◌≤◌, length, IfOk, IfSome};
ghost use Rattle.limits.specs.declared.budgets.TheConstants.{MOST_LIST};
ghost use Rattle.proof_check.specs.Validity.{IsValid};
ghost use Rattle.proof_core.specs.Worlds.{HasFewSiblings};
ghost use Rattle.usage_report.specs.Views.{answer_of};
ghost use Rattle.jq_exact.specs.Settling.{IsUnfolded, steps_of};

use crate::building::{C, D};
use crate::checks::are_few;
use proof_core::{
    Entries, PageItem, PageItems, Proof, ProofItem, Reason, UnfoldFault, Unfolded, check, steps,
    unfold,
};
use simple_core::System;
use std::alloc::Global;
use test_building::{Rules, path_of};
use tp_base::{Atom, NoMemory};
use tree_sem::Tree;
use usage_report::Answer;

/// An item of the page: its node's path, its atom, and its reason.
pub type ItemRow = (&'static [u32], u32, Reason);

/// The root's atom, and whether the steps are shown.
#[derive(Clone, Copy)]
pub struct Wanted {
    pub target: Atom,
    pub shown: bool,
}

/// The root has it where below its child at /0 there are a child and a grandchild of the class `.d`.
pub const BOTH: u32 = 7;

/// The root has it where there is one of them.
pub const ONE: u32 = 8;

/// The first two statements give `.d` to a `.c`. An atom 5 says that a child has `.d`, and 6 that a grandchild has.
pub static RULES: Rules = Rules {
    local: &[
        (&[C], D, Some(0)),
        (&[C], D, Some(1)),
        (&[5, 6], BOTH, None),
    ],
    up: &[],
    down: &[(D, 5), (5, 6), (BOTH, BOTH), (5, ONE), (6, ONE)],
    child: &[],
    kinds: &[],
};

fn page_items(alloc: Global, rows: &[ItemRow]) -> Result<PageItems, NoMemory> {
    let mut items = Vec::new(alloc);
    for (at, atom, reason) in rows {
        let item = ProofItem {
            atom: Atom(*atom),
            reason: *reason,
        };
        let at = path_of(alloc, at)?;
        items.push(PageItem { at, item })?;
    }
    Ok(PageItems::new(items))
}

fn proof_of(alloc: Global, rows: &[ItemRow]) -> Result<Proof, NoMemory> {
    let page = page_items(alloc, rows)?;
    let entries = Entries::new(Vec::new(alloc));
    Ok(Proof { entries, page })
}

// What the proof unfolds to, where it is no more than two steps.
fn unfolded(
    alloc: Global,
    proof: &Proof,
    system: &System,
    page: &Tree,
    target: Atom,
) -> Result<Option<Unfolded>, NoMemory>
    requires siblings { HasFewSiblings system.now.kinds }
    requires valid { IsValid system.now page.now proof.now target }
    ensures { IfOk result (λ o. IfSome o (λ u. (u.steps ≡ steps_of system.now proof.now page.now) × (length u.steps ≤ MOST_LIST))) }
{
    match unfold(alloc, proof, system, page, target, 2) {
        Ok(u) => Ok(Some(u)),
        Err(UnfoldFault::OverLimit) => Ok(None),
        Err(UnfoldFault::Memory) => Err(NoMemory),
    }
}

// The same, where it is to be shown.
fn shown_of(
    alloc: Global,
    proof: &Proof,
    system: &System,
    page: &Tree,
    wanted: Wanted,
) -> Result<Option<Unfolded>, NoMemory>
    requires siblings { HasFewSiblings system.now.kinds }
    requires valid { IsValid system.now page.now proof.now wanted.target }
    ensures { IfOk result (λ o. IfSome o (λ u. (u.steps ≡ steps_of system.now proof.now page.now) × (length u.steps ≤ MOST_LIST))) }
{
    if !wanted.shown {
        return Ok(None);
    }
    unfolded(alloc, proof, system, page, wanted.target)
}

/// An answer that is used by the proof of these items; none where they prove nothing.
pub fn used_answer(
    alloc: Global,
    rows: &[ItemRow],
    system: &System,
    page: &Tree,
    wanted: Wanted,
) -> Result<Option<Answer>, NoMemory>
    ensures { IfOk result (λ o. IfSome o (λ a. IsUnfolded page.now system.now (answer_of a))) }
{
    let proof = proof_of(alloc, rows)?;
    if !are_few(system.kinds.items()) || !check(alloc, &proof, system, page, wanted.target)? {
        return Ok(None);
    }
    let shown = shown_of(alloc, &proof, system, page, wanted)?;
    Ok(Some(Answer::Used {
        steps: steps(&proof, system),
        proof,
        shown,
    }))
}
