//! The unfolding of a proof: its steps, and the node to which they lead.
ghost use Rattle.std.specs.Prelude.{◌≡◌, ◌↔◌, ◌≤◌, ◌<◌, [], length, min, IsTrue, IfOk, IsErrOf};
ghost use Rattle.proof_core.specs.PagePasses.{seen_in};
ghost use Rattle.proof_check.specs.Unfolding.{end_for, unfolded};
ghost use Rattle.proof_check.specs.Validity.{MOST_STEPS, IsValid};
ghost use Rattle.proof_core.specs.Worlds.{HasFewSiblings};
ghost use Rattle.proof_core.specs.declared.unfolded.TheConstants.{MOST_LISTED};

use crate::node_passes::{NodePasses, walk_from};
use crate::page_passes::{NumberedPage, page_passed, place_at};
use crate::trails::Trail;
use crate::worlds::{ChildCounts, World};
use proof_check::{Nodes, Proof, Steps, Unfolded, steps};
use simple_core::System;
use std::alloc::Global;
use thiserror::Error;
use tp_base::{Atom, NoMemory, Path};
use tree_sem::Tree;

/// The most steps that can be listed.
pub const MOST_LISTED: u32 = 1_000_000;

/// The reason why a proof wasn't unfolded.
#[derive(Clone, Copy, Debug, PartialEq, Eq, Error)]
pub enum UnfoldFault {
    #[error("more steps than the limit")]
    OverLimit,
    #[error("no memory")]
    Memory,
}

impl From<NoMemory> for UnfoldFault {
    ghost use Rattle.proof_core.specs.declared.unfolded.UnfoldFault.TheVariants.{Memory};

    ghost from_gives = { λ _ e. e ≡ Memory };

    fn from(_error: NoMemory) -> UnfoldFault {
        UnfoldFault::Memory
    }
}

/// The steps of a valid proof, where they are at most the limit, and the node of the match. Each sound system meets the condition on
/// siblings. Linear, on average, in the items that are passed and in the lengths of the paths of the steps and of the page's items.
/// An item counts as often as it is named.
pub fn unfold(
    alloc: Global,
    proof: &Proof,
    system: &System,
    page: &Tree,
    target: Atom,
    limit: u64,
) -> Result<Unfolded, UnfoldFault>
    requires siblings { HasFewSiblings system.now.kinds }
    requires valid { IsValid system.now page.now proof.now target }
    requires in_limit { limit ≤ MOST_LISTED }
    ensures steps { IfOk result (λ u. u.steps ≡ (unfolded system.now proof.now page.now target).0) }
    ensures at { IfOk result (λ u. u.at ≡ (unfolded system.now proof.now page.now target).1) }
    ensures over { IsErrOf result UnfoldFault.OverLimit ↔ (limit < length (unfolded system.now proof.now page.now target).0) }
{
    if is_over(proof, system, page, target, limit) {
        return Err(UnfoldFault::OverLimit);
    }
    match unfold_all(alloc, proof, system, page, target) {
        Ok(u) => Ok(u),
        Err(_) => Err(UnfoldFault::Memory),
    }
}

// The number of the proof's steps.
fn count_of(proof: &Proof, system: &System, page: &Tree, target: Atom) -> u64
    requires valid { IsValid system.now page.now proof.now target }
    ensures { result ≡ min (length (unfolded system.now proof.now page.now target).0) MOST_STEPS }
{
    steps(proof, system)
}

// Whether the proof has more steps than the limit.
fn is_over(proof: &Proof, system: &System, page: &Tree, target: Atom, limit: u64) -> bool
    requires valid { IsValid system.now page.now proof.now target }
    requires in_limit { limit ≤ MOST_LISTED }
    ensures { IsTrue result ↔ (limit < length (unfolded system.now proof.now page.now target).0) }
{
    count_of(proof, system, page, target) > limit
}

fn unfold_all(
    alloc: Global,
    proof: &Proof,
    system: &System,
    page: &Tree,
    target: Atom,
) -> Result<Unfolded, NoMemory>
    requires siblings { HasFewSiblings system.now.kinds }
    requires short { length (unfolded system.now proof.now page.now target).0 ≤ MOST_LISTED }
    ensures steps { IfOk result (λ u. u.steps ≡ (unfolded system.now proof.now page.now target).0) }
    ensures at { IfOk result (λ u. u.at ≡ (unfolded system.now proof.now page.now target).1) }
{
    let items = proof.page.items();
    let nodes = Nodes::of(alloc, items)?;
    let counts = ChildCounts::of(alloc, system.kinds.items())?;
    let world = World {
        system,
        entries: &proof.entries,
        counts: &counts,
    };
    let mut trail = Trail::new(alloc);
    let numbered = NumberedPage {
        tree: page,
        nodes: &nodes,
    };
    let here = page_passed(items, &numbered, &world, &mut trail)?;
    let at = match_of(&nodes, &here, target, alloc)?;
    let steps = Steps::new(trail.into_steps());
    Ok(Unfolded { steps, at })
}

// The end of the walk for the target from the root.
fn match_of(nodes: &Nodes, here: &NodePasses, target: Atom, alloc: Global) -> Result<Path, NoMemory>
    ensures { IfOk result (λ p. p ≡ end_for target (seen_in nodes.now here.now []) []) }
{
    let root = Vec::new(alloc);
    let from = place_at(nodes, here, root.as_slice(), target);
    let path = walk_from(here.items(), from, alloc)?;
    Ok(path)
}
