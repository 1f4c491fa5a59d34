//! How many steps a proof has.
ghost use Rattle.std.specs.Prelude.{◌≡◌, ℕ, min, length, slice_get};
ghost use Rattle.tree_sem.specs.Trees.{LabelTree};
ghost use Rattle.proof_check.specs.Unfolding.{local_count, spawned, spawn_count, reason_count, items_count, unfolded};
ghost use Rattle.proof_check.specs.Validity.{MOST_STEPS, IsValid};
ghost use Rattle.proof_check.specs.Kept.{kept_steps};

use crate::proofs::{Below, Entries, Proof, ProofItem, Reason};
use simple_core::System;

/// How many steps a valid proof unfolds to, or the greatest number where they are more. Linear in the page's items.
pub fn steps(proof: &Proof, system: &System) -> u64
    requires valid { (page : LabelTree) × (target : ℕ) × IsValid system.now page proof.now target }
    ensures { (page : LabelTree) (target : ℕ) → result ≡ min (length (unfolded system.now proof.now page target).0) MOST_STEPS }
{
    let mut sum = 0u64;
    for i in proof.page.items() {
        sum = sum.saturating_add(reason_steps(&i.item.reason, &proof.entries, system));
    }
    sum
}

/// How many steps the items of an entry make, by the numbers that the entries keep. Linear in the items.
pub fn items_steps(items: &[ProofItem], entries: &Entries, system: &System) -> u64
    ensures { result ≡ min (items_count system.now (kept_steps entries.now) items.now) MOST_STEPS }
{
    let mut sum = 0u64;
    for i in items {
        sum = sum.saturating_add(reason_steps(&i.reason, entries, system));
    }
    sum
}

// The steps of one item, by the numbers that the entries keep.
fn reason_steps(reason: &Reason, entries: &Entries, system: &System) -> u64
    ensures { result ≡ min (reason_count system.now (kept_steps entries.now) reason.now) MOST_STEPS }
{
    match reason {
        Reason::Local(l) => local_steps(*l, system),
        Reason::Down(_, Below::Grown(c, e)) => spawn_steps(*c, *e, entries, system),
        _ => 0,
    }
}

fn local_steps(rule: u64, system: &System) -> u64
    ensures { result ≡ local_count system.now (slice_get system.now.local rule) }
{
    match system.local.items().get(rule as usize) {
        Some(rule) if rule.stmt.is_some() => 1,
        _ => 0,
    }
}

fn spawn_steps(spawn: u64, entry: u32, entries: &Entries, system: &System) -> u64
    ensures { result ≡ min (spawn_count system.now (spawned system.now spawn) (kept_steps entries.now entry)) MOST_STEPS }
{
    let Some(spawn) = system.child.items().get(spawn as usize) else {
        return 0;
    };
    let Some(kind) = system.kinds.items().get(spawn.kind as usize) else {
        return 0;
    };
    let inside = kept(entry, entries);
    if kind.above.is_some() {
        inside
    } else {
        inside.saturating_add(1)
    }
}

fn kept(entry: u32, entries: &Entries) -> u64
    ensures { result ≡ kept_steps entries.now entry }
{
    match entries.items().get(entry as usize) {
        Some(entry) => entry.steps,
        None => 0,
    }
}
