//! Gifts: the atoms that an added child gives to its parent, with their rounds.
ghost use Rattle.std.specs.Prelude.{◌≡◌, ◌≤◌, ◌<◌, ◌^◌, ℕ, nat_le, IfSome, IfOk, OnOk};
ghost use Rattle.tp_base.specs.Classes.{union_of};
ghost use Rattle.class_adding.specs.Gifts.{given_by, AreEarly, IsGiven};
ghost use Rattle.class_adding.specs.Filling.{IsBefore};

use gathered::Gathered;
use rule_index::IndexedSystem;
use simple_core::Summaries;
use std::alloc::Global;
use tp_base::{Atom, ClassSet, NoMemory};

/// An atom that the parent gets, and the first round after which the child gives it.
#[derive(Clone, Copy, Debug, PartialEq, Eq)]
pub(crate) struct Gift {
    pub(crate) to: Atom,
    pub(crate) round: u64,
}

/// The gifts of a known child of the kind. It costs a question for each link from a child.
pub(crate) fn gifts_of<S: Summaries>(
    alloc: Global,
    system: &IndexedSystem,
    sums: &S,
    kind: u32,
    seen: &ClassSet,
) -> Result<Vec<Gift>, NoMemory>
    requires known { S.known sums.now (kind, seen.now) }
    requires made { S.system sums.now ≡ system.now }
    ensures { IfOk result (λ v. IsGiven system.now kind seen.now v.items) }
{
    let entry = sums.entry(kind, seen);
    let mut gifts = Vec::new(alloc);
    let mut rest = system.down_links();
    'links: while let Some((link, others)) = rest.split_first() {
        if let Some(round) = sums.first_at(entry, kind, seen, link.from) {
            gifts.push(Gift { to: link.to, round })?;
        }
        rest = others;
    }
    Ok(gifts)
}

// Adds what is given after k rounds.
fn add_gifts(gifts: &[Gift], k: u64, next: &mut Gathered) -> Result<(), NoMemory>
    ensures { OnOk result (next.new ≡ union_of next.old (given_by k gifts.now)) }
{
    let mut rest = gifts;
    'gifts: while let Some((gift, others)) = rest.split_first() {
        if gift.round <= k {
            next.add(gift.to)?;
        }
        rest = others;
    }
    Ok(())
}

/// The sooner of two rounds, where there are such.
pub(crate) fn sooner(first: Option<u64>, second: Option<u64>) -> Option<u64>
    ensures before { (m : ℕ) → IsBefore m result → IsBefore m first × IsBefore m second }
    ensures after { (k : ℕ) → IfSome first (λ r. k < r) → IfSome second (λ r. k < r) → IfSome result (λ r. k < r) }
    ensures below { (k : ℕ) → IfSome first (λ r. r < k) → IfSome second (λ r. r < k) → IfSome result (λ r. r < k) }
{
    match (first, second) {
        (Some(round), Some(other)) => Some(round.min(other)),
        (Some(round), None) => Some(round),
        (None, other) => other,
    }
}

// The round, where it is later than k.
fn later(round: u64, k: u64) -> Option<u64>
    ensures same { (m : ℕ) → k ≤ m → IsBefore m result → nat_le round m ≡ nat_le round k }
    ensures after { IfSome result (λ r. k < r) }
    ensures round { IfSome result (λ r. r ≡ round) }
{
    if round > k { Some(round) } else { None }
}

// The next round after k that brings a gift.
fn gift_after(gifts: &[Gift], k: u64) -> Option<u64>
    requires early { AreEarly gifts.now }
    ensures same { (m : ℕ) → k ≤ m → IsBefore m result → given_by m gifts.now ≡ given_by k gifts.now }
    ensures after { IfSome result (λ r. k < r) }
    ensures bound { IfSome result (λ r. r < 2 ^ 62) }
{
    let mut wake = None;
    let mut rest = gifts;
    'gifts: while let Some((gift, others)) = rest.split_first() {
        wake = sooner(wake, later(gift.round, k));
        rest = others;
    }
    wake
}

/// Adds what is given after k rounds, and tells the next round that brings more.
pub(crate) fn give(gifts: &[Gift], k: u64, next: &mut Gathered) -> Result<Option<u64>, NoMemory>
    requires early { AreEarly gifts.now }
    ensures given { OnOk result (next.new ≡ union_of next.old (given_by k gifts.now)) }
    ensures same { IfOk result (λ wake. (m : ℕ) → k ≤ m → IsBefore m wake → given_by m gifts.now ≡ given_by k gifts.now) }
    ensures after { IfOk result (λ wake. IfSome wake (λ r. k < r)) }
    ensures bound { IfOk result (λ wake. IfSome wake (λ r. r < 2 ^ 62)) }
{
    add_gifts(gifts, k, next)?;
    Ok(gift_after(gifts, k))
}
