//! The visible atoms of an added node, each with its first round.
ghost use Rattle.std.specs.Prelude.{◌↔◌, ℕ, Contains, IfOk};
ghost use Rattle.std.specs.List.Sorted.{IsStrictlyIncreasing, IsPermutation};
ghost use Rattle.simple_core.specs.Rounds.{grown};
ghost use Rattle.proof_maker.specs.Arrivals.{AreArrivals, AreByRounds, CameBy};

use simple_core::{First, Summaries};
use std::alloc::Global;
use std::marker::Model;
use tp_base::{Atom, ClassSet, NoMemory};

/// Atoms with their first rounds, in the order of these. A contract sees the list of them.
#[derive(Drop)]
pub(crate) struct Arrivals {
    items: Vec<First>,
}

impl Model for Arrivals {
    ghost use Rattle.std.specs.Prelude.{List};
    ghost use Rattle.simple_core.specs.declared.summaries.First.{First};

    ghost Value = { List First };

    ghost view = { λ s. s.items.items };
}

impl Arrivals {
    /// The atoms that are there by the round, which are the first of the list. It costs a sort of them.
    pub(crate) fn by(&self, alloc: Global, round: u64) -> Result<ClassSet, NoMemory>
        requires { AreByRounds self.now }
        ensures rises { IfOk result IsStrictlyIncreasing }
        ensures atoms { IfOk result (λ l. (a : ℕ) → Contains l a ↔ CameBy self.now round a) }
    {
        arrived(alloc, &self.items, round)
    }
}

// The atoms of a list by rounds that are there by the round.
fn arrived(alloc: Global, arrivals: &[First], round: u64) -> Result<ClassSet, NoMemory>
    requires { AreByRounds arrivals.now }
    ensures rises { IfOk result IsStrictlyIncreasing }
    ensures atoms { IfOk result (λ l. (a : ℕ) → Contains l a ↔ CameBy arrivals.now round a) }
{
    let mut atoms = Vec::with_capacity(alloc, arrivals.len())?;
    for i in 0..arrivals.len() {
        let arrival = arrivals[i];
        if arrival.round > round {
            return set_of(atoms);
        }
        atoms.push(arrival.atom)?;
    }
    set_of(atoms)
}

fn set_of(atoms: Vec<Atom>) -> Result<ClassSet, NoMemory>
    ensures rises { IfOk result IsStrictlyIncreasing }
    ensures atoms { IfOk result (λ l. (a : ℕ) → Contains l a ↔ Contains atoms.items a) }
{
    ClassSet::of(atoms)
}

/// The visible atoms of an added node. The summaries tell all of them at once, and they are sorted by first round.
pub(crate) fn arrivals_of<S: Summaries>(
    alloc: Global,
    sums: &S,
    kind: u32,
    parent: &ClassSet,
) -> Result<Arrivals, NoMemory>
    requires { S.known sums.now (kind, parent.now) }
    ensures { IfOk result (AreArrivals (S.system sums.now).visible (λ k. grown (S.system sums.now) k kind parent.now)) }
{
    let items = sums.firsts(alloc, kind, parent)?;
    by_rounds(items)
}

fn by_rounds(items: Vec<First>) -> Result<Arrivals, NoMemory>
    ensures permutation { IfOk result (IsPermutation items.items) }
    ensures order { IfOk result AreByRounds }
{
    let mut items = items;
    items.sort_by_key(|arrival| arrival.round)?;
    Ok(Arrivals { items })
}
