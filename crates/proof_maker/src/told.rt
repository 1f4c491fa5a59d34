//! What summaries tell of an added node.
ghost use Rattle.std.specs.Prelude.{◌≡◌, ℕ, false, None, IfOk};
ghost use Rattle.simple_core.specs.Rounds.{grown, IsFirst};
ghost use Rattle.proof_maker.specs.Tellings.{AreIdle, IsTold};

use crate::arrivals::{Arrivals, arrivals_of};
use simple_core::{Summaries, System};
use std::alloc::Global;
use tp_base::{Atom, ClassSet, NoMemory};

/// What summaries tell of an added node: its visible atoms, and how many spawn rules stand before the first one whose atom
/// it may have. That they are no fewer is for time alone.
#[derive(Drop)]
pub(crate) struct Told {
    pub(crate) arrivals: Arrivals,
    pub(crate) idle: usize,
}

/// The summaries tell the visible atoms at once, and they are sorted. The atoms of the first spawn rules are looked up one by one,
/// up to one that is visible or comes.
pub(crate) fn told_of<S: Summaries>(
    alloc: Global,
    system: &System,
    sums: &S,
    kind: u32,
    parent: &ClassSet,
) -> Result<Told, NoMemory>
    requires made { S.system sums.now ≡ system.now }
    requires known { S.known sums.now (kind, parent.now) }
    ensures { IfOk result (IsTold (S.system sums.now) (λ k. grown (S.system sums.now) k kind parent.now)) }
{
    let idle = idle_of(system, sums, kind, parent);
    let arrivals = arrivals_of(alloc, sums, kind, parent)?;
    Ok(Told { arrivals, idle })
}

// The number of the first spawn rule whose atom may come.
fn idle_of<S: Summaries>(system: &System, sums: &S, kind: u32, parent: &ClassSet) -> usize
    requires known { S.known sums.now (kind, parent.now) }
    ensures { AreIdle system.now (λ k. grown (S.system sums.now) k kind parent.now) result }
{
    let spawns = system.child.items();
    for c in 0..spawns.len() {
        let spawn = spawns[c];
        if may_come(system, sums, kind, parent, spawn.needs) {
            return c;
        }
    }
    spawns.len()
}

// Whether the atom is visible or comes.
fn may_come<S: Summaries>(
    system: &System,
    sums: &S,
    kind: u32,
    parent: &ClassSet,
    atom: Atom,
) -> bool
    requires known { S.known sums.now (kind, parent.now) }
    ensures { result ≡ false → IsFirst (λ k. grown (S.system sums.now) k kind parent.now) atom None }
{
    if system.visible.has(atom) {
        return true;
    }
    match sums.first_round(kind, parent, atom) {
        Some(_) => true,
        None => false,
    }
}
