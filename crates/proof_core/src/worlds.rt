//! The system and the entries of a proof, for look-ups while it is unfolded.
ghost use Rattle.std.specs.Prelude.{◌≡◌, ◌==◌, ℕ, OnOk, IfOk, Some, false, unwrap_or, slice_get};
ghost use Rattle.std.specs.Option.{option_copied, option_or};
ghost use Rattle.std.proofs.Props.{props};
ghost use Rattle.proof_core.specs.Trails.{progress_of};
ghost use Rattle.proof_core.specs.Worlds.{known_in, siblings_below, HasFewSiblings, KnowsCounts};
ghost use Rattle.proof_check.specs.Unfolding as spec;

use crate::trails::Trail;
use indexmap::IndexMap;
use proof_check::Entries;
use simple_core::{Kind, System};
use std::alloc::Global;
use tp_base::{Atom, NoMemory, Path};

/// For each kind, the number of children that an added node has from its forest.
#[derive(Drop)]
pub struct ChildCounts {
    children: IndexMap<u32, u32>,
}

/// The system and the entries of a proof, with the child counts of the system's kinds. Each sound system meets the condition on
/// siblings.
#[derive(Clone, Copy)]
pub struct World<'a> {
    pub system: &'a System,
    pub entries: &'a Entries,
    pub counts: &'a ChildCounts,
    ghost siblings: { HasFewSiblings system.now.kinds } by { Prim.hlevel props },
    ghost known: { KnowsCounts counts.now system.now.kinds } by { Prim.hlevel props },
}

/// A child that a spawn rule adds: the `down` link from it, the spawn rule, and the entry of the child.
#[derive(Clone, Copy)]
pub struct GrownChild {
    pub link: u64,
    pub spawn: u64,
    pub entry: u32,
}

impl ChildCounts {
    /// The child counts of the kinds of a system. Linear in the kinds, on average.
    pub fn of(alloc: Global, kinds: &[Kind]) -> Result<ChildCounts, NoMemory>
        ensures { IfOk result (λ counts. KnowsCounts counts kinds.now) }
    {
        let mut counts = ChildCounts {
            children: IndexMap::new(alloc),
        };
        for kind in kinds {
            counts.note(kind)?;
        }
        Ok(counts)
    }

    /// The number of children that a node of the kind has from its forest. Constant on average.
    pub fn children_of(&self, kind: u32) -> u32
        ensures { result ≡ unwrap_or (known_in self.now kind) 0 }
    {
        match self.children.get(&kind) {
            Some(n) => *n,
            None => 0,
        }
    }

    // The first kind below another one has the number of siblings.
    fn note(&mut self, kind: &Kind) -> Result<(), NoMemory>
        ensures { OnOk result ((j : ℕ) → known_in self.new j ≡ option_or (known_in self.old j) (siblings_below j kind.now)) }
    {
        match kind.above {
            Some(above) => self.add(above, kind.siblings),
            None => Ok(()),
        }
    }

    fn add(&mut self, kind: u32, children: u32) -> Result<(), NoMemory>
        ensures added { OnOk result (known_in self.new kind ≡ Some (unwrap_or (known_in self.old kind) children)) }
        ensures others { OnOk result ((j : ℕ) → (kind == j) ≡ false → known_in self.new j ≡ known_in self.old j) }
    {
        if self.children.get(&kind).is_none() {
            self.children.insert(kind, children)?;
        }
        Ok(())
    }
}

/// Adds the step of a local rule, if it has one. Linear in the path's length.
pub fn after_local(system: &System, rule: u64, at: &Path, trail: &mut Trail) -> Result<(), NoMemory>
    ensures { OnOk result (progress_of trail.new ≡ spec.after_local system.now (slice_get system.now.local rule) at.now (progress_of trail.old)) }
{
    let Some(rule) = system.local.items().get(rule as usize) else {
        return Ok(());
    };
    match rule.stmt {
        Some(stmt) => trail.push(stmt, at),
        None => Ok(()),
    }
}

/// The kind of a spawn rule. Constant.
pub fn spawned(system: &System, spawn: u64) -> Option<&Kind>
    ensures { option_copied result ≡ spec.spawned system.now spawn }
{
    let spawn = system.child.items().get(spawn as usize)?;
    system.kinds.items().get(spawn.kind as usize)
}

/// The atom that a spawn rule needs. Constant.
pub fn needed_by(system: &System, spawn: u64) -> Atom
    ensures { result ≡ spec.needed_by system.now spawn }
{
    match system.child.items().get(spawn as usize) {
        Some(spawn) => spawn.needs,
        None => Atom(0),
    }
}

/// The left side of a `down` link. Constant.
pub fn from_of(system: &System, link: u64) -> Atom
    ensures { result ≡ spec.from_of (slice_get system.now.down link) }
{
    match system.down.items().get(link as usize) {
        Some(link) => link.from,
        None => Atom(0),
    }
}
