//! The set of a diagram's branches, by a walk.
ghost use Rattle.std.specs.Prelude.{◌≡◌, ◌+◌, ◌^◌, ◌<◌, ℕ, slice_get, Some, IfOk, OnOk};
ghost use Rattle.std.specs.List.{IsDistinct};
ghost use Rattle.indexmap.specs.IndexSet.{index_set_len};
ghost use Rattle.class_diagrams.specs.References.{Reference};
ghost use Rattle.class_diagrams.specs.Arena.{tree_at, IsIn, IsArena};
ghost use Rattle.class_diagrams.proofs.ReferenceLemmas.{ref_eq};
ghost use Rattle.diagram_ops.specs.Walks.{with_branch, AreBranches, IsWalk};

use class_diagrams::{Diagrams, Ref};
use indexmap::IndexSet;
use std::alloc::Global;
use tp_base::NoMemory;

/// Each different branch of a diagram once. Linear in their number, on average.
pub(crate) fn branches_of(alloc: Global, d: &Diagrams, f: Ref) -> Result<IndexSet<Ref>, NoMemory>
    requires { IsIn d.now.branches f }
    ensures branches { IfOk result (λ seen. AreBranches d.now.branches f seen.keys) }
    ensures few { IfOk result (λ seen. index_set_len seen < 2 ^ 32) }
    ensures arena { IsArena d.now }
{
    let mut seen = IndexSet::new(alloc);
    see(d, f, &mut seen)?;
    let mut next = 0;
    while next < seen.len() {
        let at = seen.as_slice()[next];
        see_parts(d, at, &mut seen)?;
        next += 1;
    }
    Ok(seen)
}

// A diagram goes behind those that were seen, unless it is a leaf or is there.
fn see(d: &Diagrams, f: Ref, seen: &mut IndexSet<Ref>) -> Result<(), NoMemory>
    requires { IsIn d.now.branches f }
    ensures keys { OnOk result (seen.new.keys ≡ with_branch d.now.branches seen.old.keys f) }
    ensures different { IsDistinct ref_eq seen.old.keys → OnOk result (IsDistinct ref_eq seen.new.keys) }
    ensures arena { IsArena d.now }
{
    match d.branch(f) {
        None => Ok(()),
        Some(_) => {
            seen.insert(f)?;
            Ok(())
        }
    }
}

// Both parts of a diagram go behind those that were seen.
fn see_parts(d: &Diagrams, at: Ref, seen: &mut IndexSet<Ref>) -> Result<(), NoMemory>
    requires { IsIn d.now.branches at }
    ensures { (f : Reference) (n : ℕ) → IsWalk d.now.branches f seen.old.keys n → slice_get seen.old.keys n ≡ Some at
        → OnOk result (IsWalk d.now.branches f seen.new.keys (n + 1)) }
{
    match d.branch(at) {
        None => Ok(()),
        Some(branch) => see_both(d, branch.1, branch.2, seen),
    }
}

fn see_both(d: &Diagrams, low: Ref, high: Ref, seen: &mut IndexSet<Ref>) -> Result<(), NoMemory>
    requires low { IsIn d.now.branches low }
    requires high { IsIn d.now.branches high }
    ensures keys { OnOk result (seen.new.keys ≡ with_branch d.now.branches (with_branch d.now.branches seen.old.keys low) high) }
    ensures different { IsDistinct ref_eq seen.old.keys → OnOk result (IsDistinct ref_eq seen.new.keys) }
{
    see(d, low, seen)?;
    see(d, high, seen)
}
