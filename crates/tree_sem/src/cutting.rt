//! Subtrees that are cut off: their slots in the table become free.
ghost use Rattle.std.specs.Prelude.{◌≡◌, ◌+◌, ◌<◌, ℕ, List, Some, length, slice_get};
ghost use Rattle.slab.specs.Slab.{ContainsKey, slab_len};
ghost use Rattle.tree_sem.specs.Arena.{place_from};
ghost use Rattle.tree_sem.specs.Cuts.{drop_child};
ghost use Rattle.tree_sem.specs.Table.{kids_in, tree_in, weight, IsForest, IsLoose, IsFreed};
ghost use Rattle.tree_sem.specs.Trees.{count_of, edit_at};

use crate::slots::Slot;
use slab::Slab;

/// Takes the child of a number from the node at a place, with all below it. Linear in the nodes that go and in the
/// later children.
pub fn cut_child(slots: &mut Slab<Slot>, place: usize, step: usize)
    requires forest { IsForest slots.old }
    requires here { ContainsKey slots.old place }
    requires step { step < length (kids_in slots.old place) }
    ensures forest { IsForest slots.new }
    ensures tree { (p : List ℕ) → place_from (kids_in slots.old) 0 p ≡ Some place → tree_in slots.new 0 ≡ edit_at p (drop_child step) (tree_in slots.old 0) }
    ensures count { (c : ℕ) → slice_get (kids_in slots.old place) step ≡ Some c → slab_len slots.new + count_of (tree_in slots.old c) ≡ slab_len slots.old }
{
    let slot = &mut slots[place];
    let child = slot.children.remove(step);
    let slot = &mut slots[child];
    slot.parent = None;
    release(slots, child);
}

// Frees the slots of a node that is no one's child and of all nodes below it: down to a last child, and up where there
// is none left.
fn release(slots: &mut Slab<Slot>, top: usize)
    requires forest { IsForest slots.old }
    requires loose { IsLoose slots.old top }
    ensures forest { IsForest slots.new }
    ensures tree { tree_in slots.new 0 ≡ tree_in slots.old 0 }
    ensures count { slab_len slots.new + count_of (tree_in slots.old top) ≡ slab_len slots.old }
{
    let mut next = Some(top);
    'nodes: while let Some(place) = next {
        next = take_last(slots, place);
    }
}

// Takes the last child from the node at a place and answers it, or the node itself from the table where it has no child
// and answers its parent.
fn take_last(slots: &mut Slab<Slot>, place: usize) -> Option<usize>
    requires { ContainsKey slots.old place }
    ensures freed { IsFreed slots.old slots.new place result }
    ensures lighter { weight slots.new < weight slots.old }
{
    let slot = &mut slots[place];
    if let Some(child) = slot.children.pop() {
        return Some(child);
    }
    let slot = slots.remove(place);
    slot.parent
}
