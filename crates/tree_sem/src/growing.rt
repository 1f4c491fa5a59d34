//! One more node in the table of a tree.
ghost use Rattle.std.specs.Prelude.{◌≡◌, ◌↔◌, ℕ, List, Some, length, IfOk, OnOk, OnErr, IsErrOf};
ghost use Rattle.slab.specs.Slab.{slab_len};
ghost use Rattle.tree_sem.specs.Arena.{place_from};
ghost use Rattle.tree_sem.specs.Table.{kids_in, tree_in, IsTable, Stays};
ghost use Rattle.tree_sem.specs.Trees.{edit_at, add_child};

use crate::slots::{Slot, push_child};
use crate::tree_fault::{MOST_NODES, TreeFault};
use slab::Slab;
use tp_base::ClassSet;

/// Gives the node at a place a last child with this label, and answers the child's number there. Constant.
pub fn add_last(slots: &mut Slab<Slot>, place: usize, label: ClassSet) -> Result<u32, TreeFault>
    requires table { IsTable slots.old }
    requires here { (p : List ℕ) × (place_from (kids_in slots.old) 0 p ≡ Some place) }
    ensures table { IsTable slots.new }
    ensures stays { Stays slots.old slots.new }
    ensures ok { OnOk result ((p : List ℕ) → place_from (kids_in slots.old) 0 p ≡ Some place → tree_in slots.new 0 ≡ edit_at p (add_child label) (tree_in slots.old 0)) }
    ensures number { IfOk result (λ k. k ≡ length (kids_in slots.old place)) }
    ensures no_such_node { IsErrOf result TreeFault.NoSuchNode → ⊥ }
    ensures too_many_nodes { IsErrOf result TreeFault.TooManyNodes ↔ (slab_len slots.old ≡ MOST_NODES) }
    ensures err { OnErr result (tree_in slots.new 0 ≡ tree_in slots.old 0) }
{
    if slots.len() >= MOST_NODES as usize {
        return Err(TreeFault::TooManyNodes);
    }
    let step = slots[place].children.len() as u32;
    push_child(slots, place, label)?;
    Ok(step)
}
