//! A copy of a whole tree, node by node in document order. The walk goes down to the next child that is missing, and up
//! where none is. It keeps one place in each table and no stack.
ghost use Rattle.std.specs.Prelude.{◌≡◌, ◌+◌, ◌≤◌, ℕ, List, [], Some, IfOk, OnOk, OnErr};
ghost use Rattle.slab.specs.Slab.{ContainsKey, slab_len};
ghost use Rattle.tree_sem.specs.Arena.{place_from};
ghost use Rattle.tree_sem.specs.Table.{kids_in, label_in, parent_in, tree_in, both_of, IsForest, IsTable, IsChanged, IsCopied, Stays};
ghost use Rattle.tree_sem.specs.Trees.{LabelTree, edit_at, add_tree};

use crate::cutting::cut_child;
use crate::slots::{Slot, push_child};
use crate::tree_fault::MOST_NODES;
use slab::Slab;
use tp_base::NoMemory;

/// Gives a node that has no children copies of all that is below the root of another table. Linear in the nodes and labels.
pub fn copy_below(slots: &mut Slab<Slot>, top: usize, source: &Slab<Slot>) -> Result<(), NoMemory>
    requires table { IsTable slots.old }
    requires source { IsTable source.now }
    requires bare { kids_in slots.old top ≡ [] }
    requires label { label_in slots.old top ≡ label_in source.now 0 }
    requires here { (p : List ℕ) × (place_from (kids_in slots.old) 0 p ≡ Some top) }
    requires room { slab_len slots.old + slab_len source.now ≤ MOST_NODES + 1 }
    ensures table { IsTable slots.new }
    ensures stays { Stays slots.old slots.new }
    ensures ok { OnOk result ((p : List ℕ) → place_from (kids_in slots.old) 0 p ≡ Some top → tree_in slots.new 0 ≡ edit_at p (λ s. tree_in source.now 0) (tree_in slots.old 0)) }
    ensures err { OnErr result ((p : List ℕ) → place_from (kids_in slots.old) 0 p ≡ Some top → (t : LabelTree) × (tree_in slots.new 0 ≡ edit_at p (λ s. t) (tree_in slots.old 0))) }
{
    let mut next = Some((top, 0));
    'nodes: while let Some((to, from)) = next {
        next = copy_next(slots, to, source, from)?;
    }
    Ok(())
}

// Copies the first child that the node `to` lacks of those of the node `from`, and answers where both are; where it lacks
// none, answers the parents.
fn copy_next(
    slots: &mut Slab<Slot>,
    to: usize,
    source: &Slab<Slot>,
    from: usize,
) -> Result<Option<(usize, usize)>, NoMemory>
    requires to { ContainsKey slots.old to }
    requires from { ContainsKey source.now from }
    requires source { IsForest source.now }
    ensures ok { IfOk result (IsCopied slots.old slots.new source.now to from) }
    ensures err { OnErr result (IsChanged slots.old slots.new to (label_in slots.old to) (kids_in slots.old to) (parent_in slots.old to)) }
{
    let done = slots[to].children.len();
    let node = &source[from];
    match node.children.get(done) {
        Some(child) => {
            let label = source[*child].label.copy()?;
            let copy = push_child(slots, to, label)?;
            Ok(Some((copy, *child)))
        }
        None => Ok(both(slots[to].parent, node.parent)),
    }
}

// Two places, where both are there.
fn both(to: Option<usize>, from: Option<usize>) -> Option<(usize, usize)>
    ensures { result ≡ both_of to from }
{
    Some((to?, from?))
}

/// Gives the node at a place a copy of another table's tree as its last child, or leaves the tree as it was. Linear in the
/// nodes and labels of the copy.
pub fn graft_at(slots: &mut Slab<Slot>, place: usize, source: &Slab<Slot>) -> Result<(), NoMemory>
    requires table { IsTable slots.old }
    requires source { IsTable source.now }
    requires here { (p : List ℕ) × (place_from (kids_in slots.old) 0 p ≡ Some place) }
    requires room { slab_len slots.old + slab_len source.now ≤ MOST_NODES }
    ensures table { IsTable slots.new }
    ensures ok { OnOk result ((p : List ℕ) → place_from (kids_in slots.old) 0 p ≡ Some place → tree_in slots.new 0 ≡ edit_at p (add_tree (tree_in source.now 0)) (tree_in slots.old 0)) }
    ensures err { OnErr result (tree_in slots.new 0 ≡ tree_in slots.old 0) }
{
    let last = slots[place].children.len();
    let label = source[0].label.copy()?;
    let child = push_child(slots, place, label)?;
    if let Err(NoMemory) = copy_below(slots, child, source) {
        cut_child(slots, place, last);
        return Err(NoMemory);
    }
    Ok(())
}
