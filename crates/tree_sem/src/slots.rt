//! The table in which a tree keeps its nodes.
ghost use Rattle.std.specs.Prelude.{◌≡◌, ◌↔◌, not, [], ◌≤◌, length, take, All, Contains, IsTrue, IfOk, IfSome, OnOk, OnErr};
ghost use Rattle.std.specs.List.Sorted.{IsStrictlyIncreasing};
ghost use Rattle.slab.specs.Slab.{ContainsKey};
ghost use Rattle.tp_base.specs.Classes.{has_class, all_among, with_class, union_of};
ghost use Rattle.tp_base.specs.Losses.{without_class};
ghost use Rattle.tree_sem.specs.Arena.{place_from};
ghost use Rattle.tree_sem.specs.Table.{kids_in, label_in, parent_in, IsForest, IsChanged, IsGrown};

use slab::Slab;
use tp_base::{Atom, ClassSet, NoMemory, Path};

/// A node, with the numbers of its children and of its parent in the table. The root has no parent.
#[derive(Drop)]
pub struct Slot {
    pub label: ClassSet,
    pub children: Vec<usize>,
    pub parent: Option<usize>,
}

/// A node with this label and without children. Its memory comes from where its label's does.
pub fn childless(label: ClassSet, parent: Option<usize>) -> Slot
    ensures label { result.label ≡ label }
    ensures children { result.children.items ≡ [] }
    ensures parent { result.parent ≡ parent }
    ensures rises { IsStrictlyIncreasing label }
{
    let alloc = label.allocator();
    Slot {
        label,
        children: Vec::new(alloc),
        parent,
    }
}

/// The place of the node whose path is the first `len` numbers of the path. Linear in `len`.
pub fn place_of(slots: &Slab<Slot>, at: &Path, len: usize) -> Option<usize>
    requires forest { IsForest slots.now }
    requires in_path { len ≤ length at.now }
    ensures place { result ≡ place_from (kids_in slots.now) 0 (take len at.now) }
    ensures there { IfSome result (λ i. ContainsKey slots.now i) }
{
    let mut place = 0;
    for level in 0..len {
        let step = at.at(level) as usize;
        match slots[place].children.get(step) {
            None => return None,
            Some(child) => place = *child,
        }
    }
    Some(place)
}

/// Adds a class to the label of the node at a place.
pub fn add_to_label(slots: &mut Slab<Slot>, place: usize, atom: Atom) -> Result<bool, NoMemory>
    requires { ContainsKey slots.old place }
    ensures ok { OnOk result (IsChanged slots.old slots.new place (with_class atom (label_in slots.old place)) (kids_in slots.old place) (parent_in slots.old place)) }
    ensures test { IfOk result (λ grew. grew ≡ not (has_class atom (label_in slots.old place))) }
    ensures grew { IfOk result (λ grew. IsTrue grew ↔ ¬ Contains (label_in slots.old place) atom) }
    ensures err { OnErr result (IsChanged slots.old slots.new place (label_in slots.old place) (kids_in slots.old place) (parent_in slots.old place)) }
{
    let slot = &mut slots[place];
    slot.label.add(atom)
}

/// Takes a class out of the label of the node at a place.
pub fn take_from_label(slots: &mut Slab<Slot>, place: usize, atom: Atom) -> bool
    requires { ContainsKey slots.old place }
    ensures taken { IsChanged slots.old slots.new place (without_class atom (label_in slots.old place)) (kids_in slots.old place) (parent_in slots.old place) }
    ensures test { result ≡ has_class atom (label_in slots.old place) }
{
    let slot = &mut slots[place];
    slot.label.take(atom)
}

/// Adds the classes of a set to the label of the node at a place.
pub fn unite_label(
    slots: &mut Slab<Slot>,
    place: usize,
    classes: &ClassSet,
) -> Result<bool, NoMemory>
    requires { ContainsKey slots.old place }
    ensures ok { OnOk result (IsChanged slots.old slots.new place (union_of (label_in slots.old place) classes.now) (kids_in slots.old place) (parent_in slots.old place)) }
    ensures test { IfOk result (λ grew. grew ≡ not (all_among classes.now (label_in slots.old place))) }
    ensures grew { IfOk result (λ grew. IsTrue grew ↔ ¬ All (Contains (label_in slots.old place)) classes.now) }
    ensures err { OnErr result (IsChanged slots.old slots.new place (label_in slots.old place) (kids_in slots.old place) (parent_in slots.old place)) }
{
    let slot = &mut slots[place];
    slot.label.union(classes)
}

/// Gives the node at a place a last child with this label, and answers the child's place.
pub fn push_child(slots: &mut Slab<Slot>, place: usize, label: ClassSet) -> Result<usize, NoMemory>
    requires { ContainsKey slots.old place }
    ensures ok { IfOk result (λ child. IsGrown slots.old slots.new place child label) }
    ensures rises { IsStrictlyIncreasing label }
    ensures err { OnErr result (IsChanged slots.old slots.new place (label_in slots.old place) (kids_in slots.old place) (parent_in slots.old place)) }
{
    let slot = &mut slots[place];
    let node = childless(label, Some(place));
    slot.children.reserve(1)?;
    let child = slots.insert(node)?;
    let slot = &mut slots[place];
    slot.children.push_reserved(child);
    Ok(child)
}
