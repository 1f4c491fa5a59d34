//! Atoms that are added to the labels of many nodes: to all of them or to none.
ghost use Rattle.std.specs.Prelude.{◌≡◌, ℕ, Some, map, All, IfOk, OnOk, OnErr};
ghost use Rattle.tp_base.specs.Classes.{union_of};
ghost use Rattle.tree_sem.specs.Actions.{add_classes};
ghost use Rattle.tree_sem.specs.Arena.{place_from};
ghost use Rattle.tree_sem.specs.Nodes.{IsNode};
ghost use Rattle.tree_sem.specs.Table.{kids_in, parent_in, tree_in, united, IsForest, IsTable, IsChanged};
ghost use Rattle.tree_sem.specs.Trees.{edit_each};

use crate::slots::{Slot, place_of};
use slab::Slab;
use std::alloc::Global;
use tp_base::{ClassSet, NoMemory, Path};

/// Adds the classes of a set to the label of the node of each path. All new labels are made before the first is put
/// in its place.
pub fn unite_each(slots: &mut Slab<Slot>, at: &[Path], classes: &ClassSet) -> Result<(), NoMemory>
    requires table { IsTable slots.old }
    requires nodes { All (IsNode (tree_in slots.old 0)) at.now }
    ensures table { OnOk result (IsTable slots.new) }
    ensures tree { OnOk result (tree_in slots.new 0 ≡ edit_each at.now (add_classes classes.now) (tree_in slots.old 0)) }
    ensures err { OnErr result (slots.new ≡ slots.old) }
{
    let alloc = *slots[0].children.allocator();
    let labels = united_labels(alloc, slots, at, classes)?;
    let mut done = 0;
    for label in labels {
        relabel(slots, &at[done], label);
        done += 1;
    }
    Ok(())
}

// The label of the node of each path with the classes of a set.
fn united_labels(
    alloc: Global,
    slots: &Slab<Slot>,
    at: &[Path],
    classes: &ClassSet,
) -> Result<Vec<ClassSet>, NoMemory>
    requires forest { IsForest slots.now }
    requires nodes { All (IsNode (tree_in slots.now 0)) at.now }
    ensures { IfOk result (λ v. v.items ≡ map (united slots.now classes.now) at.now) }
{
    let mut labels = Vec::new(alloc);
    for path in at {
        labels.push(united_label(slots, path, classes)?)?;
    }
    Ok(labels)
}

// The label of the node of the path with the classes of a set.
fn united_label(slots: &Slab<Slot>, at: &Path, classes: &ClassSet) -> Result<ClassSet, NoMemory>
    requires forest { IsForest slots.now }
    requires is_node { IsNode (tree_in slots.now 0) at.now }
    ensures { IfOk result (λ label. label ≡ united slots.now classes.now at.now) }
{
    let Some(place) = place_of(slots, at, at.len()) else {
        unreachable!()
    };
    let mut label = slots[place].label.copy()?;
    label.union(classes)?;
    Ok(label)
}

// Gives the node of the path this label.
fn relabel(slots: &mut Slab<Slot>, at: &Path, label: ClassSet)
    requires forest { IsForest slots.old }
    requires is_node { IsNode (tree_in slots.old 0) at.now }
    ensures { (place : ℕ) → Some place ≡ place_from (kids_in slots.old) 0 at.now → IsChanged slots.old slots.new place label (kids_in slots.old place) (parent_in slots.old place) }
{
    let Some(place) = place_of(slots, at, at.len()) else {
        unreachable!()
    };
    let slot = &mut slots[place];
    slot.label = label;
}
