//! A tree that grows at its current node, without a descent from the root.
ghost use Rattle.std.specs.Prelude.{◌≡◌, ◌-◌, ◌↔◌, [], ◌∷◌, ◌++◌, length, take, IsNone, IsSome, IfOk, IfSome, OnOk, OnErr, IsErrOf};
ghost use Rattle.tree_sem.specs.Actions.{add_classes};
ghost use Rattle.tree_sem.specs.Nodes.{IsNode};
ghost use Rattle.tree_sem.specs.Trees.{count_of, length_of, node_at, edit_at, add_child};

use crate::growing::add_last;
use crate::label_tree::Tree;
use crate::slots::{Slot, place_of, unite_label};
use crate::tree_fault::{MOST_NODES, TreeFault};
use slab::Slab;
use std::marker::Model;
use tp_base::{ClassSet, Path};

/// A tree that grows. A contract sees the tree and the path of its current node.
#[derive(Drop)]
pub struct TreeBuilder {
    slots: Slab<Slot>,
    at: Path,
    /// Where the current node is in the table.
    place: usize,
}

impl Model for TreeBuilder {
    ghost use Rattle.tree_sem.specs.Growing.{GrowingTree, growing_code};

    ghost Value = { GrowingTree };

    ghost coded = { growing_code };

    ghost use Rattle.tree_sem.specs.Growing.{growing, IsGrowing};

    ghost view = { λ b. growing b.slots b.at };

    ghost invariant = { λ b. IsGrowing b.slots b.at b.place };
}

impl TreeBuilder {
    /// A builder of a tree whose current node is the root.
    pub fn new(tree: Tree) -> TreeBuilder
        ensures tree { result.tree ≡ tree }
        ensures root { result.at ≡ [] }
    {
        let slots = tree.slots;
        let alloc = *slots[0].children.allocator();
        TreeBuilder {
            slots,
            at: Path::root(alloc),
            place: 0,
        }
    }

    /// The tree.
    pub fn finish(self) -> Tree
        ensures { result ≡ self.tree }
    {
        Tree { slots: self.slots }
    }

    /// The path of the current node.
    pub fn path(&self) -> &Path
        ensures path { result.now ≡ self.now.at }
        ensures there { IsNode self.now.tree self.now.at }
    {
        &self.at
    }

    /// Goes down to the child of a number. Constant.
    pub fn go_down(&mut self, step: u32) -> Result<(), TreeFault>
        ensures ok { OnOk result (self.new.at ≡ self.old.at ++ step ∷ []) }
        ensures tree { self.new.tree ≡ self.old.tree }
        ensures no_such_node { IsErrOf result TreeFault.NoSuchNode ↔ IsNone (node_at (self.old.at ++ step ∷ []) self.old.tree) }
        ensures too_many_nodes { IsErrOf result TreeFault.TooManyNodes → ⊥ }
        ensures err { OnErr result (self.new ≡ self.old) }
    {
        let Some(child) = self.slots[self.place].children.get(step as usize) else {
            return Err(TreeFault::NoSuchNode);
        };
        let child = *child;
        self.at.push(step)?;
        self.place = child;
        Ok(())
    }

    /// Goes up so many levels, or to the root where there are fewer. Linear in the levels.
    pub fn go_up(&mut self, levels: usize)
        ensures tree { self.new.tree ≡ self.old.tree }
        ensures at { self.new.at ≡ take (length self.old.at - levels) self.old.at }
    {
        for _level in 0..levels.min(self.at.len()) {
            self.rise();
        }
    }

    // Goes up to the parent; the root has none.
    fn rise(&mut self)
        ensures tree { self.new.tree ≡ self.old.tree }
        ensures at { self.new.at ≡ take (length self.old.at - 1) self.old.at }
    {
        let Some(parent) = self.slots[self.place].parent else {
            return;
        };
        self.at.pop();
        self.place = parent;
    }

    /// Gives the current node one child more, after those that it has, and returns the child's number there. Constant; no
    /// node is copied.
    pub fn add_child(&mut self, label: ClassSet) -> Result<u32, TreeFault>
        ensures ok { OnOk result (self.new.tree ≡ edit_at self.old.at (add_child label) self.old.tree) }
        ensures at { self.new.at ≡ self.old.at }
        ensures number { IfOk result (λ k. IfSome (node_at self.old.at self.old.tree) (λ n. k ≡ length_of n.below)) }
        ensures no_such_node { IsErrOf result TreeFault.NoSuchNode → ⊥ }
        ensures too_many_nodes { IsErrOf result TreeFault.TooManyNodes ↔ (count_of self.old.tree ≡ MOST_NODES) }
        ensures err { OnErr result (self.new ≡ self.old) }
    {
        add_last(&mut self.slots, self.place, label)
    }

    /// The same for the node at a path; the current node stays. Linear in the path's length.
    pub fn add_child_at(&mut self, at: &Path, label: ClassSet) -> Result<u32, TreeFault>
        ensures ok { OnOk result (self.new.tree ≡ edit_at at.now (add_child label) self.old.tree) }
        ensures at { self.new.at ≡ self.old.at }
        ensures number { IfOk result (λ k. IfSome (node_at at.now self.old.tree) (λ n. k ≡ length_of n.below)) }
        ensures no_such_node { IsErrOf result TreeFault.NoSuchNode ↔ IsNone (node_at at.now self.old.tree) }
        ensures too_many_nodes { IsErrOf result TreeFault.TooManyNodes
            ↔ (IsSome (node_at at.now self.old.tree) × count_of self.old.tree ≡ MOST_NODES) }
        ensures err { OnErr result (self.new ≡ self.old) }
    {
        let Some(place) = place_of(&self.slots, at, at.len()) else {
            return Err(TreeFault::NoSuchNode);
        };
        add_last(&mut self.slots, place, label)
    }

    /// Adds the classes of a set to the label of the node at a path, all or none of them; the current node stays. Linear in
    /// the path's length and those of the label and the set.
    pub fn add_classes_at(&mut self, at: &Path, classes: &ClassSet) -> Result<(), TreeFault>
        ensures ok { OnOk result (self.new.tree ≡ edit_at at.now (add_classes classes.now) self.old.tree) }
        ensures at { self.new.at ≡ self.old.at }
        ensures no_such_node { IsErrOf result TreeFault.NoSuchNode ↔ IsNone (node_at at.now self.old.tree) }
        ensures too_many_nodes { IsErrOf result TreeFault.TooManyNodes → ⊥ }
        ensures err { OnErr result (self.new ≡ self.old) }
    {
        let Some(place) = place_of(&self.slots, at, at.len()) else {
            return Err(TreeFault::NoSuchNode);
        };
        unite_label(&mut self.slots, place, classes)?;
        Ok(())
    }
}
