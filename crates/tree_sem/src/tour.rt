//! A walk over a tree in document order that keeps its place between calls.
ghost use Rattle.std.specs.Prelude.{◌≡◌, ℕ, [], ◌∷◌, ◌++◌, take, Some, IfOk, IfSome, IfNone, OnOk, OnErr, MatchBool};
ghost use Rattle.tree_sem.specs.Nodes.{IsNode};
ghost use Rattle.tree_sem.specs.Trees.{label_at, children_at};
ghost use Rattle.tree_sem.specs.Order.{rest_of};

use crate::label_tree::Tree;
use crate::slots::Slot;
use slab::Slab;
use std::alloc::Global;
use std::marker::Model;
use tp_base::{ClassSet, NoMemory, Path};

/// A walk. A contract sees the tree and the path of the node at which it is.
#[derive(Drop)]
pub struct Tour<'a> {
    slots: &'a Slab<Slot>,
    at: Path,
    /// Where that node is in the table.
    place: usize,
}

impl<'a> Model for Tour<'a> {
    ghost use Rattle.tree_sem.specs.Growing.{GrowingTree, growing_code};

    ghost Value = { GrowingTree };

    ghost coded = { growing_code };

    ghost use Rattle.tree_sem.specs.Growing.{growing, IsGrowing};

    ghost view = { λ b. growing b.slots.now b.at };

    ghost invariant = { λ b. IsGrowing b.slots.now b.at b.place };
}

impl<'a> Tour<'a> {
    /// A walk that begins at the root.
    pub fn new(alloc: Global, tree: &'a Tree) -> Tour<'a>
        ensures tree { result.tree ≡ tree.now }
        ensures root { result.at ≡ [] }
    {
        Tour {
            slots: &tree.slots,
            at: Path::root(alloc),
            place: 0,
        }
    }

    /// The path of the node at which it is. Constant.
    pub fn path(&self) -> &Path
        ensures path { result.now ≡ self.now.at }
        ensures there { IsNode self.now.tree self.now.at }
    {
        &self.at
    }

    /// The label of the node at which the tour stands. Constant.
    pub fn label(&self) -> &'a ClassSet
        ensures { Some result.now ≡ label_at self.now.at self.now.tree }
    {
        &self.slots[self.place].label
    }

    // How many children it has.
    fn children(&self) -> u32
        ensures count { Some result ≡ children_at self.now.at self.now.tree }
        ensures there { IsNode self.now.tree self.now.at }
    {
        self.slots[self.place].children.len() as u32
    }

    // Goes down to the child of a number.
    fn go_down(&mut self, step: u32) -> Result<(), NoMemory>
        requires { IsNode self.old.tree (self.old.at ++ step ∷ []) }
        ensures ok { OnOk result (self.new.at ≡ self.old.at ++ step ∷ []) }
        ensures tree { self.new.tree ≡ self.old.tree }
        ensures err { OnErr result (self.new ≡ self.old) }
    {
        let Some(child) = self.slots[self.place].children.get(step as usize) else {
            unreachable!()
        };
        let child = *child;
        self.at.push(step)?;
        self.place = child;
        Ok(())
    }

    // Goes up to the parent, and says which child this node is. The root is none.
    fn rise(&mut self) -> Option<u32>
        ensures tree { self.new.tree ≡ self.old.tree }
        ensures none { IfNone result (self.old.at ≡ [] × self.new.at ≡ []) }
        ensures some { IfSome result (λ step. self.old.at ≡ self.new.at ++ step ∷ []) }
    {
        let parent = self.slots[self.place].parent?;
        let step = self.at.pop();
        self.place = parent;
        step
    }

    /// Goes on to the next node in the order of the document, and says whether there was one; where there was none, it is at
    /// the root again. Where it wants memory, it is at the node or at some node above. A whole tour costs a few steps for each
    /// node.
    pub fn go_on(&mut self) -> Result<bool, NoMemory>
        ensures next { IfOk result (λ moved. MatchBool moved
            (rest_of self.old.at self.old.tree ≡ self.new.at ∷ rest_of self.new.at self.old.tree)
            ((rest_of self.old.at self.old.tree ≡ []) × (self.new.at ≡ []))) }
        ensures tree { self.new.tree ≡ self.old.tree }
        ensures err { OnErr result ((len : ℕ) × (self.new.at ≡ take len self.old.at)) }
    {
        if self.children() > 0 {
            self.go_down(0)?;
            return Ok(true);
        }
        while let Some(step) = self.rise() {
            let children = self.children();
            if step + 1 < children {
                self.go_down(step + 1)?;
                return Ok(true);
            }
        }
        Ok(false)
    }
}
