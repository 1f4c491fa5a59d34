//! A reference to a node of a tree, from which a caller climbs to the root.
ghost use Rattle.std.specs.Prelude.{◌≡◌, Some};
ghost use Rattle.tree_sem.specs.Table.{tree_in, IsTable};
ghost use Rattle.tree_sem.specs.TreeNodes.{node_of, parent_node};
ghost use Rattle.tree_sem.specs.Trees.{label_at, children_at};

use crate::slots::{Slot, place_of};
use slab::Slab;
use std::marker::Model;
use tp_base::{ClassSet, Path};

/// A node of a tree. A contract sees the tree and the node's path.
#[derive(Drop)]
pub struct Node<'a> {
    slots: &'a Slab<Slot>,
    place: usize,
}

impl<'a> Model for Node<'a> {
    ghost use Rattle.tree_sem.specs.TreeNodes.{TreeNode, tree_node_code};

    ghost Value = { TreeNode };

    ghost coded = { tree_node_code };

    ghost use Rattle.tree_sem.specs.Table.{tree_in, path_in, IsPlace};

    ghost view = { λ n. record { tree = tree_in n.slots.now 0; path = path_in n.slots.now n.place } };

    ghost invariant = { λ n. IsPlace n.slots.now n.place };
}

impl<'a> Node<'a> {
    /// The node at the path. Linear in the path's length.
    pub(crate) fn at_path(slots: &'a Slab<Slot>, at: &Path) -> Option<Node<'a>>
        requires { IsTable slots.now }
        ensures { result ≡ node_of (tree_in slots.now 0) at.now }
    {
        let place = place_of(slots, at, at.len())?;
        Some(Node { slots, place })
    }

    /// The node's label. Constant.
    pub fn label(&self) -> &'a ClassSet
        ensures { Some result.now ≡ label_at self.now.path self.now.tree }
    {
        &self.slots[self.place].label
    }

    /// How many children it has. Constant.
    pub fn children(&self) -> u32
        ensures { Some result ≡ children_at self.now.path self.now.tree }
    {
        self.slots[self.place].children.len() as u32
    }

    /// The node's parent, which the root alone has not. Constant.
    pub fn parent(&self) -> Option<Node<'a>>
        ensures { result ≡ parent_node self.now }
    {
        let place = self.slots[self.place].parent?;
        Some(Node {
            slots: self.slots,
            place,
        })
    }
}
