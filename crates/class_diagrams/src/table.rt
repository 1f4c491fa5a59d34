//! The unique table: each branch is stored once.
ghost use Rattle.std.specs.Prelude.{◌≡◌, ◌<◌, ◌≤◌, length, [], Ok, Err, IfSome, IfNone, IsNone, IsTrue, ◌↔◌};
ghost use Rattle.class_diagrams.specs.Trees.{branch, join, IsLeaf, IsOrdered};
ghost use Rattle.class_diagrams.specs.Arena.{tree_at, IsIn, IsArena};
ghost use Rattle.class_diagrams.specs.Table.{tree_by, branch_key};
ghost use Rattle.class_diagrams.specs.Answers.{Gives};
ghost use Rattle.class_diagrams.specs.Pairs.{IsPair};
ghost use Rattle.std.specs.Hash.{u128};
ghost use borrow.Author.Rules.{rules};

use crate::faults::DiagramFault;
use crate::refs::{Ref, Target};
use indexmap::IndexSet;
use limits::MOST_BRANCHES;
use std::alloc::Global;
use std::cmp::Ordering;
use std::hash::{Hash, Hasher};
use std::marker::Model;
use tp_base::Atom;

#[derive(Clone, Copy, Debug, PartialEq, Eq)]
pub(crate) struct BranchNode {
    atom: Atom,
    low: Ref,
    high: Ref,
}

impl BranchNode {
    // The branch as one number.
    fn key(&self) -> u128
        ensures { result ≡ branch_key self.now }
    {
        self.atom.0 as u128 * 0x1_0000_0000_0000_0000
            + self.low.number() as u128 * 0x1_0000_0000
            + self.high.number() as u128
    }
}

impl Hash for BranchNode {
    ghost hash_input = { λ b. u128 (branch_key b) };

    ghost respects_eq = { Prim.search rules };

    fn hash<H: Hasher>(&self, state: &mut H) {
        state.write_u128(self.key());
    }
}

/// Two diagrams: one is a leaf, or both are branches, with their low and their high parts at the smaller atom.
#[derive(Drop)]
pub(crate) enum Pair {
    WithLeaf {
        value: bool,
        other: Ref,
    },
    Branches {
        atom: Atom,
        low: (Ref, Ref),
        high: (Ref, Ref),
    },
}

/// The unique table: different branches by number, each behind its parts.
#[derive(Drop)]
pub(crate) struct BranchTable {
    nodes: IndexSet<BranchNode>,
    limit: u32,
}

impl Model for BranchTable {
    ghost use Rattle.class_diagrams.specs.Arena.{Arena};
    ghost use Rattle.class_diagrams.specs.TreeCode.{arena_code};

    ghost Value = { Arena };

    ghost coded = { arena_code };

    ghost use Rattle.class_diagrams.specs.Table.{arena_of, IsTable};

    ghost view = { λ t. arena_of t.nodes.keys t.limit };

    ghost invariant = { λ t. IsTable t.nodes.keys t.limit };
}

impl BranchTable {
    pub(crate) fn new(alloc: Global, limit: u32) -> Self
        requires { limit ≤ MOST_BRANCHES }
        ensures none { result.branches ≡ [] }
        ensures limit { result.limit ≡ limit }
        ensures arena { IsArena result }
    {
        BranchTable {
            nodes: IndexSet::new(alloc),
            limit,
        }
    }

    pub(crate) fn len(&self) -> u32
        ensures len { result ≡ length self.now.branches }
        ensures arena { IsArena self.now }
    {
        self.nodes.len() as u32
    }

    /// The atom, the low and the high part of a branch, or nothing at a leaf.
    pub(crate) fn branch(&self, f: Ref) -> Option<(Atom, Ref, Ref)>
        requires { IsIn self.now.branches f }
        ensures leaf { IsNone result ↔ IsLeaf (tree_at self.now.branches f) }
        ensures low { IfSome result (λ b. IsIn self.now.branches b.1) }
        ensures high { IfSome result (λ b. IsIn self.now.branches b.2) }
        ensures tree { IfSome result (λ b. tree_at self.now.branches f ≡ branch b.0 (tree_at self.now.branches b.1) (tree_at self.now.branches b.2)) }
    {
        match f.target() {
            Target::Leaf(_) => None,
            Target::Branch(number) => {
                let node = self.nodes.get_index(number as usize)?;
                Some((node.atom, node.low, node.high))
            }
        }
    }

    /// Whether two diagrams have the same tree: each tree is there once.
    pub(crate) fn same(&self, f: Ref, g: Ref) -> bool
        requires first { IsIn self.now.branches f }
        requires second { IsIn self.now.branches g }
        requires arena { IsArena self.now }
        ensures { IsTrue result ↔ (tree_at self.now.branches f ≡ tree_at self.now.branches g) }
    {
        f.is(g)
    }

    /// Two diagrams, split at the first atom of either.
    pub(crate) fn pair(&self, f: Ref, g: Ref) -> Pair
        requires first { IsIn self.now.branches f }
        requires second { IsIn self.now.branches g }
        requires arena { IsArena self.now }
        ensures { IsPair self.now.branches f g result }
    {
        match (f.target(), g.target()) {
            (Target::Leaf(value), _) => Pair::WithLeaf { value, other: g },
            (Target::Branch(_), Target::Leaf(value)) => Pair::WithLeaf { value, other: f },
            (Target::Branch(first), Target::Branch(second)) => self.split(f, g, first, second),
        }
    }

    fn split(&self, f: Ref, g: Ref, first: u32, second: u32) -> Pair
        requires is_first { f ≡ Target.Branch first }
        requires is_second { g ≡ Target.Branch second }
        requires first { first < length self.now.branches }
        requires second { second < length self.now.branches }
        ensures { IsPair self.now.branches f g result }
    {
        let left = &self.nodes.as_slice()[first as usize];
        let right = &self.nodes.as_slice()[second as usize];
        match left.atom.cmp(&right.atom) {
            Ordering::Less => Pair::Branches {
                atom: left.atom,
                low: (left.low, g),
                high: (left.high, g),
            },
            Ordering::Equal => Pair::Branches {
                atom: left.atom,
                low: (left.low, right.low),
                high: (left.high, right.high),
            },
            Ordering::Greater => Pair::Branches {
                atom: right.atom,
                low: (f, right.low),
                high: (f, right.high),
            },
        }
    }

    /// The branch on an atom, or its one part where both are the same, which keeps diagrams reduced.
    pub(crate) fn join(&mut self, atom: Atom, low: Ref, high: Ref) -> Result<Ref, DiagramFault>
        requires low_in { IsIn self.old.branches low }
        requires high_in { IsIn self.old.branches high }
        requires ordered { IsOrdered (join atom (tree_at self.old.branches low) (tree_at self.old.branches high)) }
        requires arena { IsArena self.old }
        ensures { Gives self.old self.new (join atom (tree_at self.old.branches low) (tree_at self.old.branches high)) result }
    {
        if low.is(high) {
            Ok(low)
        } else {
            self.enter(BranchNode { atom, low, high })
        }
    }

    // The reference of a branch, which goes last where it is new.
    fn enter(&mut self, node: BranchNode) -> Result<Ref, DiagramFault>
        requires low_in { IsIn self.old.branches node.low }
        requires high_in { IsIn self.old.branches node.high }
        requires ordered { IsOrdered (tree_by self.old.branches node) }
        ensures { Gives self.old self.new (tree_by self.old.branches node) result }
    {
        if self.len() < self.limit {
            self.insert(node)
        } else {
            self.find(node).ok_or(DiagramFault::Full)
        }
    }

    fn insert(&mut self, node: BranchNode) -> Result<Ref, DiagramFault>
        requires low_in { IsIn self.old.branches node.low }
        requires high_in { IsIn self.old.branches node.high }
        requires ordered { IsOrdered (tree_by self.old.branches node) }
        requires room { length self.old.branches < self.old.limit }
        ensures { Gives self.old self.new (tree_by self.old.branches node) result }
    {
        let (number, _) = self.nodes.insert_full(node)?;
        let entered = Ref::branch(number as u32);
        Ok(entered)
    }

    fn find(&self, node: BranchNode) -> Option<Ref>
        requires low_in { IsIn self.now.branches node.low }
        requires high_in { IsIn self.now.branches node.high }
        ensures found { IfSome result (λ f. Gives self.now self.now (tree_by self.now.branches node) (Ok f)) }
        ensures none { self.now.limit ≤ length self.now.branches
            → IfNone result (Gives self.now self.now (tree_by self.now.branches node) (Err DiagramFault.Full)) }
    {
        let number = self.nodes.get_index_of(&node)?;
        let found = Ref::branch(number as u32);
        Some(found)
    }
}
