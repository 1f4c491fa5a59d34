//! The children of each node as linked lists of numbers, and a hash of each subtree.
ghost use Rattle.std.specs.Prelude.{◌≡◌, IfOk, length, get_or};
ghost use Rattle.node_marks.specs.Numbering.{AreAbove};
ghost use Rattle.folded_page.specs.Links.{AreLinks};

use pair_table::hash_of;
use std::alloc::Global;
use tp_base::{ClassSet, NoMemory};

/// Of each node the number of its first child, and of the next one below the same parent: a number that is no greater than its
/// own, where there is none. And a hash of its subtree; that of the root is of no account.
#[derive(Drop)]
pub(crate) struct Links {
    pub(crate) first: Vec<usize>,
    pub(crate) next: Vec<usize>,
    pub(crate) hashes: Vec<usize>,
}

impl Links {
    /// The links and hashes of all nodes, by one walk from the last node to the first. Constant for each node and each atom
    /// of its label.
    pub(crate) fn of(
        alloc: Global,
        parents: &[usize],
        labels: &[&ClassSet],
    ) -> Result<Links, NoMemory>
        requires above { AreAbove parents.now }
        requires as_many { length labels.now ≡ length parents.now }
        ensures { IfOk result (λ l. AreLinks parents.now l.first.items l.next.items) }
    {
        let mut first = Vec::from_slice(alloc, parents)?;
        let mut next = Vec::from_slice(alloc, parents)?;
        let mut hashes = Vec::from_slice(alloc, parents)?;
        let mut node = parents.len();
        'nodes: while node > 1 {
            node -= 1;
            let parent = parents[node];
            let before = first[parent];
            let hash = whole(first[node] > node, hashes[node], labels[node]);
            let above = joined(before > parent, hashes[parent], hash);
            hashes[node] = hash;
            hashes[parent] = above;
            next[node] = before;
            first[parent] = node;
        }
        Ok(Links {
            first,
            next,
            hashes,
        })
    }
}

/// A hash with a number taken in: 11,400,714,819,323,198,485 is 2 to the 64th, divided by the golden ratio.
pub(crate) fn mixed(hash: usize, number: usize) -> usize {
    let product = (hash ^ number).wrapping_mul(11_400_714_819_323_198_485);
    product ^ (product >> 32)
}

// A hash of a subtree, by that of the node's children, if it has some, and its label.
fn whole(has_children: bool, children: usize, label: &ClassSet) -> usize {
    let own = hash_of(0, label) as usize;
    if has_children {
        mixed(children, own)
    } else {
        mixed(1, own)
    }
}

// A hash of children, by that of those behind one, if there are some, and its own.
fn joined(has_others: bool, others: usize, child: usize) -> usize {
    if has_others {
        mixed(others, child)
    } else {
        child
    }
}

/// The number at a place of a list; 0, where it has no such place.
pub(crate) fn number_at(numbers: &[usize], i: usize) -> usize
    ensures { result ≡ get_or numbers.now i 0 }
{
    match numbers.get(i) {
        Some(number) => *number,
        None => 0,
    }
}
