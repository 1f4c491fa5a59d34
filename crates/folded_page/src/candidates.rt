//! Candidates for representatives, by a hash of each subtree. Nothing here is promised but that it ends: each candidate is
//! checked before it is used.
use crate::links::{Links, mixed, number_at};
use std::alloc::Global;
use tp_base::NoMemory;

// At how many slots a node is looked for; behind them it stands for itself.
const MOST_LOOKS: usize = 16;

// The first nodes with their hash below their parent, each at a slot by the two or close behind it; 0 at a free slot.
#[derive(Drop)]
struct Notes {
    slots: Vec<usize>,
}

impl Notes {
    // The first node below the same parent that has the same hash, or the node itself, which is noted then.
    fn first_of(&mut self, parents: &[usize], hashes: &[usize], node: usize) -> usize {
        let start = self.start(number_at(parents, node), number_at(hashes, node));
        for turn in 0..MOST_LOOKS {
            let slot = start.wrapping_add(turn);
            let noted = number_at(&self.slots, slot);
            if noted == 0 {
                put(&mut self.slots, slot, node);
                return node;
            }
            if are_twins(parents, hashes, noted, node) {
                return noted;
            }
        }
        node
    }

    // The first slot at which a node is looked for.
    fn start(&self, parent: usize, hash: usize) -> usize {
        let upper = mixed(hash, parent) >> 32;
        upper.wrapping_mul(self.slots.len()) >> 32
    }
}

// Puts a number at a place of a list, where it has the place.
fn put(numbers: &mut Vec<usize>, i: usize, number: usize) {
    if i < numbers.len() {
        numbers[i] = number;
    }
}

// Whether two nodes have one parent and one hash.
fn are_twins(parents: &[usize], hashes: &[usize], first: usize, second: usize) -> bool {
    number_at(hashes, first) == number_at(hashes, second)
        && number_at(parents, first) == number_at(parents, second)
}

// Whether a node is the only child of its parent.
fn is_only(links: &Links, parent: usize, node: usize) -> bool {
    number_at(&links.first, parent) == node && number_at(&links.next, node) <= node
}

// The candidate of a node, by those before it. Below a node that another one stands for, it is what the node at the same place
// below that one has. An only child stands for itself, and needn't be noted.
fn candidate(
    parents: &[usize],
    links: &Links,
    leads: &[usize],
    notes: &mut Notes,
    node: usize,
) -> usize {
    let parent = number_at(parents, node);
    let above = number_at(leads, parent);
    if above != parent {
        number_at(leads, node.wrapping_sub(parent).wrapping_add(above))
    } else if is_only(links, parent, node) {
        node
    } else {
        notes.first_of(parents, &links.hashes, node)
    }
}

/// Of each node the number of one that may stand for it. Constant for each node.
pub(crate) fn candidates(
    alloc: Global,
    parents: &[usize],
    links: &Links,
) -> Result<Vec<usize>, NoMemory> {
    let mut notes = Notes {
        slots: vec![in alloc; 0; parents.len().saturating_add(MOST_LOOKS)]?,
    };
    let mut leads = Vec::from_slice(alloc, parents)?;
    put(&mut leads, 0, 0);
    for node in 1..parents.len() {
        let lead = candidate(parents, links, &leads, &mut notes, node);
        put(&mut leads, node, lead);
    }
    Ok(leads)
}
