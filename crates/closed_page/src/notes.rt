//! Notes of the atoms that nodes of a page get, one for each node and round.
ghost use Rattle.std.specs.Prelude.{◌≡◌, ◌↔◌, ◌∷◌, ◌++◌, ◌<◌, ◌^◌, ℕ, List, [], length, Contains, IfOk, OnOk, IsTrue};
ghost use Rattle.std.specs.List.Sorted.{IsStrictlyIncreasing};
ghost use Rattle.closed_page.specs.Firsts.{IsSpotOf};
ghost use Rattle.closed_page.specs.Gains.{new_of};
ghost use Rattle.closed_page.specs.Notes.{IsNoted, AreAtSpots, IsAlike, AreAlike};

use crate::first_rounds::Spot;
use crate::shared_set::{A_FEW, SharedSet};
use pair_table::same_atoms;
use tp_base::{Atom, ClassSet, NoMemory};

/// A note: the atoms that a node got in a round.
#[derive(Drop)]
pub(crate) struct NodeNews {
    pub(crate) spot: Spot,
    pub(crate) round: u64,
    pub(crate) atoms: SharedSet,
}

/// Whether no atom of the set is in the other one. Each atom costs a search of the other set.
pub fn are_all_missing(set: &ClassSet, other: &ClassSet) -> bool
    ensures { IsTrue result ↔ ((a : ℕ) → Contains set.now a → ¬ Contains other.now a) }
{
    for i in 0..set.len() {
        if other.has(set.at(i)) {
            return false;
        }
    }
    true
}

// Whether the two sets have no atom in common. Linear in both lengths.
fn are_apart(set: &ClassSet, other: &ClassSet) -> bool
    ensures apart { IsTrue result → (a : ℕ) → Contains set.now a → ¬ Contains other.now a }
    ensures rising { IsStrictlyIncreasing set.now }
{
    let count = set.len();
    let others = other.len();
    let mut i = 0;
    let mut j = 0;
    'atoms: while i < count && j < others {
        let atom = set.at(i).0;
        let next = other.at(j).0;
        if atom == next {
            return false;
        }
        if atom < next {
            i += 1;
        } else {
            j += 1;
        }
    }
    true
}

// The atoms of a set that another set does not have.
fn left_of(own: &ClassSet, set: &ClassSet) -> Result<ClassSet, NoMemory>
    ensures { IfOk result (λ s. s ≡ new_of own.now set.now) }
{
    let mut left = Vec::new(set.allocator());
    for i in 0..set.len() {
        push_new(own, set.at(i), &mut left)?;
    }
    let set = ClassSet::of(left)?;
    Ok(set)
}

fn push_new(own: &ClassSet, atom: Atom, left: &mut Vec<Atom>) -> Result<(), NoMemory>
    ensures { OnOk result (left.new.items ≡ left.old.items ++ new_of own.now (atom ∷ [])) }
{
    if !own.has(atom) {
        left.push(atom)?;
    }
    Ok(())
}

// Whether a node has no atom of a label. A few atoms are searched for, more of them cost a walk along both sets.
fn is_all_new(own: &ClassSet, label: &ClassSet) -> bool
    ensures apart { IsTrue result → (a : ℕ) → Contains label.now a → ¬ Contains own.now a }
    ensures rising { IsStrictlyIncreasing label.now }
{
    if label.len() <= A_FEW {
        return are_all_missing(label, own);
    }
    are_apart(label, own)
}

// The atoms of a label that a node does not have. If it has none of them, the label itself is shared.
fn new_to(own: &ClassSet, label: &SharedSet) -> Result<SharedSet, NoMemory>
    ensures atoms { IfOk result (λ s. s ≡ new_of own.now label.now) }
    ensures rising { IsStrictlyIncreasing label.now }
{
    let set = label.set();
    if is_all_new(own, set) {
        let shared = label.share()?;
        return Ok(shared);
    }
    let left = left_of(own, set)?;
    let shared = SharedSet::new(left)?;
    Ok(shared)
}

/// Notes the atoms of a label that the node does not have. Linear in both labels, or a search for each of a few atoms. A new
/// set is allocated only if the node has some of the atoms.
pub(crate) fn note(
    notes: &mut Vec<NodeNews>,
    spot: Spot,
    own: &ClassSet,
    label: &SharedSet,
    round: u64,
) -> Result<(), NoMemory>
    ensures noted { OnOk result (IsNoted notes.old.items notes.new.items spot own.now label.now round) }
    ensures spots { (nodes : List (List ℕ)) (v : List ℕ) → IsSpotOf nodes v spot → AreAtSpots nodes notes.old.items → AreAtSpots nodes notes.new.items }
    ensures few { length notes.new.items < 2 ^ 63 }
    ensures rising { IsStrictlyIncreasing label.now }
{
    let atoms = new_to(own, label)?;
    notes.push(NodeNews { spot, round, atoms })?;
    Ok(())
}

// Whether the second node stands `by` steps behind the first, and got the same atoms in the same round.
fn is_alike(first: &NodeNews, second: &NodeNews, by: usize) -> bool
    ensures { IsTrue result → IsAlike first.now by second.now }
{
    if second.spot.parent != first.spot.parent || second.round != first.round {
        return false;
    }
    if second.spot.step < first.spot.step {
        return false;
    }
    if (second.spot.step - first.spot.step) as usize != by {
        return false;
    }
    same_atoms(second.atoms.set(), first.atoms.set())
}

/// The end of the notes from the i-th on that are of consecutive siblings with the same atoms and round. Costs a comparison for
/// each of them and one more.
pub(crate) fn alike_to(notes: &[NodeNews], i: usize) -> usize
    requires { i < length notes.now }
    ensures { AreAlike notes.now i result }
{
    let first = &notes[i];
    let mut end = i + 1;
    'notes: while end < notes.len() && is_alike(first, &notes[end], end - i) {
        end += 1;
    }
    end
}
