//! The spots where atoms are needed, by their numbers: nodes of the page and added nodes.
ghost use Rattle.std.specs.Prelude.{◌≡◌, ◌++◌, if◌then◌else◌, suc, length, Some, slice_get, IfOk, OnOk, OnErr, nat_eq};
ghost use Rattle.std.specs.Cmp.Lexicographic.{pointwise};
ghost use Rattle.std.specs.Cmp.Rules.{comparing};
ghost use Rattle.std.specs.Hash as fed;
ghost use Rattle.std.specs.Ordering.{on, eq_of_both};
ghost use Rattle.std.specs.Str.{bytes_eq};
ghost use Rattle.std.proofs.Common.{rules};
ghost use Rattle.proof_needs.specs.Keys.{mixed, mixed_alike};
ghost use Rattle.proof_needs.specs.Sets.{IsWith};
ghost use Rattle.proof_needs.specs.Spots.{paths_in, triples_in};

use indexmap::IndexSet;
use pair_table::{hash_of, same_atoms};
use std::alloc::Global;
use std::hash::{Hash, Hasher};
use tp_base::{Atom, ClassSet, NoMemory, Path};

/// A node of the page, or an added node, by its number.
#[derive(Clone, Copy, Debug, PartialEq, Eq, Hash)]
pub enum Spot {
    Page(usize),
    Added(usize),
}

/// An atom that is needed at a spot.
#[derive(Clone, Copy, Debug, PartialEq, Eq, Hash)]
pub struct Want {
    pub spot: Spot,
    pub atom: Atom,
}

/// An atom of an added node, by the node's kind and the visible label of its parent.
#[derive(Debug, Drop)]
pub struct TripleKey {
    pub kind: u32,
    pub parent: ClassSet,
    pub atom: Atom,
}

impl TripleKey {
    // All that tells the key from others, as one number. Linear in the label.
    fn mixed(&self) -> u64
        ensures { result ≡ mixed self.now }
    {
        hash_of(self.kind, &self.parent).wrapping_mul(1_099_511_628_211) ^ self.atom.0 as u64
    }
}

// Whether two labels are one.
fn is_same(first: &ClassSet, second: &ClassSet) -> bool
    ensures { result ≡ bytes_eq first.now second.now }
{
    same_atoms(first, second)
}

impl PartialEq for TripleKey {
    ghost eq = { eq_of_both (on (λ k. k.kind) nat_eq) (eq_of_both (on (λ k. k.parent) (pointwise nat_eq)) (on (λ k. k.atom) nat_eq)) };

    ghost laws = { Prim.search (comparing, rules) };

    fn eq(&self, other: &TripleKey) -> bool {
        self.kind == other.kind && is_same(&self.parent, &other.parent) && self.atom == other.atom
    }
}

impl Eq for TripleKey {
    ghost laws = { Prim.search (comparing, rules) };
}

impl Hash for TripleKey {
    ghost hash_input = { λ k. fed.u64 (mixed k) };

    ghost respects_eq = { mixed_alike };

    fn hash<H: Hasher>(&self, state: &mut H) {
        state.write_u64(self.mixed());
    }
}

/// The number of a node, which it gets where it has none. Linear in the path's length, on average.
pub fn node_number(
    alloc: Global,
    nodes: &mut IndexSet<Vec<u32>>,
    at: &Path,
) -> Result<usize, NoMemory>
    ensures number { IfOk result (λ n. slice_get (paths_in nodes.new.keys) n ≡ Some at.now) }
    ensures nodes { OnOk result (IsWith (paths_in nodes.old.keys) (λ v. v ≡ at.now) (paths_in nodes.new.keys)) }
    ensures err { OnErr result (nodes.new.keys ≡ nodes.old.keys) }
{
    let steps = steps_of(alloc, at)?;
    let (number, _) = nodes.insert_full(steps)?;
    Ok(number)
}

fn steps_of(alloc: Global, at: &Path) -> Result<Vec<u32>, NoMemory>
    ensures { IfOk result (λ steps. steps.items ≡ at.now) }
{
    let mut steps = Vec::new(alloc);
    for i in 0..at.len() {
        steps.push(at.at(i))?;
    }
    Ok(steps)
}

/// The path of a node. Linear in its length.
pub fn path_of(alloc: Global, nodes: &IndexSet<Vec<u32>>, number: usize) -> Result<Path, NoMemory>
    ensures { IfOk result (λ p. (v : _) → slice_get (paths_in nodes.now.keys) number ≡ Some v → p ≡ v) }
{
    let mut path = Path::root(alloc);
    if let Some(steps) = nodes.get_index(number) {
        add_steps(&mut path, steps)?;
    }
    Ok(path)
}

fn add_steps(path: &mut Path, steps: &[u32]) -> Result<(), NoMemory>
    ensures { OnOk result (path.new ≡ path.old ++ steps.now) }
{
    for step in steps {
        path.push(*step)?;
    }
    Ok(())
}

/// The number of a triple, which it gets where it has none, and whether it had none. Linear in the label's length, on average.
pub fn triple_number(
    triples: &mut IndexSet<TripleKey>,
    kind: u32,
    parent: ClassSet,
    atom: Atom,
) -> Result<(usize, bool), NoMemory>
    ensures number { IfOk result (λ r. slice_get (triples_in triples.new.keys) r.0 ≡ Some (record { kind = kind; parent = parent; atom = atom })) }
    ensures triples { OnOk result (IsWith (triples_in triples.old.keys) (λ t. t ≡ record { kind = kind; parent = parent; atom = atom }) (triples_in triples.new.keys)) }
    ensures err { OnErr result (triples.new.keys ≡ triples.old.keys) }
    ensures count { IfOk result (λ r. length triples.new.keys ≡ (if r.1 then suc (length triples.old.keys) else length triples.old.keys)) }
{
    let key = TripleKey { kind, parent, atom };
    let (number, new) = triples.insert_full(key)?;
    Ok((number, new))
}
