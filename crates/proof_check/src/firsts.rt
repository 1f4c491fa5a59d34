//! The atoms that the items so far prove of each node.
ghost use Rattle.std.specs.Prelude.{◌≡◌, ℕ, ◌==◌, ◌&&◌, if◌then◌else◌, Some, OnOk, unwrap_or, false, None};
ghost use Rattle.proof_check.specs.Firsts.{first_in};

use indexmap::IndexMap;
use std::alloc::Global;
use tp_base::{Atom, NoMemory};

#[derive(Clone, Copy, Debug, PartialEq, Eq, Hash)]
struct Spot {
    node: u64,
    atom: Atom,
}

/// The atoms that are known of nodes, each with whether a `down` link gave it first.
#[derive(Drop)]
pub struct Firsts {
    table: IndexMap<Spot, bool>,
}

impl Firsts {
    /// An empty table. Constant.
    pub fn new(alloc: Global) -> Firsts
        ensures { (n a : ℕ) → first_in result n a ≡ None }
    {
        Firsts {
            table: IndexMap::new(alloc),
        }
    }

    /// Whether a `down` link gave the atom first, where it is known. Constant on average.
    pub fn get(&self, node: u64, atom: Atom) -> Option<bool>
        ensures { result ≡ first_in self.now node atom }
    {
        let down = self.table.get(&Spot { node, atom })?;
        Some(*down)
    }

    /// Adds an atom, unless it is known.
    pub fn add(&mut self, node: u64, atom: Atom, down: bool) -> Result<(), NoMemory>
        ensures added { OnOk result (first_in self.new node atom ≡ Some (unwrap_or (first_in self.old node atom) down)) }
        ensures others { OnOk result ((n a : ℕ) → (node == n && atom == a) ≡ false → first_in self.new n a ≡ first_in self.old n a) }
    {
        if self.get(node, atom).is_none() {
            self.table.insert(Spot { node, atom }, down)?;
        }
        Ok(())
    }
}
