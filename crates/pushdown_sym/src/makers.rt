//! An index from each kind to the spawn rules that make it.
ghost use Rattle.std.specs.Prelude.{◌≡◌, ℕ, Contains, IfOk};
ghost use Rattle.std.specs.List.Sorted.{IsStrictlyIncreasing};
ghost use Rattle.row_index.specs.Rows.{row_of};
ghost use Rattle.pushdown_sym.specs.Givers.{AreMakers};

use row_index::Index;
use simple_core::Spawn;
use std::alloc::Global;
use std::marker::Model;
use tp_base::NoMemory;

/// An index: for each kind the places of the spawn rules that make it.
#[derive(Drop)]
pub(crate) struct Makers {
    places: Index,
}

impl Model for Makers {
    ghost use Rattle.std.specs.Prelude.{List, ℕ};

    ghost Value = { List (List ℕ) };

    ghost view = { λ m. m.places };
}

impl Makers {
    pub(crate) fn of_spawns(alloc: Global, spawns: &[Spawn]) -> Result<Self, NoMemory>
        ensures { IfOk result (AreMakers spawns.now) }
    {
        let mut places = Index::new(alloc);
        for i in 0..spawns.len() {
            let spawn = spawns[i];
            places.note(alloc, spawn.kind as usize, i)?;
        }
        Ok(Makers { places })
    }

    fn of(&self, kind: u32) -> &[usize]
        ensures { result.now ≡ row_of self.now kind }
    {
        self.places.of(kind as usize)
    }

    // The places of the rules that make one of these kinds.
    fn listed(&self, alloc: Global, kinds: &[u32]) -> Result<Vec<usize>, NoMemory>
        ensures { IfOk result (λ v. (j : ℕ) → Contains kinds.now j → (i : ℕ) → Contains (row_of self.now j) i → Contains v.items i) }
    {
        let mut places = Vec::new(alloc);
        for i in 0..kinds.len() {
            let kind = kinds[i];
            places.extend_from_slice(self.of(kind))?;
        }
        Ok(places)
    }

    /// The places of the rules that make one of these kinds, in order. Linear in their number, but for a sort.
    pub(crate) fn of_each(&self, alloc: Global, kinds: &[u32]) -> Result<Vec<usize>, NoMemory>
        ensures rising { IfOk result (λ v. IsStrictlyIncreasing v.items) }
        ensures whole { IfOk result (λ v. (j : ℕ) → Contains kinds.now j → (i : ℕ) → Contains (row_of self.now j) i → Contains v.items i) }
    {
        let mut places = self.listed(alloc, kinds)?;
        places.sort()?;
        places.dedup();
        Ok(places)
    }
}
