//! An index from each name to its last place in a list.
ghost use Rattle.std.specs.Prelude.{◌≡◌, ℕ, List, None, if◌then◌else◌, bytes_eq, IsSome, OnOk, OnErr};
ghost use Rattle.jq_cursor.specs.LastPlaces.{place_in};

use indexmap::IndexMap;
use std::alloc::Global;
use tp_base::NoMemory;

/// For each name the place where it stands last, if it stands in the list.
#[derive(Drop)]
pub struct LastPlaces<'a> {
    table: IndexMap<&'a [u8], Option<u32>>,
}

impl<'a> LastPlaces<'a> {
    /// An empty index. Constant.
    pub fn new(alloc: Global) -> Self
        ensures { (q : List ℕ) → place_in result q ≡ None }
    {
        LastPlaces {
            table: IndexMap::new(alloc),
        }
    }

    /// Linear in the name, on average.
    pub fn get(&self, name: &[u8]) -> Option<u32>
        ensures { result ≡ place_in self.now name.now }
    {
        match self.table.get(name) {
            Some(place) => *place,
            None => None,
        }
    }

    /// Linear in the name, on average.
    #[tactic(auto, using(crate::proofs::NameSteps::put))]
    pub fn put(&mut self, name: &'a [u8], place: Option<u32>) -> Result<(), NoMemory>
        ensures put { OnOk result ((q : List ℕ) → place_in self.new q ≡ (if bytes_eq name.now q then place else place_in self.old q)) }
        ensures kept { OnErr result ((q : List ℕ) → place_in self.new q ≡ place_in self.old q) }
    {
        self.table.insert(name, place)?;
        Ok(())
    }

    /// Changes the place of a name that has one, which wants no memory. Linear in the name, on average.
    #[tactic(auto, using(crate::proofs::NameSteps::put_known))]
    pub fn put_back(&mut self, name: &'a [u8], place: Option<u32>)
        requires { IsSome (place_in self.old name.now) }
        ensures { (q : List ℕ) → place_in self.new q ≡ (if bytes_eq name.now q then place else place_in self.old q) }
    {
        let _put = self.table.insert(name, place);
    }
}
