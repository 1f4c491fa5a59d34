//! The declarations that are in scope at a place of a script.
ghost use Rattle.std.specs.Prelude.{◌≡◌, ◌-◌, [], ◌∷◌, ◌++◌, length, take, option_map, OnOk, OnErr};
ghost use Rattle.jq_parts.specs.Bindings as spec;
ghost use Rattle.jq_parts.specs.Views.{declaration_of, declarations_of};

use crate::entries::Entry;
use crate::values::Declaration;
use jq_cursor::LastPlaces;
use std::alloc::Global;
use std::marker::Model;
use tp_base::NoMemory;

/// The declarations in scope, in the order of the text. A contract sees the list of them.
#[derive(Drop)]
pub struct Declarations<'a> {
    entries: Vec<Entry<'a>>,
    places: LastPlaces<'a>,
}

impl<'a> Model for Declarations<'a> {
    ghost use Rattle.std.specs.Prelude.{List, map};
    ghost use Rattle.jq_parts.specs.declared.values.Declaration.{Declaration};
    ghost use Rattle.jq_cursor.specs.LastPlaces.{place_in};
    ghost use Rattle.jq_parts.specs.Places.{IsIndexed};
    ghost use Rattle.jq_parts.specs.contracts.values.Value as e;
    ghost use Rattle.std.specs.Coded.{codes};

    ghost Value = { List Declaration };

    ghost coded = { Prim.hlevel (codes, e.the_row.coded) };

    ghost view = { λ d. map (λ e. e.declaration) d.entries.items };

    ghost invariant = { λ d. IsIndexed d.entries.items (place_in d.places) };
}

impl<'a> Declarations<'a> {
    /// No declarations yet. Constant.
    #[tactic(auto, using(crate::proofs::PlacesSteps::none_indexed))]
    pub fn new(alloc: Global) -> Self
        ensures { result ≡ [] }
    {
        Declarations {
            entries: Vec::new(alloc),
            places: LastPlaces::new(alloc),
        }
    }

    /// The number of declarations. Constant.
    #[tactic(auto, using(crate::proofs::PlacesSteps::as_many))]
    pub fn len(&self) -> usize
        ensures { result ≡ length self.now }
    {
        self.entries.len()
    }

    /// Adds a declaration at the end. Linear in its name, on average.
    #[tactic(auto, using(crate::proofs::PlacesSteps::pushed, crate::proofs::PlacesSteps::one_indexed, crate::proofs::PlacesSteps::popped, crate::proofs::PlacesSteps::not_popped, crate::proofs::PlacesSteps::restored, crate::proofs::PlacesSteps::not_restored))]
    pub fn push(&mut self, declaration: Declaration<'a>) -> Result<(), NoMemory>
        ensures pushed { OnOk result (self.new ≡ self.old ++ declaration.entry ∷ []) }
        ensures kept { OnErr result (self.new ≡ self.old) }
    {
        let name = declaration.name;
        let hides = self.places.get(name);
        let Ok(place) = u32::try_from(self.entries.len()) else {
            return Err(NoMemory);
        };
        self.entries.push(Entry { declaration, hides })?;
        if let Err(e) = self.places.put(name, Some(place)) {
            self.entries.pop();
            return Err(e);
        }
        Ok(())
    }

    // Drops the last declaration.
    #[tactic(auto, using(crate::proofs::PlacesSteps::last_less, crate::proofs::PlacesSteps::none_less, crate::proofs::PlacesSteps::last_known, crate::proofs::PlacesSteps::last_gone, crate::proofs::PlacesSteps::none_gone))]
    fn drop_last(&mut self)
        ensures { self.new ≡ take (length self.old - 1) self.old }
    {
        if let Some(entry) = self.entries.pop() {
            self.places.put_back(entry.declaration.name, entry.hides);
        }
    }

    /// Keeps the first `count` declarations. Linear in the names of the others, on average.
    #[tactic(auto, using(crate::proofs::PlacesSteps::one_cut, crate::proofs::PlacesSteps::few_cut, crate::proofs::PlacesSteps::fewer))]
    pub fn cut(&mut self, count: usize)
        ensures { self.new ≡ take count self.old }
    {
        'declarations: while self.len() > count {
            self.drop_last();
        }
    }

    /// The last declaration of a name, which hides those before it. Linear in the name, on average.
    #[tactic(auto, using(crate::proofs::PlacesSteps::none_last, crate::proofs::PlacesSteps::is_last, crate::proofs::PlacesSteps::within))]
    pub fn latest(&self, name: &[u8]) -> Option<&Declaration<'a>>
        ensures { spec.latest name.now (declarations_of self.now) ≡ option_map (λ d. declaration_of d.now) result }
    {
        let Some(place) = self.places.get(name) else {
            return None;
        };
        let entry = &self.entries[place as usize];
        Some(&entry.declaration)
    }
}
