//! Interned names: each different pair of a kind and a name gets a number.
ghost use Rattle.std.specs.Prelude.{◌≡◌, ◌<◌, ◌≤◌, ◌+◌, ◌↔◌, [], ◌∷◌, ◌++◌, length, slice_get, Contains, Some, IsNone, IfOk, IfSome, OnOk, OnErr, IsErrOf, IfErr, option_map};
ghost use Rattle.tp_base.specs.Names.{IsDistinct, place_in, with_name};

use crate::atoms::{Atom, AtomKind, MOST_ATOMS};
use crate::names::{Name, place_of};
use crate::no_memory::OutOfMemory;
use indexmap::IndexSet;
use std::alloc::Global;
use std::marker::Model;
use thiserror::Error;

/// Why a name gets no number.
#[derive(Debug, PartialEq, Eq, Drop, Error)]
pub enum AtomFault {
    #[error("more than {MOST_ATOMS} different names")]
    TooManyAtoms,
    #[error("no memory")]
    Memory,
}

impl<E: OutOfMemory> From<E> for AtomFault {
    ghost use Rattle.tp_base.specs.declared.atom_table.AtomFault.TheVariants.{Memory};

    ghost from_gives = { λ _ e. e ≡ Memory };

    fn from(_error: E) -> AtomFault {
        AtomFault::Memory
    }
}

/// The names that were interned, in the order of their first coming. A contract sees the list of the
/// different pairs of a kind and a name.
#[derive(Drop)]
pub struct AtomTable {
    names: IndexSet<Name>,
    // what is looked up, whose room stays
    key: Name,
}

impl Model for AtomTable {
    ghost use Rattle.std.specs.Prelude.{List, map};
    ghost use Rattle.tp_base.specs.Names.{Named, named, IsTable};

    ghost Value = { List Named };

    ghost view = { λ t. map named t.names.keys };

    ghost invariant = { λ t. IsTable (map named t.names.keys) };
}

impl AtomTable {
    /// A table with no names.
    pub fn new(alloc: Global) -> Self
        ensures { result ≡ [] }
    {
        AtomTable {
            names: IndexSet::new(alloc),
            key: Name {
                kind: AtomKind::Aux,
                text: Vec::new(alloc),
            },
        }
    }

    /// How many names there are. Their numbers are those below it.
    pub fn count(&self) -> u32
        ensures count { result ≡ length self.now }
        ensures different { IsDistinct self.now }
        ensures in_limit { result ≤ MOST_ATOMS }
    {
        self.names.len() as u32
    }

    /// The number of a name, which is added where it is new. Linear in its text, and constant on average in the number of names,
    /// but linear in it where memory is at its end. A name that is there already is found without memory, too.
    pub fn intern(&mut self, kind: AtomKind, name: &[u8]) -> Result<Atom, AtomFault>
        ensures ok { IfOk result (λ a. with_name self.old (kind, name.now) ≡ Some (a, self.new)) }
        ensures place { IfOk result (λ a. slice_get self.new a ≡ Some (kind, name.now)) }
        ensures in_limit { IfOk result (λ a. a < MOST_ATOMS) }
        ensures known { Contains self.old (kind, name.now) → OnOk result (self.new ≡ self.old) }
        ensures added { ¬ Contains self.old (kind, name.now)
            → OnOk result (self.new ≡ self.old ++ (kind, name.now) ∷ []) }

        ensures full { IsErrOf result AtomFault.TooManyAtoms ↔ (with_name self.old (kind, name.now) ≡ None) }
        ensures too_many { IsErrOf result AtomFault.TooManyAtoms
            ↔ (¬ Contains self.old (kind, name.now) × length self.old ≡ MOST_ATOMS) }
        ensures err { OnErr result (self.new ≡ self.old) }
    {
        let full = self.count() >= MOST_ATOMS;
        match self.find(kind, name) {
            Some(atom) => Ok(atom),
            None if full => Err(AtomFault::TooManyAtoms),
            None => self.enter(kind, name),
        }
    }

    // The number of a name that is there already.
    fn find(&mut self, kind: AtomKind, name: &[u8]) -> Option<Atom>
        ensures place { result ≡ place_in self.old (kind, name.now) }
        ensures same { self.new ≡ self.old }
    {
        let place = self.index_of(kind, name)?;
        Some(Atom(place as u32))
    }

    // Its place: by its hash, or by a look at each where there is no memory for a key.
    fn index_of(&mut self, kind: AtomKind, name: &[u8]) -> Option<usize>
        ensures place { result ≡ place_in self.old (kind, name.now) }
        ensures within { IfSome result (λ i. i < MOST_ATOMS) }
        ensures same { self.new ≡ self.old }
    {
        self.key.kind = kind;
        self.key.text.clear();
        let Ok(()) = self.key.text.extend_from_slice(name) else {
            return place_of(self.names.as_slice(), kind, name);
        };
        self.names.get_index_of(&self.key)
    }

    // The number of a name, which goes last where it is new.
    fn enter(&mut self, kind: AtomKind, name: &[u8]) -> Result<Atom, AtomFault>
        requires room { length self.old < MOST_ATOMS }
        ensures ok { IfOk result (λ a. with_name self.old (kind, name.now) ≡ Some (a, self.new)) }
        ensures memory { IfErr result (λ e. e ≡ AtomFault.Memory) }
        ensures err { OnErr result (self.new ≡ self.old) }
    {
        let text = Vec::from_slice(*self.names.allocator(), name)?;
        let (place, _) = self.names.insert_full(Name { kind, text })?;
        Ok(Atom(place as u32))
    }

    /// The name of a number, or nothing if no name has it. Constant.
    pub fn name_of(&self, atom: Atom) -> Option<(AtomKind, &[u8])>
        ensures name { option_map (λ n. (n.0, n.1.now)) result ≡ slice_get self.now atom }
        ensures none { IsNone result ↔ (length self.now ≤ atom) }
    {
        let name = self.names.get_index(atom.0 as usize)?;
        Some((name.kind, name.text.as_slice()))
    }
}
