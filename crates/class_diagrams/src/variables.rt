//! The diagrams of single atoms, found by the atom's number.
ghost use Rattle.std.specs.Prelude.{◌≡◌, ◌≢◌, ◌<◌, ◌⊎◌, ℕ, [], None, Some, length, get_or, OnOk};
ghost use Rattle.tp_base.specs.declared.atoms.TheConstants.{MOST_ATOMS};
ghost use Rattle.class_diagrams.specs.declared.refs.Target.{Target};

use crate::refs::Ref;
use std::alloc::Global;
use std::marker::Model;
use tp_base::{Atom, MOST_ATOMS, NoMemory};

/// An index of variables: for some atoms the reference of their diagram, with a place for each atom up to the largest of
/// them. A contract sees the places.
#[derive(Drop)]
pub(crate) struct Variables {
    places: Vec<Option<Ref>>,
}

impl Model for Variables {
    ghost use Rattle.std.specs.Prelude.{List, Option};
    ghost use Rattle.class_diagrams.specs.declared.refs.Target.{Target};

    ghost Value = { List (Option Target) };

    ghost view = { λ v. v.places.items };
}

fn noted_at(places: &[Option<Ref>], number: usize) -> Option<Ref>
    ensures { result ≡ get_or places.now number None }
{
    match places.get(number) {
        Some(noted) => *noted,
        None => None,
    }
}

// Puts a reference in its place, if there is one.
fn put(places: &mut Vec<Option<Ref>>, number: usize, variable: Ref)
    ensures here { number < length places.old.items → get_or places.new.items number None ≡ Some variable }
    ensures others { (n : ℕ) → n ≢ number → get_or places.new.items n None ≡ get_or places.old.items n None }
    ensures only { (n : ℕ) (f : Target) → get_or places.new.items n None ≡ Some f → ((n ≡ number) × (f ≡ variable)) ⊎ (get_or places.old.items n None ≡ Some f) }
{
    if number < places.len() {
        places[number] = Some(variable);
    }
}

impl Variables {
    pub(crate) fn new(alloc: Global) -> Self
        ensures { result ≡ [] }
    {
        Variables {
            places: Vec::new(alloc),
        }
    }

    /// The variable of an atom, where it is noted. Constant.
    pub(crate) fn of(&self, atom: Atom) -> Option<Ref>
        ensures { result ≡ get_or self.now atom None }
    {
        noted_at(&self.places, atom.0 as usize)
    }

    // Makes a place for the atom of this number, if there can be such an atom.
    fn reach(&mut self, number: usize) -> Result<(), NoMemory>
        ensures there { OnOk result (number < MOST_ATOMS → number < length self.new) }
        ensures same { (n : ℕ) → get_or self.new n None ≡ get_or self.old n None }
    {
        if number >= MOST_ATOMS as usize {
            return Ok(());
        }
        'places: while self.places.len() <= number {
            self.places.push(None)?;
        }
        Ok(())
    }

    /// Notes the variable of an atom, if there can be such an atom. Linear in the atom's number, where it is the largest so far.
    pub(crate) fn note(&mut self, atom: Atom, variable: Ref) -> Result<(), NoMemory>
        ensures noted { OnOk result (atom < MOST_ATOMS → get_or self.new atom None ≡ Some variable) }
        ensures others { (n : ℕ) → n ≢ atom → get_or self.new n None ≡ get_or self.old n None }
        ensures only { (n : ℕ) (f : Target) → get_or self.new n None ≡ Some f → ((n ≡ atom) × (f ≡ variable)) ⊎ (get_or self.old n None ≡ Some f) }
    {
        let number = atom.0 as usize;
        self.reach(number)?;
        put(&mut self.places, number, variable);
        Ok(())
    }
}
