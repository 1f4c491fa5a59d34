//! Indexes of a system's rules by the atom that they give.
ghost use Rattle.std.specs.Prelude.{◌≡◌, IfOk};
ghost use Rattle.simple_core.specs.Givers.{places_in, AreGivers, AreAllGivers};

use crate::rules::{Link, Local};
use crate::system::System;
use row_index::Index;
use std::alloc::Global;
use std::marker::Model;
use tp_base::{Atom, NoMemory};

/// An index: for each atom the places of the rules that give it, in a list of rules. There is a row for each atom up to the
/// largest that is given.
#[derive(Drop)]
pub struct Givers {
    places: Index,
}

impl Model for Givers {
    ghost use Rattle.std.specs.Prelude.{List, ℕ};

    ghost Value = { List (List ℕ) };

    ghost view = { λ g. g.places };
}

impl Givers {
    /// The index of local rules. Linear in the rules and the largest atom that they give.
    pub fn of_locals(alloc: Global, rules: &[Local]) -> Result<Self, NoMemory>
        ensures { IfOk result (AreGivers (λ r. r.gives) rules.now) }
    {
        let mut places = Index::new(alloc);
        for i in 0..rules.len() {
            let rule = &rules[i];
            places.note(alloc, rule.gives.0 as usize, i)?;
        }
        Ok(Givers { places })
    }

    /// The index of links. Linear in the links and the largest atom that they give.
    pub fn of_links(alloc: Global, links: &[Link]) -> Result<Self, NoMemory>
        ensures { IfOk result (AreGivers (λ l. l.to) links.now) }
    {
        let mut places = Index::new(alloc);
        for i in 0..links.len() {
            let link = &links[i];
            places.note(alloc, link.to.0 as usize, i)?;
        }
        Ok(Givers { places })
    }

    /// The places of the rules that give the atom, in increasing order. Constant.
    pub fn of(&self, atom: Atom) -> &[usize]
        ensures { result.now ≡ places_in self.now atom }
    {
        self.places.of(atom.0 as usize)
    }
}

/// The three indexes of a system: of its local rules, of its links from a parent, and of its links from a child.
#[derive(Drop)]
pub struct AllGivers {
    pub locals: Givers,
    pub ups: Givers,
    pub downs: Givers,
}

impl AllGivers {
    /// Builds the three indexes. Linear in the rules and the largest atom that they give.
    pub fn of(alloc: Global, system: &System) -> Result<Self, NoMemory>
        ensures { IfOk result (AreAllGivers system.now) }
    {
        let locals = Givers::of_locals(alloc, system.local.items())?;
        let ups = Givers::of_links(alloc, system.up.items())?;
        let downs = Givers::of_links(alloc, system.down.items())?;
        Ok(AllGivers { locals, ups, downs })
    }
}
