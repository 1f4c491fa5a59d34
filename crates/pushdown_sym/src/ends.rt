//! An index from each atom that spawns a child to the atoms that links give for it.
ghost use Rattle.std.specs.Prelude.{◌≡◌, ◌<◌, ℕ, [], length, IfSome, IfNone, OnOk, OnErr};
ghost use Rattle.row_index.specs.Rows.{row_of};
ghost use Rattle.pushdown_sym.specs.Ends.{IsEndNoted, AreEndsNoted, AreSomeNoted};

use std::alloc::Global;
use std::marker::Model;
use tp_base::{Atom, ClassSet, NoMemory};

/// An index: for each atom that spawns children, the right sides of the links that look at what a child may have. A contract
/// sees the rows, by the atoms.
#[derive(Drop)]
pub struct Ends {
    alloc: Global,
    rows: Vec<ClassSet>,
}

impl Model for Ends {
    ghost use Rattle.std.specs.Prelude.{List, ℕ};

    ghost Value = { List (List ℕ) };

    ghost view = { λ e. e.rows.items };
}

impl Ends {
    /// An empty index.
    pub fn new(alloc: Global) -> Self
        ensures { result ≡ [] }
    {
        Ends {
            alloc,
            rows: Vec::new(alloc),
        }
    }

    /// The ends of an atom, where some may have been noted. Constant.
    pub fn of(&self, atom: Atom) -> Option<&ClassSet>
        ensures none { IfNone result (row_of self.now atom ≡ []) }
        ensures some { IfSome result (λ ends. ends.now ≡ row_of self.now atom) }
    {
        self.rows.get(atom.0 as usize)
    }

    // Makes a row for the atom of this number.
    fn reach(&mut self, number: usize) -> Result<(), NoMemory>
        ensures there { OnOk result (number < length self.new) }
        ensures same { (m : ℕ) → row_of self.new m ≡ row_of self.old m }
    {
        'rows: while self.rows.len() <= number {
            self.rows.push(ClassSet::new(self.alloc))?;
        }
        Ok(())
    }

    // One end of an atom.
    fn note(&mut self, atom: u32, end: Atom) -> Result<(), NoMemory>
        ensures ok { OnOk result (IsEndNoted atom end (row_of self.old) (row_of self.new)) }
        ensures err { OnErr result ((m : ℕ) → row_of self.new m ≡ row_of self.old m) }
    {
        self.reach(atom as usize)?;
        let row = &mut self.rows[atom as usize];
        row.add(end)?;
        Ok(())
    }

    /// The end of each of these pairs, for its atom. A binary search for each, and a step for each greater end of the atom
    /// where it is new.
    pub fn note_each(&mut self, pairs: &[(u32, Atom)]) -> Result<(), NoMemory>
        ensures ok { OnOk result (AreEndsNoted pairs.now (row_of self.old) (row_of self.new)) }
        ensures err { OnErr result (AreSomeNoted pairs.now (row_of self.old) (row_of self.new)) }
    {
        for pair in pairs {
            self.note(pair.0, pair.1)?;
        }
        Ok(())
    }
}
