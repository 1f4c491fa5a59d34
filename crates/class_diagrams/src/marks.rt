//! A set of atoms as one bit for each atom.
ghost use Rattle.std.specs.Prelude.{◌≡◌, ◌<◌, ◌≤◌, ℕ, false, get_or, All, IfOk};
ghost use Rattle.tp_base.specs.Classes.{has_class};

use std::alloc::Global;
use std::marker::Model;
use tp_base::{Atom, ClassSet, NoMemory};

/// A set of atoms as a bit vector, with a byte for each number up to its largest atom, for a set that is asked many times. A
/// contract sees the set, as a list that rises.
#[derive(Drop)]
pub struct Marks {
    marks: Vec<bool>,
}

impl Model for Marks {
    ghost use Rattle.std.specs.Prelude.{List, ℕ};

    ghost Value = { List ℕ };

    ghost use Rattle.class_diagrams.specs.Marks.{marked};

    ghost view = { λ m. marked m.marks.items };
}

impl Marks {
    /// The marks of a set. Linear in its largest atom, with a byte for each number up to there.
    pub fn of(alloc: Global, set: &ClassSet) -> Result<Marks, NoMemory>
        ensures { IfOk result (λ m. m ≡ set.now) }
    {
        let mut marks = vec![in alloc; false; numbers_of(set)]?;
        for i in 0..set.len() {
            let number = set.at(i).0 as usize;
            marks[number] = true;
        }
        Ok(Marks { marks })
    }

    /// Whether the atom is in the set. Constant.
    pub fn has(&self, atom: Atom) -> bool
        ensures { result ≡ has_class atom self.now }
    {
        mark_at(&self.marks, atom.0 as usize)
    }
}

fn mark_at(marks: &[bool], number: usize) -> bool
    ensures { result ≡ get_or marks.now number false }
{
    match marks.get(number) {
        Some(mark) => *mark,
        None => false,
    }
}

/// How many numbers there are up to the largest atom of the set. Constant.
pub(crate) fn numbers_of(set: &ClassSet) -> usize
    ensures all { All (λ a. a < result) set.now }
    ensures least { (n : ℕ) → All (λ a. a < n) set.now → result ≤ n }
{
    match set.len() {
        0 => 0,
        count => set.at(count - 1).0 as usize + 1,
    }
}
