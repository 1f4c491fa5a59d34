//! A buffer of atoms, and the set that one sort makes of it.
ghost use Rattle.std.specs.Prelude.{◌≡◌, ◌++◌, [], not, length, take, IfOk, OnOk, OnErr};
ghost use Rattle.std.specs.List.{filter};
ghost use Rattle.std.specs.List.Sorted.{IsStrictlyIncreasing};
ghost use Rattle.tp_base.specs.Classes.{has_class, with_class, union_of};
ghost use Rattle.gathered.specs.Between.{IsBetween};

use crate::moving::{move_few, move_many};
use std::alloc::Global;
use std::marker::Model;
use tp_base::{Atom, ClassSet, NoMemory};

// Up to this many atoms, or up to an eighth of the set's size, are moved into a set one by one.
const A_FEW: usize = 8;

/// A buffer of atoms in the order in which they come. An atom may stand there more than once. A contract sees the set of them.
#[derive(Drop)]
pub struct Gathered {
    atoms: Vec<Atom>,
}

impl Model for Gathered {
    ghost use Rattle.std.specs.Prelude.{List, ℕ, []};
    ghost use Rattle.tp_base.specs.Classes.{union_of};

    ghost Value = { List ℕ };

    ghost view = { λ g. union_of [] g.atoms.items };
}

// Appends the atoms of a set. When memory runs out, the old atoms still stand in front.
fn push_each(atoms: &mut Vec<Atom>, set: &ClassSet) -> Result<(), NoMemory>
    ensures ok { OnOk result (atoms.new.items ≡ atoms.old.items ++ set.now) }
    ensures err { OnErr result (take (length atoms.old.items) atoms.new.items ≡ atoms.old.items) }
{
    for i in 0..set.len() {
        atoms.push(set.at(i))?;
    }
    Ok(())
}

impl Gathered {
    /// An empty buffer.
    pub fn new(alloc: Global) -> Self
        ensures { result ≡ [] }
    {
        Gathered {
            atoms: Vec::new(alloc),
        }
    }

    /// Adds one atom. Amortized constant.
    #[tactic(auto, using(crate::proofs::GatheredLemmas::one_more))]
    pub fn add(&mut self, atom: Atom) -> Result<(), NoMemory>
        ensures ok { OnOk result (self.new ≡ with_class atom self.old) }
        ensures err { OnErr result (self.new ≡ self.old) }
    {
        self.atoms.push(atom)?;
        Ok(())
    }

    /// Adds the atoms of a set. Linear in their number.
    #[tactic(auto, using(crate::proofs::GatheredLemmas::more_of_set, crate::proofs::GatheredLemmas::same_again))]
    pub fn union(&mut self, set: &ClassSet) -> Result<(), NoMemory>
        ensures ok { OnOk result (self.new ≡ union_of self.old set.now) }
        ensures err { OnErr result (self.new ≡ self.old) }
    {
        let before = self.atoms.len();
        match push_each(&mut self.atoms, set) {
            Ok(()) => Ok(()),
            Err(fault) => {
                self.atoms.truncate(before);
                Err(fault)
            }
        }
    }

    /// Adds the atoms of another buffer. Amortized linear in their number.
    #[tactic(auto, using(crate::proofs::GatheredLemmas::joined))]
    pub fn append(&mut self, other: &Gathered) -> Result<(), NoMemory>
        ensures ok { OnOk result (self.new ≡ union_of self.old other.now) }
        ensures err { OnErr result (self.new ≡ self.old) }
    {
        self.atoms.extend_from_slice(&other.atoms)?;
        Ok(())
    }

    /// The set of the atoms. Costs one sort.
    pub fn into_set(self) -> Result<ClassSet, NoMemory>
        ensures { IfOk result (λ s. s ≡ self) }
    {
        ClassSet::of(self.atoms)
    }

    /// Removes all atoms, and keeps the memory for others.
    pub fn clear(&mut self)
        ensures { self.new ≡ [] }
    {
        self.atoms.clear();
    }

    /// Moves all atoms into a set. Those that the set did not have replace the content of `news`, in increasing order. Each of
    /// a few atoms costs a search of the set, and each new one shifts the atoms behind it. Many atoms cost a sort and a copy of
    /// the set. When memory runs out, the set may have some of the atoms, and `news` has no meaning. The atoms are still here,
    /// and another call moves them all.
    pub fn move_to(&mut self, set: &mut ClassSet, news: &mut Vec<Atom>) -> Result<(), NoMemory>
        ensures set { OnOk result (set.new ≡ union_of set.old self.old) }
        ensures news { OnOk result (news.new.items ≡ filter (λ a. not (has_class a set.old)) self.old) }
        ensures rises { OnOk result (IsStrictlyIncreasing self.old) }
        ensures none { OnOk result (self.new ≡ []) }
        ensures left { OnErr result (self.new ≡ self.old) }
        ensures between { OnErr result (IsBetween set.old (union_of set.old self.old) set.new) }
    {
        news.clear();
        if self.atoms.len() <= A_FEW.max(set.len() / A_FEW) {
            move_few(&self.atoms, set, news)?;
        } else {
            move_many(&self.atoms, set, news)?;
        }
        self.atoms.clear();
        Ok(())
    }
}
