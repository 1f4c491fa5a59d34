//! Sets of atoms that are shared and copied on write.
ghost use Rattle.std.specs.Prelude.{◌≡◌, ◌⊎◌, ◌<◌, ℕ, [], All, map, length, get_or, Contains, IfOk, IfSome, OnOk, IsTrue};
ghost use Rattle.tp_base.specs.Classes.{union_of};
ghost use Rattle.closed_page.specs.Gains.{IsLonger};

use pair_table::same_atoms;
use std::alloc::Global;
use std::marker::Model;
use std::rc::Rc;
use tp_base::{Atom, ClassSet, NoMemory};

/// A set of atoms that its copies share. A contract sees the set.
#[derive(Drop)]
pub struct SharedSet {
    set: Rc<ClassSet>,
}

impl Model for SharedSet {
    ghost use Rattle.std.specs.Prelude.{List, ℕ};

    ghost Value = { List ℕ };

    ghost view = { λ s. s.set.value };
}

impl SharedSet {
    /// Takes the set over without a copy. Constant.
    pub fn new(set: ClassSet) -> Result<SharedSet, NoMemory>
        ensures { IfOk result (λ s. s ≡ set) }
    {
        Ok(SharedSet {
            set: Rc::new(set.allocator(), set)?,
        })
    }

    /// The set, lent. Constant.
    pub fn set(&self) -> &ClassSet
        ensures { result.now ≡ self.now }
    {
        &self.set
    }

    /// Adds atoms to the set. The set is copied first if others share it. Each of a few atoms costs a search and shifts the
    /// atoms behind it, and more cost a walk along both sets. When memory runs out, some of the atoms may be there.
    pub(crate) fn add(&mut self, atoms: &ClassSet) -> Result<(), NoMemory>
        ensures all { OnOk result (self.new ≡ union_of self.old atoms.now) }
        ensures longer { IsLonger self.old self.new }
    {
        if let Some(set) = Rc::get_mut(&mut self.set) {
            return add_all(set, atoms);
        }
        let mut own = self.set().copy()?;
        add_all(&mut own, atoms)?;
        let shared = Rc::new(own.allocator(), own)?;
        self.set = shared;
        Ok(())
    }

    /// A copy that shares the set. Constant.
    pub fn share(&self) -> Result<SharedSet, NoMemory>
        ensures { IfOk result (λ s. s ≡ self.now) }
    {
        Ok(SharedSet {
            set: self.set.clone()?,
        })
    }
}

// Whether a set has the same atoms as another one.
fn is_same(known: &SharedSet, set: &ClassSet) -> bool
    ensures { IsTrue result → known.now ≡ set.now }
{
    same_atoms(known.set(), set)
}

/// A pool of sets with one atom each, by the atom. The empty set stands where no set is known yet.
#[derive(Drop)]
pub struct SharedSets {
    none: SharedSet,
    ones: Vec<SharedSet>,
}

impl SharedSets {
    /// An empty pool.
    pub fn new(alloc: Global) -> Result<SharedSets, NoMemory> {
        Ok(SharedSets {
            none: SharedSet::new(ClassSet::new(alloc))?,
            ones: Vec::new(alloc),
        })
    }

    // Makes a place of the pool for the atom.
    fn reach(&mut self, place: usize) -> Result<(), NoMemory>
        ensures { OnOk result (place < length self.new.ones.items) }
    {
        'ones: while self.ones.len() <= place {
            let none = self.none.share()?;
            self.ones.push(none)?;
        }
        Ok(())
    }

    // The pool's set at the place. If there is none, the given set is put there.
    fn one(&mut self, set: ClassSet, place: usize) -> Result<SharedSet, NoMemory>
        ensures { IfOk result (λ s. s ≡ set) }
    {
        self.reach(place)?;
        let known = &self.ones[place];
        if is_same(known, &set) {
            let again = known.share()?;
            return Ok(again);
        }
        let shared = SharedSet::new(set)?;
        let kept = shared.share()?;
        self.ones[place] = kept;
        Ok(shared)
    }

    /// Takes the set over without a copy. Sets with the same single atom share one from the pool. Constant, but linear in the
    /// atom's number where it is the largest so far.
    pub fn share_of(&mut self, set: ClassSet) -> Result<SharedSet, NoMemory>
        ensures { IfOk result (λ s. s ≡ set) }
    {
        if set.len() == 1 {
            let atom = set.at(0);
            return self.one(set, atom.0 as usize);
        }
        let shared = SharedSet::new(set)?;
        Ok(shared)
    }
}

/// Copies that share these sets. Linear in their number.
pub(crate) fn shares(alloc: Global, sets: &[SharedSet]) -> Result<Vec<SharedSet>, NoMemory>
    ensures { IfOk result (λ v. v.items ≡ sets.now) }
{
    let mut shared = Vec::new(alloc);
    for i in 0..sets.len() {
        let set = &sets[i];
        let share = set.share()?;
        shared.push(share)?;
    }
    Ok(shared)
}

/// Copies of the sets with these numbers, which share them. Linear in the numbers.
pub(crate) fn shares_at(
    alloc: Global,
    sets: &[SharedSet],
    numbers: &[usize],
) -> Result<Vec<SharedSet>, NoMemory>
    requires { All (λ k. k < length sets.now) numbers.now }
    ensures { IfOk result (λ v. v.items ≡ map (λ k. get_or sets.now k []) numbers.now) }
{
    let mut shared = Vec::new(alloc);
    for i in 0..numbers.len() {
        let number = numbers[i];
        let set = &sets[number];
        let share = set.share()?;
        shared.push(share)?;
    }
    Ok(shared)
}

// The last of these sets, if it equals the other set.
fn last_if_same<'a>(sets: &'a [SharedSet], set: &ClassSet) -> Option<&'a SharedSet>
    ensures { IfSome result (λ s. s.now ≡ set.now) }
{
    let last = sets.last()?;
    if same_atoms(last.set(), set) {
        Some(last)
    } else {
        None
    }
}

// The last of these sets, if it equals the other set, and else a copy of that one.
fn copy_after(sets: &[SharedSet], set: &ClassSet) -> Result<SharedSet, NoMemory>
    ensures { IfOk result (λ s. s ≡ set.now) }
{
    if let Some(last) = last_if_same(sets, set) {
        let shared = last.share()?;
        return Ok(shared);
    }
    let copy = SharedSet::new(set.copy()?)?;
    Ok(copy)
}

/// Copies of these sets, where equal sets behind one another share one copy. Linear in the sets.
pub(crate) fn copies(alloc: Global, sets: &[&ClassSet]) -> Result<Vec<SharedSet>, NoMemory>
    ensures { IfOk result (λ v. v.items ≡ map (λ s. s.now) sets.now) }
{
    let mut shared = Vec::new(alloc);
    for i in 0..sets.len() {
        let copy = copy_after(&shared, sets[i])?;
        shared.push(copy)?;
    }
    Ok(shared)
}

/// The most atoms that are searched for one by one in another set. For more of them both sets are walked along.
pub(crate) const A_FEW: usize = 8;

// Whether the atom is in one of the sets.
fn has_either(first: &ClassSet, second: &ClassSet, atom: Atom) -> bool
    ensures { IsTrue result → Contains first.now atom ⊎ Contains second.now atom }
{
    if first.has(atom) {
        return true;
    }
    second.has(atom)
}

// Whether each atom of a set is in one of two other sets.
fn are_in_either(set: &ClassSet, first: &ClassSet, second: &ClassSet) -> bool
    ensures { IsTrue result → (a : ℕ) → Contains set.now a → Contains first.now a ⊎ Contains second.now a }
{
    for i in 0..set.len() {
        if !has_either(first, second, set.at(i)) {
            return false;
        }
    }
    true
}

// Whether a set of a few atoms is the union of two other sets.
fn is_joined(set: &ClassSet, own: &ClassSet, atoms: &ClassSet) -> bool
    ensures { IsTrue result → set.now ≡ union_of own.now atoms.now }
{
    let count = set.len();
    let own_count = own.len();
    if count > A_FEW || own_count > count {
        return false;
    }
    if !own.within(set) {
        return false;
    }
    if !atoms.within(set) {
        return false;
    }
    are_in_either(set, own, atoms)
}

/// The set before the one with this number, if it is the union of that one and these atoms. A few steps for each atom of the
/// set before, and constant if it has more than a few.
pub(crate) fn joined_before(
    sets: &[SharedSet],
    number: usize,
    atoms: &ClassSet,
) -> Result<Option<SharedSet>, NoMemory>
    requires { number < length sets.now }
    ensures { IfOk result (λ o. IfSome o (λ s. s ≡ union_of (get_or sets.now number []) atoms.now)) }
{
    if number == 0 {
        return Ok(None);
    }
    let before = &sets[number - 1];
    let own = &sets[number];
    if !is_joined(before.set(), own.set(), atoms) {
        return Ok(None);
    }
    let shared = before.share()?;
    Ok(Some(shared))
}

// Adds these atoms one by one.
fn add_each(set: &mut ClassSet, atoms: &ClassSet) -> Result<(), NoMemory>
    ensures all { OnOk result (set.new ≡ union_of set.old atoms.now) }
    ensures longer { IsLonger set.old set.new }
{
    for i in 0..atoms.len() {
        set.add(atoms.at(i))?;
    }
    Ok(())
}

// Adds these atoms: a few one by one, more by a walk along both sets.
fn add_all(set: &mut ClassSet, atoms: &ClassSet) -> Result<(), NoMemory>
    ensures all { OnOk result (set.new ≡ union_of set.old atoms.now) }
    ensures longer { IsLonger set.old set.new }
{
    if atoms.len() <= A_FEW {
        return add_each(set, atoms);
    }
    set.union(atoms)?;
    Ok(())
}
