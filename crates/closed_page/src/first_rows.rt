//! The firsts of a page by atoms. Siblings that stand next to each other and get an atom in one round are stored as one run.
ghost use Rattle.std.specs.Prelude.{◌≡◌, ◌<◌, ◌≤◌, ℕ, List, ◌++◌, length, Contains, IfOk, OnOk, IfSome, IsNone, IsTrue, IsFalse};
ghost use Rattle.std.specs.List.Sorted.{IsSortedByKey};
ghost use Rattle.closed_page.specs.declared.first_rounds.Spot.{Spot};
ghost use Rattle.closed_page.specs.Notes.{NodeFirst, expanded, spot_cmp, AreAlike};
ghost use Rattle.closed_page.specs.Runs.{row_at, start_of, end_of, covers, ends_before, AllEndBy, IsWith, IsPutIn, IsPut, AreOrdered, AreSorted, AreEnded, AreByAtom, AreByAtomWith, IsRunOf};

use crate::first_rounds::Spot;
use crate::notes::{NodeNews, alike_to};
use std::alloc::Global;
use std::marker::Model;
use tp_base::{Atom, ClassSet, NoMemory};

/// A run: consecutive children of one node, from `first` to `last`, that got an atom in one round.
#[derive(Clone, Copy, Debug, PartialEq, Eq)]
pub(crate) struct Run {
    pub(crate) parent: usize,
    pub(crate) first: u32,
    pub(crate) last: u32,
    pub(crate) round: u64,
}

impl Run {
    /// Whether the child is in the run.
    pub(crate) fn covers(&self, spot: Spot) -> bool
        ensures { result ≡ covers self.now spot }
    {
        self.parent == spot.parent && self.first <= spot.step && spot.step <= self.last
    }

    /// Whether the run ends before the child.
    pub(crate) fn ends_before(&self, spot: Spot) -> bool
        ensures { result ≡ ends_before self.now spot }
    {
        self.parent < spot.parent || (self.parent == spot.parent && self.last < spot.step)
    }

    // The run extended by these children, if they follow it directly and came in the same round.
    fn with(self, kids: Run) -> Option<Run>
        ensures { IfSome result (λ x. IsWith self kids x) }
    {
        if self.parent != kids.parent || self.round != kids.round {
            return None;
        }
        if kids.first.saturating_sub(self.last) > 1 {
            return None;
        }
        Some(Run {
            parent: self.parent,
            first: self.first,
            last: kids.last,
            round: self.round,
        })
    }
}

/// The firsts of one atom, sorted by the parents and then by the children. A contract sees the list of their runs.
#[derive(Drop)]
pub(crate) struct FirstRow {
    items: Vec<Run>,
}

impl Model for FirstRow {
    ghost use Rattle.std.specs.Prelude.{List};
    ghost use Rattle.closed_page.specs.declared.first_rows.Run.{Run};

    ghost Value = { List Run };

    ghost view = { λ r. r.items.items };
}

impl FirstRow {
    // Adds the children to the last run, if they follow it in the same round, and tells whether they did.
    fn takes(&mut self, kids: Run) -> bool
        requires ordered { AreOrdered self.old }
        requires ends { AllEndBy self.old (start_of kids) }
        requires filled { kids.first ≤ kids.last }
        ensures taken { IsTrue result → IsPutIn self.old self.new kids }
        ensures left { IsFalse result → self.new ≡ self.old }
    {
        let count = self.items.len();
        if count == 0 {
            return false;
        }
        let last = self.items[count - 1];
        match last.with(kids) {
            Some(run) => {
                self.items[count - 1] = run;
                true
            }
            None => false,
        }
    }

    // Adds children that do not stand before the others.
    fn put(&mut self, kids: Run) -> Result<(), NoMemory>
        requires ordered { AreOrdered self.old }
        requires ends { AllEndBy self.old (start_of kids) }
        requires filled { kids.first ≤ kids.last }
        ensures { OnOk result (IsPutIn self.old self.new kids) }
    {
        if self.takes(kids) {
            return Ok(());
        }
        self.items.push(kids)?;
        Ok(())
    }
}

// Makes empty rows up to the atom.
fn reach(rows: &mut Vec<FirstRow>, alloc: Global, atom: Atom) -> Result<(), NoMemory>
    ensures there { OnOk result (atom < length rows.new.items) }
    ensures same { OnOk result ((a : ℕ) → row_at rows.new.items a ≡ row_at rows.old.items a) }
{
    'rows: while rows.len() <= atom.0 as usize {
        rows.push(FirstRow {
            items: Vec::new(alloc),
        })?;
    }
    Ok(())
}

// Adds children to the row of the atom. Linear in the atom's number where it is the largest so far.
fn put(rows: &mut Vec<FirstRow>, alloc: Global, atom: Atom, kids: Run) -> Result<(), NoMemory>
    requires ordered { AreOrdered (row_at rows.old.items atom) }
    requires ends { AllEndBy (row_at rows.old.items atom) (start_of kids) }
    requires filled { kids.first ≤ kids.last }
    ensures { OnOk result (IsPut rows.old.items rows.new.items atom kids) }
{
    reach(rows, alloc, atom)?;
    let row = &mut rows[atom.0 as usize];
    row.put(kids)?;
    Ok(())
}

// Adds children to the rows of these atoms.
fn put_all(
    rows: &mut Vec<FirstRow>,
    alloc: Global,
    atoms: &ClassSet,
    kids: Run,
) -> Result<(), NoMemory>
    requires sorted { AreSorted rows.old.items }
    requires ended { AreEnded rows.old.items (start_of kids) }
    requires filled { kids.first ≤ kids.last }
    ensures sorted { OnOk result (AreSorted rows.new.items) }
    ensures ended { OnOk result (AreEnded rows.new.items (end_of kids)) }
    ensures rows { OnOk result ((fs : List NodeFirst) → AreByAtom fs rows.old.items → AreByAtomWith fs atoms.now kids rows.new.items) }
{
    for i in 0..atoms.len() {
        put(rows, alloc, atoms.at(i), kids)?;
    }
    Ok(())
}

// The run of the children of the notes from the i-th on, before `end`.
fn kids_of(notes: &[NodeNews], i: usize, end: usize) -> Run
    requires { AreAlike notes.now i end }
    ensures { IsRunOf notes.now i end result }
{
    Run {
        parent: notes[i].spot.parent,
        first: notes[i].spot.step,
        last: notes[end - 1].spot.step,
        round: notes[i].round,
    }
}

// The firsts of these notes by their atoms.
fn by_atoms(alloc: Global, notes: &[NodeNews]) -> Result<Vec<FirstRow>, NoMemory>
    requires { IsSortedByKey (λ n. n.spot) spot_cmp notes.now }
    ensures rows { IfOk result (λ r. AreByAtom (expanded notes.now) r.items) }
    ensures sorted { IfOk result (λ r. AreSorted r.items) }
{
    let mut rows = Vec::new(alloc);
    let mut i = 0;
    'notes: while i < notes.len() {
        let end = alike_to(notes, i);
        let kids = kids_of(notes, i, end);
        put_all(&mut rows, alloc, notes[i].atoms.set(), kids)?;
        i = end;
    }
    Ok(rows)
}

// Sorts notes by the nodes' parents and then by the children. The notes of a round come in document order. The sort uses order
// that is there, so that it costs little where few nodes have descendants.
fn in_order(notes: &mut Vec<NodeNews>) -> Result<(), NoMemory>
    ensures sorted { OnOk result (IsSortedByKey (λ n. n.spot) spot_cmp notes.new.items) }
    ensures back { OnOk result ((f : NodeFirst) → Contains (expanded notes.new.items) f → Contains (expanded notes.old.items) f) }
    ensures on { OnOk result ((f : NodeFirst) → Contains (expanded notes.old.items) f → Contains (expanded notes.new.items) f) }
{
    notes.sort_by_key(|note| note.spot)?;
    Ok(())
}

/// The firsts of notes in sorted rows by atoms. Costs a sort of the notes, a comparison of each with the one before, and a step
/// for each number up to the largest atom. Each run of children with the same new atoms in one round costs a few steps for each
/// of these atoms. Each row takes memory, and so does each run in it.
pub(crate) fn in_rows(alloc: Global, notes: Vec<NodeNews>) -> Result<Vec<FirstRow>, NoMemory>
    ensures rows { IfOk result (λ r. AreByAtom (expanded notes.items) r.items) }
    ensures sorted { IfOk result (λ r. AreSorted r.items) }
{
    let mut ordered = notes;
    in_order(&mut ordered)?;
    let rows = by_atoms(alloc, &ordered)?;
    Ok(rows)
}

/// The runs of an atom. Constant.
pub(crate) fn row_of(rows: &[FirstRow], atom: Atom) -> &[Run]
    ensures { result.now ≡ row_at rows.now atom }
{
    match rows.get(atom.0 as usize) {
        Some(row) => &row.items,
        None => &[],
    }
}
