//! Histories: the changes of each cell, round by round.
ghost use Rattle.std.specs.Prelude.{◌≡◌, ◌<◌, ℕ, ◌==◌, ◌&&◌, ◌++◌, if◌then◌else◌, All, [], ◌∷◌, OnOk, IfOk};
ghost use Rattle.std.specs.List.Sorted.{IsNonDecreasingBy};
ghost use Rattle.row_index.specs.Rows.{row_of};
ghost use Rattle.class_diagrams.specs.Arena.{IsIn};
ghost use Rattle.saturation.specs.Histories.{first_holding, AreGrowing};
ghost use Rattle.saturation.specs.HistoryMap.{history_in, changes_of, IsBehind};

use class_diagrams::{AtomSet, Diagrams, Ref};
use pushdown_sym::start_of;
use row_index::Rows;
use std::alloc::Global;
use std::marker::Model;
use tp_base::{Atom, NoMemory};

/// The round of the first change whose diagram is true under the label. Later diagrams are true where earlier ones are, so that
/// a binary search finds it.
pub(crate) fn first_round_under<L: AtomSet>(
    changes: &[(u64, Ref)],
    d: &Diagrams,
    label: &L,
) -> Option<u64>
    requires inside { All (λ c. IsIn d.now.branches c.1) changes.now }
    requires growing { AreGrowing d.now.branches changes.now (L.atoms label.now) }
    ensures { result ≡ first_holding d.now.branches changes.now (L.atoms label.now) }
{
    let mut low = 0;
    let mut high = changes.len();
    'halves: while low < high {
        let middle = low + (high - low) / 2;
        if label.satisfies(d, changes[middle].1) {
            high = middle;
        } else {
            low = middle + 1;
        }
    }
    if low < changes.len() {
        Some(changes[low].0)
    } else {
        None
    }
}

/// A log of changes: for each kind the changes of its cells, each with its atom, in the order in which they came.
#[derive(Drop)]
pub(crate) struct Log {
    alloc: Global,
    rows: Rows<(Atom, (u64, Ref))>,
}

impl Model for Log {
    ghost use Rattle.std.specs.Prelude.{List};
    ghost use Rattle.saturation.specs.HistoryMap.{Noted};

    ghost Value = { List (List Noted) };

    ghost view = { λ l. l.rows };
}

impl Log {
    /// No changes yet.
    pub(crate) fn new(alloc: Global) -> Self
        ensures { result ≡ [] }
    {
        Log {
            alloc,
            rows: Rows::new(alloc),
        }
    }

    /// Appends a change.
    pub(crate) fn push(
        &mut self,
        kind: u32,
        atom: Atom,
        round: u64,
        to: Ref,
    ) -> Result<(), NoMemory>
        ensures { OnOk result ((j a : ℕ) → history_in self.new j a ≡ (if (kind == j) && (atom == a) then history_in self.old kind atom ++ (round, to) ∷ [] else history_in self.old j a)) }
    {
        self.rows
            .note(self.alloc, kind as usize, (atom, (round, to)))?;
        Ok(())
    }

    // The changes of a kind.
    fn of(&self, kind: usize) -> &[(Atom, (u64, Ref))]
        ensures { result.now ≡ row_of self.now kind }
    {
        self.rows.of(kind)
    }
}

/// The changes of a kind's cells, sorted by atoms. Changes of one cell stand in the order of their rounds.
#[derive(Drop)]
pub(crate) struct HistoryRow {
    atoms: Vec<Atom>,
    changes: Vec<(u64, Ref)>,
}

impl Model for HistoryRow {
    ghost use Rattle.std.specs.Prelude.{List};
    ghost use Rattle.std.specs.List.{zip};
    ghost use Rattle.saturation.specs.HistoryMap.{Noted, AreApart};

    ghost Value = { List Noted };

    ghost view = { λ r. zip r.atoms.items r.changes.items };

    ghost invariant = { λ r. AreApart r.atoms.items r.changes.items };
}

// Sorts the changes by atoms. Changes of one atom keep their order.
fn by_atoms(alloc: Global, row: &[(Atom, (u64, Ref))]) -> Result<Vec<(Atom, (u64, Ref))>, NoMemory>
    ensures order { IfOk result (λ v. IsNonDecreasingBy (λ n. n.0) v.items) }
    ensures same { (a : ℕ) → IfOk result (λ v. changes_of a v.items ≡ changes_of a row.now) }
{
    let mut noted = Vec::from_slice(alloc, row)?;
    noted.sort_by_key(|change| change.0.0)?;
    Ok(noted)
}

impl HistoryRow {
    // A row of changes that are sorted by atoms.
    fn of_ordered(alloc: Global, noted: &[(Atom, (u64, Ref))]) -> Result<HistoryRow, NoMemory>
        requires { IsNonDecreasingBy (λ n. n.0) noted.now }
        ensures { IfOk result (λ r. r ≡ noted.now) }
    {
        let mut atoms = Vec::new(alloc);
        let mut changes = Vec::new(alloc);
        for i in 0..noted.len() {
            let (atom, change) = noted[i];
            atoms.push(atom)?;
            changes.push(change)?;
        }
        Ok(HistoryRow { atoms, changes })
    }

    // The changes of an atom's cell, and the place behind them. Constant where they begin near the given place and are one at
    // most. Otherwise logarithmic in the row.
    fn of(&self, atom: Atom, near: usize) -> (&[(u64, Ref)], usize)
        ensures part { result.0.now ≡ changes_of atom self.now }
        ensures behind { IsBehind atom self.now result.1 }
    {
        let number = atom.0 as u64;
        let from = start_of(&self.atoms, near, number);
        let to = start_of(&self.atoms, from, number + 1);
        (self.changes.split_at(to).0.split_at(from).1, to)
    }
}

/// The history of each cell: the rounds in which it changed, and its diagram from each of them on.
#[derive(Drop)]
pub(crate) struct Histories {
    rows: Vec<HistoryRow>,
}

impl Model for Histories {
    ghost use Rattle.std.specs.Prelude.{List};
    ghost use Rattle.saturation.specs.HistoryMap.{Noted};

    ghost Value = { List (List Noted) };

    ghost view = { λ h. h.rows.items };
}

impl Histories {
    /// Makes the histories of `kinds` kinds from a log. Linear in the changes, plus a sort of each kind's changes.
    pub(crate) fn of_log(alloc: Global, log: &Log, kinds: usize) -> Result<Self, NoMemory>
        ensures { (j a : ℕ) → j < kinds → IfOk result (λ h. history_in h j a ≡ history_in log.now j a) }
    {
        let mut rows = Vec::new(alloc);
        for i in 0..kinds {
            let noted = by_atoms(alloc, log.of(i))?;
            rows.push(HistoryRow::of_ordered(alloc, &noted)?)?;
        }
        Ok(Histories { rows })
    }

    pub(crate) fn allocator(&self) -> Global {
        *self.rows.allocator()
    }

    /// The history of a cell, and the place behind it in the changes of its kind. Constant where it stands near the given place
    /// and has at most one change. Otherwise logarithmic in the changes of the kind.
    pub(crate) fn near(&self, kind: u32, atom: Atom, place: usize) -> (&[(u64, Ref)], usize)
        ensures history { result.0.now ≡ history_in self.now kind atom }
        ensures behind { IsBehind atom (row_of self.now kind) result.1 }
    {
        match self.rows.get(kind as usize) {
            Some(row) => row.of(atom, place),
            None => (&[], 0),
        }
    }

    /// The history of a cell. Logarithmic in the changes of its kind.
    pub(crate) fn of(&self, kind: u32, atom: Atom) -> &[(u64, Ref)]
        ensures { result.now ≡ history_in self.now kind atom }
    {
        self.near(kind, atom, 0).0
    }
}
