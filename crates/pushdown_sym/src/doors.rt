//! An index of the spawn rules that the nodes of each kind may use.
ghost use Rattle.std.specs.Prelude.{◌≡◌, ◌==◌, ◌≤◌, ◌<◌, [], ◌∷◌, true, false, length, Contains, IfOk, OnOk};
ghost use Rattle.std.specs.List.{list_any};
ghost use Rattle.row_index.specs.Rows.{row_of};
ghost use Rattle.pushdown_sym.specs.Givers.{a_few, HaveDoors, IsNoted};

use crate::cells::Cells;
use row_index::Index;
use simple_core::Spawn;
use std::alloc::Global;
use std::marker::Model;
use tp_base::NoMemory;

// Where a kind has so many places at most, all of them are noted; the same number as in the contracts.
const A_FEW: usize = 8;

/// An index: for each kind the places of the spawn rules that its nodes may use, in order. Where they are more than a few,
/// it has the first ones alone.
#[derive(Drop)]
pub(crate) struct Doors {
    rows: Index,
}

impl Model for Doors {
    ghost use Rattle.std.specs.Prelude.{List, ℕ};

    ghost Value = { List (List ℕ) };

    ghost view = { λ d. d.rows };
}

/// Whether these are all places of their kind.
pub(crate) fn are_few(row: &[usize]) -> bool
    ensures few { result ≡ true → length row.now ≤ a_few }
    ensures many { result ≡ false → a_few < length row.now }
{
    row.len() <= A_FEW
}

// Whether a place is still to be noted in a row.
fn has_room(row: &[usize], place: usize) -> bool
    ensures new { result ≡ true → list_any (λ n. n == place) row.now ≡ false }
    ensures old { result ≡ false → length row.now ≤ a_few → list_any (λ n. n == place) row.now ≡ true }
{
    are_few(row) && !row.contains(&place)
}

// Notes a place for a kind.
fn note(alloc: Global, rows: &mut Index, kind: u32, place: usize) -> Result<(), NoMemory>
    ensures { OnOk result (IsNoted (kind ∷ []) place (row_of rows.old) (row_of rows.new)) }
{
    if has_room(rows.of(kind as usize), place) {
        rows.note(alloc, kind as usize, place)?;
    }
    Ok(())
}

// Notes a place for each of these kinds.
fn note_each(alloc: Global, rows: &mut Index, kinds: &[u32], place: usize) -> Result<(), NoMemory>
    ensures { OnOk result (IsNoted kinds.now place (row_of rows.old) (row_of rows.new)) }
{
    for i in 0..kinds.len() {
        let kind = kinds[i];
        note(alloc, rows, kind, place)?;
    }
    Ok(())
}

impl Doors {
    /// For each spawn rule a look at the kinds that may have what it needs.
    pub(crate) fn of_spawns(alloc: Global, spawns: &[Spawn], now: &Cells) -> Result<Self, NoMemory>
        ensures { IfOk result (HaveDoors spawns.now now.now) }
    {
        let mut rows = Index::new(alloc);
        for i in 0..spawns.len() {
            let spawn = spawns[i];
            note_each(alloc, &mut rows, now.kinds_with(spawn.needs), i)?;
        }
        Ok(Doors { rows })
    }

    /// The places of a kind.
    pub(crate) fn of(&self, kind: u32) -> &[usize]
        ensures { result.now ≡ row_of self.now kind }
    {
        self.rows.of(kind as usize)
    }
}
