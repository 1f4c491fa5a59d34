//! The worklist: which pairs are computed again, and in which round.
ghost use Rattle.std.specs.Prelude.{◌≡◌, ◌≤◌, ◌<◌, ◌-◌, ◌+◌, ◌^◌, ℕ, [], Contains, length, Some, slice_get, IfSome, IsSomeAnd, IsTrue, OnOk};
ghost use Rattle.simple_core.specs.declared.summaries.First.{First};
ghost use Rattle.need_table.specs.declared.entries.Entry.{Entry};
ghost use Rattle.need_table.specs.Tables.{replaced, AreInOrder, AreOrdered};
ghost use Rattle.need_table.specs.Rows.{row_in, IsRicher, AreSameBelow, IsDue};

use crate::entries::{Entry, place_from};
use crate::rows::Rows;
use gathered::Gathered;
use simple_core::First;
use std::alloc::Global;
use tp_base::{Atom, NoMemory};

/// The worklist for the entries from `first` on. `due` has, for each round, the places of the entries to be computed for the
/// round after. `askers` has, for each entry, the places of those that depend on it, counted from `first`.
#[derive(Drop)]
pub(crate) struct Agenda {
    pub(crate) first: usize,
    pub(crate) due: Rows,
    pub(crate) askers: Rows,
    pub(crate) given: Gathered,
    pub(crate) news: Vec<Atom>,
}

impl Agenda {
    /// An empty worklist for the entries from this place on.
    pub(crate) fn new(alloc: Global, first: usize) -> Agenda
        ensures first { result.first ≡ first }
        ensures due { result.due ≡ [] }
        ensures askers { result.askers ≡ [] }
    {
        Agenda {
            first,
            due: Rows::new(alloc),
            askers: Rows::new(alloc),
            given: Gathered::new(alloc),
            news: Vec::new(alloc),
        }
    }
}

/// Enters these places into the worklist of round 0.
pub(crate) fn start(due: &mut Rows, from: usize, to: usize) -> Result<(), NoMemory>
    ensures started { OnOk result ((i : ℕ) → from ≤ i → i < to → Contains (row_in due.new 0) i) }
    ensures more { OnOk result (IsRicher due.old due.new) }
{
    let mut i = from;
    'places: while i < to {
        due.add(0, i)?;
        i += 1;
    }
    Ok(())
}

/// Enters these places into the worklist of round k.
pub(crate) fn wake(due: &mut Rows, places: &[usize], k: usize) -> Result<(), NoMemory>
    ensures woken { OnOk result ((i : ℕ) → Contains places.now i → Contains (row_in due.new k) i) }
    ensures more { OnOk result (IsRicher due.old due.new) }
    ensures same { OnOk result (AreSameBelow k due.old due.new) }
{
    let mut rest = places;
    'places: while let Some((place, others)) = rest.split_first() {
        due.add(k, *place)?;
        rest = others;
    }
    Ok(())
}

/// Notes that the entry at i depends on those at the places `anew`, where it depended on those of `old` before. Where there
/// are none, it still depends on the old ones.
pub(crate) fn listen_anew(
    askers: &mut Rows,
    first: usize,
    i: usize,
    old: &[usize],
    anew: &Option<Vec<usize>>,
) -> Result<(), NoMemory>
    requires { (j : ℕ) → Contains old.now j → first ≤ j → Contains (row_in askers.old (j - first)) i }
    ensures heard { OnOk result ((j : ℕ) → Contains (replaced anew.now old.now) j → first ≤ j → Contains (row_in askers.new (j - first)) i) }
    ensures more { OnOk result (IsRicher askers.old askers.new) }
{
    match anew {
        Some(new) => listen(askers, first, i, old, new),
        None => Ok(()),
    }
}

// The same for places that are there. Linear in these.
fn listen(
    askers: &mut Rows,
    first: usize,
    i: usize,
    old: &[usize],
    new: &[usize],
) -> Result<(), NoMemory>
    requires { (j : ℕ) → Contains old.now j → first ≤ j → Contains (row_in askers.old (j - first)) i }
    ensures heard { OnOk result ((j : ℕ) → Contains new.now j → first ≤ j → Contains (row_in askers.new (j - first)) i) }
    ensures more { OnOk result (IsRicher askers.old askers.new) }
{
    let mut known = 0;
    let mut rest = new;
    'places: while let Some((j, others)) = rest.split_first() {
        known = listen_at(askers, first, i, old, known, *j)?;
        rest = others;
    }
    Ok(())
}

// The same for one place. The places of `old` before `known` were found among the new ones.
fn listen_at(
    askers: &mut Rows,
    first: usize,
    i: usize,
    old: &[usize],
    known: usize,
    j: usize,
) -> Result<usize, NoMemory>
    requires { (j : ℕ) → Contains old.now j → first ≤ j → Contains (row_in askers.old (j - first)) i }
    ensures heard { OnOk result (first ≤ j → Contains (row_in askers.new (j - first)) i) }
    ensures more { OnOk result (IsRicher askers.old askers.new) }
{
    if let Some(place) = old.get(known)
        && *place == j
    {
        return Ok(known + 1);
    }
    if j >= first {
        askers.add(j - first, i)?;
    }
    Ok(known)
}

// The first round from this one on that brought an atom. Logarithmic in all.
fn next_round(firsts: &[First], from: u64) -> Option<u64>
    requires { AreInOrder firsts.now }
    ensures within { IfSome result (λ w. from ≤ w) }
    ensures least { (f : First) → Contains firsts.now f → from ≤ f.round → IsSomeAnd result (λ w. w ≤ f.round) }
{
    match firsts.get(place_from(firsts, from)) {
        Some(first) => Some(first.round),
        None => None,
    }
}

// The same, of the entry at a place.
fn next_at(entries: &[Entry], j: usize, from: u64) -> Option<u64>
    requires { AreOrdered entries.now }
    ensures within { IfSome result (λ w. from ≤ w) }
    ensures least { (c : Entry) (f : First) → slice_get entries.now j ≡ Some c → Contains c.firsts.items f → from ≤ f.round → IsSomeAnd result (λ w. w ≤ f.round) }
{
    match entries.get(j) {
        Some(entry) => next_round(&entry.firsts, from),
        None => None,
    }
}

/// Enters i into the worklist where an entry at these places has an atom from this round on. Logarithmic in the atoms of
/// each.
pub(crate) fn expect(
    entries: &[Entry],
    due: &mut Rows,
    i: usize,
    from: u64,
    children: &[usize],
) -> Result<(), NoMemory>
    requires { AreOrdered entries.now }
    ensures due { OnOk result ((j : ℕ) (c : Entry) (f : First) → Contains children.now j → slice_get entries.now j ≡ Some c → Contains c.firsts.items f → from ≤ f.round → IsDue due.new i from f.round) }
    ensures more { OnOk result (IsRicher due.old due.new) }
    ensures same { OnOk result (AreSameBelow from due.old due.new) }
{
    let mut rest = children;
    'places: while let Some((j, others)) = rest.split_first() {
        if let Some(w) = next_at(entries, *j, from) {
            due.add(w as usize, i)?;
        }
        rest = others;
    }
    Ok(())
}

/// After round k of the entry at i: where it got atoms, the entries that depend on it and itself enter the worklist. Else it
/// enters alone, if its children got some since.
pub(crate) fn tell(
    entries: &[Entry],
    agenda: &mut Agenda,
    i: usize,
    k: u64,
    grew: bool,
) -> Result<(), NoMemory>
    requires place { i < length entries.now }
    requires first { agenda.old.first ≤ i }
    requires round { k + 1 < 2 ^ 64 }
    requires order { AreOrdered entries.now }
    ensures children { OnOk result ((e : Entry) (j : ℕ) (c : Entry) (f : First) → slice_get entries.now i ≡ Some e → Contains e.children.items j → slice_get entries.now j ≡ Some c → Contains c.firsts.items f → k + 1 ≤ f.round → IsDue agenda.new.due i (k + 1) f.round) }
    ensures askers { OnOk result (IsTrue grew → (a : ℕ) → Contains (row_in agenda.old.askers (i - agenda.old.first)) a → Contains (row_in agenda.new.due (k + 1)) a) }
    ensures own { OnOk result (IsTrue grew → Contains (row_in agenda.new.due (k + 1)) i) }
    ensures more { OnOk result (IsRicher agenda.old.due agenda.new.due) }
    ensures same { OnOk result (AreSameBelow (k + 1) agenda.old.due agenda.new.due) }
    ensures first { agenda.new.first ≡ agenda.old.first }
    ensures kept { agenda.new.askers ≡ agenda.old.askers }
{
    if !grew {
        return expect(entries, &mut agenda.due, i, k + 1, &entries[i].children);
    }
    let round = k as usize + 1;
    let row = i - agenda.first;
    wake(&mut agenda.due, agenda.askers.row(row), round)?;
    agenda.due.add(round, i)?;
    Ok(())
}
