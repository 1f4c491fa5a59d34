//! One step of the worklist: an entry that is due is computed again.
ghost use Rattle.std.specs.Prelude.{◌≡◌, ◌⊎◌, ◌<◌, ◌+◌, ◌++◌, ◌∷◌, [], ◌^◌, ℕ, suc, List, length, slice_get, Some, false, Contains, IsTrue, IsSomeAnd, IfOk, OnOk};
ghost use Rattle.simple_core.specs.Pairs.{Pair, Needed, HasMore};
ghost use Rattle.need_table.specs.declared.entries.Entry.{Entry};
ghost use Rattle.need_table.specs.Tables.{IsDone, IsMore, AreNeeded};
ghost use Rattle.need_table.specs.Rows.{row_in, IsEmptyBelow, AreSameBelow};
ghost use Rattle.need_table.specs.Agendas.{IsBehind, IsGoing};

use crate::agenda::{Agenda, start};
use crate::entries::Entry;
use crate::entry_table::Table;
use crate::filling::asked_by;
use crate::gaining::step;
use rule_index::IndexedSystem;
use simple_core::GainFault;
use std::alloc::Global;

// Whether there is an entry at i that is no fixpoint yet, and no round after k was computed for it.
fn is_behind(entries: &[Entry], i: usize, k: u64) -> bool
    ensures yes { IsTrue result → IsSomeAnd (slice_get entries.now i) (λ e. IsBehind e.rounds k) }
    ensures no { result ≡ false → (e : Entry) → slice_get entries.now i ≡ Some e → IsDone e.rounds (suc k) }
{
    match entries.get(i) {
        Some(entry) => match entry.rounds {
            Some(n) => n <= k,
            None => false,
        },
        None => false,
    }
}

// Gives an entry the round after k, if what it asks then is there already. Else what it asks is added, and the entry stays due.
fn turn(
    alloc: Global,
    system: &IndexedSystem,
    table: &mut Table,
    agenda: &mut Agenda,
    pairs: u32,
    i: usize,
    k: u64,
) -> Result<(), GainFault>
    requires round { k + 1 < 2 ^ 64 }
    requires going { IsGoing system.now pairs table.old agenda.old }
    requires early { IsEmptyBelow k agenda.old.due }
    requires behind { IsSomeAnd (slice_get table.old i) (λ e. IsBehind e.rounds k) }
    ensures going { OnOk result (IsGoing system.now pairs table.new agenda.new) }
    ensures more { IsMore table.old table.new }
    ensures rows { OnOk result (length table.new ≡ length table.old → AreSameBelow (suc k) agenda.old.due agenda.new.due) }
    ensures done { OnOk result (length table.new ≡ length table.old → IsSomeAnd (slice_get table.new i) (λ e. IsDone e.rounds (suc k))) }
    ensures needed { OnOk result ((qs : List Pair) → AreNeeded system.now qs table.old → AreNeeded system.now qs table.new) }
    ensures spent { result ≡ Err GainFault.Spent → (qs : List Pair) → AreNeeded system.now qs table.old → HasMore (Needed system.now (Contains qs)) pairs }
{
    let before = table.len();
    table.raise(i, k);
    let asked = asked_by(alloc, system, table, pairs, i, k)?;
    if table.len() == before {
        step(system, table, agenda, i, k, asked)?;
    } else {
        start(&mut agenda.due, before, table.len())?;
    }
    Ok(())
}

/// Takes one entry from the worklist of round k and computes it, and answers the round with which to go on.
pub(crate) fn advance(
    alloc: Global,
    system: &IndexedSystem,
    table: &mut Table,
    agenda: &mut Agenda,
    pairs: u32,
    i: usize,
    k: usize,
) -> Result<usize, GainFault>
    requires round { k + 1 < 2 ^ 64 }
    requires last { (xs : List ℕ) × (row_in agenda.old.due k ≡ xs ++ i ∷ []) }
    requires going { IsGoing system.now pairs table.old agenda.old }
    requires early { IsEmptyBelow k agenda.old.due }
    ensures going { OnOk result (IsGoing system.now pairs table.new agenda.new) }
    ensures early { IfOk result (λ n. IsEmptyBelow n agenda.new.due) }
    ensures more { IsMore table.old table.new }
    ensures nearer { IfOk result (λ n. (length table.old < length table.new) ⊎ ((n ≡ k) × (length (row_in agenda.new.due k) < length (row_in agenda.old.due k)))) }
    ensures needed { OnOk result ((qs : List Pair) → AreNeeded system.now qs table.old → AreNeeded system.now qs table.new) }
    ensures spent { result ≡ Err GainFault.Spent → (qs : List Pair) → AreNeeded system.now qs table.old → HasMore (Needed system.now (Contains qs)) pairs }
{
    if !is_behind(table.entries(), i, k as u64) {
        agenda.due.pop(k);
        return Ok(k);
    }
    let before = table.len();
    turn(alloc, system, table, agenda, pairs, i, k as u64)?;
    if table.len() != before {
        return Ok(0);
    }
    agenda.due.pop(k);
    Ok(k)
}
