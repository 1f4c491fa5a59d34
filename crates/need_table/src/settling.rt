//! From a question to the fixpoint of all pairs that it needs.
ghost use Rattle.std.specs.Prelude.{◌≡◌, ◌<◌, [], ℕ, List, map, length, slice_get, Contains, IsSomeAnd, IfOk, OnOk};
ghost use Rattle.simple_core.specs.Pairs.{Pair, Needed, HasMore};
ghost use Rattle.need_table.specs.Tables.{pair_of, IsTable, IsMore, AreNeeded, AllRest};
ghost use Rattle.need_table.specs.Rows.{row_in};
ghost use Rattle.need_table.specs.Agendas.{IsGoing};

use crate::agenda::{Agenda, start};
use crate::entry_table::Table;
use crate::filling::place_of;
use crate::turning::advance;
use rule_index::IndexedSystem;
use simple_core::GainFault;
use std::alloc::Global;
use tp_base::ClassSet;

// Does all that is due, and what becomes due by it. New entries begin in round 0, and the others wait for them, so the rounds
// are gone through again from there, with a step for each in which nothing is due.
fn settle(
    alloc: Global,
    system: &IndexedSystem,
    table: &mut Table,
    agenda: &mut Agenda,
    pairs: u32,
) -> Result<(), GainFault>
    requires going { IsGoing system.now pairs table.old agenda.old }
    ensures going { OnOk result (IsGoing system.now pairs table.new agenda.new) }
    ensures nothing { OnOk result ((q : ℕ) → row_in agenda.new.due q ≡ []) }
    ensures more { IsMore table.old table.new }
    ensures needed { OnOk result ((qs : List Pair) → AreNeeded system.now qs table.old → AreNeeded system.now qs table.new) }
    ensures spent { result ≡ Err GainFault.Spent → (qs : List Pair) → AreNeeded system.now qs table.old → HasMore (Needed system.now (Contains qs)) pairs }
{
    let mut k = 0;
    'rounds: while k < agenda.due.len() {
        match agenda.due.last(k) {
            Some(i) => k = advance(alloc, system, table, agenda, pairs, i, k)?,
            None => k += 1,
        }
    }
    Ok(())
}

/// Adds the pair with all pairs that it needs, and computes their fixpoint.
pub(crate) fn fill(
    alloc: Global,
    system: &IndexedSystem,
    table: &mut Table,
    pairs: u32,
    kind: u32,
    parent: &ClassSet,
) -> Result<usize, GainFault>
    requires kind { kind < length system.now.kinds }
    requires table { IsTable system.now pairs table.old }
    requires at_rest { AllRest table.old }
    ensures table { OnOk result (IsTable system.now pairs table.new) }
    ensures more { IsMore table.old table.new }
    ensures place { IfOk result (λ i. IsSomeAnd (slice_get table.new i) (λ e. pair_of e ≡ (kind, parent.now))) }
    ensures at_rest { OnOk result (AllRest table.new) }
    ensures there { OnOk result (Contains (map pair_of table.new) (kind, parent.now)) }
    ensures kept { OnOk result ((q : Pair) → Contains (map pair_of table.old) q → Contains (map pair_of table.new) q) }
    ensures needed { OnOk result ((qs : List Pair) → AreNeeded system.now qs table.old → Needed system.now (Contains qs) (kind, parent.now) → AreNeeded system.now qs table.new) }
    ensures spent { result ≡ Err GainFault.Spent → (qs : List Pair) → AreNeeded system.now qs table.old → Needed system.now (Contains qs) (kind, parent.now)
        → HasMore (Needed system.now (Contains qs)) pairs }
{
    let first = table.len();
    let place = place_of(alloc, system, table, pairs, kind, parent)?;
    let mut agenda = Agenda::new(alloc, first);
    start(&mut agenda.due, first, table.len())?;
    settle(alloc, system, table, &mut agenda, pairs)?;
    table.rest_all(agenda.first);
    Ok(place)
}
