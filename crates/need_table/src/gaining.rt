//! One iteration of an entry: what its label gains in the next round.
ghost use Rattle.std.specs.Prelude.{◌≡◌, ◌+◌, ◌<◌, ◌^◌, ℕ, suc, map, slice_get, Some, Contains, IsSomeAnd, OnOk};
ghost use Rattle.std.specs.List.{flat_map};
ghost use Rattle.std.specs.List.Sorted.{IsStrictlyIncreasing};
ghost use Rattle.tp_base.specs.Classes.{union_of};
ghost use Rattle.simple_core.specs.Labels.{set_of, given_by_links, given_by_rules};
ghost use Rattle.rule_index.specs.Asking.{IsMore as IsGiven, AreMetBy};
ghost use Rattle.need_table.specs.Tables.{pair_of, atoms_from, replaced, IsDone, IsMore, AreOrdered};
ghost use Rattle.need_table.specs.Rows.{IsEmptyBelow, AreSameBelow};
ghost use Rattle.need_table.specs.Agendas.{AreKnown, IsGoing};
ghost use Rattle.need_table.specs.Turns.{given_at, given_above, IsAsked, IsGained};

use crate::agenda::{Agenda, listen_anew, tell};
use crate::entries::{Entry, behind, within};
use crate::entry_table::Table;
use crate::filling::{Asked, asked_places};
use gathered::Gathered;
use rule_index::IndexedSystem;
use simple_core::First;
use tp_base::{ClassSet, NoMemory};

// Adds what these atoms of a child give.
fn add_firsts(system: &IndexedSystem, firsts: &[First], next: &mut Gathered) -> Result<(), NoMemory>
    requires { IsStrictlyIncreasing next.old }
    ensures { OnOk result (next.new ≡ union_of next.old (given_by_links system.now.down (set_of (map (λ f. f.atom) firsts.now)))) }
{
    let mut rest = firsts;
    'firsts: while let Some((first, others)) = rest.split_first() {
        system.add_down_of(first.atom, next)?;
        rest = others;
    }
    Ok(())
}

// Adds what the entry at a place gives by atoms of these rounds.
fn add_child(
    system: &IndexedSystem,
    entries: &[Entry],
    from: u64,
    to: u64,
    j: usize,
    next: &mut Gathered,
) -> Result<(), NoMemory>
    requires round { to + 1 < 2 ^ 64 }
    requires order { AreOrdered entries.now }
    requires rises { IsStrictlyIncreasing next.old }
    ensures { OnOk result (next.new ≡ union_of next.old (given_at system.now entries.now from to j)) }
{
    if let Some(entry) = entries.get(j) {
        add_firsts(system, within(&entry.firsts, from, to), next)?;
    }
    Ok(())
}

// Adds what the entries at these places give by atoms of these rounds.
fn add_children(
    system: &IndexedSystem,
    entries: &[Entry],
    from: u64,
    to: u64,
    children: &[usize],
    next: &mut Gathered,
) -> Result<(), NoMemory>
    requires round { to + 1 < 2 ^ 64 }
    requires order { AreOrdered entries.now }
    requires rises { IsStrictlyIncreasing next.old }
    ensures { OnOk result (next.new ≡ union_of next.old (flat_map (given_at system.now entries.now from to) children.now)) }
{
    let mut rest = children;
    'places: while let Some((j, others)) = rest.split_first() {
        add_child(system, entries, from, to, *j, next)?;
        rest = others;
    }
    Ok(())
}

// Adds what the label of the parent gives. After round 0 that is there already.
fn add_above(
    system: &IndexedSystem,
    parent: &ClassSet,
    k: u64,
    next: &mut Gathered,
) -> Result<(), NoMemory>
    requires { IsStrictlyIncreasing next.old }
    ensures { OnOk result (next.new ≡ union_of next.old (given_above system.now k parent.now)) }
{
    if k == 0 {
        system.add_up(parent, next)?;
    }
    Ok(())
}

// Adds what an entry gives itself in the round after k, of whose firsts those from this place on are new in k.
fn add_own(
    system: &IndexedSystem,
    entry: &Entry,
    place: usize,
    k: u64,
    next: &mut Gathered,
) -> Result<(), NoMemory>
    requires met { 0 < k → AreMetBy system.now.local entry.now.label (atoms_from place entry.now.firsts.items) }
    requires within { (a : ℕ) → Contains (atoms_from place entry.now.firsts.items) a → Contains entry.now.label a }
    ensures { OnOk result (IsGiven entry.now.label (given_by_rules system.now.local entry.now.label) next.old next.new) }
{
    if k == 0 {
        return system.add_local(&entry.label, &entry.label, next);
    }
    system.add_later(&entry.label, behind(&entry.firsts, place), next)
}

// What an entry gets in the round after k, its last one, and some of what it has. It costs a look at what is new of the label and
// of what it asks, and at the rules that need that.
fn gained(
    system: &IndexedSystem,
    table: &Table,
    i: usize,
    k: u64,
    asked: &Asked,
    next: &mut Gathered,
) -> Result<(), NoMemory>
    requires round { k + 1 < 2 ^ 64 }
    requires order { AreOrdered table.now }
    requires known { AreKnown system.now k table.now }
    requires asked { IsSomeAnd (slice_get table.now i) (λ e. IsAsked system.now table.now (pair_of e) k e.label (atoms_from asked.now.place e.firsts.items) asked.now.from (replaced asked.now.anew e.children.items)) }
    ensures { OnOk result (IsSomeAnd (slice_get table.now i) (λ e. IsGained system.now (pair_of e) k e.label next.new)) }
{
    next.clear();
    let entry = table.entry(i);
    add_own(system, entry, asked.place, k, next)?;
    add_above(system, &entry.parent, k, next)?;
    let children = asked_places(&asked.anew, &entry.children);
    add_children(system, table.entries(), asked.from, k, children, next)?;
    Ok(())
}

/// Computes round k + 1 of an entry, where k is its last round, and enters those that depend on it into the worklist.
pub(crate) fn step(
    system: &IndexedSystem,
    table: &mut Table,
    agenda: &mut Agenda,
    i: usize,
    k: u64,
    asked: Asked,
) -> Result<(), NoMemory>
    requires round { k + 1 < 2 ^ 64 }
    requires going { (pairs : ℕ) × IsGoing system.now pairs table.old agenda.old }
    requires early { IsEmptyBelow k agenda.old.due }
    requires rounds { IsSomeAnd (slice_get table.old i) (λ e. e.rounds ≡ Some k) }
    requires asked { IsSomeAnd (slice_get table.old i) (λ e. IsAsked system.now table.old (pair_of e) k e.label (atoms_from asked.place e.firsts.items) asked.from (replaced asked.anew e.children.items)) }
    ensures going { OnOk result ((pairs : ℕ) → IsGoing system.now pairs table.old agenda.old → IsGoing system.now pairs table.new agenda.new) }
    ensures more { IsMore table.old table.new }
    ensures same { OnOk result (map pair_of table.new ≡ map pair_of table.old) }
    ensures rows { OnOk result (AreSameBelow (suc k) agenda.old.due agenda.new.due) }
    ensures done { OnOk result (IsSomeAnd (slice_get table.new i) (λ e. IsDone e.rounds (suc k))) }
{
    gained(system, table, i, k, &asked, &mut agenda.given)?;
    let first = agenda.first;
    listen_anew(
        &mut agenda.askers,
        first,
        i,
        &table.entry(i).children,
        &asked.anew,
    )?;
    let grew = table.note(i, k, &mut agenda.given, &mut agenda.news, asked.anew)?;
    tell(table.entries(), agenda, i, k, grew)?;
    Ok(())
}
