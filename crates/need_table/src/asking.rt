//! Questions to the table: a label, or the first round of an atom.
ghost use Rattle.std.specs.Prelude.{◌≡◌, ◌<◌, ℕ, List, map, length, Contains, IfOk, OnOk, OnErr, IfSome};
ghost use Rattle.std.specs.List.{filter};
ghost use Rattle.tp_base.specs.Classes.{has_class};
ghost use Rattle.simple_core.specs.Labels.{set_of};
ghost use Rattle.simple_core.specs.Systems.{IsSound};
ghost use Rattle.simple_core.specs.Rounds.{IsRest};
ghost use Rattle.simple_core.specs.Pairs.{Pair, Needed, HasMore};
ghost use Rattle.need_table.specs.Tables.{pair_of, IsTable, IsMore, AreNeeded, AllRest, round_in};

use crate::entries::Entry;
use crate::entry_table::Table;
use crate::settling::fill;
use rule_index::IndexedSystem;
use simple_core::{First, GainFault};
use std::alloc::Global;
use tp_base::{Atom, ClassSet, NoMemory};

// The round that stands with the atom.
fn round_of(firsts: &[First], atom: Atom) -> Option<u64>
    ensures { result ≡ round_in firsts.now atom }
{
    let mut rest = firsts;
    'firsts: while let Some((first, others)) = rest.split_first() {
        if first.atom == atom {
            return Some(first.round);
        }
        rest = others;
    }
    None
}

/// The first round of an atom at an entry. Logarithmic in the label where it doesn't have the atom, and else linear.
pub(crate) fn first_of(entry: &Entry, atom: Atom) -> Option<u64>
    requires { entry.now.label ≡ set_of (map (λ f. f.atom) entry.now.firsts.items) }
    ensures { result ≡ round_in entry.now.firsts.items atom }
{
    if !entry.label.has(atom) {
        return None;
    }
    round_of(&entry.firsts, atom)
}

/// The firsts whose atom is visible, with no more room than they need. Linear in all.
pub(crate) fn visible_firsts(
    alloc: Global,
    system: &IndexedSystem,
    firsts: &[First],
) -> Result<Vec<First>, NoMemory>
    requires { IsSound system.now }
    ensures { IfOk result (λ v. v.items ≡ filter (λ f. has_class f.atom system.now.visible) firsts.now) }
{
    let mut kept = Vec::with_capacity(alloc, firsts.len())?;
    let mut rest = firsts;
    'firsts: while let Some((first, others)) = rest.split_first() {
        if system.is_visible(first.atom) {
            kept.push(*first)?;
        }
        rest = others;
    }
    kept.shrink_to_fit();
    Ok(kept)
}

// The label of a pair that is there already.
fn known_label(
    system: &IndexedSystem,
    table: &Table,
    kind: u32,
    parent: &ClassSet,
) -> Result<Option<ClassSet>, NoMemory>
    requires table { (pairs : ℕ) × IsTable system.now pairs table.now }
    requires at_rest { AllRest table.now }
    ensures label { IfOk result (λ o. IfSome o (λ l. IsRest system.now kind parent.now l)) }
    ensures there { IfOk result (λ o. IfSome o (λ _. Contains (map pair_of table.now) (kind, parent.now))) }
{
    match table.find(kind, parent) {
        Some(i) => {
            let label = table.entry(i).label.copy()?;
            Ok(Some(label))
        }
        None => Ok(None),
    }
}

// Fills the table, and answers the label.
fn try_ask(
    alloc: Global,
    system: &IndexedSystem,
    table: &mut Table,
    pairs: u32,
    kind: u32,
    parent: &ClassSet,
) -> Result<ClassSet, GainFault>
    requires kind { kind < length system.now.kinds }
    requires table { IsTable system.now pairs table.old }
    requires at_rest { AllRest table.old }
    ensures table { OnOk result (IsTable system.now pairs table.new) }
    ensures more { IsMore table.old table.new }
    ensures at_rest { OnOk result (AllRest table.new) }
    ensures label { IfOk result (λ l. IsRest system.now kind parent.now l) }
    ensures there { OnOk result (Contains (map pair_of table.new) (kind, parent.now)) }
    ensures needed { OnOk result ((qs : List Pair) → AreNeeded system.now qs table.old → Needed system.now (Contains qs) (kind, parent.now) → AreNeeded system.now qs table.new) }
    ensures spent { result ≡ Err GainFault.Spent → (qs : List Pair) → AreNeeded system.now qs table.old → Needed system.now (Contains qs) (kind, parent.now)
        → HasMore (Needed system.now (Contains qs)) pairs }
{
    let i = fill(alloc, system, table, pairs, kind, parent)?;
    let label = table.entry(i).label.copy()?;
    Ok(label)
}

/// Answers a question, and leaves the table as it was after a refusal.
pub(crate) fn ask(
    alloc: Global,
    system: &IndexedSystem,
    table: &mut Table,
    pairs: u32,
    kind: u32,
    parent: &ClassSet,
) -> Result<ClassSet, GainFault>
    requires kind { kind < length system.now.kinds }
    requires table { IsTable system.now pairs table.old }
    requires at_rest { AllRest table.old }
    ensures table { IsTable system.now pairs table.new }
    ensures at_rest { AllRest table.new }
    ensures label { IfOk result (λ l. IsRest system.now kind parent.now l) }
    ensures there { OnOk result (Contains (map pair_of table.new) (kind, parent.now)) }
    ensures kept { (q : Pair) → Contains (map pair_of table.old) q → Contains (map pair_of table.new) q }
    ensures needed { OnOk result ((qs : List Pair) → AreNeeded system.now qs table.old → Needed system.now (Contains qs) (kind, parent.now) → AreNeeded system.now qs table.new) }
    ensures err { OnErr result (table.new ≡ table.old) }
    ensures spent { result ≡ Err GainFault.Spent → (qs : List Pair) → AreNeeded system.now qs table.old → Needed system.now (Contains qs) (kind, parent.now)
        → HasMore (Needed system.now (Contains qs)) pairs }
{
    if let Some(label) = known_label(system, table, kind, parent)? {
        return Ok(label);
    }
    let before = table.len();
    match try_ask(alloc, system, table, pairs, kind, parent) {
        Ok(label) => Ok(label),
        Err(fault) => {
            table.truncate(before);
            Err(fault)
        }
    }
}
