//! The pairs that an entry depends on.
ghost use Rattle.std.specs.Prelude.{◌≡◌, ◌+◌, ◌<◌, ◌^◌, IsFalse, ℕ, List, [], map, filter, length, slice_get, Some, Contains, IsSomeAnd, IfSome, IfOk, OnOk};
ghost use Rattle.std.specs.List.Sorted.{IsStrictlyIncreasing};
ghost use Rattle.tp_base.specs.Classes.{has_class, union_of};
ghost use Rattle.simple_core.specs.Systems.{kind_label, IsSound};
ghost use Rattle.simple_core.specs.Labels.{set_of, visible_in};
ghost use Rattle.simple_core.specs.Pairs.{Pair, Asks, Needed, HasMore};
ghost use Rattle.rule_index.specs.Asking.{AreKinds, AsksAnew};
ghost use Rattle.need_table.specs.Tables.{pair_of, fresh_of, atoms_from, replaced, IsHeard, IsAskedAt, IsSeenBefore, IsTable, IsMore, AreNeeded};
ghost use Rattle.need_table.specs.Agendas.{IsAppended};
ghost use Rattle.need_table.specs.Turns.{IsAsked};

use crate::entries::{A_FEW, Entry, behind, firsts_of, place_from};
use crate::entry_table::Table;
use rule_index::IndexedSystem;
use simple_core::{First, GainFault};
use std::alloc::Global;
use tp_base::{ClassSet, NoMemory};

// The pair in round 0.
fn first_entry(
    alloc: Global,
    system: &IndexedSystem,
    kind: u32,
    parent: &ClassSet,
) -> Result<Entry, NoMemory>
    requires { kind < length system.now.kinds }
    ensures pair { IfOk result (λ e. pair_of e ≡ (kind, parent.now)) }
    ensures rounds { IfOk result (λ e. e.rounds ≡ Some 0) }
    ensures children { IfOk result (λ e. e.children.items ≡ []) }
    ensures firsts { IfOk result (λ e. e.firsts.items ≡ fresh_of [] 0 (kind_label system.now kind)) }
    ensures label { IfOk result (λ e. e.label ≡ set_of (map (λ f. f.atom) e.firsts.items)) }
{
    let label = &system.kinds()[kind as usize].label;
    let firsts = firsts_of(alloc, label)?;
    Ok(Entry {
        kind,
        parent: parent.copy()?,
        label: label.copy()?,
        firsts,
        children: Vec::new(alloc),
        rounds: Some(0),
    })
}

/// Where the pair stands. It goes last where it is new.
pub(crate) fn place_of(
    alloc: Global,
    system: &IndexedSystem,
    table: &mut Table,
    pairs: u32,
    kind: u32,
    parent: &ClassSet,
) -> Result<usize, GainFault>
    requires kind { kind < length system.now.kinds }
    requires table { IsTable system.now pairs table.old }
    ensures table { IsTable system.now pairs table.new }
    ensures more { IsMore table.old table.new }
    ensures place { IfOk result (λ i. IsSomeAnd (slice_get table.new i) (λ e. pair_of e ≡ (kind, parent.now))) }
    ensures within { IfOk result (λ i. i < length table.new) }
    ensures appended { OnOk result (IsAppended table.old table.new) }
    ensures needed { (qs : List Pair) → AreNeeded system.now qs table.old → Needed system.now (Contains qs) (kind, parent.now) → AreNeeded system.now qs table.new }
    ensures spent { result ≡ Err GainFault.Spent → (qs : List Pair) → AreNeeded system.now qs table.old → Needed system.now (Contains qs) (kind, parent.now)
        → HasMore (Needed system.now (Contains qs)) pairs }
{
    match table.find(kind, parent) {
        Some(i) => Ok(i),
        None => {
            let place = table.len();
            if place >= pairs as usize {
                return Err(GainFault::Spent);
            }
            let entry = first_entry(alloc, system, kind, parent)?;
            table.push(entry)?;
            Ok(place)
        }
    }
}

// Where the pairs of these kinds stand that a label asks. Those that are new are added.
fn ask_kinds(
    alloc: Global,
    system: &IndexedSystem,
    table: &mut Table,
    pairs: u32,
    own: &ClassSet,
    seen: &ClassSet,
    kinds: &[u32],
) -> Result<Vec<usize>, GainFault>
    requires seen { seen.now ≡ visible_in system.now own.now }
    requires kinds { AreKinds system.now own.now kinds.now }
    requires table { IsTable system.now pairs table.old }
    ensures table { IsTable system.now pairs table.new }
    ensures more { IsMore table.old table.new }
    ensures heard { IfOk result (λ v. (r : Pair) → Asks system.now own.now r → IsHeard table.new v.items r) }
    ensures only { IfOk result (λ v. (j : ℕ) → Contains v.items j → IsAskedAt system.now table.new own.now j) }
    ensures appended { OnOk result (IsAppended table.old table.new) }
    ensures needed { (qs : List Pair) → AreNeeded system.now qs table.old → ((r : Pair) → Asks system.now own.now r → Needed system.now (Contains qs) r) → AreNeeded system.now qs table.new }
    ensures spent { result ≡ Err GainFault.Spent → (qs : List Pair) → AreNeeded system.now qs table.old → ((r : Pair) → Asks system.now own.now r → Needed system.now (Contains qs) r)
        → HasMore (Needed system.now (Contains qs)) pairs }
{
    let mut children = Vec::new(alloc);
    let mut rest = kinds;
    'kinds: while let Some((kind, others)) = rest.split_first() {
        let place = place_of(alloc, system, table, pairs, *kind, seen)?;
        children.push(place)?;
        rest = others;
    }
    Ok(children)
}

// Where all pairs stand that a label asks, whose visible atoms are given. Those that are new are added.
fn ask_all(
    alloc: Global,
    system: &IndexedSystem,
    table: &mut Table,
    pairs: u32,
    own: &ClassSet,
    seen: &ClassSet,
) -> Result<Vec<usize>, GainFault>
    requires seen { seen.now ≡ visible_in system.now own.now }
    requires table { IsTable system.now pairs table.old }
    ensures table { IsTable system.now pairs table.new }
    ensures more { IsMore table.old table.new }
    ensures heard { IfOk result (λ v. (r : Pair) → Asks system.now own.now r → IsHeard table.new v.items r) }
    ensures only { IfOk result (λ v. (j : ℕ) → Contains v.items j → IsAskedAt system.now table.new own.now j) }
    ensures appended { OnOk result (IsAppended table.old table.new) }
    ensures needed { (qs : List Pair) → AreNeeded system.now qs table.old → ((r : Pair) → Asks system.now own.now r → Needed system.now (Contains qs) r) → AreNeeded system.now qs table.new }
    ensures spent { result ≡ Err GainFault.Spent → (qs : List Pair) → AreNeeded system.now qs table.old → ((r : Pair) → Asks system.now own.now r → Needed system.now (Contains qs) r)
        → HasMore (Needed system.now (Contains qs)) pairs }
{
    let kinds = system.kinds_of(alloc, own)?;
    ask_kinds(alloc, system, table, pairs, own, seen, &kinds)
}

// Adds those of these atoms at which links from a parent look.
fn add_visible(system: &IndexedSystem, fresh: &[First], seen: &mut ClassSet) -> Result<(), NoMemory>
    requires { IsSound system.now }
    ensures { OnOk result (seen.new ≡ union_of seen.old (filter (λ a. has_class a system.now.visible) (map (λ f. f.atom) fresh.now))) }
{
    let mut rest = fresh;
    'firsts: while let Some((first, others)) = rest.split_first() {
        let atom = first.atom;
        if system.is_visible(atom) {
            seen.add(atom)?;
        }
        rest = others;
    }
    Ok(())
}

// The visible atoms of a label, by those that it had before, and its new atoms.
fn seen_further(
    system: &IndexedSystem,
    before: &ClassSet,
    fresh: &[First],
) -> Result<ClassSet, NoMemory>
    requires { IsSound system.now }
    ensures { IfOk result (λ s. s ≡ union_of before.now (filter (λ a. has_class a system.now.visible) (map (λ f. f.atom) fresh.now))) }
{
    let mut seen = before.copy()?;
    add_visible(system, fresh, &mut seen)?;
    Ok(seen)
}

// The label below which the pair at a place stands.
fn parent_at(entries: &[Entry], j: usize) -> Option<&ClassSet>
    ensures { IfSome result (λ p. IsSomeAnd (slice_get entries.now j) (λ c. p.now ≡ c.parent)) }
{
    match entries.get(j) {
        Some(child) => Some(&child.parent),
        None => None,
    }
}

// The visible atoms with which an entry asked in the round before, if it asked something.
fn asked_with<'a>(entries: &'a [Entry], entry: &Entry) -> Option<&'a ClassSet>
    ensures { IfSome result (λ p. (j : ℕ) × Contains entry.now.children.items j × IsSomeAnd (slice_get entries.now j) (λ c. p.now ≡ c.parent)) }
{
    match entry.children.first() {
        Some(j) => parent_at(entries, *j),
        None => None,
    }
}

// The visible atoms of an entry's label in the round k, of whose firsts those from this place on are new. Where it asked something
// in the round before, and only a few are new, only these are looked at.
fn seen_by(
    system: &IndexedSystem,
    entries: &[Entry],
    entry: &Entry,
    place: usize,
    k: u64,
) -> Result<ClassSet, NoMemory>
    requires sound { IsSound system.now }
    requires rises { IsStrictlyIncreasing entry.now.label }
    requires before { 0 < k → (j : ℕ) (c : Entry) → Contains entry.now.children.items j → slice_get entries.now j ≡ Some c → IsSeenBefore system.now entry.now (atoms_from place entry.now.firsts.items) c.parent }
    ensures { IfOk result (λ s. s ≡ visible_in system.now entry.now.label) }
{
    if k == 0 {
        return system.visible_of(&entry.label);
    }
    let fresh = behind(&entry.firsts, place);
    if fresh.len() > A_FEW {
        return system.visible_of(&entry.label);
    }
    match asked_with(entries, entry) {
        Some(before) => seen_further(system, before, fresh),
        None => system.visible_of(&entry.label),
    }
}

// Whether a label asks something in the round k that it didn't ask before, by what it got in it. Linear in that.
fn asks_other(system: &IndexedSystem, fresh: &[First], k: u64) -> bool
    requires { IsSound system.now }
    ensures later { IsFalse result → 0 < k }
    ensures same { IsFalse result → (f : First) → Contains fresh.now f → ¬ AsksAnew system.now f.atom }
{
    k == 0 || system.is_asking_by(fresh)
}

/// What an entry depends on in its last round. `place` is where its firsts of this round begin. `anew` has the places of the
/// entries that it asks, where these were looked up anew. Of these entries the atoms count whose first round is `from` or
/// later.
#[derive(Drop)]
pub(crate) struct Asked {
    pub(crate) place: usize,
    pub(crate) from: u64,
    pub(crate) anew: Option<Vec<usize>>,
}

/// The places anew, or the old ones where there are none.
pub(crate) fn asked_places<'a>(anew: &'a Option<Vec<usize>>, old: &'a [usize]) -> &'a [usize]
    ensures { result.now ≡ replaced anew.now old.now }
{
    match anew {
        Some(places) => places,
        None => old,
    }
}

/// What the entry depends on in the round k, its last one. New pairs are added. Where fresh atoms ask nothing else than
/// before, neither the rest of the label is looked at nor a pair searched for.
pub(crate) fn asked_by(
    alloc: Global,
    system: &IndexedSystem,
    table: &mut Table,
    pairs: u32,
    i: usize,
    k: u64,
) -> Result<Asked, GainFault>
    requires round { k + 1 < 2 ^ 64 }
    requires rounds { IsSomeAnd (slice_get table.old i) (λ e. e.rounds ≡ Some k) }
    requires table { IsTable system.now pairs table.old }
    ensures table { OnOk result (IsTable system.now pairs table.new) }
    ensures more { IsMore table.old table.new }
    ensures appended { OnOk result (IsAppended table.old table.new) }
    ensures asked { IfOk result (λ a. IsSomeAnd (slice_get table.old i) (λ e. IsAsked system.now table.new (pair_of e) k e.label (atoms_from a.place e.firsts.items) a.from (replaced a.anew e.children.items))) }
    ensures needed { OnOk result ((qs : List Pair) → AreNeeded system.now qs table.old → AreNeeded system.now qs table.new) }
    ensures spent { result ≡ Err GainFault.Spent → (qs : List Pair) → AreNeeded system.now qs table.old → HasMore (Needed system.now (Contains qs)) pairs }
{
    let entry = table.entry(i);
    let place = place_from(&entry.firsts, k);
    if !asks_other(system, behind(&entry.firsts, place), k) {
        return Ok(Asked {
            place,
            from: k,
            anew: None,
        });
    }
    let seen = seen_by(system, table.entries(), entry, place, k)?;
    let own = entry.label.copy()?;
    let children = ask_all(alloc, system, table, pairs, &own, &seen)?;
    Ok(Asked {
        place,
        from: 0,
        anew: Some(children),
    })
}
