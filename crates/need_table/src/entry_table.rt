//! The entries of the table, with a hash index over their pairs.
ghost use Rattle.std.specs.Prelude.{◌≡◌, ◌↔◌, ◌+◌, ◌≤◌, ◌<◌, ◌^◌, ◌∷◌, ◌++◌, [], ℕ, None, Some, map, take, set, length, slice_get, get_or, Contains, IsNone, IfSome, IsSomeAnd, IsTrue, IsFalse, false, IfOk, OnOk, OnErr};
ghost use Rattle.need_table.specs.declared.entries.Entry.{Entry};
ghost use Rattle.need_table.specs.Tables.{pair_of, fresh_of, raised, replaced, IsNotAt, IsNoted, IsUntouched, IsRested, AreRested};

use crate::entries::{Entry, grow, is_at};
use gathered::Gathered;
use multimap::Multimap;
use pair_table::{hash_of, same_atoms};
use std::alloc::Global;
use std::marker::Model;
use tp_base::{Atom, ClassSet, NoMemory};

/// Entries with a hash index: for each hash of a pair the places where such an entry stands, or stood before it was
/// forgotten. A contract sees the list of the entries.
#[derive(Drop)]
pub(crate) struct Table {
    entries: Vec<Entry>,
    places: Multimap<u64, usize>,
}

impl Model for Table {
    ghost use Rattle.std.specs.Prelude.{List, map};
    ghost use Rattle.need_table.specs.declared.entries.Entry.{Entry};
    ghost use Rattle.need_table.specs.Tables.{pair_of};
    ghost use Rattle.pair_table.specs.Rows.{AreFound};

    ghost Value = { List Entry };

    ghost view = { λ t. t.entries.items };

    ghost invariant = { λ t. AreFound t.places (map pair_of t.entries.items) };
}

impl Table {
    /// A table with no entry.
    pub(crate) fn new(alloc: Global) -> Table
        ensures { result ≡ [] }
    {
        Table {
            entries: Vec::new(alloc),
            places: Multimap::new(alloc),
        }
    }

    pub(crate) fn allocator(&self) -> Global {
        *self.entries.allocator()
    }

    pub(crate) fn len(&self) -> usize
        ensures { result ≡ length self.now }
    {
        self.entries.len()
    }

    /// The entry at a place.
    pub(crate) fn entry(&self, i: usize) -> &Entry
        requires { i < length self.now }
        ensures { result.now ≡ get_or self.now i result.now }
    {
        &self.entries[i]
    }

    pub(crate) fn entries(&self) -> &[Entry]
        ensures { result.now ≡ self.now }
    {
        &self.entries
    }

    /// Where the pair stands, if it is there. Linear in its atoms, on average.
    pub(crate) fn find(&self, kind: u32, parent: &ClassSet) -> Option<usize>
        ensures place { IfSome result (λ i. IsSomeAnd (slice_get self.now i) (λ e. pair_of e ≡ (kind, parent.now))) }
        ensures within { IfSome result (λ i. i < length self.now) }
        ensures none { IsNone result ↔ ¬ Contains (map pair_of self.now) (kind, parent.now) }
    {
        let places = self.places.of(hash_of(kind, parent));
        place_among(&self.entries, places, kind, parent)
    }

    /// Puts an entry behind all. Linear in the atoms of its pair, on average.
    pub(crate) fn push(&mut self, entry: Entry) -> Result<(), NoMemory>
        ensures ok { OnOk result (self.new ≡ self.old ++ entry ∷ []) }
        ensures err { OnErr result (self.new ≡ self.old) }
    {
        let hash = hash_of(entry.kind, &entry.parent);
        self.places.push(hash, self.entries.len())?;
        self.entries.push(entry)?;
        Ok(())
    }

    /// Notes what of these atoms is new in the round after k at an entry, and where what it asks stands, if it asks anew, unless that
    /// was done. A no says that nothing is new.
    pub(crate) fn note(
        &mut self,
        i: usize,
        k: u64,
        given: &mut Gathered,
        news: &mut Vec<Atom>,
        anew: Option<Vec<usize>>,
    ) -> Result<bool, NoMemory>
        requires place { i < length self.old }
        requires round { k + 1 < 2 ^ 64 }
        ensures ok { OnOk result (IsNoted self.old self.new i k given.old anew) }
        ensures grew { IfOk result (λ grew. grew ≡ false → (e : Entry) → slice_get self.old i ≡ Some e → fresh_of e.label (k + 1) given.old ≡ []) }
        ensures err { OnErr result (IsUntouched self.old self.new i) }
    {
        note(&mut self.entries, i, k, given, news, anew)
    }

    /// Notes that nothing is new at an entry up to the round k.
    pub(crate) fn raise(&mut self, i: usize, k: u64)
        requires { i < length self.old }
        ensures { (e : Entry) → slice_get self.old i ≡ Some e → self.new ≡ set self.old i (raised k e) }
    {
        raise(&mut self.entries, i, k);
    }

    /// Marks all entries as fixpoints. Those before this place are marked already.
    pub(crate) fn rest_all(&mut self, first: usize)
        requires within { first ≤ length self.old }
        requires at_rest { (j : ℕ) (e : Entry) → j < first → slice_get self.old j ≡ Some e → e.rounds ≡ None }
        ensures { AreRested self.old self.new }
    {
        rest_all(&mut self.entries, first);
    }

    /// Forgets the entries from this place on.
    pub(crate) fn truncate(&mut self, len: usize)
        ensures { self.new ≡ take len self.old }
    {
        self.entries.truncate(len);
    }
}

// Whether the entry at a place has the pair.
fn has_pair(entries: &[Entry], i: usize, kind: u32, parent: &ClassSet) -> bool
    ensures yes { IsTrue result → IsSomeAnd (slice_get entries.now i) (λ e. pair_of e ≡ (kind, parent.now)) }
    ensures no { IsFalse result → IsNotAt entries.now (kind, parent.now) i }
{
    match entries.get(i) {
        Some(entry) => entry.kind == kind && same_atoms(&entry.parent, parent),
        None => false,
    }
}

// The first of these places where the pair stands.
fn place_among(entries: &[Entry], places: &[usize], kind: u32, parent: &ClassSet) -> Option<usize>
    ensures place { IfSome result (λ i. IsSomeAnd (slice_get entries.now i) (λ e. pair_of e ≡ (kind, parent.now))) }
    ensures none { result ≡ None → (i : ℕ) → Contains places.now i → IsNotAt entries.now (kind, parent.now) i }
{
    let mut rest = places;
    'places: while let Some((place, others)) = rest.split_first() {
        if has_pair(entries, *place, kind, parent) {
            return Some(*place);
        }
        rest = others;
    }
    None
}

// Puts the places there, if there are some anew.
fn replace(places: &mut Vec<usize>, anew: Option<Vec<usize>>)
    ensures { places.new.items ≡ replaced anew places.old.items }
{
    if let Some(anew) = anew {
        *places = anew;
    }
}

// Notes what of these atoms is new in the round after k, unless that was done.
fn note(
    entries: &mut Vec<Entry>,
    i: usize,
    k: u64,
    given: &mut Gathered,
    news: &mut Vec<Atom>,
    anew: Option<Vec<usize>>,
) -> Result<bool, NoMemory>
    requires place { i < length entries.old.items }
    requires round { k + 1 < 2 ^ 64 }
    ensures ok { OnOk result (IsNoted entries.old.items entries.new.items i k given.old anew) }
    ensures grew { IfOk result (λ grew. grew ≡ false → (e : Entry) → slice_get entries.old.items i ≡ Some e → fresh_of e.label (k + 1) given.old ≡ []) }
    ensures err { OnErr result (IsUntouched entries.old.items entries.new.items i) }
{
    if is_at(&entries[i], k) {
        let entry = &mut entries[i];
        let before = entry.firsts.len();
        grow(&mut entry.label, &mut entry.firsts, given, news, k + 1)?;
        replace(&mut entry.children, anew);
        entry.rounds = Some(k + 1);
        return Ok(entry.firsts.len() > before);
    }
    Ok(true)
}

// Notes that nothing is new up to the round k.
fn raise(entries: &mut Vec<Entry>, i: usize, k: u64)
    requires { i < length entries.old.items }
    ensures { (e : Entry) → slice_get entries.old.items i ≡ Some e → entries.new.items ≡ set entries.old.items i (raised k e) }
{
    entries[i].rounds = Some(k);
}

// Marks an entry as a fixpoint, if it isn't. It forgets what it asks, and its firsts keep no more room than they need.
fn rest(entry: &mut Entry)
    ensures { IsRested entry.old entry.new }
{
    if entry.rounds.is_some() {
        entry.rounds = None;
        entry.children.clear();
        entry.children.shrink_to_fit();
        entry.firsts.shrink_to_fit();
    }
}

// Marks all entries as fixpoints. Those before this place are marked already.
fn rest_all(entries: &mut Vec<Entry>, first: usize)
    requires within { first ≤ length entries.old.items }
    requires at_rest { (j : ℕ) (e : Entry) → j < first → slice_get entries.old.items j ≡ Some e → e.rounds ≡ None }
    ensures { AreRested entries.old.items entries.new.items }
{
    let mut i = first;
    'entries: while i < entries.len() {
        rest(&mut entries[i]);
        i += 1;
    }
}
