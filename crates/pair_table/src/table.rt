//! Rows in the order of their insertion, with a hash index over their pairs.
ghost use Rattle.std.specs.Prelude.{◌≡◌, ◌↔◌, ◌<◌, ◌∷◌, ◌++◌, [], Some, map, take, length, slice_get, Contains, IsTrue, IsNone, IfSome, IfOk, OnOk, OnErr};
ghost use Rattle.pair_table.specs.declared.table.Row.{Row};
ghost use Rattle.pair_table.specs.Rows.{pair_of, IsRowOf, NoneAt};

use crate::pairs::{hash_of, same_atoms};
use multimap::Multimap;
use std::alloc::Global;
use std::marker::Model;
use tp_base::{ClassSet, NoMemory};

/// A kind and a label, and what is known of the two.
#[derive(Drop)]
pub struct Row<V> {
    pub kind: u32,
    pub label: ClassSet,
    pub value: V,
}

/// Rows in the order in which they were put, each found by its kind and its label. A contract sees the list of them.
#[derive(Drop)]
pub struct PairTable<V> {
    rows: Vec<Row<V>>,
    places: Multimap<u64, usize>,
}

impl<V> Model for PairTable<V> {
    ghost use Rattle.std.specs.Prelude.{List, map};
    ghost use Rattle.pair_table.specs.declared.table.Row.{Row};
    ghost use Rattle.pair_table.specs.Rows.{pair_of, AreFound};

    ghost Value = { List (Row V) };

    ghost view = { λ t. t.rows.items };

    ghost invariant = { λ t. AreFound t.places (map pair_of t.rows.items) };
}

impl<V: Drop> PairTable<V> {
    /// An empty table.
    pub fn new(alloc: Global) -> Self
        ensures { result ≡ [] }
    {
        PairTable {
            rows: Vec::new(alloc),
            places: Multimap::new(alloc),
        }
    }

    /// The allocator that its memory comes from.
    pub fn allocator(&self) -> Global {
        *self.rows.allocator()
    }

    /// How many rows there are.
    pub fn len(&self) -> usize
        ensures { result ≡ length self.now }
    {
        self.rows.len()
    }

    /// What is known of the pair of a row. Constant.
    pub fn value(&self, i: usize) -> &V
        requires { i < length self.now }
        ensures { (r : Row V) → slice_get self.now i ≡ Some r → result.now ≡ r.value }
    {
        let row = &self.rows[i];
        &row.value
    }

    /// The number of the row with this pair, where there is one. Linear in the pair's atoms, on average.
    pub fn find(&self, kind: u32, label: &ClassSet) -> Option<usize>
        ensures there { IfSome result (IsRowOf self.now kind label.now) }
        ensures within { IfSome result (λ i. i < length self.now) }
        ensures none { IsNone result ↔ ¬ Contains (map pair_of self.now) (kind, label.now) }
    {
        let places = self.places.of(hash_of(kind, label));
        place_among(&self.rows, places, kind, label)
    }

    /// Puts a row with a new pair behind all, and gives its number. Linear in the pair's atoms, on average.
    pub fn push(&mut self, kind: u32, label: ClassSet, value: V) -> Result<usize, NoMemory>
        requires { ¬ Contains (map pair_of self.old) (kind, label) }
        ensures ok { OnOk result (self.new ≡ self.old ++ record { kind = kind; label = label; value = value } ∷ []) }
        ensures place { IfOk result (λ i. i ≡ length self.old) }
        ensures err { OnErr result (self.new ≡ self.old) }
    {
        let place = self.len();
        self.places.push(hash_of(kind, &label), place)?;
        self.rows.push(Row { kind, label, value })?;
        Ok(place)
    }

    /// Forgets the rows from this place on. Their hashes stay: such a pair that is put again costs one more look.
    pub fn truncate(&mut self, len: usize)
        ensures { self.new ≡ take len self.old }
    {
        self.rows.truncate(len);
    }
}

// Whether the row is that of the pair.
fn is_of<V>(row: &Row<V>, kind: u32, label: &ClassSet) -> bool
    ensures { IsTrue result ↔ pair_of row.now ≡ (kind, label.now) }
{
    if row.kind != kind {
        return false;
    }
    same_atoms(&row.label, label)
}

// Whether the row at the place, if there is one, is that of the pair.
fn is_at<V>(rows: &[Row<V>], place: usize, kind: u32, label: &ClassSet) -> bool
    ensures { IsTrue result ↔ slice_get (map pair_of rows.now) place ≡ Some (kind, label.now) }
{
    match rows.get(place) {
        Some(row) => is_of(row, kind, label),
        None => false,
    }
}

// The first of these places at which the pair stands.
fn place_among<V>(rows: &[Row<V>], places: &[usize], kind: u32, label: &ClassSet) -> Option<usize>
    ensures there { IfSome result (λ i. slice_get (map pair_of rows.now) i ≡ Some (kind, label.now)) }
    ensures none { IsNone result → NoneAt (map pair_of rows.now) (kind, label.now) places.now }
{
    for i in 0..places.len() {
        let place = places[i];
        if is_at(rows, place, kind, label) {
            return Some(place);
        }
    }
    None
}
