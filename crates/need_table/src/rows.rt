//! Rows of places, by number.
ghost use Rattle.std.specs.Prelude.{◌≡◌, ◌≢◌, ◌<◌, ◌++◌, ◌∷◌, [], ℕ, List, None, length, IfSome, IsTrue, OnOk};
ghost use Rattle.need_table.specs.Rows.{row_in, IsAdded};

use std::alloc::Global;
use std::marker::Model;
use tp_base::NoMemory;

/// Rows by their number. A row that was never begun is empty.
#[derive(Drop)]
pub(crate) struct Rows {
    rows: Vec<Vec<usize>>,
}

impl Model for Rows {
    ghost use Rattle.std.specs.Prelude.{ℕ, List, map};

    ghost Value = { List (List ℕ) };

    ghost view = { λ r. map (λ v. v.items) r.rows.items };
}

impl Rows {
    /// No rows.
    pub(crate) fn new(alloc: Global) -> Rows
        ensures { result ≡ [] }
    {
        Rows {
            rows: Vec::new(alloc),
        }
    }

    /// How many rows were begun.
    pub(crate) fn len(&self) -> usize
        ensures { result ≡ length self.now }
    {
        self.rows.len()
    }

    /// The row with this number.
    pub(crate) fn row(&self, q: usize) -> &[usize]
        ensures row { result.now ≡ row_in self.now q }
        ensures few { (p : ℕ) → length (row_in self.now p) < 18446744073709551616 }
    {
        match self.rows.get(q) {
            Some(row) => row,
            None => &[],
        }
    }

    /// The last place of a row.
    pub(crate) fn last(&self, q: usize) -> Option<usize>
        ensures last { IfSome result (λ i. (xs : List ℕ) × (row_in self.now q ≡ xs ++ i ∷ [])) }
        ensures none { result ≡ None → row_in self.now q ≡ [] }
        ensures few { (p : ℕ) → length (row_in self.now p) < 18446744073709551616 }
    {
        self.row(q).last().copied()
    }

    /// Takes the last place from a row.
    pub(crate) fn pop(&mut self, q: usize)
        ensures popped { (xs : List ℕ) (i : ℕ) → row_in self.old q ≡ xs ++ i ∷ [] → row_in self.new q ≡ xs }
        ensures others { (p : ℕ) → p ≢ q → row_in self.new p ≡ row_in self.old p }
    {
        if q < self.rows.len() {
            self.rows[q].pop();
        }
    }

    // Begins the rows up to this number, the first with room for as many places as the one before it has.
    fn begin(&mut self, q: usize) -> Result<(), NoMemory>
        ensures begun { OnOk result (q < length self.new) }
        ensures same { OnOk result ((p : ℕ) → row_in self.new p ≡ row_in self.old p) }
    {
        let alloc = *self.rows.allocator();
        'rows: while self.rows.len() <= q {
            let row = Vec::with_capacity(alloc, last_len(&self.rows))?;
            self.rows.push(row)?;
        }
        Ok(())
    }

    /// Puts a place behind all of a row, where it isn't the last one already.
    pub(crate) fn add(&mut self, q: usize, place: usize) -> Result<(), NoMemory>
        ensures added { OnOk result (IsAdded (row_in self.old q) (row_in self.new q) place) }
        ensures others { OnOk result ((p : ℕ) → p ≢ q → row_in self.new p ≡ row_in self.old p) }
    {
        self.begin(q)?;
        push_once(&mut self.rows[q], place)?;
        Ok(())
    }
}

// Puts a place behind all, where it isn't the last one already.
fn push_once(row: &mut Vec<usize>, place: usize) -> Result<(), NoMemory>
    ensures { OnOk result (IsAdded row.old.items row.new.items place) }
{
    if ends_with(row, place) {
        return Ok(());
    }
    row.push(place)?;
    Ok(())
}

// Whether a place is the last one of a row.
fn ends_with(row: &[usize], place: usize) -> bool
    ensures { IsTrue result → (xs : List ℕ) × (row.now ≡ xs ++ place ∷ []) }
{
    match row.last() {
        Some(last) => *last == place,
        None => false,
    }
}

// How many places the last row has.
fn last_len(rows: &[Vec<usize>]) -> usize {
    match rows.last() {
        Some(row) => row.len(),
        None => 0,
    }
}
