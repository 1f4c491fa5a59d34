//! An index: for each key the places that are noted for it.
ghost use Rattle.std.specs.Prelude.{◌≡◌, ◌≢◌, ◌<◌, ℕ, [], ◌∷◌, ◌++◌, None, length, get_or, IfOk, OnOk, OnErr};
ghost use Rattle.row_index.specs.Rows.{row_of, IsNoted, IsNotedIf, AreByNumber};

use crate::held::Held;
use std::alloc::Global;
use std::marker::Model;
use tp_base::NoMemory;

/// The places of one key, in the order in which they were noted. A contract sees the list of them.
#[derive(Drop)]
pub(crate) struct Row {
    held: Held,
}

impl Model for Row {
    ghost use Rattle.std.specs.Prelude.{List, ℕ};
    ghost use Rattle.row_index.specs.Held.{places_of};

    ghost Value = { List ℕ };

    ghost view = { λ r. places_of r.held };
}

impl Row {
    // No place.
    fn new() -> Row
        ensures { result ≡ [] }
    {
        Row { held: Held::Empty }
    }

    // Appends a place. Amortized constant.
    fn push(&mut self, alloc: Global, place: usize) -> Result<(), NoMemory>
        ensures ok { OnOk result (self.new ≡ self.old ++ place ∷ []) }
        ensures err { OnErr result (self.new ≡ self.old) }
    {
        self.held.push(alloc, place)
    }
}

/// For each key the places that are noted for it, in a row for each number up to the largest key. A row with a single place
/// allocates no memory of its own. A contract sees the rows.
#[derive(Drop)]
pub struct Index {
    rows: Vec<Row>,
}

impl Model for Index {
    ghost use Rattle.std.specs.Prelude.{List, ℕ};

    ghost Value = { List (List ℕ) };

    ghost view = { λ t. t.rows.items };
}

impl Index {
    /// An index without places.
    pub fn new(alloc: Global) -> Index
        ensures { result ≡ [] }
    {
        Index {
            rows: Vec::new(alloc),
        }
    }

    /// The places of a key, in the order in which they were noted. Constant.
    pub fn of(&self, key: usize) -> &[usize]
        ensures { result.now ≡ row_of self.now key }
    {
        match self.rows.get(key) {
            Some(row) => row.held.places(),
            None => &[],
        }
    }

    // Makes empty rows up to the key.
    fn reach(&mut self, key: usize) -> Result<(), NoMemory>
        ensures there { OnOk result (key < length self.new) }
        ensures same { (k : ℕ) → row_of self.new k ≡ row_of self.old k }
    {
        'rows: while self.rows.len() <= key {
            self.rows.push(Row::new())?;
        }
        Ok(())
    }

    /// Appends a place to the row of a key. When memory runs out, `of` gives what it gave before. Amortized constant, but
    /// linear in the key where it is the largest so far.
    pub fn note(&mut self, alloc: Global, key: usize, place: usize) -> Result<(), NoMemory>
        ensures ok { OnOk result (IsNoted self.old self.new key place) }
        ensures err { OnErr result ((k : ℕ) → row_of self.new k ≡ row_of self.old k) }
    {
        self.reach(key)?;
        let row = &mut self.rows[key];
        row.push(alloc, place)?;
        Ok(())
    }

    /// Removes all places of a key. Constant.
    pub fn clear(&mut self, key: usize)
        ensures here { row_of self.new key ≡ [] }
        ensures others { (k : ℕ) → k ≢ key → row_of self.new k ≡ row_of self.old k }
    {
        if key < self.rows.len() {
            self.rows[key] = Row::new();
        }
    }

    /// The index of a list of numbers. Each number is a key, and its row has the places at which it stands. Linear in the list
    /// and its largest number.
    pub fn of_numbers(alloc: Global, numbers: &[Option<usize>]) -> Result<Index, NoMemory>
        ensures { IfOk result (λ t. AreByNumber numbers.now t) }
    {
        let mut index = Index::new(alloc);
        for i in 0..numbers.len() {
            index.note_number(alloc, numbers, i)?;
        }
        Ok(index)
    }

    // Notes the i-th place for its number, if it has one.
    fn note_number(
        &mut self,
        alloc: Global,
        numbers: &[Option<usize>],
        i: usize,
    ) -> Result<(), NoMemory>
        requires { i < length numbers.now }
        ensures { OnOk result (IsNotedIf self.old self.new (get_or numbers.now i None) i) }
    {
        match numbers[i] {
            Some(number) => self.note(alloc, number, i),
            None => Ok(()),
        }
    }
}
