//! Rows of values of any type, by keys.
ghost use Rattle.std.specs.Prelude.{◌≡◌, ◌<◌, ℕ, [], length, OnOk, OnErr};
ghost use Rattle.row_index.specs.Rows.{row_of, IsNoted};

use std::alloc::Global;
use std::marker::Model;
use tp_base::NoMemory;

/// The values of one key, in the order in which they were noted. A contract sees the list of them.
#[derive(Drop)]
pub(crate) struct Row<V> {
    items: Vec<V>,
}

impl<V> Model for Row<V> {
    ghost use Rattle.std.specs.Prelude.{List};

    ghost Value = { List V };

    ghost view = { λ r. r.items.items };
}

/// For each key a row of values. There is a row for each number up to the largest key. A contract sees the rows.
#[derive(Drop)]
pub struct Rows<V> {
    rows: Vec<Row<V>>,
}

impl<V> Model for Rows<V> {
    ghost use Rattle.std.specs.Prelude.{List};

    ghost Value = { List (List V) };

    ghost view = { λ t. t.rows.items };
}

impl<V: Drop> Rows<V> {
    /// Rows without values.
    pub fn new(alloc: Global) -> Rows<V>
        ensures { result ≡ [] }
    {
        Rows {
            rows: Vec::new(alloc),
        }
    }

    /// The values of a key, in the order in which they were noted. Constant.
    pub fn of(&self, key: usize) -> &[V]
        ensures { result.now ≡ row_of self.now key }
    {
        match self.rows.get(key) {
            Some(row) => &row.items,
            None => &[],
        }
    }

    // Makes empty rows up to the key.
    fn reach(&mut self, alloc: Global, key: usize) -> Result<(), NoMemory>
        ensures there { OnOk result (key < length self.new) }
        ensures same { (k : ℕ) → row_of self.new k ≡ row_of self.old k }
    {
        'rows: while self.rows.len() <= key {
            self.rows.push(Row {
                items: Vec::new(alloc),
            })?;
        }
        Ok(())
    }

    /// Appends a value to the row of a key. When memory runs out, `of` gives what it gave before. Amortized constant, but
    /// linear in the key where it is the largest so far.
    pub fn note(&mut self, alloc: Global, key: usize, value: V) -> Result<(), NoMemory>
        ensures ok { OnOk result (IsNoted self.old self.new key value) }
        ensures err { OnErr result ((k : ℕ) → row_of self.new k ≡ row_of self.old k) }
    {
        self.reach(alloc, key)?;
        let row = &mut self.rows[key];
        row.items.push(value)?;
        Ok(())
    }
}
