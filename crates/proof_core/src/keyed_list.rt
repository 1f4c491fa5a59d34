//! Lists with a look-up of the first item with a key.
ghost use Rattle.std.specs.Prelude.{◌≡◌, ◌<◌, ◌∷◌, ◌++◌, [], Some, length, find, slice_get, OnOk};
ghost use Rattle.std.specs.Option.{option_copied};
ghost use Rattle.proof_core.specs.KeyedLists.{first_place, has_key};

use indexmap::IndexMap;
use std::alloc::Global;
use std::hash::Hash;
use std::marker::Model;
use tp_base::NoMemory;

/// Items that have a key.
pub trait Keyed {
    type Key: Copy + Eq + Hash + Drop;

    ghost key_of: { Self → Self.Key };

    /// The key. Constant.
    fn key(&self) -> Self::Key
        ensures { result ≡ key_of self.now };
}

/// Items in their order. A contract sees the list of them.
#[derive(Drop)]
pub struct KeyedList<T: Keyed> {
    items: Vec<T>,
    firsts: IndexMap<T::Key, usize>,
}

impl<T: Keyed> Model for KeyedList<T> {
    ghost use Rattle.std.specs.Prelude.{List};
    ghost use Rattle.proof_core.specs.KeyedLists.{AreFirsts};

    ghost Value = { List T };

    ghost view = { λ l. l.items.items };

    ghost invariant = { λ l. AreFirsts T.Key.eq T.key_of l.firsts l.items.items };
}

impl<T: Keyed + Drop> KeyedList<T> {
    /// An empty list. Constant.
    pub fn new(alloc: Global) -> Self
        ensures { result ≡ [] }
    {
        KeyedList {
            items: Vec::new(alloc),
            firsts: IndexMap::new(alloc),
        }
    }

    /// The allocator that its memory comes from. Constant.
    pub fn allocator(&self) -> Global {
        *self.items.allocator()
    }

    /// The number of items. Constant.
    pub fn len(&self) -> usize
        ensures { result ≡ length self.now }
    {
        self.items.len()
    }

    /// The items as a slice. Constant.
    pub fn items(&self) -> &[T]
        ensures { result.now ≡ self.now }
    {
        &self.items
    }

    /// The index of the first item with the key. Constant on average.
    pub fn place_of(&self, key: T::Key) -> Option<usize>
        ensures { result ≡ first_place (has_key T.Key.eq T.key_of key) self.now }
    {
        self.firsts.get(&key).copied()
    }

    /// The first item with the key. Constant on average.
    pub fn first(&self, key: T::Key) -> Option<&T>
        ensures { option_copied result ≡ find (has_key T.Key.eq T.key_of key) self.now }
    {
        match self.place_of(key) {
            Some(place) => item_at(&self.items, place),
            None => None,
        }
    }

    /// The first item with the key, by value. The others are dropped. Linear in their number.
    pub fn into_first(self, key: T::Key) -> Option<T>
        ensures { result ≡ find (has_key T.Key.eq T.key_of key) self }
    {
        let first = self.place_of(key);
        match first {
            Some(place) => Some(taken(self.items, place)),
            None => None,
        }
    }

    /// Adds an item. Constant on average.
    pub fn push(&mut self, item: T) -> Result<(), NoMemory>
        ensures { OnOk result (self.new ≡ self.old ++ item ∷ []) }
    {
        let key = item.key();
        let known = self.place_of(key);
        let place = self.len();
        self.items.push(item)?;
        if known.is_some() {
            return Ok(());
        }
        if self.firsts.insert(key, place).is_err() {
            self.items.pop();
            return Err(NoMemory);
        }
        Ok(())
    }
}

fn item_at<T>(items: &[T], place: usize) -> Option<&T>
    ensures { option_copied result ≡ slice_get items.now place }
{
    items.get(place)
}

fn taken<T: Drop>(items: Vec<T>, place: usize) -> T
    requires { place < length items.items }
    ensures { slice_get items.items place ≡ Some result }
{
    let mut items = items;
    items.swap_remove(place)
}
