//! A hash map from each key to a list of values.
ghost use Rattle.std.specs.Prelude.{◌≡◌, ◌++◌, [], ◌∷◌, if◌then◌else◌, false, Some, IfOk, OnOk, OnErr};
ghost use Rattle.std.specs.Map.{lookup};
ghost use Rattle.multimap.specs.Values.{values_at};

use indexmap::IndexMap;
use std::alloc::Global;
use std::hash::Hash;
use std::marker::Model;
use tp_base::{Items, NoMemory};

/// For each key the values that were put there, in order. A contract sees the entries: keys with their values.
#[derive(Drop)]
pub struct Multimap<K: Eq + Hash, V> {
    map: IndexMap<K, Items<V>>,
}

impl<K: Eq + Hash, V> Model for Multimap<K, V> {
    ghost use Rattle.std.specs.Prelude.{List};

    ghost Value = { List (K × List V) };

    ghost view = { λ m. m.map.entries };
}

impl<K: Copy + Eq + Hash, V: Drop> Multimap<K, V> {
    /// An empty map.
    pub fn new(alloc: Global) -> Self
        ensures { result ≡ [] }
    {
        Multimap {
            map: IndexMap::new(alloc),
        }
    }

    /// The allocator that its memory comes from.
    pub fn allocator(&self) -> Global {
        *self.map.allocator()
    }

    /// The values of a key. One look by its hash.
    pub fn of(&self, key: K) -> &[V]
        ensures { result.now ≡ values_at K.eq self.now key }
    {
        match self.map.get(&key) {
            None => &[],
            Some(values) => values.items(),
        }
    }

    /// One value more, the last of its key's. A refusal changes nothing that `of` gives. Two looks by its hash.
    pub fn push(&mut self, key: K, value: V) -> Result<(), NoMemory>
        ensures ok { OnOk result ((k : K) → values_at K.eq self.new k ≡ (if K.eq key k then values_at K.eq self.old key ++ value ∷ [] else values_at K.eq self.old k)) }
        ensures err { OnErr result ((k : K) → values_at K.eq self.new k ≡ values_at K.eq self.old k) }
    {
        let mut values = self.taken(key)?;
        let pushed = values.push(value);
        self.map.insert(key, values)?;
        pushed?;
        Ok(())
    }

    // The values of a key, which has an entry without any from then on.
    fn taken(&mut self, key: K) -> Result<Items<V>, NoMemory>
        ensures taken { IfOk result (λ v. v ≡ values_at K.eq self.old key) }
        ensures there { OnOk result (lookup (K.eq key) self.new ≡ Some []) }
        ensures others { OnOk result ((k : K) → K.eq key k ≡ false → values_at K.eq self.new k ≡ values_at K.eq self.old k) }
        ensures err { OnErr result (self.new ≡ self.old) }
    {
        let alloc = self.allocator();
        let old = self.map.insert(key, Items::new(Vec::new(alloc)))?;
        Ok(old.unwrap_or(Items::new(Vec::new(alloc))))
    }
}
