//! A cache of names as they are written: a name that comes again needs neither a copy nor a hash.
ghost use Rattle.std.specs.Prelude.{◌≡◌, ◌<◌, ◌⊎◌, ℕ, List, length, slice_get, Some, IfSome, OnOk};
ghost use Rattle.html_table.specs.declared.name_notes.Note.{Note};
ghost use Rattle.html_table.specs.NameNotes.{IsNoted};

use std::alloc::Global;
use tp_base::NoMemory;

// A name as it is written, and what was noted of it.
#[derive(Drop)]
struct Note<V> {
    name: Vec<u8>,
    value: V,
}

// Of no longer name anything is noted.
const LONGEST_NAME: usize = 64;

/// What was noted of some names, of 256 at most: a name may take the place of one that came before.
#[derive(Drop)]
pub struct NameNotes<V> {
    notes: Vec<Option<Note<V>>>,
}

// The place of a name's note, by its length and two of its bytes. The names of HTML that pages are full of have places of their own.
fn place_of(name: &[u8]) -> usize {
    let first = name.first().copied().unwrap_or(0).wrapping_mul(13);
    let last = name.last().copied().unwrap_or(0).wrapping_mul(9);
    let len = ((name.len() % 256) as u8).wrapping_mul(11);
    first.wrapping_add(last).wrapping_add(len) as usize
}

impl<V: Copy + Drop> NameNotes<V> {
    /// An empty cache.
    pub fn new(alloc: Global) -> Self
        ensures { (q : List ℕ) (v : V) → IsNoted result q v → ⊥ }
    {
        NameNotes {
            notes: Vec::new(alloc),
        }
    }

    /// What was noted of a name, if it still is. Linear in the name.
    pub fn get(&self, name: &[u8]) -> Option<V>
        ensures { IfSome result (λ v. IsNoted self.now name.now v) }
    {
        match self.notes.get(place_of(name)) {
            Some(Some(note)) if note.name.as_slice() == name => Some(note.value),
            _ => None,
        }
    }

    /// Notes a value of a name, unless it is longer than 64 bytes. Linear in these.
    pub fn put(&mut self, name: &[u8], value: V) -> Result<(), NoMemory>
        ensures { (q : List ℕ) (v : V) → IsNoted self.new q v → IsNoted self.old q v ⊎ ((q ≡ name.now) × (v ≡ value)) }
    {
        if name.len() > LONGEST_NAME {
            return Ok(());
        }
        let place = place_of(name);
        let name = Vec::from_slice(*self.notes.allocator(), name)?;
        begin(&mut self.notes, place)?;
        self.notes[place] = Some(Note { name, value });
        Ok(())
    }
}

// Begins the places up to this one.
fn begin<V: Drop>(notes: &mut Vec<Option<Note<V>>>, place: usize) -> Result<(), NoMemory>
    ensures begun { OnOk result (place < length notes.new.items) }
    ensures kept { (i : ℕ) (m : Note V) → slice_get notes.new.items i ≡ Some (Some m) → slice_get notes.old.items i ≡ Some (Some m) }
{
    'notes: while notes.len() <= place {
        notes.push(None)?;
    }
    Ok(())
}
