//! Files in memory that never fail.
ghost use Rattle.std.specs.Prelude.{◌≡◌, ◌≢◌, [], Some};
ghost use Rattle.tp_io.specs.MemoryFiles.{contents_of, held_or_none, answer_to, loaded_after};

use crate::contents::{copy_file, held};
use crate::files::{Files, LoadFault};
use std::alloc::Global;
use std::marker::Model;

/// Files that are held in memory, where no load fails, and a name that isn't held has no bytes.
#[derive(Debug, Drop)]
pub struct SureFiles {
    entries: Vec<(String, Vec<u8>)>,
    loaded: Vec<String>,
}

impl Model for SureFiles {
    ghost use Rattle.std.specs.Prelude.{map, string_bytes};
    ghost use Rattle.tp_io.specs.MemoryFiles.{SureContents, contents_of};

    ghost Value = { SureContents };

    ghost view = { λ f. record {
      contents = contents_of f.entries.items;
      loaded = map string_bytes f.loaded.items;
    } };
}

impl SureFiles {
    /// Files with these bytes, where the first entry of a name counts.
    pub fn new(alloc: Global, entries: Vec<(String, Vec<u8>)>) -> Self
        ensures { result ≡ record { contents = contents_of entries.items; loaded = [] } }
    {
        SureFiles {
            entries,
            loaded: Vec::new(alloc),
        }
    }
}

impl Files for SureFiles {
    ghost use Rattle.std.specs.Prelude.{Some};
    ghost use Rattle.tp_io.specs.MemoryFiles.{held_or_none, sure_loads};

    ghost told = { λ f name. Some (held_or_none f.contents name) };

    ghost loads = { λ f. sure_loads f.loaded };

    fn load(&mut self, name: &str, into: &mut Vec<u8>) -> Result<(), LoadFault>
        requires { into.old.items ≡ [] }
        ensures answer { result ≢ Err LoadFault.Memory
            → result ≡ answer_to (Some (held_or_none self.old.contents name.now)) }
        ensures copied { result ≢ Err LoadFault.Memory → into.new.items ≡ held_or_none self.old.contents name.now }
        ensures no_memory { result ≡ Err LoadFault.Memory → into.new.items ≡ [] }
        ensures never_fails { result ≢ Err LoadFault.Failed }
        ensures after { self.new ≡ record self.old { loaded = loaded_after self.old.loaded name.now result } }
    {
        let listed = String::from_str(*self.loaded.allocator(), name)?;
        self.loaded.push(listed)?;
        let answer = copy_file(held(&self.entries, name).unwrap_or(&[]), into);
        if answer == Err(LoadFault::Memory) {
            self.loaded.pop();
        }
        answer
    }
}
