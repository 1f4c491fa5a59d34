//! Files in memory that fail as they are told to.
ghost use Rattle.std.specs.Prelude.{◌≡◌, ◌≢◌, [], None, if◌then◌else◌, unwrap_or, option_map};
ghost use Rattle.tp_io.specs.Counts.{next_count};
ghost use Rattle.tp_io.specs.Files.{loads_after};
ghost use Rattle.tp_io.specs.MemoryFiles.{contents_of, held, answer_to, fails_at, next_read};

use crate::contents::{copy_file, held};
use crate::files::{Files, LoadFault};
use crate::load_list::LoadList;
use std::alloc::Global;
use std::marker::Model;

/// Files that are held in memory, whose loads fail at chosen calls.
#[derive(Debug, Drop)]
pub struct MemFiles {
    entries: Vec<(String, Vec<u8>)>,
    fail: Vec<u64>,
    calls: u64,
    loads: LoadList,
}

impl Model for MemFiles {
    ghost use Rattle.tp_io.specs.MemoryFiles.{MemoryFiles, contents_of};

    ghost Value = { MemoryFiles };

    ghost view = { λ f. record {
      contents = contents_of f.entries.items;
      fail = f.fail.items;
      calls = f.calls;
      loads = f.loads;
    } };
}

impl MemFiles {
    /// Files with these bytes, where the first entry of a name counts. The loads whose numbers, from 1, are in `fail`
    /// fail, and so does a load of a name that isn't held. One that finds no memory counts as a load.
    pub fn new(alloc: Global, entries: Vec<(String, Vec<u8>)>, fail: Vec<u64>) -> Self
        ensures { result ≡ record { contents = contents_of entries.items; fail = fail.items; calls = 0; loads = [] } }
    {
        MemFiles {
            entries,
            fail,
            calls: 0,
            loads: LoadList::new(alloc),
        }
    }
}

// What a load of this number reads.
fn read<'a>(
    entries: &'a [(String, Vec<u8>)],
    fail: &[u64],
    call: u64,
    name: &str,
) -> Option<&'a [u8]>
    ensures { option_map (λ b. b.now) result
        ≡ (if fails_at fail.now call then None else held (contents_of entries.entry.now) name.now) }
{
    if fail.contains(&call) {
        return None;
    }
    held(entries, name)
}

impl Files for MemFiles {
    ghost use Rattle.tp_io.specs.MemoryFiles.{held};

    ghost told = { λ f name. held f.contents name };

    ghost loads = { λ f. f.loads };

    fn load(&mut self, name: &str, into: &mut Vec<u8>) -> Result<(), LoadFault>
        requires { into.old.items ≡ [] }
        ensures answer { result ≢ Err LoadFault.Memory → result ≡ answer_to (next_read self.old name.now) }
        ensures copied { result ≢ Err LoadFault.Memory → into.new.items ≡ unwrap_or (next_read self.old name.now) [] }
        ensures no_memory { result ≡ Err LoadFault.Memory → into.new.items ≡ [] }
        ensures after { self.new ≡ record self.old {
          calls = next_count self.old.calls;
          loads = loads_after self.old.loads name.now result;
        } }
    {
        self.calls = self.calls.saturating_add(1);
        self.loads.begin(name)?;
        let answer = match read(&self.entries, &self.fail, self.calls, name) {
            Some(bytes) => copy_file(bytes, into),
            None => Err(LoadFault::Failed),
        };
        self.loads.end(answer);
        answer
    }
}
