//! The list of loads that an implementation of `Files` keeps.
ghost use Rattle.std.specs.Prelude.{◌≡◌, ◌<◌, ℕ, List, length, true, false, [], ◌∷◌, ◌++◌, OnOk, OnErr};
ghost use Rattle.tp_io.specs.Files.{Load, loads_after};

use crate::files::LoadFault;
use std::alloc::{AllocError, Global};
use std::marker::Model;

#[derive(Debug, Drop)]
struct Entry {
    name: String,
    failed: bool,
}

/// The loads so far. A contract sees them as they are listed.
#[derive(Debug, Drop)]
pub(crate) struct LoadList {
    entries: Vec<Entry>,
}

impl Model for LoadList {
    ghost use Rattle.std.specs.Prelude.{List, map};
    ghost use Rattle.tp_io.specs.Files.{Load};

    ghost Value = { List Load };

    ghost use Rattle.tp_io.specs.LoadLists.{load_of};

    ghost view = { λ l. map load_of l.entries.items };
}

impl LoadList {
    pub(crate) fn new(alloc: Global) -> Self
        ensures { result ≡ [] }
    {
        LoadList {
            entries: Vec::new(alloc),
        }
    }

    /// Lists a load before it is made, so that no memory is needed for the list afterwards.
    pub(crate) fn begin(&mut self, name: &str) -> Result<(), AllocError>
        ensures ok { OnOk result (self.new ≡ self.old ++ record { name = name.now; failed = false } ∷ []) }
        ensures err { OnErr result (self.new ≡ self.old) }
    {
        let name = String::from_str(*self.entries.allocator(), name)?;
        self.entries.push(Entry {
            name,
            failed: false,
        })?;
        Ok(())
    }

    /// Ends the load that was listed last: one that found no memory is taken off again.
    pub(crate) fn end(&mut self, answer: Result<(), LoadFault>)
        requires { 0 < length self.old }
        ensures { (before : List Load) (name : List ℕ) → self.old ≡ before ++ record { name = name; failed = false } ∷ []
            → self.new ≡ loads_after before name answer }
    {
        match answer {
            Err(LoadFault::Memory) => {
                self.entries.pop();
            }
            Err(LoadFault::Failed) => self.fail_last(),
            _ => {}
        }
    }

    fn fail_last(&mut self)
        requires { 0 < length self.old }
        ensures { (before : List Load) (name : List ℕ) → self.old ≡ before ++ record { name = name; failed = false } ∷ []
            → self.new ≡ before ++ record { name = name; failed = true } ∷ [] }
    {
        let last = self.entries.len() - 1;
        self.entries[last].failed = true;
    }
}
