//! Files that are loaded whole, by name.
ghost use Rattle.std.specs.Prelude.{◌≡◌, ◌<◌, ◌≤◌, [], IfSome, OnOk, OnErr, vec_len};
ghost use Rattle.std.specs.Io.{StartsWith};

use std::alloc::{AllocError, AllocFailed};
use thiserror::Error;
use tp_base::MOST_BYTES;

/// Why a file wasn't loaded.
#[derive(Clone, Copy, Debug, PartialEq, Eq, Error)]
pub enum LoadFault {
    #[error("read fault")]
    Failed,
    #[error("more than {MOST_BYTES} bytes")]
    TooLarge,
    #[error("no memory")]
    Memory,
}

impl From<AllocError> for LoadFault {
    ghost use Rattle.tp_io.specs.declared.files.LoadFault.TheVariants.{Memory};

    ghost from_gives = { λ _ e. e ≡ Memory };

    fn from(_error: AllocError) -> LoadFault {
        LoadFault::Memory
    }
}

impl<T: Drop> From<AllocFailed<T>> for LoadFault {
    ghost use Rattle.tp_io.specs.declared.files.LoadFault.TheVariants.{Memory};

    ghost from_gives = { λ _ e. e ≡ Memory };

    fn from(_error: AllocFailed<T>) -> LoadFault {
        LoadFault::Memory
    }
}

/// Files by their names. Each implementation keeps a list of its loads, and says whether it tells what a name holds.
pub trait Files {
    ghost use Rattle.std.specs.Prelude.{ℕ, List, Option};
    ghost use Rattle.tp_io.specs.Files.{Load, loads_after};

    // The bytes that each name holds, where they are told.
    ghost told: { Self → List ℕ → Option (List ℕ) };

    // The loads so far, the earliest first.
    ghost loads: { Self → List Load };

    /// Loads all bytes of a file, in time linear in them.
    fn load(&mut self, name: &str, into: &mut Vec<u8>) -> Result<(), LoadFault>
        requires { into.old.items ≡ [] }
        ensures same_files { told self.new ≡ told self.old }
        ensures listed { loads self.new ≡ loads_after (loads self.old) name.now result }
        ensures whole { OnOk result (IfSome (told self.old name.now) (λ bytes. into.new.items ≡ bytes)) }
        ensures in_limit { OnOk result (vec_len into.new ≤ MOST_BYTES) }
        ensures too_large { result ≡ Err LoadFault.TooLarge → MOST_BYTES < vec_len into.new }
        ensures part { OnErr result (IfSome (told self.old name.now) (λ bytes. StartsWith bytes into.new.items)) };
}
