//! Why a text is no selector that can be judged.
use std::alloc::{AllocError, AllocFailed};
use thiserror::Error;
use tp_base::{AtomFault, MOST_ATOMS, NoMemory};

/// How many compounds a selector may have that is read.
pub const MOST_PARTS: usize = 512;

/// What a selector has that is not read.
#[derive(Clone, Copy, Debug, PartialEq, Eq)]
pub enum Skip {
    /// `+` or `~`.
    Sibling,
    /// A pseudo-class or a pseudo-element that is not dropped.
    Pseudo,
    /// A `[` that begins no attribute part that is read.
    Attribute,
    /// `\`.
    Escape,
    /// One compound more than a selector may have.
    Long,
    /// Anything else that is no selector.
    Bad,
}

/// Why no selector is read. The number is the offset of the cause in the text.
#[derive(Clone, Copy, Debug, PartialEq, Eq, Error)]
pub enum SelFault {
    #[error("a selector that is not read, at {1}")]
    Skipped(Skip, usize),
    #[error("more than {MOST_ATOMS} different names")]
    TooManyAtoms,
    #[error("no memory")]
    Memory,
}

impl From<AtomFault> for SelFault {
    ghost use Rattle.std.specs.Prelude.{◌≡◌};
    ghost use Rattle.sel_text.specs.Faults.{sel_fault_of};

    ghost from_gives = { λ e f. f ≡ sel_fault_of e };

    fn from(error: AtomFault) -> SelFault {
        match error {
            AtomFault::TooManyAtoms => SelFault::TooManyAtoms,
            AtomFault::Memory => SelFault::Memory,
        }
    }
}

impl From<NoMemory> for SelFault {
    ghost use Rattle.std.specs.Prelude.{◌≡◌};
    ghost use Rattle.sel_text.specs.declared.faults.SelFault.TheVariants.{Memory};

    ghost from_gives = { λ _ e. e ≡ Memory };

    fn from(_error: NoMemory) -> SelFault {
        SelFault::Memory
    }
}

impl From<AllocError> for SelFault {
    ghost use Rattle.std.specs.Prelude.{◌≡◌};
    ghost use Rattle.sel_text.specs.declared.faults.SelFault.TheVariants.{Memory};

    ghost from_gives = { λ _ e. e ≡ Memory };

    fn from(_error: AllocError) -> SelFault {
        SelFault::Memory
    }
}

impl<T: Drop> From<AllocFailed<T>> for SelFault {
    ghost use Rattle.std.specs.Prelude.{◌≡◌};
    ghost use Rattle.sel_text.specs.declared.faults.SelFault.TheVariants.{Memory};

    ghost from_gives = { λ _ e. e ≡ Memory };

    fn from(_error: AllocFailed<T>) -> SelFault {
        SelFault::Memory
    }
}
