//! Why a sheet is not read.
use thiserror::Error;
use tp_base::{MOST_ATOMS, OutOfMemory};

/// The most selectors that a sheet may have.
pub const MOST_SELECTORS: usize = 20_000;

/// Why a sheet is not read. Each number is a byte offset in the file, where a byte order mark counts as three bytes.
#[derive(Clone, Copy, Debug, PartialEq, Eq, Error)]
pub enum SheetFault {
    /// The offset up to which the file is UTF-8.
    #[error("not utf-8")]
    NotUtf8(usize),
    /// The first byte of the first selector above the limit.
    #[error("more than {MOST_SELECTORS} selectors")]
    TooManySelectors(usize),
    /// The first byte of the first selector with a name for which the table has no room.
    #[error("more than {MOST_ATOMS} different names")]
    TooManyAtoms(usize),
    #[error("no memory")]
    Memory,
}

impl<E: OutOfMemory> From<E> for SheetFault {
    ghost use Rattle.std.specs.Prelude.{◌≡◌};
    ghost use Rattle.css_read.specs.declared.faults.SheetFault.TheVariants.{Memory};

    ghost from_gives = { λ _ e. e ≡ Memory };

    fn from(_error: E) -> SheetFault {
        SheetFault::Memory
    }
}
