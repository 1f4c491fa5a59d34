//! Why a sheet isn't widened or put back.
use css_read::SheetFault;
use thiserror::Error;
use tp_base::OutOfMemory;

/// Why a sheet isn't widened. Each number is the index of a byte of the file.
#[derive(Clone, Copy, Debug, PartialEq, Eq, Error)]
pub enum WidenFault {
    /// It isn't read.
    #[error("{0}")]
    OfSheet(SheetFault),
    /// The place of the first `/*~`.
    #[error("mark")]
    HasMark(usize),
    /// With its marks it has more bytes than a file may have.
    #[error("too large")]
    TooLarge,
    #[error("no memory")]
    Memory,
}

impl<E: OutOfMemory> From<E> for WidenFault {
    ghost use Rattle.std.specs.Prelude.{◌≡◌};
    ghost use Rattle.widen_sheet.specs.declared.faults.WidenFault.TheVariants.{Memory};

    ghost from_gives = { λ _ e. e ≡ Memory };

    fn from(_error: E) -> WidenFault {
        WidenFault::Memory
    }
}

/// Why a text isn't put back.
#[derive(Clone, Copy, Debug, PartialEq, Eq, Error)]
pub enum BackFault {
    /// The index of the byte at which the first `/*~` begins that is in no mark and has no `*` before it.
    #[error("mark")]
    NoMark(usize),
    #[error("no memory")]
    Memory,
}

impl<E: OutOfMemory> From<E> for BackFault {
    ghost use Rattle.std.specs.Prelude.{◌≡◌};
    ghost use Rattle.widen_sheet.specs.declared.faults.BackFault.TheVariants.{Memory};

    ghost from_gives = { λ _ e. e ≡ Memory };

    fn from(_error: E) -> BackFault {
        BackFault::Memory
    }
}
