//! Why an operation on diagrams gives no diagram.
ghost use Rattle.std.specs.Prelude.{◌≡◌};

use thiserror::Error;
use tp_base::OutOfMemory;

/// Why there is no diagram.
#[derive(Clone, Copy, Debug, PartialEq, Eq, Error)]
pub enum DiagramFault {
    #[error("the arena is full")]
    Full,
    #[error("no memory")]
    Memory,
}

impl<E: OutOfMemory> From<E> for DiagramFault {
    ghost use Rattle.class_diagrams.specs.declared.faults.DiagramFault.TheVariants.{Memory};

    ghost from_gives = { λ _ e. e ≡ Memory };

    fn from(_error: E) -> DiagramFault {
        DiagramFault::Memory
    }
}
