//! Why a page or markup is not read.
use thiserror::Error;
use tp_base::{MOST_ATOMS, OutOfMemory};

/// How long the path of a node may be. A page's `html` has the length 0, and a top node of markup 1.
pub const MOST_DEPTH: usize = 512;

/// How many nodes a page may have, and how many the trees of one markup.
pub const MOST_PAGE_NODES: u32 = 100_000;

/// Why a page or markup is not read. The number is an offset in bytes: of the first byte that is no UTF-8, or of the
/// `<` of the tag that asks for too much, where 0 stands for a page's first three nodes too.
#[derive(Clone, Copy, Debug, PartialEq, Eq, Error)]
pub enum PageFault {
    #[error("not UTF-8 at {0}")]
    NotUtf8(usize),
    #[error("a path longer than {MOST_DEPTH} at {0}")]
    TooDeep(usize),
    #[error("more than {MOST_PAGE_NODES} nodes at {0}")]
    TooManyNodes(usize),
    #[error("more than {MOST_ATOMS} different names at {0}")]
    TooManyAtoms(usize),
    #[error("no memory")]
    Memory,
}

impl<E: OutOfMemory> From<E> for PageFault {
    ghost use Rattle.std.specs.Prelude.{◌≡◌};
    ghost use Rattle.html_subset.specs.declared.faults.PageFault.TheVariants.{Memory};

    ghost from_gives = { λ _ e. e ≡ Memory };

    fn from(_error: E) -> PageFault {
        PageFault::Memory
    }
}
