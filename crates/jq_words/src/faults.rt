//! Why a script is not read.
use js_scan::{Letters, ScanFault};
use thiserror::Error;
use tp_base::{MOST_ATOMS, OutOfMemory};

/// How many brackets of a script may be open.
pub const MOST_OPEN: usize = 512;

/// How many statements a script may have.
pub const MOST_STATEMENTS: usize = 10_000;

/// How many nodes the markup of a script may have, all statements together.
pub const MOST_FOREST_NODES: usize = 4_096;

/// How many calls the handlers and the chain of a statement may have together.
pub const MOST_CALLS: usize = 512;

/// Why a script is not read. Each number is an offset in bytes.
#[derive(Debug, Drop, Error)]
pub enum ScriptFault {
    #[error("{0}")]
    Scan(ScanFault),
    #[error("a call that is not read, at {1}")]
    UnknownCall(Letters, usize),
    #[error("a form that is not read, at {0}")]
    UnknownForm(usize),
    #[error("an argument that is not read, at {0}")]
    ComplexArgument(usize),
    #[error("markup that is made at run time, at {0}")]
    DynamicMarkup(usize),
    #[error("this outside a handler, at {0}")]
    ThisOutside(usize),
    #[error("a name that is bound to no chain, at {1}")]
    UnboundName(Letters, usize),
    #[error("more than {MOST_CALLS} calls, at {0}")]
    TooLong(usize),
    #[error("more than {MOST_OPEN} open brackets, at {0}")]
    TooDeep(usize),
    #[error("more than {MOST_STATEMENTS} statements, at {0}")]
    TooManyStatements(usize),
    #[error("more than {MOST_FOREST_NODES} nodes of markup, at {0}")]
    TooManyForestNodes(usize),
    #[error("more than {MOST_ATOMS} different names, at {0}")]
    TooManyAtoms(usize),
    #[error("no memory")]
    Memory,
}

impl<E: OutOfMemory> From<E> for ScriptFault {
    ghost use Rattle.std.specs.Prelude.{◌≡◌};
    ghost use Rattle.jq_words.specs.declared.faults.ScriptFault.TheVariants.{Memory};

    ghost from_gives = { λ _ e. e ≡ Memory };

    fn from(_error: E) -> ScriptFault {
        ScriptFault::Memory
    }
}
