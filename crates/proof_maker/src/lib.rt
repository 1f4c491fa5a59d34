//! The canonical proof of an atom.
#![tactic(auto)]

mod arrivals;
mod choices;
mod entries;
mod glances;
mod laws;
mod looking;
mod making;
mod place_memo;
mod told;
mod worlds;

pub use laws::{canonical_is_one, canonical_is_valid, canonical_length};
pub use making::{ProofGround, ProveFault, prove, prove_next};
pub use place_memo::PlaceMemo;
