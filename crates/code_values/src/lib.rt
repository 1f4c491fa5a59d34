//! Values of real JavaScript: arguments, what stands behind `=`, objects, joined texts, and chains of calls.
#![tactic(auto)]

mod calls;
mod chains;
mod names;
mod objects;
mod outside;
mod runs;
mod script;
mod spans;
mod texts;
mod values;

pub use calls::{arguments, inside, is_spread};
pub use chains::{Chain, Origin, chains_of, is_new, origin_before, origin_of};
pub use objects::{Part, is_object, object_parts};
pub use runs::{Run, runs_of};
pub use script::Script;
pub use spans::Span;
pub use text_pieces::{Piece, pieces_of};
pub use texts::{is_texts, joined_texts};
pub use values::{is_chosen, is_sum, value_from};
