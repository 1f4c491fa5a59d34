//! What the judged selectors of a sheet ask for, and what names in scripts stand for.
#![tactic(auto)]

mod asked;
mod attributes;
mod known;
mod name_set;
mod properties;
mod putting;

pub use asked::Asked;
pub use known::{KNOWN_CALLS, KnownCalls};
pub use name_set::NameSet;
pub use properties::{attribute_of, brings_code, is_switch};
