//! Places of a sheet at which a browser does more than the model.
#![tactic(auto)]

mod bytes;
mod details;
mod findings;
mod names;
mod orders;
mod selectors;
mod sheet_names;
mod sheets;

pub use bytes::{
    begins_word, behind_byte, has_somewhere, has_word, is_among, is_seen, past_blanks,
};
pub use details::{MOST_SHOWN, shown_of};
pub use findings::{Finding, Findings, add_when};
pub use names::Name;
pub use orders::sort_findings;
pub use sheets::findings_in_sheet;
