//! The grammar of selectors: how they are read and written, and why one isn't judged.
#![tactic(auto)]

mod bytes;
mod faults;
mod grammar;
mod lists;
mod reading;
mod selectors;
mod writing;

pub use bytes::{behind_close, behind_gap, name_len};
pub use faults::{MOST_PARTS, SelFault, Skip};
pub use grammar::is_word;
pub use lists::read_strict_list;
pub use reading::read_selector;
pub use selectors::{Atoms, Compound, Compounds, Join, Joins, Selector};
pub use writing::{put_selector, write_selector};
