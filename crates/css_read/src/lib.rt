//! The parser of sheets: rules, at-rules and the place of each selector.
#![tactic(auto)]

mod brackets;
mod faults;
mod finding;
mod fronts;
mod holders;
mod laws;
mod pieces;
mod reading;
mod sheets;
mod units;

pub use faults::{MOST_SELECTORS, SheetFault};
pub use finding::read_holders;
pub use fronts::{Front, depth_after, next_front};
pub use holders::{Holder, HolderList, Holders, Owners};
pub use laws::{one_text_one_shape, pruning_keeps_the_sheet};
pub use pieces::first_piece;
pub use reading::read_sheet;
pub use sheets::{Outcome, Range, Ranges, Sheet, SheetItem, SheetItems};
pub use units::behind_unit;
