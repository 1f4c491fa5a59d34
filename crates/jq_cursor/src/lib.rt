//! A position among a script's words, and how arguments are read there.
#![tactic(auto)]

mod argument_lists;
mod cursors;
mod keywords;
mod last_places;
mod lists;
mod open_lists;
mod readers;
mod selections;
mod text_arguments;

pub use argument_lists::Arguments;
pub use cursors::{Cursor, Enclosed, counts};
pub use keywords::{JQUERY, PAGES, begins_jquery, is_jquery_call, spelled};
pub use last_places::LastPlaces;
pub use lists::Lists;
pub use readers::Reader;
pub use selections::{add_attribute, class_set, compounds, is_attribute, selectors};
pub use text_arguments::{some_argument, text_argument};
