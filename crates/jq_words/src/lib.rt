//! A script as words: brackets, joined strings, expressions of no effect, and the table of jQuery's calls.
#![tactic(auto)]

mod brackets;
mod calls;
mod faults;
mod free_lists;
mod functions;
mod texts;
mod words;

pub use brackets::{Bracket, OpenBrackets, argument_len, closed_by, opened_by};
pub use calls::{Form, Row, row_of};
pub use faults::{MOST_CALLS, MOST_FOREST_NODES, MOST_OPEN, MOST_STATEMENTS, ScriptFault};
pub use free_lists::{Rules, free};
pub use functions::declared_in;
pub use texts::{closed_texts, holds_texts_behind, is_markup, joined_texts};
pub use words::{
    Word, Words, begins, begins_any_name, begins_name, begins_name_among, end, end_fits, is_one_of,
    letters, only, place, want, want_name, want_open,
};
