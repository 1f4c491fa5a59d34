//! The scanner of real JavaScript: tokens, and the places where it can't be sure.
#![tactic(auto)]

mod blanks;
mod brackets;
mod comments;
mod escapes;
mod fronts;
mod laws;
mod lines;
mod marks;
mod names;
mod regexes;
mod scanner;
mod spellings;
mod state;
mod texts;
mod token;

pub use laws::read_the_same;
pub use names::{behind_name, goes_on};
pub use scanner::{Scanned, scan};
pub use spellings::{is_mark, is_written, spelling, words_of};
pub use state::{Before, behind_word, is_dot};
pub use token::{Token, TokenKind};
