//! The scanner of scripts: tokens, comments, strings and their escapes.
#![tactic(auto)]

mod bytes;
mod comments;
mod escapes;
mod marks;
mod scanner;
mod texts;
mod token;

pub use bytes::{begins_name, hex_value, is_quote, number_len, plain_len};
pub use comments::behind_close;
pub use escapes::{Meaning, escape};
pub use marks::mark_len;
pub use scanner::scan;
pub use token::{Letters, ScanFault, Token, TokenKind};
