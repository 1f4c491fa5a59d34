//! Where a byte stands in a text, as a person counts.
ghost use Rattle.std.specs.Prelude.{◌≡◌, ◌≤◌, length};
ghost use Rattle.tp_base.specs.Places.{line_of, column_of};

use crate::cursor::Cursor;

/// How many bytes a file or a text has at most, so that its lines and columns can be counted.
pub const MOST_BYTES: u32 = 16_777_216;

/// A line and a column of a text, each counted from 1. Lines end with LF, and columns are counted in bytes.
#[derive(Clone, Copy, Debug, PartialEq, Eq)]
pub struct Place {
    pub line: u32,
    pub column: u32,
}

/// The place of the byte at the offset `at`, or of the text's end. Linear in `at`.
pub fn place_of(text: &[u8], at: usize) -> Place
    requires in_text { at ≤ length text.now }
    requires in_limit { length text.now ≤ MOST_BYTES }
    ensures line { result.line ≡ line_of text.now at }
    ensures column { result.column ≡ column_of text.now at }
{
    Cursor::new().place_at(text, at)
}
