//! Tokens, and what stands at a place.
use tp_base::Items;

/// What a token is. The spelling of a name, a number, a mark and a regular expression is in the text, at the token's span.
#[derive(Debug, Drop)]
pub enum TokenKind {
    Name,
    Number,
    /// The decoded letters of a string, or of a part of a template.
    Text(Items<u8>),
    Mark,
    /// With its slashes, and the letters behind it.
    Regex,
    /// The `+` between the parts of a template.
    Plus,
    /// The `(` that a hole of a template begins with.
    Open,
    /// The `)` that a hole of a template ends with.
    Close,
    /// The dot before a member that a text asks for.
    Dot,
    /// The name of such a member.
    Member(Items<u8>),
}

/// A token, and the bytes of the text that it is read of: those from `from` up to and without `to`. What is read of a part of a template has the
/// span of that part.
#[derive(Debug, Drop)]
pub struct Token {
    pub kind: TokenKind,
    pub from: usize,
    pub to: usize,
    /// No token stands before it on its line.
    pub first_in_line: bool,
}

/// What stands at a place.
#[derive(Debug, Drop)]
pub(crate) enum Piece {
    /// White space or a comment, and whether a line ends in it.
    Passed(bool),
    /// A token.
    One(TokenKind),
    /// The part of a template before its first hole.
    Opened(Items<u8>),
    /// The part of a template behind its last hole, with what ends that.
    Shut(Items<u8>),
    /// The part of a template between two holes.
    Reopened(Items<u8>),
}

/// What stands at a place, how many bytes it has, and whether it is surely meant so.
#[derive(Debug, Drop)]
pub(crate) struct Front {
    pub piece: Piece,
    pub len: usize,
    pub sure: bool,
}
