//! Ranges of tokens.

/// The tokens from one number up to another, without that.
#[derive(Clone, Copy, Debug, PartialEq, Eq)]
pub struct Span {
    pub from: usize,
    pub to: usize,
}
