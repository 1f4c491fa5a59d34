//! Tokens, and the faults of the scanner.
ghost use Rattle.std.specs.Prelude.{◌≡◌, string_bytes, IsUtf8};

use std::alloc::{AllocError, AllocFailed};
use std::marker::Model;
use thiserror::Error;

/// The decoded text of a string. A contract sees its bytes.
#[derive(Debug, Drop)]
pub struct Letters {
    text: String,
}

impl Model for Letters {
    ghost use Rattle.std.specs.Prelude.{List, ℕ, string_bytes};

    ghost Value = { List ℕ };

    ghost view = { λ l. string_bytes l.text };
}

impl Letters {
    /// The letters of a text. Constant.
    pub fn new(text: String) -> Self
        ensures { result ≡ string_bytes text }
    {
        Letters { text }
    }

    /// The bytes, which are UTF-8. Constant.
    pub fn items(&self) -> &[u8]
        ensures bytes { result.now ≡ self.now }
        ensures utf8 { IsUtf8 self.now }
    {
        self.text.as_bytes()
    }
}

/// What a token is. The spelling of all but a string's letters is in the file, at the token's span.
#[derive(Debug, Drop)]
pub enum TokenKind {
    Name,
    Number,
    Text(Letters),
    Mark,
}

/// A token, and the bytes of the file that it takes: those from `from` up to and without `to`.
#[derive(Debug, Drop)]
pub struct Token {
    pub kind: TokenKind,
    pub from: usize,
    pub to: usize,
}

/// Why bytes are no tokens. Each number is a byte's index in the file, with a byte order mark counted: for a string
/// that of its quote, for a comment that isn't closed that of its slash.
#[derive(Clone, Copy, Debug, PartialEq, Eq, Error)]
pub enum ScanFault {
    #[error("not utf-8")]
    NotUtf8(usize),
    #[error("bad string")]
    BadString(usize),
    #[error("regular expression")]
    Regexp(usize),
    #[error("template")]
    Template(usize),
    #[error("bad byte")]
    BadByte(usize),
    #[error("no memory")]
    Memory,
}

impl From<AllocError> for ScanFault {
    ghost use Rattle.js_scan.specs.declared.token.ScanFault.TheVariants.{Memory};

    ghost from_gives = { λ _ e. e ≡ Memory };

    fn from(_error: AllocError) -> ScanFault {
        ScanFault::Memory
    }
}

impl<T: Drop> From<AllocFailed<T>> for ScanFault {
    ghost use Rattle.js_scan.specs.declared.token.ScanFault.TheVariants.{Memory};

    ghost from_gives = { λ _ e. e ≡ Memory };

    fn from(_error: AllocFailed<T>) -> ScanFault {
        ScanFault::Memory
    }
}
