//! How tokens are spelled.
ghost use Rattle.std.specs.Prelude.{◌≡◌};
ghost use Rattle.code_scan.specs.Spellings as spec;
ghost use Rattle.code_scan.specs.States.{is_mark as marks};

use crate::token::{Token, TokenKind};

/// The bytes of the text that a token is read of. Constant.
#[tactic(auto, using(crate::proofs::SpellingLemmas::span))]
pub fn spelling<'t>(text: &'t [u8], token: &Token) -> &'t [u8]
    ensures { result.now ≡ spec.spelling text.now token.now }
{
    let front = text.split_at(token.to.min(text.len())).0;
    front.split_at(token.from.min(front.len())).1
}

/// Whether it is the kind of a mark that is written as it is meant. Constant.
pub fn is_mark(kind: &TokenKind) -> bool
    ensures { result ≡ marks kind.now }
{
    matches!(kind, TokenKind::Mark)
}

/// Whether a token is this mark as it is written. Constant.
#[tactic(auto, unfolding(crate::specs::Spellings::is_written))]
pub fn is_written(text: &[u8], mark: &[u8], token: &Token) -> bool
    ensures { spec.is_written text.now mark.now token.now ≡ result }
{
    is_mark(&token.kind) && spelling(text, token) == mark
}

fn meant_mark(mark: &[u8]) -> &[u8]
    ensures { result.now ≡ spec.meant_mark mark.now }
{
    if mark == b"?.".as_slice() { b"." } else { mark }
}

/// What a token of a text says: the letters of a string, the name of a member, else what is written. Constant.
#[tactic(auto, unfolding(crate::specs::Spellings::words_of))]
pub fn words_of<'t>(text: &'t [u8], token: &'t Token) -> &'t [u8]
    ensures { spec.words_of text.now token.now ≡ result.now }
{
    match &token.kind {
        TokenKind::Text(letters) => letters.items(),
        TokenKind::Member(name) => name.items(),
        TokenKind::Mark => meant_mark(spelling(text, token)),
        TokenKind::Plus => b"+",
        TokenKind::Open => b"(",
        TokenKind::Close => b")",
        TokenKind::Dot => b".",
        TokenKind::Name | TokenKind::Number | TokenKind::Regex => spelling(text, token),
    }
}
