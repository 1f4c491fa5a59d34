//! Words and marks, and whether tokens begin with them.
ghost use Rattle.std.specs.Prelude.{◌≡◌, ◌+◌, map};
ghost use Rattle.text_bytes.specs.Attributes.{is_among as stands_among};
ghost use Rattle.code_places.specs.Words as spec;

use code_scan::{Token, TokenKind, is_mark, is_written, spelling};
use code_tokens::Code;

/// Whether a name is one of these. Linear in it, for each of them.
pub(crate) fn is_among(names: &[&[u8]], name: &[u8]) -> bool
    ensures { result ≡ stands_among (map (λ n. n.now) names.now) name.now }
{
    let mut left = names;
    'names: while let [first, others @ ..] = left {
        if *first == name {
            return true;
        }
        left = others;
    }
    false
}

/// The tokens of a number on. Constant.
pub(crate) fn tokens_at(code: &Code, at: usize) -> &[Token]
    ensures { result.now ≡ spec.tokens_at code.now at }
{
    match code.tokens.items().split_at_checked(at) {
        Some((_, behind)) => behind,
        None => &[],
    }
}

/// The tokens behind that of a number. Constant.
#[tactic(auto, using(crate::proofs::Lists::one_further, crate::proofs::Lists::none_further))]
pub(crate) fn tokens_behind(code: &Code, at: usize) -> &[Token]
    ensures { result.now ≡ spec.tokens_at code.now (at + 1) }
{
    match tokens_at(code, at).split_first() {
        Some((_, behind)) => behind,
        None => &[],
    }
}

fn is_name(kind: &TokenKind) -> bool
    ensures { result ≡ spec.is_name kind.now }
{
    matches!(kind, TokenKind::Name)
}

pub(crate) fn is_number(kind: &TokenKind) -> bool
    ensures { result ≡ spec.is_number kind.now }
{
    matches!(kind, TokenKind::Number)
}

fn is_asking(kind: &TokenKind) -> bool
    ensures { result ≡ spec.is_asking kind.now }
{
    matches!(kind, TokenKind::Dot)
}

/// Whether tokens begin with a mark. Constant.
#[tactic(auto, unfolding(crate::specs::Words::begins))]
pub(crate) fn begins(text: &[u8], mark: &[u8], tokens: &[Token]) -> bool
    ensures { spec.begins text.now mark.now tokens.now ≡ result }
{
    match tokens.split_first() {
        None => false,
        Some((first, _)) => is_written(text, mark, first),
    }
}

/// Whether tokens begin with one of these marks. Constant, for each of them.
#[tactic(auto, unfolding(crate::specs::Words::begins_mark))]
pub(crate) fn begins_mark(text: &[u8], marks: &[&[u8]], tokens: &[Token]) -> bool
    ensures { spec.begins_mark text.now (map (λ n. n.now) marks.now) tokens.now ≡ result }
{
    match tokens.split_first() {
        None => false,
        Some((first, _)) => is_mark(&first.kind) && is_among(marks, spelling(text, first)),
    }
}

/// Whether tokens begin with one of these names. Constant, for each of them.
#[tactic(auto, unfolding(crate::specs::Words::begins_name))]
pub(crate) fn begins_name(text: &[u8], names: &[&[u8]], tokens: &[Token]) -> bool
    ensures { spec.begins_name text.now (map (λ n. n.now) names.now) tokens.now ≡ result }
{
    match tokens.split_first() {
        None => false,
        Some((first, _)) => is_name(&first.kind) && is_among(names, spelling(text, first)),
    }
}

/// Whether tokens begin with a dot. Constant.
#[tactic(auto, unfolding(crate::specs::Words::begins_dot))]
pub(crate) fn begins_dot(text: &[u8], tokens: &[Token]) -> bool
    ensures { spec.begins_dot text.now tokens.now ≡ result }
{
    match tokens.split_first() {
        None => false,
        Some((first, _)) => {
            is_asking(&first.kind)
                || is_written(text, b".", first)
                || is_written(text, b"?.", first)
        }
    }
}
