//! Words that tokens say.
ghost use Rattle.std.specs.Prelude.{◌≡◌, map};
ghost use Rattle.text_bytes.specs.Attributes.{is_among as stands_among};
ghost use Rattle.code_gifts.specs.Words as spec;

use code_scan::{Token, TokenKind, words_of};
use code_tokens::Code;

/// Whether a name is one of these. Linear in it, for each of them.
pub(crate) fn is_among(names: &[&[u8]], name: &[u8]) -> bool
    ensures { result ≡ stands_among (map (λ n. n.now) names.now) name.now }
{
    let mut left = names;
    'names: while let [first, others @ ..] = left {
        if *first == name {
            return true;
        }
        left = others;
    }
    false
}

/// The tokens of a number on. Constant.
pub(crate) fn tokens_at(code: &Code, at: usize) -> &[Token]
    ensures { result.now ≡ spec.tokens_at code.now at }
{
    match code.tokens.items().split_at_checked(at) {
        Some((_, behind)) => behind,
        None => &[],
    }
}

/// What the first token says. Constant.
#[tactic(auto, unfolding(crate::specs::Words::first_words))]
pub(crate) fn first_words<'t>(text: &'t [u8], tokens: &'t [Token]) -> &'t [u8]
    ensures { spec.first_words text.now tokens.now ≡ result.now }
{
    match tokens.split_first() {
        None => &[],
        Some((first, _)) => words_of(text, first),
    }
}

/// Where the first token stands. Constant.
#[tactic(auto, unfolding(crate::specs::Words::first_place))]
pub(crate) fn first_place(tokens: &[Token]) -> usize
    ensures { spec.first_place tokens.now ≡ result }
{
    match tokens.split_first() {
        None => 0,
        Some((first, _)) => first.from,
    }
}

fn is_name(kind: &TokenKind) -> bool
    ensures { result ≡ spec.is_name kind.now }
{
    matches!(kind, TokenKind::Name)
}

/// Whether the first token is one of these names. Constant, for each of them.
#[tactic(auto, unfolding(crate::specs::Words::begins_name))]
pub(crate) fn begins_name(text: &[u8], names: &[&[u8]], tokens: &[Token]) -> bool
    ensures { spec.begins_name text.now (map (λ n. n.now) names.now) tokens.now ≡ result }
{
    match tokens.split_first() {
        None => false,
        Some((first, _)) => is_name(&first.kind) && is_among(names, words_of(text, first)),
    }
}
