//! Marks, by their spelling.
ghost use Rattle.std.specs.Prelude.{◌≡◌, ◌≤◌, ◌+◌, ◌∷◌, length, IfSome, IsTrue};
ghost use Rattle.code_scan.specs.Fronts as spec;

use crate::token::{Front, Piece, TokenKind};
use js_scan::mark_len;

// The length of a mark that the subset hasn't.
#[tactic(auto, unfolding(crate::specs::Fronts::further_len))]
fn further_len(text: &[u8]) -> Option<usize>
    ensures gives { spec.further_len text.now ≡ result }
    ensures within { IfSome result (λ len. (1 ≤ len) × (len ≤ length text.now)) }
{
    match text {
        [b'|', b'|', b'=', ..] => Some(3),
        [b'&', b'&', b'=', ..] => Some(3),
        [b'?', b'?', b'=', ..] => Some(3),
        [b'.', b'.', b'.', ..] => Some(3),
        [b'?', b'?', ..] => Some(2),
        [b'*', b'*', ..] => Some(2),
        _ => None,
    }
}

fn begins_digit(text: &[u8]) -> bool
    ensures { spec.begins_digit text.now ≡ result }
{
    match text.split_first() {
        None => false,
        Some((first, _)) => first.is_ascii_digit(),
    }
}

#[tactic(auto, unfolding(crate::specs::Fronts::begins_optional))]
fn begins_optional(text: &[u8]) -> bool
    ensures gives { spec.begins_optional text.now ≡ result }
    ensures long { IsTrue result → 2 ≤ length text.now }
{
    text.starts_with(b"?.") && !begins_digit(text.split_at(2).1)
}

#[tactic(auto, unfolding(crate::specs::Fronts::wide_mark_len))]
fn wide_mark_len(text: &[u8]) -> Option<usize>
    ensures gives { spec.wide_mark_len text.now ≡ result }
    ensures within { IfSome result (λ len. (1 ≤ len) × (len ≤ length text.now)) }
{
    if begins_optional(text) {
        return Some(2);
    }
    match further_len(text) {
        Some(len) => Some(len),
        None => mark_len(text),
    }
}

/// The mark at the front. Constant.
#[tactic(auto, unfolding(crate::specs::Fronts::mark_front))]
pub(crate) fn mark_front(first: u8, text: &[u8]) -> Front
    requires { 1 ≤ length text.now }
    ensures gives { spec.mark_front first text.now ≡ result }
    ensures within { (1 ≤ result.len) × (result.len ≤ length text.now) }
{
    match wide_mark_len(text) {
        Some(len) => Front {
            piece: Piece::One(TokenKind::Mark),
            len,
            sure: true,
        },
        None => Front {
            piece: Piece::One(TokenKind::Mark),
            len: 1,
            sure: first != b'\\',
        },
    }
}
