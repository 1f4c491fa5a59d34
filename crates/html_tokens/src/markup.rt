//! Where markup begins, and where comments, declarations and the like end.
ghost use Rattle.std.specs.Prelude.{◌≡◌};
ghost use Rattle.text_bytes.specs.Rests.{IsRest};
ghost use Rattle.html_tokens.specs.Markup as spec;

use text_bytes::behind_mark;

/// Behind the first `>`, or the end.
pub(crate) fn behind_angle(text: &[u8]) -> &[u8]
    ensures gives { result.now ≡ spec.behind_angle text.now }
    ensures rest { IsRest text.now result.now }
{
    behind_mark(b">", text)
}

/// Behind the first `-->`, or the end.
pub(crate) fn behind_arrow(text: &[u8]) -> &[u8]
    ensures gives { result.now ≡ spec.behind_arrow text.now }
    ensures rest { IsRest text.now result.now }
{
    behind_mark(b"-->", text)
}

/// Markup begins here.
#[tactic(auto, unfolding(crate::specs::Markup::begins_markup))]
pub(crate) fn begins_markup(text: &[u8]) -> bool
    ensures { result ≡ spec.begins_markup text.now }
{
    match text {
        [b'<', second, ..] => {
            second.is_ascii_alphabetic() || matches!(second, b'/' | b'!' | b'?')
        }
        _ => false,
    }
}

/// From the first markup on, or the end.
#[tactic(auto, unfolding(crate::specs::Markup::behind_text), using(text_bytes::proofs::Rests::of_rest, text_bytes::proofs::Rests::behind_first))]
pub(crate) fn behind_text(text: &[u8]) -> &[u8]
    ensures gives { result.now ≡ spec.behind_text text.now }
    ensures rest { IsRest text.now result.now }
{
    let mut rest = text;
    'turns: while let Some((_, behind)) = rest.split_first() {
        if begins_markup(rest) {
            return rest;
        }
        rest = behind;
    }
    rest
}
