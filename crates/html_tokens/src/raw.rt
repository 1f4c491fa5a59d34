//! Raw elements such as `script`, whose text is no markup.
ghost use Rattle.std.specs.Prelude.{◌≡◌, map};
ghost use Rattle.text_bytes.specs.Rests.{IsRest};
ghost use Rattle.html_tokens.specs.Markup as spec;
ghost use Rattle.html_tokens.specs.Names as elements;
ghost use Rattle.html_tokens.specs.Bytes.{lowered};

use crate::bytes::{ends_tag_name, is_same_name};

// The elements whose content is text up to their end tag.
const RAW: [&[u8]; 9] = [
    b"script",
    b"style",
    b"title",
    b"textarea",
    b"noscript",
    b"iframe",
    b"xmp",
    b"noembed",
    b"noframes",
];

fn is_among(names: &[&[u8]], name: &[u8]) -> bool
    ensures { result ≡ elements.is_among (map (λ n. lowered n.now) names.now) (lowered name.now) }
{
    let mut left = names;
    'names: while let [first, others @ ..] = left {
        if is_same_name(first, name) {
            return true;
        }
        left = others;
    }
    false
}

/// Whether an element of this name is raw, without regard to ASCII case. Linear in the name.
#[tactic(auto, unfolding(crate::specs::Names::is_raw), using(crate::proofs::RawNames::same_names))]
pub fn is_raw(name: &[u8]) -> bool
    ensures { result ≡ elements.is_raw (lowered name.now) }
{
    is_among(&RAW, name)
}

fn is_ended(text: &[u8]) -> bool
    ensures { result ≡ spec.is_ended text.now }
{
    match text {
        [] => false,
        [first, ..] => ends_tag_name(*first),
    }
}

// An end tag of this name begins here, without regard to ASCII case.
#[tactic(auto, unfolding(crate::specs::Markup::begins_end_of))]
fn begins_end_of(name: &[u8], text: &[u8]) -> bool
    ensures { result ≡ spec.begins_end_of name.now text.now }
{
    if !text.starts_with(b"</") {
        return false;
    }
    let behind = text.split_at(2).1;
    if behind.len() < name.len() {
        return false;
    }
    let (front, rest) = behind.split_at(name.len());
    is_same_name(front, name) && is_ended(rest)
}

/// From the first end tag of this name on, or the end. Linear in the text, since a raw element's name is short.
#[tactic(auto, unfolding(crate::specs::Markup::behind_raw), using(text_bytes::proofs::Rests::of_rest, text_bytes::proofs::Rests::behind_first))]
pub(crate) fn behind_raw<'a>(name: &[u8], text: &'a [u8]) -> &'a [u8]
    ensures gives { result.now ≡ spec.behind_raw name.now text.now }
    ensures rest { IsRest text.now result.now }
{
    let mut rest = text;
    'turns: while let Some((_, behind)) = rest.split_first() {
        if begins_end_of(name, rest) {
            return rest;
        }
        rest = behind;
    }
    rest
}
