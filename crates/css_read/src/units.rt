//! Units of a text (strings, comments, single bytes), and the search outside strings, comments and brackets.
ghost use Rattle.std.specs.Prelude.{◌≡◌, ◌<◌, length, reverse, false, IfOk};
ghost use Rattle.std.specs.List.{list_any};
ghost use Rattle.text_bytes.specs.Rests.{IsRest};
ghost use Rattle.css_read.specs.Units as spec;

use crate::brackets::{Bracket, track};
use sel_text::behind_close;
use std::alloc::{AllocError, Global};
use text_bytes::is_blank;

// The text behind a string. The given text begins behind the opening quote.
#[tactic(auto, unfolding(crate::specs::Units::behind_string), using(text_bytes::proofs::Rests::of_rest, text_bytes::proofs::Rests::behind_first, text_bytes::proofs::Rests::itself))]
fn behind_string(quote: u8, text: &[u8]) -> &[u8]
    ensures gives { result.now ≡ spec.behind_string quote false text.now }
    ensures rest { IsRest text.now result.now }
{
    let mut escaped = false;
    let mut rest = text;
    'turns: while let Some((first, behind)) = rest.split_first() {
        if escaped {
            escaped = false;
        } else if *first == quote {
            return behind;
        } else if *first == b'\n' {
            return rest;
        } else {
            escaped = *first == b'\\';
        }
        rest = behind;
    }
    rest
}

fn is_quote(byte: u8) -> bool
    ensures { result ≡ spec.is_quote byte }
{
    byte == b'"' || byte == b'\''
}

fn begins_comment(text: &[u8]) -> bool
    ensures { result ≡ spec.begins_comment text.now }
{
    text.starts_with(b"/*")
}

/// Whether a byte is ordinary, as letters, digits, full stops and spaces are: no bracket, no quote and no end, and it begins no
/// comment.
pub(crate) fn is_plain(byte: u8) -> bool
    ensures { result ≡ spec.is_plain byte }
{
    (byte > b'/' && byte < b';')
        || (byte > b';' && byte < b'[')
        || (byte > b']' && byte < b'{')
        || byte == b'.'
        || byte == b' '
}

/// The text behind its first unit: a string, a comment or a byte. Linear in the unit.
#[tactic(auto, unfolding(crate::specs::Units::behind_unit), using(text_bytes::proofs::Rests::of_rest, text_bytes::proofs::Rests::behind_first, text_bytes::proofs::Rests::dropped))]
pub fn behind_unit(text: &[u8]) -> &[u8]
    ensures gives { result.now ≡ spec.behind_unit text.now }
    ensures rest { IsRest text.now result.now }
    ensures shorter { 0 < length text.now → length result.now < length text.now }
{
    let Some((first, behind)) = text.split_first() else {
        return text;
    };
    if is_quote(*first) {
        behind_string(*first, behind)
    } else if begins_comment(text) {
        behind_close(behind.split_at(1).1)
    } else {
        behind
    }
}

/// Whether the text begins with white space or a comment.
pub(crate) fn begins_gap(text: &[u8]) -> bool
    ensures { result ≡ spec.begins_gap text.now }
{
    match text {
        [] => false,
        [first, ..] => is_blank(*first) || begins_comment(text),
    }
}

// Whether a byte is one of a few.
fn is_one(bytes: &[u8], byte: u8) -> bool
    ensures { result ≡ spec.is_one bytes.now byte }
{
    match bytes {
        [only] => byte == *only,
        [one, other] => byte == *one || byte == *other,
        _ => bytes.contains(&byte),
    }
}

fn stops_at(bytes: &[u8], byte: u8, brackets: &[Bracket]) -> bool
    ensures { result ≡ spec.stops_at bytes.now byte (reverse brackets.now) }
{
    is_one(bytes, byte) && brackets.is_empty()
}

/// The text from the first of some bytes on that stands outside brackets, strings and comments. None of these bytes is
/// ordinary. Linear in the bytes before it.
#[tactic(auto, using(crate::proofs::Firsts::goes_on, crate::proofs::Firsts::found, crate::proofs::Firsts::ends, crate::proofs::Plains::passes, text_bytes::proofs::Rests::of_rest, text_bytes::proofs::Rests::behind_first))]
pub(crate) fn from_first<'a>(
    alloc: Global,
    bytes: &[u8],
    text: &'a [u8],
) -> Result<&'a [u8], AllocError>
    requires apart { list_any spec.is_plain bytes.now ≡ false }
    ensures gives { IfOk result (λ r. r.now ≡ spec.from_first bytes.now text.now) }
    ensures rest { IfOk result (λ r. IsRest text.now r.now) }
{
    let mut brackets = Vec::new(alloc);
    let mut rest = text;
    'units: while let Some((first, behind)) = rest.split_first() {
        if is_plain(*first) {
            rest = behind;
        } else if stops_at(bytes, *first, &brackets) {
            return Ok(rest);
        } else {
            track(&mut brackets, *first)?;
            rest = behind_unit(rest);
        }
    }
    Ok(rest)
}
