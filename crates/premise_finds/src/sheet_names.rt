//! What is found at a place of a sheet.
ghost use Rattle.std.specs.Prelude.{◌≡◌, map};
ghost use Rattle.std.specs.Char.{to_ascii_lowercase};
ghost use Rattle.css_read.specs.Units as units;
ghost use Rattle.premise_finds.specs.SheetNames as spec;

use crate::bytes::is_among;
use crate::names::Name;
use crate::sheets::Region;
use sel_text::{behind_gap, is_word, name_len};
use text_bytes::blank_len;

// The attributes that a call sets which is no statement, or a user.
const SET_NAMES: [&[u8]; 26] = [
    b"value",
    b"checked",
    b"selected",
    b"disabled",
    b"hidden",
    b"multiple",
    b"readonly",
    b"required",
    b"inert",
    b"min",
    b"max",
    b"low",
    b"high",
    b"optimum",
    b"rows",
    b"cols",
    b"size",
    b"span",
    b"colspan",
    b"rowspan",
    b"tabindex",
    b"maxlength",
    b"minlength",
    b"start",
    b"width",
    b"height",
];

#[tactic(auto, unfolding(crate::specs::SheetNames::is_comment_mark))]
fn is_comment_mark(text: &[u8]) -> bool
    ensures { result ≡ spec.is_comment_mark text.now }
{
    text.starts_with(b"<!--") || text.starts_with(b"-->")
}

#[tactic(auto, unfolding(crate::specs::SheetNames::is_escape))]
fn is_escape(text: &[u8]) -> bool
    ensures { result ≡ spec.is_escape text.now }
{
    text.starts_with(b"\\")
}

fn misleads(text: &[u8]) -> bool
    ensures { result ≡ spec.misleads text.now }
{
    match text {
        [] => false,
        [b'"' | b'\'' | b'(' | b'[' | b';' | b'{' | b'}', ..] => true,
        _ => text.starts_with(b"/*"),
    }
}

// Whether such a byte stands before the first `)`. Linear in what stands before either.
#[tactic(auto, unfolding(crate::specs::SheetNames::is_misread))]
fn is_misread(text: &[u8]) -> bool
    ensures { result ≡ spec.is_misread text.now }
{
    let mut rest = text;
    'bytes: while let Some((first, behind)) = rest.split_first() {
        if *first == b')' {
            return false;
        }
        if misleads(rest) {
            return true;
        }
        rest = behind;
    }
    false
}

fn is_quoted(text: &[u8]) -> bool
    ensures { result ≡ spec.is_quoted text.now }
{
    matches!(text, [b'"' | b'\'', ..])
}

#[tactic(auto, unfolding(crate::specs::SheetNames::is_address))]
fn is_address(text: &[u8]) -> bool
    ensures { result ≡ spec.is_address text.now }
{
    if text.len() < 4 {
        return false;
    }
    let (front, inside) = text.split_at(4);
    if !is_word(front, b"url(") {
        return false;
    }
    let behind = inside.split_at(blank_len(inside)).1;
    !is_quoted(behind) && is_misread(behind)
}

#[tactic(auto, unfolding(crate::specs::SheetNames::is_nested_rule))]
fn is_nested_rule(region: Region, text: &[u8]) -> bool
    ensures { result ≡ spec.is_nested_rule region text.now }
{
    match region {
        Region::Block => text.starts_with(b"{"),
        _ => false,
    }
}

/// An at-rule of this name begins here. The name is in lower case. Linear in the shorter name.
#[tactic(auto, unfolding(crate::specs::SheetNames::is_at_rule))]
pub(crate) fn is_at_rule(word: &[u8], text: &[u8]) -> bool
    ensures { result ≡ spec.is_at_rule (map to_ascii_lowercase word.now) text.now }
{
    match text.split_first() {
        Some((b'@', behind)) => is_word(behind.split_at(name_len(behind)).0, word),
        _ => false,
    }
}

#[tactic(auto, unfolding(crate::specs::SheetNames::is_import))]
fn is_import(text: &[u8]) -> bool
    ensures { result ≡ spec.is_import text.now }
{
    is_at_rule(b"import", text)
}

#[tactic(auto, unfolding(crate::specs::SheetNames::is_layer))]
fn is_layer(region: Region, several: bool, text: &[u8]) -> bool
    ensures { result ≡ spec.is_layer region several text.now }
{
    match region {
        Region::Block => is_at_rule(b"layer", text),
        _ => several && is_at_rule(b"layer", text),
    }
}

// Whether an attribute is one that changes otherwise. Linear in the name.
#[tactic(auto, unfolding(crate::specs::SheetNames::is_set_name), using(crate::proofs::SetNames::same_names))]
fn is_set(name: &[u8]) -> bool
    ensures { result ≡ spec.is_set_name name.now }
{
    is_among(&SET_NAMES, name)
}

#[tactic(auto, unfolding(crate::specs::SheetNames::is_value_asked))]
fn is_value_asked(region: Region, text: &[u8]) -> bool
    ensures { result ≡ spec.is_value_asked region text.now }
{
    match (region, text.split_first()) {
        (Region::List, Some((b'[', behind))) => {
            let name = behind_gap(true, behind);
            is_set(name.split_at(name_len(name)).0)
        }
        _ => false,
    }
}

/// What is found at a place. Linear in what it looks at: the bytes up to a `)`, a quote or another byte of some few
/// where an address begins, else a word.
#[tactic(auto, unfolding(crate::specs::SheetNames::name_at))]
pub(crate) fn name_at(region: Region, several: bool, text: &[u8]) -> Option<Name>
    ensures { result ≡ spec.name_at region several text.now }
{
    if is_comment_mark(text) {
        Some(Name::CommentMark)
    } else if is_escape(text) {
        Some(Name::Escape)
    } else if is_address(text) {
        Some(Name::Address)
    } else if is_nested_rule(region, text) {
        Some(Name::NestedRule)
    } else if is_import(text) {
        Some(Name::Import)
    } else if is_layer(region, several, text) {
        Some(Name::Layer)
    } else if is_value_asked(region, text) {
        Some(Name::ValueAsked)
    } else {
        None
    }
}
