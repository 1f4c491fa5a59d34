//! The start tags of a text, with their attributes and the places of the values.
ghost use Rattle.std.specs.Prelude.{◌≡◌, ◌≤◌, ◌++◌, length, map, IfOk, OnOk, IfSome};
ghost use Rattle.std.specs.Option.{option_map};
ghost use Rattle.html_tokens.specs.Attributes as html;
ghost use Rattle.html_tokens.specs.Bytes.{lowered};
ghost use Rattle.html_tokens.specs.Views.{bytes_of};
ghost use Rattle.code_sources.specs.Tags as spec;
ghost use Rattle.code_sources.specs.Views.{placed_of, tag_of};

use crate::bytes::{behind_byte, behind_bytes, past_blanks};
use html_tokens::{Attribute, is_filler, is_same_name, next, read_attribute, tag_name_len};
use std::alloc::{AllocError, Global};
use tp_base::{Items, NoMemory};

/// An attribute, and the offset of its value's first byte.
#[derive(Clone, Copy)]
pub struct Placed<'a> {
    pub attribute: Attribute<'a>,
    pub value_at: usize,
}

/// A start tag, and the text of a raw element.
#[derive(Drop)]
pub struct Tag<'a> {
    /// As written.
    pub name: &'a [u8],
    pub attributes: Items<Placed<'a>>,
    /// The text of a raw element, else nothing.
    pub inside: &'a [u8],
    /// The offset of its `<`.
    pub at: usize,
    /// The offset of the first byte behind its `>`.
    pub inside_at: usize,
}

impl<'a> Tag<'a> {
    /// Whether its name is this one, without regard to ASCII case.
    pub fn is_named(&self, name: &[u8]) -> bool
        ensures { result ≡ spec.is_named (lowered name.now) (tag_of self.now) }
    {
        is_same_name(self.name, name)
    }

    /// The value of the first attribute of a name, without regard to ASCII case. Linear in the tag.
    #[tactic(auto, unfolding(html_tokens::specs::Attributes::value_of))]
    pub fn value(&self, name: &[u8]) -> Option<&'a [u8]>
        ensures { bytes_of result ≡ spec.value name.now (tag_of self.now) }
    {
        let mut left = self.attributes.items();
        'attributes: while let [first, others @ ..] = left {
            if is_same_name(first.attribute.name, name) {
                return Some(first.attribute.value);
            }
            left = others;
        }
        None
    }
}

fn begins_quote(text: &[u8]) -> bool
    ensures { result ≡ spec.begins_quote text.now }
{
    match text {
        [] => false,
        [first, ..] => *first == b'"' || *first == b'\'',
    }
}

// The bytes of the value, where white space, `=` and white space come first.
#[tactic(auto, unfolding(html_tokens::specs::Attributes::behind_equals, html_tokens::specs::Attributes::past_blank))]
fn behind_equals(text: &[u8]) -> Option<&[u8]>
    ensures gives { html.behind_equals text.now ≡ option_map (λ r. r.now) result }
    ensures within { IfSome result (λ r. length r.now ≤ length text.now) }
{
    match past_blanks(text).split_first() {
        Some((b'=', behind)) => Some(past_blanks(behind)),
        _ => None,
    }
}

fn left_of_value(text: &[u8]) -> usize
    ensures gives { result ≡ spec.left_of_value text.now (html.behind_equals text.now) }
    ensures within { result ≤ length text.now }
{
    match behind_equals(text) {
        None => text.len(),
        Some(after) if begins_quote(after) => behind_byte(after).len(),
        Some(after) => after.len(),
    }
}

// Of an attribute with this name that begins the bytes, in a file of so many bytes.
#[tactic(auto, unfolding(crate::specs::Tags::value_place))]
fn value_place(size: usize, text: &[u8], name: &[u8]) -> usize
    requires { length text.now ≤ size }
    ensures { result ≡ spec.value_place size text.now name.now }
{
    size - left_of_value(behind_bytes(name.len(), text))
}

// The attributes of a tag from behind its name on, and the bytes behind it, in a file of so many bytes.
#[tactic(auto, using(crate::proofs::TagSteps::begins, crate::proofs::TagSteps::closes, crate::proofs::TagSteps::passes, crate::proofs::TagSteps::adds, crate::proofs::TagSteps::fails, crate::proofs::TagSteps::ends, text_bytes::proofs::Rests::of_rest, text_bytes::proofs::Rests::behind_first))]
fn read_attributes<'a>(
    alloc: Global,
    size: usize,
    text: &'a [u8],
) -> Result<(Vec<Placed<'a>>, &'a [u8]), AllocError>
    requires { length text.now ≤ size }
    ensures gives { IfOk result (λ r. spec.placed_from size 0 text.now ≡ (map placed_of r.0.items, r.1.now)) }
    ensures within { IfOk result (λ r. length r.1.now ≤ length text.now) }
{
    let mut found = Vec::new(alloc);
    let mut rest = text;
    'turns: while let Some((first, behind)) = rest.split_first() {
        if *first == b'>' {
            return Ok((found, behind));
        }
        if is_filler(*first) {
            rest = behind;
            continue;
        }
        let Some((attribute, after)) = read_attribute(rest) else {
            return Ok((found, b""));
        };
        found.push(Placed {
            attribute,
            value_at: value_place(size, rest, attribute.name),
        })?;
        rest = after;
    }
    Ok((found, b""))
}

// The start tag that begins a text, whose tokens go on with the rest, in a file of so many bytes. Linear in the tag.
#[tactic(auto, unfolding(crate::specs::Tags::tag_at))]
fn read_tag<'a>(
    alloc: Global,
    size: usize,
    text: &'a [u8],
    rest: &[u8],
) -> Result<Tag<'a>, AllocError>
    requires { length text.now ≤ size }
    ensures { IfOk result (λ t. tag_of t ≡ spec.tag_at size text.now rest.now) }
{
    let named = behind_byte(text);
    let (name, behind) = named.split_at(tag_name_len(named));
    let (attributes, after) = read_attributes(alloc, size, behind)?;
    Ok(Tag {
        name,
        attributes: Items::new(attributes),
        inside: after.split_at(after.len().saturating_sub(rest.len())).0,
        at: size - text.len(),
        inside_at: size - after.len(),
    })
}

#[tactic(auto, unfolding(crate::specs::Tags::begins_tag))]
fn begins_tag(text: &[u8]) -> bool
    ensures { result ≡ spec.begins_tag text.now }
{
    match text {
        [b'<', second, ..] => second.is_ascii_alphabetic(),
        _ => false,
    }
}

// Adds the tag that begins a text, if one does.
#[tactic(auto, unfolding(crate::specs::Tags::tags_at))]
fn add_tag<'a>(
    found: &mut Vec<Tag<'a>>,
    size: usize,
    text: &'a [u8],
    rest: &[u8],
) -> Result<(), AllocError>
    requires { length text.now ≤ size }
    ensures { OnOk result (map tag_of found.new.items ≡ map tag_of found.old.items ++ spec.tags_at size text.now rest.now) }
{
    if begins_tag(text) {
        let tag = read_tag(*found.allocator(), size, text, rest)?;
        found.push(tag)?;
    }
    Ok(())
}

/// The start tags of a page or of markup, in the order of their places, with the attributes before the text's end of one that it cuts. Linear in
/// the text, in time and in memory.
#[tactic(auto, using(crate::proofs::TagSteps::goes_on, crate::proofs::TagSteps::all_found, text_bytes::proofs::Rests::of_rest))]
pub fn tags_in(alloc: Global, text: &[u8]) -> Result<Items<Tag<'_>>, NoMemory>
    ensures { IfOk result (λ ts. map tag_of ts ≡ spec.tags_in text.now) }
{
    let size = text.len();
    let mut found = Vec::new(alloc);
    let mut rest = text;
    'tokens: while !rest.is_empty() {
        let (_, behind) = next(size - rest.len(), rest);
        add_tag(&mut found, size, rest, behind)?;
        rest = behind;
    }
    Ok(Items::new(found))
}
