//! The start tags of a page, with the places of their attributes.
ghost use Rattle.std.specs.Prelude.{◌≡◌, ◌≤◌, length, map, IfOk};
ghost use Rattle.page_finds.specs.Tags as spec;
ghost use Rattle.page_finds.specs.Views.{placed_of, tag_of};

use html_tokens::{Attribute, is_filler, read_attribute, tag_name_len};
use premise_finds::behind_byte;
use std::alloc::{AllocError, Global};

/// An attribute, from its name's first byte to behind its last one.
#[derive(Clone, Copy)]
pub(crate) struct Placed<'a> {
    pub(crate) attribute: Attribute<'a>,
    pub(crate) from: usize,
    pub(crate) to: usize,
}

/// A start tag, from its `<` to behind its `>`, and the text of a raw element.
#[derive(Drop)]
pub(crate) struct Tag<'a> {
    /// As written.
    pub(crate) name: &'a [u8],
    pub(crate) attributes: Vec<Placed<'a>>,
    pub(crate) inside: &'a [u8],
    pub(crate) from: usize,
    pub(crate) to: usize,
}

// The attributes of a tag from behind its name on, and the bytes behind it, in a file of so many bytes.
#[tactic(auto, using(crate::proofs::TagSteps::begins, crate::proofs::TagSteps::closes, crate::proofs::TagSteps::passes, crate::proofs::TagSteps::adds, crate::proofs::TagSteps::fails, crate::proofs::TagSteps::ends, text_bytes::proofs::Rests::of_rest, text_bytes::proofs::Rests::behind_first))]
fn read_attributes<'a>(
    alloc: Global,
    size: usize,
    text: &'a [u8],
) -> Result<(Vec<Placed<'a>>, &'a [u8]), AllocError>
    requires { length text.now ≤ size }
    ensures gives { IfOk result (λ r. spec.placed_from size 0 text.now ≡ (map placed_of r.0.items, r.1.now)) }
    ensures within { IfOk result (λ r. length r.1.now ≤ length text.now) }
{
    let mut found = Vec::new(alloc);
    let mut rest = text;
    'turns: while let Some((first, behind)) = rest.split_first() {
        if *first == b'>' {
            return Ok((found, behind));
        }
        if is_filler(*first) {
            rest = behind;
            continue;
        }
        let Some((attribute, after)) = read_attribute(rest) else {
            return Ok((found, b""));
        };
        found.push(Placed {
            attribute,
            from: size - rest.len(),
            to: size - after.len(),
        })?;
        rest = after;
    }
    Ok((found, b""))
}

/// The start tag that begins a text, whose tokens go on with the rest, in a file of so many bytes. Linear in the tag.
#[tactic(auto, unfolding(crate::specs::Tags::tag_at))]
pub(crate) fn read_tag<'a>(
    alloc: Global,
    size: usize,
    text: &'a [u8],
    rest: &[u8],
) -> Result<Tag<'a>, AllocError>
    requires { length text.now ≤ size }
    ensures { IfOk result (λ t. tag_of t ≡ spec.tag_at size text.now rest.now) }
{
    let named = behind_byte(text);
    let (name, behind) = named.split_at(tag_name_len(named));
    let (attributes, after) = read_attributes(alloc, size, behind)?;
    Ok(Tag {
        name,
        attributes,
        inside: after.split_at(after.len().saturating_sub(rest.len())).0,
        from: size - text.len(),
        to: size - after.len(),
    })
}
