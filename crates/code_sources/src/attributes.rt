//! Code in attributes.
ghost use Rattle.std.specs.Prelude.{◌≡◌, ◌++◌, ◌&&◌, not, IfOk, OnOk};
ghost use Rattle.std.specs.Option.{option_map};
ghost use Rattle.code_sources.specs.Attributes as spec;
ghost use Rattle.code_sources.specs.Views.{placed_of};

use crate::bytes::{HOLE, behind_spelled, has_hole};
use crate::references::read_value;
use crate::sources::{Kind, Source};
use crate::tags::Placed;
use std::alloc::Global;
use tp_base::{Items, NoMemory};

fn is_hole(byte: u8) -> bool
    ensures { result ≡ spec.is_hole byte }
{
    byte == HOLE
}

fn begins_letter_or_hole(text: &[u8]) -> bool
    ensures { result ≡ spec.begins_letter_or_hole text.now }
{
    match text {
        [] => false,
        [first, ..] => is_hole(*first) || first.is_ascii_alphabetic(),
    }
}

fn begins_n(text: &[u8]) -> bool
    ensures { result ≡ spec.begins_n text.now }
{
    match text {
        [] => false,
        [first, behind @ ..] => {
            is_hole(*first) || first.to_ascii_lowercase() == b'n' && begins_letter_or_hole(behind)
        }
    }
}

#[tactic(auto, unfolding(crate::specs::Attributes::is_event_name))]
fn is_event_name(name: &[u8]) -> bool
    ensures { result ≡ spec.is_event_name name.now }
{
    match name {
        [] => false,
        [first, behind @ ..] => {
            is_hole(*first) || first.to_ascii_lowercase() == b'o' && begins_n(behind)
        }
    }
}

/// What is behind `javascript:` at the front of an address, in any case, whatever control bytes and blanks stand before and in it. Linear in what
/// is passed over.
pub fn code_behind(text: &[u8]) -> Option<&[u8]>
    ensures { spec.code_behind text.now ≡ option_map (λ r. r.now) result }
{
    behind_spelled(b"javascript:", text)
}

fn has_percent(text: &[u8]) -> bool
    ensures { result ≡ spec.has_percent text.now }
{
    text.contains(&b'%')
}

fn kind_of_code(code: &[u8]) -> Kind
    ensures { result ≡ spec.kind_of_code code.now }
{
    if has_hole(code) {
        Kind::Holed
    } else {
        Kind::Value
    }
}

fn code_at(place: usize, text: Items<u8>, is_sure: bool) -> Source
    ensures { result ≡ spec.code_at place text is_sure }
{
    Source {
        kind: kind_of_code(text.items()),
        text,
        place,
        is_sure,
    }
}

// The code of an address, where that is sure but for its bytes.
fn code_of_address(
    alloc: Global,
    place: usize,
    code: &[u8],
    is_sure: bool,
) -> Result<Source, NoMemory>
    ensures { IfOk result (λ s. s ≡ spec.code_at place code.now (is_sure && not (spec.has_percent code.now))) }
{
    let text = Vec::from_slice(alloc, code)?;
    let is_sure = is_sure && !has_percent(code);
    Ok(code_at(place, Items::new(text), is_sure))
}

/// Adds the source that an attribute is, if it is one. Linear in it.
#[tactic(auto, unfolding(crate::specs::Attributes::sources_in_attribute))]
pub(crate) fn add_attribute(found: &mut Vec<Source>, placed: &Placed<'_>) -> Result<(), NoMemory>
    ensures { OnOk result (found.new.items ≡ found.old.items ++ spec.sources_in_attribute (placed_of placed.now)) }
{
    let alloc = *found.allocator();
    let said = read_value(alloc, placed.attribute.value)?;
    if is_event_name(placed.attribute.name) {
        found.push(code_at(placed.value_at, said.text, said.is_sure))?;
    } else if let Some(code) = code_behind(said.text.items()) {
        let source = code_of_address(alloc, placed.value_at, code, said.is_sure)?;
        found.push(source)?;
    }
    Ok(())
}
