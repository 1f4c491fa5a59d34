//! What is found at a start tag or at one of its attributes.
ghost use Rattle.std.specs.Prelude.{◌≡◌, ◌++◌, map, flat_map, OnOk};
ghost use Rattle.html_tokens.specs.Bytes.{lowered};
ghost use Rattle.html_tokens.specs.Views.{attribute_of, bytes_of};
ghost use Rattle.page_finds.specs.TagNames as spec;
ghost use Rattle.page_finds.specs.Views.{placed_of, tag_of};

use crate::tags::{Placed, Tag};
use html_tokens::{Attribute, is_same_name};
use premise_finds::{Finding, Name, add_when, has_somewhere, has_word, is_among, is_seen};
use std::alloc::AllocError;
use text_bytes::behind_mark;

// The types of scripts that a browser runs.
const SCRIPT_TYPES: [&[u8]; 17] = [
    b"module",
    b"text/javascript",
    b"application/javascript",
    b"text/ecmascript",
    b"application/ecmascript",
    b"application/x-javascript",
    b"application/x-ecmascript",
    b"text/x-javascript",
    b"text/x-ecmascript",
    b"text/jscript",
    b"text/livescript",
    b"text/javascript1.0",
    b"text/javascript1.1",
    b"text/javascript1.2",
    b"text/javascript1.3",
    b"text/javascript1.4",
    b"text/javascript1.5",
];

// The elements that show another page.
const FRAMING_NAMES: [&[u8]; 4] = [b"iframe", b"frame", b"object", b"embed"];

// The one word that makes a link one to a sheet.
const SHEET_WORD: [&[u8]; 1] = [b"stylesheet"];

impl<'a> Tag<'a> {
    pub(crate) fn is_named(&self, name: &[u8]) -> bool
        ensures { result ≡ spec.is_named (lowered name.now) (tag_of self.now) }
    {
        is_same_name(self.name, name)
    }

    // The value of the first attribute of a name. Linear in the tag.
    #[tactic(auto, unfolding(html_tokens::specs::Attributes::value_of))]
    pub(crate) fn value(&self, name: &[u8]) -> Option<&'a [u8]>
        ensures { bytes_of result ≡ spec.value name.now (tag_of self.now) }
    {
        'attributes: for placed in &self.attributes {
            if is_same_name(placed.attribute.name, name) {
                return Some(placed.attribute.value);
            }
        }
        None
    }

    pub(crate) fn has(&self, name: &[u8]) -> bool
        ensures { result ≡ spec.has name.now (tag_of self.now) }
    {
        self.value(name).is_some()
    }
}

// Whether a script of this type is run.
#[tactic(auto, using(crate::proofs::TagLists::script_types_are))]
fn is_run(kind: Option<&[u8]>) -> bool
    ensures { result ≡ spec.is_run (bytes_of kind.entry) }
{
    match kind {
        Some(kind) if is_seen(kind) => has_word(&SCRIPT_TYPES, kind),
        _ => true,
    }
}

#[tactic(auto, unfolding(crate::specs::TagNames::is_script_here))]
fn is_script_here(tag: &Tag<'_>) -> bool
    ensures { result ≡ spec.is_script_here (tag_of tag.now) }
{
    if !tag.is_named(b"script") {
        return false;
    }
    tag.has(b"src")
        || tag.has(b"href")
        || tag.has(b"xlink:href")
        || is_seen(tag.inside) && is_run(tag.value(b"type"))
}

#[tactic(auto, using(crate::proofs::TagLists::sheet_word_is))]
fn is_for_sheets(rel: Option<&[u8]>) -> bool
    ensures { result ≡ spec.is_for_sheets (bytes_of rel.entry) }
{
    match rel {
        None => false,
        Some(rel) => has_word(&SHEET_WORD, rel),
    }
}

#[tactic(auto, unfolding(crate::specs::TagNames::is_sheet_here))]
fn is_sheet_here(tag: &Tag<'_>) -> bool
    ensures { result ≡ spec.is_sheet_here (tag_of tag.now) }
{
    tag.is_named(b"style") && is_seen(tag.inside)
        || tag.is_named(b"link") && is_for_sheets(tag.value(b"rel"))
}

#[tactic(auto, unfolding(crate::specs::TagNames::is_framing), using(crate::proofs::TagLists::framing_names_are))]
fn is_framing(name: &[u8]) -> bool
    ensures { result ≡ spec.is_framing (lowered name.now) }
{
    is_among(&FRAMING_NAMES, name)
}

#[tactic(auto, unfolding(crate::specs::TagNames::is_other_document))]
fn is_other_document(tag: &Tag<'_>) -> bool
    ensures { result ≡ spec.is_other_document (tag_of tag.now) }
{
    if tag.is_named(b"frameset") {
        return true;
    }
    is_framing(tag.name) && (tag.has(b"src") || tag.has(b"srcdoc") || tag.has(b"data"))
}

#[tactic(auto, unfolding(crate::specs::TagNames::is_no_script))]
fn is_no_script(tag: &Tag<'_>) -> bool
    ensures { result ≡ spec.is_no_script (tag_of tag.now) }
{
    tag.is_named(b"noscript") && is_seen(tag.inside)
}

#[tactic(auto, unfolding(crate::specs::TagNames::is_template))]
fn is_template(tag: &Tag<'_>) -> bool
    ensures { result ≡ spec.is_template (tag_of tag.now) }
{
    tag.is_named(b"template")
}

#[tactic(auto, unfolding(crate::specs::TagNames::has_hyphen), using(crate::proofs::TagLists::same_hyphens))]
fn has_hyphen(name: &[u8]) -> bool
    ensures { result ≡ spec.has_hyphen (lowered name.now) }
{
    name.contains(&b'-')
}

#[tactic(auto, unfolding(crate::specs::TagNames::is_own_element))]
fn is_own_element(tag: &Tag<'_>) -> bool
    ensures { result ≡ spec.is_own_element (tag_of tag.now) }
{
    has_hyphen(tag.name) || tag.has(b"is")
}

#[tactic(auto, unfolding(crate::specs::TagNames::is_selected_content))]
fn is_selected_content(tag: &Tag<'_>) -> bool
    ensures { result ≡ spec.is_selected_content (tag_of tag.now) }
{
    tag.is_named(b"selectedcontent")
}

#[tactic(auto, unfolding(crate::specs::TagNames::is_script_in_a_script))]
fn is_script_in_a_script(tag: &Tag<'_>) -> bool
    ensures { result ≡ spec.is_script_in_a_script (tag_of tag.now) }
{
    tag.is_named(b"script") && has_somewhere(b"<script", behind_mark(b"<!--", tag.inside))
}

#[tactic(auto, unfolding(crate::specs::TagNames::is_event_name))]
fn is_event_name(name: &[u8]) -> bool
    ensures { result ≡ spec.is_event_name name.now }
{
    match name {
        [b'o' | b'O', b'n' | b'N', letter, ..] => letter.is_ascii_alphabetic(),
        _ => false,
    }
}

#[tactic(auto, unfolding(crate::specs::TagNames::is_code))]
fn is_code(attribute: &Attribute<'_>) -> bool
    ensures { result ≡ spec.is_code (attribute_of attribute.now) }
{
    is_event_name(attribute.name)
}

// Whether a text begins with a word in lower case, whatever control bytes and blanks stand before and in it. Linear in
// what is passed over.
#[tactic(auto, using(crate::proofs::TagLists::passes_blank, crate::proofs::TagLists::spells_on, crate::proofs::TagLists::spells_other, crate::proofs::TagLists::spells_nothing, crate::proofs::TagLists::spells_too_few))]
fn spells(word: &[u8], text: &[u8]) -> bool
    ensures { result ≡ spec.spells word.now text.now }
{
    let mut wanted = word;
    let mut rest = text;
    'bytes: while let Some((letter, letters)) = wanted.split_first() {
        let Some((first, behind)) = rest.split_first() else {
            return false;
        };
        rest = behind;
        if *first > 32 {
            if first.to_ascii_lowercase() != *letter {
                return false;
            }
            wanted = letters;
        }
    }
    true
}

#[tactic(auto, unfolding(crate::specs::TagNames::is_code_address))]
fn is_code_address(attribute: &Attribute<'_>) -> bool
    ensures { result ≡ spec.is_code_address (attribute_of attribute.now) }
{
    spells(b"javascript:", attribute.value)
}

#[tactic(auto, unfolding(crate::specs::TagNames::is_typed_into))]
fn is_typed_into(attribute: &Attribute<'_>) -> bool
    ensures { result ≡ spec.is_typed_into (attribute_of attribute.now) }
{
    is_same_name(attribute.name, b"contenteditable") && !is_same_name(attribute.value, b"false")
}

fn begins_reference(text: &[u8]) -> bool
    ensures { result ≡ spec.begins_reference text.now }
{
    match text {
        [b'&', second, ..] => second.is_ascii_alphabetic() || *second == b'#',
        _ => false,
    }
}

// Linear in the text.
#[tactic(auto, unfolding(crate::specs::TagNames::has_reference))]
fn has_reference(text: &[u8]) -> bool
    ensures { result ≡ spec.has_reference text.now }
{
    let mut rest = text;
    'bytes: while let Some((_, behind)) = rest.split_first() {
        if begins_reference(rest) {
            return true;
        }
        rest = behind;
    }
    false
}

#[tactic(auto, unfolding(crate::specs::TagNames::is_reference))]
fn is_reference(attribute: &Attribute<'_>) -> bool
    ensures { result ≡ spec.is_reference (attribute_of attribute.now) }
{
    let is_apart = is_same_name(attribute.name, b"style") || is_same_name(attribute.name, b"open");
    !is_apart && has_reference(attribute.value)
}

// Adds what is found at an attribute.
#[tactic(auto, unfolding(crate::specs::TagNames::found_at_attribute), using(crate::proofs::TagLists::four))]
fn add_attribute(found: &mut Vec<Finding>, placed: &Placed<'_>) -> Result<(), AllocError>
    ensures { OnOk result (found.new.items ≡ found.old.items ++ spec.found_at_attribute (placed_of placed.now)) }
{
    let attribute = &placed.attribute;
    let from = placed.from;
    let to = placed.to;
    add_when(found, is_code(attribute), Name::CodeInAnAttribute, from, to)?;
    add_when(
        found,
        is_code_address(attribute),
        Name::CodeInAnAddress,
        from,
        to,
    )?;
    add_when(found, is_typed_into(attribute), Name::TypedInto, from, to)?;
    add_when(found, is_reference(attribute), Name::Reference, from, to)?;
    Ok(())
}

fn add_attributes(found: &mut Vec<Finding>, attributes: &[Placed<'_>]) -> Result<(), AllocError>
    ensures { OnOk result (found.new.items ≡ found.old.items ++ flat_map spec.found_at_attribute (map placed_of attributes.now)) }
{
    'attributes: for placed in attributes {
        add_attribute(found, placed)?;
    }
    Ok(())
}

/// Adds what is found at a start tag and at its attributes. Linear in the tag and in the text of a raw element.
#[tactic(auto, unfolding(crate::specs::TagNames::found_at_tag), using(crate::proofs::TagLists::nine))]
pub(crate) fn add_tag(found: &mut Vec<Finding>, tag: &Tag<'_>) -> Result<(), AllocError>
    ensures { OnOk result (found.new.items ≡ found.old.items ++ spec.found_at_tag (tag_of tag.now)) }
{
    let from = tag.from;
    let to = tag.to;
    add_when(found, is_script_here(tag), Name::ScriptHere, from, to)?;
    add_when(found, is_sheet_here(tag), Name::SheetHere, from, to)?;
    add_when(found, is_other_document(tag), Name::OtherDocument, from, to)?;
    add_when(found, is_no_script(tag), Name::NoScript, from, to)?;
    add_when(found, is_template(tag), Name::Template, from, to)?;
    add_when(found, is_own_element(tag), Name::OwnElement, from, to)?;
    add_when(
        found,
        is_selected_content(tag),
        Name::SelectedContent,
        from,
        to,
    )?;
    add_when(
        found,
        is_script_in_a_script(tag),
        Name::ScriptInAScript,
        from,
        to,
    )?;
    add_attributes(found, &tag.attributes)?;
    Ok(())
}
