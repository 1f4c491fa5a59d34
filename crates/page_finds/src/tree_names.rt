//! What is found of a page's tree at its tags and texts.
ghost use Rattle.std.specs.Prelude.{◌≡◌, ◌+◌, ◌++◌, ◌||◌, not, nat_lt, map, length, slice_get, IfOk, OnOk};
ghost use Rattle.std.specs.Option.{option_map};
ghost use Rattle.html_tokens.specs.Bytes.{lowered};
ghost use Rattle.html_tokens.specs.Names.{is_among};
ghost use Rattle.html_table.specs.TreeTable.{is_in_table};
ghost use Rattle.html_table.specs.Views.{element_of};
ghost use Rattle.html_tokens.specs.Views.{bytes_of};
ghost use Rattle.page_finds.specs.Trees as spec;
ghost use Rattle.page_finds.specs.Views.{tag_of};

use crate::tags::Tag;
use html_table::{
    Element, Ending, Kind, OpenElements, behind_item, behind_paragraph, behind_term, end_tag,
    place_for,
};
use html_tokens::{is_raw, is_same_name};
use premise_finds::{Finding, Name, add_when, is_among, is_seen};
use tp_base::NoMemory;

// The elements that a browser takes out of svg and math.
const BREAKING_NAMES: [&[u8]; 44] = [
    b"b",
    b"big",
    b"blockquote",
    b"body",
    b"br",
    b"center",
    b"code",
    b"dd",
    b"div",
    b"dl",
    b"dt",
    b"em",
    b"embed",
    b"h1",
    b"h2",
    b"h3",
    b"h4",
    b"h5",
    b"h6",
    b"head",
    b"hr",
    b"i",
    b"img",
    b"li",
    b"listing",
    b"menu",
    b"meta",
    b"nobr",
    b"ol",
    b"p",
    b"pre",
    b"ruby",
    b"s",
    b"small",
    b"span",
    b"strong",
    b"strike",
    b"sub",
    b"sup",
    b"table",
    b"tt",
    b"u",
    b"ul",
    b"var",
];

// Those of which one is never in another.
const SINGLE_NAMES: [&[u8]; 5] = [b"a", b"button", b"form", b"nobr", b"select"];

const HEADING_NAMES: [&[u8]; 6] = [b"h1", b"h2", b"h3", b"h4", b"h5", b"h6"];

// Those that a browser lets stand between cells.
const FREE_NAMES: [&[u8]; 4] = [b"script", b"style", b"template", b"form"];

// Those that stand in a select.
const CHOICE_NAMES: [&[u8]; 5] = [b"option", b"optgroup", b"hr", b"script", b"template"];

// Those past which a browser closes an item, too.
const PASSED_NAMES: [&[u8]; 17] = [
    b"div", b"address", b"p", b"a", b"b", b"big", b"code", b"em", b"font", b"i", b"nobr", b"s",
    b"small", b"strike", b"strong", b"tt", b"u",
];

// Those whose end tags may be left out.
const OMITTED_NAMES: [&[u8]; 19] = [
    b"li",
    b"dt",
    b"dd",
    b"p",
    b"rt",
    b"rp",
    b"optgroup",
    b"option",
    b"colgroup",
    b"caption",
    b"thead",
    b"tbody",
    b"tfoot",
    b"tr",
    b"td",
    b"th",
    b"html",
    b"head",
    b"body",
];

// Linear in the name, on average.
#[tactic(auto, using(crate::proofs::TreeLists::is_open_by))]
fn is_open(elements: &OpenElements<'_>, name: &[u8]) -> Result<bool, NoMemory>
    ensures { IfOk result (λ is. is ≡ spec.is_open (lowered name.now) elements.now) }
{
    let (_, place) = elements.ended(name)?;
    Ok(place > 0)
}

fn is_in_foreign(elements: &OpenElements<'_>) -> Result<bool, NoMemory>
    ensures { IfOk result (λ is. is ≡ spec.is_in_foreign elements.now) }
{
    let in_svg = is_open(elements, b"svg")?;
    let in_math = is_open(elements, b"math")?;
    Ok(in_svg || in_math)
}

// Whether one of the elements from the n-th on has none of these names. Linear in them.
#[tactic(auto, using(crate::proofs::TreeLists::other_here, crate::proofs::TreeLists::other_later, crate::proofs::TreeLists::no_other))]
fn has_other(names: &[&[u8]], from: usize, elements: &OpenElements<'_>) -> bool
    ensures { result ≡ spec.has_other (map (λ n. lowered n.now) names.now) from elements.now }
{
    let mut index = from;
    'elements: while index < elements.len() {
        let Some(element) = elements.get(index) else {
            return false;
        };
        if !is_among(names, element.name) {
            return true;
        }
        index += 1;
    }
    false
}

fn has_other_inside(names: &[&[u8]], at: usize, elements: &OpenElements<'_>) -> bool
    ensures { result ≡ spec.has_other_inside (map (λ n. lowered n.now) names.now) at elements.now }
{
    at < elements.len() && has_other(names, at + 1, elements)
}

#[tactic(auto, unfolding(crate::specs::Trees::is_raw_in_svg))]
fn is_raw_in_svg(tag: &Tag<'_>, elements: &OpenElements<'_>) -> Result<bool, NoMemory>
    ensures { IfOk result (λ is. is ≡ spec.is_raw_in_svg (tag_of tag.now) elements.now) }
{
    let is_in = is_in_foreign(elements)?;
    Ok(is_raw(tag.name) && is_in)
}

#[tactic(auto, unfolding(crate::specs::Trees::breaks_out), using(crate::proofs::TreeLists::breaking_names_are))]
fn breaks_out(name: &[u8]) -> bool
    ensures { result ≡ spec.breaks_out (lowered name.now) }
{
    is_among(&BREAKING_NAMES, name)
}

#[tactic(auto, unfolding(crate::specs::Trees::is_html_in_svg))]
fn is_html_in_svg(tag: &Tag<'_>, elements: &OpenElements<'_>) -> Result<bool, NoMemory>
    ensures { IfOk result (λ is. is ≡ spec.is_html_in_svg (tag_of tag.now) elements.now) }
{
    let is_in = is_in_foreign(elements)?;
    let breaks = breaks_out(tag.name)
        || tag.is_named(b"font") && (tag.has(b"color") || tag.has(b"face") || tag.has(b"size"));
    Ok(breaks && is_in)
}

#[tactic(auto, unfolding(crate::specs::Trees::is_heading), using(crate::proofs::TreeLists::heading_names_are))]
fn is_heading(name: &[u8]) -> bool
    ensures { result ≡ spec.is_heading (lowered name.now) }
{
    is_among(&HEADING_NAMES, name)
}

#[tactic(auto, unfolding(crate::specs::Trees::is_single), using(crate::proofs::TreeLists::single_names_are))]
fn is_single(name: &[u8]) -> bool
    ensures { result ≡ spec.is_single (lowered name.now) }
{
    is_among(&SINGLE_NAMES, name)
}

fn is_heading_at(elements: &OpenElements<'_>, index: usize) -> bool
    ensures { result ≡ spec.is_heading_element (slice_get elements.now index) }
{
    match elements.get(index) {
        None => false,
        Some(element) => is_heading(element.name),
    }
}

// Whether the innermost element is a heading, of those that stay open.
fn is_in_heading(elements: &OpenElements<'_>, kind: Kind) -> bool
    ensures { result ≡ spec.is_in_heading elements.now (spec.place_in kind elements.now) }
{
    match place_for(elements, kind, false) {
        None => false,
        Some(place) => place.left > 0 && is_heading_at(elements, place.left - 1),
    }
}

#[tactic(auto, unfolding(crate::specs::Trees::is_in_itself))]
fn is_in_itself(tag: &Tag<'_>, elements: &OpenElements<'_>) -> Result<bool, NoMemory>
    ensures { IfOk result (λ is. is ≡ spec.is_in_itself (tag_of tag.now) elements.now) }
{
    let is_there = is_open(elements, tag.name)?;
    let kind = elements.element(tag.name).0.kind;
    Ok(is_single(tag.name) && is_there || is_heading(tag.name) && is_in_heading(elements, kind))
}

fn holds_rows(element: Option<Element<'_>>) -> bool
    ensures { result ≡ spec.holds_rows (option_map element_of element.entry) }
{
    match element {
        None => false,
        Some(element) => matches!(element.kind, Kind::Table | Kind::RowGroup | Kind::Row),
    }
}

// Whether the current element is a table, a group of rows or a row.
fn is_between_cells(elements: &OpenElements<'_>) -> bool
    ensures { result ≡ spec.is_between_cells elements.now }
{
    holds_rows(elements.get(elements.len().saturating_sub(1)))
}

fn is_hidden(kind: Option<&[u8]>) -> bool
    ensures { result ≡ spec.is_hidden (bytes_of kind.entry) }
{
    match kind {
        None => false,
        Some(kind) => is_same_name(kind, b"hidden"),
    }
}

#[tactic(auto, unfolding(crate::specs::Trees::is_free), using(crate::proofs::TreeLists::free_names_are))]
fn is_free(tag: &Tag<'_>) -> bool
    ensures { result ≡ spec.is_free (tag_of tag.now) }
{
    is_among(&FREE_NAMES, tag.name) || tag.is_named(b"input") && is_hidden(tag.value(b"type"))
}

fn is_in_table(kind: Kind) -> bool
    ensures { result ≡ is_in_table kind }
{
    matches!(
        kind,
        Kind::Column | Kind::Caption | Kind::Columns | Kind::RowGroup | Kind::Row | Kind::Cell
    )
}

#[tactic(auto, unfolding(crate::specs::Trees::is_tag_in_a_table))]
fn is_tag_in_a_table(tag: &Tag<'_>, elements: &OpenElements<'_>) -> bool
    ensures { result ≡ spec.is_tag_in_a_table (tag_of tag.now) elements.now }
{
    let kind = elements.element(tag.name).0.kind;
    is_between_cells(elements) && !(is_in_table(kind) || is_free(tag))
}

#[tactic(auto, unfolding(crate::specs::Trees::is_in_a_select), using(crate::proofs::TreeLists::choice_names_are))]
fn is_in_a_select(tag: &Tag<'_>, elements: &OpenElements<'_>) -> Result<bool, NoMemory>
    ensures { IfOk result (λ is. is ≡ spec.is_in_a_select (tag_of tag.now) elements.now) }
{
    let is_in = is_open(elements, b"select")?;
    Ok(!is_among(&CHOICE_NAMES, tag.name) && is_in)
}

// How many elements stay open where an item of a list or a term closes the one before it, if it closes one.
fn left_of_item(elements: &OpenElements<'_>, kind: Kind) -> Option<usize>
    ensures { result ≡ spec.left_of_item kind elements.now }
{
    match kind {
        Kind::Item => behind_item(elements),
        Kind::Term => behind_term(elements),
        _ => None,
    }
}

#[tactic(auto, unfolding(crate::specs::Trees::is_item_in_a_block), using(crate::proofs::TreeLists::passed_names_are))]
fn is_item_in_a_block(tag: &Tag<'_>, elements: &OpenElements<'_>) -> bool
    ensures { result ≡ spec.is_item_in_a_block (tag_of tag.now) elements.now }
{
    let kind = elements.element(tag.name).0.kind;
    match left_of_item(elements, kind) {
        None => false,
        Some(left) => has_other_inside(&PASSED_NAMES, left, elements),
    }
}

/// Adds what is found at a start tag, before which these elements are open. Linear in the tag and in the elements that it
/// closes.
#[tactic(auto, unfolding(crate::specs::Trees::found_at_start), using(crate::proofs::TagLists::six))]
pub(crate) fn add_start(
    found: &mut Vec<Finding>,
    tag: &Tag<'_>,
    elements: &OpenElements<'_>,
) -> Result<(), NoMemory>
    ensures { OnOk result (found.new.items ≡ found.old.items ++ spec.found_at_start (tag_of tag.now) elements.now) }
{
    let from = tag.from;
    let to = tag.to;
    let is = is_raw_in_svg(tag, elements)?;
    add_when(found, is, Name::RawInSvg, from, to)?;
    let is = is_html_in_svg(tag, elements)?;
    add_when(found, is, Name::HtmlInSvg, from, to)?;
    let is = is_in_itself(tag, elements)?;
    add_when(found, is, Name::InItself, from, to)?;
    let is = is_tag_in_a_table(tag, elements);
    add_when(found, is, Name::InATable, from, to)?;
    let is = is_in_a_select(tag, elements)?;
    add_when(found, is, Name::InASelect, from, to)?;
    let is = is_item_in_a_block(tag, elements);
    add_when(found, is, Name::ItemInABlock, from, to)?;
    Ok(())
}

/// Whether the end tags of elements of this name may be left out. Linear in the name.
#[tactic(auto, using(crate::proofs::TreeLists::omitted_names_are))]
pub(crate) fn may_be_omitted(name: &[u8]) -> bool
    ensures { result ≡ is_among spec.omitted_names (lowered name.now) }
{
    is_among(&OMITTED_NAMES, name)
}

#[tactic(auto, using(crate::proofs::TreeLists::omitted_names_are))]
fn crosses_inside(left: Option<usize>, elements: &OpenElements<'_>) -> bool
    ensures { result ≡ spec.crosses_inside left elements.now }
{
    match left {
        None => false,
        Some(left) => has_other_inside(&OMITTED_NAMES, left, elements),
    }
}

#[tactic(auto, using(crate::proofs::TreeLists::omitted_names_are))]
fn crosses_from(left: usize, elements: &OpenElements<'_>) -> bool
    ensures { result ≡ (not (nat_lt left (length elements.now)) || spec.has_other spec.omitted_names (left + 1) elements.now) }
{
    left >= elements.len() || has_other(&OMITTED_NAMES, left + 1, elements)
}

fn crosses(ending: Ending, elements: &OpenElements<'_>) -> bool
    ensures { result ≡ spec.crosses ending elements.now }
{
    match ending {
        Ending::Nothing => false,
        Ending::Paragraph => crosses_inside(behind_paragraph(elements), elements),
        Ending::Leaves(left) => crosses_from(left, elements),
    }
}

/// Whether an end tag of this name crosses an element, or closes nothing. Linear in the name, on average, and in the elements
/// that it closes.
#[tactic(auto, unfolding(crate::specs::Trees::is_across))]
pub(crate) fn is_across(name: &[u8], elements: &OpenElements<'_>) -> Result<bool, NoMemory>
    ensures { IfOk result (λ is. is ≡ spec.is_across (lowered name.now) elements.now) }
{
    let ending = end_tag(elements, name)?;
    Ok(!is_raw(name) && crosses(ending, elements))
}

/// Whether a text stands between the cells of a table. Linear in its blanks.
#[tactic(auto, unfolding(crate::specs::Trees::is_text_in_a_table))]
pub(crate) fn is_text_in_a_table(text: &[u8], elements: &OpenElements<'_>) -> bool
    ensures { result ≡ spec.is_text_in_a_table text.now elements.now }
{
    is_seen(text) && is_between_cells(elements)
}
