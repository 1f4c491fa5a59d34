//! Which of the open elements a tag closes, and where a start tag's element goes.
ghost use Rattle.std.specs.Prelude.{◌≡◌, ℕ, List, ◌≤◌, length, reverse, option_map, IfOk};
ghost use Rattle.std.specs.List.{list_any};
ghost use Rattle.html_table.specs.declared.elements.Kind.TheVariants as k;
ghost use Rattle.html_table.specs.declared.scopes.Scope.TheVariants as within;
ghost use Rattle.html_tokens.specs.Bytes.{lowered};
ghost use Rattle.html_tokens.specs.Names as names;
ghost use Rattle.html_table.specs.Elements.{element};
ghost use Rattle.html_table.specs.Outward.{outward, up_to_name};
ghost use Rattle.html_table.specs.TreeTable as spec;
ghost use Rattle.html_table.specs.Views.{element_of, implied_names, place_of, counted};

use crate::elements::{Element, Kind};
use crate::stack::OpenElements;
use tp_base::NoMemory;

/// What is implied between an element and the one that holds it.
#[derive(Clone, Copy, Debug, PartialEq, Eq)]
pub enum Implied {
    Nothing,
    Columns,
    RowGroup,
    RowGroupAndRow,
    Row,
}

/// Where an element goes: how many elements stay open, and what is implied inside the innermost of them.
#[derive(Clone, Copy, Debug)]
pub struct Place {
    pub left: usize,
    pub implied: Implied,
}

/// What an end tag does.
#[derive(Clone, Copy, Debug)]
pub enum Ending {
    /// Nothing, whatever is open.
    Nothing,
    /// It ends a paragraph, or adds one that holds nothing.
    Paragraph,
    /// So many elements stay open.
    Leaves(usize),
}

// How many of the first so many elements stay open where the innermost paragraph is closed with all in it, if the walls leave one.
fn without_paragraph(open: &OpenElements<'_>, left: usize) -> usize
    requires within { left ≤ length open.now }
    ensures gives { outward result open.now ≡ spec.without_paragraph (outward left open.now) }
    ensures within { result ≤ left }
{
    open.nearest(left).paragraph.unwrap_or(left)
}

// The same for the innermost item of a list.
fn without_item(open: &OpenElements<'_>, left: usize) -> usize
    requires within { left ≤ length open.now }
    ensures gives { outward result open.now ≡ spec.without (spec.has_kind k.Item) within.Items (outward left open.now) }
    ensures within { result ≤ left }
{
    open.nearest(left).item.unwrap_or(left)
}

// The same for the innermost term.
fn without_term(open: &OpenElements<'_>, left: usize) -> usize
    requires within { left ≤ length open.now }
    ensures gives { outward result open.now ≡ spec.without (spec.has_kind k.Term) within.Terms (outward left open.now) }
    ensures within { result ≤ left }
{
    open.nearest(left).term.unwrap_or(left)
}

// How many stay open where the innermost of the first so many is closed, if it is of the kind.
fn without_current(open: &OpenElements<'_>, left: usize, kind: Kind) -> usize
    requires within { left ≤ length open.now }
    ensures gives { outward result open.now ≡ spec.without_current kind (outward left open.now) }
    ensures within { result ≤ left }
{
    match open.kind(left) {
        Some(current) if current == kind => left - 1,
        _ => left,
    }
}

// How many stay open before an element is added that stands anywhere.
#[tactic(auto, unfolding(crate::specs::TreeTable::closed_by), using(crate::proofs::OutwardLemmas::whole))]
fn closed_by(open: &OpenElements<'_>, kind: Kind) -> usize
    ensures gives { outward result open.now ≡ spec.closed_by kind (reverse open.now) }
    ensures within { result ≤ length open.now }
{
    let all = open.len();
    match kind {
        Kind::Item => without_paragraph(open, without_item(open, all)),
        Kind::Term => without_paragraph(open, without_term(open, all)),
        Kind::Choice => without_current(open, all, Kind::Choice),
        Kind::Choices => {
            without_current(
                open,
                without_current(open, all, Kind::Choice),
                Kind::Choices,
            )
        }
        _ if kind.ends_paragraph() => without_paragraph(open, all),
        _ => all,
    }
}

// How many stay open behind the end tag of an element of this kind, where so many are open up to the innermost of its name.
#[tactic(auto, unfolding(crate::specs::TreeTable::closed_at_end))]
fn closed_at_end(open: &OpenElements<'_>, kind: Kind, place: usize) -> usize
    ensures { (q : List ℕ) → place ≡ up_to_name q (reverse open.now) → result ≡ length (spec.closed_at_end (record { kind = kind; name = q }) (reverse open.now)) }
{
    match open.behind_end(kind, place) {
        Some(left) => left,
        None => open.len(),
    }
}

// What the end tag of an element of this kind does, where so many are open up to the innermost of its name.
fn ending_of(open: &OpenElements<'_>, kind: Kind, place: usize) -> Ending
    ensures { (q : List ℕ) → place ≡ up_to_name q (reverse open.now) → result ≡ spec.ending (record { kind = kind; name = q }) (reverse open.now) }
{
    if kind.is_root() || kind.is_void() {
        Ending::Nothing
    } else if kind == Kind::Paragraph {
        Ending::Paragraph
    } else {
        Ending::Leaves(closed_at_end(open, kind, place))
    }
}

/// What the end tag of an element of this name does. Linear in the name, on average.
pub fn end_tag(open: &OpenElements<'_>, name: &[u8]) -> Result<Ending, NoMemory>
    ensures { IfOk result (λ e. e ≡ spec.ending (element (lowered name.now)) (reverse open.now)) }
{
    let (kind, place) = open.ended(name)?;
    Ok(ending_of(open, kind, place))
}

// Whether nothing is open, or the outermost element is one that stands in a table.
#[tactic(auto, using(crate::proofs::OutwardLemmas::bare_first, crate::proofs::OutwardLemmas::bare_nothing))]
fn is_bare(open: &OpenElements<'_>) -> bool
    ensures { result ≡ spec.is_bare (reverse open.now) }
{
    match open.outermost() {
        None => true,
        Some(kind) => kind.is_table_part(),
    }
}

fn implied_in_table(kind: Kind) -> Implied
    ensures { implied_names result ≡ spec.implied_in_table kind }
{
    match kind {
        Kind::Column => Implied::Columns,
        Kind::Row => Implied::RowGroup,
        Kind::Cell => Implied::RowGroupAndRow,
        _ => Implied::Nothing,
    }
}

fn implied_between(kind: Kind, holder: Kind) -> Implied
    ensures { implied_names result ≡ spec.implied kind holder }
{
    if holder == Kind::Table {
        implied_in_table(kind)
    } else if holder == Kind::RowGroup && kind == Kind::Cell {
        Implied::Row
    } else {
        Implied::Nothing
    }
}

// How many elements there are up to the innermost that holds one of the kind; none where there is no such one.
fn holders(open: &OpenElements<'_>, kind: Kind) -> usize
    ensures gives { outward result open.now ≡ spec.holder kind (reverse open.now) }
    ensures within { result ≤ length open.now }
{
    open.nearest(open.len()).holding(kind)
}

// Where an element goes that stands in a table only.
#[tactic(auto, using(crate::proofs::OutwardLemmas::held, crate::proofs::OutwardLemmas::held_by_none))]
fn place_in_table(open: &OpenElements<'_>, kind: Kind, in_forest: bool) -> Option<Place>
    ensures { option_map place_of result ≡ option_map counted (spec.in_table in_forest kind (reverse open.now) (spec.holder kind (reverse open.now))) }
{
    let left = holders(open, kind);
    match open.kind(left) {
        Some(inner) => Some(Place {
            left,
            implied: implied_between(kind, inner),
        }),
        None if in_forest && is_bare(open) => Some(Place {
            left: 0,
            implied: Implied::Nothing,
        }),
        None => None,
    }
}

/// Where an element of this kind goes; nothing where its tag is passed over. Constant.
#[tactic(auto, unfolding(crate::specs::TreeTable::place), using(crate::proofs::OutwardLemmas::length_outward))]
pub fn place_for(open: &OpenElements<'_>, kind: Kind, in_forest: bool) -> Option<Place>
    ensures { option_map place_of result ≡ option_map counted (spec.place in_forest kind (reverse open.now)) }
{
    if kind == Kind::Column || kind.is_table_part() {
        place_in_table(open, kind, in_forest)
    } else {
        Some(Place {
            left: closed_by(open, kind),
            implied: Implied::Nothing,
        })
    }
}

/// How many elements stay open where the end tag of a paragraph closes one. Constant.
pub fn behind_paragraph(open: &OpenElements<'_>) -> Option<usize>
    ensures { result ≡ option_map length (spec.behind (spec.has_kind k.Paragraph) within.Walls (reverse open.now)) }
{
    open.nearest(open.len()).paragraph
}

/// How many elements stay open where an item of a list closes the one before it, if it closes one. Constant.
pub fn behind_item(open: &OpenElements<'_>) -> Option<usize>
    ensures { result ≡ option_map length (spec.behind (spec.has_kind k.Item) within.Items (reverse open.now)) }
{
    open.nearest(open.len()).item
}

/// How many elements stay open where a term or a description closes the one before it, if it closes one. Constant.
pub fn behind_term(open: &OpenElements<'_>) -> Option<usize>
    ensures { result ≡ option_map length (spec.behind (spec.has_kind k.Term) within.Terms (reverse open.now)) }
{
    open.nearest(open.len()).term
}

fn is_in_foreign(open: &OpenElements<'_>) -> bool
    ensures { result ≡ list_any (spec.has_kind k.Foreign) (reverse open.now) }
{
    open.nearest(open.len()).foreign
}

/// Whether an element of this kind is opened, among these: not one that is raw, one that holds no elements, or svg, math or one
/// inside that closes itself.
#[tactic(auto, unfolding(crate::specs::TreeTable::opens))]
pub fn is_opened(kind: Kind, is_raw: bool, closes_itself: bool, open: &OpenElements<'_>) -> bool
    ensures { (q : List ℕ) → is_raw ≡ names.is_raw q → result ≡ spec.opens (record { kind = kind; name = q }) closes_itself (reverse open.now) }
{
    !(kind.is_void() || is_raw || closes_itself && (kind == Kind::Foreign || is_in_foreign(open)))
}
