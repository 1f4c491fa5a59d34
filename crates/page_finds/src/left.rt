//! Elements that are closed by something else than their own end tags.
ghost use Rattle.std.specs.Prelude.{◌≡◌, ◌++◌, if◌then◌else◌, length, option_map, IfOk, OnOk};
ghost use Rattle.html_tokens.specs.Bytes.{lowered};
ghost use Rattle.html_tokens.specs.Views.{token_of};
ghost use Rattle.html_table.specs.Elements.{kind_of, is_root};
ghost use Rattle.html_table.specs.Views.{element_of};
ghost use Rattle.page_finds.specs.Trees as spec;

use crate::tree_names::may_be_omitted;
use html_table::{Element, Ending, OpenElements, behind_paragraph, end_tag, place_for};
use html_tokens::{Token, is_same_name};
use premise_finds::{Finding, Name, add_when};
use std::alloc::AllocError;
use tp_base::NoMemory;

/// The tag of an open element, from its `<` to behind its `>`.
#[derive(Clone, Copy, Debug)]
pub(crate) struct Opened {
    pub(crate) from: usize,
    pub(crate) to: usize,
}

fn kept_at_start(name: &[u8], elements: &OpenElements<'_>) -> usize
    ensures { result ≡ (if is_root (kind_of (lowered name.now)) then length elements.now else spec.kept_at_start (spec.place_in (kind_of (lowered name.now)) elements.now) elements.now) }
{
    let kind = elements.element(name).0.kind;
    if kind.is_root() {
        return elements.len();
    }
    match place_for(elements, kind, false) {
        None => elements.len(),
        Some(place) => place.left,
    }
}

fn kept_by_ending(ending: Ending, elements: &OpenElements<'_>) -> usize
    ensures { result ≡ spec.kept_by_ending ending elements.now }
{
    match ending {
        Ending::Nothing => elements.len(),
        Ending::Paragraph => behind_paragraph(elements).unwrap_or(elements.len()),
        Ending::Leaves(left) => left,
    }
}

/// How many of the open elements stay open behind a token.
pub(crate) fn kept(token: Option<Token<'_>>, elements: &OpenElements<'_>) -> Result<usize, NoMemory>
    ensures { IfOk result (λ n. n ≡ spec.kept (option_map token_of token.entry) elements.now) }
{
    match token {
        None | Some(Token::Text(_)) => Ok(elements.len()),
        Some(Token::Start(tag)) => Ok(kept_at_start(tag.name, elements)),
        Some(Token::End(name, _)) => Ok(kept_by_ending(end_tag(elements, name)?, elements)),
    }
}

fn is_stop(token: Option<Token<'_>>) -> bool
    ensures { result ≡ spec.is_stop (option_map token_of token.entry) }
{
    matches!(token, Some(Token::End(..)))
}

fn first_left(by_stop: bool, kept: usize, count: usize) -> usize
    ensures { result ≡ spec.first_left by_stop kept count }
{
    if by_stop && kept < count {
        kept + 1
    } else {
        kept
    }
}

#[tactic(auto, unfolding(crate::specs::Trees::found_left_at), using(crate::proofs::TagLists::two))]
fn add_left_at(
    found: &mut Vec<Finding>,
    element: Element<'_>,
    tag: Opened,
    by_end: bool,
) -> Result<(), AllocError>
    ensures { OnOk result (found.new.items ≡ found.old.items ++ spec.found_left_at by_end (element_of element.entry) tag) }
{
    let is_left = !may_be_omitted(element.name);
    add_when(found, is_left, Name::LeftOpen, tag.from, tag.to)?;
    let is_form = !by_end && is_same_name(element.name, b"form");
    add_when(found, is_form, Name::FormLeftOpen, tag.from, tag.to)
}

/// Adds what is found of the elements from one on, with their tags, where something else closes them. Linear in these.
#[tactic(auto, using(crate::proofs::LeftSteps::no_element))]
pub(crate) fn add_left(
    found: &mut Vec<Finding>,
    elements: &OpenElements<'_>,
    tags: &[Opened],
    from: usize,
    by_end: bool,
) -> Result<(), AllocError>
    ensures { OnOk result (found.new.items ≡ found.old.items ++ spec.left_from by_end from elements.now tags.now) }
{
    let mut index = from;
    'elements: while index < elements.len() {
        let Some(element) = elements.get(index) else {
            return Ok(());
        };
        let Some(tag) = tags.get(index) else {
            return Ok(());
        };
        add_left_at(found, element, *tag, by_end)?;
        index += 1;
    }
    Ok(())
}

/// Adds what a token leaves open, of which so many elements stay open.
#[tactic(auto, unfolding(crate::specs::Trees::found_closed))]
pub(crate) fn add_closed(
    found: &mut Vec<Finding>,
    elements: &OpenElements<'_>,
    tags: &[Opened],
    token: Option<Token<'_>>,
    kept: usize,
) -> Result<(), AllocError>
    requires { kept ≡ spec.kept (option_map token_of token) elements.now }
    ensures { OnOk result (found.new.items ≡ found.old.items ++ spec.found_closed (option_map token_of token.entry) elements.now tags.now) }
{
    let first = first_left(is_stop(token), kept, elements.len());
    add_left(found, elements, tags, first, false)
}

/// Goes with the tags past a token that leaves so many elements open and opens others, up to a count.
#[tactic(auto, unfolding(crate::specs::Trees::tags_after), using(crate::proofs::LeftSteps::one_tag, crate::proofs::LeftSteps::all_tags))]
pub(crate) fn open_tags(
    tags: &mut Vec<Opened>,
    tag: Opened,
    kept: usize,
    count: usize,
) -> Result<(), AllocError>
    ensures { OnOk result (tags.new.items ≡ spec.tags_after tag kept count tags.old.items) }
{
    tags.truncate(kept);
    'opened: while tags.len() < count {
        tags.push(tag)?;
    }
    Ok(())
}
