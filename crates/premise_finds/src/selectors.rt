//! Selectors of which a browser may not know a part.
ghost use Rattle.std.specs.Prelude.{◌≡◌, ◌≤◌, ◌+◌, ◌-◌, ◌++◌, [], not, flat_map, length, slice_range, IfOk, OnOk};
ghost use Rattle.std.specs.Result.{is_ok};
ghost use Rattle.css_read.specs.Fronts.{list_len};
ghost use Rattle.css_read.specs.Pieces.{pieces};
ghost use Rattle.css_read.specs.Reading.{pieces_of};
ghost use Rattle.css_read.specs.Rules.{rules_at};
ghost use Rattle.sel_text.specs.Lists as lists;
ghost use Rattle.premise_finds.specs.declared.names.Name.TheVariants as name;
ghost use Rattle.premise_finds.specs.Findings.{when, finding};
ghost use Rattle.premise_finds.specs.Selectors as spec;

use crate::bytes::has_somewhere;
use crate::findings::{Finding, add_when};
use crate::names::Name;
use css_read::{Front, Range, depth_after, first_piece, next_front};
use sel_text::{SelFault, read_strict_list};
use std::alloc::Global;
use text_bytes::behind_order_mark;
use tp_base::{AtomTable, NoMemory};

// Whether a selector is judged with nothing dropped. Linear in it.
fn is_read(alloc: Global, text: &[u8]) -> Result<bool, NoMemory>
    ensures { IfOk result (λ is. is ≡ is_ok (lists.read_strict_list text.now []).1) }
{
    let mut atoms = AtomTable::new(alloc);
    match read_strict_list(alloc, text, &mut atoms) {
        Ok(_) => Ok(true),
        Err(SelFault::Memory) => Err(NoMemory),
        Err(_) => Ok(false),
    }
}

#[tactic(auto, unfolding(crate::specs::Selectors::is_as_written))]
fn is_as_written(alloc: Global, text: &[u8]) -> Result<bool, NoMemory>
    ensures { IfOk result (λ is. is ≡ spec.is_as_written text.now) }
{
    let is_read = is_read(alloc, text)?;
    Ok(is_read && !has_somewhere(b"/*", text))
}

// Adds what is found at a selector that stands at a place.
fn add_selector(found: &mut Vec<Finding>, selector: &[u8], piece: Range) -> Result<(), NoMemory>
    ensures { OnOk result (found.new.items ≡ found.old.items ++ when (not (spec.is_as_written selector.now)) (finding name.UnknownToSome piece.from piece.to)) }
{
    let alloc = *found.allocator();
    let is = is_as_written(alloc, selector)?;
    add_when(found, !is, Name::UnknownToSome, piece.from, piece.to)?;
    Ok(())
}

// Adds what is found in a list of selectors that goes from one offset to another.
#[tactic(auto, using(crate::proofs::SelectorSteps::only_one, crate::proofs::SelectorSteps::first_of_more, crate::proofs::SelectorSteps::one_more, crate::proofs::SelectorSteps::no_more, text_bytes::proofs::Rests::of_rest))]
fn add_list(found: &mut Vec<Finding>, text: &[u8], list: Range) -> Result<(), NoMemory>
    requires order { list.from ≤ list.to }
    requires within { list.to ≤ length text.now }
    ensures { OnOk result (found.new.items ≡ found.old.items ++ spec.found_in_list text.now (pieces list.to (slice_range text.now list.from list.to))) }
{
    let alloc = *found.allocator();
    let (first, mut rest) = first_piece(alloc, list.to, &text[list.from..list.to])?;
    if rest.is_empty() {
        return Ok(());
    }
    add_selector(found, &text[first.from..first.to], first)?;
    'commas: while let Some((_, behind)) = rest.split_first() {
        let (piece, left) = first_piece(alloc, list.to, behind)?;
        add_selector(found, &text[piece.from..piece.to], piece)?;
        rest = left;
    }
    Ok(())
}

// Adds what is found in the rule that goes from one offset to another, if it is one.
fn add_rule(
    found: &mut Vec<Finding>,
    text: &[u8],
    front: Front,
    place: Range,
) -> Result<(), NoMemory>
    requires within { place.from + list_len front ≤ length text.now }
    ensures { OnOk result (found.new.items ≡ found.old.items ++ flat_map (λ r. spec.found_in_list text.now (pieces_of text.now r)) (rules_at front place.from place.to)) }
{
    let Front::Styles(len) = front else {
        return Ok(());
    };
    let list = Range {
        from: place.from,
        to: place.from + len,
    };
    add_list(found, text, list)
}

/// What is found in the lists of a sheet's rules. Linear in the sheet, in time and in memory.
#[tactic(auto, using(crate::proofs::SelectorSteps::begins, crate::proofs::SelectorSteps::goes_on, crate::proofs::SelectorSteps::ends, text_bytes::proofs::Rests::of_rest))]
pub(crate) fn selector_findings(alloc: Global, text: &[u8]) -> Result<Vec<Finding>, NoMemory>
    ensures { IfOk result (λ f. f.items ≡ spec.selector_findings text.now) }
{
    let mut found = Vec::new(alloc);
    let mut depth = 0;
    let mut rest = behind_order_mark(text);
    'fronts: while !rest.is_empty() {
        let (front, behind) = next_front(alloc, depth > 0, rest)?;
        let place = Range {
            from: text.len() - rest.len(),
            to: text.len() - behind.len(),
        };
        add_rule(&mut found, text, front, place)?;
        depth = depth_after(depth, front);
        rest = behind;
    }
    Ok(found)
}
