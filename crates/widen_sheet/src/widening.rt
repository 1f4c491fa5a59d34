//! A sheet whose selectors that aren't judged have their parts in marks.
ghost use Rattle.std.specs.Prelude.{◌≡◌, ◌≤◌, ◌+◌, ◌++◌, ◌==◌, nat_le, Some, length, map, OnOk, IfOk};
ghost use Rattle.std.specs.List.{list_any};
ghost use Rattle.sel_text.specs.declared.faults.TheConstants.{MOST_PARTS as most_parts};
ghost use Rattle.css_read.specs.Views.{item_of, outcome_of, sheet_of};
ghost use Rattle.tp_base.specs.Outcomes.{GivesUnless};
ghost use Rattle.widen_sheet.specs.Views.{kinds_of, wide_view};
ghost use Rattle.widen_sheet.specs.Wide as spec;

use crate::faults::WidenFault;
use crate::marks::{goes, is_sibling, put_tokens};
use crate::parts::{between, from_offset};
use crate::tokens::{Token, is_combinator, tokens_of};
use css_read::{Outcome, Sheet, SheetFault, SheetItem, read_sheet};
use sel_text::{MOST_PARTS, Skip};
use std::alloc::Global;
use tp_base::{AtomTable, MOST_BYTES, NoMemory};

/// Whether some bytes stand anywhere in a text. Linear in the text, for each of the bytes.
#[tactic(auto, unfolding(crate::specs::Wide::has))]
pub(crate) fn has(bytes: &[u8], text: &[u8]) -> bool
    ensures { result ≡ spec.has bytes.now text.now }
{
    let mut rest = text;
    'bytes: while let Some((_, behind)) = rest.split_first() {
        if rest.starts_with(bytes) {
            return true;
        }
        rest = behind;
    }
    false
}

fn has_escape(text: &[u8]) -> bool
    ensures { result ≡ list_any (λ b. b == 92) text.now }
{
    text.iter().any(|b| *b == b'\\')
}

// Whether a text has no escape and no end of a comment.
#[tactic(auto, unfolding(crate::specs::Wide::is_plain))]
fn is_plain(text: &[u8]) -> bool
    ensures { result ≡ spec.is_plain text.now }
{
    !has_escape(text) && !has(b"*/", text)
}

fn can_widen(why: Skip) -> bool
    ensures { result ≡ spec.can_widen why }
{
    matches!(why, Skip::Sibling | Skip::Pseudo | Skip::Attribute)
}

// How many combinators stay.
fn joints(tokens: &[Token]) -> usize
    ensures count { result ≡ spec.joints (kinds_of tokens.now) }
    ensures within { result ≤ length tokens.now }
{
    let mut count = 0;
    let mut rest = tokens;
    'tokens: while let Some((token, later)) = rest.split_first() {
        if is_combinator(token.kind) && !is_sibling(token.kind) {
            count += 1;
        }
        rest = later;
    }
    count
}

// Whether a selector with so few compounds is read as is left of the tokens.
fn is_short(tokens: &[Token]) -> bool
    ensures { result ≡ nat_le (spec.compounds_left (kinds_of tokens.now)) most_parts }
{
    let most = if goes(tokens) {
        MOST_PARTS - 2
    } else {
        MOST_PARTS - 1
    };
    joints(tokens) <= most
}

/// Puts a text behind another one.
pub(crate) fn put(out: &mut Vec<u8>, text: &[u8]) -> Result<(), NoMemory>
    ensures { OnOk result (out.new.items ≡ out.old.items ++ text.now) }
{
    out.extend_from_slice(text)?;
    Ok(())
}

// Puts the tokens of a text with their marks, if the compounds that stay are few enough.
fn put_short(out: &mut Vec<u8>, text: &[u8], tokens: &[Token]) -> Result<(), NoMemory>
    ensures { OnOk result (out.new.items ≡ out.old.items ++ spec.widened_text text.now (Some (wide_view text.now tokens.now))) }
{
    if is_short(tokens) {
        put_tokens(out, text, tokens)
    } else {
        put(out, text)
    }
}

// Puts a selector that isn't judged, with its marks, behind another text.
fn put_wide(out: &mut Vec<u8>, text: &[u8]) -> Result<(), NoMemory>
    ensures { OnOk result (out.new.items ≡ out.old.items ++ spec.widened_text text.now (spec.wide_of text.now)) }
{
    match tokens_of(*out.allocator(), text)? {
        None => put(out, text),
        Some(tokens) => put_short(out, text, &tokens),
    }
}

// Whether a selector may be widened.
fn widens(outcome: &Outcome, text: &[u8]) -> bool
    ensures { result ≡ spec.widens (outcome_of outcome.now) text.now }
{
    match outcome {
        Outcome::Judged(_) => false,
        Outcome::Skipped(why, _) => can_widen(*why) && is_plain(text),
    }
}

// Puts a selector of a sheet behind another text, with its marks where it is widened.
#[tactic(auto, unfolding(crate::specs::Wide::widened_item))]
fn put_item(out: &mut Vec<u8>, text: &[u8], item: &SheetItem) -> Result<(), NoMemory>
    ensures { OnOk result (out.new.items ≡ out.old.items ++ spec.widened_item text.now (item_of item.now)) }
{
    let own = between(text, item.from, item.to);
    if widens(&item.outcome, own) {
        put_wide(out, own)
    } else {
        put(out, own)
    }
}

/// Puts a text with its selectors widened behind another text. Linear in what is put.
#[tactic(auto, using(crate::proofs::ItemSteps::goes_on, crate::proofs::ItemSteps::ends))]
fn put_items(out: &mut Vec<u8>, text: &[u8], items: &[SheetItem]) -> Result<(), NoMemory>
    ensures { OnOk result (out.new.items ≡ out.old.items ++ spec.widened_from text.now 0 (map item_of items.now)) }
{
    let mut at = 0;
    let mut rest = items;
    'items: while let Some((item, later)) = rest.split_first() {
        put(out, between(text, at, item.from))?;
        put_item(out, text, item)?;
        at = item.to;
        rest = later;
    }
    put(out, from_offset(text, at))
}

// A sheet's text with its selectors widened that aren't judged, where they can be. Linear in it, in time and in memory.
#[tactic(auto, unfolding(crate::specs::Wide::widened))]
fn widened_of(alloc: Global, text: &[u8], sheet: &Sheet) -> Result<Vec<u8>, NoMemory>
    ensures { IfOk result (λ v. v.items ≡ spec.widened text.now (sheet_of sheet.now)) }
{
    let mut out = Vec::with_capacity(alloc, text.len())?;
    put_items(&mut out, text, sheet.items.items())?;
    Ok(out)
}

// The text from the first place on where some bytes stand. Linear in the text, for each of the bytes.
#[tactic(auto, unfolding(crate::specs::Wide::from_bytes), using(text_bytes::proofs::Rests::itself))]
fn from_bytes<'a>(bytes: &[u8], text: &'a [u8]) -> &'a [u8]
    ensures gives { result.now ≡ spec.from_bytes bytes.now text.now }
    ensures within { length result.now ≤ length text.now }
{
    let mut rest = text;
    'bytes: while let Some((_, behind)) = rest.split_first() {
        if rest.starts_with(bytes) {
            return rest;
        }
        rest = behind;
    }
    rest
}

// A sheet that is read, with its selectors widened.
#[tactic(auto, unfolding(crate::specs::Wide::widen_sheet))]
fn widen_sheet(alloc: Global, text: &[u8], sheet: &Sheet) -> Result<Vec<u8>, WidenFault>
    ensures { GivesUnless WidenFault.Memory (λ v. v.items) result (spec.widen_sheet text.now (sheet_of sheet.now)) }
{
    let marked = from_bytes(b"/*~", text);
    if !marked.is_empty() {
        return Err(WidenFault::HasMark(text.len() - marked.len()));
    }
    let out = widened_of(alloc, text, sheet)?;
    if out.len() > MOST_BYTES as usize {
        return Err(WidenFault::TooLarge);
    }
    Ok(out)
}

/// A sheet with its selectors widened that aren't judged, where they can be. Linear in it, in time and in memory.
#[tactic(auto, unfolding(crate::specs::Wide::widen))]
pub fn widen(alloc: Global, text: &[u8]) -> Result<Vec<u8>, WidenFault>
    ensures { GivesUnless WidenFault.Memory (λ v. v.items) result (spec.widen text.now) }
{
    let mut names = AtomTable::new(alloc);
    match read_sheet(alloc, text, &mut names) {
        Ok(sheet) => widen_sheet(alloc, text, &sheet),
        Err(SheetFault::Memory) => Err(WidenFault::Memory),
        Err(fault) => Err(WidenFault::OfSheet(fault)),
    }
}
