//! Fronts: what a text begins with, where a rule may begin.
ghost use Rattle.std.specs.Prelude.{◌≡◌, ◌≤◌, ◌<◌, false, length, drop, IfOk};
ghost use Rattle.std.specs.List.{list_any};
ghost use Rattle.text_bytes.specs.Rests.{IsRest};
ghost use Rattle.css_read.specs.Rules as spec;
ghost use Rattle.css_read.specs.Units.{is_plain};
ghost use Rattle.css_read.specs.Fronts.{front_view, list_len, IsStart};

use crate::units::{begins_gap, behind_unit, from_first};
use sel_text::{is_word, name_len};
use std::alloc::{AllocError, Global};

/// What a text begins with, where a rule may begin.
#[derive(Clone, Copy, Debug, PartialEq, Eq)]
pub enum Front {
    /// White space, a comment, or something without a list of selectors that is read.
    Passed,
    /// The head of an at-rule, up to the `{` of its block that holds rules.
    Opens,
    /// The `}` of such a block.
    Closes,
    /// A rule whose list of selectors is this many bytes long.
    Styles(usize),
}

fn list_ends(inside: bool) -> &'static [u8]
    ensures bytes { result.now ≡ spec.list_ends inside }
    ensures apart { list_any is_plain result.now ≡ false }
{
    if inside { b"{}" } else { b"{" }
}

fn prelude_ends(inside: bool) -> &'static [u8]
    ensures bytes { result.now ≡ spec.prelude_ends inside }
    ensures apart { list_any is_plain result.now ≡ false }
{
    if inside { b";{}" } else { b";{" }
}

// The text behind a block. The given text begins behind the block's `{`.
#[tactic(auto, unfolding(crate::specs::Rules::behind_block), using(text_bytes::proofs::Rests::of_rest))]
fn behind_block(alloc: Global, text: &[u8]) -> Result<&[u8], AllocError>
    ensures gives { IfOk result (λ r. r.now ≡ spec.behind_block text.now) }
    ensures rest { IfOk result (λ r. IsRest text.now r.now) }
{
    let end = from_first(alloc, b"}", text)?;
    Ok(behind_byte(end))
}

// The text without its first byte.
#[tactic(auto, using(text_bytes::proofs::Rests::behind_first, text_bytes::proofs::Rests::itself))]
fn behind_byte(text: &[u8]) -> &[u8]
    ensures gives { result.now ≡ drop 1 text.now }
    ensures rest { IsRest text.now result.now }
{
    match text.split_first() {
        None => text,
        Some((_, behind)) => behind,
    }
}

// Whether at-rules with this name have blocks that hold rules.
#[tactic(auto, unfolding(crate::specs::Rules::holds_rules))]
fn holds_rules(name: &[u8]) -> bool
    ensures { result ≡ spec.holds_rules name.now }
{
    is_word(name, b"media")
        || is_word(name, b"supports")
        || is_word(name, b"layer")
        || is_word(name, b"container")
}

// The front of an at-rule, from the text behind its `{`.
fn at_block(alloc: Global, holds: bool, text: &[u8]) -> Result<(Front, &[u8]), AllocError>
    ensures gives { IfOk result (λ f. front_view f ≡ spec.at_block holds text.now) }
    ensures rest { IfOk result (λ f. IsRest text.now f.1.now) }
    ensures within { IfOk result (λ f. list_len f.0 ≤ length text.now) }
{
    if holds {
        return Ok((Front::Opens, text));
    }
    let rest = behind_block(alloc, text)?;
    Ok((Front::Passed, rest))
}

// The front of an at-rule, from the text behind its `@`.
#[tactic(auto, unfolding(crate::specs::Rules::at_rule), using(text_bytes::proofs::Rests::of_rest))]
fn at_rule(alloc: Global, inside: bool, text: &[u8]) -> Result<(Front, &[u8]), AllocError>
    ensures gives { IfOk result (λ f. front_view f ≡ spec.at_rule inside text.now) }
    ensures rest { IfOk result (λ f. IsRest text.now f.1.now) }
    ensures within { IfOk result (λ f. list_len f.0 ≤ length text.now) }
{
    let end = from_first(alloc, prelude_ends(inside), text)?;
    if end.starts_with(b"{") {
        let holds = holds_rules(text.split_at(name_len(text)).0);
        let (front, rest) = at_block(alloc, holds, behind_byte(end))?;
        Ok((front, rest))
    } else if end.starts_with(b";") {
        Ok((Front::Passed, behind_byte(end)))
    } else {
        Ok((Front::Passed, end))
    }
}

// The front of a list of selectors with its block. Without a block it is passed over.
#[tactic(auto, unfolding(crate::specs::Rules::style_rule), using(crate::proofs::Lists::shorter, text_bytes::proofs::Rests::of_rest))]
fn style_rule(alloc: Global, inside: bool, text: &[u8]) -> Result<(Front, &[u8]), AllocError>
    requires { IsStart inside text.now }
    ensures gives { IfOk result (λ f. front_view f ≡ spec.style_rule inside text.now) }
    ensures rest { IfOk result (λ f. IsRest text.now f.1.now) }
    ensures shorter { IfOk result (λ f. length f.1.now < length text.now) }
    ensures within { IfOk result (λ f. list_len f.0 ≤ length text.now) }
{
    let end = from_first(alloc, list_ends(inside), text)?;
    if !end.starts_with(b"{") {
        return Ok((Front::Passed, end));
    }
    let rest = behind_block(alloc, behind_byte(end))?;
    Ok((Front::Styles(text.len() - end.len()), rest))
}

/// The front of a text, and the text behind it. `inside` tells whether a block that holds rules is open. Linear in the bytes up
/// to that text.
#[tactic(auto, unfolding(crate::specs::Rules::next_front), using(text_bytes::proofs::Rests::of_rest, text_bytes::proofs::Rests::behind_first, text_bytes::proofs::Rests::itself))]
pub fn next_front(alloc: Global, inside: bool, text: &[u8]) -> Result<(Front, &[u8]), AllocError>
    requires { 0 < length text.now }
    ensures gives { IfOk result (λ f. front_view f ≡ spec.next_front inside text.now) }
    ensures rest { IfOk result (λ f. IsRest text.now f.1.now) }
    ensures shorter { IfOk result (λ f. length f.1.now < length text.now) }
    ensures within { IfOk result (λ f. list_len f.0 ≤ length text.now) }
{
    let Some((first, behind)) = text.split_first() else {
        return Ok((Front::Passed, text));
    };
    if begins_gap(text) {
        Ok((Front::Passed, behind_unit(text)))
    } else if inside && *first == b'}' {
        Ok((Front::Closes, behind))
    } else if *first == b'@' {
        let (front, rest) = at_rule(alloc, inside, behind)?;
        Ok((front, rest))
    } else {
        style_rule(alloc, inside, text)
    }
}

/// The number of open blocks that hold rules, behind a front.
pub fn depth_after(depth: usize, front: Front) -> usize
    requires { depth < usize.MAX }
    ensures { result ≡ spec.depth_after depth front }
{
    match front {
        Front::Opens => depth + 1,
        Front::Closes => depth.saturating_sub(1),
        _ => depth,
    }
}
