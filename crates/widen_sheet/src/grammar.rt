//! What stands where in a selector that isn't judged.
ghost use Rattle.std.specs.Prelude.{◌≡◌, ◌≤◌, ◌<◌, true, if◌then◌else◌, not, length, drop, take, ◌-◌, option_map, IfOk, IfSome};
ghost use Rattle.sel_text.specs.Bytes as bytes;
ghost use Rattle.text_bytes.specs.Rests.{IsRest};
ghost use Rattle.widen_sheet.specs.Views.{front_of};
ghost use Rattle.widen_sheet.specs.Wide as spec;

use crate::brackets::behind_brackets;
use crate::tokens::Kind;
use sel_text::{SelFault, name_len, read_selector};
use std::alloc::Global;
use text_bytes::{blank_len, is_blank};
use tp_base::{AtomTable, NoMemory};

// The text behind a name.
#[tactic(auto, unfolding(crate::specs::Wide::behind_name), using(text_bytes::proofs::Rests::dropped))]
fn behind_name(text: &[u8]) -> Option<&[u8]>
    ensures gives { spec.behind_name text.now ≡ option_map (λ r. r.now) result }
    ensures rest { IfSome result (λ r. IsRest text.now r.now) }
    ensures shorter { IfSome result (λ r. length r.now < length text.now) }
{
    let len = name_len(text);
    if len > 0 {
        Some(text.split_at(len).1)
    } else {
        None
    }
}

// The text behind its first byte.
#[tactic(auto, using(text_bytes::proofs::Rests::behind_first, text_bytes::proofs::Rests::itself))]
fn behind_byte(text: &[u8]) -> &[u8]
    ensures gives { result.now ≡ drop 1 text.now }
    ensures rest { IsRest text.now result.now }
{
    match text.split_first() {
        None => text,
        Some((_, behind)) => behind,
    }
}

// The text behind what stands in `( )`, where that is next.
#[tactic(auto, unfolding(crate::specs::Wide::behind_call), using(text_bytes::proofs::Rests::of_rest, text_bytes::proofs::Rests::itself))]
fn behind_call(alloc: Global, text: &[u8]) -> Result<Option<&[u8]>, NoMemory>
    ensures gives { IfOk result (λ r. spec.behind_call text.now ≡ option_map (λ b. b.now) r) }
    ensures rest { IfOk result (λ r. IfSome r (λ b. IsRest text.now b.now)) }
{
    match text {
        [b'(', ..] => Ok(behind_brackets(alloc, b')', behind_byte(text))?),
        _ => Ok(Some(text)),
    }
}

fn behind_colon(text: &[u8]) -> &[u8]
    ensures gives { result.now ≡ (if bytes.begins_with 58 text.now then drop 1 text.now else text.now) }
    ensures rest { IsRest text.now result.now }
{
    match text {
        [b':', ..] => behind_byte(text),
        _ => text,
    }
}

// The text behind a pseudo part, from behind its first colon on.
#[tactic(auto, unfolding(crate::specs::Wide::behind_pseudo), using(text_bytes::proofs::Rests::of_rest))]
fn behind_pseudo(alloc: Global, text: &[u8]) -> Result<Option<&[u8]>, NoMemory>
    ensures gives { IfOk result (λ r. spec.behind_pseudo text.now ≡ option_map (λ b. b.now) r) }
    ensures rest { IfOk result (λ r. IfSome r (λ b. IsRest text.now b.now)) }
{
    match behind_name(behind_colon(text)) {
        None => Ok(None),
        Some(behind) => behind_call(alloc, behind),
    }
}

// The text behind a part that may stand anywhere in a compound.
#[tactic(auto, unfolding(crate::specs::Wide::behind_part), using(text_bytes::proofs::Rests::of_rest))]
fn behind_part(alloc: Global, text: &[u8]) -> Result<Option<&[u8]>, NoMemory>
    ensures gives { IfOk result (λ r. spec.behind_part text.now ≡ option_map (λ b. b.now) r) }
    ensures rest { IfOk result (λ r. IfSome r (λ b. IsRest text.now b.now)) }
    ensures shorter { IfOk result (λ r. IfSome r (λ b. length b.now < length text.now)) }
{
    let Some((first, behind)) = text.split_first() else {
        return Ok(None);
    };
    match *first {
        b'.' | b'#' => Ok(behind_name(behind)),
        b':' => behind_pseudo(alloc, behind),
        b'[' => Ok(behind_brackets(alloc, b']', behind)?),
        _ => Ok(None),
    }
}

// Whether a text alone is a selector that is judged. Linear in it.
#[tactic(auto, unfolding(crate::specs::Wide::is_judged))]
fn is_judged(alloc: Global, text: &[u8]) -> Result<bool, NoMemory>
    ensures { IfOk result (λ b. b ≡ spec.is_judged text.now) }
{
    let mut names = AtomTable::new(alloc);
    match read_selector(alloc, text, 0, text.len(), &mut names) {
        Ok(_) => Ok(true),
        Err(SelFault::Memory) => Err(NoMemory),
        Err(_) => Ok(false),
    }
}

/// The bytes of a text before a rest.
pub(crate) fn before<'a>(text: &'a [u8], rest: &[u8]) -> &'a [u8]
    requires { length rest.now ≤ length text.now }
    ensures { result.now ≡ spec.before text.now rest.now }
{
    text.split_at(text.len() - rest.len()).0
}

// What the part before a rest is.
fn kind_before(alloc: Global, text: &[u8], rest: &[u8]) -> Result<Kind, NoMemory>
    requires { length rest.now ≤ length text.now }
    ensures { IfOk result (λ k. k ≡ spec.kind_of_part (spec.before text.now rest.now)) }
{
    Ok(if is_judged(alloc, before(text, rest))? {
        Kind::Judged
    } else {
        Kind::Other
    })
}

// The text behind a part at the beginning of a compound.
#[tactic(auto, unfolding(crate::specs::Wide::behind_first))]
fn behind_first(alloc: Global, text: &[u8]) -> Result<Option<&[u8]>, NoMemory>
    ensures gives { IfOk result (λ r. spec.behind_first text.now ≡ option_map (λ b. b.now) r) }
    ensures rest { IfOk result (λ r. IfSome r (λ b. IsRest text.now b.now)) }
    ensures shorter { IfOk result (λ r. IfSome r (λ b. length b.now < length text.now)) }
{
    match text {
        [] => Ok(None),
        [b'*', ..] => Ok(Some(text.split_at(1).1)),
        _ if name_len(text) > 0 => Ok(behind_name(text)),
        _ => behind_part(alloc, text),
    }
}

// The text behind its blanks.
#[tactic(auto, unfolding(crate::specs::Wide::behind_blanks), using(text_bytes::proofs::Rests::dropped))]
fn behind_blanks(text: &[u8]) -> &[u8]
    ensures gives { result.now ≡ spec.behind_blanks text.now }
    ensures rest { IsRest text.now result.now }
{
    text.split_at(blank_len(text)).1
}

// What a combinator is, by what is behind its blanks.
fn combinator(text: &[u8]) -> Kind
    ensures { result ≡ spec.combinator text.now }
{
    match text {
        [b'>', ..] => Kind::Child,
        [b'+', ..] => Kind::Next,
        [b'~', ..] => Kind::Later,
        _ => Kind::Inside,
    }
}

// The text behind a combinator of a kind, from behind its first blanks on.
#[tactic(auto, using(text_bytes::proofs::Rests::of_rest, text_bytes::proofs::Rests::itself))]
fn behind_combinator(kind: Kind, text: &[u8]) -> &[u8]
    ensures gives { result.now ≡ spec.behind_combinator kind text.now }
    ensures rest { IsRest text.now result.now }
{
    match kind {
        Kind::Inside => text,
        _ => behind_blanks(behind_byte(text)),
    }
}

fn begins_combinator(text: &[u8]) -> bool
    ensures { result ≡ spec.begins_combinator text.now }
{
    match text {
        [] => false,
        [first, ..] => is_blank(*first) || *first == b'>' || *first == b'+' || *first == b'~',
    }
}

// The combinator that a text begins with, and the text behind it.
#[tactic(auto, unfolding(crate::specs::Wide::combinator_at), using(text_bytes::proofs::Rests::of_rest, crate::proofs::CombinatorLemmas::is_shorter))]
fn combinator_at(text: &[u8]) -> (Kind, &[u8])
    requires { spec.begins_combinator text.now ≡ true }
    ensures gives { front_of text.now result ≡ spec.combinator_at text.now }
    ensures rest { IsRest text.now result.1.now }
    ensures shorter { length result.1.now < length text.now }
{
    let at = behind_blanks(text);
    let kind = combinator(at);
    let rest = behind_combinator(kind, at);
    (kind, rest)
}

// The text behind a part; behind a combinator a compound is wanted.
fn behind_any(alloc: Global, wanted: bool, text: &[u8]) -> Result<Option<&[u8]>, NoMemory>
    ensures gives { IfOk result (λ r. (if wanted then spec.behind_first text.now else spec.behind_part text.now) ≡ option_map (λ b. b.now) r) }
    ensures rest { IfOk result (λ r. IfSome r (λ b. IsRest text.now b.now)) }
    ensures shorter { IfOk result (λ r. IfSome r (λ b. length b.now < length text.now)) }
{
    if wanted {
        behind_first(alloc, text)
    } else {
        behind_part(alloc, text)
    }
}

/// The kind of the token that a text begins with, and the text behind it; behind a combinator a compound is wanted.
/// Linear in the token.
#[tactic(auto, unfolding(crate::specs::Wide::token_at, crate::specs::Wide::part_before))]
pub(crate) fn token_at(
    alloc: Global,
    wanted: bool,
    text: &[u8],
) -> Result<Option<(Kind, &[u8])>, NoMemory>
    ensures gives { IfOk result (λ r. spec.token_at wanted text.now ≡ option_map (front_of text.now) r) }
    ensures rest { IfOk result (λ r. IfSome r (λ f. IsRest text.now f.1.now)) }
    ensures shorter { IfOk result (λ r. IfSome r (λ f. length f.1.now < length text.now)) }
{
    if !wanted && begins_combinator(text) {
        return Ok(Some(combinator_at(text)));
    }
    match behind_any(alloc, wanted, text)? {
        None => Ok(None),
        Some(rest) => Ok(Some((kind_before(alloc, text, rest)?, rest))),
    }
}
