//! A text with what stood in the place of each mark.
ghost use Rattle.std.specs.Prelude.{◌≡◌, ◌≢◌, ◌≤◌, ◌<◌, ◌&&◌, not, Err, length, option_map, IfOk, IfErr, IfSome};
ghost use Rattle.sel_text.specs.Bytes as bytes;
ghost use Rattle.text_bytes.specs.Rests.{IsRest};
ghost use Rattle.tp_base.specs.Outcomes.{GivesUnless};
ghost use Rattle.widen_sheet.specs.Views.{unmarked_of};
ghost use Rattle.widen_sheet.specs.Wide as spec;

use crate::faults::BackFault;
use crate::grammar::before;
use crate::marks::Mark;
use crate::widening::put;
use sel_text::behind_close;
use std::alloc::Global;

fn mark_by(letter: u8) -> Option<Mark>
    ensures { result ≡ spec.mark_by letter }
{
    match letter {
        b'p' => Some(Mark::Part),
        b'd' => Some(Mark::Inside),
        b'c' => Some(Mark::Child),
        _ => None,
    }
}

// The other end of a mark, behind its comment.
fn end_of(mark: Mark) -> &'static [u8]
    ensures { result.now ≡ spec.end_of mark }
{
    match mark {
        Mark::Part => b":hover",
        Mark::Inside => b":hover ",
        Mark::Child => b":hover>",
    }
}

// What stands in a comment up to its `~*/`, and what is behind the mark's other end.
#[tactic(auto, unfolding(crate::specs::Wide::ended_mark), using(text_bytes::proofs::Rests::dropped))]
fn ended_mark<'a>(comment: &'a [u8], behind: &'a [u8], end: &[u8]) -> Option<(&'a [u8], &'a [u8])>
    ensures gives { spec.ended_mark comment.now behind.now end.now ≡ option_map unmarked_of result }
    ensures rest { IfSome result (λ m. IsRest behind.now m.1.now) }
{
    let (own, closing) = comment.split_at(comment.len().saturating_sub(3));
    if closing == b"~*/".as_slice() && behind.starts_with(end) {
        Some((own, behind.split_at(end.len()).1))
    } else {
        None
    }
}

// A mark, from behind its letter on.
#[tactic(auto, using(text_bytes::proofs::Rests::of_rest))]
fn with_end(text: &[u8], mark: Option<Mark>) -> Option<(&[u8], &[u8])>
    ensures gives { spec.with_end text.now mark ≡ option_map unmarked_of result }
    ensures rest { IfSome result (λ m. IsRest text.now m.1.now) }
{
    match mark {
        None => None,
        Some(mark) => {
            let behind = behind_close(text);
            ended_mark(before(text, behind), behind, end_of(mark))
        }
    }
}

// A mark, from behind its `:hover/*~` on.
#[tactic(auto, using(text_bytes::proofs::Rests::of_rest, text_bytes::proofs::Rests::behind_first))]
fn mark_from(text: &[u8]) -> Option<(&[u8], &[u8])>
    ensures gives { spec.mark_from text.now ≡ option_map unmarked_of result }
    ensures rest { IfSome result (λ m. IsRest text.now m.1.now) }
{
    let (letter, behind) = text.split_first()?;
    with_end(behind, mark_by(*letter))
}

// What stood in the place of the mark that a text begins with, and the text behind the mark.
#[tactic(auto, unfolding(crate::specs::Wide::mark_at), using(text_bytes::proofs::Rests::of_rest, text_bytes::proofs::Rests::dropped))]
fn mark_at(text: &[u8]) -> Option<(&[u8], &[u8])>
    ensures gives { spec.mark_at text.now ≡ option_map unmarked_of result }
    ensures rest { IfSome result (λ m. IsRest text.now m.1.now) }
    ensures shorter { IfSome result (λ m. length m.1.now < length text.now) }
{
    if text.starts_with(b":hover/*~") {
        mark_from(text.split_at(9).1)
    } else {
        None
    }
}

fn opens_mark(text: &[u8]) -> bool
    ensures { result ≡ spec.opens_mark text.now }
{
    text.starts_with(b"/*~")
}

// Whether a `/*~` is next that ends no comment.
fn is_alone(star: bool, text: &[u8]) -> bool
    ensures { result ≡ (spec.opens_mark text.now && not star) }
{
    opens_mark(text) && !star
}

fn begins_star(text: &[u8]) -> bool
    ensures { result ≡ bytes.begins_with 42 text.now }
{
    match text {
        [] => false,
        [first, ..] => *first == b'*',
    }
}

// Puts what the text begins with behind another text: what stood in the place of a mark, or a byte. A `*` stands before the
// text, or not.
#[tactic(auto, using(text_bytes::proofs::Rests::behind_first))]
fn step<'a>(
    out: &mut Vec<u8>,
    size: usize,
    star: bool,
    text: &'a [u8],
) -> Result<&'a [u8], BackFault>
    requires some { 0 < length text.now }
    requires within { length text.now ≤ size }
    ensures gives { IfOk result (λ r. spec.behind_text out.new.items (spec.back_from size (bytes.begins_with 42 text.now) 0 r.now) ≡ spec.behind_text out.old.items (spec.back_from size star 0 text.now)) }
    ensures fault { IfErr result (λ e. e ≢ BackFault.Memory → spec.back_from size star 0 text.now ≡ Err e) }
    ensures rest { IfOk result (λ r. IsRest text.now r.now) }
    ensures shorter { IfOk result (λ r. length r.now < length text.now) }
{
    if let Some((own, behind)) = mark_at(text) {
        put(out, own)?;
        return Ok(behind);
    }
    if is_alone(star, text) {
        return Err(BackFault::NoMark(size - text.len()));
    }
    let (first, behind) = text.split_at(1);
    put(out, first)?;
    Ok(behind)
}

/// A text with what stood in the place of each mark. The other bytes are any bytes. Linear in it, in time and in memory.
#[tactic(auto, unfolding(crate::specs::Wide::back), using(crate::proofs::BackSteps::begins, crate::proofs::BackSteps::ends, crate::proofs::BackSteps::failed, text_bytes::proofs::Rests::of_rest))]
pub fn put_back(alloc: Global, text: &[u8]) -> Result<Vec<u8>, BackFault>
    ensures { GivesUnless BackFault.Memory (λ v. v.items) result (spec.back text.now) }
{
    let mut out = Vec::with_capacity(alloc, text.len())?;
    let mut star = false;
    let mut rest = text;
    'bytes: while !rest.is_empty() {
        let starred = begins_star(rest);
        let behind = step(&mut out, text.len(), star, rest)?;
        star = starred;
        rest = behind;
    }
    Ok(out)
}
