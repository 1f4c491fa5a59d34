//! Texts in quotes, and the parts of a template.
ghost use Rattle.std.specs.Prelude.{◌≡◌, ◌≤◌, ◌+◌, ◌&&◌, ◌++◌, ◌∷◌, length, IfOk, OnOk, IfSome};
ghost use Rattle.std.specs.Option.{option_map};
ghost use Rattle.text_bytes.specs.Rests.{IsRest};
ghost use Rattle.js_scan.specs.Texts.{begins_template as template_begins};
ghost use Rattle.js_scan.specs.Views.{meant};
ghost use Rattle.code_scan.specs.Texts as spec;
ghost use Rattle.code_scan.specs.Views.{part_in, quoted_of};

use crate::escapes::wide_escape;
use js_scan::{Meaning, plain_len};
use std::alloc::Global;
use tp_base::{Items, NoMemory};

/// What ends a text: its closing quote, a hole of a template, or else that nothing follows that can belong to it.
#[derive(Clone, Copy, Debug, PartialEq, Eq)]
pub(crate) enum Ending {
    Closed,
    Hole,
    Cut,
}

/// A text behind its opening quote: its letters, the bytes behind it, and whether it is surely meant so.
#[derive(Drop)]
pub(crate) struct Quoted<'t> {
    pub letters: Items<u8>,
    pub rest: &'t [u8],
    pub ending: Ending,
    pub sure: bool,
}

/// What the next part of a text stands for, which may be itself.
#[derive(Clone, Copy)]
pub(crate) struct Next {
    pub meaning: Option<Meaning>,
    pub len: usize,
    pub sure: bool,
}

fn begins_template(quote: u8, text: &[u8]) -> bool
    ensures { result ≡ template_begins quote text.now }
{
    quote == b'`' && text.starts_with(b"${")
}

#[tactic(auto, unfolding(crate::specs::Texts::next_part))]
fn next_part(first: u8, behind: &[u8]) -> Next
    ensures gives { spec.next_part first behind.now ≡ part_in (first ∷ behind.now) result }
    ensures within { (1 ≤ result.len) × (result.len ≤ length behind.now + 1) }
{
    if first == b'\\' {
        let escape = wide_escape(behind);
        Next {
            meaning: Some(escape.meaning),
            len: escape.len,
            sure: escape.sure,
        }
    } else {
        Next {
            meaning: None,
            len: 1 + plain_len(behind),
            sure: true,
        }
    }
}

fn push(letters: &mut Vec<u8>, meaning: Option<Meaning>, front: &[u8]) -> Result<(), NoMemory>
    ensures { OnOk result (letters.new.items ≡ letters.old.items ++ meant meaning front.now) }
{
    match meaning {
        None => letters.extend_from_slice(front)?,
        Some(Meaning::Nothing) => {}
        Some(Meaning::Byte(b)) => letters.push(b)?,
        Some(Meaning::Char(c)) => {
            let mut buffer = [0; 4];
            letters.extend_from_slice(c.encode_utf8(&mut buffer).as_bytes())?;
        }
    }
    Ok(())
}

fn both(first: bool, second: bool) -> bool
    ensures { result ≡ (first && second) }
{
    first && second
}

// What ends a text here, if anything does, and the bytes behind that.
#[tactic(auto, unfolding(crate::specs::Texts::end_of))]
fn end_of(quote: u8, text: &[u8]) -> Option<(Ending, &[u8])>
    ensures gives { spec.end_of quote text.now ≡ option_map (λ e. (e.0, e.1.now)) result }
    ensures rest { IfSome result (λ e. IsRest text.now e.1.now) }
{
    let Some((first, behind)) = text.split_first() else {
        return Some((Ending::Cut, text));
    };
    if *first == quote {
        Some((Ending::Closed, behind))
    } else if begins_template(quote, text) {
        Some((Ending::Hole, text.split_at(2).1))
    } else if *first == b'\n' && quote != b'`' {
        Some((Ending::Cut, text))
    } else {
        None
    }
}

/// The letters of a text behind its opening quote. Linear in it.
#[tactic(auto, using(crate::proofs::TextSteps::goes_on, crate::proofs::TextSteps::stops, crate::proofs::TextSteps::runs_out, text_bytes::proofs::Rests::of_rest, text_bytes::proofs::Rests::dropped))]
pub(crate) fn read_quoted(alloc: Global, quote: u8, text: &[u8]) -> Result<Quoted<'_>, NoMemory>
    ensures gives { IfOk result (λ q. quoted_of q ≡ spec.read_quoted quote text.now) }
    ensures rest { IfOk result (λ q. IsRest text.now q.rest.now) }
{
    let mut letters = Vec::new(alloc);
    let mut sure = true;
    let mut rest = text;
    'parts: while let Some((first, behind)) = rest.split_first() {
        if let Some((ending, others)) = end_of(quote, rest) {
            return Ok(Quoted {
                letters: Items::new(letters),
                rest: others,
                ending,
                sure,
            });
        }
        let next = next_part(*first, behind);
        let (front, others) = rest.split_at(next.len);
        push(&mut letters, next.meaning, front)?;
        sure = both(sure, next.sure);
        rest = others;
    }
    Ok(Quoted {
        letters: Items::new(letters),
        rest,
        ending: Ending::Cut,
        sure,
    })
}
