//! Brackets and strings in a selector.
ghost use Rattle.std.specs.Prelude.{◌≡◌, ◌==◌, false, [], ◌∷◌, length, reverse, option_map, OnOk, IfOk, IfSome};
ghost use Rattle.text_bytes.specs.Rests.{IsRest};
ghost use Rattle.css_read.specs.Units as units;
ghost use Rattle.widen_sheet.specs.Wide as spec;

use std::alloc::{AllocError, Global};

fn closer(byte: u8) -> Option<u8>
    ensures { result ≡ spec.closer byte }
{
    match byte {
        b'(' => Some(b')'),
        b'[' => Some(b']'),
        b'{' => Some(b'}'),
        _ => None,
    }
}

// Keeps what closes the open brackets, the innermost last, after a byte.
#[tactic(auto, unfolding(crate::specs::Wide::after_byte), using(tp_base::proofs::Lists::pushed_last, tp_base::proofs::Lists::popped_last))]
fn track(closers: &mut Vec<u8>, byte: u8) -> Result<(), AllocError>
    ensures { OnOk result (reverse closers.new.items ≡ spec.after_byte byte (reverse closers.old.items)) }
{
    if let Some(closes) = closer(byte) {
        closers.push(closes)?;
    } else if closers.last() == Some(&byte) {
        let _ = closers.pop();
    }
    Ok(())
}

// The text behind a string, from behind its opening quote on.
#[tactic(auto, unfolding(css_read::specs::Units::behind_string), using(text_bytes::proofs::Rests::of_rest, text_bytes::proofs::Rests::behind_first, text_bytes::proofs::Rests::itself))]
fn behind_string(quote: u8, text: &[u8]) -> &[u8]
    ensures gives { result.now ≡ units.behind_string quote false text.now }
    ensures rest { IsRest text.now result.now }
{
    let mut escaped = false;
    let mut rest = text;
    'turns: while let Some((first, behind)) = rest.split_first() {
        if escaped {
            escaped = false;
        } else if *first == quote {
            return behind;
        } else if *first == b'\n' {
            return rest;
        } else {
            escaped = *first == b'\\';
        }
        rest = behind;
    }
    rest
}

// The text behind a string, or else behind the byte, that begins with a byte.
#[tactic(auto, unfolding(crate::specs::Wide::behind_quoted), using(text_bytes::proofs::Rests::itself))]
fn behind_quoted(first: u8, behind: &[u8]) -> &[u8]
    ensures gives { result.now ≡ spec.behind_quoted first behind.now }
    ensures rest { IsRest behind.now result.now }
{
    if first == b'"' || first == b'\'' {
        behind_string(first, behind)
    } else {
        behind
    }
}

// Whether none is open.
fn is_closed(closers: &[u8]) -> bool
    ensures { result ≡ (length (reverse closers.now) == 0) }
{
    closers.is_empty()
}

/// The text behind what closes a bracket, from behind the bracket on. Linear in what is passed over.
#[tactic(auto, using(crate::proofs::BracketSteps::goes_on, crate::proofs::BracketSteps::found, crate::proofs::BracketSteps::ends, text_bytes::proofs::Rests::of_rest, text_bytes::proofs::Rests::behind_first))]
pub(crate) fn behind_brackets(
    alloc: Global,
    closer: u8,
    text: &[u8],
) -> Result<Option<&[u8]>, AllocError>
    ensures gives { IfOk result (λ r. spec.behind_brackets (closer ∷ []) 0 text.now ≡ option_map (λ b. b.now) r) }
    ensures rest { IfOk result (λ r. IfSome r (λ b. IsRest text.now b.now)) }
{
    let mut closers = Vec::new(alloc);
    closers.push(closer)?;
    let mut rest = text;
    'units: while let Some((first, behind)) = rest.split_first() {
        track(&mut closers, *first)?;
        if is_closed(&closers) {
            return Ok(Some(behind));
        }
        rest = behind_quoted(*first, behind);
    }
    Ok(None)
}
