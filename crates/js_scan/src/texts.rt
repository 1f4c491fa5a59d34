//! String literals.
ghost use Rattle.std.specs.Prelude.{◌≡◌, ◌≤◌, ◌<◌, ◌++◌, length, IfOk, OnOk, IfSome, IsUtf8};
ghost use Rattle.std.specs.Option.{option_map};
ghost use Rattle.js_scan.specs.Texts as spec;
ghost use Rattle.js_scan.specs.Views.{Gives, meant, piece_in};

use crate::bytes::plain_len;
use crate::escapes::{Meaning, escape};
use crate::token::{Letters, ScanFault};
use std::alloc::{AllocError, Global};

fn begins_template(quote: u8, text: &[u8]) -> bool
    ensures { result ≡ spec.begins_template quote text.now }
{
    quote == b'`' && text.starts_with(b"${")
}

// What the next piece of a text stands for, which may be itself, and its length.
#[tactic(auto, unfolding(crate::specs::Texts::next_piece))]
fn next_piece(quote: u8, text: &[u8]) -> Option<(Option<Meaning>, usize)>
    ensures gives { spec.next_piece quote text.now ≡ option_map (piece_in text.now) result }
    ensures within { IfSome result (λ p. (1 ≤ p.1) × (p.1 ≤ length text.now)) }
{
    let (first, behind) = text.split_first()?;
    if *first == b'\\' {
        let (meaning, len) = escape(behind)?;
        Some((Some(meaning), len))
    } else if *first == b'\n' && quote != b'`' {
        None
    } else {
        Some((None, 1 + plain_len(behind)))
    }
}

fn push(letters: &mut Vec<u8>, meaning: Option<Meaning>, front: &[u8]) -> Result<(), AllocError>
    ensures { OnOk result (letters.new.items ≡ letters.old.items ++ meant meaning front.now) }
{
    match meaning {
        None => letters.extend_from_slice(front)?,
        Some(Meaning::Nothing) => {}
        Some(Meaning::Byte(b)) => letters.push(b)?,
        Some(Meaning::Char(c)) => {
            let mut buffer = [0; 4];
            letters.extend_from_slice(c.encode_utf8(&mut buffer).as_bytes())?;
        }
    }
    Ok(())
}

// The letters behind an opening quote up to the closing one, and the bytes behind that. The text begins
// at `at`.
#[tactic(auto, using(crate::proofs::TextsLemmas::goes_on, crate::proofs::TextsLemmas::closes, crate::proofs::TextsLemmas::is_template, crate::proofs::TextsLemmas::stops, crate::proofs::TextsLemmas::runs_out))]
fn quoted(alloc: Global, quote: u8, at: usize, text: &[u8]) -> Result<(Vec<u8>, &[u8]), ScanFault>
    ensures gives { Gives (λ t. (t.0.items, t.1.now)) result (spec.quoted quote at text.now) }
    ensures within { IfOk result (λ t. length t.1.now < length text.now) }
{
    let mut letters = Vec::new(alloc);
    let mut rest = text;
    'pieces: while let Some((first, behind)) = rest.split_first() {
        if *first == quote {
            return Ok((letters, behind));
        }
        if begins_template(quote, rest) {
            return Err(ScanFault::Template(at));
        }
        let Some((meaning, len)) = next_piece(quote, rest) else {
            return Err(ScanFault::BadString(at));
        };
        let (front, others) = rest.split_at(len);
        push(&mut letters, meaning, front)?;
        rest = others;
    }
    Err(ScanFault::BadString(at))
}

fn letters_of(bytes: Vec<u8>) -> Letters
    requires text { IsUtf8 bytes.items }
    ensures { result ≡ bytes.items }
{
    match String::from_utf8(bytes) {
        Ok(text) => Letters::new(text),
        Err(_) => unreachable!(),
    }
}

/// The letters of a text behind its opening quote, and the bytes behind the closing one. The text begins
/// at `at`.
pub(crate) fn text_letters(
    alloc: Global,
    quote: u8,
    at: usize,
    text: &[u8],
) -> Result<(Letters, &[u8]), ScanFault>
    requires text { IsUtf8 text.now }
    ensures gives { Gives (λ t. (t.0, t.1.now)) result (spec.quoted quote at text.now) }
    ensures within { IfOk result (λ t. length t.1.now < length text.now) }
{
    let (letters, rest) = quoted(alloc, quote, at, text)?;
    Ok((letters_of(letters), rest))
}
