//! The selectors of a list, as byte ranges of the file.
ghost use Rattle.std.specs.Prelude.{◌≡◌, ◌≤◌, length, IfOk};
ghost use Rattle.text_bytes.specs.Rests.{IsRest};
ghost use Rattle.css_read.specs.Pieces as spec;

use crate::sheets::Range;
use crate::units::{begins_gap, behind_unit, from_first, is_plain};
use sel_text::behind_gap;
use std::alloc::{AllocError, Global};
use text_bytes::is_blank;

// The length of the text without white space and comments at its end. Linear.
#[tactic(auto, using(crate::proofs::Solids::begins, crate::proofs::Solids::goes_gap, crate::proofs::Solids::goes_solid, crate::proofs::Solids::passes_plain, crate::proofs::Solids::ends, text_bytes::proofs::Rests::of_rest, text_bytes::proofs::Rests::behind_first, text_bytes::proofs::Rests::itself))]
fn solid_len(text: &[u8]) -> usize
    ensures gives { result ≡ spec.solid_len 0 text.now }
    ensures within { result ≤ length text.now }
{
    let mut len = 0;
    let mut rest = text;
    'units: while let Some((first, later)) = rest.split_first() {
        if is_plain(*first) && !is_blank(*first) {
            len = text.len() - later.len();
            rest = later;
        } else {
            let behind = behind_unit(rest);
            if !begins_gap(rest) {
                len = text.len() - behind.len();
            }
            rest = behind;
        }
    }
    len
}

// The range of a selector whose text ends at an offset, without white space and comments at both ends.
#[tactic(auto, unfolding(crate::specs::Pieces::piece_of))]
fn piece_of(to: usize, text: &[u8]) -> Range
    requires { length text.now ≤ to }
    ensures gives { result ≡ spec.piece_of to text.now }
    ensures order { result.from ≤ result.to }
    ensures within { result.to ≤ to }
{
    let solid = behind_gap(true, text);
    let from = to - solid.len();
    Range {
        from,
        to: from + solid_len(solid),
    }
}

/// The range of the selector before the next comma, and the text from the comma on. `to` is the offset at which the list ends.
/// Linear in the bytes before the comma.
#[tactic(auto, unfolding(crate::specs::Pieces::first_piece))]
pub fn first_piece(alloc: Global, to: usize, text: &[u8]) -> Result<(Range, &[u8]), AllocError>
    requires { length text.now ≤ to }
    ensures gives { IfOk result (λ p. p.0 ≡ spec.first_piece to text.now) }
    ensures behind { IfOk result (λ p. p.1.now ≡ spec.from_comma text.now) }
    ensures order { IfOk result (λ p. p.0.from ≤ p.0.to) }
    ensures within { IfOk result (λ p. p.0.to ≤ to) }
    ensures rest { IfOk result (λ p. IsRest text.now p.1.now) }
{
    let rest = from_first(alloc, b",", text)?;
    let piece = text.split_at(text.len() - rest.len()).0;
    Ok((piece_of(to - rest.len(), piece), rest))
}
