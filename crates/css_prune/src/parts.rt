//! Slices of a text.
ghost use Rattle.std.specs.Prelude.{◌≡◌, ◌≤◌, drop, take, length, slice_range};
ghost use Rattle.css_prune.specs.Parts as spec;

use memchr::memchr;

/// The text from an offset on.
#[tactic(auto, using(std::proofs::lemmas::List::drop_min))]
pub(crate) fn from_offset(text: &[u8], at: usize) -> &[u8]
    ensures { result.now ≡ drop at text.now }
{
    text.split_at(at.min(text.len())).1
}

/// The first bytes of a text, so many if it has them.
#[tactic(auto, using(std::proofs::lemmas::List::take_min))]
pub(crate) fn first_bytes(text: &[u8], count: usize) -> &[u8]
    ensures { result.now ≡ take count text.now }
{
    text.split_at(count.min(text.len())).0
}

/// What stands between two offsets.
pub(crate) fn between(text: &[u8], from: usize, to: usize) -> &[u8]
    ensures { result.now ≡ slice_range text.now from to }
{
    first_bytes(from_offset(text, from), to.saturating_sub(from))
}

/// The text from the first place of a byte on, or its end. Some 32 bytes at a time.
pub(crate) fn from_byte(byte: u8, text: &[u8]) -> &[u8]
    ensures gives { result.now ≡ spec.from_byte byte text.now }
    ensures within { length result.now ≤ length text.now }
{
    match memchr(byte, text) {
        None => from_offset(text, text.len()),
        Some(at) => from_offset(text, at),
    }
}
