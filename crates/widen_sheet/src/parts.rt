//! Parts of a text.
ghost use Rattle.std.specs.Prelude.{◌≡◌, take, drop, slice_range};

/// The text from an offset on.
#[tactic(auto, using(std::proofs::lemmas::List::drop_min))]
pub(crate) fn from_offset(text: &[u8], at: usize) -> &[u8]
    ensures { result.now ≡ drop at text.now }
{
    text.split_at(at.min(text.len())).1
}

// Its first bytes, so many if it has them.
#[tactic(auto, using(std::proofs::lemmas::List::take_min))]
fn first_bytes(text: &[u8], count: usize) -> &[u8]
    ensures { result.now ≡ take count text.now }
{
    text.split_at(count.min(text.len())).0
}

/// What stands between two offsets.
pub(crate) fn between(text: &[u8], from: usize, to: usize) -> &[u8]
    ensures { result.now ≡ slice_range text.now from to }
{
    first_bytes(from_offset(text, from), to.saturating_sub(from))
}
