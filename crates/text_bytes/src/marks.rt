//! Parts of a text that end with a mark.
ghost use Rattle.std.specs.Prelude.{◌≡◌};
ghost use Rattle.text_bytes.specs.Marks as spec;
ghost use Rattle.text_bytes.specs.Rests.{IsRest};

/// The text behind the first place where the mark stands, or its end. Linear in what is passed over, for each byte of the mark.
#[tactic(auto, unfolding(crate::specs::Marks::behind_mark), using(crate::proofs::Rests::of_rest, crate::proofs::Rests::behind_first, crate::proofs::Rests::dropped))]
pub fn behind_mark<'a>(mark: &[u8], text: &'a [u8]) -> &'a [u8]
    ensures gives { result.now ≡ spec.behind_mark mark.now text.now }
    ensures rest { IsRest text.now result.now }
{
    let mut rest = text;
    'turns: while let Some((_, behind)) = rest.split_first() {
        if rest.starts_with(mark) {
            return rest.split_at(mark.len()).1;
        }
        rest = behind;
    }
    rest
}
