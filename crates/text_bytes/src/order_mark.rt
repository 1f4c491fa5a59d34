//! The byte order mark.
ghost use Rattle.std.specs.Prelude.{◌≡◌};
ghost use Rattle.text_bytes.specs.OrderMark as spec;
ghost use Rattle.text_bytes.specs.Rests.{IsRest};

/// The text without a byte order mark of UTF-8 at its front. Constant.
#[tactic(auto, unfolding(crate::specs::OrderMark::behind_order_mark), using(crate::proofs::Rests::dropped, crate::proofs::Rests::itself))]
pub fn behind_order_mark(text: &[u8]) -> &[u8]
    ensures gives { result.now ≡ spec.behind_order_mark text.now }
    ensures rest { IsRest text.now result.now }
{
    if text.starts_with(b"\xef\xbb\xbf") {
        text.split_at(3).1
    } else {
        text
    }
}
