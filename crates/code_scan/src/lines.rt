//! The ends of lines.
ghost use Rattle.std.specs.Prelude.{◌≡◌};
ghost use Rattle.text_bytes.specs.Rests.{IsRest};
ghost use Rattle.code_scan.specs.Lines as spec;

/// Whether a line ends at the front. Constant.
#[tactic(auto, unfolding(crate::specs::Lines::begins_break))]
pub(crate) fn begins_break(text: &[u8]) -> bool
    ensures { spec.begins_break text.now ≡ result }
{
    match text.split_first() {
        None => false,
        Some((first, behind)) => {
            *first == b'\n'
                || (*first == b'\r' && !behind.starts_with(b"\n"))
                || text.starts_with(b"\xe2\x80\xa8")
                || text.starts_with(b"\xe2\x80\xa9")
        }
    }
}

/// The bytes from the end of the line on. Linear in what is passed over.
#[tactic(auto, unfolding(crate::specs::Lines::behind_line), using(text_bytes::proofs::Rests::of_rest, text_bytes::proofs::Rests::behind_first))]
pub(crate) fn behind_line(text: &[u8]) -> &[u8]
    ensures gives { spec.behind_line text.now ≡ result.now }
    ensures rest { IsRest text.now result.now }
{
    let mut rest = text;
    'bytes: while let Some((_, behind)) = rest.split_first() {
        if begins_break(rest) {
            return rest;
        }
        rest = behind;
    }
    rest
}

/// Whether a line ends anywhere in a text. Linear in it.
#[tactic(auto, unfolding(crate::specs::Lines::has_break))]
pub(crate) fn has_break(text: &[u8]) -> bool
    ensures { spec.has_break text.now ≡ result }
{
    let mut rest = text;
    'bytes: while let Some((_, behind)) = rest.split_first() {
        if begins_break(rest) {
            return true;
        }
        rest = behind;
    }
    false
}
