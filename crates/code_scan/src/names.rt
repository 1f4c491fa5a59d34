//! Names.
ghost use Rattle.std.specs.Prelude.{◌≡◌};
ghost use Rattle.text_bytes.specs.Rests.{IsRest};
ghost use Rattle.code_scan.specs.Names as spec;

use crate::blanks::wide_blank;
use js_scan::begins_name;

fn begins_letter(text: &[u8]) -> bool
    ensures { spec.begins_letter text.now ≡ result }
{
    match text.split_first() {
        None => false,
        Some((first, _)) => *first >= 128 && wide_blank(text).is_none(),
    }
}

/// Whether a byte that a name may go on with stands at the front. Constant.
pub fn goes_on(text: &[u8]) -> bool
    ensures { spec.goes_on text.now ≡ result }
{
    match text.split_first() {
        None => false,
        Some((first, _)) => begins_name(*first) || first.is_ascii_digit() || begins_letter(text),
    }
}

/// The bytes behind those that a name may go on with. Linear in what is passed over.
#[tactic(auto, unfolding(crate::specs::Names::behind_name), using(text_bytes::proofs::Rests::of_rest, text_bytes::proofs::Rests::behind_first))]
pub fn behind_name(text: &[u8]) -> &[u8]
    ensures gives { spec.behind_name text.now ≡ result.now }
    ensures rest { IsRest text.now result.now }
{
    let mut rest = text;
    'bytes: while let Some((_, behind)) = rest.split_first() {
        if !goes_on(rest) {
            return rest;
        }
        rest = behind;
    }
    rest
}
