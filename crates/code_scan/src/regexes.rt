//! Regular expressions.
ghost use Rattle.std.specs.Prelude.{◌≡◌, false, IfSome};
ghost use Rattle.std.specs.Option.{option_map};
ghost use Rattle.text_bytes.specs.Rests.{IsRest};
ghost use Rattle.code_scan.specs.Regexes as spec;

use crate::lines::begins_break;

fn class_behind(in_class: bool, b: u8) -> bool
    ensures { result ≡ spec.class_behind in_class b }
{
    match b {
        b'[' => true,
        b']' => false,
        _ => in_class,
    }
}

/// The bytes behind the `/` that ends a regular expression on the same line, from behind the one that begins it. Linear in the line.
#[tactic(auto, unfolding(crate::specs::Regexes::behind_regex), using(text_bytes::proofs::Rests::of_rest, text_bytes::proofs::Rests::behind_first))]
pub(crate) fn behind_regex(text: &[u8]) -> Option<&[u8]>
    ensures gives { spec.behind_regex false false text.now ≡ option_map (λ rest. rest.now) result }
    ensures rest { IfSome result (λ rest. IsRest text.now rest.now) }
{
    let mut in_class = false;
    let mut escaped = false;
    let mut rest = text;
    'bytes: while let Some((first, behind)) = rest.split_first() {
        if begins_break(rest) {
            return None;
        }
        if escaped {
            escaped = false;
        } else if *first == b'/' && !in_class {
            return Some(behind);
        } else {
            in_class = class_behind(in_class, *first);
            escaped = *first == b'\\';
        }
        rest = behind;
    }
    None
}
