//! The bytes of a selector's text: white space, comments and names.
ghost use Rattle.std.specs.Prelude.{◌≡◌, ◌≤◌, length};
ghost use Rattle.std.specs.List.{prefix_len};
ghost use Rattle.text_bytes.specs.Rests.{IsRest};
ghost use Rattle.sel_text.specs.Bytes as spec;

use text_bytes::{behind_mark, is_blank};

fn starts_name(byte: u8) -> bool
    ensures { result ≡ spec.starts_name byte }
{
    byte.is_ascii_alphabetic() || byte == b'_' || byte > 127
}

pub(crate) fn begins_with(byte: u8, text: &[u8]) -> bool
    ensures { result ≡ spec.begins_with byte text.now }
{
    match text {
        [] => false,
        [first, ..] => *first == byte,
    }
}

#[tactic(auto, unfolding(crate::specs::Bytes::begins_name))]
pub(crate) fn begins_name(text: &[u8]) -> bool
    ensures { result ≡ spec.begins_name text.now }
{
    match text {
        [] => false,
        [b'-', second, ..] => starts_name(*second) || *second == b'-',
        [first, ..] => starts_name(*first),
    }
}

fn run_len(text: &[u8]) -> usize
    ensures gives { result ≡ prefix_len spec.in_name text.now }
    ensures within { result ≤ length text.now }
{
    text.iter()
        .take_while(|b| starts_name(**b) || b.is_ascii_digit() || **b == b'-')
        .count()
}

/// The length of the name that the text begins with; 0 where it begins with none. Linear in the name.
#[tactic(auto, unfolding(crate::specs::Bytes::name_len))]
pub fn name_len(text: &[u8]) -> usize
    ensures gives { result ≡ spec.name_len text.now }
    ensures within { result ≤ length text.now }
{
    if begins_name(text) { run_len(text) } else { 0 }
}

/// The text behind the first `*/`, or its end. Linear in what is passed over.
pub fn behind_close(text: &[u8]) -> &[u8]
    ensures gives { result.now ≡ spec.behind_close text.now }
    ensures rest { IsRest text.now result.now }
{
    behind_mark(b"*/", text)
}

fn is_passed(blanks: bool, byte: u8) -> bool
    ensures { result ≡ spec.is_passed blanks byte }
{
    blanks && is_blank(byte)
}

/// The text behind comments, and behind white space too where `blanks` says so. Linear in what is passed over.
#[tactic(auto, using(crate::proofs::Gaps::passes, crate::proofs::Gaps::behind_comment, crate::proofs::Gaps::stops, crate::proofs::Gaps::ends, text_bytes::proofs::Rests::of_rest, text_bytes::proofs::Rests::behind_first, text_bytes::proofs::Rests::dropped))]
pub fn behind_gap(blanks: bool, text: &[u8]) -> &[u8]
    ensures gives { result.now ≡ spec.behind_gap blanks 0 text.now }
    ensures rest { IsRest text.now result.now }
{
    let mut rest = text;
    'turns: while let Some((first, behind)) = rest.split_first() {
        if is_passed(blanks, *first) {
            rest = behind;
        } else if rest.starts_with(b"/*") {
            rest = behind_close(behind.split_at(1).1);
        } else {
            return rest;
        }
    }
    rest
}
