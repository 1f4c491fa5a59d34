//! White space past ASCII.
ghost use Rattle.std.specs.Prelude.{◌≡◌, ◌≤◌, length, IfSome, IsTrue};
ghost use Rattle.code_scan.specs.Blanks as spec;

fn ends_space(b: u8) -> bool
    ensures { result ≡ spec.ends_space b }
{
    matches!(b, 0x80..=0x8a | 0xa8 | 0xa9 | 0xaf)
}

fn begins_rare(text: &[u8]) -> bool
    ensures gives { result ≡ spec.begins_rare text.now }
    ensures long { IsTrue result → 3 ≤ length text.now }
{
    text.starts_with(b"\xe1\x9a\x80")
        || text.starts_with(b"\xe2\x81\x9f")
        || text.starts_with(b"\xe3\x80\x80")
        || text.starts_with(b"\xef\xbb\xbf")
}

// The last byte of a character that begins as those from U+2000 on do.
#[tactic(auto, unfolding(crate::specs::Blanks::begins_space))]
fn begins_space(text: &[u8]) -> bool
    ensures gives { result ≡ spec.begins_space text.now }
    ensures long { IsTrue result → 3 ≤ length text.now }
{
    match text {
        [0xe2, 0x80, last, ..] => ends_space(*last),
        _ => false,
    }
}

/// How many bytes the character of white space at the front has, where it is a vertical tab or past ASCII. Constant.
#[tactic(auto, unfolding(crate::specs::Blanks::wide_blank))]
pub(crate) fn wide_blank(text: &[u8]) -> Option<usize>
    ensures gives { spec.wide_blank text.now ≡ result }
    ensures within { IfSome result (λ len. (1 ≤ len) × (len ≤ length text.now)) }
{
    if text.starts_with(b"\x0b") {
        Some(1)
    } else if text.starts_with(b"\xc2\xa0") {
        Some(2)
    } else if begins_rare(text) {
        Some(3)
    } else if begins_space(text) {
        Some(3)
    } else {
        None
    }
}
