//! Comments.
ghost use Rattle.std.specs.Prelude.{◌≡◌, ◌<◌, ◌≤◌, length, IfSome};
ghost use Rattle.std.specs.Option.{option_map};
ghost use Rattle.std.specs.List.{prefix_len};
ghost use Rattle.js_scan.specs.Comments as spec;

/// How many bytes stand before the end of the line.
pub(crate) fn line_len(text: &[u8]) -> usize
    ensures gives { result ≡ prefix_len spec.is_in_line text.now }
    ensures within { result ≤ length text.now }
{
    text.iter().take_while(|b| **b != b'\n').count()
}

/// The bytes behind the first `*/`. Linear in what is passed over.
#[tactic(auto, unfolding(crate::specs::Comments::behind_close))]
pub fn behind_close(text: &[u8]) -> Option<&[u8]>
    ensures gives { spec.behind_close text.now ≡ option_map (λ rest. rest.now) result }
    ensures within { IfSome result (λ rest. length rest.now < length text.now) }
{
    let mut rest = text;
    'bytes: while let Some((_, behind)) = rest.split_first() {
        if rest.starts_with(b"*/") {
            return Some(rest.split_at(2).1);
        }
        rest = behind;
    }
    None
}
