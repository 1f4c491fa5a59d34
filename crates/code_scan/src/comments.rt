//! Comments.
ghost use Rattle.std.specs.Prelude.{◌≡◌, ◌≤◌, ◌+◌, length};
ghost use Rattle.std.specs.List.{prefix_len};
ghost use Rattle.text_bytes.specs.Blanks.{is_blank};
ghost use Rattle.js_scan.specs.Comments.{behind_close as close_of};
ghost use Rattle.code_scan.specs.Fronts as spec;

use crate::lines::{behind_line, has_break};
use crate::token::{Front, Piece};
use js_scan::behind_close;
use text_bytes::blank_len;

/// A comment up to the end of its line, behind its first byte. Linear in it.
pub(crate) fn line_comment(behind: &[u8], sure: bool) -> Front
    ensures gives { result ≡ spec.line_comment behind.now sure }
    ensures within { (1 ≤ result.len) × (result.len ≤ length behind.now + 1) }
{
    Front {
        piece: Piece::Passed(false),
        len: 1 + behind.len() - behind_line(behind).len(),
        sure,
    }
}

/// A comment behind its `/*`. Linear in it.
#[tactic(auto, unfolding(crate::specs::Fronts::block_comment))]
pub(crate) fn block_comment(behind: &[u8]) -> Front
    ensures gives { spec.block_comment behind.now ≡ result }
    ensures within { (1 ≤ result.len) × (result.len ≤ length behind.now + 2) }
{
    match behind_close(behind) {
        None => Front {
            piece: Piece::Passed(true),
            len: 2 + behind.len(),
            sure: false,
        },
        Some(rest) => {
            let len = behind.len() - rest.len();
            Front {
                piece: Piece::Passed(has_break(behind.split_at(len).0)),
                len: 2 + len,
                sure: true,
            }
        }
    }
}

/// Whether a comment in the way of HTML begins here. Constant.
#[tactic(auto, unfolding(crate::specs::Fronts::begins_comment))]
pub(crate) fn begins_comment(new_line: bool, text: &[u8]) -> bool
    ensures { spec.begins_comment new_line text.now ≡ result }
{
    text.starts_with(b"<!--") || (new_line && text.starts_with(b"-->"))
}

#[tactic(auto, unfolding(crate::specs::Fronts::is_empty_line))]
fn is_empty_line(text: &[u8]) -> bool
    ensures { spec.is_empty_line text.now ≡ result }
{
    text.len() - behind_line(text).len() <= blank_len(text)
}

/// A comment in the way of HTML behind its first byte. Linear in it.
#[tactic(auto, unfolding(crate::specs::Fronts::html_comment))]
pub(crate) fn html_comment(opens: bool, behind: &[u8]) -> Front
    ensures gives { spec.html_comment opens behind.now ≡ result }
    ensures within { (1 ≤ result.len) × (result.len ≤ length behind.now + 1) }
{
    let sure = !opens || is_empty_line(behind.get(3..).unwrap_or_default());
    line_comment(behind, sure)
}
