//! What is said of a finding: the first bytes of its text.
ghost use Rattle.std.specs.Prelude.{◌≡◌, ◌≤◌, length};
ghost use Rattle.std.specs.List.{prefix_len};
ghost use Rattle.premise_finds.specs.Details as spec;

/// How many bytes of a finding are said at most.
pub const MOST_SHOWN: usize = 60;

fn line_len(text: &[u8]) -> usize
    ensures gives { result ≡ prefix_len spec.in_line text.now }
    ensures within { result ≤ length text.now }
{
    text.iter()
        .take_while(|b| !(**b == b'\n' || **b == b'\r'))
        .count()
}

fn begins_character(text: &[u8]) -> bool
    ensures { result ≡ spec.begins_character text.now }
{
    match text {
        [] => true,
        [first, ..] => *first < 128 || *first > 191,
    }
}

// How many of the first bytes are whole characters. Linear in those that aren't.
#[tactic(auto, unfolding(crate::specs::Details::whole_len))]
fn whole_len(most: usize, text: &[u8]) -> usize
    requires { most ≤ length text.now }
    ensures gives { result ≡ spec.whole_len most text.now }
    ensures within { result ≤ most }
{
    let mut len = most;
    'bytes: while len > 0 {
        if begins_character(text.split_at(len).1) {
            return len;
        }
        len -= 1;
    }
    0
}

/// What is said of a finding's text: its first line, or as much of it as is said. Linear in that line.
#[tactic(auto, unfolding(crate::specs::Details::shown_of))]
pub fn shown_of(found: &[u8]) -> &[u8]
    ensures { result.now ≡ spec.shown_of found.now }
{
    let line = found.split_at(line_len(found)).0;
    if line.len() > MOST_SHOWN {
        line.split_at(whole_len(MOST_SHOWN, line)).0
    } else {
        line
    }
}
