//! Small questions about a text's bytes.
ghost use Rattle.std.specs.Prelude.{◌≡◌, ◌≤◌, drop, length, map};
ghost use Rattle.std.specs.Option.{option_map};
ghost use Rattle.html_tokens.specs.Bytes.{lowered};
ghost use Rattle.html_tokens.specs.Names as names;
ghost use Rattle.code_sources.specs.Bytes as spec;

use html_tokens::is_same_name;
use text_bytes::blank_len;

/// A hole in the markup of strings, which no text has that is UTF-8.
pub const HOLE: u8 = 255;

/// The text without its first byte.
pub(crate) fn behind_byte(text: &[u8]) -> &[u8]
    ensures gives { result.now ≡ drop 1 text.now }
    ensures within { length result.now ≤ length text.now }
{
    match text.split_first() {
        None => text,
        Some((_, behind)) => behind,
    }
}

/// The text without so many of its first bytes, of which it may have fewer.
#[tactic(auto, using(crate::proofs::ByteSteps::none_left))]
pub(crate) fn behind_bytes(count: usize, text: &[u8]) -> &[u8]
    ensures gives { result.now ≡ drop count text.now }
    ensures within { length result.now ≤ length text.now }
{
    if count < text.len() {
        text.split_at(count).1
    } else {
        b""
    }
}

/// The text behind white space.
pub(crate) fn past_blanks(text: &[u8]) -> &[u8]
    ensures gives { result.now ≡ spec.past_blanks text.now }
    ensures within { length result.now ≤ length text.now }
{
    text.split_at(blank_len(text)).1
}

/// Whether code has a hole in it.
pub(crate) fn has_hole(text: &[u8]) -> bool
    ensures { result ≡ spec.has_hole text.now }
{
    text.contains(&HOLE)
}

/// Whether a word is one of these, without regard to ASCII case. Linear in the word, for each of them.
pub(crate) fn is_among(words: &[&[u8]], word: &[u8]) -> bool
    ensures { result ≡ names.is_among (map (λ w. lowered w.now) words.now) (lowered word.now) }
{
    let mut left = words;
    'words: while let [first, others @ ..] = left {
        if is_same_name(first, word) {
            return true;
        }
        left = others;
    }
    false
}

/// What is behind a word in lower case at the front, in any case, whatever control bytes and blanks stand before and in it. Linear in what
/// is passed over.
#[tactic(auto, unfolding(crate::specs::Bytes::behind_spelled), using(crate::proofs::ByteSteps::spelled, crate::proofs::ByteSteps::too_few, crate::proofs::ByteSteps::passes, crate::proofs::ByteSteps::goes_on, crate::proofs::ByteSteps::differs))]
pub(crate) fn behind_spelled<'a>(word: &[u8], text: &'a [u8]) -> Option<&'a [u8]>
    ensures { spec.behind_spelled word.now text.now ≡ option_map (λ r. r.now) result }
{
    let mut wanted = word;
    let mut rest = text;
    'bytes: while let Some((letter, letters)) = wanted.split_first() {
        let (first, behind) = rest.split_first()?;
        rest = behind;
        if *first > 32 {
            if first.to_ascii_lowercase() != *letter {
                return None;
            }
            wanted = letters;
        }
    }
    Some(rest)
}
