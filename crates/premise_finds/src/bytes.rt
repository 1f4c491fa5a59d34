//! Small questions about a text's bytes.
ghost use Rattle.std.specs.Prelude.{◌≡◌, ◌≤◌, drop, length, map};
ghost use Rattle.html_tokens.specs.Bytes.{lowered};
ghost use Rattle.html_tokens.specs.Names as names;
ghost use Rattle.premise_finds.specs.Texts as spec;

use html_tokens::{is_same_name, word_len};
use text_bytes::{blank_len, is_blank};

/// The text without its first byte.
pub fn behind_byte(text: &[u8]) -> &[u8]
    ensures gives { result.now ≡ drop 1 text.now }
    ensures within { length result.now ≤ length text.now }
{
    match text.split_first() {
        None => text,
        Some((_, behind)) => behind,
    }
}

/// The text behind white space.
pub fn past_blanks(text: &[u8]) -> &[u8]
    ensures { result.now ≡ spec.past_blanks text.now }
{
    text.split_at(blank_len(text)).1
}

/// Whether a text has more than white space.
pub fn is_seen(text: &[u8]) -> bool
    ensures { result ≡ spec.is_seen text.now }
{
    blank_len(text) != text.len()
}

/// Whether a word is one of these, without regard to ASCII case. Linear in the word, for each of them.
pub fn is_among(words: &[&[u8]], word: &[u8]) -> bool
    ensures { result ≡ names.is_among (map (λ w. lowered w.now) words.now) (lowered word.now) }
{
    let mut left = words;
    'words: while let [first, others @ ..] = left {
        if is_same_name(first, word) {
            return true;
        }
        left = others;
    }
    false
}

/// Whether a text begins with a word, without regard to ASCII case. Linear in the word.
pub fn begins_word(word: &[u8], text: &[u8]) -> bool
    ensures { result ≡ spec.begins_word word.now text.now }
{
    if text.len() < word.len() {
        return false;
    }
    is_same_name(text.split_at(word.len()).0, word)
}

/// Whether a word stands anywhere in a text, without regard to ASCII case. Linear in the text, for each byte of the word.
#[tactic(auto, unfolding(crate::specs::Texts::has_somewhere))]
pub fn has_somewhere(word: &[u8], text: &[u8]) -> bool
    ensures { result ≡ spec.has_somewhere word.now text.now }
{
    let mut rest = text;
    'bytes: while let Some((_, behind)) = rest.split_first() {
        if begins_word(word, rest) {
            return true;
        }
        rest = behind;
    }
    false
}

/// Whether one of the words of a text is among these, without regard to ASCII case. Linear in the text, for each of them.
#[tactic(auto, using(crate::proofs::ByteLemmas::blank_first, crate::proofs::ByteLemmas::word_found, crate::proofs::ByteLemmas::other_word, crate::proofs::ByteLemmas::no_words, html_tokens::proofs::WordLemmas::some_word))]
pub fn has_word(names: &[&[u8]], text: &[u8]) -> bool
    ensures { result ≡ spec.has_word (map (λ w. lowered w.now) names.now) text.now }
{
    let mut rest = text;
    'words: while let Some((first, behind)) = rest.split_first() {
        if is_blank(*first) {
            rest = behind;
        } else {
            let (word, others) = rest.split_at(word_len(rest));
            if is_among(names, word) {
                return true;
            }
            rest = others;
        }
    }
    false
}
