//! Strings that are joined by `+`.
ghost use Rattle.std.specs.Prelude.{◌≡◌, [], ◌∷◌, drop, Some, None, option_map, IfOk, IfErr};
ghost use Rattle.jq_words.specs.Texts as spec;
ghost use Rattle.jq_words.specs.declared.faults.ScriptFault.TheVariants.{Memory};

use crate::faults::ScriptFault;
use crate::words::Words;
use std::alloc::Global;
use text_bytes::blank_len;

/// Whether Texts joined and then a closing bracket stand behind the first word.
#[tactic(auto, using(crate::proofs::TextSteps::no_word, crate::proofs::TextSteps::one_word, crate::proofs::TextSteps::no_text, crate::proofs::TextSteps::closed, crate::proofs::TextSteps::joined, crate::proofs::TextSteps::not_joined))]
pub fn holds_texts_behind(words: &Words<'_>) -> bool
    ensures { result ≡ spec.holds_texts (drop 1 words.now.words) }
{
    let mut rest = words.again();
    rest.pass();
    'texts: while let Some(text) = rest.first() {
        rest.pass();
        let Some(mark) = rest.first() else {
            return false;
        };
        if !text.is_text() {
            return false;
        }
        if mark.is_mark(b")") {
            return true;
        }
        if !mark.is_mark(b"+") {
            return false;
        }
        rest.pass();
    }
    false
}

/// The letters of words that are nothing but Texts, joined.
#[tactic(auto, using(crate::proofs::TextSteps::begins, crate::proofs::TextSteps::no_texts, crate::proofs::TextSteps::other_first, crate::proofs::TextSteps::last_text, crate::proofs::TextSteps::other_second, crate::proofs::TextSteps::one_joined, crate::proofs::TextSteps::none_behind))]
pub fn joined_texts(alloc: Global, words: &Words<'_>) -> Result<Option<Vec<u8>>, ScriptFault>
    ensures gives { IfOk result (λ v. spec.texts words.now.words ≡ option_map (λ l. l.items) v) }
    ensures only_memory { IfErr result (λ e. e ≡ Memory) }
{
    let mut letters = Vec::new(alloc);
    let mut rest = words.again();
    'texts: while let Some(text) = rest.first() {
        rest.pass();
        if !text.is_text() {
            return Ok(None);
        }
        letters.extend_from_slice(text.text())?;
        let Some(mark) = rest.first() else {
            return Ok(Some(letters));
        };
        if !mark.is_mark(b"+") {
            return Ok(None);
        }
        rest.pass();
    }
    Ok(None)
}

fn begins_angle(text: &[u8]) -> bool
    ensures { result ≡ spec.begins_angle text.now }
{
    match text.split_first() {
        None => false,
        Some((first, _)) => *first == b'<',
    }
}

/// Whether letters are markup.
#[tactic(auto, unfolding(crate::specs::Texts::is_markup))]
pub fn is_markup(letters: &[u8]) -> bool
    ensures { result ≡ spec.is_markup letters.now }
{
    begins_angle(letters.split_at(blank_len(letters)).1)
}

/// The letters of Texts joined, before a closing bracket that is the last word.
#[tactic(auto, using(crate::proofs::TextSteps::begins_closed, crate::proofs::TextSteps::none_closed, crate::proofs::TextSteps::one_closed, crate::proofs::TextSteps::no_text_closed, crate::proofs::TextSteps::joined_closed, crate::proofs::TextSteps::last_closed, crate::proofs::TextSteps::open_closed, crate::proofs::TextSteps::more_closed, crate::proofs::TextSteps::none_behind))]
pub fn closed_texts(alloc: Global, words: &Words<'_>) -> Result<Option<Vec<u8>>, ScriptFault>
    ensures gives { IfOk result (λ v. spec.closed_texts words.now.words ≡ option_map (λ l. l.items) v) }
    ensures only_memory { IfErr result (λ e. e ≡ Memory) }
{
    let mut letters = Vec::new(alloc);
    let mut rest = words.again();
    'texts: while let Some(text) = rest.first() {
        rest.pass();
        let Some(mark) = rest.first() else {
            return Ok(None);
        };
        if !text.is_text() {
            return Ok(None);
        }
        letters.extend_from_slice(text.text())?;
        rest.pass();
        if !mark.is_mark(b"+") {
            if mark.is_mark(b")") && rest.first().is_none() {
                return Ok(Some(letters));
            }
            return Ok(None);
        }
    }
    Ok(None)
}
