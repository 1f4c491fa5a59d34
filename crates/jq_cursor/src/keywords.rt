//! Names that have a meaning of their own in a chain.
ghost use Rattle.std.specs.Prelude.{◌≡◌, [], ◌∷◌, codes, IsUtf8};
ghost use Rattle.jq_words.specs.Words.{is_mark, is_name_among, fits, first_is, spelled};
ghost use Rattle.jq_cursor.specs.Keywords.{jquery};

use jq_words::{Words, begins, begins_name_among};

/// The names of jQuery's function.
pub const JQUERY: [&[u8]; 2] = [b"$", b"jQuery"];

/// The names of what holds the page.
pub const PAGES: [&[u8]; 2] = [b"document", b"window"];

/// Whether `$` or `jQuery` stands first, which comments here and above call J. Constant.
#[tactic(auto, using(crate::proofs::KeywordTables::same_jquery))]
pub fn begins_jquery(words: &Words<'_>) -> bool
    ensures { first_is (is_name_among jquery) words.now.words ≡ result }
{
    begins_name_among(words, &JQUERY)
}

/// Whether J is called. Constant.
#[tactic(auto, using(jq_words::proofs::FitSteps::fits_no, jq_words::proofs::FitSteps::fits_then, jq_words::proofs::FitSteps::fits_one))]
pub fn is_jquery_call(words: &Words<'_>) -> bool
    ensures { fits (is_name_among jquery ∷ is_mark (codes "(") ∷ []) words.now.words ≡ result }
{
    if !begins_jquery(words) {
        return false;
    }
    begins(&words.behind(), b"(")
}

/// The spelling of the first word; none where there is no word. Constant.
#[tactic(auto, unfolding(jq_words::specs::Words::spelled))]
pub fn spelled<'a>(words: &Words<'a>) -> &'a [u8]
    ensures bytes { result.now ≡ spelled words.now.words }
    ensures utf8 { IsUtf8 result.now }
{
    match words.first() {
        None => &[],
        Some(word) => word.spelling(),
    }
}
