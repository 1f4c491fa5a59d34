//! The form of a statement, decided by its first words.
ghost use Rattle.std.specs.Prelude.{◌≡◌, ◌&&◌, ◌||◌, [], ◌∷◌, map, codes};
ghost use Rattle.jq_words.specs.Words.{is_mark, is_name, is_any_name, is_mark_among, is_name_among, fits, first_is};
ghost use Rattle.jq_forms.specs.Openings as spec;
ghost use Rattle.jq_cursor.specs.Keywords.{jquery};

use crate::forms::StatementForm;
use jq_cursor::{JQUERY, begins_jquery, is_jquery_call};
use jq_words::{Words, begins, begins_any_name, begins_name, begins_name_among};

// The words that begin a declaration, those that call a function later, and what stands behind a name that gets a value.
const DECLARING: [&[u8]; 3] = [b"var", b"let", b"const"];

const TIMERS: [&[u8]; 2] = [b"setTimeout", b"setInterval"];

const SETTING: [&[u8]; 3] = [b"=", b"+=", b"-="];

const STEPPING: [&[u8]; 2] = [b"++", b"--"];

// Whether one of these names is called.
#[tactic(auto, using(jq_words::proofs::FitSteps::fits_no, jq_words::proofs::FitSteps::fits_then, jq_words::proofs::FitSteps::fits_one))]
fn is_call_of(words: &Words<'_>, names: &[&[u8]]) -> bool
    ensures { fits (is_name_among (map (λ k. k.now) names.now) ∷ is_mark (codes "(") ∷ []) words.now.words ≡ result }
{
    if !begins_name_among(words, names) {
        return false;
    }
    begins(&words.behind(), b"(")
}

#[tactic(auto, using(crate::proofs::Tables::same_timers))]
fn is_timer(words: &Words<'_>) -> bool
    ensures { fits (is_name_among spec.timers ∷ is_mark (codes "(") ∷ []) words.now.words ≡ result }
{
    is_call_of(words, &TIMERS)
}

#[tactic(auto, using(crate::proofs::Tables::same_declaring))]
fn is_declaration(words: &Words<'_>) -> bool
    ensures { first_is (is_name_among spec.declaring) words.now.words ≡ result }
{
    begins_name_among(words, &DECLARING)
}

#[tactic(auto, using(jq_words::proofs::FitSteps::fits_no_two, jq_words::proofs::FitSteps::fits_then_two, jq_words::proofs::FitSteps::fits_one))]
fn is_start(words: &Words<'_>) -> bool
    ensures { fits (is_name_among jquery ∷ is_mark (codes "(") ∷ is_name (codes "function") ∷ []) words.now.words ≡ result }
{
    if !is_jquery_call(words) {
        return false;
    }
    begins_name(&words.behind().behind(), b"function")
}

#[tactic(auto, using(jq_words::proofs::FitSteps::fits_no, jq_words::proofs::FitSteps::fits_then, jq_words::proofs::FitSteps::fits_one))]
fn is_document_ready(words: &Words<'_>) -> bool
    ensures { fits (is_name (codes "document") ∷ is_mark (codes ")") ∷ is_mark (codes ".") ∷ is_name (codes "ready") ∷ []) words.now.words ≡ result }
{
    if !begins_name(words, b"document") {
        return false;
    }
    let close = words.behind();
    if !begins(&close, b")") {
        return false;
    }
    let dot = close.behind();
    if !begins(&dot, b".") {
        return false;
    }
    begins_name(&dot.behind(), b"ready")
}

#[tactic(auto, using(jq_words::proofs::FitSteps::fits_no_two, jq_words::proofs::FitSteps::fits_then_two))]
fn is_ready(words: &Words<'_>) -> bool
    ensures { fits (is_name_among jquery ∷ is_mark (codes "(") ∷ is_name (codes "document") ∷ is_mark (codes ")") ∷ is_mark (codes ".") ∷ is_name (codes "ready") ∷ []) words.now.words ≡ result }
{
    if !is_jquery_call(words) {
        return false;
    }
    is_document_ready(&words.behind().behind())
}

#[tactic(auto, using(jq_words::proofs::FitSteps::fits_no, jq_words::proofs::FitSteps::fits_then, jq_words::proofs::FitSteps::fits_one))]
fn is_foreign(words: &Words<'_>) -> bool
    ensures { fits (is_name_among jquery ∷ is_mark (codes ".") ∷ is_any_name ∷ []) words.now.words ≡ result }
{
    if !begins_jquery(words) {
        return false;
    }
    let dot = words.behind();
    if !begins(&dot, b".") {
        return false;
    }
    begins_any_name(&dot.behind())
}

#[tactic(auto, unfolding(jq_words::specs::Words::first_is), using(jq_cursor::proofs::KeywordTables::same_jquery, crate::proofs::Tables::same_timers))]
fn begins_own_name(words: &Words<'_>) -> bool
    ensures { first_is spec.is_own_name words.now.words ≡ result }
{
    match words.first() {
        None => false,
        Some(word) => {
            word.is_any_name() && !word.is_name_among(&JQUERY) && !word.is_name_among(&TIMERS)
        }
    }
}

#[tactic(auto, unfolding(jq_words::specs::Words::first_is), using(crate::proofs::Tables::same_setting))]
pub(crate) fn begins_setting(words: &Words<'_>) -> bool
    ensures { first_is (is_mark_among spec.setting) words.now.words ≡ result }
{
    match words.first() {
        None => false,
        Some(word) => word.is_mark_among(&SETTING),
    }
}

#[tactic(auto, unfolding(jq_words::specs::Words::first_is), using(crate::proofs::Tables::same_setting, crate::proofs::Tables::same_stepping))]
fn begins_new_value(words: &Words<'_>) -> bool
    ensures { first_is (λ w. is_mark_among spec.setting w || is_mark_among spec.stepping w) words.now.words ≡ result }
{
    match words.first() {
        None => false,
        Some(word) => word.is_mark_among(&SETTING) || word.is_mark_among(&STEPPING),
    }
}

#[tactic(auto, using(jq_words::proofs::FitSteps::fits_no, jq_words::proofs::FitSteps::fits_then, jq_words::proofs::FitSteps::fits_one))]
fn is_set(words: &Words<'_>) -> bool
    ensures { fits (spec.is_own_name ∷ (λ w. is_mark_among spec.setting w || is_mark_among spec.stepping w) ∷ []) words.now.words ≡ result }
{
    if !begins_own_name(words) {
        return false;
    }
    begins_new_value(&words.behind())
}

#[tactic(auto, using(jq_words::proofs::FitSteps::fits_no, jq_words::proofs::FitSteps::fits_then, jq_words::proofs::FitSteps::fits_one))]
fn is_name_with_dot(words: &Words<'_>) -> bool
    ensures { fits (spec.is_own_name ∷ is_mark (codes ".") ∷ []) words.now.words ≡ result }
{
    if !begins_own_name(words) {
        return false;
    }
    begins(&words.behind(), b".")
}

#[tactic(auto, using(jq_words::proofs::FitSteps::fits_no, jq_words::proofs::FitSteps::fits_then, jq_words::proofs::FitSteps::fits_one))]
fn is_once(words: &Words<'_>) -> bool
    ensures { fits (is_mark (codes "(") ∷ is_name (codes "function") ∷ []) words.now.words ≡ result }
{
    if !begins(words, b"(") {
        return false;
    }
    begins_name(&words.behind(), b"function")
}

/// What a statement is, whose first word may be a name that is bound to a chain. Constant.
#[tactic(auto, unfolding(crate::specs::Openings::form_of))]
pub fn form_of(bound: bool, words: &Words<'_>) -> StatementForm
    ensures { spec.form_of bound words.now.words ≡ result }
{
    if begins(words, b";") {
        return StatementForm::Empty;
    }
    if begins(words, b"{") {
        return StatementForm::Block;
    }
    if is_declaration(words) {
        return StatementForm::Declaration;
    }
    if begins_name(words, b"function") {
        return StatementForm::Function;
    }
    if begins_name(words, b"if") {
        return StatementForm::Branch;
    }
    if begins_name(words, b"return") {
        return StatementForm::Return;
    }
    if is_start(words) {
        return StatementForm::Start;
    }
    if is_ready(words) {
        return StatementForm::Ready;
    }
    if is_jquery_call(words) {
        return StatementForm::Chain;
    }
    if is_foreign(words) {
        return StatementForm::Foreign;
    }
    if is_timer(words) {
        return StatementForm::Timer;
    }
    if is_set(words) {
        return StatementForm::Set;
    }
    if is_name_with_dot(words) && bound {
        return StatementForm::Chain;
    }
    if is_once(words) {
        return StatementForm::Once;
    }
    StatementForm::Free
}
