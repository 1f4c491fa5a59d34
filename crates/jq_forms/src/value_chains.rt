//! Whether a declared value is a chain.
ghost use Rattle.std.specs.Prelude.{◌≡◌, true, false, [], ◌∷◌, drop, codes, IfSome, IfNone, IfOk, IfErr};
ghost use Rattle.jq_words.specs.Words.{is_mark, is_any_name, fits};
ghost use Rattle.jq_words.specs.declared.faults.ScriptFault.TheVariants.{Memory};
ghost use Rattle.jq_cursor.specs.Lists.{extent};
ghost use Rattle.jq_cursor.specs.ListViews.{extent_of};
ghost use Rattle.jq_forms.specs.Values as spec;

use jq_cursor::{Cursor, Enclosed, JQUERY, is_jquery_call, spelled};
use jq_words::{ScriptFault, Words, begins, begins_any_name, is_one_of, row_of};
use std::alloc::Global;

/// The calls that read a value without an argument.
pub const READ_BARE: [&[u8]; 2] = [b"val", b"text"];

/// The calls that read a value without an argument, or by one that is no object.
pub const READ_ONE: [&[u8]; 2] = [b"css", b"data"];

/// The calls that read a value where one argument is given, and give one where there are two.
pub const READ_SINGLE: [&[u8]; 1] = [b"attr"];

// Whether a call reads a value with so many arguments, which begin with these words.
#[tactic(auto, using(crate::proofs::ValueSteps::same_bare, crate::proofs::ValueSteps::same_one, crate::proofs::ValueSteps::same_single))]
fn reads_with(name: &[u8], count: usize, inside: &Words<'_>) -> bool
    ensures { spec.reads_with name.now count inside.now.words ≡ result }
{
    (is_one_of(&READ_BARE, name) && count == 0)
        || (is_one_of(&READ_SINGLE, name) && count == 1)
        || (is_one_of(&READ_ONE, name) && (count == 0 || (count == 1 && !begins(inside, b"{"))))
}

// The words behind a list and its closing bracket, where it is closed.
fn behind_list<'l, 'a>(enclosed: &Enclosed<'l, 'a>) -> Option<Cursor<'l, 'a>>
    ensures some { IfSome result (λ c. spec.behind_extent (extent_of enclosed.now) ≡ c.words) }
    ensures none { IfNone result (spec.behind_extent (extent_of enclosed.now) ≡ []) }
{
    if !enclosed.whole || !begins(enclosed.behind.words(), b")") {
        return None;
    }
    let mut rest = enclosed.behind.again();
    rest.pass();
    Some(rest)
}

// Whether a name is called.
#[tactic(auto, using(jq_words::proofs::FitSteps::fits_no, jq_words::proofs::FitSteps::fits_then, jq_words::proofs::FitSteps::fits_one))]
fn begins_call(words: &Words<'_>) -> bool
    ensures { fits (is_any_name ∷ is_mark (codes "(") ∷ []) words.now.words ≡ result }
{
    if !begins_any_name(words) {
        return false;
    }
    begins(&words.behind(), b"(")
}

// Whether a `.` and a name stand first.
#[tactic(auto, using(jq_words::proofs::FitSteps::fits_no, jq_words::proofs::FitSteps::fits_then, jq_words::proofs::FitSteps::fits_one))]
fn begins_member(words: &Words<'_>) -> bool
    ensures { fits (is_mark (codes ".") ∷ is_any_name ∷ []) words.now.words ≡ result }
{
    if !begins(words, b".") {
        return false;
    }
    begins_any_name(&words.behind())
}

// Whether a script may have a call.
fn is_known(exact: bool, name: &[u8]) -> bool
    ensures { spec.is_known exact name.now ≡ result }
{
    row_of(exact, name).is_some()
}

// The arguments of a name behind a `.`, where it is a call that a script may have and that reads no value.
#[tactic(auto, using(crate::proofs::ValueSteps::no_call, crate::proofs::ValueSteps::unknown_call))]
fn chain_call<'l, 'a>(
    alloc: Global,
    exact: bool,
    words: &Cursor<'l, 'a>,
) -> Result<Option<Enclosed<'l, 'a>>, ScriptFault>
    ensures call { IfOk result (λ r. IfSome r (λ e. spec.is_chain_call exact words.now.words ≡ true)) }
    ensures arguments { IfOk result (λ r. IfSome r (λ e. extent_of e ≡ extent (drop 1 (drop 1 words.now.words)))) }
    ensures other { IfOk result (λ r. IfNone r (spec.is_chain_call exact words.now.words ≡ false)) }
    ensures only_memory { IfErr result (λ e. e ≡ Memory) }
{
    let name = spelled(words.words());
    if !begins_call(words.words()) || !is_known(exact, name) {
        return Ok(None);
    }
    let mut list = words.again();
    list.pass();
    let enclosed = list.enclosed(alloc)?;
    if reads_with(name, enclosed.count, &list.words().behind()) {
        return Ok(None);
    }
    Ok(Some(enclosed))
}

// Whether the calls of a value, each with its `.`, are those of a chain.
#[tactic(auto, using(crate::proofs::ValueSteps::goes_on, crate::proofs::ValueSteps::ends, crate::proofs::ValueSteps::fails, crate::proofs::ValueSteps::over, crate::proofs::ValueSteps::shorter))]
fn are_chain_calls(alloc: Global, exact: bool, words: Cursor<'_, '_>) -> Result<bool, ScriptFault>
    ensures gives { IfOk result (λ b. spec.are_chain_calls exact 0 words.entry.words ≡ b) }
    ensures only_memory { IfErr result (λ e. e ≡ Memory) }
{
    let mut rest = words;
    'calls: while begins_member(rest.words()) {
        rest.pass();
        let Some(enclosed) = chain_call(alloc, exact, &rest)? else {
            return Ok(false);
        };
        let Some(behind) = behind_list(&enclosed) else {
            return Ok(true);
        };
        rest = behind;
    }
    Ok(true)
}

// Whether a value that begins with J and a bracket is a chain.
#[tactic(auto, using(crate::proofs::ValueSteps::behind_it, crate::proofs::ValueSteps::none_behind))]
fn is_jquery_chain(alloc: Global, exact: bool, words: &Cursor<'_, '_>) -> Result<bool, ScriptFault>
    ensures gives { IfOk result (λ b. spec.are_chain_calls exact 0 (spec.behind_list (drop 1 (drop 1 words.now.words))) ≡ b) }
    ensures only_memory { IfErr result (λ e. e ≡ Memory) }
{
    let mut list = words.again();
    list.pass();
    let enclosed = list.enclosed(alloc)?;
    let Some(behind) = behind_list(&enclosed) else {
        return Ok(true);
    };
    are_chain_calls(alloc, exact, behind)
}

// Whether a name stands first, which may be bound to a chain, and isn't J.
#[tactic(auto, using(jq_cursor::proofs::KeywordTables::same_jquery, crate::proofs::ValueSteps::no_first, crate::proofs::ValueSteps::other_first, crate::proofs::ValueSteps::jquery_first, crate::proofs::ValueSteps::bound_first))]
fn begins_bound(bound: bool, words: &Words<'_>) -> bool
    ensures { spec.begins_bound bound words.now.words ≡ result }
{
    let Some(word) = words.first() else {
        return false;
    };
    if !word.is_any_name() {
        return false;
    }
    if word.is_name_among(&JQUERY) {
        return false;
    }
    bound
}

/// Whether a declared value that begins with these words is a chain. The first word may be bound to a chain. `exact` says
/// whether sharp calls count. A look-up for each call.
#[tactic(auto, unfolding(crate::specs::Values::is_chain), using(jq_words::proofs::Rests::two_passed))]
pub fn is_chain(
    alloc: Global,
    exact: bool,
    bound: bool,
    words: &Cursor<'_, '_>,
) -> Result<bool, ScriptFault>
    ensures gives { IfOk result (λ b. spec.is_chain exact bound words.now.words ≡ b) }
    ensures only_memory { IfErr result (λ e. e ≡ Memory) }
{
    if is_jquery_call(words.words()) {
        return is_jquery_chain(alloc, exact, words);
    }
    if !begins_bound(bound, words.words()) {
        return Ok(false);
    }
    let mut rest = words.again();
    rest.pass();
    are_chain_calls(alloc, exact, rest)
}
