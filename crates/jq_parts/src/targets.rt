//! The chain of the elements where markup is placed. J stands for `$` or `jQuery`.
ghost use Rattle.std.specs.Prelude.{◌≡◌, [], ◌∷◌, Bool, false, codes, drop, IfSome, IfNone, IsUtf8};
ghost use Rattle.sel_text.specs.Results.{IsFront};
ghost use Rattle.jq_words.specs.Words.{Word, is_mark, is_name_among, is_form, spelled};
ghost use Rattle.jq_words.specs.Results.{Gives, Finds};
ghost use Rattle.jq_cursor.specs.Keywords.{jquery};
ghost use Rattle.jq_parts.specs.Bindings.{bound};
ghost use Rattle.jq_parts.specs.Arguments as spec;
ghost use Rattle.jq_chains.specs.SharedChains.{shared_of};
ghost use Rattle.jq_parts.specs.Views.{declarations_of};
ghost use Rattle.jq_parts.specs.ScopeViews.{scope_of};

use crate::declarations::Declarations;
use crate::scopes::{Scope, used};
use crate::values::{Value, matched, this_chain};
use jq_chains::SharedChain;
use jq_cursor::{PAGES, Reader, is_jquery_call, selectors, spelled};
use jq_words::{ScriptFault, Word, Words, joined_texts, only, place, want_open};
use std::alloc::Global;
use tp_base::AtomTable;

// Whether a name is bound to a value that isn't a set of elements.
#[tactic(auto, unfolding(crate::specs::Bindings::bound))]
fn is_apart(declarations: &Declarations<'_>, name: &[u8]) -> bool
    ensures { spec.is_apart (bound name.now (declarations_of declarations.now)) ≡ result }
{
    let Some(declaration) = declarations.latest(name) else {
        return false;
    };
    match &declaration.bound {
        None => false,
        Some(bound) => !matches!(bound.value, Value::Elements(_)),
    }
}

// The elements of a bound name at `name_at`, in an argument that begins at `at`.
#[tactic(auto, unfolding(crate::specs::Arguments::named_target))]
fn named_target(
    alloc: Global,
    scope: &Scope<'_>,
    at: usize,
    name: &[u8],
    name_at: usize,
) -> Result<SharedChain, ScriptFault>
    requires text { IsUtf8 name.now }
    ensures { Gives shared_of result (spec.named_target (scope_of scope.now) at name.now name_at) }
{
    if is_apart(&scope.declarations, name) {
        return Err(ScriptFault::ComplexArgument(at));
    }
    match used(alloc, scope, name, name_at)? {
        Value::Elements(chain) => Ok(chain),
        _ => Err(ScriptFault::ComplexArgument(at)),
    }
}

// The first word, where only a closing bracket stands behind it.
#[tactic(auto, using(crate::proofs::TargetSteps::closed, crate::proofs::TargetSteps::none_closed, crate::proofs::TargetSteps::other_closed, crate::proofs::TargetSteps::more_closed))]
fn closed_word<'a>(words: &Words<'a>) -> Option<Word<'a>>
    ensures first { IfSome result (λ w. words.now.words ≡ w ∷ drop 1 words.now.words) }
    ensures some { IfSome result (λ w. (p : Word → Bool) → is_form (p ∷ is_mark (codes ")") ∷ []) words.now.words ≡ p w) }
    ensures none { IfNone result ((p : Word → Bool) → is_form (p ∷ is_mark (codes ")") ∷ []) words.now.words ≡ false) }
{
    let Some(word) = words.first() else {
        return None;
    };
    let Some(close) = only(&words.behind()) else {
        return None;
    };
    if !close.is_mark(b")") {
        return None;
    }
    Some(word)
}

// The word in the brackets of J, where the words are J with one word in its brackets.
#[tactic(auto, using(jq_words::proofs::FitSteps::form_then_two, jq_words::proofs::FitSteps::form_no_two))]
fn wrapped_word<'a>(words: &Words<'a>) -> Option<Word<'a>>
    ensures first { IfSome result (λ w. drop 1 (drop 1 words.now.words) ≡ w ∷ drop 1 (drop 1 (drop 1 words.now.words))) }
    ensures some { IfSome result (λ w. (p : Word → Bool) → is_form (is_name_among jquery ∷ is_mark (codes "(") ∷ p ∷ is_mark (codes ")") ∷ []) words.now.words ≡ p w) }
    ensures none { IfNone result ((p : Word → Bool) → is_form (is_name_among jquery ∷ is_mark (codes "(") ∷ p ∷ is_mark (codes ")") ∷ []) words.now.words ≡ false) }
{
    if !is_jquery_call(words) {
        return None;
    }
    closed_word(&words.behind().behind())
}

// The elements of a name in the brackets of J. The words begin with these brackets.
#[tactic(auto, unfolding(crate::specs::Arguments::wrapped_target))]
fn wrapped_target(
    reader: Reader<'_>,
    room: usize,
    scope: &Scope<'_>,
    at: usize,
    words: &Words<'_>,
) -> Result<SharedChain, ScriptFault>
    ensures { Gives shared_of result (spec.wrapped_target words.now.size room (scope_of scope.now) at words.now.words) }
{
    let mut inside = words.again();
    if is_apart(&scope.declarations, spelled(&words.behind())) {
        return Err(ScriptFault::ComplexArgument(at));
    }
    want_open(room, b"(", &mut inside)?;
    named_target(reader.alloc, scope, at, spelled(&inside), place(&inside))
}

// The chain of `this` in the brackets of J.
#[tactic(auto, unfolding(crate::specs::Arguments::wrapped_this))]
fn wrapped_this(
    alloc: Global,
    room: usize,
    scope: &Scope<'_>,
    words: &Words<'_>,
) -> Result<SharedChain, ScriptFault>
    ensures { Gives shared_of result (spec.wrapped_this words.now.size room (scope_of scope.now) words.now.words) }
{
    let mut inside = words.again();
    want_open(room, b"(", &mut inside)?;
    if !scope.has_this {
        return Err(ScriptFault::ThisOutside(place(&inside)));
    }
    Ok(this_chain(alloc)?)
}

// The elements of an argument at `at` that is a bound name alone.
#[tactic(auto, using(crate::proofs::TargetSteps::no_bare, crate::proofs::TargetSteps::other_bare, crate::proofs::TargetSteps::this_bare, crate::proofs::TargetSteps::bare))]
fn bare_target(
    alloc: Global,
    scope: &Scope<'_>,
    at: usize,
    words: &Words<'_>,
) -> Result<SharedChain, ScriptFault>
    ensures { Gives shared_of result (spec.bare_target (scope_of scope.now) at words.now.words) }
{
    let Some(word) = only(words) else {
        return Err(ScriptFault::ComplexArgument(at));
    };
    if !word.is_any_name() {
        return Err(ScriptFault::ComplexArgument(at));
    }
    if word.is_name(b"this") {
        return Err(ScriptFault::ComplexArgument(at));
    }
    named_target(alloc, scope, at, word.spelling(), at)
}

// The elements of `J(this)`, `J(name)` or a bound name.
#[tactic(auto, using(crate::proofs::TargetSteps::not_wrapped, crate::proofs::TargetSteps::this_wrapped, crate::proofs::TargetSteps::other_wrapped, crate::proofs::TargetSteps::page_wrapped, crate::proofs::TargetSteps::name_wrapped, jq_cursor::proofs::KeywordTables::same_pages))]
fn other_target(
    reader: Reader<'_>,
    room: usize,
    scope: &Scope<'_>,
    words: &Words<'_>,
) -> Result<SharedChain, ScriptFault>
    ensures { Gives shared_of result (spec.other_target words.now.size room (scope_of scope.now) words.now.words) }
{
    let at = place(words);
    let Some(word) = wrapped_word(words) else {
        return bare_target(reader.alloc, scope, at, words);
    };
    if word.is_name(b"this") {
        return wrapped_this(reader.alloc, room, scope, &words.behind());
    }
    if !word.is_any_name() {
        return Err(ScriptFault::ComplexArgument(at));
    }
    if word.is_name_among(&PAGES) {
        return Err(ScriptFault::ComplexArgument(at));
    }
    wrapped_target(reader, room, scope, at, &words.behind())
}

/// The chain of the elements where markup is placed: string literals with selectors, `J(this)`, `J(name)` or a bound name. At most
/// `room` brackets may still be opened. Linear in the letters of the literals, besides look-ups of names.
#[tactic(auto, unfolding(crate::specs::Arguments::target), using(html_subset::proofs::Fronts::front_itself))]
pub fn target(
    reader: Reader<'_>,
    room: usize,
    scope: &Scope<'_>,
    words: &Words<'_>,
    atoms: &mut AtomTable,
) -> Result<SharedChain, ScriptFault>
    ensures gives { Finds shared_of atoms.new result (spec.target words.now.size room (scope_of scope.now) words.now.words atoms.old) }
    ensures front { IsFront atoms.old atoms.new }
{
    let Some(letters) = joined_texts(reader.alloc, words)? else {
        return other_target(reader, room, scope, words);
    };
    let list = selectors(reader.alloc, place(words), &letters, atoms)?;
    Ok(matched(reader.alloc, list)?)
}
