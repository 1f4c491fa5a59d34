//! The beginnings of chains. J stands for `$` or `jQuery`.
ghost use Rattle.std.specs.Prelude.{◌≤◌, OnOk};
ghost use Rattle.sel_text.specs.Results.{IsFront};
ghost use Rattle.jq_words.specs.Results.{Gives, Finds, Turns, InFile, IsBehind};
ghost use Rattle.jq_words.specs.declared.faults.TheConstants.{MOST_FOREST_NODES};
ghost use Rattle.jq_parts.specs.Roots as spec;
ghost use Rattle.jq_parts.specs.Views.{value_of};
ghost use Rattle.jq_parts.specs.ScopeViews.{grown_of, scope_of};

use crate::markup::{Grown, forest};
use crate::scopes::{Scope, used};
use crate::values::{Value, matched, this_chain};
use jq_cursor::{Cursor, PAGES, Reader, is_jquery_call, selectors, spelled};
use jq_words::{ScriptFault, Words, argument_len, is_markup, joined_texts, only, place};
use std::alloc::Global;

// The value of `this`, of document or window, or of a bound name. A look-up, and a copy where the value is markup.
#[tactic(auto, using(crate::proofs::RootSteps::no_root, crate::proofs::RootSteps::this_root, crate::proofs::RootSteps::this_refused, crate::proofs::RootSteps::page_root, crate::proofs::RootSteps::name_root, crate::proofs::RootSteps::other_root))]
fn named_root(alloc: Global, scope: &Scope<'_>, words: &Words<'_>) -> Result<Value, ScriptFault>
    ensures { Gives value_of result (spec.named_root words.now.size (scope_of scope.now) words.now.words) }
{
    let at = place(words);
    let Some(word) = only(words) else {
        return Err(ScriptFault::ComplexArgument(at));
    };
    if word.is_name(b"this") {
        if !scope.has_this {
            return Err(ScriptFault::ThisOutside(at));
        }
        return Ok(Value::Elements(this_chain(alloc)?));
    }
    if word.is_name_among(&PAGES) {
        return Ok(Value::Everywhere);
    }
    if !word.is_any_name() {
        return Err(ScriptFault::ComplexArgument(at));
    }
    used(alloc, scope, word.spelling(), at)
}

// The value of string literals: markup, or the elements that a list of selectors matches.
#[tactic(auto, unfolding(crate::specs::Roots::lettered_root))]
fn lettered_root(
    alloc: Global,
    at: usize,
    letters: &[u8],
    grown: &mut Grown,
) -> Result<Value, ScriptFault>
    ensures gives { Finds value_of (grown_of grown.new) result (spec.lettered_root at letters.now (grown_of grown.old)) }
    ensures few { grown.old.nodes ≤ MOST_FOREST_NODES → OnOk result (grown.new.nodes ≤ MOST_FOREST_NODES) }
    ensures front { IsFront grown.old.atoms grown.new.atoms }
{
    if is_markup(letters) {
        let trees = forest(alloc, at, letters, grown)?;
        return Ok(Value::Markup(trees));
    }
    let list = selectors(alloc, at, letters, &mut grown.atoms)?;
    Ok(Value::Elements(matched(alloc, list)?))
}

/// The value of the argument of J. Linear in the argument, besides look-ups of names.
#[tactic(auto, unfolding(crate::specs::Roots::jquery_argument), using(html_subset::proofs::Fronts::front_itself))]
pub fn jquery_argument(
    reader: Reader<'_>,
    scope: &Scope<'_>,
    words: &Words<'_>,
    grown: &mut Grown,
) -> Result<Value, ScriptFault>
    ensures gives { Finds value_of (grown_of grown.new) result (spec.jquery_argument words.now.size (scope_of scope.now) words.now.words (grown_of grown.old)) }
    ensures few { grown.old.nodes ≤ MOST_FOREST_NODES → OnOk result (grown.new.nodes ≤ MOST_FOREST_NODES) }
    ensures front { IsFront grown.old.atoms grown.new.atoms }
{
    match joined_texts(reader.alloc, words)? {
        Some(letters) => lettered_root(reader.alloc, place(words), &letters, grown),
        None => named_root(reader.alloc, scope, words),
    }
}

// The value of the argument of J, which stands in brackets behind it. At most `room` brackets may still be opened.
#[tactic(auto, unfolding(crate::specs::Roots::wrapped_root))]
fn wrapped_root(
    reader: Reader<'_>,
    room: usize,
    scope: &Scope<'_>,
    grown: &mut Grown,
    words: &mut Cursor<'_, '_>,
) -> Result<Value, ScriptFault>
    ensures gives { Turns value_of (grown_of grown.new) words.new.words result (spec.wrapped_root words.old.size room (scope_of scope.now) (grown_of grown.old) words.old.words) }
    ensures few { grown.old.nodes ≤ MOST_FOREST_NODES → OnOk result (grown.new.nodes ≤ MOST_FOREST_NODES) }
    ensures rest { OnOk result (InFile IsBehind words.old words.new) }
    ensures front { IsFront grown.old.atoms grown.new.atoms }
{
    words.want_open(room, b"(")?;
    let count = argument_len(reader.alloc, false, words.words())?;
    let given = words.words().front(count);
    if given.first().is_none() {
        return Err(ScriptFault::UnknownForm(place(words.words())));
    }
    let value = jquery_argument(reader, scope, &given, grown)?;
    words.pass_all(count);
    words.want(b")")?;
    Ok(value)
}

/// Passes the beginning of a chain: J with its argument, or a bound name. Linear in its words, besides look-ups of names.
#[tactic(auto, unfolding(crate::specs::Roots::root))]
pub fn root(
    reader: Reader<'_>,
    room: usize,
    scope: &Scope<'_>,
    grown: &mut Grown,
    words: &mut Cursor<'_, '_>,
) -> Result<Value, ScriptFault>
    ensures gives { Turns value_of (grown_of grown.new) words.new.words result (spec.root words.old.size room (scope_of scope.now) (grown_of grown.old) words.old.words) }
    ensures few { grown.old.nodes ≤ MOST_FOREST_NODES → OnOk result (grown.new.nodes ≤ MOST_FOREST_NODES) }
    ensures rest { OnOk result (InFile IsBehind words.old words.new) }
    ensures front { IsFront grown.old.atoms grown.new.atoms }
{
    if is_jquery_call(words.words()) {
        words.pass();
        return wrapped_root(reader, room, scope, grown, words);
    }
    let value = used(
        reader.alloc,
        scope,
        spelled(words.words()),
        place(words.words()),
    )?;
    words.pass();
    Ok(value)
}
