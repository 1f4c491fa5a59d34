//! The arguments of a call that takes no function.
ghost use Rattle.std.specs.Prelude.{◌≡◌, true, Some, None, Ok, IfOk, IfErr, OnOk};
ghost use Rattle.sel_text.specs.Results.{IsFront};
ghost use Rattle.jq_stmts.specs.Sharp.{plain, first};
ghost use Rattle.jq_stmts.specs.Statements.{back};
ghost use Rattle.jq_stmts.specs.Views as sem;
ghost use Rattle.jq_words.specs.CallViews.{form_of};
ghost use Rattle.jq_words.specs.Results.{Turns, InFile, IsRest};
ghost use Rattle.jq_words.specs.declared.faults.ScriptFault.TheVariants.{Memory};
ghost use Rattle.jq_parts.specs.ScopeViews.{effect_of};
ghost use Rattle.jq_read.specs.CallArguments as spec;
ghost use Rattle.jq_parts.specs.Calls.{elements_in, and_call};
ghost use Rattle.jq_read.specs.Readers.{context_of, state_of, GoesOn};
ghost use Rattle.jq_parts.specs.Views.{value_of};
ghost use Rattle.jq_read.specs.Views.{done_of};

use crate::readings::Reading;
use crate::values::Done;
use jq_chains::MarkedCall;
use jq_cursor::{
    Cursor, Reader, add_attribute, class_set, compounds, is_attribute, selectors, some_argument,
    text_argument,
};
use jq_forms::and_list;
use jq_parts::{Value, elements, first_call, made, markup_argument, target, with_call};
use jq_stmts::{Call, Selectors};
use jq_words::{Form, ScriptFault, begins, place};
use sel_text::Compound;
use std::alloc::Global;
use text_bytes::with_value;
use tp_base::{AtomTable, ClassSet};
use tree_sem::{Action, Forest, Trees};

// A list of compounds, or no argument where there may be none.
#[tactic(auto, unfolding(crate::specs::CallArguments::compounds_argument), using(sel_text::proofs::Fronts::front_itself, jq_words::proofs::Files::itself, jq_words::proofs::Files::is_rest))]
fn compounds_argument(
    reader: Reader<'_>,
    none: bool,
    atoms: &mut AtomTable,
    words: &mut Cursor<'_, '_>,
) -> Result<Vec<Compound>, ScriptFault>
    ensures gives { Turns (λ v. sem.atoms_of v.items) atoms.new words.new.words result (spec.compounds_argument words.old.size none atoms.old words.old.words) }
    ensures rest { OnOk result (InFile IsRest words.old words.new) }
    ensures front { IsFront atoms.old atoms.new }
{
    if none {
        return Ok(Vec::new(reader.alloc));
    }
    let at = place(words.words());
    let letters = text_argument(reader.alloc, words)?;
    let found = compounds(reader.alloc, at, &letters, atoms)?;
    Ok(found)
}

/// The arguments of a call that makes a set by a list of compounds.
#[tactic(auto, unfolding(crate::specs::CallArguments::move_arguments), using(sel_text::proofs::Fronts::front_itself))]
pub(crate) fn move_arguments(
    reading: &mut Reading<'_, '_>,
    form: Form,
    none: bool,
    reached: Value,
) -> Result<Done, ScriptFault>
    ensures gives { Turns done_of (state_of reading.new) reading.new.words.words result (spec.move_arguments (context_of reading.old) (form_of form) none (value_of reached) (state_of reading.old) reading.old.words.words) }
    ensures goes_on { GoesOn IsRest reading.old reading.new result }
{
    let reader = reading.reader;
    let found = compounds_argument(reader, none, &mut reading.grown.atoms, &mut reading.words)?;
    let reached = with_call(reader.alloc, reached, made(form, found)?)?;
    Ok(Done::nothing(reached))
}

/// A call that goes back one set.
pub(crate) fn go_back(alloc: Global, reached: Value) -> Result<Done, ScriptFault>
    ensures gives { IfOk result (λ d. done_of d ≡ (and_call (value_of reached) (plain back), None)) }
    ensures only_memory { IfErr result (λ e. e ≡ Memory) }
{
    let reached = with_call(alloc, reached, MarkedCall::plain(Call::End))?;
    Ok(Done::nothing(reached))
}

/// A call that keeps the first node.
pub(crate) fn take_first(alloc: Global, reached: Value) -> Result<Done, ScriptFault>
    ensures gives { IfOk result (λ d. done_of d ≡ (and_call (value_of reached) first, None)) }
    ensures only_memory { IfErr result (λ e. e ≡ Memory) }
{
    let reached = with_call(alloc, reached, first_call(alloc)?)?;
    Ok(Done::nothing(reached))
}

/// The argument of a call that unites sets.
#[tactic(auto, unfolding(crate::specs::CallArguments::unite_arguments), using(sel_text::proofs::Fronts::front_itself, jq_words::proofs::Files::is_rest))]
pub(crate) fn unite_arguments(
    reading: &mut Reading<'_, '_>,
    reached: Value,
) -> Result<Done, ScriptFault>
    ensures gives { Turns done_of (state_of reading.new) reading.new.words.words result (spec.unite_arguments (context_of reading.old) (value_of reached) (state_of reading.old) reading.old.words.words) }
    ensures goes_on { GoesOn IsRest reading.old reading.new result }
{
    let reader = reading.reader;
    let at = place(reading.words.words());
    let letters = text_argument(reader.alloc, &mut reading.words)?;
    let found = selectors(reader.alloc, at, &letters, &mut reading.grown.atoms)?;
    let call = MarkedCall::plain(Call::Add(Selectors::new(found)?));
    let reached = with_call(reader.alloc, reached, call)?;
    Ok(Done::nothing(reached))
}

// What a call does to the elements of a value.
fn acting(reached: Value, action: Action) -> Result<Done, ScriptFault>
    ensures reached { IfOk result (λ d. value_of d.reached ≡ value_of reached) }
    ensures effect { IfOk result (λ d. spec.acting (elements_in (value_of reached)) action ≡ effect_of d.effect) }
    ensures only_memory { IfErr result (λ e. e ≡ Memory) }
{
    match elements(&reached)? {
        None => Ok(Done::nothing(reached)),
        Some(chain) => Ok(Done {
            reached,
            effect: Some((chain, action)),
        }),
    }
}

/// Classes, and then a list where there is a comma.
#[tactic(auto, unfolding(crate::specs::CallArguments::class_arguments), using(sel_text::proofs::Fronts::front_itself, jq_words::proofs::Files::behind_rest, jq_words::proofs::Files::is_rest, jq_words::proofs::Files::of_rest))]
pub(crate) fn class_arguments(
    reading: &mut Reading<'_, '_>,
    room: usize,
    reached: Value,
) -> Result<Done, ScriptFault>
    ensures gives { Turns done_of (state_of reading.new) reading.new.words.words result (spec.class_arguments (context_of reading.old) room (value_of reached) (state_of reading.old) reading.old.words.words) }
    ensures goes_on { GoesOn IsRest reading.old reading.new result }
{
    let reader = reading.reader;
    let at = place(reading.words.words());
    let letters = text_argument(reader.alloc, &mut reading.words)?;
    let classes = class_set(reader.alloc, at, &letters, &mut reading.grown.atoms)?;
    and_list(
        reader,
        reading.scope.has_this,
        true,
        room,
        &mut reading.words,
    )?;
    let done = acting(reached, Action::Classes(classes))?;
    Ok(done)
}

// The value that an attribute of this name gets, behind the comma.
#[tactic(auto, unfolding(crate::specs::CallArguments::value_argument), using(sel_text::proofs::Fronts::front_itself, sel_text::proofs::Fronts::front_of_front, jq_words::proofs::Files::passed_behind))]
fn value_argument(
    reading: &mut Reading<'_, '_>,
    reached: Value,
    name: &[u8],
    at: usize,
) -> Result<Done, ScriptFault>
    ensures gives { Turns done_of (state_of reading.new) reading.new.words.words result (spec.value_argument (context_of reading.old) (value_of reached) (state_of reading.old) name.now at reading.old.words.words) }
    ensures goes_on { GoesOn IsRest reading.old reading.new result }
{
    let reader = reading.reader;
    if !is_attribute(name) {
        return Err(ScriptFault::ComplexArgument(at));
    }
    let mut set = ClassSet::new(reader.alloc);
    add_attribute(reader.alloc, at, name, &mut set, &mut reading.grown.atoms)?;
    reading.words.pass();
    let value_at = place(reading.words.words());
    let value = text_argument(reader.alloc, &mut reading.words)?;
    let text = with_value(reader.alloc, name, &value)?;
    add_attribute(
        reader.alloc,
        value_at,
        &text,
        &mut set,
        &mut reading.grown.atoms,
    )?;
    let done = acting(reached, Action::Classes(set))?;
    Ok(done)
}

/// An attribute that is read, or that gets a value.
#[tactic(auto, unfolding(crate::specs::CallArguments::attribute_arguments), using(sel_text::proofs::Fronts::front_itself, jq_words::proofs::Files::behind_rest, jq_words::proofs::Files::is_rest, jq_words::proofs::Files::of_rest))]
pub(crate) fn attribute_arguments(
    reading: &mut Reading<'_, '_>,
    reached: Value,
) -> Result<Done, ScriptFault>
    ensures gives { Turns done_of (state_of reading.new) reading.new.words.words result (spec.attribute_arguments (context_of reading.old) (value_of reached) (state_of reading.old) reading.old.words.words) }
    ensures goes_on { GoesOn IsRest reading.old reading.new result }
{
    let reader = reading.reader;
    let at = place(reading.words.words());
    let name = text_argument(reader.alloc, &mut reading.words)?;
    if begins(reading.words.words(), b",") {
        let done = value_argument(reading, reached, &name, at)?;
        return Ok(done);
    }
    Ok(Done::nothing(reached))
}

fn added(beside: bool, forest: Forest) -> Action
    ensures { result ≡ spec.added beside forest.tops }
{
    if beside {
        Action::Beside(forest)
    } else {
        Action::Inside(forest)
    }
}

/// Markup that is added.
#[tactic(auto, unfolding(crate::specs::CallArguments::grow_arguments), using(sel_text::proofs::Fronts::front_itself, jq_words::proofs::Files::is_rest))]
pub(crate) fn grow_arguments(
    reading: &mut Reading<'_, '_>,
    room: usize,
    beside: bool,
    reached: Value,
) -> Result<Done, ScriptFault>
    ensures gives { Turns done_of (state_of reading.new) reading.new.words.words result (spec.grow_arguments (context_of reading.old) room beside (value_of reached) (state_of reading.old) reading.old.words.words) }
    ensures goes_on { GoesOn IsRest reading.old reading.new result }
{
    let reader = reading.reader;
    let given = some_argument(reader.alloc, &mut reading.words)?;
    let forest = markup_argument(reader, room, &given, &mut reading.grown)?;
    let done = acting(reached, added(beside, forest))?;
    Ok(done)
}

// The trees of markup that is still to be placed.
fn trees_in(reader: Reader<'_>, reached: Value) -> Trees
    ensures { result ≡ spec.trees_in (value_of reached) }
{
    match reached {
        Value::Markup(forest) => forest.tops,
        _ => Trees::new(Vec::new(reader.alloc)),
    }
}

/// Where the root's markup is placed, which ends the chain.
#[tactic(auto, unfolding(crate::specs::CallArguments::place_arguments), using(sel_text::proofs::Fronts::front_itself, jq_words::proofs::Files::is_rest))]
pub(crate) fn place_arguments(
    reading: &mut Reading<'_, '_>,
    room: usize,
    reached: Value,
) -> Result<Done, ScriptFault>
    ensures gives { Turns done_of (state_of reading.new) reading.new.words.words result (spec.place_arguments (context_of reading.old) room (value_of reached) (state_of reading.old) reading.old.words.words) }
    ensures goes_on { GoesOn IsRest reading.old reading.new result }
{
    let reader = reading.reader;
    let given = some_argument(reader.alloc, &mut reading.words)?;
    let chain = target(
        reader,
        room,
        &reading.scope,
        &given,
        &mut reading.grown.atoms,
    )?;
    let forest = Forest {
        tops: trees_in(reader, reached),
    };
    Ok(Done {
        reached: Value::Placed,
        effect: Some((chain, Action::Inside(forest))),
    })
}
