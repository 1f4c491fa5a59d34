//! Declarations, one behind another.
ghost use Rattle.std.specs.Prelude.{◌≡◌, option_map, OnOk, IfOk, IfErr};
ghost use Rattle.sel_text.specs.Results.{IsFront};
ghost use Rattle.jq_words.specs.Results.{Leaves, Turns, IsRest, IsBehind};
ghost use Rattle.jq_words.specs.declared.faults.ScriptFault.TheVariants.{Memory};
ghost use Rattle.jq_parts.specs.Scopes.{places_of};
ghost use Rattle.jq_parts.specs.ScopeViews.{handlers_of};
ghost use Rattle.jq_parts.specs.Bindings.{under_bound};
ghost use Rattle.jq_parts.specs.Views.{value_of, bound_value, bound_under};
ghost use Rattle.jq_read.specs.Statements as spec;
ghost use Rattle.jq_read.specs.Readers.{context_of, state_of, GoesOn};

use crate::bodies::function;
use crate::bound_names::is_chain_here;
use crate::chains::chain;
use crate::readings::Reading;
use jq_forms::list_in;
use jq_parts::{Bound, Declaration, Handler, Value, same_places};
use jq_words::{ScriptFault, begins, begins_name};
use std::alloc::Global;
use std::rc::Rc;
use tp_base::NoMemory;

// The places of handlers, outermost first.
fn places(alloc: Global, handlers: &[Handler]) -> Result<Vec<usize>, NoMemory>
    ensures { IfOk result (λ v. v.items ≡ places_of (handlers_of handlers.now)) }
{
    let mut found = Vec::new(alloc);
    for handler in handlers {
        found.push(handler.at)?;
    }
    Ok(found)
}

// The places of handlers, shared with the last declaration where it stands under the same ones. Linear in them.
#[tactic(auto, using(tp_base::proofs::Lists::same_bytes))]
fn shared_places(
    alloc: Global,
    handlers: &[Handler],
    last: &mut Rc<Vec<usize>>,
) -> Result<Rc<Vec<usize>>, NoMemory>
    ensures { IfOk result (λ v. v.value.items ≡ places_of (handlers_of handlers.now)) }
{
    if same_places(last.as_slice(), handlers) {
        return Ok(last.clone()?);
    }
    let found = Rc::new(alloc, places(alloc, handlers)?)?;
    *last = found.clone()?;
    Ok(found)
}

// What a value binds a name to, under the handlers round it.
fn bound_to(
    alloc: Global,
    value: Option<Value>,
    handlers: &[Handler],
    last: &mut Rc<Vec<usize>>,
) -> Result<Option<Box<Bound>>, NoMemory>
    ensures value { IfOk result (λ b. bound_value b ≡ option_map value_of value) }
    ensures under { IfOk result (λ b. bound_under b ≡ under_bound (option_map value_of value) (places_of (handlers_of handlers.now))) }
{
    let Some(value) = value else {
        return Ok(None);
    };
    let under = shared_places(alloc, handlers, last)?;
    Ok(Some(Box::new(alloc, Bound { value, under })?))
}

// One declaration more, under the handlers round it.
#[tactic(auto, using(sel_text::proofs::Fronts::front_itself, jq_parts::proofs::HandlerSteps::declared))]
fn declare<'a>(
    reading: &mut Reading<'_, 'a>,
    name: &'a [u8],
    value: Option<Value>,
) -> Result<(), ScriptFault>
    ensures declared { OnOk result (state_of reading.new ≡ spec.with_declaration (record { name = name.now; value = option_map value_of value; under = under_bound (option_map value_of value) (places_of (context_of reading.old).handlers) }) (state_of reading.old)) }
    ensures words { reading.new.words ≡ reading.old.words }
    ensures kept { OnOk result (context_of reading.new ≡ context_of reading.old) }
    ensures front { IsFront reading.old.grown.atoms reading.new.grown.atoms }
    ensures only_memory { IfErr result (λ e. e ≡ Memory) }
{
    let bound = bound_to(
        reading.reader.alloc,
        value,
        &reading.scope.handlers,
        &mut reading.places,
    )?;
    let declaration = Declaration { name, bound };
    reading.scope.declarations.push(declaration)?;
    Ok(())
}

// The value behind a name that is declared, where there is one: the chain, if it is one.
#[cycle(grammar)]
#[tactic(auto, unfolding(crate::specs::Statements::value_behind, crate::specs::Statements::declared_value), using(sel_text::proofs::Fronts::front_itself, jq_words::proofs::Files::itself, jq_words::proofs::Files::passed_behind))]
fn value_behind(reading: &mut Reading<'_, '_>, room: usize) -> Result<Option<Value>, ScriptFault>
    ensures gives { Turns (option_map value_of) (state_of reading.new) reading.new.words.words result (spec.value_behind (spec.block room) room (context_of reading.old) (state_of reading.old) reading.old.words.words) }
    ensures goes_on { GoesOn IsRest reading.old reading.new result }
{
    let reader = reading.reader;
    if !begins(reading.words.words(), b"=") {
        return Ok(None);
    }
    reading.words.pass();
    if begins_name(reading.words.words(), b"function") {
        function(reading, None, room)?;
        return Ok(None);
    }
    if is_chain_here(reading)? {
        let value = chain(reading, room)?;
        return Ok(Some(value));
    }
    list_in(
        reader,
        reading.scope.has_this,
        false,
        room,
        &mut reading.words,
    )?;
    Ok(None)
}

// A name, and its value where there is one.
#[cycle(grammar)]
#[tactic(auto, unfolding(crate::specs::Statements::one), using(sel_text::proofs::Fronts::front_itself, sel_text::proofs::Fronts::front_of_front, jq_words::proofs::Files::behind_rest))]
fn one(reading: &mut Reading<'_, '_>, room: usize) -> Result<(), ScriptFault>
    ensures gives { Leaves (state_of reading.new, reading.new.words.words) result (spec.one (spec.block room) room (context_of reading.old) (state_of reading.old) reading.old.words.words) }
    ensures goes_on { GoesOn IsBehind reading.old reading.new result }
{
    let name = reading.words.want_name()?;
    let value = value_behind(reading, room)?;
    declare(reading, name, value)?;
    Ok(())
}

// Further ones, each behind a comma.
#[cycle(grammar)]
#[tactic(auto, using(sel_text::proofs::Fronts::front_itself, sel_text::proofs::Fronts::front_of_front, crate::proofs::DeclarationSteps::goes_on, crate::proofs::DeclarationSteps::fails, crate::proofs::DeclarationSteps::ends, jq_words::proofs::Files::itself, jq_words::proofs::Files::is_rest, jq_words::proofs::Files::of_rest))]
fn more_ones(reading: &mut Reading<'_, '_>, room: usize) -> Result<(), ScriptFault>
    ensures gives { Leaves (state_of reading.new, reading.new.words.words) result (spec.more_ones (spec.block room) room (context_of reading.old) (state_of reading.old) 0 reading.old.words.words) }
    ensures goes_on { GoesOn IsRest reading.old reading.new result }
{
    'ones: while begins(reading.words.words(), b",") {
        reading.words.pass();
        one(reading, room)?;
    }
    Ok(())
}

/// Behind `var`, `let` or `const`.
#[cycle(grammar)]
#[tactic(auto, unfolding(crate::specs::Statements::declaration), using(sel_text::proofs::Fronts::front_itself, sel_text::proofs::Fronts::front_of_front))]
pub(crate) fn declaration(reading: &mut Reading<'_, '_>, room: usize) -> Result<(), ScriptFault>
    ensures gives { Leaves (state_of reading.new, reading.new.words.words) result (spec.declaration (spec.block room) room (context_of reading.old) (state_of reading.old) reading.old.words.words) }
    ensures goes_on { GoesOn IsBehind reading.old reading.new result }
{
    one(reading, room)?;
    more_ones(reading, room)?;
    reading.words.end()?;
    Ok(())
}
