//! The bodies of functions, where they are declared or passed to a call.
ghost use Rattle.std.specs.Prelude.{◌≡◌, false, option_map, None, IfOk, IfErr};
ghost use Rattle.jq_words.specs.Results.{Leaves, IsBehind};
ghost use Rattle.jq_words.specs.declared.faults.ScriptFault.TheVariants.{Memory};
ghost use Rattle.jq_parts.specs.ScopeViews.{handler_of};
ghost use Rattle.jq_read.specs.Functions as functions;
ghost use Rattle.jq_read.specs.Statements as spec;
ghost use Rattle.jq_read.specs.Readers.{context_of, state_of, GoesOn};
ghost use Rattle.jq_parts.specs.Views.{value_of};
ghost use Rattle.jq_parts.specs.Calls.{elements_in};

use crate::readings::Reading;
use crate::sequences::block;
use jq_forms::{and_list, called_with, handed_other, pass_name, want_function};
use jq_parts::{Handler, Value, count_seen, elements, enter, leave, parameters};
use jq_words::{ScriptFault, begins_name, place};

/// The parameters and the block of a function, which may be a handler. Its declarations are seen in it alone.
#[cycle(grammar)]
#[tactic(auto, unfolding(crate::specs::Functions::function_body), using(sel_text::proofs::Fronts::front_itself, jq_words::proofs::Files::behind_behind, jq_parts::proofs::HandlerSteps::back))]
pub(crate) fn function_body(
    reading: &mut Reading<'_, '_>,
    handler: Option<Handler>,
    room: usize,
) -> Result<(), ScriptFault>
    ensures gives { Leaves (state_of reading.new, reading.new.words.words) result (functions.function_body (spec.block room 0) room (functions.in_handler (context_of reading.old) (option_map handler_of handler)) (state_of reading.old) reading.old.words.words) }
    ensures goes_on { GoesOn IsBehind reading.old reading.new result }
{
    let seen = count_seen(&reading.scope);
    let outer = reading.scope.handlers.len();
    let had_this = reading.scope.has_this;
    enter(handler, &mut reading.scope)?;
    parameters(room, &mut reading.scope.declarations, &mut reading.words)?;
    block(reading, room)?;
    leave(seen, outer, had_this, &mut reading.scope);
    Ok(())
}

/// A function, with a name or without, which may be a handler.
#[cycle(grammar)]
#[tactic(auto, unfolding(crate::specs::Functions::function), using(sel_text::proofs::Fronts::front_itself))]
pub(crate) fn function(
    reading: &mut Reading<'_, '_>,
    handler: Option<Handler>,
    room: usize,
) -> Result<(), ScriptFault>
    ensures gives { Leaves (state_of reading.new, reading.new.words.words) result (functions.function (spec.block room 0) room (functions.in_handler (context_of reading.old) (option_map handler_of handler)) (state_of reading.old) reading.old.words.words) }
    ensures goes_on { GoesOn IsBehind reading.old reading.new result }
{
    want_function(&mut reading.words)?;
    pass_name(&mut reading.words);
    function_body(reading, handler, room)?;
    Ok(())
}

/// Behind `function`, with its name.
#[cycle(grammar)]
#[tactic(auto, unfolding(crate::specs::Statements::named_function), using(sel_text::proofs::Fronts::front_itself, jq_words::proofs::Files::behind_behind))]
pub(crate) fn named_function(reading: &mut Reading<'_, '_>, room: usize) -> Result<(), ScriptFault>
    ensures gives { Leaves (state_of reading.new, reading.new.words.words) result (spec.named_function (spec.block room) room (context_of reading.old) (state_of reading.old) reading.old.words.words) }
    ensures goes_on { GoesOn IsBehind reading.old reading.new result }
{
    reading.words.want_name()?;
    function_body(reading, None, room)?;
    Ok(())
}

/// The handler that a function is which is handed to a call with these elements, and begins at an offset.
pub(crate) fn handler_at(at: usize, reached: &Value) -> Result<Option<Handler>, ScriptFault>
    ensures gives { IfOk result (λ h. functions.handler_at at (elements_in (value_of reached.now)) ≡ option_map handler_of h) }
    ensures only_memory { IfErr result (λ e. e ≡ Memory) }
{
    match elements(reached)? {
        None => Ok(None),
        Some(chain) => Ok(Some(Handler { chain, at })),
    }
}

/// A function that is handed to a call on a value; or what else may stand there.
#[cycle(grammar)]
#[tactic(auto, unfolding(crate::specs::Functions::handed), using(sel_text::proofs::Fronts::front_itself))]
pub(crate) fn handed(
    reading: &mut Reading<'_, '_>,
    lists: bool,
    reached: &Value,
    room: usize,
) -> Result<(), ScriptFault>
    ensures gives { Leaves (state_of reading.new, reading.new.words.words) result (functions.handed lists (spec.block room 0) room (context_of reading.old) (elements_in (value_of reached.now)) (state_of reading.old) reading.old.words.words) }
    ensures goes_on { GoesOn IsBehind reading.old reading.new result }
{
    let reader = reading.reader;
    if begins_name(reading.words.words(), b"function") {
        let at = place(reading.words.words());
        let handler = handler_at(at, reached)?;
        function(reading, handler, room)?;
        return Ok(());
    }
    handed_other(
        reader,
        lists,
        reading.scope.has_this,
        room,
        &mut reading.words,
    )?;
    Ok(())
}

/// A function that is handed to no call, in brackets.
#[cycle(grammar)]
#[tactic(auto, unfolding(crate::specs::Statements::bracketed), using(sel_text::proofs::Fronts::front_itself, crate::proofs::SequenceSteps::deeper))]
pub(crate) fn bracketed(reading: &mut Reading<'_, '_>, room: usize) -> Result<(), ScriptFault>
    ensures gives { Leaves (state_of reading.new, reading.new.words.words) result (spec.bracketed (spec.block room) room (context_of reading.old) (state_of reading.old) reading.old.words.words) }
    ensures goes_on { GoesOn IsBehind reading.old reading.new result }
{
    reading.words.want_open(room, b"(")?;
    function(reading, None, room - 1)?;
    reading.words.want(b")")?;
    Ok(())
}

/// Behind J: a function in brackets.
#[cycle(grammar)]
#[tactic(auto, unfolding(crate::specs::Statements::start), using(sel_text::proofs::Fronts::front_itself, jq_words::proofs::Files::behind_rest))]
pub(crate) fn start(reading: &mut Reading<'_, '_>, room: usize) -> Result<(), ScriptFault>
    ensures gives { Leaves (state_of reading.new, reading.new.words.words) result (spec.start (spec.block room) room (context_of reading.old) (state_of reading.old) reading.old.words.words) }
    ensures goes_on { GoesOn IsBehind reading.old reading.new result }
{
    bracketed(reading, room)?;
    reading.words.end()?;
    Ok(())
}

/// A function that is called where it stands.
#[cycle(grammar)]
#[tactic(auto, unfolding(crate::specs::Statements::once), using(sel_text::proofs::Fronts::front_itself))]
pub(crate) fn once(reading: &mut Reading<'_, '_>, room: usize) -> Result<(), ScriptFault>
    ensures gives { Leaves (state_of reading.new, reading.new.words.words) result (spec.once (spec.block room) room (context_of reading.old) (state_of reading.old) reading.old.words.words) }
    ensures goes_on { GoesOn IsBehind reading.old reading.new result }
{
    let reader = reading.reader;
    let has_this = reading.scope.has_this;
    bracketed(reading, room)?;
    called_with(reader, has_this, room, &mut reading.words)?;
    reading.words.end()?;
    Ok(())
}

/// Behind `setTimeout` or `setInterval`.
#[cycle(grammar)]
#[tactic(auto, unfolding(crate::specs::Statements::timer), using(sel_text::proofs::Fronts::front_itself, crate::proofs::SequenceSteps::deeper))]
pub(crate) fn timer(reading: &mut Reading<'_, '_>, room: usize) -> Result<(), ScriptFault>
    ensures gives { Leaves (state_of reading.new, reading.new.words.words) result (spec.timer (spec.block room) room (context_of reading.old) (state_of reading.old) reading.old.words.words) }
    ensures goes_on { GoesOn IsBehind reading.old reading.new result }
{
    let reader = reading.reader;
    let has_this = reading.scope.has_this;
    reading.words.want_open(room, b"(")?;
    handed(reading, false, &Value::Everywhere, room - 1)?;
    and_list(reader, has_this, false, room - 1, &mut reading.words)?;
    reading.words.want(b")")?;
    reading.words.end()?;
    Ok(())
}
