//! Chains of calls.
ghost use Rattle.std.specs.Prelude.{◌≡◌, ◌==◌, ◌&&◌, true, false};
ghost use Rattle.jq_words.specs.CallViews.{row_from};
ghost use Rattle.jq_words.specs.Results.{Leaves, Turns, IsRest, IsBehind};
ghost use Rattle.jq_parts.specs.Views.{value_of};
ghost use Rattle.jq_parts.specs.Calls.{elements_in};
ghost use Rattle.jq_read.specs.Chains as spec;
ghost use Rattle.jq_read.specs.Statements as statements;
ghost use Rattle.jq_read.specs.Readers.{context_of, state_of, GoesOn};
ghost use Rattle.jq_read.specs.Views.{done_of};

use crate::arguments::{
    attribute_arguments, class_arguments, go_back, grow_arguments, move_arguments, place_arguments,
    take_first, unite_arguments,
};
use crate::bodies::handed;
use crate::calls::{and_stated, listening};
use crate::readings::Reading;
use crate::values::Done;
use jq_forms::pass_comma;
use jq_parts::{Value, admitted, dot_name, ended, root};
use jq_words::{Form, Row, ScriptFault, begins};

// How many functions a call has.
fn at_least(fewest: usize, count: usize) -> usize
    ensures { result ≡ spec.at_least fewest count }
{
    if count == 0 { fewest } else { count }
}

// Whether a call's only argument is left out, as it may be.
fn is_left_out(fewest: usize, count: usize) -> bool
    ensures { result ≡ (count == 0 && fewest == 0) }
{
    count == 0 && fewest == 0
}

/// So many functions, or lists too where they may stand, with commas between them.
#[cycle(grammar)]
#[tactic(auto, using(sel_text::proofs::Fronts::front_itself, sel_text::proofs::Fronts::front_of_front, crate::proofs::SeveralSteps::goes_on, crate::proofs::SeveralSteps::fails, crate::proofs::SeveralSteps::comma_fails, crate::proofs::SeveralSteps::ends, jq_words::proofs::Files::itself, jq_words::proofs::Files::is_rest, jq_words::proofs::Files::of_rest))]
pub(crate) fn several(
    reading: &mut Reading<'_, '_>,
    lists: bool,
    reached: &Value,
    count: usize,
    room: usize,
) -> Result<(), ScriptFault>
    ensures gives { Leaves (state_of reading.new, reading.new.words.words) result (spec.several lists (statements.block room 0) room (context_of reading.old) (elements_in (value_of reached.now)) count (state_of reading.old) reading.old.words.words) }
    ensures goes_on { GoesOn IsRest reading.old reading.new result }
{
    let mut left = count;
    'arguments: while left > 0 {
        left -= 1;
        handed(reading, lists, reached, room)?;
        pass_comma(left, &mut reading.words)?;
    }
    Ok(())
}

/// Events, and a function; or events, compounds and a function.
#[cycle(grammar)]
#[tactic(auto, unfolding(crate::specs::Chains::listen_arguments), using(sel_text::proofs::Fronts::front_itself, sel_text::proofs::Fronts::front_of_front, jq_words::proofs::Files::behind_behind))]
pub(crate) fn listen_arguments(
    reading: &mut Reading<'_, '_>,
    reached: &Value,
    narrowed: bool,
    room: usize,
) -> Result<(), ScriptFault>
    ensures gives { Leaves (state_of reading.new, reading.new.words.words) result (spec.listen_arguments (statements.block room 0) room (context_of reading.old) (value_of reached.now) narrowed (state_of reading.old) reading.old.words.words) }
    ensures goes_on { GoesOn IsBehind reading.old reading.new result }
{
    let elements = listening(reading, reached, narrowed)?;
    handed(reading, false, &elements, room)?;
    Ok(())
}

/// The arguments of a call, of which there are so many, behind its opening bracket.
#[cycle(grammar)]
#[tactic(auto, unfolding(crate::specs::Chains::arguments_of), using(sel_text::proofs::Fronts::front_itself, jq_words::proofs::Files::itself, jq_words::proofs::Files::is_rest))]
pub(crate) fn call_arguments(
    reading: &mut Reading<'_, '_>,
    reached: Value,
    row: Row<'static>,
    count: usize,
    room: usize,
) -> Result<Done, ScriptFault>
    ensures gives { Turns done_of (state_of reading.new) reading.new.words.words result (spec.arguments_of (statements.block room 0) room (context_of reading.old) (value_of reached) (row_from row.entry) count (state_of reading.old) reading.old.words.words) }
    ensures goes_on { GoesOn IsRest reading.old reading.new result }
{
    match row.form {
        Form::Find
        | Form::Children
        | Form::Parent
        | Form::Parents
        | Form::Filter
        | Form::Has
        | Form::Closest
        | Form::Siblings => {
            let none = is_left_out(row.fewest, count);
            move_arguments(reading, row.form, none, reached)
        }
        Form::First => {
            let done = take_first(reading.reader.alloc, reached)?;
            Ok(done)
        }
        Form::Unites => unite_arguments(reading, reached),
        Form::GoesBack => {
            let done = go_back(reading.reader.alloc, reached)?;
            Ok(done)
        }
        Form::Classes => class_arguments(reading, room, reached),
        Form::Attributes => attribute_arguments(reading, reached),
        Form::GrowsInside => grow_arguments(reading, room, false, reached),
        Form::GrowsBeside => grow_arguments(reading, room, true, reached),
        Form::Places => place_arguments(reading, room, reached),
        Form::Handles => {
            let count = at_least(row.fewest, count);
            several(reading, false, &reached, count, room)?;
            Ok(Done::nothing(reached))
        }
        Form::Listens => {
            listen_arguments(reading, &reached, count == 3, room)?;
            Ok(Done::nothing(reached))
        }
        Form::Passes => {
            several(reading, true, &reached, count, room)?;
            Ok(Done::nothing(reached))
        }
    }
}

/// A call from its `.` on.
#[cycle(grammar)]
#[tactic(auto, unfolding(crate::specs::Chains::call), using(sel_text::proofs::Fronts::front_itself, sel_text::proofs::Fronts::front_of_front, crate::proofs::SequenceSteps::deeper))]
pub(crate) fn call(
    reading: &mut Reading<'_, '_>,
    reached: Value,
    room: usize,
) -> Result<Value, ScriptFault>
    ensures gives { Turns value_of (state_of reading.new) reading.new.words.words result (spec.call (statements.block room 1) room (context_of reading.old) (value_of reached) (state_of reading.old) reading.old.words.words) }
    ensures goes_on { GoesOn IsBehind reading.old reading.new result }
{
    let reader = reading.reader;
    let (row, at) = dot_name(reader, &reached, &mut reading.words)?;
    let count = admitted(reader, &reached, &row, at, &reading.words)?;
    reading.words.want_open(room, b"(")?;
    let done = call_arguments(reading, reached, row, count, room - 1)?;
    reading.words.want(b")")?;
    and_stated(reading, at, done.effect)?;
    Ok(done.reached)
}

/// The calls behind a root, each with its `.`.
#[cycle(grammar)]
#[tactic(auto, using(sel_text::proofs::Fronts::front_itself, sel_text::proofs::Fronts::front_of_front, crate::proofs::ChainSteps::goes_on, crate::proofs::ChainSteps::fails, crate::proofs::ChainSteps::ends, jq_words::proofs::Files::itself, jq_words::proofs::Files::is_rest, jq_words::proofs::Files::of_rest))]
pub(crate) fn calls(
    reading: &mut Reading<'_, '_>,
    reached: Value,
    room: usize,
) -> Result<Value, ScriptFault>
    ensures gives { Turns value_of (state_of reading.new) reading.new.words.words result (spec.calls (statements.block room 1) room (context_of reading.old) (value_of reached) (state_of reading.old) 0 reading.old.words.words) }
    ensures goes_on { GoesOn IsRest reading.old reading.new result }
{
    let mut so_far = reached;
    'calls: while begins(reading.words.words(), b".") {
        so_far = call(reading, so_far, room)?;
    }
    let whole = ended(so_far, &reading.words)?;
    Ok(whole)
}

/// A root and its calls.
#[cycle(grammar)]
#[tactic(auto, unfolding(crate::specs::Chains::chain), using(sel_text::proofs::Fronts::front_itself, sel_text::proofs::Fronts::front_of_front, jq_words::proofs::Files::behind_rest))]
pub(crate) fn chain(reading: &mut Reading<'_, '_>, room: usize) -> Result<Value, ScriptFault>
    ensures gives { Turns value_of (state_of reading.new) reading.new.words.words result (spec.chain (statements.block room 1) room (context_of reading.old) (state_of reading.old) reading.old.words.words) }
    ensures goes_on { GoesOn IsBehind reading.old reading.new result }
{
    let value = root(
        reading.reader,
        room,
        &reading.scope,
        &mut reading.grown,
        &mut reading.words,
    )?;
    let whole = calls(reading, value, room)?;
    Ok(whole)
}
