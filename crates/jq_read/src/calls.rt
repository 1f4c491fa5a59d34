//! Calls that listen to events, and calls that act.
ghost use Rattle.std.specs.Prelude.{◌≡◌, OnOk};
ghost use Rattle.sel_text.specs.Results.{IsFront};
ghost use Rattle.jq_words.specs.Results.{Leaves, Turns, IsRest, IsBehind};
ghost use Rattle.jq_parts.specs.Views.{value_of};
ghost use Rattle.jq_parts.specs.ScopeViews.{effect_of};
ghost use Rattle.jq_read.specs.Chains as spec;
ghost use Rattle.jq_read.specs.Readers.{context_of, state_of, GoesOn};

use crate::readings::Reading;
use jq_chains::SharedChain;
use jq_cursor::{compounds, text_argument};
use jq_parts::{Value, below, stated};
use jq_words::{ScriptFault, place};
use tree_sem::Action;

/// Adds the statement of a call whose name stands at an offset, where it acts.
#[tactic(auto, unfolding(crate::specs::Chains::and_stated), using(sel_text::proofs::Fronts::front_itself))]
pub(crate) fn and_stated(
    reading: &mut Reading<'_, '_>,
    at: usize,
    effect: Option<(SharedChain, Action)>,
) -> Result<(), ScriptFault>
    ensures gives { Leaves (state_of reading.new) result (spec.and_stated (context_of reading.old) at (effect_of effect) (state_of reading.old)) }
    ensures words { reading.new.words ≡ reading.old.words }
    ensures kept { OnOk result (context_of reading.new ≡ context_of reading.old) }
    ensures front { IsFront reading.old.grown.atoms reading.new.grown.atoms }
{
    stated(
        reading.reader.alloc,
        &reading.scope.handlers,
        at,
        effect,
        &mut reading.statements,
    )?;
    Ok(())
}

// Passes the second list of `on`, where there is one, and its comma; gives the elements that are listened to.
#[tactic(auto, unfolding(crate::specs::Chains::listened), using(sel_text::proofs::Fronts::front_itself, jq_words::proofs::Files::itself, jq_words::proofs::Files::is_rest, jq_words::proofs::Files::behind_behind))]
fn listened(
    reading: &mut Reading<'_, '_>,
    reached: &Value,
    narrowed: bool,
) -> Result<Value, ScriptFault>
    ensures gives { Turns value_of (state_of reading.new) reading.new.words.words result (spec.listened reading.old.words.size (value_of reached.now) narrowed (state_of reading.old) reading.old.words.words) }
    ensures goes_on { GoesOn IsRest reading.old reading.new result }
{
    if !narrowed {
        let copy = reached.copy()?;
        return Ok(copy);
    }
    let reader = reading.reader;
    let at = place(reading.words.words());
    let letters = text_argument(reader.alloc, &mut reading.words)?;
    let found = compounds(reader.alloc, at, &letters, &mut reading.grown.atoms)?;
    reading.words.want(b",")?;
    let elements = below(reader.alloc, reached, found)?;
    Ok(elements)
}

/// Passes all that stands before the function of `on`; gives the elements that are listened to.
#[tactic(auto, unfolding(crate::specs::Chains::listening), using(sel_text::proofs::Fronts::front_itself, jq_words::proofs::Files::is_rest, jq_words::proofs::Files::behind_behind, jq_words::proofs::Files::behind_rest))]
pub(crate) fn listening(
    reading: &mut Reading<'_, '_>,
    reached: &Value,
    narrowed: bool,
) -> Result<Value, ScriptFault>
    ensures gives { Turns value_of (state_of reading.new) reading.new.words.words result (spec.listening reading.old.words.size (value_of reached.now) narrowed (state_of reading.old) reading.old.words.words) }
    ensures goes_on { GoesOn IsBehind reading.old reading.new result }
{
    let reader = reading.reader;
    text_argument(reader.alloc, &mut reading.words)?;
    reading.words.want(b",")?;
    let elements = listened(reading, reached, narrowed)?;
    Ok(elements)
}
