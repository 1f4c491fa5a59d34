//! The calls of a chain: which of them may stand behind a value, and the value that each one makes.
ghost use Rattle.std.specs.Prelude.{◌≡◌, [], ◌∷◌, map, option_map, IfOk, IfErr, OnOk};
ghost use Rattle.sel_text.specs.Selectors.{simple};
ghost use Rattle.sel_text.specs.Views.{selector_of};
ghost use Rattle.jq_stmts.specs.Sharp.{first};
ghost use Rattle.jq_stmts.specs.Views as sem;
ghost use Rattle.jq_words.specs.CallViews.{form_of, row_from};
ghost use Rattle.jq_words.specs.Results.{Gives, Finds, InFile, IsBehind};
ghost use Rattle.jq_words.specs.declared.faults.ScriptFault.TheVariants.{Memory};
ghost use Rattle.jq_parts.specs.Calls as spec;
ghost use Rattle.jq_chains.specs.MarkedCalls.{marked_of};
ghost use Rattle.jq_chains.specs.SharedChains.{shared_of};
ghost use Rattle.jq_parts.specs.Views.{value_of};

use crate::values::Value;
use jq_chains::{MarkedCall, SharedChain};
use jq_cursor::{Cursor, Reader, counts};
use jq_stmts::{Call, Root, Selectors, SharedCompounds, SharpKind};
use jq_words::{Form, Row, ScriptFault, begins, place, row_of};
use sel_text::{Atoms, Compound, Selector};
use std::alloc::Global;
use tp_base::NoMemory;

/// The chain of a value that is a set of elements. Both share it. Constant.
pub fn elements(reached: &Value) -> Result<Option<SharedChain>, ScriptFault>
    ensures chain { IfOk result (λ c. spec.elements_in (value_of reached.now) ≡ option_map shared_of c) }
    ensures only_memory { IfErr result (λ e. e ≡ Memory) }
{
    match reached {
        Value::Elements(chain) => {
            let shared = chain.share()?;
            Ok(Some(shared))
        }
        _ => Ok(None),
    }
}

/// Adds a call to the chain of a value that is a set of elements. Other values stay as they are. Constant.
pub fn with_call(alloc: Global, reached: Value, call: MarkedCall) -> Result<Value, ScriptFault>
    ensures value { IfOk result (λ r. spec.and_call (value_of reached) (marked_of call) ≡ value_of r) }
    ensures only_memory { IfErr result (λ e. e ≡ Memory) }
{
    match reached {
        Value::Elements(chain) => {
            let longer = chain.with_call(alloc, call)?;
            Ok(Value::Elements(longer))
        }
        Value::Everywhere => Ok(Value::Everywhere),
        Value::Markup(forest) => Ok(Value::Markup(forest)),
        Value::Placed => Ok(Value::Placed),
    }
}

/// The call that a form makes from a list of compounds. A form that makes no set gives `end`; no caller asks for one. Constant.
pub fn made(form: Form, compounds: Vec<Compound>) -> Result<MarkedCall, NoMemory>
    ensures { IfOk result (λ c. marked_of c ≡ spec.made (form_of form) (sem.atoms_of compounds.items)) }
{
    let compounds = SharedCompounds::new(compounds)?;
    Ok(match form {
        Form::Find => MarkedCall::plain(Call::Find(compounds)),
        Form::Children => MarkedCall::plain(Call::Children(compounds)),
        Form::Parent => MarkedCall::plain(Call::Parent(compounds)),
        Form::Parents => MarkedCall::plain(Call::Parents(compounds)),
        Form::Filter => MarkedCall::plain(Call::Filter(compounds)),
        Form::Has => MarkedCall::plain(Call::Has(compounds)),
        Form::Closest => MarkedCall {
            call: Call::Around(compounds),
            kind: Some(SharpKind::Closest),
        },
        Form::Siblings => MarkedCall {
            call: Call::Near(compounds),
            kind: Some(SharpKind::Siblings),
        },
        _ => MarkedCall::plain(Call::End),
    })
}

// The compound that fits every node.
fn any(alloc: Global) -> Result<SharedCompounds, NoMemory>
    ensures { IfOk result (λ s. sem.atoms_of s ≡ [] ∷ []) }
{
    let mut compounds = Vec::new(alloc);
    compounds.push(Compound {
        atoms: Atoms::new(Vec::new(alloc)),
    })?;
    SharedCompounds::new(compounds)
}

/// The call `first`. Its wide call keeps every node. Constant.
#[tactic(auto, using(crate::proofs::FirstSteps::first_marked))]
pub fn first_call(alloc: Global) -> Result<MarkedCall, NoMemory>
    ensures { IfOk result (λ c. marked_of c ≡ first) }
{
    let compounds = any(alloc)?;
    Ok(MarkedCall {
        call: Call::Filter(compounds),
        kind: Some(SharpKind::First),
    })
}

fn is_placing(form: Form) -> bool
    ensures { result ≡ spec.is_placing (form_of form) }
{
    matches!(form, Form::Places)
}

fn is_listening(form: Form) -> bool
    ensures { result ≡ spec.is_listening (form_of form) }
{
    matches!(form, Form::Listens)
}

// Whether a call may stand behind a value. Constant.
#[tactic(auto, unfolding(crate::specs::Calls::may_stand))]
fn may_stand(form: Form, reached: &Value) -> bool
    ensures { spec.may_stand (form_of form) (value_of reached.now) ≡ result }
{
    match reached {
        Value::Elements(chain) => match form {
            Form::Places => false,
            Form::GoesBack => chain.calls.any_stands(),
            _ => true,
        },
        Value::Everywhere => is_listening(form),
        Value::Markup(_) => is_placing(form),
        Value::Placed => false,
    }
}

fn is_placed(reached: &Value) -> bool
    ensures { result ≡ spec.is_placed (value_of reached.now) }
{
    matches!(reached, Value::Placed)
}

fn is_first(form: Form) -> bool
    ensures { result ≡ spec.is_first (form_of form) }
{
    matches!(form, Form::First)
}

// Whether a call takes the first of nodes whose order isn't known. Constant.
fn is_unordered(form: Form, reached: &Value) -> bool
    ensures { spec.is_unordered (form_of form) (value_of reached.now) ≡ result }
{
    match reached {
        Value::Elements(chain) => is_first(form) && chain.calls.has_parents(),
        _ => false,
    }
}

// Passes the name of a known call. It gives the call's row in the table and the name's offset.
#[tactic(auto, unfolding(crate::specs::Calls::call_name))]
fn call_name(
    reader: Reader<'_>,
    reached: &Value,
    words: &mut Cursor<'_, '_>,
) -> Result<(Row<'static>, usize), ScriptFault>
    ensures gives { Finds (λ k. (row_from k.0, k.1)) words.new.words result (spec.call_name reader.entry.exact words.old.size (value_of reached.now) words.old.words) }
    ensures rest { OnOk result (InFile IsBehind words.old words.new) }
{
    let Some(word) = words.words().first() else {
        return Err(ScriptFault::UnknownForm(words.words().size()));
    };
    if !word.is_any_name() {
        return Err(ScriptFault::UnknownForm(word.at()));
    }
    let Some(row) = row_of(reader.exact, word.spelling()) else {
        return Err(ScriptFault::UnknownCall(word.letters(reader.alloc)?, word.at()));
    };
    if is_unordered(row.form, reached) {
        return Err(ScriptFault::UnknownCall(word.letters(reader.alloc)?, word.at()));
    }
    words.pass();
    Ok((row, word.at()))
}

/// Passes `.` and the name of a known call. It gives the call's row in the table and the name's offset. A look-up.
#[tactic(auto, unfolding(crate::specs::Calls::dot_name), using(jq_words::proofs::Files::behind_behind))]
pub fn dot_name(
    reader: Reader<'_>,
    reached: &Value,
    words: &mut Cursor<'_, '_>,
) -> Result<(Row<'static>, usize), ScriptFault>
    ensures gives { Finds (λ k. (row_from k.0, k.1)) words.new.words result (spec.dot_name reader.entry.exact words.old.size (value_of reached.now) words.old.words) }
    ensures rest { OnOk result (InFile IsBehind words.old words.new) }
{
    if is_placed(reached) {
        return Err(ScriptFault::UnknownForm(place(words.words())));
    }
    words.pass();
    let name = call_name(reader, reached, words)?;
    Ok(name)
}

/// The number of a call's arguments, where the call may stand there with so many. `at` is the offset of its name. Constant on
/// average.
#[tactic(auto, unfolding(crate::specs::Calls::admitted))]
pub fn admitted(
    reader: Reader<'_>,
    reached: &Value,
    row: &Row<'_>,
    at: usize,
    words: &Cursor<'_, '_>,
) -> Result<usize, ScriptFault>
    ensures { Gives (λ n. n) result (spec.admitted words.now.size (value_of reached.now) (row_from row.now) at words.now.words) }
{
    if !may_stand(row.form, reached) {
        return Err(ScriptFault::UnknownForm(at));
    }
    if !begins(words.words(), b"(") {
        return Err(ScriptFault::UnknownForm(place(words.words())));
    }
    let enclosed = words.enclosed(reader.alloc)?;
    if !counts(row, &enclosed) {
        return Err(ScriptFault::UnknownForm(at));
    }
    Ok(enclosed.count)
}

/// The value at the end of a chain. It is refused where markup was not placed. Constant.
#[tactic(auto, unfolding(crate::specs::Calls::ended))]
pub fn ended(reached: Value, words: &Cursor<'_, '_>) -> Result<Value, ScriptFault>
    ensures { Gives value_of result (spec.ended words.now.size (value_of reached) words.now.words) }
{
    match reached {
        Value::Markup(_) => Err(ScriptFault::UnknownForm(place(words.words()))),
        other => Ok(other),
    }
}

// Each compound as a selector.
fn simple_selectors(alloc: Global, compounds: &[Compound]) -> Result<Vec<Selector>, NoMemory>
    ensures { IfOk result (λ v. map simple (sem.atoms_of compounds.now) ≡ map selector_of v.items) }
{
    let mut found = Vec::new(alloc);
    for compound in compounds {
        found.push(Selector::of_one(alloc, compound.copy()?)?)?;
    }
    Ok(found)
}

fn is_everywhere(reached: &Value) -> bool
    ensures { result ≡ spec.is_everywhere (value_of reached.now) }
{
    matches!(reached, Value::Everywhere)
}

/// The elements below a value that one of the compounds fits. Below document and window these are all elements that fit. Linear in
/// the compounds.
#[tactic(auto, unfolding(crate::specs::Calls::below))]
pub fn below(alloc: Global, reached: &Value, compounds: Vec<Compound>) -> Result<Value, ScriptFault>
    ensures gives { IfOk result (λ r. spec.below (value_of reached.now) (sem.atoms_of compounds.items) ≡ value_of r) }
    ensures only_memory { IfErr result (λ e. e ≡ Memory) }
{
    if is_everywhere(reached) {
        let selectors = simple_selectors(alloc, &compounds)?;
        let chain = SharedChain::new(alloc, Root::List(Selectors::new(selectors)?))?;
        return Ok(Value::Elements(chain));
    }
    let copy = reached.copy()?;
    let found = with_call(
        alloc,
        copy,
        MarkedCall::plain(Call::Find(SharedCompounds::new(compounds)?)),
    )?;
    Ok(found)
}
