//! Statements, by their forms.
ghost use Rattle.std.specs.Prelude.{◌≡◌, ◌≢◌, drop};
ghost use Rattle.jq_words.specs.Words.{place, spelled};
ghost use Rattle.jq_words.specs.Results.{Leaves, IsBehind};
ghost use Rattle.jq_words.specs.declared.faults.ScriptFault.TheVariants.{Memory, UnknownCall};
ghost use Rattle.jq_read.specs.Statements as spec;
ghost use Rattle.jq_read.specs.Readers.{context_of, state_of, GoesOn};

use crate::bodies::{named_function, once, start, timer};
use crate::bound_names::is_bound_here;
use crate::chains::chain;
use crate::declarations::declaration;
use crate::readings::Reading;
use crate::sequences::block;
use jq_cursor::spelled;
use jq_forms::{StatementForm, condition, list_statement, pass_document, returned, set};
use jq_words::{ScriptFault, letters, place};

// Why a call of jQuery's own is refused.
fn foreign(reading: &Reading<'_, '_>) -> ScriptFault
    ensures { result ≢ Memory → result ≡ UnknownCall (spelled (drop 2 reading.now.words.words)) (place reading.now.words.size (drop 2 reading.now.words.words)) }
{
    let reader = reading.reader;
    let mut rest = reading.words.again();
    rest.pass_all(2);
    match letters(reader.alloc, spelled(rest.words())) {
        Ok(name) => ScriptFault::UnknownCall(name, place(rest.words())),
        Err(e) => e,
    }
}

// A chain, as a statement.
#[cycle(grammar)]
#[tactic(auto, unfolding(crate::specs::Statements::chain_statement), using(sel_text::proofs::Fronts::front_itself, jq_words::proofs::Files::behind_rest))]
fn chain_statement(reading: &mut Reading<'_, '_>, room: usize) -> Result<(), ScriptFault>
    ensures gives { Leaves (state_of reading.new, reading.new.words.words) result (spec.chain_statement (spec.block room) room (context_of reading.old) (state_of reading.old) reading.old.words.words) }
    ensures goes_on { GoesOn IsBehind reading.old reading.new result }
{
    chain(reading, room)?;
    reading.words.end()?;
    Ok(())
}

/// A statement of a form; of a branch, its condition.
#[cycle(grammar)]
#[tactic(auto, unfolding(crate::specs::Statements::statement_as, crate::specs::Statements::ready), using(sel_text::proofs::Fronts::front_itself, jq_words::proofs::Files::passed, jq_words::proofs::Files::behind_behind, jq_words::proofs::Files::behind_rest, jq_words::proofs::Files::on_ok_behind))]
pub(crate) fn statement(
    reading: &mut Reading<'_, '_>,
    form: StatementForm,
    room: usize,
) -> Result<(), ScriptFault>
    ensures gives { Leaves (state_of reading.new, reading.new.words.words) result (spec.statement_as form (spec.block room) room (context_of reading.old) (state_of reading.old) reading.old.words.words) }
    ensures goes_on { GoesOn IsBehind reading.old reading.new result }
{
    let reader = reading.reader;
    match form {
        StatementForm::Empty => {
            reading.words.pass();
            Ok(())
        }
        StatementForm::Block => block(reading, room),
        StatementForm::Declaration => {
            reading.words.pass();
            declaration(reading, room)
        }
        StatementForm::Function => {
            reading.words.pass();
            named_function(reading, room)
        }
        StatementForm::Branch => {
            condition(reader, reading.scope.has_this, room, &mut reading.words)
        }
        StatementForm::Return => {
            reading.words.pass();
            returned(reader, reading.scope.has_this, room, &mut reading.words)
        }
        StatementForm::Start => {
            reading.words.pass();
            start(reading, room)
        }
        StatementForm::Ready => {
            pass_document(room, &mut reading.words)?;
            start(reading, room)
        }
        StatementForm::Chain => chain_statement(reading, room),
        StatementForm::Foreign => Err(foreign(reading)),
        StatementForm::Timer => {
            reading.words.pass();
            timer(reading, room)
        }
        StatementForm::Set => {
            let bound = is_bound_here(reading);
            set(
                reader,
                bound,
                reading.scope.has_this,
                room,
                &mut reading.words,
            )
        }
        StatementForm::Once => once(reading, room),
        StatementForm::Free => {
            list_statement(reader, reading.scope.has_this, room, &mut reading.words)
        }
    }
}
