//! Sequences of statements, and blocks.
ghost use Rattle.std.specs.Prelude.{◌≡◌, ◌<◌, true, false, []};
ghost use Rattle.jq_words.specs.Results.{Leaves, Turns, InFile, IsRest, IsBehind};
ghost use Rattle.jq_read.specs.Sequences as turns;
ghost use Rattle.jq_read.specs.Statements as spec;
ghost use Rattle.jq_read.specs.States.{size};
ghost use Rattle.jq_read.specs.Readers.{context_of, state_of, GoesOn};

use crate::bound_names::form_here;
use crate::readings::Reading;
use crate::statements::statement;
use jq_cursor::Cursor;
use jq_forms::StatementForm;
use jq_words::{ScriptFault, Word, begins_name};

// What stands between two statements: whether one is wanted, and how many `if`s may still get an `else`.
#[derive(Clone, Copy)]
struct Between {
    wanted: bool,
    ifs: u64,
}

#[tactic(auto, unfolding(crate::specs::Sequences::is_over))]
fn is_over(in_block: bool, between: Between, word: &Word<'_>) -> bool
    ensures { result ≡ turns.is_over in_block between word.now }
{
    in_block && !between.wanted && word.is_mark(b"}")
}

fn is_branch(form: StatementForm) -> bool
    ensures { result ≡ spec.is_branch form }
{
    matches!(form, StatementForm::Branch)
}

// Behind a condition a statement is wanted, which may get an `else`.
fn behind_condition(between: Between) -> Between
    requires { between.ifs < u64.MAX }
    ensures { result ≡ turns.behind_condition between }
{
    Between {
        wanted: true,
        ifs: between.ifs + 1,
    }
}

// What is behind a statement; passes its `else`.
#[tactic(auto, using(jq_words::proofs::Files::behind_first, jq_words::proofs::Files::itself))]
fn behind_statement(between: Between, words: &mut Cursor<'_, '_>) -> Between
    ensures between { result ≡ turns.behind_statement between words.old.words }
    ensures words { words.new.words ≡ turns.behind_else between words.old.words }
    ensures rest { InFile IsRest words.old words.new }
{
    if between.ifs != 0 && begins_name(words.words(), b"else") {
        words.pass();
        return Between {
            wanted: true,
            ifs: between.ifs - 1,
        };
    }
    Between {
        wanted: false,
        ifs: 0,
    }
}

#[tactic(auto, unfolding(crate::specs::Sequences::at_file_end))]
fn at_file_end(in_block: bool, between: Between, words: &Cursor<'_, '_>) -> Result<(), ScriptFault>
    ensures gives { (c : _) → (s : _) → size c ≡ words.now.size → Leaves (s, []) result (turns.at_file_end in_block between c s) }
{
    if in_block || between.wanted {
        Err(ScriptFault::UnknownForm(words.words().size()))
    } else {
        Ok(())
    }
}

// One turn of a sequence: a statement, or a condition.
#[cycle(grammar)]
#[tactic(auto, unfolding(crate::specs::Sequences::turn), using(sel_text::proofs::Fronts::front_itself, jq_words::proofs::Files::behind_rest))]
fn turn(
    reading: &mut Reading<'_, '_>,
    between: Between,
    room: usize,
) -> Result<Between, ScriptFault>
    requires counted { between.ifs < u64.MAX }
    ensures gives { Turns (λ b. b) (state_of reading.new) reading.new.words.words result (turns.turn (spec.block room) room (context_of reading.old) between (state_of reading.old) reading.old.words.words) }
    ensures goes_on { GoesOn IsBehind reading.old reading.new result }
{
    let form = form_here(reading);
    statement(reading, form, room)?;
    if is_branch(form) {
        return Ok(behind_condition(between));
    }
    Ok(behind_statement(between, &mut reading.words))
}

/// Statements up to the brace of their block, or to the end of the file.
#[cycle(grammar)]
#[tactic(auto, using(sel_text::proofs::Fronts::front_itself, sel_text::proofs::Fronts::front_of_front, crate::proofs::SequenceSteps::begins, crate::proofs::SequenceSteps::none_counted, crate::proofs::SequenceSteps::one_fits, crate::proofs::SequenceSteps::over, crate::proofs::SequenceSteps::file_ends, jq_words::proofs::Files::itself, jq_words::proofs::Files::is_rest, jq_words::proofs::Files::of_rest, jq_words::proofs::Files::shorter))]
pub(crate) fn sequence(
    reading: &mut Reading<'_, '_>,
    in_block: bool,
    room: usize,
) -> Result<(), ScriptFault>
    ensures gives { Leaves (state_of reading.new, reading.new.words.words) result (spec.sequence in_block (spec.block room) room (context_of reading.old) (state_of reading.old) 0 reading.old.words.words) }
    ensures goes_on { GoesOn IsRest reading.old reading.new result }
{
    let mut between = Between {
        wanted: false,
        ifs: 0,
    };
    'statements: while let Some(word) = reading.words.words().first() {
        if is_over(in_block, between, &word) {
            return Ok(());
        }
        between = turn(reading, between, room)?;
    }
    at_file_end(in_block, between, &reading.words)
}

/// Statements in braces, where so many brackets may be opened.
#[cycle(grammar)]
#[tactic(auto, using(sel_text::proofs::Fronts::front_itself, crate::proofs::SequenceSteps::block_refused, crate::proofs::SequenceSteps::block_fails, crate::proofs::SequenceSteps::block_reads, jq_words::proofs::Files::behind_first, jq_words::proofs::Files::behind_rest))]
pub(crate) fn block(reading: &mut Reading<'_, '_>, room: usize) -> Result<(), ScriptFault>
    ensures gives { Leaves (state_of reading.new, reading.new.words.words) result (spec.block room 0 (context_of reading.old) (state_of reading.old) reading.old.words.words) }
    ensures goes_on { GoesOn IsBehind reading.old reading.new result }
{
    reading.words.want_open(room, b"{")?;
    sequence(reading, true, room - 1)?;
    reading.words.pass();
    Ok(())
}
