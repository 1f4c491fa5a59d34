//! The status that answers give.
ghost use Rattle.std.specs.Prelude.{◌≡◌, ◌+◌, ◌∷◌, [], drop, map, option_map, slice_get};
ghost use Rattle.std.specs.List.{list_any};
ghost use Rattle.jq_stmts.specs.Views.{statements_of};
ghost use Rattle.usage_report.specs.Answers.{spent};
ghost use Rattle.usage_report.specs.Views.{answer_of};
ghost use Rattle.dead_script.specs.Asked.{by_number};
ghost use Rattle.dead_script.specs.Verdicts as dead;
ghost use Rattle.treeped_app.specs.Modes as spec;
ghost use Rattle.treeped_app.specs.Verdicts as verdict;
ghost use Rattle.treeped_app.specs.Views.{said_of};

use crate::saying::Said;
use command_words::Mode;
use jq_stmts::Stmt;
use run_ends::Status;
use usage_report::Answer;

/// The two tests of an answer or a verdict that decide the status.
#[derive(Clone, Copy)]
pub(crate) enum Question {
    Open,
    Dead,
}

/// The status of the results for a page, in a mode.
#[tactic(auto, using(usage_report::proofs::SeenLemmas::any_seen))]
pub(crate) fn status_of(mode: Mode, said: &Said) -> Status
    ensures { (x : spec.Texts) → result ≡ spec.status_on mode (said_of x said.now) }
{
    let unsure = any_open(&said.items) || any_meets(mode, Question::Open, said);
    let unused = any_unused(&said.items) || any_meets(mode, Question::Dead, said);
    status_by(unsure, unused)
}

/// The status of a run. `unsure` says that a line is open, and `unused` that a line says `unused` or `dead`.
pub(crate) fn status_by(unsure: bool, unused: bool) -> Status
    ensures { result ≡ spec.status_by unsure unused }
{
    if unsure {
        Status::Budget
    } else if unused {
        Status::Unused
    } else {
        Status::Complete
    }
}

// Whether one of the answers is open. Linear in them.
fn any_open(answers: &[Answer]) -> bool
    ensures { result ≡ list_any (λ a. spec.is_open (answer_of a)) answers.now }
{
    answers.iter().any(|a| is_open(a))
}

/// Whether a budget or a sharp call left the answer open.
pub(crate) fn is_open(answer: &Answer) -> bool
    ensures { result ≡ spec.is_open (answer_of answer.now) }
{
    matches!(
        answer,
        Answer::Maybe { .. } | Answer::UsedUnshown | Answer::Spent
    )
}

// Whether one of the answers is `unused`. Linear in them.
fn any_unused(answers: &[Answer]) -> bool
    ensures { result ≡ list_any (λ a. spec.is_unused (answer_of a)) answers.now }
{
    answers.iter().any(|a| is_unused(a))
}

/// Whether the answer is `unused`.
pub(crate) fn is_unused(answer: &Answer) -> bool
    ensures { result ≡ spec.is_unused (answer_of answer.now) }
{
    matches!(answer, Answer::Unused)
}

// Whether a statement's verdict meets the question, in a mode with verdicts.
fn any_meets(mode: Mode, question: Question, said: &Said) -> bool
    ensures { (x : spec.Texts) → result ≡ list_any (verdict.is_so question) (spec.verdicts_in mode (said_of x said.now ∷ [])) }
{
    match mode {
        Mode::Dead => any_verdict(
            question,
            &said.inputs.script.stmts,
            &said.by_guard,
            &said.numbers,
        ),
        _ => false,
    }
}

// Whether one of the statements' verdicts meets the question. `numbers` has for each of their probes the number of its answer. Linear
// in the statements.
fn any_verdict(question: Question, stmts: &[Stmt], answers: &[Answer], numbers: &[usize]) -> bool
    ensures { result ≡ list_any (verdict.is_so question) (dead.verdicts (statements_of stmts.now) (by_number spent (map answer_of answers.now) numbers.now)) }
{
    let mut left = numbers;
    'statements: for stmt in stmts {
        let handlers = stmt.handlers.items().len();
        if own_answer_meets(question, answers, left, handlers) {
            return true;
        }
        left = behind(left, handlers);
    }
    false
}

// The numbers behind those of a statement with `handlers` handlers.
fn behind(numbers: &[usize], handlers: usize) -> &[usize]
    ensures { result.now ≡ drop (handlers + 1) numbers.now }
{
    if handlers < numbers.len() {
        &numbers[handlers + 1..]
    } else {
        &[]
    }
}

// Whether the verdict on a statement meets the question, where its own number has the index `at`. Without a number it is open.
fn own_answer_meets(question: Question, answers: &[Answer], numbers: &[usize], at: usize) -> bool
    ensures { result ≡ verdict.is_so_of question (slice_get (by_number spent (map answer_of answers.now) numbers.now) at) }
{
    match numbers.get(at) {
        Some(number) => answer_meets(question, answers, *number),
        None => matches!(question, Question::Open),
    }
}

// Whether the verdict on a statement meets the question, where its own answer has the number `at`. The statement is dead where this
// answer is `unused`, and open where the answer is open or missing.
fn answer_meets(question: Question, answers: &[Answer], at: usize) -> bool
    ensures { result ≡ verdict.is_so_of question (option_map answer_of (slice_get answers.now at)) }
{
    match (question, answers.get(at)) {
        (Question::Dead, Some(Answer::Unused)) => true,
        (Question::Dead, _) => false,
        (Question::Open, Some(Answer::Used { .. } | Answer::Unused)) => false,
        (Question::Open, _) => true,
    }
}
