//! The line that counts the answers of a ring.
ghost use Rattle.std.specs.Prelude.{◌≡◌, ◌++◌, map, IfOk, OnOk, OnErr};
ghost use Rattle.std.specs.Fmt.{decimal};
ghost use Rattle.tp_io.specs.Sinks.{Adds, AddsPrefix, Rose};
ghost use Rattle.usage_report.specs.Answers.{line_of};
ghost use Rattle.usage_report.specs.Counts as spec;
ghost use Rattle.usage_report.specs.Summary.{summary as summary_of};
ghost use Rattle.usage_report.specs.Views.{answer_of};

use crate::answers::Answer;
use crate::faults::ReportFault;
use crate::pieces::Piece;
use std::alloc::Global;
use tp_base::NoMemory;
use tp_io::{Sink, put_all};

/// What a selector's answer may be. The script of a ring has no sharp calls, so that none is `maybe`.
#[derive(Clone, Copy)]
pub(crate) enum Form {
    Used,
    UsedUnshown,
    Unused,
    Skipped,
    Spent,
}

// Whether an answer is of a form.
fn is_of(form: Form, answer: &Answer) -> bool
    ensures { result ≡ spec.is_of form (line_of (answer_of answer.now)) }
{
    match (form, answer) {
        (Form::Used, Answer::Used { .. }) => true,
        (Form::UsedUnshown, Answer::UsedUnshown) => true,
        (Form::Unused, Answer::Unused) => true,
        (Form::Skipped, Answer::Skipped(_, _)) => true,
        (Form::Spent, Answer::Spent) => true,
        _ => false,
    }
}

// How many answers are of a form.
#[tactic(auto, using(crate::proofs::SeenLemmas::count_seen))]
fn count_of(form: Form, answers: &[Answer]) -> usize
    ensures { result ≡ spec.count_of form (map line_of (map answer_of answers.now)) }
{
    let mut count = 0;
    'answers: for answer in answers {
        if is_of(form, answer) {
            count += 1;
        }
    }
    count
}

// The steps of an answer.
fn steps_of(answer: &Answer) -> u64
    ensures { result ≡ spec.steps_of (line_of (answer_of answer.now)) }
{
    match answer {
        Answer::Used { steps, .. } => *steps,
        _ => 0,
    }
}

// The steps of all answers, or the greatest number where they are more.
#[tactic(auto, using(crate::proofs::SeenLemmas::sum_seen))]
fn all_steps(answers: &[Answer]) -> u64
    ensures { result ≡ spec.all_steps (map line_of (map answer_of answers.now)) }
{
    let mut sum = 0u64;
    'answers: for answer in answers {
        sum = sum.saturating_add(steps_of(answer));
    }
    sum
}

// Puts words behind a line, and how many answers are of a form.
fn put_count(
    piece: &mut Piece,
    words: &[u8],
    form: Form,
    answers: &[Answer],
) -> Result<(), NoMemory>
    ensures { OnOk result (piece.new.bytes.items ≡ piece.old.bytes.items ++ words.now ++ decimal (spec.count_of form (map line_of (map answer_of answers.now)))) }
{
    piece.put(words)?;
    piece.number(count_of(form, answers) as u64)
}

// How many answers are of each form.
#[tactic(auto, unfolding(crate::specs::Counts::with_counts))]
fn put_counts(piece: &mut Piece, answers: &[Answer]) -> Result<(), NoMemory>
    ensures { OnOk result (piece.new.bytes.items ≡ spec.with_counts piece.old.bytes.items (map line_of (map answer_of answers.now))) }
{
    put_count(piece, b", used ", Form::Used, answers)?;
    put_count(piece, b", used-unshown ", Form::UsedUnshown, answers)?;
    put_count(piece, b", unused ", Form::Unused, answers)?;
    put_count(piece, b", skipped ", Form::Skipped, answers)?;
    put_count(piece, b", spent ", Form::Spent, answers)
}

// `gen 20: selectors 80, used 60, used-unshown 0, unused 20, skipped 0, spent 0, steps 840`, say.
#[tactic(auto, unfolding(crate::specs::Counts::summary))]
fn summary(alloc: Global, n: u32, answers: &[Answer]) -> Result<Piece, NoMemory>
    ensures { IfOk result (λ p. p.bytes.items ≡ spec.summary n (map line_of (map answer_of answers.now))) }
{
    let mut piece = Piece::new(alloc);
    piece.put(b"gen ")?;
    piece.number(u64::from(n))?;
    piece.put(b": selectors ")?;
    piece.number(answers.len() as u64)?;
    put_counts(&mut piece, answers)?;
    piece.put(b", steps ")?;
    piece.number(all_steps(answers))?;
    piece.put(b"\n")?;
    Ok(piece)
}

/// Writes the line on a ring of n boxes, in one piece. Linear in the answers.
pub fn write_summary<O: Sink>(
    alloc: Global,
    n: u32,
    answers: &[Answer],
    out: &mut O,
) -> Result<(), ReportFault>
    ensures ok { OnOk result (Adds (O.written out.old) (O.written out.new) (summary_of n (map answer_of answers.now))) }
    ensures err { OnErr result (AddsPrefix (O.written out.old) (O.written out.new) (summary_of n (map answer_of answers.now))) }
    ensures write { result ≡ Err ReportFault.Write → Rose (O.faults out.old) (O.faults out.new) }
{
    let piece = summary(alloc, n, answers)?;
    put_all(out, &piece.bytes)?;
    Ok(())
}
