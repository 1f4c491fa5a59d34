ghost use Rattle.std.specs.Prelude.{All, IfOk};
ghost use Rattle.usage_report.specs.Views.{answer_of};
ghost use Rattle.jq_exact.specs.Settling.{IsUnfolded};

use crate::building::{C, D, Piece, page, statement};
use crate::checks::has_room;
use crate::proving::{BOTH, ItemRow, ONE, RULES, Wanted, used_answer};
use jq_exact::settle;
use jq_stmts::ExactStmt;
use proof_core::Below::Real;
use proof_core::Reason::{Down, Local, Start};
use sel_text::Skip;
use simple_core::System;
use std::alloc::Global;
use std::test::Fail;
use test_building::system_of;
use tp_base::{Atom, NoMemory};
use tree_sem::{Tree, TreeFault};
use usage_report::Answer;

// The items of a proof, the root's atom, whether the steps are shown, and what is said in its place: whether it may be
// so only, and at which step it breaks then.
type Row = (&'static [ItemRow], u32, bool, Option<Option<usize>>);

// The nodes of the class `.c` are, in the order of the document, /0/0/0, /0/1, /1/0/0 and /1/1. The first statement is
// `$('.c').first().addClass('d')`, the second `$('.c').addClass('d')`, so that a step of the first one is legal at
// /0/0/0 alone, and one of the second at each of the four.
//
// The first row: one step, of statement 1 at /0/0/0, gives that node `.d`. It is the first `.c` of the page, so the step
// is legal exactly, and the answer stays.
static ROWS: [Row; 7] = [
    (
        &[
            (&[0, 0, 0], C, Start),
            (&[0, 0, 0], D, Local(0)),
            (&[0, 0], 5, Down(0, Real(0))),
            (&[0], 6, Down(1, Real(0))),
            (&[], ONE, Down(4, Real(0))),
        ],
        ONE,
        true,
        None,
    ),
    // The same at the next `.c`, where the step isn't legal.
    (
        &[
            (&[0, 1], C, Start),
            (&[0, 1], D, Local(0)),
            (&[0], 5, Down(0, Real(1))),
            (&[], ONE, Down(3, Real(0))),
        ],
        ONE,
        true,
        Some(Some(0)),
    ),
    // Both steps, of which the second isn't legal.
    (
        &[
            (&[0, 0, 0], C, Start),
            (&[0, 0, 0], D, Local(0)),
            (&[0, 0], 5, Down(0, Real(0))),
            (&[0], 6, Down(1, Real(0))),
            (&[0, 1], C, Start),
            (&[0, 1], D, Local(0)),
            (&[0], 5, Down(0, Real(1))),
            (&[0], BOTH, Local(2)),
            (&[], BOTH, Down(2, Real(0))),
        ],
        BOTH,
        true,
        Some(Some(1)),
    ),
    // The second step of the second statement: both are legal.
    (
        &[
            (&[0, 0, 0], C, Start),
            (&[0, 0, 0], D, Local(0)),
            (&[0, 0], 5, Down(0, Real(0))),
            (&[0], 6, Down(1, Real(0))),
            (&[0, 1], C, Start),
            (&[0, 1], D, Local(1)),
            (&[0], 5, Down(0, Real(1))),
            (&[0], BOTH, Local(2)),
            (&[], BOTH, Down(2, Real(0))),
        ],
        BOTH,
        true,
        None,
    ),
    // A step that would be legal, but isn't shown: it isn't replayed.
    (
        &[
            (&[0, 0, 0], C, Start),
            (&[0, 0, 0], D, Local(0)),
            (&[0, 0], 5, Down(0, Real(0))),
            (&[0], 6, Down(1, Real(0))),
            (&[], ONE, Down(4, Real(0))),
        ],
        ONE,
        false,
        Some(None),
    ),
    // Without a step of the first statement all stays, shown or not.
    (
        &[
            (&[0, 1], C, Start),
            (&[0, 1], D, Local(1)),
            (&[0], 5, Down(0, Real(1))),
            (&[], ONE, Down(3, Real(0))),
        ],
        ONE,
        true,
        None,
    ),
    (
        &[
            (&[0, 1], C, Start),
            (&[0, 1], D, Local(1)),
            (&[0], 5, Down(0, Real(1))),
            (&[], ONE, Down(3, Real(0))),
        ],
        ONE,
        false,
        None,
    ),
];

// The first one is sharper than what is judged in its place.
fn statements(alloc: Global) -> Result<Vec<ExactStmt>, NoMemory> {
    let mut stmts = Vec::new(alloc);
    stmts.push(statement(alloc, &[], &[Piece::Matched(C), Piece::First])?)?;
    stmts.push(statement(alloc, &[], &[Piece::Matched(C)])?)?;
    Ok(stmts)
}

// What is said in the place of one answer; nothing where steps could make too many nodes.
fn settled(
    alloc: Global,
    page: &Tree,
    stmts: &[ExactStmt],
    system: &System,
    answer: Answer,
) -> Result<Option<Answer>, NoMemory>
    requires { IsUnfolded page.now system.now (answer_of answer) }
{
    if !has_room(page, stmts) {
        return Ok(None);
    }
    let mut answers = Vec::new(alloc);
    answers.push(answer)?;
    let mut settled = settle(alloc, page, stmts, system, answers)?;
    Ok(settled.pop())
}

fn is_said(answer: &Option<Answer>, shown: bool, want: Option<Option<usize>>) -> bool {
    match answer {
        Some(Answer::Used { shown: steps, .. }) => want.is_none() && steps.is_some() == shown,
        Some(
            Answer::Maybe {
                shown: steps,
                broken,
                ..
            },
        ) => want == Some(*broken) && steps.is_some() == shown,
        _ => false,
    }
}

fn is_right(
    alloc: Global,
    page: &Tree,
    stmts: &[ExactStmt],
    system: &System,
    row: &Row,
) -> Result<bool, NoMemory> {
    let wanted = Wanted {
        target: Atom(row.1),
        shown: row.2,
    };
    match used_answer(alloc, row.0, system, page, wanted)? {
        None => Ok(false),
        Some(answer) => {
            let said = settled(alloc, page, stmts, system, answer)?;
            Ok(is_said(&said, row.2, row.3))
        }
    }
}

fn are_right(
    alloc: Global,
    page: &Tree,
    stmts: &[ExactStmt],
    system: &System,
) -> Result<bool, NoMemory> {
    for row in &ROWS {
        if !is_right(alloc, page, stmts, system, row)? {
            return Ok(false);
        }
    }
    Ok(true)
}

fn others(alloc: Global) -> Result<Vec<Answer>, NoMemory>
    ensures { IfOk result (λ v. (page : _) (system : _) → All (λ a. IsUnfolded page system (answer_of a)) v.items) }
{
    let mut answers = Vec::new(alloc);
    answers.push(Answer::Unused)?;
    answers.push(Answer::Skipped(Skip::Pseudo, 7))?;
    answers.push(Answer::UsedUnshown)?;
    answers.push(Answer::Spent)?;
    Ok(answers)
}

fn are_others(answers: &[Answer]) -> bool {
    matches!(
        answers,
        [
            Answer::Unused,
            Answer::Skipped(Skip::Pseudo, 7),
            Answer::UsedUnshown,
            Answer::Spent
        ]
    )
}

// Answers that say nothing of steps stay, one by one.
fn others_stay(
    alloc: Global,
    page: &Tree,
    stmts: &[ExactStmt],
    system: &System,
) -> Result<bool, NoMemory> {
    if !has_room(page, stmts) {
        return Ok(false);
    }
    let answers = others(alloc)?;
    let settled = settle(alloc, page, stmts, system, answers)?;
    Ok(are_others(&settled))
}

fn on_page(alloc: Global, stmts: &[ExactStmt], system: &System) -> Result<bool, TreeFault> {
    let page = page(alloc)?;
    Ok(are_right(alloc, &page, stmts, system)? && others_stay(alloc, &page, stmts, system)?)
}

fn all_right(alloc: Global) -> Result<bool, TreeFault> {
    let stmts = statements(alloc)?;
    let system = system_of(alloc, &RULES)?;
    on_page(alloc, &stmts, &system)
}

#[test]
fn settles_answers(rt: HostRuntime) -> Result<(), Fail> {
    assert!(rt; all_right(rt.alloc())?);
    Ok(())
}
