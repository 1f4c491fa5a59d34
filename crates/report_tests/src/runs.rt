ghost use Rattle.std.specs.Prelude.{◌≤◌, length, map, IsTrue, IfOk};
ghost use Rattle.sel_core.specs.Selectors.{Matches};
ghost use Rattle.sel_text.specs.Views.{selector_of};
ghost use Rattle.css_read.specs.Places.{ArePlaced};
ghost use Rattle.css_read.specs.Views.{outcome_of, item_of};
ghost use Rattle.jq_sem.specs.Reachability.{AreLegal, end_of};
ghost use Rattle.jq_stmts.specs.Views.{statements_of};
ghost use Rattle.tp_base.specs.declared.places.TheConstants.{MOST_BYTES};
ghost use Rattle.usage_report.specs.Views.{answer_of};
ghost use Rattle.usage_report.specs.Reportable.{AreReportable};
ghost use Rattle.dead_script.specs.Verdicts.{places_of};
ghost use Rattle.run_trace.specs.Traces.{shown_in, IsTracked, AreTracked};

use crate::answers::{Said, answers};
use crate::checks::are_reportable;
use crate::reading::{places, script_of};
use css_read::{Outcome, Sheet, SheetItem, read_sheet};
use html_subset::read_page;
use jq_stmts::Stmt;
use proof_check::Unfolded;
use rule_core::replay;
use run_trace::trace_answers;
use sel_core::matches;
use sel_text::Selector;
use std::alloc::Global;
use std::test::Fail;
use tp_base::{AtomTable, MOST_BYTES, NoMemory};
use tp_io::MemSink;
use tree_sem::Tree;
use usage_report::{Answer, ReportFault, write_traces};

// A page, a sheet, a script, what is said of the items, and the report with whole runs.
struct Row {
    page: &'static [u8],
    sheet: &'static [u8],
    script: &'static str,
    said: &'static [Said],
    report: &'static str,
}

static ROWS: [Row; 3] = [
    // Boxes in boxes: each run puts one into each.
    Row {
        page: b"<div class=\"box\"></div>",
        sheet: b".box .box .box{} .box > p{}",
        script: "$('.box').append('<div class=\"box\"></div>')",
        said: &[
            Said::Used(&[(0, &[1, 0]), (0, &[1, 0, 0])], &[1, 0, 0, 0]),
            Said::Unused,
        ],
        report: "treeped 2\n1:1 used 2 .box .box .box\n  run 1 at 1:11\n  run 1 at 1:11\n  match /1/0/0/0\n1:18 unused .box > p\n",
    },
    // They double with each run: after 17 runs they are 131,072, and after 18 with the other three nodes more than 200,000.
    Row {
        page: b"<div class=\"box\"></div>",
        sheet: b".box .box .box .box .box .box .box .box .box .box .box .box .box .box .box .box .box .box .box{}",
        script: "$('.box').append('<div class=\"box\"></div>')",
        said: &[Said::Used(
            &[
                (0, &[1, 0]),
                (0, &[1, 0, 0]),
                (0, &[1, 0, 0, 0]),
                (0, &[1, 0, 0, 0, 0]),
                (0, &[1, 0, 0, 0, 0, 0]),
                (0, &[1, 0, 0, 0, 0, 0, 0]),
                (0, &[1, 0, 0, 0, 0, 0, 0, 0]),
                (0, &[1, 0, 0, 0, 0, 0, 0, 0, 0]),
                (0, &[1, 0, 0, 0, 0, 0, 0, 0, 0, 0]),
                (0, &[1, 0, 0, 0, 0, 0, 0, 0, 0, 0, 0]),
                (0, &[1, 0, 0, 0, 0, 0, 0, 0, 0, 0, 0, 0]),
                (0, &[1, 0, 0, 0, 0, 0, 0, 0, 0, 0, 0, 0, 0]),
                (0, &[1, 0, 0, 0, 0, 0, 0, 0, 0, 0, 0, 0, 0, 0]),
                (0, &[1, 0, 0, 0, 0, 0, 0, 0, 0, 0, 0, 0, 0, 0, 0]),
                (0, &[1, 0, 0, 0, 0, 0, 0, 0, 0, 0, 0, 0, 0, 0, 0, 0]),
                (0, &[1, 0, 0, 0, 0, 0, 0, 0, 0, 0, 0, 0, 0, 0, 0, 0, 0]),
                (0, &[1, 0, 0, 0, 0, 0, 0, 0, 0, 0, 0, 0, 0, 0, 0, 0, 0, 0]),
                (
                    0,
                    &[1, 0, 0, 0, 0, 0, 0, 0, 0, 0, 0, 0, 0, 0, 0, 0, 0, 0, 0],
                ),
            ],
            &[1, 0, 0, 0, 0, 0, 0, 0, 0, 0, 0, 0, 0, 0, 0, 0, 0, 0, 0, 0],
        )],
        report: "treeped 2\n1:1 used 18 .box .box .box .box .box .box .box .box .box .box .box .box .box .box .box .box .box .box .box\n  runs stop at 18\n",
    },
    // A class that is there needs no run, and what isn't listed has no runs either.
    Row {
        page: b"<p class=\"a\"></p>",
        sheet: b".a{} .b{} .c{}",
        script: "$('.a').addClass('b')",
        said: &[Said::Used(&[], &[1, 0]), Said::NotListed(1), Said::Spent],
        report: "treeped 2\n1:1 used 0 .a\n  match /1/0\n1:6 used 1 .b\n  not listed\n1:11 spent .c\n",
    },
];

// Whether the steps are legal from the page and lead to a match at the node that is named.
fn leads(
    alloc: Global,
    page: &Tree,
    stmts: &[Stmt],
    selector: &Selector,
    shown: &Unfolded,
) -> Result<bool, NoMemory>
    ensures legal { IfOk result (λ b. IsTrue b → AreLegal page.now (statements_of stmts.now) shown.now.steps) }
    ensures found { IfOk result (λ b. IsTrue b → Matches (end_of page.now (statements_of stmts.now) shown.now.steps) shown.now.at (selector_of selector.now)) }
{
    let mut tree = page.copy()?;
    match replay(alloc, stmts, &mut tree, shown.steps.items()) {
        Ok(()) => Ok(matches(&tree, &shown.at, selector)),
        Err(_) => Ok(false),
    }
}

fn is_tracked(
    alloc: Global,
    page: &Tree,
    stmts: &[Stmt],
    outcome: &Outcome,
    answer: &Answer,
) -> Result<bool, NoMemory>
    ensures { IfOk result (λ b. IsTrue b → IsTracked page.now (statements_of stmts.now) (shown_in (outcome_of outcome.now) (answer_of answer.now))) }
{
    let Outcome::Judged(selector) = outcome else {
        return Ok(true);
    };
    match answer {
        Answer::Used {
            shown: Some(shown),
            ..
        } => leads(alloc, page, stmts, selector, shown),
        Answer::Used { shown: None, .. } => Ok(true),
        Answer::Maybe { .. } => Ok(true),
        Answer::UsedUnshown => Ok(true),
        Answer::Unused => Ok(true),
        Answer::Skipped(..) => Ok(true),
        Answer::Spent => Ok(true),
    }
}

fn are_tracked(
    alloc: Global,
    page: &Tree,
    stmts: &[Stmt],
    items: &[SheetItem],
    said: &[Answer],
) -> Result<bool, NoMemory>
    ensures { IfOk result (λ b. IsTrue b → AreTracked page.now (statements_of stmts.now) (map item_of items.now) (map answer_of said.now)) }
{
    match (items.split_first(), said.split_first()) {
        (None, None) => Ok(true),
        (Some((item, others)), Some((answer, later))) => {
            if !is_tracked(alloc, page, stmts, &item.outcome, answer)? {
                return Ok(false);
            }
            are_tracked(alloc, page, stmts, others, later)
        }
        _ => Ok(false),
    }
}

#[tactic(auto, using(run_trace::proofs::AnswerLemmas::traces_placed))]
fn written(
    alloc: Global,
    page: &Tree,
    sheet: &Sheet,
    text: &[u8],
    stmts: &[Stmt],
    atoms: &AtomTable,
    said: &[Answer],
    out: &mut MemSink,
) -> Result<(), ReportFault>
    requires in_limit { length text.now ≤ MOST_BYTES }
    requires placed { ArePlaced (length text.now) sheet.now.items }
    requires reportable { AreReportable (places_of (statements_of stmts.now)) (map item_of sheet.now.items) (map answer_of said.now) }
    requires tracked { AreTracked page.now (statements_of stmts.now) (map item_of sheet.now.items) (map answer_of said.now) }
{
    let places = places(alloc, stmts)?;
    let traces = trace_answers(alloc, page, stmts, sheet.items.items(), said)?;
    write_traces(alloc, sheet, text, atoms, &places, said, &traces, out)
}

fn are_writable(
    alloc: Global,
    page: &Tree,
    sheet: &Sheet,
    stmts: &[Stmt],
    said: &[Answer],
) -> Result<bool, NoMemory>
    ensures reportable { IfOk result (λ b. IsTrue b → AreReportable (places_of (statements_of stmts.now)) (map item_of sheet.now.items) (map answer_of said.now)) }
    ensures tracked { IfOk result (λ b. IsTrue b → AreTracked page.now (statements_of stmts.now) (map item_of sheet.now.items) (map answer_of said.now)) }
{
    let places = places(alloc, stmts)?;
    if !are_reportable(sheet.items.items(), said, &places) {
        return Ok(false);
    }
    are_tracked(alloc, page, stmts, sheet.items.items(), said)
}

fn is_report(
    alloc: Global,
    page: &Tree,
    sheet: &Sheet,
    stmts: &[Stmt],
    atoms: &AtomTable,
    said: &[Answer],
    row: &Row,
) -> Result<bool, ReportFault>
    requires { ArePlaced (length row.now.sheet.now) sheet.now.items }
{
    if row.sheet.len() > MOST_BYTES as usize || !are_writable(alloc, page, sheet, stmts, said)? {
        return Ok(false);
    }
    let mut out = MemSink::new(alloc, Vec::new(alloc), 4_096);
    written(alloc, page, sheet, row.sheet, stmts, atoms, said, &mut out)?;
    Ok(out.bytes() == row.report.as_bytes())
}

fn reports(
    alloc: Global,
    page: &Tree,
    sheet: &Sheet,
    row: &Row,
    atoms: &mut AtomTable,
) -> Result<bool, Fail>
    requires { ArePlaced (length row.now.sheet.now) sheet.now.items }
{
    let stmts = script_of(alloc, row.script, atoms)?;
    let said = answers(alloc, row.said)?;
    Ok(is_report(alloc, page, sheet, &stmts, atoms, &said, row)?)
}

fn reports_on(alloc: Global, page: &Tree, row: &Row, atoms: &mut AtomTable) -> Result<bool, Fail> {
    let sheet = read_sheet(alloc, row.sheet, atoms)?;
    reports(alloc, page, &sheet, row, atoms)
}

fn reports_row(alloc: Global, row: &Row) -> Result<bool, Fail> {
    let mut atoms = AtomTable::new(alloc);
    let page = read_page(alloc, row.page, &mut atoms)?;
    reports_on(alloc, &page, row, &mut atoms)
}

#[test]
fn writes_traces_as_whole_runs(rt: HostRuntime) -> Result<(), Fail> {
    for row in &ROWS {
        assert!(rt; reports_row(rt.alloc(), row)?);
    }
    Ok(())
}
