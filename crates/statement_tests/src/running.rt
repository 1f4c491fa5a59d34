ghost use Rattle.std.specs.Prelude.{◌↔◌, ◌<◌, All, IsTrue};

use jq_sem::run_within;
use jq_stmts::Stmt;
use run_trace::{MOST_RUN_NODES, RunFault, first_match, replay_runs};
use sel_text::{SelFault, Selector, read_selector};
use std::alloc::Global;
use std::test::Fail;
use test_building::is_path;
use test_reading::{PAGE, page_of, script_of, statement_of};
use tp_base::{AtomTable, NoMemory};
use tree_sem::{MOST_NODES, Tree, TreeFault};

// A script of one statement, a page, how often the statement is run, and how many nodes there may be; what `replay_runs` answers,
// and how many nodes there are then.
type Row = (
    &'static str,
    &'static str,
    usize,
    u32,
    Result<(), RunFault>,
    u32,
);

const BOX: &str = "<div class=box></div>";

const FILL: &str = "$('.box').append('<div class=box></div>')";

const NOBODY: &str = "$('.bag').append('<div class=box></div>')";

// What these take away stays where a run does them.
const EMPTIED: &str = "$('.box').empty().removeClass('box').append('<div class=box></div>')";

const INSTEAD: &str = "$('.box').html('<div class=box></div>')";

const TOGGLED: &str = "$('.box').toggleClass('box')";

static ROWS: [Row; 14] = [
    // Three nodes are no boxes, and the boxes double with each run.
    (FILL, BOX, 0, 0, Ok(()), 4),
    (FILL, BOX, 2, 200, Ok(()), 7),
    (FILL, BOX, 2, 7, Ok(()), 7),
    (FILL, BOX, 2, 6, Err(RunFault::OverLimit(1)), 5),
    (FILL, BOX, 2, 3, Err(RunFault::OverLimit(0)), 4),
    (FILL, "", 2, 2, Err(RunFault::OverLimit(0)), 3),
    (
        FILL,
        BOX,
        18,
        MOST_RUN_NODES,
        Err(RunFault::OverLimit(17)),
        131_075,
    ),
    (NOBODY, BOX, 2, 4, Ok(()), 4),
    (NOBODY, BOX, 2, 3, Err(RunFault::OverLimit(0)), 4),
    (EMPTIED, BOX, 2, 7, Ok(()), 7),
    (EMPTIED, BOX, 2, 6, Err(RunFault::OverLimit(1)), 5),
    (INSTEAD, BOX, 2, 7, Ok(()), 7),
    (INSTEAD, BOX, 2, 6, Err(RunFault::OverLimit(1)), 5),
    (TOGGLED, BOX, 2, 4, Ok(()), 4),
];

fn numbers(alloc: Global, times: usize) -> Result<Vec<u32>, NoMemory> {
    let mut list = Vec::new(alloc);
    for _ in 0..times {
        list.push(0)?;
    }
    Ok(list)
}

fn run_all(
    alloc: Global,
    stmts: &[Stmt],
    tree: &mut Tree,
    row: &Row,
) -> Result<Result<(), RunFault>, NoMemory> {
    let runs = numbers(alloc, row.2)?;
    Ok(run_those(alloc, stmts, tree, &runs, row.3))
}

fn run_those(
    alloc: Global,
    stmts: &[Stmt],
    tree: &mut Tree,
    runs: &[u32],
    most: u32,
) -> Result<(), RunFault> {
    if !are_there(runs, stmts.len()) || most > MOST_NODES {
        return Err(RunFault::Memory(0));
    }
    replay_runs(alloc, stmts, tree, runs, most)
}

fn are_there(runs: &[u32], count: usize) -> bool
    ensures { IsTrue result → All (λ k. k < count) runs.now }
{
    runs.iter().all(|run| is_there(*run, count))
}

fn is_there(run: u32, count: usize) -> bool
    ensures { IsTrue result ↔ run < count }
{
    (run as usize) < count
}

fn runs(alloc: Global, stmts: &[Stmt], row: &Row, atoms: &mut AtomTable) -> Result<bool, Fail> {
    let mut tree = page_of(alloc, row.1, atoms)?;
    let answer = run_all(alloc, stmts, &mut tree, row)?;
    Ok(answer == row.4 && tree.count() == row.5)
}

fn script_runs(alloc: Global, row: &Row, atoms: &mut AtomTable) -> Result<bool, Fail> {
    let stmts = script_of(alloc, row.0, atoms)?;
    runs(alloc, &stmts, row, atoms)
}

#[test]
fn replays_runs(rt: HostRuntime) -> Result<(), Fail> {
    let mut atoms = AtomTable::new(rt.alloc());
    for row in &ROWS {
        assert!(rt; script_runs(rt.alloc(), row, &mut atoms)?);
    }
    Ok(())
}

// A statement on each `.b` of the page of fourteen nodes, and how many nodes there may be; what `run_within` answers.
type Within = (&'static str, u32, Result<u32, TreeFault>);

const ADDS: &str = "$('.b').addClass('d')";

const INSIDE: &str = "$('.b').append('<div class=a><div class=b></div></div><div class=a></div>')";

const BESIDE: &str = "$('.b').after('<div class=a><div class=b></div></div><div class=a></div>')";

static WITHIN: [Within; 6] = [
    (ADDS, 14, Ok(3)),
    (ADDS, 13, Err(TreeFault::TooManyNodes)),
    (INSIDE, 23, Ok(3)),
    (INSIDE, 22, Err(TreeFault::TooManyNodes)),
    (BESIDE, 23, Ok(3)),
    (BESIDE, 22, Err(TreeFault::TooManyNodes)),
];

fn stays(alloc: Global, s: &Stmt, row: &Within, atoms: &mut AtomTable) -> Result<bool, Fail> {
    let mut tree = page_of(alloc, PAGE, atoms)?;
    let answer = run_within(alloc, s, &mut tree, row.1.min(MOST_NODES));
    Ok(answer == row.2 && (answer.is_ok() || tree.count() == 14))
}

fn within(alloc: Global, row: &Within, atoms: &mut AtomTable) -> Result<bool, Fail> {
    let stmt = statement_of(alloc, row.0, atoms)?;
    stays(alloc, &stmt, row, atoms)
}

#[test]
fn stays_within(rt: HostRuntime) -> Result<(), Fail> {
    let mut atoms = AtomTable::new(rt.alloc());
    for row in &WITHIN {
        assert!(rt; within(rt.alloc(), row, &mut atoms)?);
    }
    Ok(())
}

// A selector, and the first node of the page that it matches, where there is one.
static FIRSTS: [(&str, Option<&[u32]>); 5] = [
    (".a", Some(&[1, 0])),
    (".b", Some(&[1, 0, 0])),
    (".c", Some(&[1, 0, 0, 0])),
    (".d", Some(&[1, 2])),
    (".z", None),
];

fn is_first(
    alloc: Global,
    tree: &Tree,
    selector: &Selector,
    wanted: Option<&[u32]>,
) -> Result<bool, NoMemory> {
    match (first_match(alloc, tree, selector)?, wanted) {
        (Some(at), Some(numbers)) => Ok(is_path(&at, numbers)),
        (None, None) => Ok(true),
        _ => Ok(false),
    }
}

fn finds(
    alloc: Global,
    tree: &Tree,
    row: &(&'static str, Option<&'static [u32]>),
    atoms: &mut AtomTable,
) -> Result<bool, SelFault> {
    let selector = read_selector(alloc, row.0.as_bytes(), 0, row.0.len(), atoms)?;
    Ok(is_first(alloc, tree, &selector, row.1)?)
}

fn all_found(alloc: Global, tree: &Tree, atoms: &mut AtomTable) -> Result<bool, SelFault> {
    for row in &FIRSTS {
        if !finds(alloc, tree, row, atoms)? {
            return Ok(false);
        }
    }
    Ok(true)
}

fn page_has_firsts(alloc: Global, atoms: &mut AtomTable) -> Result<bool, Fail> {
    let tree = page_of(alloc, PAGE, atoms)?;
    Ok(all_found(alloc, &tree, atoms)?)
}

#[test]
fn finds_the_first(rt: HostRuntime) -> Result<(), Fail> {
    let mut atoms = AtomTable::new(rt.alloc());
    assert!(rt; page_has_firsts(rt.alloc(), &mut atoms)?);
    Ok(())
}
