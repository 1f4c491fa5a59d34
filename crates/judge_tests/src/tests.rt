ghost use Rattle.std.specs.Prelude.{◌≤◌};
ghost use Rattle.limits.specs.declared.budgets.TheConstants.{MOST_BRANCHES};
ghost use Rattle.proof_core.specs.declared.unfolded.TheConstants.{MOST_LISTED};

use crate::checks::is_given;
use crate::reading::script_of;
use crate::rows::{Budget, ROWS, Row, SPENT};
use crate::texts::text_of;
use css_read::{Sheet, read_sheet};
use html_subset::read_page;
use jq_stmts::Stmt;
use judge::{JudgeFault, Limits, MOST_LISTED, judge};
use limits::MOST_BRANCHES;
use std::alloc::{AllocError, Global};
use std::test::Fail;
use tp_base::{AtomKind, AtomTable, MOST_ATOMS};
use tree_sem::Tree;
use usage_report::Answer;

const AMPLE: Budget = (50_000, 100_000, 1_000);

// Where summaries are held: in a table of pairs, or in so many branches of diagrams.
#[derive(Clone, Copy)]
enum Engine {
    Table,
    Diagrams(u32),
}

// Diagrams with room enough.
const ROOMY: Engine = Engine::Diagrams(4_194_304);

fn nodes_of(engine: Engine) -> u32
    ensures { result ≤ MOST_BRANCHES }
{
    match engine {
        Engine::Table => 0,
        Engine::Diagrams(nodes) => nodes.min(MOST_BRANCHES),
    }
}

fn limits_of(engine: Engine, budget: Budget) -> Limits
    ensures list { result.list ≤ MOST_LISTED }
    ensures nodes { result.nodes ≤ MOST_BRANCHES }
{
    Limits {
        plain: matches!(engine, Engine::Table),
        pairs: budget.0,
        nodes: nodes_of(engine),
        entries: budget.1,
        list: budget.2.min(MOST_LISTED),
    }
}

// What is said of the items. Where `judge` may not be called it is as if no memory was to be had, which no test expects.
fn judged(
    alloc: Global,
    page: &Tree,
    sheet: &Sheet,
    stmts: &[Stmt],
    atoms: &AtomTable,
    engine: Engine,
    budget: Budget,
) -> Result<Vec<Answer>, JudgeFault> {
    if !is_given(alloc, page, sheet, stmts, atoms)? {
        return Err(JudgeFault::Memory);
    }
    judge(alloc, page, sheet, stmts, atoms, &limits_of(engine, budget))
}

// The same as text.
fn told(
    alloc: Global,
    page: &Tree,
    sheet: &Sheet,
    stmts: &[Stmt],
    atoms: &AtomTable,
    engine: Engine,
    budget: Budget,
) -> Result<String, Fail> {
    let found = judged(alloc, page, sheet, stmts, atoms, engine, budget);
    text_of(alloc, &found)
}

fn said_by(
    alloc: Global,
    engine: Engine,
    row: &Row,
    page: &Tree,
    sheet: &Sheet,
    atoms: &mut AtomTable,
) -> Result<String, Fail> {
    let stmts = script_of(alloc, row.2, atoms)?;
    told(alloc, page, sheet, &stmts, atoms, engine, row.3)
}

fn said_of(
    alloc: Global,
    engine: Engine,
    row: &Row,
    page: &Tree,
    atoms: &mut AtomTable,
) -> Result<String, Fail> {
    let sheet = read_sheet(alloc, row.1.as_bytes(), atoms)?;
    said_by(alloc, engine, row, page, &sheet, atoms)
}

fn said(alloc: Global, engine: Engine, row: &Row) -> Result<String, Fail> {
    let mut atoms = AtomTable::new(alloc);
    let page = read_page(alloc, row.0.as_bytes(), &mut atoms)?;
    said_of(alloc, engine, row, &page, &mut atoms)
}

fn is_row_said(alloc: Global, engine: Engine, row: &Row) -> Result<bool, Fail> {
    Ok(said(alloc, engine, row)?.as_str() == row.4)
}

fn are_said(alloc: Global, engine: Engine, rows: &[Row]) -> Result<bool, Fail> {
    for row in rows {
        if !is_row_said(alloc, engine, row)? {
            return Ok(false);
        }
    }
    Ok(true)
}

#[test]
fn answers_by_table(rt: HostRuntime) -> Result<(), Fail> {
    let alloc = rt.alloc();
    assert!(rt; are_said(alloc, Engine::Table, &ROWS)?);
    assert!(rt; are_said(alloc, Engine::Table, &SPENT)?);
    Ok(())
}

// Each system of the rows that are spent has a diagram with a branch.
#[test]
fn answers_by_diagrams(rt: HostRuntime) -> Result<(), Fail> {
    let alloc = rt.alloc();
    assert!(rt; are_said(alloc, ROOMY, &ROWS)?);
    assert!(rt; are_said(alloc, Engine::Diagrams(0), &SPENT)?);
    Ok(())
}

// So many selectors `.c1 .z`, `.c2 .z` and so on.
fn put_each(text: &mut String, count: u32) -> Result<(), AllocError> {
    for number in 1..=count {
        write!(text, ".c{number} .z{{}} ")?;
    }
    Ok(())
}

// A selector that wants a `.z` below all of the classes.
fn put_whole(text: &mut String, count: u32) -> Result<(), AllocError> {
    for number in 1..=count {
        write!(text, ".c{number} ")?;
    }
    text.push_str(".z{}")
}

fn sheet_of_all(alloc: Global, count: u32) -> Result<String, AllocError> {
    let mut text = String::new(alloc);
    put_each(&mut text, count)?;
    put_whole(&mut text, count)?;
    Ok(text)
}

// A box gets boxes of so many classes, and an `i` of the class `z`.
fn put_boxes(text: &mut String, count: u32) -> Result<(), AllocError> {
    for number in 1..=count {
        write!(
            text,
            "$('.box').append('<div class=\"box c{number}\"></div>'); "
        )?;
    }
    text.push_str("$('.box').append('<i class=z></i>')")
}

fn script_of_all(alloc: Global, count: u32, atoms: &mut AtomTable) -> Result<Vec<Stmt>, Fail> {
    let mut text = String::new(alloc);
    put_boxes(&mut text, count)?;
    Ok(script_of(alloc, text.as_str(), atoms)?)
}

fn said_of_all(
    alloc: Global,
    engine: Engine,
    count: u32,
    page: &Tree,
    sheet: &Sheet,
    atoms: &mut AtomTable,
) -> Result<String, Fail> {
    let stmts = script_of_all(alloc, count, atoms)?;
    let budget = (500, 100_000, 1_000);
    told(alloc, page, sheet, &stmts, atoms, engine, budget)
}

fn said_below_all(
    alloc: Global,
    engine: Engine,
    count: u32,
    page: &Tree,
    atoms: &mut AtomTable,
) -> Result<String, Fail> {
    let text = sheet_of_all(alloc, count)?;
    let sheet = read_sheet(alloc, text.as_bytes(), atoms)?;
    said_of_all(alloc, engine, count, page, &sheet, atoms)
}

fn said_with(alloc: Global, engine: Engine, count: u32) -> Result<String, Fail> {
    let mut atoms = AtomTable::new(alloc);
    let page = read_page(alloc, b"<div class='box'></div>", &mut atoms)?;
    said_below_all(alloc, engine, count, &page, &mut atoms)
}

// So many times the word.
fn repeated(alloc: Global, word: &str, count: u32) -> Result<String, AllocError> {
    let mut text = String::from_str(alloc, word)?;
    for _ in 1..count {
        write!(text, ", {word}")?;
    }
    Ok(text)
}

static OF_THREE: &str =
    "used 2 (1 on /1/0, 4 on /1/0/0, match /1/0/0/0), used 2 (2 on /1/0, 4 on /1/0/0, match /1/0/0/0), used 2 (3 on /1/0, 4 on /1/0/0, match /1/0/0/0), used 4 (1 on /1/0, 2 on /1/0/0, 3 on /1/0/0/0, 4 on /1/0/0/0/0, match /1/0/0/0/0/0)";

// The path of a node so many levels below the first box.
fn put_depth(text: &mut String, depth: u64) -> Result<(), AllocError> {
    text.push_str("/1/0")?;
    for _ in 0..depth {
        text.push_str("/0")?;
    }
    Ok(())
}

// A step so deep, of the statement of the next number.
fn put_deep_step(text: &mut String, depth: u32) -> Result<(), AllocError> {
    let number = u64::from(depth) + 1;
    write!(text, "{number} on ")?;
    put_depth(text, u64::from(depth))?;
    text.push_str(", ")
}

// So many steps and one more, each of them one level deeper than the one before, and the match.
fn put_deep_trace(text: &mut String, count: u32) -> Result<(), AllocError> {
    for depth in 0..=count {
        put_deep_step(text, depth)?;
    }
    text.push_str("match ")?;
    put_depth(text, u64::from(count) + 1)
}

// What is to be said of each of so many classes, and how what is said of all of them begins.
fn put_pairs(text: &mut String, count: u32) -> Result<(), AllocError> {
    let last = u64::from(count) + 1;
    for number in 1..=count {
        write!(
            text,
            "used 2 ({number} on /1/0, {last} on /1/0/0, match /1/0/0/0), "
        )?;
    }
    write!(text, "used {last} (")
}

// What is to be said of so many classes: each stands above a `.z` after two steps, and all of them after one step for each
// and one more.
fn wanted_of_all(alloc: Global, count: u32) -> Result<String, AllocError> {
    let mut text = String::new(alloc);
    put_pairs(&mut text, count)?;
    put_deep_trace(&mut text, count)?;
    text.push_str(")")?;
    Ok(text)
}

fn is_said(alloc: Global, engine: Engine, count: u32, wanted: &str) -> Result<bool, Fail> {
    Ok(said_with(alloc, engine, count)?.as_str() == wanted)
}

#[test]
fn three_classes(rt: HostRuntime) -> Result<(), Fail> {
    let alloc = rt.alloc();
    assert!(rt; is_said(alloc, Engine::Table, 3, OF_THREE)?);
    assert!(rt; is_said(alloc, ROOMY, 3, OF_THREE)?);
    Ok(())
}

fn are_labels_judged(alloc: Global) -> Result<bool, Fail> {
    let wanted = wanted_of_all(alloc, 32)?;
    is_said(alloc, ROOMY, 32, wanted.as_str())
}

fn are_labels_too_many(alloc: Global, engine: Engine) -> Result<bool, Fail> {
    let spent = repeated(alloc, "spent", 33)?;
    is_said(alloc, engine, 32, spent.as_str())
}

// Any of 32 classes may stand above a node, so there are more than four billion labels of parents.
#[test]
fn four_billion_labels(rt: HostRuntime) -> Result<(), Fail> {
    let alloc = rt.alloc();
    assert!(rt; are_labels_judged(alloc)?);
    assert!(rt; are_labels_too_many(alloc, Engine::Diagrams(2))?);
    assert!(rt; are_labels_too_many(alloc, Engine::Table)?);
    Ok(())
}

// A selector of 512 compounds.
fn put_long(text: &mut String, number: u32) -> Result<(), AllocError> {
    write!(text, ".c{number}")?;
    for _ in 1..512 {
        text.push_str(" > *")?;
    }
    text.push_str("{}")
}

// So many selectors of 512 compounds.
fn long_sheet(alloc: Global, count: u32) -> Result<String, AllocError> {
    let mut text = String::new(alloc);
    for number in 0..count {
        put_long(&mut text, number)?;
    }
    Ok(text)
}

fn said_below_long(
    alloc: Global,
    count: u32,
    page: &Tree,
    atoms: &mut AtomTable,
) -> Result<String, Fail> {
    let text = long_sheet(alloc, count)?;
    let sheet = read_sheet(alloc, text.as_bytes(), atoms)?;
    told(alloc, page, &sheet, &[], atoms, ROOMY, (0, 0, 0))
}

fn said_of_long(alloc: Global, count: u32) -> Result<String, Fail> {
    let mut atoms = AtomTable::new(alloc);
    let page = read_page(alloc, b"", &mut atoms)?;
    said_below_long(alloc, count, &page, &mut atoms)
}

fn is_long_said(alloc: Global, count: u32, wanted: &str) -> Result<bool, Fail> {
    Ok(said_of_long(alloc, count)?.as_str() == wanted)
}

// Three atoms serve this selector besides its names. A page has three names of its own.
static FULL: Row = ("", "html > body{}", "", (0, 0, 0), "TooManyAtoms");

fn enter(alloc: Global, atoms: &mut AtomTable, number: u32) -> Result<(), Fail> {
    let name = number.to_string(alloc)?;
    atoms.intern(AtomKind::Class, name.as_bytes())?;
    Ok(())
}

fn fill(alloc: Global, atoms: &mut AtomTable, count: u32) -> Result<(), Fail> {
    for number in 0..count {
        enter(alloc, atoms, number)?;
    }
    Ok(())
}

// Whether there is one atom too many where five names more would fill the table.
fn is_full_said(alloc: Global) -> Result<bool, Fail> {
    let mut atoms = AtomTable::new(alloc);
    fill(alloc, &mut atoms, MOST_ATOMS - 5)?;
    let page = read_page(alloc, FULL.0.as_bytes(), &mut atoms)?;
    Ok(said_of(alloc, ROOMY, &FULL, &page, &mut atoms)?.as_str() == FULL.4)
}

// A compound looks at its parent by one visible atom.
#[test]
fn limits_of_the_system(rt: HostRuntime) -> Result<(), Fail> {
    let alloc = rt.alloc();
    assert!(rt; is_long_said(alloc, 33, "TooManyVisible")?);
    assert!(rt; is_full_said(alloc)?);
    Ok(())
}

// A node of either side with the class of a level gives its parent a class of that level, and a node with what both sides
// give has the class of the next one.
fn put_level(text: &mut String, level: u32) -> Result<(), AllocError> {
    let next = u64::from(level) + 1;
    write!(text, "$('.l.d{level}').parent().addClass('p{level}'); ")?;
    write!(text, "$('.r.d{level}').parent().addClass('q{level}'); ")?;
    write!(text, "$('.p{level}.q{level}').addClass('d{next}'); ")
}

// A node gets a child of each side, and the class of the first level. A class of one level comes from both children of a node
// that have the class of the level below.
fn put_levels(text: &mut String, levels: u32) -> Result<(), AllocError> {
    text.push_str("$('.n').append('<div class=\"n l\"></div>'); ")?;
    text.push_str("$('.n').append('<div class=\"n r\"></div>'); ")?;
    text.push_str("$('.n').addClass('d1'); ")?;
    for level in 1..=levels {
        put_level(text, level)?;
    }
    Ok(())
}

fn doubling(alloc: Global, levels: u32, atoms: &mut AtomTable) -> Result<Vec<Stmt>, Fail> {
    let mut text = String::new(alloc);
    put_levels(&mut text, levels)?;
    Ok(script_of(alloc, text.as_str(), atoms)?)
}

fn said_by_doubling(
    alloc: Global,
    page: &Tree,
    sheet: &Sheet,
    atoms: &mut AtomTable,
) -> Result<String, Fail> {
    let stmts = doubling(alloc, 30, atoms)?;
    told(alloc, page, sheet, &stmts, atoms, ROOMY, AMPLE)
}

fn said_below_doubling(alloc: Global, page: &Tree, atoms: &mut AtomTable) -> Result<String, Fail> {
    let sheet = read_sheet(alloc, b".d31{}", atoms)?;
    said_by_doubling(alloc, page, &sheet, atoms)
}

fn said_doubling(alloc: Global) -> Result<String, Fail> {
    let mut atoms = AtomTable::new(alloc);
    let page = read_page(alloc, b"<div class='n'></div>", &mut atoms)?;
    said_below_doubling(alloc, &page, &mut atoms)
}

fn is_doubling_said(alloc: Global, wanted: &str) -> Result<bool, Fail> {
    Ok(said_doubling(alloc)?.as_str() == wanted)
}

// A class costs two appends, twice the steps of the class below, and three classes more: 6 * 2^30 - 5 for the 31st.
#[test]
fn six_billion_steps(rt: HostRuntime) -> Result<(), Fail> {
    assert!(rt; is_doubling_said(rt.alloc(), "used 6442450939")?);
    Ok(())
}
