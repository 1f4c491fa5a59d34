//! What is said of further guards.
ghost use Rattle.std.specs.Prelude.{◌≤◌, length, All, IfOk};
ghost use Rattle.guard_simplify.specs.Law.{IsOver};
ghost use Rattle.limits.specs.declared.budgets.TheConstants.{MOST_BRANCHES};
ghost use Rattle.proof_core.specs.declared.unfolded.TheConstants.{MOST_LISTED};

use crate::checks::is_given;
use crate::reading::script_of;
use crate::texts::answers_text;
use css_read::{Sheet, read_sheet};
use guard_sem::{Guard, GuardNode};
use html_subset::read_page;
use jq_stmts::Stmt;
use judge::{Both, JudgeFault, Limits, judge_more};
use std::alloc::{AllocError, Global};
use std::test::Fail;
use tp_base::{Atom, AtomFault, AtomKind, AtomTable, NoMemory};
use tree_sem::Tree;

const PAGE: &[u8] = b"<div class=m></div>";

const SHEET: &[u8] = b".m.open{}";

// There is no button before one is added.
const SCRIPT: &str =
    "$('.btn').click(function(){ $('.m').addClass('open'); }); $('.m').append('<a class=btn></a>')";

const OF_ITEMS: &str = "used 2 (2 on /1/0, 1 on /1/0, match /1/0)";

// Guards that ask for a class each, and what is said of them.
static CLASSES: [&str; 4] = ["btn", "m", "open", "none"];

const OF_CLASSES: &str =
    "used 1 (2 on /1/0, match /1/0/0), used 0 (match /1/0), used 2 (2 on /1/0, 1 on /1/0, match /1/0), unused";

fn limits() -> Limits
    ensures list { result.list ≤ MOST_LISTED }
    ensures nodes { result.nodes ≤ MOST_BRANCHES }
{
    Limits {
        plain: false,
        pairs: 1,
        nodes: 1_000,
        entries: 1_000,
        list: 1_000,
    }
}

// The atoms of the classes.
fn entered(alloc: Global, atoms: &mut AtomTable) -> Result<Vec<Atom>, AtomFault> {
    let mut classes = Vec::new(alloc);
    for class in &CLASSES {
        classes.push(atoms.intern(AtomKind::Class, class.as_bytes())?)?;
    }
    Ok(classes)
}

// A guard for each atom. One that isn't of the table is refused as if no memory was to be had.
fn guards_of(alloc: Global, classes: &[Atom], atoms: &AtomTable) -> Result<Vec<Guard>, NoMemory>
    ensures { IfOk result (λ v. All (IsOver (length atoms.now)) v.items) }
{
    let count = atoms.count();
    let mut guards = Vec::new(alloc);
    'classes: for atom in classes {
        if atom.0 >= count {
            return Err(NoMemory);
        }
        guards.push(Guard {
            node: GuardNode::Atom(*atom),
        })?;
    }
    Ok(guards)
}

#[tactic(auto, using(crate::proofs::OverLemmas::with_guards))]
fn judged(
    alloc: Global,
    page: &Tree,
    sheet: &Sheet,
    stmts: &[Stmt],
    guards: Vec<Guard>,
    atoms: &AtomTable,
) -> Result<Both, JudgeFault>
    requires { All (IsOver (length atoms.now)) guards.items }
{
    if !is_given(alloc, page, sheet, stmts, atoms)? {
        return Err(JudgeFault::Memory);
    }
    judge_more(alloc, page, sheet, stmts, guards, atoms, &limits())
}

fn is_said(alloc: Global, both: &Both) -> Result<bool, AllocError> {
    let of_items = answers_text(alloc, both.items.items())?;
    let of_classes = answers_text(alloc, both.extra.items())?;
    Ok(of_items.as_str() == OF_ITEMS && of_classes.as_str() == OF_CLASSES)
}

fn is_judged(
    alloc: Global,
    page: &Tree,
    sheet: &Sheet,
    stmts: &[Stmt],
    classes: &[Atom],
    atoms: &AtomTable,
) -> Result<bool, Fail> {
    let guards = guards_of(alloc, classes, atoms)?;
    let both = judged(alloc, page, sheet, stmts, guards, atoms)?;
    Ok(is_said(alloc, &both)?)
}

fn said_of_script(
    alloc: Global,
    page: &Tree,
    sheet: &Sheet,
    atoms: &mut AtomTable,
) -> Result<bool, Fail> {
    let stmts = script_of(alloc, SCRIPT, atoms)?;
    let classes = entered(alloc, atoms)?;
    is_judged(alloc, page, sheet, &stmts, &classes, atoms)
}

fn said_of_sheet(alloc: Global, page: &Tree, atoms: &mut AtomTable) -> Result<bool, Fail> {
    let sheet = read_sheet(alloc, SHEET, atoms)?;
    said_of_script(alloc, page, &sheet, atoms)
}

fn said_of_page(alloc: Global) -> Result<bool, Fail> {
    let mut atoms = AtomTable::new(alloc);
    let page = read_page(alloc, PAGE, &mut atoms)?;
    said_of_sheet(alloc, &page, &mut atoms)
}

#[test]
fn further_guards_are_answered(rt: HostRuntime) -> Result<(), Fail> {
    assert!(rt; said_of_page(rt.alloc())?);
    Ok(())
}
