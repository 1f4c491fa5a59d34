use guard_sem::{Guard, GuardNode, Guards, holds, of_selector};
use sel_text::{SelFault, Selector, read_strict_list};
use std::alloc::Global;
use std::test::Fail;
use test_building::path_of;
use test_reading::page_of;
use tp_base::{AtomTable, NoMemory};
use tree_sem::Tree;

// Where a guard is asked, seen from a node.
#[derive(Clone, Copy)]
enum Round {
    Here,
    Parent,
    Ancestor,
    Child,
    Descendant,
    Somewhere,
}

fn asked(alloc: Global, round: Round, g: Guard) -> Result<Guard, NoMemory> {
    let inner = Box::new(alloc, g)?;
    let node = match round {
        Round::Here => return Ok(Box::into_inner(inner)),
        Round::Parent => GuardNode::Parent(inner),
        Round::Ancestor => GuardNode::Ancestor(inner),
        Round::Child => GuardNode::Child(inner),
        Round::Descendant => GuardNode::Descendant(inner),
        Round::Somewhere => GuardNode::Somewhere(inner),
    };
    Ok(Guard { node })
}

// A page with one box: html with head, 0, and body, 1, which has it.
const PAGE: &str = "<div class=box></div>";

// A list of selectors, where its guard is asked, seen from a node, and whether it holds.
type Row = (Round, &'static str, &'static [u32], bool);

static ROWS: [Row; 20] = [
    (Round::Somewhere, ".box", &[0], true),
    (Round::Somewhere, ".box", &[2], false),
    (Round::Somewhere, ".boxes", &[0], false),
    (Round::Child, ".box", &[1], true),
    (Round::Child, ".box", &[1, 0], false),
    (Round::Child, ".box", &[], false),
    (Round::Descendant, ".box", &[], true),
    (Round::Descendant, ".box", &[1, 0], false),
    (Round::Parent, "body", &[1, 0], true),
    (Round::Parent, "body", &[1], false),
    (Round::Parent, "*", &[], false),
    (Round::Ancestor, "*", &[1, 0], true),
    (Round::Ancestor, "div", &[1, 0], false),
    (Round::Here, "*", &[0], true),
    (Round::Here, "*", &[1, 1], false),
    (Round::Here, "div.box", &[1, 0], true),
    (Round::Here, "body.box", &[1, 0], false),
    (Round::Here, "head, .box", &[1, 0], true),
    (Round::Here, "head, .box", &[1], false),
    (Round::Here, "", &[1, 0], false),
];

// The guard that asks for one of the selectors.
fn any_of(alloc: Global, list: &[Selector]) -> Result<Guard, NoMemory> {
    let mut guards = Vec::new(alloc);
    for selector in list {
        guards.push(of_selector(alloc, selector)?)?;
    }
    Ok(Guard {
        node: GuardNode::Any(Guards::new(guards)),
    })
}

fn listed(alloc: Global, text: &str, atoms: &mut AtomTable) -> Result<Vec<Selector>, SelFault> {
    if text.is_empty() {
        return Ok(Vec::new(alloc));
    }
    read_strict_list(alloc, text.as_bytes(), atoms)
}

fn guard_of(alloc: Global, row: &Row, atoms: &mut AtomTable) -> Result<Guard, SelFault> {
    let list = listed(alloc, row.1, atoms)?;
    Ok(asked(alloc, row.0, any_of(alloc, &list)?)?)
}

fn holds_so(alloc: Global, tree: &Tree, row: &Row, guard: &Guard) -> Result<bool, NoMemory> {
    let at = path_of(alloc, row.2)?;
    Ok(holds(alloc, tree, &at, guard)? == row.3)
}

fn is_right(
    alloc: Global,
    tree: &Tree,
    row: &Row,
    atoms: &mut AtomTable,
) -> Result<bool, SelFault> {
    let guard = guard_of(alloc, row, atoms)?;
    Ok(holds_so(alloc, tree, row, &guard)?)
}

fn are_right(alloc: Global, tree: &Tree, atoms: &mut AtomTable) -> Result<bool, Fail> {
    for row in &ROWS {
        if !is_right(alloc, tree, row, atoms)? {
            return Ok(false);
        }
    }
    Ok(true)
}

// Whether all rows are right on the page.
fn all_right(alloc: Global, atoms: &mut AtomTable) -> Result<bool, Fail> {
    let tree = page_of(alloc, PAGE, atoms)?;
    are_right(alloc, &tree, atoms)
}

#[test]
fn guards_hold(rt: HostRuntime) -> Result<(), Fail> {
    let mut atoms = AtomTable::new(rt.alloc());
    assert!(rt; all_right(rt.alloc(), &mut atoms)?);
    Ok(())
}
