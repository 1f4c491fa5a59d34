use crate::losing::Happening::{Cut, Run, Take};
use jq_stmts::Stmt;
use rule_core::{ReplayFault, replay_events};
use std::alloc::Global;
use std::test::Fail;
use test_building::path_of;
use test_reading::{PAGE, label_text, page_of, script_of};
use tp_base::{AtomFault, AtomKind, AtomTable, ClassSet, NoMemory, Path};
use tree_sem::{Event, Step, Tree};

// What happens at the node at a path: the one statement does its step there, a class goes, or the node with all below it.
enum Happening {
    Run(&'static [u32]),
    Take(&'static [u32], &'static str),
    Cut(&'static [u32]),
}

// A page, a statement and what happens; what `replay_events` answers, how many nodes there are then, and of the node at a
// path how many children it has, and its label.
struct Row {
    page: &'static str,
    script: &'static str,
    events: &'static [Happening],
    answer: Result<(), ReplayFault>,
    count: u32,
    at: &'static [u32],
    children: u32,
    label: &'static str,
}

const ADDS: &str = "$('.a').addClass('d')";

static ROWS: [Row; 18] = [
    Row {
        page: PAGE,
        script: ADDS,
        events: &[],
        answer: Ok(()),
        count: 14,
        at: &[1, 0],
        children: 2,
        label: " div .a",
    },
    Row {
        page: PAGE,
        script: ADDS,
        events: &[Run(&[1, 0])],
        answer: Ok(()),
        count: 14,
        at: &[1, 0],
        children: 2,
        label: " div .a .d",
    },
    // Without its class the node isn't selected.
    Row {
        page: PAGE,
        script: ADDS,
        events: &[Take(&[1, 0], "a"), Run(&[1, 0])],
        answer: Err(ReplayFault::IllegalStep(1)),
        count: 14,
        at: &[1, 0],
        children: 2,
        label: " div",
    },
    Row {
        page: "<p class=a></p>",
        script: "$('.a').addClass('b')",
        events: &[Take(&[1, 0], "a"), Run(&[1, 0])],
        answer: Err(ReplayFault::IllegalStep(1)),
        count: 4,
        at: &[1, 0],
        children: 0,
        label: " p",
    },
    // A class that isn't there may go.
    Row {
        page: PAGE,
        script: ADDS,
        events: &[Take(&[1, 0], "b"), Run(&[1, 0])],
        answer: Ok(()),
        count: 14,
        at: &[1, 0],
        children: 2,
        label: " div .a .d",
    },
    // Nothing goes where no node is, and the root stays.
    Row {
        page: PAGE,
        script: ADDS,
        events: &[Take(&[1, 3], "a")],
        answer: Err(ReplayFault::IllegalStep(0)),
        count: 14,
        at: &[1],
        children: 3,
        label: " body",
    },
    Row {
        page: PAGE,
        script: ADDS,
        events: &[Cut(&[])],
        answer: Err(ReplayFault::IllegalStep(0)),
        count: 14,
        at: &[],
        children: 2,
        label: " html",
    },
    Row {
        page: "<p class=a></p><p class=b></p>",
        script: "$('.b').addClass('c')",
        events: &[Cut(&[])],
        answer: Err(ReplayFault::IllegalStep(0)),
        count: 5,
        at: &[],
        children: 2,
        label: " html",
    },
    Row {
        page: PAGE,
        script: ADDS,
        events: &[Cut(&[1, 0, 2])],
        answer: Err(ReplayFault::IllegalStep(0)),
        count: 14,
        at: &[1, 0],
        children: 2,
        label: " div .a",
    },
    Row {
        page: PAGE,
        script: ADDS,
        events: &[Cut(&[1, 0])],
        answer: Ok(()),
        count: 8,
        at: &[1],
        children: 2,
        label: " body",
    },
    // The nodes on the right take the numbers of those that went.
    Row {
        page: PAGE,
        script: ADDS,
        events: &[Cut(&[1, 0]), Run(&[1, 0, 0])],
        answer: Ok(()),
        count: 8,
        at: &[1, 0, 0],
        children: 1,
        label: " div .a .d",
    },
    Row {
        page: PAGE,
        script: ADDS,
        events: &[Cut(&[1, 0]), Run(&[1, 0])],
        answer: Err(ReplayFault::IllegalStep(1)),
        count: 8,
        at: &[1, 0],
        children: 2,
        label: " div .b",
    },
    Row {
        page: "<p class=a></p><p class=b></p>",
        script: "$('.b').addClass('c')",
        events: &[Cut(&[1, 0]), Run(&[1, 0])],
        answer: Ok(()),
        count: 4,
        at: &[1, 0],
        children: 0,
        label: " p .b .c",
    },
    Row {
        page: PAGE,
        script: ADDS,
        events: &[Cut(&[1, 1, 1]), Cut(&[1, 1, 0, 0]), Run(&[1, 1, 0])],
        answer: Ok(()),
        count: 12,
        at: &[1, 1, 0],
        children: 0,
        label: " div .a .d",
    },
    Row {
        page: PAGE,
        script: ADDS,
        events: &[
            Run(&[1, 0, 0, 1]),
            Cut(&[1, 0, 0, 0]),
            Take(&[1, 0, 0, 0], "a"),
        ],
        answer: Ok(()),
        count: 13,
        at: &[1, 0, 0, 0],
        children: 0,
        label: " div .b .d",
    },
    // What went makes room for nodes that are added.
    Row {
        page: "<p class=a></p><p class=b></p>",
        script: "$('.b').append('<i class=c></i>')",
        events: &[Cut(&[1, 0]), Run(&[1, 0]), Run(&[1, 0])],
        answer: Ok(()),
        count: 6,
        at: &[1, 0],
        children: 2,
        label: " p .b",
    },
    Row {
        page: "<p class=a></p><p class=b></p>",
        script: "$('.b').append('<i class=c></i>')",
        events: &[Cut(&[1, 0]), Run(&[1, 0]), Run(&[1, 0])],
        answer: Ok(()),
        count: 6,
        at: &[1, 0, 1],
        children: 0,
        label: " i .c",
    },
    Row {
        page: "<p class=a></p><p class=b></p>",
        script: "$('.b').append('<i class=c></i>')",
        events: &[Run(&[1, 1]), Run(&[1, 1]), Cut(&[1, 1, 0]), Run(&[1, 1])],
        answer: Ok(()),
        count: 7,
        at: &[1, 1],
        children: 2,
        label: " p .b",
    },
];

fn taken(at: Path, name: &str, atoms: &mut AtomTable) -> Result<Event, AtomFault> {
    let class = atoms.intern(AtomKind::Class, name.as_bytes())?;
    Ok(Event::Take(at, class))
}

fn event(alloc: Global, happening: &Happening, atoms: &mut AtomTable) -> Result<Event, AtomFault> {
    match happening {
        Run(numbers) => Ok(Event::Step(Step {
            stmt: 0,
            at: path_of(alloc, numbers)?,
        })),
        Take(numbers, name) => taken(path_of(alloc, numbers)?, name, atoms),
        Cut(numbers) => Ok(Event::Cut(path_of(alloc, numbers)?)),
    }
}

fn events(
    alloc: Global,
    happenings: &[Happening],
    atoms: &mut AtomTable,
) -> Result<Vec<Event>, AtomFault> {
    let mut list = Vec::new(alloc);
    for happening in happenings {
        list.push(event(alloc, happening, atoms)?)?;
    }
    Ok(list)
}

fn replay_all(
    alloc: Global,
    stmts: &[Stmt],
    tree: &mut Tree,
    row: &Row,
    atoms: &mut AtomTable,
) -> Result<Result<(), ReplayFault>, AtomFault> {
    let events = events(alloc, row.events, atoms)?;
    Ok(replay_events(alloc, stmts, tree, &events))
}

fn is_labelled(
    alloc: Global,
    label: &ClassSet,
    text: &str,
    atoms: &AtomTable,
) -> Result<bool, NoMemory> {
    Ok(label_text(alloc, label, atoms)?.as_slice() == text.as_bytes())
}

fn is_node(
    alloc: Global,
    tree: &Tree,
    at: &Path,
    row: &Row,
    atoms: &AtomTable,
) -> Result<bool, NoMemory> {
    if tree.count() != row.count || tree.children(at) != Some(row.children) {
        return Ok(false);
    }
    match tree.label(at) {
        Some(label) => is_labelled(alloc, label, row.label, atoms),
        None => Ok(false),
    }
}

fn is_so(alloc: Global, tree: &Tree, row: &Row, atoms: &AtomTable) -> Result<bool, NoMemory> {
    let at = path_of(alloc, row.at)?;
    is_node(alloc, tree, &at, row, atoms)
}

fn replays(
    alloc: Global,
    stmts: &[Stmt],
    tree: &mut Tree,
    row: &Row,
    atoms: &mut AtomTable,
) -> Result<bool, AtomFault> {
    let answer = replay_all(alloc, stmts, tree, row, atoms)?;
    Ok(answer == row.answer && is_so(alloc, tree, row, atoms)?)
}

fn replays_on(
    alloc: Global,
    tree: &mut Tree,
    row: &Row,
    atoms: &mut AtomTable,
) -> Result<bool, Fail> {
    let stmts = script_of(alloc, row.script, atoms)?;
    Ok(replays(alloc, &stmts, tree, row, atoms)?)
}

fn replays_row(alloc: Global, row: &Row, atoms: &mut AtomTable) -> Result<bool, Fail> {
    let mut tree = page_of(alloc, row.page, atoms)?;
    replays_on(alloc, &mut tree, row, atoms)
}

fn replays_alone(alloc: Global, row: &Row) -> Result<bool, Fail> {
    let mut atoms = AtomTable::new(alloc);
    replays_row(alloc, row, &mut atoms)
}

#[test]
fn replays_events(rt: HostRuntime) -> Result<(), Fail> {
    for row in &ROWS {
        assert!(rt; replays_alone(rt.alloc(), row)?);
    }
    Ok(())
}
