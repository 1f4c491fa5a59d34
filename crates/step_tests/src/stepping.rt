use jq_sem::{act, run_whole, selects};
use jq_stmts::Stmt;
use rule_core::{ReplayFault, replay};
use std::alloc::Global;
use std::test::Fail;
use test_building::path_of;
use test_reading::{PAGE, Twist, has_class, page_of, script_of, statement_of, twisted};
use tp_base::{AtomTable, NoMemory, Path};
use tree_sem::{Step, Tree, TreeFault, go_on};

// The numbers of the nodes that a statement selects, in the order of the document.
fn selected(alloc: Global, s: &Stmt, tree: &Tree) -> Result<Vec<u32>, NoMemory> {
    let mut numbers = Vec::new(alloc);
    add_selected(alloc, s, tree, &mut numbers)?;
    Ok(numbers)
}

fn add_selected(
    alloc: Global,
    s: &Stmt,
    tree: &Tree,
    numbers: &mut Vec<u32>,
) -> Result<(), NoMemory> {
    let mut at = Path::root(alloc);
    for number in 0..tree.count() {
        if selects(alloc, s, tree, &at)? {
            numbers.push(number)?;
        }
        if tree.label(&at).is_none() || !go_on(tree, &mut at)? {
            break;
        }
    }
    Ok(())
}

// A statement, a twist of it, and the numbers of the nodes that are selected. The page's nodes are, by their numbers,
//     0 html - 1 head
//              2 body - 3 .a - 4 .b - 5 .c
//                                     6 .a.b
//                              7 .c - 8
//                       9 .b - 10 .a - 11 .c
//                              12 .c
//                       13 .d
type Selection = (&'static str, Twist, &'static [u32]);

static SELECTIONS: [Selection; 19] = [
    ("$('.a').addClass('d')", Twist::AsRead, &[3, 6, 10]),
    (
        "$('.d, .c').addClass('d')",
        Twist::AsRead,
        &[5, 7, 11, 12, 13],
    ),
    (
        "$('.a').each(function () { $(this).addClass('d') })",
        Twist::NoHandlers,
        &[],
    ),
    (
        "$('.a').find('.c').addClass('d')",
        Twist::AsRead,
        &[5, 7, 11],
    ),
    ("$('.a').find('.a').addClass('d')", Twist::AsRead, &[6]),
    (
        "$('.a').children('.c').addClass('d')",
        Twist::AsRead,
        &[7, 11],
    ),
    ("$('.a').parent('.b').addClass('d')", Twist::AsRead, &[4, 9]),
    (
        "$('.a').parents().addClass('d')",
        Twist::AsRead,
        &[0, 2, 3, 4, 9],
    ),
    (
        "$('.a').filter('.c, .b').addClass('d')",
        Twist::AsRead,
        &[6],
    ),
    ("$('.a').has('.c').addClass('d')", Twist::AsRead, &[3, 10]),
    (
        "$('.a').add('.d').addClass('d')",
        Twist::AsRead,
        &[3, 6, 10, 13],
    ),
    (
        "$('.a').add('.d').end().addClass('d')",
        Twist::AsRead,
        &[3, 6, 10],
    ),
    (
        "$('.a').find('.c').children().end().addClass('d')",
        Twist::AsRead,
        &[5, 7, 11],
    ),
    (
        "$('.a').find('.c').end().addClass('d')",
        Twist::EndLast,
        &[],
    ),
    (
        "$('.a').each(function () { $(this).find('.c').addClass('d') })",
        Twist::AsRead,
        &[5, 7, 11],
    ),
    (
        "$('.z').each(function () { $('.a').addClass('d') })",
        Twist::AsRead,
        &[],
    ),
    (
        "$('.d').each(function () { $('.a').addClass('d') })",
        Twist::AsRead,
        &[3, 6, 10],
    ),
    (
        "$('.b').each(function () { $(this).children().each(function () { $(this).parent().addClass('d') }) })",
        Twist::AsRead,
        &[4, 9],
    ),
    (
        "$('.b').each(function () { $(this).find('.z').each(function () { $('.a').addClass('d') }) })",
        Twist::AsRead,
        &[],
    ),
];

fn is_selected(alloc: Global, s: &Stmt, tree: &Tree, numbers: &[u32]) -> Result<bool, NoMemory> {
    Ok(selected(alloc, s, tree)?.as_slice() == numbers)
}

fn selects_in(
    alloc: Global,
    tree: &Tree,
    row: &Selection,
    atoms: &mut AtomTable,
) -> Result<bool, Fail> {
    let stmt = twisted(alloc, row.1, row.0, atoms)?;
    Ok(is_selected(alloc, &stmt, tree, row.2)?)
}

fn all_select(alloc: Global, tree: &Tree, atoms: &mut AtomTable) -> Result<bool, Fail> {
    for row in &SELECTIONS {
        if !selects_in(alloc, tree, row, atoms)? {
            return Ok(false);
        }
    }
    Ok(true)
}

fn selects_in_page(alloc: Global, atoms: &mut AtomTable) -> Result<bool, Fail> {
    let tree = page_of(alloc, PAGE, atoms)?;
    all_select(alloc, &tree, atoms)
}

#[test]
fn selects_nodes(rt: HostRuntime) -> Result<(), Fail> {
    let mut atoms = AtomTable::new(rt.alloc());
    assert!(rt; selects_in_page(rt.alloc(), &mut atoms)?);
    Ok(())
}

// The count of a tree, how many children the node at the path has, and whether it has the class d.
type Shape = (u32, Option<u32>, Option<bool>);

fn shape_at(tree: &Tree, at: &Path, atoms: &AtomTable) -> Shape {
    let given = tree.label(at).map(|label| has_class(label, "d", atoms));
    (tree.count(), tree.children(at), given)
}

fn shape(
    alloc: Global,
    tree: &Tree,
    numbers: &[u32],
    atoms: &AtomTable,
) -> Result<Shape, NoMemory> {
    let at = path_of(alloc, numbers)?;
    Ok(shape_at(tree, &at, atoms))
}

// A statement and the path of a node; what `act` answers, and the shape of the tree then, at a path.
type Deed = (
    &'static str,
    &'static [u32],
    Result<(), TreeFault>,
    &'static [u32],
    Shape,
);

const ADDS: &str = "$('.a').addClass('d')";

const INSIDE: &str = "$('.a').append('<div class=a><div class=b></div></div><div class=a></div>')";

const BESIDE: &str = "$('.a').after('<div class=a><div class=b></div></div><div class=a></div>')";

static DEEDS: [Deed; 9] = [
    (
        ADDS,
        &[1, 0, 0],
        Ok(()),
        &[1, 0, 0],
        (14, Some(2), Some(true)),
    ),
    (ADDS, &[], Ok(()), &[], (14, Some(2), Some(true))),
    (
        ADDS,
        &[1, 3],
        Err(TreeFault::NoSuchNode),
        &[1],
        (14, Some(3), Some(false)),
    ),
    (
        INSIDE,
        &[1, 0, 0],
        Ok(()),
        &[1, 0, 0],
        (17, Some(4), Some(false)),
    ),
    (
        INSIDE,
        &[1, 0, 0],
        Ok(()),
        &[1, 0, 0, 2],
        (17, Some(1), Some(false)),
    ),
    (
        INSIDE,
        &[1, 3],
        Err(TreeFault::NoSuchNode),
        &[1],
        (14, Some(3), Some(false)),
    ),
    (
        BESIDE,
        &[1, 0, 0],
        Ok(()),
        &[1, 0],
        (17, Some(4), Some(false)),
    ),
    (BESIDE, &[], Ok(()), &[], (14, Some(2), Some(false))),
    (
        BESIDE,
        &[1, 0, 2],
        Err(TreeFault::NoSuchNode),
        &[1, 0],
        (14, Some(2), Some(false)),
    ),
];

fn act_at(
    alloc: Global,
    s: &Stmt,
    tree: &mut Tree,
    numbers: &[u32],
) -> Result<Result<(), TreeFault>, NoMemory> {
    let at = path_of(alloc, numbers)?;
    Ok(act(alloc, s, tree, &at))
}

fn acts(alloc: Global, s: &Stmt, row: &Deed, atoms: &mut AtomTable) -> Result<bool, Fail> {
    let mut tree = page_of(alloc, PAGE, atoms)?;
    let answer = act_at(alloc, s, &mut tree, row.1)?;
    Ok(answer == row.2 && shape(alloc, &tree, row.3, atoms)? == row.4)
}

fn done(alloc: Global, row: &Deed, atoms: &mut AtomTable) -> Result<bool, Fail> {
    let stmt = statement_of(alloc, row.0, atoms)?;
    acts(alloc, &stmt, row, atoms)
}

// A statement; what `run_whole` answers, and the shape of the tree then, at a path.
type Run = (&'static str, Result<u32, TreeFault>, &'static [u32], Shape);

static RUNS: [Run; 7] = [
    (ADDS, Ok(3), &[1, 1, 0], (14, Some(1), Some(true))),
    (ADDS, Ok(3), &[1, 1], (14, Some(2), Some(false))),
    (INSIDE, Ok(3), &[1, 0, 0, 1], (23, Some(2), Some(false))),
    (
        "$('.c').after('<div class=a><div class=b></div></div><div class=a></div>')",
        Ok(4),
        &[1, 0, 0],
        (26, Some(4), Some(false)),
    ),
    // The root is selected, too, and nothing can stand beside it.
    (
        "$('.c').parents().after('<div class=a><div class=b></div></div><div class=a></div>')",
        Ok(6),
        &[1],
        (29, Some(7), Some(false)),
    ),
    (
        "$('.a').parent().after('<div class=a><div class=b></div></div><div class=a></div>')",
        Ok(3),
        &[1],
        (23, Some(5), Some(false)),
    ),
    (
        "$('.z').append('<div class=a><div class=b></div></div><div class=a></div>')",
        Ok(0),
        &[1],
        (14, Some(3), Some(false)),
    ),
];

fn runs(alloc: Global, s: &Stmt, row: &Run, atoms: &mut AtomTable) -> Result<bool, Fail> {
    let mut tree = page_of(alloc, PAGE, atoms)?;
    let answer = run_whole(alloc, s, &mut tree);
    Ok(answer == row.1 && shape(alloc, &tree, row.2, atoms)? == row.3)
}

fn ran(alloc: Global, row: &Run, atoms: &mut AtomTable) -> Result<bool, Fail> {
    let stmt = statement_of(alloc, row.0, atoms)?;
    runs(alloc, &stmt, row, atoms)
}

#[test]
fn acts_and_runs(rt: HostRuntime) -> Result<(), Fail> {
    let mut atoms = AtomTable::new(rt.alloc());
    for row in &DEEDS {
        assert!(rt; done(rt.alloc(), row, &mut atoms)?);
    }
    for row in &RUNS {
        assert!(rt; ran(rt.alloc(), row, &mut atoms)?);
    }
    Ok(())
}

fn steps_of(alloc: Global, steps: &[(u32, &'static [u32])]) -> Result<Vec<Step>, NoMemory> {
    let mut list = Vec::new(alloc);
    for (stmt, numbers) in steps {
        list.push(Step {
            stmt: *stmt,
            at: path_of(alloc, numbers)?,
        })?;
    }
    Ok(list)
}

// Statement 0 gives each `.a` a class, statement 1 puts trees inside each node that has it.
const SCRIPT: &str =
    "$('.a').addClass('d'); $('.d').append('<div class=a><div class=b></div></div><div class=a></div>')";

// Steps; what `replay` answers, and the shape of the tree then, at a path.
type Replay = (
    &'static [(u32, &'static [u32])],
    Result<(), ReplayFault>,
    &'static [u32],
    Shape,
);

static REPLAYS: [Replay; 7] = [
    (&[], Ok(()), &[1, 0], (14, Some(2), Some(false))),
    (
        &[(0, &[1, 0]), (1, &[1, 0])],
        Ok(()),
        &[1, 0],
        (17, Some(4), Some(true)),
    ),
    (
        &[(1, &[1, 0]), (0, &[1, 0])],
        Err(ReplayFault::IllegalStep(0)),
        &[1, 0],
        (14, Some(2), Some(false)),
    ),
    (
        &[(0, &[1, 0]), (2, &[1, 0])],
        Err(ReplayFault::IllegalStep(1)),
        &[1, 0],
        (14, Some(2), Some(true)),
    ),
    (
        &[(1, &[1, 2]), (0, &[1, 2, 0]), (1, &[1, 2, 0])],
        Ok(()),
        &[1, 2, 0],
        (20, Some(3), Some(true)),
    ),
    (
        &[(1, &[1, 2]), (1, &[1, 2, 0])],
        Err(ReplayFault::IllegalStep(1)),
        &[1, 2],
        (17, Some(2), Some(true)),
    ),
    (
        &[(0, &[1, 0]), (0, &[1, 4]), (1, &[1, 0])],
        Err(ReplayFault::IllegalStep(1)),
        &[1, 0],
        (14, Some(2), Some(true)),
    ),
];

fn replay_all(
    alloc: Global,
    stmts: &[Stmt],
    tree: &mut Tree,
    steps: &[(u32, &'static [u32])],
) -> Result<Result<(), ReplayFault>, NoMemory> {
    let steps = steps_of(alloc, steps)?;
    Ok(replay(alloc, stmts, tree, &steps))
}

fn replays(
    alloc: Global,
    stmts: &[Stmt],
    page: &Tree,
    row: &Replay,
    atoms: &AtomTable,
) -> Result<bool, NoMemory> {
    let mut tree = page.copy()?;
    let answer = replay_all(alloc, stmts, &mut tree, row.0)?;
    Ok(answer == row.1 && shape(alloc, &tree, row.2, atoms)? == row.3)
}

fn all_replay(
    alloc: Global,
    stmts: &[Stmt],
    page: &Tree,
    atoms: &AtomTable,
) -> Result<bool, NoMemory> {
    for row in &REPLAYS {
        if !replays(alloc, stmts, page, row, atoms)? {
            return Ok(false);
        }
    }
    // What was done to copies isn't seen in the page.
    Ok(shape(alloc, page, &[1, 0], atoms)? == (14, Some(2), Some(false)))
}

fn page_replays(alloc: Global, stmts: &[Stmt], atoms: &mut AtomTable) -> Result<bool, Fail> {
    let page = page_of(alloc, PAGE, atoms)?;
    Ok(all_replay(alloc, stmts, &page, atoms)?)
}

fn script_replays(alloc: Global, atoms: &mut AtomTable) -> Result<bool, Fail> {
    let stmts = script_of(alloc, SCRIPT, atoms)?;
    page_replays(alloc, &stmts, atoms)
}

#[test]
fn replays_steps(rt: HostRuntime) -> Result<(), Fail> {
    let mut atoms = AtomTable::new(rt.alloc());
    assert!(rt; script_replays(rt.alloc(), &mut atoms)?);
    Ok(())
}

fn selects_at(alloc: Global, s: &Stmt, tree: &Tree, numbers: &[u32]) -> Result<bool, NoMemory> {
    let at = path_of(alloc, numbers)?;
    selects(alloc, s, tree, &at)
}

// Whether the box is selected, and not the node above it.
fn selects_the_box(alloc: Global, s: &Stmt, page: &Tree) -> Result<bool, NoMemory> {
    let here = selects_at(alloc, s, page, &[1, 0])?;
    Ok(here && !selects_at(alloc, s, page, &[1])?)
}

fn acts_at_the_box(alloc: Global, s: &Stmt, page: &Tree) -> Result<bool, NoMemory> {
    let mut tree = page.copy()?;
    let answer = act_at(alloc, s, &mut tree, &[1, 0])?;
    Ok(answer == Ok(()) && tree.count() == 5)
}

// Whether the second step is refused, and the first is done in the copy alone.
fn refuses_the_second(alloc: Global, stmts: &[Stmt], page: &Tree) -> Result<bool, NoMemory> {
    let mut tree = page.copy()?;
    let answer = replay_all(alloc, stmts, &mut tree, &[(0, &[1, 0]), (0, &[1, 1])])?;
    Ok(answer == Err(ReplayFault::IllegalStep(1)) && tree.count() == 5 && page.count() == 4)
}

fn boxes_in_one(alloc: Global, stmts: &[Stmt], atoms: &mut AtomTable) -> Result<bool, Fail> {
    let page = page_of(alloc, "<div class=box></div>", atoms)?;
    let [stmt] = stmts else {
        return Ok(false);
    };
    Ok(
        selects_the_box(alloc, stmt, &page)?
            && acts_at_the_box(alloc, stmt, &page)?
            && refuses_the_second(alloc, stmts, &page)?,
    )
}

fn boxes_in_two(alloc: Global, stmts: &[Stmt], atoms: &mut AtomTable) -> Result<bool, Fail> {
    let mut page = page_of(alloc, "<div class=box></div><div class=box></div>", atoms)?;
    let [stmt] = stmts else {
        return Ok(false);
    };
    let answer = run_whole(alloc, stmt, &mut page);
    Ok(answer == Ok(2) && page.count() == 7)
}

// Into each box a box is put.
fn boxes_in_boxes(alloc: Global, atoms: &mut AtomTable) -> Result<bool, Fail> {
    let stmts = script_of(alloc, "$('.box').append('<div class=box></div>')", atoms)?;
    Ok(boxes_in_one(alloc, &stmts, atoms)? && boxes_in_two(alloc, &stmts, atoms)?)
}

#[test]
fn puts_boxes_in_boxes(rt: HostRuntime) -> Result<(), Fail> {
    let mut atoms = AtomTable::new(rt.alloc());
    assert!(rt; boxes_in_boxes(rt.alloc(), &mut atoms)?);
    Ok(())
}
