use node_marks::{Marks, NumberedTree};
use std::alloc::Global;
use std::test::Fail;
use test_building::{NodeRow, path_of, tree_of};
use tp_base::{Atom, NoMemory};
use tree_sem::TreeFault;

// How a set is made of two others.
#[derive(Clone, Copy)]
enum Made {
    Only,
    Every,
    No,
    First,
    Copy,
    Below,
    FarBelow,
    Over,
    FarOver,
    Beside,
    FreeOver,
    FirstIn,
    Both,
    Either,
    IfAny,
}

// The nodes are, by their numbers,
//     0 - 1 .a - 2 .b - 3
//                       4 .a
//         5 .b
static PAGE: [NodeRow; 5] = [
    (&[], &[A]),
    (&[0], &[B]),
    (&[0, 0], &[]),
    (&[0, 0], &[A]),
    (&[], &[B]),
];

const A: u32 = 0;

const B: u32 = 1;

const NONE: u32 = 2;

// How a set is made, the atoms of the nodes of the two that it is made of, and the marks of the six nodes.
type Row = (Made, u32, u32, [bool; 6]);

static ROWS: [Row; 18] = [
    (Made::Only, A, B, [false, false, false, false, true, false]),
    (Made::Every, A, B, [true, true, true, true, true, true]),
    (Made::No, A, B, [false, false, false, false, false, false]),
    (Made::First, A, B, [false, true, false, false, true, false]),
    (Made::First, B, A, [false, false, true, false, false, true]),
    (Made::Copy, B, A, [false, false, true, false, false, true]),
    (Made::Below, A, B, [false, false, true, false, false, false]),
    (
        Made::FarBelow,
        A,
        B,
        [false, false, true, true, true, false],
    ),
    (Made::Over, A, B, [true, false, true, false, false, false]),
    (Made::FarOver, A, B, [true, true, true, false, false, false]),
    (Made::Beside, A, B, [false, false, false, true, false, true]),
    (
        Made::Beside,
        B,
        A,
        [false, true, false, false, false, false],
    ),
    (
        Made::FreeOver,
        A,
        B,
        [true, false, true, false, false, false],
    ),
    (
        Made::FirstIn,
        B,
        A,
        [false, false, true, false, false, false],
    ),
    (Made::Both, A, B, [false, false, false, false, false, false]),
    (Made::Either, A, B, [false, true, true, false, true, true]),
    (Made::IfAny, A, B, [true, true, true, true, true, true]),
    (
        Made::IfAny,
        NONE,
        B,
        [false, false, false, false, false, false],
    ),
];

fn only(alloc: Global, nodes: &NumberedTree) -> Result<Marks, NoMemory> {
    let at = path_of(alloc, &[0, 0, 1])?;
    nodes.only(&at)
}

fn make(
    alloc: Global,
    nodes: &NumberedTree,
    how: Made,
    first: &Marks,
    second: &Marks,
) -> Result<Marks, NoMemory> {
    match how {
        Made::Only => only(alloc, nodes),
        Made::Every => nodes.every_node(),
        Made::No => nodes.no_node(),
        Made::First => nodes.in_both(first, first),
        Made::Copy => first.copy(),
        Made::Below => nodes.below(first),
        Made::FarBelow => nodes.far_below(first),
        Made::Over => nodes.over(first),
        Made::FarOver => nodes.far_over(first),
        Made::Beside => nodes.beside(first),
        Made::FreeOver => nodes.free_over(first, second),
        Made::FirstIn => nodes.first_in(first),
        Made::Both => nodes.in_both(first, second),
        Made::Either => nodes.in_either(first, second),
        Made::IfAny => nodes.if_any(first),
    }
}

fn marks_of(alloc: Global, nodes: &NumberedTree, row: &Row) -> Result<Marks, NoMemory> {
    let first = nodes.with_atoms(&[Atom(row.1)])?;
    let second = nodes.with_atoms(&[Atom(row.2)])?;
    make(alloc, nodes, row.0, &first, &second)
}

fn is_right(alloc: Global, nodes: &NumberedTree, row: &Row) -> Result<bool, NoMemory> {
    let marks = marks_of(alloc, nodes, row)?;
    Ok(marks.items() == row.3.as_slice())
}

fn are_right(alloc: Global, nodes: &NumberedTree) -> Result<bool, TreeFault> {
    for row in &ROWS {
        if !is_right(alloc, nodes, row)? {
            return Ok(false);
        }
    }
    Ok(true)
}

// Whether all rows are right on the page.
fn all_right(alloc: Global) -> Result<bool, TreeFault> {
    let tree = tree_of(alloc, &[], &PAGE)?;
    let nodes = NumberedTree::new(alloc, &tree)?;
    are_right(alloc, &nodes)
}

#[test]
fn sets_are_made(rt: HostRuntime) -> Result<(), Fail> {
    assert!(rt; all_right(rt.alloc())?);
    Ok(())
}
